//! [`ValueReader`] holds a reader, and reads one value after another from it. Its `next` only calls
//! `next_from` of the [`Values`] (`values.rt`) in it. Both types are public.

ghost use Rattle.std.specs.Prelude.{◌≡◌, ◌<◌, false, []};
ghost use Rattle.amq_protocol_types.specs.stream.Readers.{values_of, reader_of, kept, has_failed, limits_of, ReadsNext};

use super::error::StreamError;
use super::source::Source;
use super::values::Values;
use crate::parsing::Limits;
use amqp_value_core::value::AMQPValue;
use std::alloc::Global;

/// Reads values from a reader, one after another, each within limits.
///
/// If the reader's model has its bytes, as a slice's has, no byte after the value that it returns
/// is read. A file's, a socket's and standard input's have none: for such, tests show it, and for
/// all that no more bytes are asked for than the field being read needs. At most `limits.frame`
/// bytes are retained in its model; the buffer for them, which no clause is about, stays until it
/// is dropped. It uses stack as `parse_value_within` does.
#[derive(Drop)]
pub struct ValueReader<R> {
    values: Values,
    reader: R,
}

impl<R: Source> ValueReader<R> {
    /// Makes a reader of values that has read nothing. It doesn't allocate. Precondition:
    /// `limits.frame` isn't 0.
    pub fn new(alloc: Global, reader: R, limits: Limits) -> Self
        requires { 0 < limits.frame }
        ensures reader { reader_of result ≡ reader }
        ensures limits { limits_of (values_of result) ≡ limits }
        ensures kept { kept (values_of result) ≡ [] }
        ensures not_failed { has_failed (values_of result) ≡ false }
    {
        ValueReader {
            values: Values::new(alloc, limits),
            reader,
        }
    }

    /// Reads the next value; returns `None` if the reader ended after the value before. After
    /// `None` a later call asks the reader again. After `Refused` or `Truncated` each later call
    /// returns `Failed`, and after `Read` or `OutOfMemory` it continues.
    pub fn next(&mut self) -> Result<Option<AMQPValue>, StreamError>
        ensures { ReadsNext R.Source (values_of self.old) (reader_of self.old) result
            (values_of self.new) (reader_of self.new) }
    {
        self.values.next_from(&mut self.reader)
    }

    /// Returns the reader. What is retained of an incomplete value is dropped.
    pub fn into_inner(self) -> R
        ensures { result ≡ reader_of self }
    {
        let ValueReader { reader, .. } = self;
        reader
    }
}
