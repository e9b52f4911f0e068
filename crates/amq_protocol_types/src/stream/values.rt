//! [`Values`] reads one value after another from the reader that each call is passed. It does the
//! work of a `ValueReader` (`reader.rt`), which holds a `Values` and a reader.

ghost use Rattle.std.specs.Prelude.{◌≡◌, ◌<◌, ◌≤◌, false, []};
ghost use Rattle.std.proofs.Props.{props};
ghost use Rattle.amq_protocol_types.specs.parsing.Headers.{IsWaiting, IsWholeValue, extent, wanted};

use super::error::StreamError;
use super::pending::Pending;
use super::source::Source;
use crate::parsing::errors::refusal;
use crate::parsing::header::{Header, header_of};
use crate::parsing::values::value_within;
use crate::parsing::{Err, ErrorKind, Limits, SliceInput};
use amqp_value_core::value::AMQPValue;
use std::alloc::Global;

/// The state of a reader of values between its calls, each of which is passed the reader. A
/// `ValueReader` holds the reader itself.
#[derive(Drop)]
pub struct Values {
    alloc: Global,
    limits: Limits,
    pending: Pending,
    failed: bool,
    ghost some: { 0 < limits.frame },
    ghost waiting: { IsWaiting limits.frame pending } by { Prim.hlevel props },
}

impl Values {
    ghost use Rattle.amq_protocol_types.specs.stream.Sources.{KeepsKind, IsNoRead};
    ghost use Rattle.amq_protocol_types.specs.stream.Readers.{kept, has_failed, limits_of, IsOutcomeOfKept, IsOutcomeAtEnd, ReadsOutcome, ReadsNext};

    /// Makes a state with nothing retained. It doesn't allocate. Precondition: `limits.frame` isn't
    /// 0.
    pub fn new(alloc: Global, limits: Limits) -> Self
        requires { 0 < limits.frame }
        ensures limits { limits_of result ≡ limits }
        ensures kept { kept result ≡ [] }
        ensures not_failed { has_failed result ≡ false }
    {
        Values {
            alloc,
            limits,
            pending: Pending::new_in(alloc),
            failed: false,
        }
    }

    /// Reads the next value; returns `None` if the reader ended after the value before. The reader
    /// may be another one each time: an incomplete value is continued from it. Errors are as in
    /// `ValueReader::next`.
    pub fn next_from<R: Source>(&mut self, reader: &mut R) -> Result<Option<AMQPValue>, StreamError>
        ensures { ReadsNext R.Source self.old reader.old result self.new reader.new }
    {
        if self.failed {
            return Err(StreamError::Failed);
        }
        self.read_value(reader)
    }

    // Reads until the value is complete, or isn't one.
    #[tactic(auto, using(crate::proofs::Refusals::unknown_within))]
    fn read_value<R: Source>(&mut self, reader: &mut R) -> Result<Option<AMQPValue>, StreamError>
        requires not_failed { has_failed self.old ≡ false }
        ensures outcome { ReadsOutcome R.Source self.old reader.old result self.new reader.new }
        ensures kind { KeepsKind R.goes R.fails reader.old result reader.new }
        ensures limits { limits_of self.new ≡ limits_of self.old }
    {
        'reads: loop {
            match header_of(SliceInput::new(self.pending.as_slice()), self.limits.frame) {
                Header::Unknown => {
                    self.failed = true;
                    return Err(StreamError::Refused(refusal(ErrorKind::MapOpt)));
                }
                Header::TooLarge => {
                    self.failed = true;
                    return Err(StreamError::Refused(refusal(ErrorKind::TooLarge)));
                }
                Header::Whole => return self.whole(),
                Header::Lacks(n) => {
                    if self.pending.fill_from(reader, n)? == 0 {
                        return self.result_at_end();
                    }
                }
            }
        }
    }

    // The value that is retained completely.
    #[tactic(auto, using(crate::proofs::Refusals::whole_asks_none))]
    fn whole(&mut self) -> Result<Option<AMQPValue>, StreamError>
        requires not_failed { has_failed self.old ≡ false }
        requires whole { IsWholeValue (kept self.old) }
        requires within { extent (kept self.old) ≤ self.old.limits.frame }
        ensures outcome { IsOutcomeOfKept self.old result self.new }
        ensures no_read { IsNoRead result }
        ensures limits { limits_of self.new ≡ limits_of self.old }
    {
        match value_within(
            self.alloc,
            SliceInput::new(self.pending.as_slice()),
            self.limits.depth as usize,
        ) {
            Ok((_, value)) => {
                self.pending.clear();
                Ok(Some(value))
            }
            Err(Err::Incomplete(_)) => unreachable!(),
            Err(Err::Error(error)) => {
                self.failed = true;
                Err(StreamError::Refused(error))
            }
            Err(Err::Failure(_)) => Err(StreamError::OutOfMemory),
        }
    }

    // What is returned if the reader ended.
    fn result_at_end(&mut self) -> Result<Option<AMQPValue>, StreamError>
        requires not_failed { has_failed self.old ≡ false }
        requires wants { 0 < wanted (kept self.old) }
        requires within { extent (kept self.old) ≤ self.old.limits.frame }
        ensures outcome { IsOutcomeAtEnd self.old result self.new }
        ensures no_read { IsNoRead result }
        ensures limits { limits_of self.new ≡ limits_of self.old }
    {
        if self.pending.as_slice().is_empty() {
            return Ok(None);
        }
        self.failed = true;
        Err(StreamError::Truncated)
    }
}
