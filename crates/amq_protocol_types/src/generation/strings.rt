//! Generators of strings and byte arrays: a length, then the bytes.

ghost use Rattle.std.specs.Prelude.{◌<◌, ◌≤◌, ◌^◌, length};
ghost use Rattle.amqp_value_core.specs.Grammar.{short_field, long_field};
ghost use Rattle.amqp_value_core.specs.View.{octets_of};
ghost use Rattle.amq_protocol_types.specs.generation.Outputs.{Writes};
ghost use Rattle.amq_protocol_types.specs.generation.BufferOutput.{RefusedAsLong};
ghost use Rattle.amq_protocol_types.specs.generation.Contexts.{state_of, KeepsStart};

use crate::generation::{GenError, GenResult, Output, WriteContext};
use amqp_value_core::types::ByteArray;

/// Writes a string of at most 255 bytes after its length in one byte.
///
/// A longer string is rejected with `LengthTooLong` before a byte is written, whatever the
/// capacity.
pub fn gen_short_string<W: Output>(s: &str, x: &mut WriteContext<W>) -> GenResult
    ensures written { Writes W.is_buffer (length s.now ≤ 255) (short_field s.now)
        (state_of W.seen x.old) result (state_of W.seen x.new) }
    ensures too_long { 255 < length s.now
        → RefusedAsLong (state_of W.seen x.old) result (state_of W.seen x.new) }
    ensures start { KeepsStart x.old x.new }
{
    if s.len() > 255 {
        return Err(GenError::LengthTooLong);
    }
    x.put_both(&[s.len() as u8], s.as_bytes())
}

/// Writes at most 4294967295 bytes after their length in four bytes, big-endian.
///
/// More bytes are rejected with `LengthTooLong` before a byte is written, whatever the capacity.
pub fn gen_long_string<W: Output>(s: &[u8], x: &mut WriteContext<W>) -> GenResult
    ensures written { Writes W.is_buffer (length s.now < 2 ^ 32) (long_field s.now)
        (state_of W.seen x.old) result (state_of W.seen x.new) }
    ensures too_long { 2 ^ 32 ≤ length s.now
        → RefusedAsLong (state_of W.seen x.old) result (state_of W.seen x.new) }
    ensures start { KeepsStart x.old x.new }
{
    if s.len() > 0xffff_ffff {
        return Err(GenError::LengthTooLong);
    }
    x.put_both(&u32::to_be_bytes(s.len() as u32), s)
}

/// Writes at most 4294967295 bytes after their length in four bytes, big-endian.
///
/// More bytes are rejected with `LengthTooLong` before a byte is written, whatever the capacity.
pub fn gen_byte_array<W: Output>(a: &ByteArray, x: &mut WriteContext<W>) -> GenResult
    ensures written { Writes W.is_buffer (length (octets_of a.now) < 2 ^ 32)
        (long_field (octets_of a.now))
        (state_of W.seen x.old) result (state_of W.seen x.new) }
    ensures too_long { 2 ^ 32 ≤ length (octets_of a.now)
        → RefusedAsLong (state_of W.seen x.old) result (state_of W.seen x.new) }
    ensures start { KeepsStart x.old x.new }
{
    gen_long_string(a.as_slice(), x)
}
