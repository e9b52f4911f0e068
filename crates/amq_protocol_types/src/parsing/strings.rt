//! Parsers of strings and byte arrays: a length, then as many bytes.

ghost use Rattle.std.specs.Prelude.{◌≡◌, ◌<◌, length, MatchOption, MatchResult, IfOk, IfErr};
ghost use Rattle.std.specs.Str.{IsUtf8};
ghost use Rattle.amqp_value_core.specs.Values.{short, long, octets};
ghost use Rattle.amqp_value_core.specs.View.{long_bytes, octets_of};
ghost use Rattle.amqp_value_core.specs.Outcomes.{RawOutcome, RawHeavy, found};
ghost use Rattle.amq_protocol_types.specs.parsing.ParseResults.{RefusesAs, IsRefusal};
ghost use Rattle.amq_protocol_types.specs.parsing.PayloadResults.{OnlyLacks, RawRefuses};
ghost use Rattle.amq_protocol_types.specs.parsing.Bodies.{IsLengthPrefixed, IsCutLengthPrefixed};

use super::bytes::{copy_by_chunks, copy_of};
use super::errors::{ErrorKind, ParserError, ParserResult, error_of_kind, lacks, out_of_memory};
use super::scalars::{parse_long_uint, parse_short_short_uint};
use amqp_value_core::input::ParsableInput;
use amqp_value_core::types::{AMQPType, ByteArray, LongString, ShortString, TryCopyError};
use std::alloc::Global;

/// Parses a short string: its length in one byte, then its bytes, which must be UTF-8 (AMQP 0-9-1,
/// section 4.2.5.3).
///
/// Returns `Incomplete` with the number of missing bytes, first for the length and then for the
/// bytes; `Error` with `MapRes` if all bytes are there and they aren't UTF-8; `Failure` if an
/// allocation fails. It allocates only for a string that isn't empty.
#[inline(always)]
pub fn parse_short_string<I: ParsableInput>(alloc: Global, i: I) -> ParserResult<I, ShortString>
    ensures { MatchResult result
        (λ x. RawOutcome AMQPType.ShortString (I.bytes i) (found (short x.1) (I.bytes x.0)))
        (RawRefuses AMQPType.ShortString (I.bytes i)) }
{
    let (i, len) = parse_short_short_uint(i)?;
    let len = usize::from(len);
    let there = i.input_len();
    if there < len {
        return Err(lacks(len - there));
    }
    let body = i.take(len);
    let chunk = body.chunk();
    // bytes that aren't contiguous are joined first
    let text = if chunk.len() < len {
        short_string(alloc, copy_by_chunks(alloc, body)?.as_slice())?
    } else {
        short_string(alloc, chunk)?
    };
    Ok((i.take_from(len), text))
}

// The short string that bytes are, if they are UTF-8. It allocates only if there are any.
#[inline(always)]
fn short_string(alloc: Global, bytes: &[u8]) -> Result<ShortString, ParserError>
    requires { length bytes.now < 256 }
    ensures ok { IfOk result (λ text. (text ≡ bytes.now) × IsUtf8 bytes.now) }
    ensures err { IfErr result (RefusesAs (λ kind. (kind ≡ ErrorKind.MapRes) × (IsUtf8 bytes.now → ⊥))
        (λ _. ⊥) (0 < length bytes.now)) }
{
    let Some(text) = text_of(bytes) else {
        return Err(error_of_kind(ErrorKind::MapRes));
    };
    match ShortString::try_copy(alloc, text) {
        Ok(text) => Ok(text),
        Err(TryCopyError::OutOfMemory) => Err(out_of_memory()),
        Err(TryCopyError::TooLong(_)) => unreachable!(),
    }
}

// The string that bytes are, if they are UTF-8. Most keys are ASCII, which takes less to check.
#[inline(always)]
fn text_of(bytes: &[u8]) -> Option<&str>
    ensures { MatchOption result (IsUtf8 bytes.now → ⊥)
        (λ text. (text.now ≡ bytes.now) × IsUtf8 bytes.now) }
{
    if bytes.is_ascii() {
        return Some(unsafe { str::from_utf8_unchecked(bytes) });
    }
    match str::from_utf8(bytes) {
        Ok(text) => Some(text),
        Err(_) => None,
    }
}

/// Parses a long string: its length in four bytes, big-endian, then its bytes, which are arbitrary.
///
/// Returns `Incomplete` with the number of missing bytes, first for the length and then for the
/// bytes, and `Failure` if an allocation fails. It allocates only for a string that isn't empty and
/// whose bytes are all there.
#[inline(always)]
pub fn parse_long_string<I: ParsableInput>(alloc: Global, i: I) -> ParserResult<I, LongString>
    ensures { MatchResult result
        (λ x. RawOutcome AMQPType.LongString (I.bytes i)
        (found (long (long_bytes x.1)) (I.bytes x.0)))
        (OnlyLacks (RawOutcome AMQPType.LongString (I.bytes i))
        (RawHeavy AMQPType.LongString (I.bytes i))) }
{
    let (i, body) = parse_length_prefixed(i)?;
    let bytes = copy_of(alloc, body)?;
    Ok((i, LongString::from(bytes)))
}

/// Parses a byte array: its length in four bytes, big-endian, then its bytes. Errors and memory are
/// as in `parse_long_string`.
pub fn parse_byte_array<I: ParsableInput>(alloc: Global, i: I) -> ParserResult<I, ByteArray>
    ensures { MatchResult result
        (λ x. RawOutcome AMQPType.ByteArray (I.bytes i)
        (found (octets (octets_of x.1)) (I.bytes x.0)))
        (OnlyLacks (RawOutcome AMQPType.ByteArray (I.bytes i))
        (RawHeavy AMQPType.ByteArray (I.bytes i))) }
{
    let (i, body) = parse_length_prefixed(i)?;
    let bytes = copy_of(alloc, body)?;
    Ok((i, ByteArray::from(bytes)))
}

/// Parses a length in four bytes, big-endian, and returns as many bytes after it, as an input of
/// their own. Returns `Incomplete` with the number of missing bytes, first for the length and then
/// for the bytes; there is no other error. It doesn't copy or allocate.
#[inline(always)]
pub fn parse_length_prefixed<I: ParsableInput>(i: I) -> ParserResult<I, I>
    ensures { MatchResult result
        (λ x. IsLengthPrefixed (I.bytes i) (I.bytes x.1) (I.bytes x.0))
        (IsRefusal (IsCutLengthPrefixed (I.bytes i)) ⊥) }
{
    let (i, len) = parse_long_uint(i)?;
    let len = len as usize;
    let there = i.input_len();
    if there < len {
        return Err(lacks(len - there));
    }
    Ok((i.take_from(len), i.take(len)))
}
