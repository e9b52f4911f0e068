//! Parsers of type tags ([`parse_type`]) and of payloads of fixed width: booleans, numbers,
//! decimals, timestamps. They don't allocate.

ghost use Rattle.std.specs.Prelude.{◌≡◌, Some, IfOk, MatchResult};
ghost use Rattle.std.specs.Int.{w8, w16, w32, w64, cast_unsigned};
ghost use Rattle.amqp_value_core.specs.Names.{read_as};
ghost use Rattle.amqp_value_core.specs.View.{float_bits, double_bits};
ghost use Rattle.amqp_value_core.specs.Bytes.{IsBytes};
ghost use Rattle.amqp_value_core.specs.Values.{boolean, decimal};
ghost use Rattle.amq_protocol_types.specs.parsing.ParseResults.{IsRefusal};
ghost use Rattle.amq_protocol_types.specs.parsing.PayloadResults.{IsType, IsNoType, ReadsUnsigned, ReadsScalar, ReadsNumber};

use super::errors::{ErrorKind, ParserResult, error_of_kind, lacks};
use amqp_value_core::input::ParsableInput;
use amqp_value_core::types::{
    AMQPType, Boolean, DecimalValue, Double, Float, Identifier, LongInt, LongLongInt, LongLongUInt,
    LongUInt, ShortInt, ShortShortInt, ShortShortUInt, ShortUInt, Timestamp,
};

/// Parses a type tag, one byte. Returns `Incomplete` if there is none, and `Error` with `MapOpt` if
/// the byte is no type tag. Doesn't allocate.
#[inline(always)]
pub fn parse_type<I: ParsableInput>(i: I) -> ParserResult<I, AMQPType>
    ensures id { MatchResult result
        (λ x. IsType (I.bytes i) x.1 (I.bytes x.0))
        (IsRefusal (IsNoType (I.bytes i)) ⊥) }
    ensures read_back { IfOk result (λ x. read_as x.1 ≡ Some x.1) }
    ensures bytes { IsBytes (I.bytes i) }
{
    let (i, id) = parse_short_short_uint(i)?;
    match AMQPType::from_id(char::from(id)) {
        Some(amqp_type) => Ok((i, amqp_type)),
        None => Err(error_of_kind(ErrorKind::MapOpt)),
    }
}

/// Parses the number of a class or of a method, as `parse_short_uint` does.
#[inline(always)]
pub fn parse_id<I: ParsableInput>(i: I) -> ParserResult<I, Identifier>
    ensures { ReadsUnsigned w16 I.bytes i result }
{
    parse_short_uint(i)
}

/// Parses a boolean, one byte: 0 is false, every other byte true. Returns `Incomplete` if there is
/// none; there is no other error. Doesn't allocate.
#[inline(always)]
pub fn parse_boolean<I: ParsableInput>(i: I) -> ParserResult<I, Boolean>
    ensures { ReadsScalar AMQPType.Boolean boolean I.bytes i result }
{
    let (i, byte) = parse_short_short_uint(i)?;
    Ok((i, byte != 0))
}

/// Parses an unsigned integer of 8 bits from one byte. Returns `Incomplete(1)` if there is none;
/// there is no other error. Doesn't allocate.
#[inline(always)]
pub fn parse_short_short_uint<I: ParsableInput>(i: I) -> ParserResult<I, ShortShortUInt>
    ensures number { ReadsUnsigned w8 I.bytes i result }
    ensures payload { ReadsNumber AMQPType.ShortShortUInt (λ n. n) I.bytes i result }
    ensures bytes { IsBytes (I.bytes i) }
{
    if i.input_len() == 0 {
        return Err(lacks(1));
    }
    Ok((i.take_from(1), i.byte_at(0)))
}

/// Parses an unsigned integer of 16 bits from two bytes, big-endian. Returns `Incomplete` with the
/// number of missing bytes if there are fewer; there is no other error. Doesn't allocate.
#[inline(always)]
pub fn parse_short_uint<I: ParsableInput>(i: I) -> ParserResult<I, ShortUInt>
    ensures number { ReadsUnsigned w16 I.bytes i result }
    ensures payload { ReadsNumber AMQPType.ShortUInt (λ n. n) I.bytes i result }
{
    let there = i.input_len();
    if there < 2 {
        return Err(lacks(2 - there));
    }
    let n = u16::from_be_bytes([i.byte_at(0), i.byte_at(1)]);
    Ok((i.take_from(2), n))
}

/// Parses an unsigned integer of 32 bits from four bytes, big-endian. Returns `Incomplete` with the
/// number of missing bytes if there are fewer; there is no other error. Doesn't allocate.
#[inline(always)]
pub fn parse_long_uint<I: ParsableInput>(i: I) -> ParserResult<I, LongUInt>
    ensures number { ReadsUnsigned w32 I.bytes i result }
    ensures payload { ReadsNumber AMQPType.LongUInt (λ n. n) I.bytes i result }
    ensures bytes { IsBytes (I.bytes i) }
{
    let there = i.input_len();
    if there < 4 {
        return Err(lacks(4 - there));
    }
    let n = u32::from_be_bytes([i.byte_at(0), i.byte_at(1), i.byte_at(2), i.byte_at(3)]);
    Ok((i.take_from(4), n))
}

/// Parses an unsigned integer of 64 bits from eight bytes, big-endian. Returns `Incomplete` with
/// the number of missing bytes if there are fewer; there is no other error. Doesn't allocate. As a
/// value's payload `parse_raw_value` returns the signed integer of the same bits.
#[inline(always)]
pub fn parse_long_long_uint<I: ParsableInput>(i: I) -> ParserResult<I, LongLongUInt>
    ensures { ReadsUnsigned w64 I.bytes i result }
{
    let there = i.input_len();
    if there < 8 {
        return Err(lacks(8 - there));
    }
    let n = u64::from_be_bytes([
        i.byte_at(0),
        i.byte_at(1),
        i.byte_at(2),
        i.byte_at(3),
        i.byte_at(4),
        i.byte_at(5),
        i.byte_at(6),
        i.byte_at(7),
    ]);
    Ok((i.take_from(8), n))
}

/// Parses a signed integer of 8 bits from one byte. Returns `Incomplete(1)` if there is none; there
/// is no other error. Doesn't allocate.
#[inline(always)]
pub fn parse_short_short_int<I: ParsableInput>(i: I) -> ParserResult<I, ShortShortInt>
    ensures { ReadsNumber AMQPType.ShortShortInt (cast_unsigned w8) I.bytes i result }
{
    let (i, n) = parse_short_short_uint(i)?;
    Ok((i, n.cast_signed()))
}

/// Parses a signed integer of 16 bits from two bytes, big-endian. Returns `Incomplete` with the
/// number of missing bytes if there are fewer; there is no other error. Doesn't allocate.
#[inline(always)]
pub fn parse_short_int<I: ParsableInput>(i: I) -> ParserResult<I, ShortInt>
    ensures { ReadsNumber AMQPType.ShortInt (cast_unsigned w16) I.bytes i result }
{
    let (i, n) = parse_short_uint(i)?;
    Ok((i, n.cast_signed()))
}

/// Parses a signed integer of 32 bits from four bytes, big-endian. Returns `Incomplete` with the
/// number of missing bytes if there are fewer; there is no other error. Doesn't allocate.
#[inline(always)]
pub fn parse_long_int<I: ParsableInput>(i: I) -> ParserResult<I, LongInt>
    ensures { ReadsNumber AMQPType.LongInt (cast_unsigned w32) I.bytes i result }
{
    let (i, n) = parse_long_uint(i)?;
    Ok((i, n.cast_signed()))
}

/// Parses a signed integer of 64 bits from eight bytes, big-endian. Returns `Incomplete` with the
/// number of missing bytes if there are fewer; there is no other error. Doesn't allocate.
#[inline(always)]
pub fn parse_long_long_int<I: ParsableInput>(i: I) -> ParserResult<I, LongLongInt>
    ensures { ReadsNumber AMQPType.LongLongInt (cast_unsigned w64) I.bytes i result }
{
    let (i, n) = parse_long_long_uint(i)?;
    Ok((i, n.cast_signed()))
}

/// Parses a floating-point number of 32 bits from four bytes, big-endian. Returns `Incomplete` with
/// the number of missing bytes if there are fewer; there is no other error. Doesn't allocate. Each
/// combination of bits is a number, NaN included.
#[inline(always)]
pub fn parse_float<I: ParsableInput>(i: I) -> ParserResult<I, Float>
    ensures { ReadsNumber AMQPType.Float float_bits I.bytes i result }
{
    let (i, bits) = parse_long_uint(i)?;
    Ok((i, Float::from_bits(bits)))
}

/// Parses a floating-point number of 64 bits from eight bytes, big-endian. Returns `Incomplete`
/// with the number of missing bytes if there are fewer; there is no other error. Doesn't allocate.
/// Each combination of bits is a number, NaN included.
#[inline(always)]
pub fn parse_double<I: ParsableInput>(i: I) -> ParserResult<I, Double>
    ensures { ReadsNumber AMQPType.Double double_bits I.bytes i result }
{
    let (i, bits) = parse_long_long_uint(i)?;
    Ok((i, Double::from_bits(bits)))
}

/// Parses a time, an unsigned integer of 64 bits, from eight bytes, big-endian. It is in seconds
/// since 1970 by the standard (AMQP 0-9-1, section 4.2.5.4), which isn't checked. Returns
/// `Incomplete` with the number of missing bytes if there are fewer. Doesn't allocate.
#[inline(always)]
pub fn parse_timestamp<I: ParsableInput>(i: I) -> ParserResult<I, Timestamp>
    ensures { ReadsNumber AMQPType.Timestamp (λ n. n) I.bytes i result }
{
    let (i, seconds) = parse_long_long_uint(i)?;
    Ok((i, seconds))
}

/// Parses a decimal number: its scale in one byte, then its digits as an unsigned integer in four
/// bytes, big-endian. Returns `Incomplete` with the number of bytes that the scale, or then the
/// digits, are missing; there is no other error. Doesn't allocate.
#[inline(always)]
pub fn parse_decimal_value<I: ParsableInput>(i: I) -> ParserResult<I, DecimalValue>
    ensures { ReadsScalar AMQPType.DecimalValue (λ d. decimal d.scale d.value) I.bytes i result }
{
    let (i, scale) = parse_short_short_uint(i)?;
    let (i, value) = parse_long_uint(i)?;
    Ok((i, DecimalValue { scale, value }))
}
