//! [`parse_value`], and parsers of payloads, arrays and tables. `within.rt` and `stream/values.rt`
//! call those that take a depth, such as [`value_within`].

ghost use Rattle.std.specs.Prelude.{◌≡◌, ◌≢◌, ◌<◌, ◌-◌, MatchResult, IfOk, length};
ghost use Rattle.amqp_value_core.specs.Values.{array, table};
ghost use Rattle.amqp_value_core.specs.Nesting.{BodyWithin, OutcomeWithin, RawOutcomeWithin};
ghost use Rattle.amqp_value_core.specs.Outcomes.{Outcome, Heavy, RawHeavy, found, RawOutcome};
ghost use Rattle.amqp_value_core.specs.View.{view};
ghost use Rattle.amqp_value_core.specs.Containers.{array_view, table_view};
ghost use Rattle.amqp_value_core.specs.Headline.{IsWritableIn};
ghost use Rattle.amq_protocol_types.specs.parsing.ParseResults.{Refuses, IsRefusal, HasOneOutcome, KeepsOutcome};
ghost use Rattle.amq_protocol_types.specs.parsing.PayloadResults.{RawRefuses};
ghost use Rattle.amq_protocol_types.specs.parsing.Bodies.{IsNoBody, IsTable, IsNoTable};

use super::errors::{ErrorKind, ParserError, ParserResult, error_of_kind, inside};
use super::pairs::TableBuilder;
use super::scalars::{
    parse_boolean, parse_decimal_value, parse_double, parse_float, parse_long_int,
    parse_long_long_int, parse_long_uint, parse_short_int, parse_short_short_int,
    parse_short_short_uint, parse_short_uint, parse_timestamp, parse_type,
};
use super::strings::{
    parse_byte_array, parse_length_prefixed, parse_long_string, parse_short_string,
};
use amqp_value_core::input::ParsableInput;
use amqp_value_core::types::{AMQPType, FieldArray, FieldTable};
use amqp_value_core::value::AMQPValue;
use std::alloc::Global;

/// Parses a value: its type tag, then its payload.
///
/// It returns `Incomplete` with the number of further bytes that the field being read needs,
/// `Error` if the first byte is no type tag (`MapOpt`) or a complete array or table is malformed
/// (`Eof`), and `Failure` if an allocation failed.
///
/// A parsed value can be written again, in no more bytes than it was parsed from. It uses stack for
/// each level of nesting, which only the input's length bounds: for bytes from untrusted peers use
/// `parse_value_within`. docs/PROMISES.md has measurements. It allocates only for strings, byte
/// arrays and containers whose bytes are all there.
#[inline(always)]
pub fn parse_value<I: ParsableInput>(alloc: Global, i: I) -> ParserResult<I, AMQPValue>
    ensures outcome { MatchResult result
        (λ x. Outcome (I.bytes i) (found (view x.1) (I.bytes x.0)))
        (Refuses (I.bytes i)) }
    ensures one { HasOneOutcome (I.bytes i) }
    ensures more_bytes { KeepsOutcome (I.bytes i) }
    ensures bounded { IfOk result (λ x.
        IsWritableIn (length (I.bytes i) - length (I.bytes x.0)) (view x.1)) }
{
    let (i, amqp_type) = parse_type(i)?;
    parse_raw_value(alloc, amqp_type, i)
}

/// Parses a value in which containers nest at most `depth` deep.
#[cycle(parser)]
#[inline(always)]
pub(crate) fn value_within<I: ParsableInput>(
    alloc: Global,
    i: I,
    depth: usize,
) -> ParserResult<I, AMQPValue>
    ensures { MatchResult result
        (λ x. OutcomeWithin depth (I.bytes i) (found (view x.1) (I.bytes x.0)))
        (IsRefusal (OutcomeWithin depth (I.bytes i)) (Heavy (I.bytes i))) }
{
    let (i, amqp_type) = parse_type(i)?;
    payload_within(alloc, amqp_type, i, depth)
}

/// Parses the payload of a value of the type, without its type tag.
///
/// For `LongLongUInt` it returns the `LongLongInt` of the same bits. Errors and memory are as in
/// `parse_value`, except that there is no type tag to reject, and that a complete `ShortString`
/// that isn't UTF-8 is `MapRes`. Like `parse_value` it has no limit on nesting.
#[inline(always)]
pub fn parse_raw_value<I: ParsableInput>(
    alloc: Global,
    amqp_type: AMQPType,
    i: I,
) -> ParserResult<I, AMQPValue>
    ensures { MatchResult result
        (λ x. RawOutcome amqp_type (I.bytes i) (found (view x.1) (I.bytes x.0)))
        (RawRefuses amqp_type (I.bytes i)) }
{
    match amqp_type {
        AMQPType::ShortString => {
            let (i, s) = parse_short_string(alloc, i)?;
            Ok((i, AMQPValue::ShortString(s)))
        }
        _ => payload_within(alloc, amqp_type, i, i.input_len()),
    }
}

// Reads the payload of a value of the type, which isn't `ShortString`: no type tag denotes that
// one.
#[cycle(parser)]
#[inline(always)]
// The tactic names the lemma that the errors of most arms share.
#[tactic(auto, using(crate::proofs::Payloads::plain_lacks))]
fn payload_within<I: ParsableInput>(
    alloc: Global,
    amqp_type: AMQPType,
    i: I,
    depth: usize,
) -> ParserResult<I, AMQPValue>
    requires { amqp_type ≢ AMQPType.ShortString }
    ensures { MatchResult result
        (λ x. RawOutcomeWithin depth amqp_type (I.bytes i) (found (view x.1) (I.bytes x.0)))
        (IsRefusal (RawOutcomeWithin depth amqp_type (I.bytes i)) (RawHeavy amqp_type (I.bytes i))) }
{
    match amqp_type {
        AMQPType::Boolean => {
            let (i, b) = parse_boolean(i)?;
            Ok((i, AMQPValue::Boolean(b)))
        }
        AMQPType::ShortShortInt => {
            let (i, n) = parse_short_short_int(i)?;
            Ok((i, AMQPValue::ShortShortInt(n)))
        }
        AMQPType::ShortShortUInt => {
            let (i, n) = parse_short_short_uint(i)?;
            Ok((i, AMQPValue::ShortShortUInt(n)))
        }
        AMQPType::ShortInt => {
            let (i, n) = parse_short_int(i)?;
            Ok((i, AMQPValue::ShortInt(n)))
        }
        AMQPType::ShortUInt => {
            let (i, n) = parse_short_uint(i)?;
            Ok((i, AMQPValue::ShortUInt(n)))
        }
        AMQPType::LongInt => {
            let (i, n) = parse_long_int(i)?;
            Ok((i, AMQPValue::LongInt(n)))
        }
        AMQPType::LongUInt => {
            let (i, n) = parse_long_uint(i)?;
            Ok((i, AMQPValue::LongUInt(n)))
        }
        AMQPType::LongLongInt => {
            let (i, n) = parse_long_long_int(i)?;
            Ok((i, AMQPValue::LongLongInt(n)))
        }
        AMQPType::LongLongUInt => {
            let (i, n) = parse_long_long_int(i)?;
            Ok((i, AMQPValue::LongLongInt(n)))
        }
        AMQPType::Float => {
            let (i, f) = parse_float(i)?;
            Ok((i, AMQPValue::Float(f)))
        }
        AMQPType::Double => {
            let (i, f) = parse_double(i)?;
            Ok((i, AMQPValue::Double(f)))
        }
        AMQPType::DecimalValue => {
            let (i, d) = parse_decimal_value(i)?;
            Ok((i, AMQPValue::DecimalValue(d)))
        }
        AMQPType::ShortString => unreachable!(),
        AMQPType::FieldArray => {
            let (i, array) = array_within(alloc, i, depth)?;
            Ok((i, AMQPValue::FieldArray(array)))
        }
        AMQPType::FieldTable => {
            let (i, table) = table_within(alloc, i, depth)?;
            Ok((i, AMQPValue::FieldTable(table)))
        }
        AMQPType::LongString => {
            let (i, s) = parse_long_string(alloc, i)?;
            Ok((i, AMQPValue::LongString(s)))
        }
        AMQPType::Timestamp => {
            let (i, n) = parse_timestamp(i)?;
            Ok((i, AMQPValue::Timestamp(n)))
        }
        AMQPType::ByteArray => {
            let (i, bytes) = parse_byte_array(alloc, i)?;
            Ok((i, AMQPValue::ByteArray(bytes)))
        }
        AMQPType::Void => Ok((i, AMQPValue::Void)),
    }
}

/// Parses an array: the length of its body in four bytes, big-endian, then its values, each after
/// its type tag. Containers may nest as deep as the input is long: for bytes from untrusted peers
/// use `parse_field_array_within`.
///
/// Returns `Incomplete` until all bytes of the body are there: before that no value in it is
/// parsed. Then a malformed value, or one that the body cuts off, is `Eof`, and a failed allocation
/// `Failure`.
#[inline(always)]
pub fn parse_field_array<I: ParsableInput>(alloc: Global, i: I) -> ParserResult<I, FieldArray>
    ensures { MatchResult result
        (λ x. RawOutcome AMQPType.FieldArray (I.bytes i)
        (found (array (array_view x.1)) (I.bytes x.0)))
        (IsRefusal (RawOutcome AMQPType.FieldArray (I.bytes i))
        (RawHeavy AMQPType.FieldArray (I.bytes i))) }
{
    array_within(alloc, i, i.input_len())
}

// Reads an array in which containers nest at most `depth` deep, itself included.
#[cycle(parser)]
#[inline(always)]
pub(crate) fn array_within<I: ParsableInput>(
    alloc: Global,
    i: I,
    depth: usize,
) -> ParserResult<I, FieldArray>
    ensures { MatchResult result
        (λ x. RawOutcomeWithin depth AMQPType.FieldArray (I.bytes i)
        (found (array (array_view x.1)) (I.bytes x.0)))
        (IsRefusal (RawOutcomeWithin depth AMQPType.FieldArray (I.bytes i))
        (RawHeavy AMQPType.FieldArray (I.bytes i))) }
{
    let (i, body) = parse_length_prefixed(i)?;
    if depth == 0 {
        return Err(error_of_kind(ErrorKind::Eof));
    }
    let array = parse_array_body(alloc, body, depth - 1)?;
    Ok((i, array))
}

/// Parses the body of an array: values one after another, to its end. Containers in it may nest at
/// most `depth` deep: 0 allows none.
///
/// Returns `Error` with `Eof` if the bytes aren't such a body, and `Failure` if an allocation
/// fails. It never returns `Incomplete`. An empty body doesn't allocate.
#[cycle(parser)]
#[inline(never)]
pub fn parse_array_body<I: ParsableInput>(
    alloc: Global,
    body: I,
    depth: usize,
) -> Result<FieldArray, ParserError>
    ensures { MatchResult result
        (λ array. BodyWithin depth (I.bytes body) (array_view array))
        (IsRefusal (IsNoBody depth (I.bytes body)) (0 < length (I.bytes body))) }
{
    let mut array = FieldArray::new_in(alloc);
    let mut rest = body;
    'entries: while rest.input_len() > 0 {
        let (after, value) = match value_within(alloc, rest, depth) {
            Ok(read) => read,
            Err(e) => return Err(inside(e)),
        };
        array.push(value)?;
        rest = after;
    }
    Ok(array)
}

/// Parses a table: the length of its body in four bytes, big-endian, then its entries, each a key
/// as a short string and a value after its type tag. Of equal keys the last one's value is
/// retained. Containers may nest as deep as the input is long: for bytes from untrusted peers use
/// `parse_field_table_within`.
///
/// Returns `Incomplete` until all bytes of the body are there: before that no entry in it is
/// parsed. Then a malformed entry, or one that the body cuts off, is `Eof`, and a failed allocation
/// `Failure`.
#[inline(always)]
pub fn parse_field_table<I: ParsableInput>(alloc: Global, i: I) -> ParserResult<I, FieldTable>
    ensures { MatchResult result
        (λ x. RawOutcome AMQPType.FieldTable (I.bytes i)
        (found (table (table_view x.1)) (I.bytes x.0)))
        (IsRefusal (RawOutcome AMQPType.FieldTable (I.bytes i))
        (RawHeavy AMQPType.FieldTable (I.bytes i))) }
{
    table_within(alloc, i, i.input_len())
}

// Reads a table in which containers nest at most `depth` deep, itself included.
#[cycle(parser)]
#[inline(always)]
pub(crate) fn table_within<I: ParsableInput>(
    alloc: Global,
    i: I,
    depth: usize,
) -> ParserResult<I, FieldTable>
    ensures { MatchResult result
        (λ x. RawOutcomeWithin depth AMQPType.FieldTable (I.bytes i)
        (found (table (table_view x.1)) (I.bytes x.0)))
        (IsRefusal (RawOutcomeWithin depth AMQPType.FieldTable (I.bytes i))
        (RawHeavy AMQPType.FieldTable (I.bytes i))) }
{
    let (i, body) = parse_length_prefixed(i)?;
    if depth == 0 {
        return Err(error_of_kind(ErrorKind::Eof));
    }
    let table = parse_table_body(alloc, body, depth - 1)?;
    Ok((i, table))
}

/// Parses the body of a table: keys, each with a value, one after another, to its end. Containers
/// in it may nest at most `depth` deep: 0 allows none.
///
/// Returns `Error` with `Eof` if the bytes aren't such a body, and `Failure` if an allocation
/// fails. It never returns `Incomplete`. An empty body doesn't allocate.
#[cycle(parser)]
#[inline(never)]
pub fn parse_table_body<I: ParsableInput>(
    alloc: Global,
    body: I,
    depth: usize,
) -> Result<FieldTable, ParserError>
    ensures { MatchResult result
        (λ table. IsTable depth (I.bytes body) (table_view table))
        (IsRefusal (IsNoTable depth (I.bytes body)) (0 < length (I.bytes body))) }
{
    if body.input_len() == 0 {
        return Ok(FieldTable::new_in(alloc));
    }
    let mut pairs = TableBuilder::new(alloc, body);
    let mut rest = body;
    'pairs: while rest.input_len() > 0 {
        let (after_key, key) = match parse_short_string(alloc, rest) {
            Ok(read) => read,
            Err(e) => return Err(inside(e)),
        };
        let (after, value) = match value_within(alloc, after_key, depth) {
            Ok(read) => read,
            Err(e) => return Err(inside(e)),
        };
        pairs.push(key, value)?;
        rest = after;
    }
    Ok(pairs.into_table(alloc)?)
}
