//! Reads a `Head`, which is a scalar, a string, or the unread bytes of a container's body; likewise
//! a key, or a table without its type tag. `skip_value` returns how long a value is by its head.

// Tactics at functions: each names what all arms of a `match`, or all errors, are proved by; that at
// `skip_value` names a lemma for each clause.

ghost use Rattle.std.specs.Prelude.{◌≡◌, ◌≢◌, ◌<◌, ◌≤◌, length, MatchResult, IfErr, IfOk};
ghost use Rattle.amqp_value_core.specs.Outcomes.{Outcome, RawOutcome};
ghost use Rattle.amqp_value_core.specs.Bytes.{slice_bytes};
ghost use Rattle.amq_protocol_types.specs.parsing.PayloadResults.{OnlyLacks};
ghost use Rattle.amq_protocol_types.specs.parsing.ParseResults.{IsRefusal};
ghost use Rattle.amq_protocol_types.specs.parsing.Bodies.{IsLengthPrefixed};
ghost use Rattle.amq_protocol_types.specs.parsing.Headers.{extent};
ghost use Rattle.amq_protocol_types.specs.parsing.Untagged.{tagged, RefusesUntagged};
ghost use Rattle.amqp_in_place.specs.InPlaceResults.{HeadRefuses, IsWidthOfFound, NeedsNoMemory};
ghost use Rattle.amqp_in_place.specs.Heads.{RawHeadIs, IsHead, IsKeyFrame, AtAnyDepth};

use super::refs::ValueRef;
use amq_protocol_types::parsing::{
    ErrorKind, Limits, ParserError, ParserResult, error_of_kind, lacks, parse_boolean,
    parse_decimal_value, parse_double, parse_float, parse_length_prefixed, parse_long_int,
    parse_long_long_int, parse_long_uint, parse_short_int, parse_short_short_int,
    parse_short_short_uint, parse_short_uint, parse_timestamp, parse_type,
};
use amqp_value_core::input::{ParsableInput, SliceInput};
use amqp_value_core::types::AMQPType;

/// Returns the length in bytes of the value at the start of the bytes, by its type tag and its
/// length field only: in constant time, and whether or not the body of a container holds entries.
///
/// It rejects an unknown type tag, as `parse_value` does, and returns `Incomplete` whenever that
/// does. It doesn't allocate.
#[tactic(auto, using(crate::proofs::Skipping::skipped, crate::proofs::Skipping::width_of_found, crate::proofs::Skipping::refused_so))]
pub fn skip_value(bytes: &[u8]) -> Result<usize, ParserError>
    ensures extent { IfOk result (λ n. n ≡ extent bytes.now) }
    ensures whole { IfOk result (λ n. (0 < n) × (n ≤ length bytes.now)) }
    ensures err { IfErr result (HeadRefuses (Outcome bytes.now)) }
    ensures value { IfOk result (λ n. IsWidthOfFound bytes.now n) }
{
    let (rest, _) = read_head(SliceInput::new(bytes))?;
    Ok(bytes.len() - rest.input_len())
}

// A value that is no container, or the body of a container, which isn't looked at.
#[derive(Clone, Copy)]
pub(crate) enum Head<'a> {
    Plain(ValueRef<'a>),
    FieldArray(SliceInput<'a>),
    FieldTable(SliceInput<'a>),
}

// Reads a type tag and what is after it, one level deep.
#[inline(always)]
#[tactic(auto, using(crate::proofs::HeadLemmas::head_result, crate::proofs::HeadLemmas::no_head))]
pub(crate) fn read_head<'a>(i: SliceInput<'a>) -> ParserResult<SliceInput<'a>, Head<'a>>
    ensures { MatchResult result
        (λ x. IsHead (slice_bytes i.entry) x.1 (slice_bytes x.0))
        (HeadRefuses (AtAnyDepth (slice_bytes i.entry))) }
{
    let (i, amqp_type) = parse_type(i)?;
    read_payload_head(amqp_type, i)
}

// Reads what is after a type tag.
#[inline(always)]
#[tactic(auto, using(crate::proofs::HeadLemmas::payload_heads))]
fn read_payload_head<'a>(
    amqp_type: AMQPType,
    i: SliceInput<'a>,
) -> ParserResult<SliceInput<'a>, Head<'a>>
    requires { amqp_type ≢ AMQPType.ShortString }
    ensures { MatchResult result
        (λ x. RawHeadIs amqp_type (slice_bytes i.entry) x.1 (slice_bytes x.0))
        (OnlyLacks (RawOutcome amqp_type (slice_bytes i.entry)) ⊥) }
{
    match amqp_type {
        AMQPType::Boolean => {
            let (i, b) = parse_boolean(i)?;
            Ok((i, Head::Plain(ValueRef::Boolean(b))))
        }
        AMQPType::ShortShortInt => {
            let (i, n) = parse_short_short_int(i)?;
            Ok((i, Head::Plain(ValueRef::ShortShortInt(n))))
        }
        AMQPType::ShortShortUInt => {
            let (i, n) = parse_short_short_uint(i)?;
            Ok((i, Head::Plain(ValueRef::ShortShortUInt(n))))
        }
        AMQPType::ShortInt => {
            let (i, n) = parse_short_int(i)?;
            Ok((i, Head::Plain(ValueRef::ShortInt(n))))
        }
        AMQPType::ShortUInt => {
            let (i, n) = parse_short_uint(i)?;
            Ok((i, Head::Plain(ValueRef::ShortUInt(n))))
        }
        AMQPType::LongInt => {
            let (i, n) = parse_long_int(i)?;
            Ok((i, Head::Plain(ValueRef::LongInt(n))))
        }
        AMQPType::LongUInt => {
            let (i, n) = parse_long_uint(i)?;
            Ok((i, Head::Plain(ValueRef::LongUInt(n))))
        }
        AMQPType::LongLongInt => {
            let (i, n) = parse_long_long_int(i)?;
            Ok((i, Head::Plain(ValueRef::LongLongInt(n))))
        }
        // (no type tag is read as it)
        AMQPType::LongLongUInt => {
            let (i, n) = parse_long_long_int(i)?;
            Ok((i, Head::Plain(ValueRef::LongLongInt(n))))
        }
        AMQPType::Float => {
            let (i, f) = parse_float(i)?;
            Ok((i, Head::Plain(ValueRef::Float(f))))
        }
        AMQPType::Double => {
            let (i, f) = parse_double(i)?;
            Ok((i, Head::Plain(ValueRef::Double(f))))
        }
        AMQPType::DecimalValue => {
            let (i, d) = parse_decimal_value(i)?;
            Ok((i, Head::Plain(ValueRef::DecimalValue(d))))
        }
        AMQPType::ShortString => unreachable!(),
        AMQPType::FieldArray => {
            let (i, body) = parse_length_prefixed(i)?;
            Ok((i, Head::FieldArray(body)))
        }
        AMQPType::FieldTable => {
            let (i, body) = parse_length_prefixed(i)?;
            Ok((i, Head::FieldTable(body)))
        }
        AMQPType::LongString => {
            let (i, body) = parse_length_prefixed(i)?;
            Ok((i, Head::Plain(ValueRef::LongString(body.as_slice()))))
        }
        AMQPType::Timestamp => {
            let (i, n) = parse_timestamp(i)?;
            Ok((i, Head::Plain(ValueRef::Timestamp(n))))
        }
        AMQPType::ByteArray => {
            let (i, body) = parse_length_prefixed(i)?;
            Ok((i, Head::Plain(ValueRef::ByteArray(body.as_slice()))))
        }
        AMQPType::Void => Ok((i, Head::Plain(ValueRef::Void))),
    }
}

// Reads a table that has no type tag, one level deep: its body isn't looked at. The limits count
// the type tag as if it were there.
#[tactic(auto, using(crate::proofs::Untagged::cut_table))]
pub(crate) fn read_table_head<'a>(
    i: SliceInput<'a>,
    limits: Limits,
) -> ParserResult<SliceInput<'a>, SliceInput<'a>>
    ensures body { IfOk result (λ x.
        IsLengthPrefixed (slice_bytes i.entry) (slice_bytes x.1) (slice_bytes x.0)) }
    ensures fits { IfOk result (λ _.
        extent (tagged AMQPType.FieldTable (slice_bytes i.entry)) ≤ limits.frame) }
    ensures err { IfErr result (RefusesUntagged limits AMQPType.FieldTable (slice_bytes i.entry)) }
    ensures no_memory { IfErr result NeedsNoMemory }
{
    if tagged_table_len(i) > limits.frame as usize {
        return Err(error_of_kind(ErrorKind::TooLarge));
    }
    parse_length_prefixed(i)
}

// The least length of a table with its type tag, by its length field only.
fn tagged_table_len<'a>(i: SliceInput<'a>) -> usize
    ensures { result ≡ extent (tagged AMQPType.FieldTable (slice_bytes i.entry)) }
{
    match parse_long_uint(i) {
        Ok((_, len)) => 5 + len as usize,
        Err(_) => 5,
    }
}

// Reads the field of a key: its length in one byte, and as many bytes, which aren't looked at.
#[inline(always)]
pub(crate) fn read_key<'a>(i: SliceInput<'a>) -> ParserResult<SliceInput<'a>, SliceInput<'a>>
    ensures { MatchResult result
        (λ x. IsKeyFrame (slice_bytes i.entry) (slice_bytes x.1) (slice_bytes x.0))
        (IsRefusal (RawOutcome AMQPType.ShortString (slice_bytes i.entry)) ⊥) }
{
    let (i, len) = parse_short_short_uint(i)?;
    let len = usize::from(len);
    let there = i.input_len();
    if there < len {
        return Err(lacks(len - there));
    }
    Ok((i.take_from(len), i.take(len)))
}
