//! An entry (`amqpv_entry`): the type tag of a value, its bits, and where its bytes are. `first`
//! reads that of the value at the start of some bytes.

ghost use Rattle.std.specs.Prelude.{◌≡◌, ◌+◌, ◌<◌, ℕ, List, length, Some, false, IfErr, IfOk, MatchResult};
ghost use Rattle.amqp_value_core.specs.Ids.{id_of};
ghost use Rattle.amqp_value_core.specs.Bytes.{slice_bytes};
ghost use Rattle.amqp_value_core.specs.Names.{read_as};
ghost use Rattle.amq_protocol_types.specs.parsing.PayloadResults.{IsType, OnlyLacks};
ghost use Rattle.amqp_value_core.specs.Outcomes.{RawOutcome, Outcome, found};
ghost use Rattle.amqp_c.specs.Scalars.{IsNumberPayload, IsFixed};
ghost use Rattle.amqp_value_core.specs.Values.{Tree};
ghost use Rattle.amqp_c.specs.Entries.{IsEntryAtStart, EntryIsIn, GivesFirst, HeaderFaults, IsRefusalOf, has_content};

use crate::{Fault, Span};
use amq_protocol_types::parsing::{
    ParserResult, parse_boolean, parse_decimal_value, parse_double, parse_float,
    parse_length_prefixed, parse_long_int, parse_long_long_int, parse_long_uint, parse_short_int,
    parse_short_short_int, parse_short_short_uint, parse_short_uint, parse_timestamp, parse_type,
};
use amqp_value_core::input::{ParsableInput, SliceInput};
use amqp_value_core::types::AMQPType;

/// A value, and its key if it is in a table: `amqpv_entry`.
#[repr(C)]
#[derive(Clone, Copy)]
pub struct Entry {
    /// The bytes of the key, without their length; empty in an array and of the value at the start.
    pub key: Span,
    /// The encoding of the value, its type tag included.
    pub value: Span,
    /// The bytes of a string or byte array, or the body of a container; empty of any other value.
    pub content: Span,
    /// A boolean as 0 or 1, a number's bits, a signed one's in two's complement; else 0.
    pub bits: u64,
    /// The type tag that is written for the value's type.
    pub tag: u8,
    /// How many digits of a decimal are after the point; else 0.
    pub scale: u8,
}

impl Entry {
    /// Assigns every field. Padding isn't copied.
    #[inline(always)]
    pub fn set(&mut self, to: Entry)
        ensures { self.new ≡ to }
    {
        self.key = to.key;
        self.value = to.value;
        self.content = to.content;
        self.bits = to.bits;
        self.tag = to.tag;
        self.scale = to.scale;
    }
}

/// The entry of the value at the start of the bytes, by its type tag and its length only: what
/// is in a container isn't looked at.
#[inline(always)]
pub fn first(bytes: &[u8]) -> Result<Entry, Fault>
    ensures faithful { (v : Tree) (rest : List ℕ) → Outcome bytes.now (found v rest)
        → GivesFirst bytes.now v rest result }
    ensures inside { IfOk result (λ e. EntryIsIn (length bytes.now) e) }
    ensures at_start { IfOk result (IsEntryAtStart bytes.now) }
    ensures refused { IfErr result (HeaderFaults (Outcome bytes.now)) }
{
    let (payload, amqp_type) = parse_type(SliceInput::new(bytes))?;
    let tag = tag_of(amqp_type);
    if has_content(amqp_type) {
        let (rest, body) = parse_length_prefixed(payload)?;
        return Ok(Entry {
            key: Span::NONE,
            value: Span {
                offset: 0,
                length: bytes.len() - rest.input_len(),
            },
            content: Span {
                offset: 5,
                length: body.input_len(),
            },
            bits: 0,
            tag,
            scale: 0,
        });
    }
    let fixed = read_fixed(bytes, amqp_type, payload)?;
    Ok(Entry {
        key: Span::NONE,
        value: Span {
            offset: 0,
            length: fixed.length,
        },
        content: Span::NONE,
        bits: fixed.bits,
        tag,
        scale: fixed.scale,
    })
}

/// What is stored of a value of fixed width.
#[derive(Clone, Copy)]
struct Fixed {
    /// How many bytes its encoding has.
    length: usize,
    /// Its bits, as in an entry.
    bits: u64,
    /// Its scale, as in an entry.
    scale: u8,
}

/// Reads the value at the start, by its type and what is after its type tag.
#[inline(always)]
fn read_fixed<'a>(
    bytes: &'a [u8],
    amqp_type: AMQPType,
    payload: SliceInput<'a>,
) -> Result<Fixed, Fault>
    requires at { IsType bytes.now amqp_type (slice_bytes payload) }
    requires no_content { has_content amqp_type ≡ false }
    requires read_back { read_as amqp_type ≡ Some amqp_type }
    ensures { MatchResult result (IsFixed bytes.now) (IsRefusalOf bytes.now) }
{
    let (rest, number) = read_number(amqp_type, payload)?;
    Ok(Fixed {
        length: bytes.len() - rest.input_len(),
        bits: number.bits,
        scale: number.scale,
    })
}

/// A number of fixed width, as in an entry.
#[derive(Clone, Copy)]
struct Number {
    /// Its bits.
    bits: u64,
    /// Its scale.
    scale: u8,
}

/// Reads what is after the type tag of a value of fixed width.
#[inline(always)]
// The tactic names what a value without a payload is read as, and that the bits of a signed number denote it.
#[tactic(auto, using(crate::proofs::Scalars::void_read, crate::proofs::Scalars::signed))]
fn read_number<'a>(
    amqp_type: AMQPType,
    payload: SliceInput<'a>,
) -> ParserResult<SliceInput<'a>, Number>
    requires no_content { has_content amqp_type ≡ false }
    requires read_back { read_as amqp_type ≡ Some amqp_type }
    ensures { MatchResult result
        (λ x. IsNumberPayload amqp_type (slice_bytes payload.entry) x.1 (slice_bytes x.0))
        (OnlyLacks (RawOutcome amqp_type (slice_bytes payload.entry)) ⊥) }
{
    match amqp_type {
        AMQPType::Boolean => {
            let (rest, b) = parse_boolean(payload)?;
            Ok((rest, Number::from_bits(u64::from(b))))
        }
        AMQPType::ShortShortInt => {
            let (rest, n) = parse_short_short_int(payload)?;
            Ok((rest, Number::from_bits(i64::from(n).cast_unsigned())))
        }
        AMQPType::ShortInt => {
            let (rest, n) = parse_short_int(payload)?;
            Ok((rest, Number::from_bits(i64::from(n).cast_unsigned())))
        }
        AMQPType::LongInt => {
            let (rest, n) = parse_long_int(payload)?;
            Ok((rest, Number::from_bits(i64::from(n).cast_unsigned())))
        }
        AMQPType::ShortShortUInt => {
            let (rest, n) = parse_short_short_uint(payload)?;
            Ok((rest, Number::from_bits(u64::from(n))))
        }
        AMQPType::ShortUInt => {
            let (rest, n) = parse_short_uint(payload)?;
            Ok((rest, Number::from_bits(u64::from(n))))
        }
        AMQPType::LongUInt => {
            let (rest, n) = parse_long_uint(payload)?;
            Ok((rest, Number::from_bits(u64::from(n))))
        }
        AMQPType::LongLongInt => {
            let (rest, n) = parse_long_long_int(payload)?;
            Ok((rest, Number::from_bits(n.cast_unsigned())))
        }
        AMQPType::Timestamp => {
            let (rest, n) = parse_timestamp(payload)?;
            Ok((rest, Number::from_bits(n)))
        }
        AMQPType::Float => {
            let (rest, x) = parse_float(payload)?;
            Ok((rest, Number::from_bits(u64::from(x.to_bits()))))
        }
        AMQPType::Double => {
            let (rest, x) = parse_double(payload)?;
            Ok((rest, Number::from_bits(x.to_bits())))
        }
        AMQPType::DecimalValue => {
            let (rest, decimal) = parse_decimal_value(payload)?;
            Ok((
                rest,
                Number {
                    bits: u64::from(decimal.value),
                    scale: decimal.scale,
                },
            ))
        }
        AMQPType::Void => Ok((payload, Number::from_bits(0))),
        AMQPType::LongLongUInt
        | AMQPType::ShortString
        | AMQPType::LongString
        | AMQPType::ByteArray
        | AMQPType::FieldArray
        | AMQPType::FieldTable => unreachable!(),
    }
}

impl Number {
    /// The number with these bits, which is no decimal.
    fn from_bits(bits: u64) -> Number
        ensures { (result.bits ≡ bits) × (result.scale ≡ 0) }
    {
        Number { bits, scale: 0 }
    }
}

/// The type tag that is written for a type.
#[inline(always)]
fn tag_of(amqp_type: AMQPType) -> u8
    ensures { result ≡ id_of amqp_type }
{
    match amqp_type {
        AMQPType::Boolean => b't',
        AMQPType::ShortShortInt => b'b',
        AMQPType::ShortShortUInt => b'B',
        AMQPType::ShortInt => b's',
        AMQPType::ShortUInt => b'u',
        AMQPType::LongInt => b'I',
        AMQPType::LongUInt => b'i',
        AMQPType::LongLongInt | AMQPType::LongLongUInt => b'l',
        AMQPType::Float => b'f',
        AMQPType::Double => b'd',
        AMQPType::DecimalValue => b'D',
        AMQPType::ShortString => b'_',
        AMQPType::LongString => b'S',
        AMQPType::FieldArray => b'A',
        AMQPType::Timestamp => b'T',
        AMQPType::FieldTable => b'F',
        AMQPType::ByteArray => b'x',
        AMQPType::Void => b'V',
    }
}

/// Whether a value of the type has bytes after a length: a string, a byte array or a container.
pub fn has_content(amqp_type: AMQPType) -> bool
    ensures { result ≡ has_content amqp_type }
{
    matches!(
        amqp_type,
        AMQPType::LongString | AMQPType::ByteArray | AMQPType::FieldArray | AMQPType::FieldTable
    )
}
