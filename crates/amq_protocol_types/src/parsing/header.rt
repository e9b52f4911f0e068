//! [`header_of`] and [`value_len`]: how many bytes a value has at least, by its type tag and length
//! field, and whether they are all there. Nothing else of the value is read.

ghost use Rattle.std.specs.Prelude.{◌≡◌, ◌≢◌, ◌<◌, ◌≤◌, ◌+◌, None, option_map};
ghost use Rattle.std.specs.Int.{w32};
ghost use Rattle.amqp_value_core.specs.Layouts.{fixed};
ghost use Rattle.amqp_value_core.specs.Bytes.{IsBytes};
ghost use Rattle.amqp_value_core.specs.Outcomes.{length_field};
ghost use Rattle.amq_protocol_types.specs.parsing.Headers.{extent, extent_of, raw_extent, first_of};
ghost use Rattle.amq_protocol_types.specs.parsing.Limits.{IsHeader};

use super::scalars::{parse_long_uint, parse_type};
use amqp_value_core::input::ParsableInput;
use amqp_value_core::types::AMQPType;

/// What the type tag of a value and the length after it determine, whatever bytes follow them.
#[derive(Clone, Copy, Debug)]
pub enum Header {
    /// The first byte is no type tag.
    Unknown,
    /// The value has more bytes than the limit.
    TooLarge,
    /// This many more bytes are needed for the field that is being read.
    Lacks(usize),
    /// The value is complete, by its type tag and length. Its contents may be malformed.
    Whole,
}

// How many bytes the first field of a type of fixed width has, and all of them.
#[inline(always)]
fn fields_of(amqp_type: AMQPType) -> Option<(usize, usize)>
    ensures { result ≡ option_map (λ f. (f.first, f.width)) (fixed amqp_type) }
{
    match amqp_type {
        AMQPType::Void => Some((0, 0)),
        AMQPType::Boolean | AMQPType::ShortShortInt | AMQPType::ShortShortUInt => Some((1, 1)),
        AMQPType::ShortInt | AMQPType::ShortUInt => Some((2, 2)),
        AMQPType::LongInt | AMQPType::LongUInt | AMQPType::Float => Some((4, 4)),
        AMQPType::LongLongInt | AMQPType::LongLongUInt | AMQPType::Double | AMQPType::Timestamp =>
            Some((8, 8)),
        AMQPType::DecimalValue => Some((1, 5)),
        AMQPType::ShortString
        | AMQPType::LongString
        | AMQPType::ByteArray
        | AMQPType::FieldArray
        | AMQPType::FieldTable => None,
    }
}

// How many bytes the first field of a payload has, and the payload at least.
#[inline(always)]
fn payload_of<I: ParsableInput>(amqp_type: AMQPType, i: I) -> (usize, usize)
    requires { amqp_type ≢ AMQPType.ShortString }
    ensures first { result.0 ≡ first_of (fixed amqp_type) (length_field amqp_type) }
    ensures extent { result.1 ≡ raw_extent amqp_type (I.bytes i) }
    ensures small { result.1 ≤ 4294967299 }
{
    if let Some(fields) = fields_of(amqp_type) {
        return fields;
    }
    (4, counted_len(i))
}

// How many bytes a payload with a length in four bytes has at least, by that length only.
#[inline(always)]
pub(crate) fn counted_len<I: ParsableInput>(i: I) -> usize
    ensures extent { result ≡ extent_of None w32 (I.bytes i) }
    ensures small { result ≤ 4294967299 }
    ensures bytes { IsBytes (I.bytes i) }
{
    match parse_long_uint(i) {
        Ok((_, len)) => 4 + len as usize,
        Err(_) => 4,
    }
}

/// Returns how many bytes the value at the start of the input has at least, from its type tag to
/// its end, by its type tag and length only. If the length is incomplete it counts as 0. Returns 0
/// if the first byte is no type tag or there is none. It takes constant time and doesn't allocate.
#[inline(always)]
pub fn value_len<I: ParsableInput>(i: I) -> usize
    ensures extent { result ≡ extent (I.bytes i) }
    ensures small { result ≤ 4294967300 }
{
    if i.input_len() == 0 {
        return 0;
    }
    let Ok((payload, amqp_type)) = parse_type(i) else {
        return 0;
    };
    let (_, len) = payload_of(amqp_type, payload);
    1 + len
}

/// Reads the type tag and the length of a value that may have at most `frame` bytes, the type tag
/// included. It takes constant time and doesn't allocate.
#[tactic(auto, using(crate::proofs::Extents::whole_by_header))]
#[inline(always)]
pub fn header_of<I: ParsableInput>(i: I, frame: u32) -> Header
    ensures header { IsHeader frame (I.bytes i) result }
    ensures bytes { IsBytes (I.bytes i) }
{
    if i.input_len() == 0 {
        return Header::Lacks(1);
    }
    let Ok((rest, amqp_type)) = parse_type(i) else {
        return Header::Unknown;
    };
    let (first, extent) = payload_of(amqp_type, rest);
    if extent >= frame as usize {
        return Header::TooLarge;
    }
    let there = rest.input_len();
    if there < first {
        Header::Lacks(first - there)
    } else if there < extent {
        Header::Lacks(extent - there)
    } else {
        Header::Whole
    }
}
