//! `put_scalar`, `put_bytes` and `put_value` add an entry to a container: a value of fixed width, a
//! long string or a byte array, or an encoded value, which is copied unchanged.

ghost use Rattle.std.specs.Prelude.{◌≡◌, ◌≤◌, ◌∷◌, OnErr, MatchResult, MatchBool};
ghost use Rattle.amq_protocol_types.specs.parsing.Headers.{extent};
ghost use Rattle.amqp_c.specs.Inputs.{encoding};
ghost use Rattle.amqp_c.specs.Items.{IsStringTag, fixed_width, byte_string, encoded, missing_tag};
ghost use Rattle.amqp_c.specs.BuildCalls.{IsPutFault};
ghost use Rattle.amqp_c.specs.Growth.{IsEntryPut};

use crate::buffer::append;
use crate::container::Container;
use crate::number::encoding_of;
use crate::{Fault, Input};
use amq_protocol_types::parsing::header::value_len;
use amqp_in_place::Rules;
use amqp_value_core::input::{SliceInput, SplitInput};

/// Puts a value of fixed width, by its type tag, its bits and its scale.
pub fn put_scalar(
    buffer: &mut [u8],
    into: Container,
    key: &[u8],
    tag: u8,
    bits: u64,
    scale: u8,
) -> Result<Container, Fault>
    ensures put { MatchResult result
        (IsEntryPut (fixed_width tag bits scale) buffer.old into key.now buffer.new)
        (IsPutFault (fixed_width tag bits scale) buffer.old into key.now) }
    ensures kept { OnErr result (buffer.new ≡ buffer.old) }
{
    let at = into.place(buffer.len(), key)?;
    let encoding = encoding_of(tag, bits, scale)?;
    let (tag, payload, length) = encoding.parts();
    append(buffer, into, at, key, &[tag], &payload[..length])
}

/// Puts a long string or a byte array.
pub fn put_bytes(
    buffer: &mut [u8],
    into: Container,
    key: &[u8],
    tag: u8,
    bytes: &[u8],
) -> Result<Container, Fault>
    ensures put { MatchResult result
        (IsEntryPut (byte_string tag bytes.now) buffer.old into key.now buffer.new)
        (IsPutFault (byte_string tag bytes.now) buffer.old into key.now) }
    ensures kept { OnErr result (buffer.new ≡ buffer.old) }
{
    let at = into.place(buffer.len(), key)?;
    if !is_string_tag(tag) {
        return Err(Fault::BadTag);
    }
    let Ok(length) = u32::try_from(bytes.len()) else {
        return Err(Fault::TooLarge);
    };
    let head = head_of(tag, length.to_be_bytes());
    append(buffer, into, at, key, &head, bytes)
}

/// What is before the bytes of a long string or a byte array: its type tag, and their length.
fn head_of(tag: u8, length: [u8; 4]) -> [u8; 5]
    ensures { result ≡ tag ∷ length }
{
    let mut head = [tag, 0, 0, 0, 0];
    head[1..].copy_from_slice(&length);
    head
}

/// Whether it is the type tag of a long string or a byte array.
fn is_string_tag(tag: u8) -> bool
    ensures { MatchBool result (IsStringTag tag) (IsStringTag tag → ⊥) }
{
    tag == b'S' || tag == b'x'
}

/// Puts the encoded value at the start of the input, which is read by the rules, unchanged: a table that lacks its
/// type tag with it.
pub fn put_value(
    buffer: &mut [u8],
    into: Container,
    key: &[u8],
    input: &Input<'_>,
    rules: Rules,
) -> Result<Container, Fault>
    ensures put { MatchResult result
        (IsEntryPut (encoded rules input.now) buffer.old into key.now buffer.new)
        (IsPutFault (encoded rules input.now) buffer.old into key.now) }
    ensures kept { OnErr result (buffer.new ≡ buffer.old) }
{
    let at = into.place(buffer.len(), key)?;
    if let Some(error) = input.read_error(rules) {
        return Err(error.fault);
    }
    let tag = missing_tag(input);
    let bytes = &input.bytes[..value_length(input) - tag.len()];
    append(buffer, into, at, key, tag, bytes)
}

/// The type tag that the input lacks.
fn missing_tag(input: &Input<'_>) -> &'static [u8]
    ensures { result.now ≡ missing_tag input.now }
{
    if input.is_untagged() { b"F" } else { b"" }
}

/// How many bytes the value at the start has by its type tag and its length, with the type tag that the input may lack.
fn value_length(input: &Input<'_>) -> usize
    ensures length { result ≡ extent (encoding input.now) }
    ensures small { result ≤ 4294967300 }
{
    if input.is_untagged() {
        value_len(SplitInput::new(b"F", input.bytes))
    } else {
        value_len(SliceInput::new(input.bytes))
    }
}
