//! `canonical`, for `amqpv_canonical`: writes the canonical encoding of the value at the start of
//! an input.

ghost use Rattle.std.specs.Prelude.{◌≡◌, ◌<◌, ◌^◌, false, None, Err, length, IfSome, OnErr, MatchResult};
ghost use Rattle.amqp_value_core.specs.Texts.{text, size, Fits};
ghost use Rattle.amqp_value_core.specs.View.{view};
ghost use Rattle.amq_protocol_types.specs.parsing.Untagged.{tagged};
ghost use Rattle.amqp_c.specs.declared.fault.Fault.TheVariants.{Invalid, NoMemory};
ghost use Rattle.amqp_c.specs.Inputs.{limits, has_known_flags, encoding};
ghost use Rattle.amqp_c_alloc.specs.CanonicalCalls.{IsCanonicalText, IsCanonicalOf, IsNotCanonical, IsCanonicalWritten, IsCanonicalFault};

use amq_protocol_types::generation::{GenError, WriteContext, gen_value};
use amq_protocol_types::parsing::Limits;
use amqp_c::{Fault, Input, put_at_start};
use amqp_in_place::{canonical_len, canonical_table_len};
use amqp_value_core::types::AMQPType;
use amqp_value_core::value::AMQPValue;
use std::alloc::Global;

/// Writes the canonical encoding of the value at the start to `buffer`, a table's without its type tag if it has
/// none, and returns how many bytes it has. What is canonical already is copied, without an allocation.
pub fn canonical(alloc: Global, input: &Input<'_>, buffer: &mut [u8]) -> Result<usize, Fault>
    ensures written { MatchResult result
        (IsCanonicalWritten input.now buffer.old buffer.new)
        (IsCanonicalFault input.now (length buffer.old)) }
    ensures flags { has_known_flags input.now ≡ false → result ≡ Err Invalid }
    ensures kept { OnErr result (buffer.new ≡ buffer.old) }
{
    if !input.has_known_flags() {
        return Err(Fault::Invalid);
    }
    if let Some(bytes) = canonical_start(input) {
        return put_at_start(bytes, buffer);
    }
    let value = input.view()?;
    let Ok(owned) = value.to_owned(alloc) else {
        return Err(Fault::NoMemory);
    };
    let encoding = encode(alloc, &owned)?;
    put_at_start(&encoding[usize::from(input.is_untagged())..], buffer)
}

/// The canonical encoding at the start, if there is one.
fn canonical_start<'a>(input: &Input<'a>) -> Option<&'a [u8]>
    ensures canonical { IfSome result (λ bytes. IsCanonicalOf input.now bytes.now) }
    ensures none { result ≡ None → IsNotCanonical (limits input.now) (encoding input.now) }
{
    if input.is_untagged() {
        canonical_table(input.bytes, input.limits())
    } else {
        canonical_value(input.bytes, input.limits())
    }
}

/// The canonical encoding of a value at the start, if there is one.
fn canonical_value(bytes: &[u8], limits: Limits) -> Option<&[u8]>
    ensures canonical { IfSome result (λ start. IsCanonicalText limits bytes.now start.now) }
    ensures none { result ≡ None → IsNotCanonical limits bytes.now }
{
    match canonical_len(bytes, limits) {
        Some(count) => Some(&bytes[..count]),
        None => None,
    }
}

/// The canonical encoding of a table without its type tag at the start, if there is one.
fn canonical_table(bytes: &[u8], limits: Limits) -> Option<&[u8]>
    ensures canonical { IfSome result (λ start. IsCanonicalText limits
        (tagged AMQPType.FieldTable bytes.now) (tagged AMQPType.FieldTable start.now)) }
    ensures none { result ≡ None → IsNotCanonical limits (tagged AMQPType.FieldTable bytes.now) }
{
    match canonical_table_len(bytes, limits) {
        Some(count) => Some(&bytes[..count]),
        None => None,
    }
}

/// The value's canonical encoding, in its own memory.
fn encode(alloc: Global, value: &AMQPValue) -> Result<Vec<u8>, Fault>
    requires fits { Fits (view value.now) }
    requires size { size (view value.now) < 2 ^ 64 }
    ensures { MatchResult result
        (λ bytes. bytes.items ≡ text (view value.now))
        (λ fault. fault ≡ NoMemory) }
{
    let mut context = WriteContext::from(Vec::new(alloc));
    match gen_value(value, &mut context) {
        Ok(()) => {}
        Err(GenError::OutOfMemory) => return Err(Fault::NoMemory),
        Err(_) => unreachable!(),
    }
    let (bytes, _) = context.into_inner();
    Ok(bytes)
}
