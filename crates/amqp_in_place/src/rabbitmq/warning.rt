//! `warnings`: what a client or a stream queue may reject in a value that RabbitMQ accepts, as a
//! `Warned`.

ghost use Rattle.std.specs.Prelude.{◌≡◌, ◌<◌, ◌+◌, ◌-◌, ◌^◌, ◌&&◌, ◌∷◌, nat_lt, suc, min, IfOk, IfSome, OnErr, length};
ghost use Rattle.amqp_value_core.specs.Ids.{id_of};
ghost use Rattle.amq_protocol_types.specs.parsing.Headers.{extent};
ghost use Rattle.amqp_in_place.specs.RabbitmqWarnings.{IsKeyFaultReport, key_of, after_key, is_value_faulty, fault_inside, value_fault, values_fault, pairs_fault, first_repeated_key, first_key_not_utf8, first_empty_key, first_too_deep, first_decimal, in_untagged, passes_frame, AreInside};

use crate::read::check_utf8;
use amq_protocol_types::parsing::Limits;
use amq_protocol_types::parsing::header::value_len;
use amqp_value_core::input::{SliceInput, SplitInput};
use amqp_value_core::types::AMQPType;
use std::alloc::{AllocError, Global};
use std::collections::BTreeSet;

/// A depth of containers that every client that was tried could read. Go's amqp091 1.16 breaks at
/// 34; docs/INTEROP.md has the others.
pub const CLIENT_LEVELS: u32 = 32;

/// What may go wrong with a value that RabbitMQ accepts. Offsets are the number of bytes before a
/// pair, or before the type tag of a value. docs/INTEROP.md says how each was tried.
#[derive(Clone, Copy, Debug, PartialEq, Eq)]
pub struct Warned {
    /// The first pair whose key an earlier pair of the same table has. This library uses the last
    /// of equal keys. RabbitMQ 3.10.8 delivers both of a message's headers and routes by the first;
    /// 4.0.5 delivers the first and routes by the last. Reject such a table.
    pub repeated_key: Option<usize>,
    /// The first pair whose key isn't UTF-8. RabbitMQ 3.10.8 and 4.0.5 relay it; most clients can't
    /// read such a key.
    pub key_not_utf8: Option<usize>,
    /// The first pair whose key is empty. RabbitMQ 3.10.8 and 4.0.5 relay it; php-amqp and
    /// librabbitmq's `amqp_consume_message` fail.
    pub empty_key: Option<usize>,
    /// The first container that nests deeper than a number of levels. RabbitMQ 3.10.8 and 4.0.5
    /// relay it; most clients fail at some depth.
    pub too_deep: Option<usize>,
    /// The first decimal. If a message with a decimal as a header gets to a stream queue, RabbitMQ
    /// 3.10.8 and 4.0.5 close the connection; 4.0.5 also does so for one inside a header that the
    /// queue keeps.
    pub decimal: Option<usize>,
    /// The first array or table inside the outermost one. A stream queue of RabbitMQ 3.10.8 drops
    /// such a header without an error; 4.0.5 keeps it only if its key is `CC` or begins with `x-`,
    /// and drops `x-death`.
    pub nested_header: Option<usize>,
    /// Whether the value's bytes without its type tag, and the 8 bytes of a frame (its type,
    /// channel, size and end), are more than the frame-max.
    pub exceeds_frame: bool,
}

// What is looked for: what may be wrong with a key, or with a value.
#[derive(Clone, Copy)]
enum Fault {
    Repeated,
    NotUtf8,
    Empty,
    TooDeep,
    Decimal,
}

/// Finds what may go wrong with the value at the start of the bytes, if `first_problem` finds no
/// problem in it. Of the limits only `depth` counts: it looks no deeper. `frame_max` is in bytes; 0
/// means that there is none. A container is too deep if it nests deeper than `levels`, as
/// `CLIENT_LEVELS`, or than `depth`.
///
/// Returns an error if an allocation fails. Only the search for repeated keys allocates. Keys of a
/// table, and of those around it, are retained in sets until one is repeated, in at most some 40
/// bytes each: n log n comparisons for n pairs, whoever picks the keys. The other searches pass
/// over the headers and keys once each.
pub fn warnings(
    alloc: Global,
    bytes: &[u8],
    limits: Limits,
    frame_max: u32,
    levels: u32,
) -> Result<Warned, AllocError>
    ensures repeated_key { IfOk result (λ it.
        it.repeated_key ≡ first_repeated_key limits.depth bytes.now) }
    ensures key_not_utf8 { IfOk result (λ it.
        it.key_not_utf8 ≡ first_key_not_utf8 limits.depth bytes.now) }
    ensures empty_key { IfOk result (λ it.
        it.empty_key ≡ first_empty_key limits.depth bytes.now) }
    ensures too_deep { IfOk result (λ it.
        it.too_deep ≡ first_too_deep (min levels limits.depth) bytes.now) }
    ensures decimal { IfOk result (λ it.
        it.decimal ≡ first_decimal limits.depth bytes.now) }
    ensures nested_header { IfOk result (λ it.
        it.nested_header ≡ first_too_deep (min 1 limits.depth) bytes.now) }
    ensures exceeds_frame { IfOk result (λ it.
        it.exceeds_frame ≡ passes_frame frame_max bytes.now) }
    ensures inside { IfOk result (AreInside (length bytes.now)) }
    ensures err { OnErr result (5 < length bytes.now) }
{
    Ok(Warned {
        repeated_key: in_value(alloc, Fault::Repeated, bytes, limits.depth)?,
        key_not_utf8: in_value(alloc, Fault::NotUtf8, bytes, limits.depth)?,
        empty_key: in_value(alloc, Fault::Empty, bytes, limits.depth)?,
        too_deep: in_value(alloc, Fault::TooDeep, bytes, levels.min(limits.depth))?,
        decimal: in_value(alloc, Fault::Decimal, bytes, limits.depth)?,
        nested_header: in_value(alloc, Fault::TooDeep, bytes, limits.depth.min(1))?,
        exceeds_frame: exceeds(value_len(SliceInput::new(bytes)), frame_max),
    })
}

/// Finds what may go wrong with a table without its type tag, which begins with its length. Finds
/// what `warnings` finds in the table with its type tag; the offsets count from the length on, and
/// are 0 for the table itself.
///
/// # Examples
///
/// ```rust
/// let warned = warnings_in_table(alloc, headers, LIMITS, FRAME_MAX, CLIENT_LEVELS)?;
/// println!(rt; "publishing: the first empty key: {:?}", warned.empty_key)?;
/// ```
pub fn warnings_in_table(
    alloc: Global,
    table: &[u8],
    limits: Limits,
    frame_max: u32,
    levels: u32,
) -> Result<Warned, AllocError>
    ensures repeated_key { IfOk result (λ it.
        it.repeated_key ≡ in_untagged (first_repeated_key limits.depth) table.now) }
    ensures key_not_utf8 { IfOk result (λ it.
        it.key_not_utf8 ≡ in_untagged (first_key_not_utf8 limits.depth) table.now) }
    ensures empty_key { IfOk result (λ it.
        it.empty_key ≡ in_untagged (first_empty_key limits.depth) table.now) }
    ensures too_deep { IfOk result (λ it.
        it.too_deep ≡ in_untagged (first_too_deep (min levels limits.depth)) table.now) }
    ensures decimal { IfOk result (λ it.
        it.decimal ≡ in_untagged (first_decimal limits.depth) table.now) }
    ensures nested_header { IfOk result (λ it.
        it.nested_header ≡ in_untagged (first_too_deep (min 1 limits.depth)) table.now) }
    ensures exceeds_frame { IfOk result (λ it.
        it.exceeds_frame ≡ passes_frame frame_max (id_of AMQPType.FieldTable ∷ table.now)) }
    ensures inside { IfOk result (AreInside (suc (length table.now))) }
    ensures err { OnErr result (4 < length table.now) }
{
    let len = value_len(SplitInput::new(b"F", table));
    Ok(Warned {
        repeated_key: in_table(alloc, Fault::Repeated, table, len, limits.depth)?,
        key_not_utf8: in_table(alloc, Fault::NotUtf8, table, len, limits.depth)?,
        empty_key: in_table(alloc, Fault::Empty, table, len, limits.depth)?,
        too_deep: in_table(alloc, Fault::TooDeep, table, len, levels.min(limits.depth))?,
        decimal: in_table(alloc, Fault::Decimal, table, len, limits.depth)?,
        nested_header: in_table(alloc, Fault::TooDeep, table, len, limits.depth.min(1))?,
        exceeds_frame: exceeds(len, frame_max),
    })
}

// Whether a value of this length, without its type tag, and its frame are more than the frame-max.
fn exceeds(len: usize, frame_max: u32) -> bool
    requires { len < 2 ^ 63 }
    ensures { result ≡ nat_lt 0 frame_max && nat_lt frame_max (len - 1 + 8) }
{
    0 < frame_max && (frame_max as usize) < len.saturating_sub(1) + 8
}

// The first pair with the fault in a table without its type tag.
fn in_table(
    alloc: Global,
    fault: Fault,
    table: &[u8],
    len: usize,
    depth: u32,
) -> Result<Option<usize>, AllocError>
    requires { len ≡ extent (id_of AMQPType.FieldTable ∷ table.now) }
    ensures err { OnErr result (4 < length table.now) }
    ensures first { IfOk result (λ x. x ≡ in_untagged (value_fault fault depth) table.now) }
    ensures inside { IfOk result (λ x. IfSome x (λ n. n < suc (length table.now))) }
{
    let payload = &table[..table.len().min(len.saturating_sub(1))];
    let place = inside(alloc, fault, Some(AMQPType::FieldTable), payload, depth)?;
    Ok(place.map(|offset| offset.saturating_sub(1)))
}

// The first pair with the fault in the value at the start.
#[cycle(faults)]
fn in_value(
    alloc: Global,
    fault: Fault,
    bytes: &[u8],
    depth: u32,
) -> Result<Option<usize>, AllocError>
    ensures first { IfOk result (λ x. x ≡ value_fault fault depth bytes.now) }
    ensures inside { IfOk result (λ x. IfSome x (λ n. n < length bytes.now)) }
    ensures err { OnErr result (5 < length bytes.now) }
{
    let Some((tag, after)) = bytes.split_first() else {
        return Ok(None);
    };
    let len = value_len(SliceInput::new(bytes)).saturating_sub(1);
    let payload = &after[..after.len().min(len)];
    inside(
        alloc,
        fault,
        AMQPType::from_id(char::from(*tag)),
        payload,
        depth,
    )
}

// The first in a payload, with offsets from its type tag on.
#[cycle(faults)]
#[tactic(auto, using(crate::proofs::KeyFaults::in_no_container))]
fn inside(
    alloc: Global,
    fault: Fault,
    amqp_type: Option<AMQPType>,
    payload: &[u8],
    depth: u32,
) -> Result<Option<usize>, AllocError>
    ensures first { IfOk result (λ x. x ≡ fault_inside fault depth amqp_type payload.now) }
    ensures inside { IfOk result (λ x. IfSome x (λ n. n < suc (length payload.now))) }
    ensures err { OnErr result (4 < length payload.now) }
{
    if depth == 0 {
        return Ok(is_value_faulty(fault, depth, amqp_type).then_some(0));
    }
    let (_, body) = payload.split_at(payload.len().min(4));
    match amqp_type {
        Some(AMQPType::FieldArray) => {
            let place = in_values(alloc, fault, body, depth - 1)?;
            Ok(place.map(|offset| 5 + offset))
        }
        Some(AMQPType::FieldTable) => {
            let place = in_pairs(alloc, fault, body, depth - 1)?;
            Ok(place.map(|offset| 5 + offset))
        }
        _ => Ok(is_value_faulty(fault, depth, amqp_type).then_some(0)),
    }
}

// The first in values one after another.
#[cycle(faults)]
fn in_values(
    alloc: Global,
    fault: Fault,
    body: &[u8],
    depth: u32,
) -> Result<Option<usize>, AllocError>
    ensures first { IfOk result (λ x. x ≡ values_fault fault depth body.now) }
    ensures inside { IfOk result (λ x. IfSome x (λ n. n < length body.now)) }
    ensures err { OnErr result (0 < length body.now) }
{
    let mut at = 0;
    'values: while at < body.len() {
        let rest = &body[at..];
        if let Some(offset) = in_value(alloc, fault, rest, depth)? {
            return Ok(Some(at + offset));
        }
        at += value_len(SliceInput::new(rest)).max(1);
    }
    Ok(None)
}

// The first in pairs one after another.
#[cycle(faults)]
fn in_pairs(
    alloc: Global,
    fault: Fault,
    body: &[u8],
    depth: u32,
) -> Result<Option<usize>, AllocError>
    ensures first { IfOk result (λ x. x ≡ pairs_fault fault depth body.now) }
    ensures inside { IfOk result (λ x. IfSome x (λ n. n < length body.now)) }
    ensures err { OnErr result (0 < length body.now) }
{
    let mut seen = BTreeSet::new(alloc);
    let mut at = 0;
    'pairs: while at < body.len() {
        let (key, value) = split_key(&body[at..]);
        if is_key_faulty(fault, &mut seen, key)? {
            return Ok(Some(at));
        }
        let after = at + 1 + key.len();
        if let Some(offset) = in_value(alloc, fault, value, depth)? {
            return Ok(Some(after + offset));
        }
        at = after + value_len(SliceInput::new(value));
    }
    Ok(None)
}

// The key of the pair at the start, or its bytes that are left, and what is after it.
fn split_key(bytes: &[u8]) -> (&[u8], &[u8])
    ensures key { result.0.now ≡ key_of bytes.now }
    ensures after { result.1.now ≡ after_key bytes.now }
    ensures len { 0 < length bytes.now
        → length result.0.now + length result.1.now < length bytes.now }
{
    let Some((count, named)) = bytes.split_first() else {
        return (bytes, bytes);
    };
    named.split_at(named.len().min(usize::from(*count)))
}

// Whether a key has the fault, after pairs with the keys in `seen`, and puts it there.
fn is_key_faulty<'a>(
    fault: Fault,
    seen: &mut BTreeSet<&'a [u8]>,
    key: &'a [u8],
) -> Result<bool, AllocError>
    ensures { IfOk result (λ faulty. IsKeyFaultReport fault seen.old seen.new key.now faulty) }
{
    match fault {
        Fault::Repeated => Ok(!seen.insert(key)?),
        Fault::NotUtf8 => Ok(check_utf8(key).is_err()),
        Fault::Empty => Ok(key.is_empty()),
        Fault::TooDeep => Ok(false),
        Fault::Decimal => Ok(false),
    }
}

// Whether a value of the type has the fault, where containers may still nest `depth` deep.
fn is_value_faulty(fault: Fault, depth: u32, amqp_type: Option<AMQPType>) -> bool
    ensures { result ≡ is_value_faulty fault depth amqp_type }
{
    match (fault, amqp_type) {
        (Fault::TooDeep, Some(AMQPType::FieldArray | AMQPType::FieldTable)) => depth == 0,
        (Fault::Decimal, Some(AMQPType::DecimalValue)) => true,
        _ => false,
    }
}
