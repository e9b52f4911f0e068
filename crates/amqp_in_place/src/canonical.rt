//! `is_canonical` and `canonical_len`: whether bytes are, or start with, the canonical encoding of
//! a value, checked in place.

ghost use Rattle.std.specs.Prelude.{◌≡◌, ◌+◌, true, false, ℕ, List, None, IfSome};
ghost use Rattle.std.specs.Ordering.{nat_cmp};
ghost use Rattle.std.specs.Cmp.Lexicographic.{slice_cmp};
ghost use Rattle.std.specs.declared.cmp.Ordering.TheVariants.{Less};
ghost use Rattle.amqp_value_core.specs.Bytes.{slice_bytes};
ghost use Rattle.amq_protocol_types.specs.parsing.Untagged.{tagged};
ghost use Rattle.amqp_in_place.specs.Canonicals.{IsCanonicalLen, IsCanonicalWithin, IsReadAsWritten, CanonPrefix, CanonValues, CanonEntries, HasCanonicalBody, IsAbove, IsFirstSpelling};

use super::head::{Head, read_head, read_key, read_table_head};
use super::read::check_utf8;
use amq_protocol_types::parsing::Limits;
use amq_protocol_types::parsing::header::{Header, header_of};
use amqp_value_core::input::{ParsableInput, SliceInput};
use amqp_value_core::types::AMQPType;

/// Returns whether the bytes are exactly the canonical encoding of a value within the limits. It
/// doesn't allocate.
///
/// The canonical encoding is the one that `gen_value` writes: no alternate type tag (`U` or `L`), a
/// boolean's byte 0 or 1, and the keys of each table strictly ascending by their bytes.
pub fn is_canonical(bytes: &[u8], limits: Limits) -> bool
    ensures yes { result ≡ true → IsCanonicalWithin limits bytes.now }
    ensures no { result ≡ false → IsCanonicalWithin limits bytes.now → ⊥ }
    ensures written { result ≡ true → IsReadAsWritten limits bytes.now }
    ensures not_written { result ≡ false → IsReadAsWritten limits bytes.now → ⊥ }
{
    canonical_len(bytes, limits) == Some(bytes.len())
}

/// Returns the length in bytes of the canonical encoding at the start of the bytes, or `None` if
/// there is none within the limits.
///
/// All of the value is checked, keys' UTF-8 too, in one pass. Nothing is copied or allocated. By
/// measurements it uses stack for at most `limits.depth` levels; docs/PROMISES.md has what one
/// takes. `read_in_place` returns why a value is rejected.
pub fn canonical_len(bytes: &[u8], limits: Limits) -> Option<usize>
    ensures len { IfSome result (λ n. IsCanonicalLen limits bytes.now n) }
    ensures none { result ≡ None → (n : ℕ) → IsCanonicalLen limits bytes.now n → ⊥ }
{
    let i = SliceInput::new(bytes);
    let Header::Whole = header_of(i, limits.frame) else {
        return None;
    };
    let rest = after_canonical(i, limits.depth as usize)?;
    Some(bytes.len() - rest.input_len())
}

/// Returns whether the bytes are exactly the canonical encoding of a table within the limits,
/// without its type tag: its length, then its pairs. It doesn't allocate.
///
/// The limits count the type tag as if it were there.
pub fn is_canonical_table(bytes: &[u8], limits: Limits) -> bool
    ensures yes { result ≡ true → IsCanonicalWithin limits (tagged AMQPType.FieldTable bytes.now) }
    ensures no { result ≡ false → IsCanonicalWithin limits (tagged AMQPType.FieldTable bytes.now) → ⊥ }
    ensures written { result ≡ true → IsReadAsWritten limits (tagged AMQPType.FieldTable bytes.now) }
    ensures not_written { result ≡ false → IsReadAsWritten limits (tagged AMQPType.FieldTable bytes.now) → ⊥ }
{
    canonical_table_len(bytes, limits) == Some(bytes.len())
}

/// Returns the length in bytes of the canonical encoding of a table at the start of the bytes,
/// without its type tag, or `None` if there is none within the limits.
///
/// The limits count the type tag as if it were there, and the result doesn't. It checks what
/// `canonical_len` does, in one pass, and doesn't allocate.
pub fn canonical_table_len(bytes: &[u8], limits: Limits) -> Option<usize>
    ensures len { IfSome result (λ n. IsCanonicalLen limits (tagged AMQPType.FieldTable bytes.now) (1 + n)) }
    ensures none { result ≡ None → (n : ℕ) → IsCanonicalLen limits (tagged AMQPType.FieldTable bytes.now) n → ⊥ }
{
    let Ok((rest, body)) = read_table_head(SliceInput::new(bytes), limits) else {
        return None;
    };
    if !has_canonical_body(Head::FieldTable(body), limits.depth as usize) {
        return None;
    }
    Some(bytes.len() - rest.input_len())
}

// What is after a canonical encoding in which containers nest at most `depth` deep.
#[cycle(canonical)]
#[inline(always)]
fn after_canonical<'a>(i: SliceInput<'a>, depth: usize) -> Option<SliceInput<'a>>
    ensures rest { IfSome result (λ rest. CanonPrefix depth (slice_bytes i.entry) (slice_bytes rest)) }
    ensures none { result ≡ None → (rest : List ℕ) → CanonPrefix depth (slice_bytes i.entry) rest → ⊥ }
{
    if !is_first_spelling(i.as_slice()) {
        return None;
    }
    let Ok((rest, head)) = read_head(i) else {
        return None;
    };
    if !has_canonical_body(head, depth) {
        return None;
    }
    Some(rest)
}

// Whether the body of a container is canonical, if the head is of one, and containers nest at most
// `depth` deep.
#[cycle(canonical)]
#[inline(always)]
fn has_canonical_body<'a>(head: Head<'a>, depth: usize) -> bool
    ensures yes { result ≡ true → HasCanonicalBody depth head.entry }
    ensures no { result ≡ false → HasCanonicalBody depth head.entry → ⊥ }
{
    match head {
        Head::Plain(_) => true,
        Head::FieldArray(body) => depth > 0 && are_canonical_values(body, depth - 1),
        Head::FieldTable(body) => depth > 0 && are_canonical_pairs(body, depth - 1),
    }
}

// Whether a body is canonical encodings one after another, in each of which containers nest at most
// `depth` deep.
#[cycle(canonical)]
#[inline(never)]
fn are_canonical_values<'a>(body: SliceInput<'a>, depth: usize) -> bool
    ensures yes { result ≡ true → CanonValues depth (slice_bytes body.entry) }
    ensures no { result ≡ false → CanonValues depth (slice_bytes body.entry) → ⊥ }
{
    let mut rest = body;
    'values: while rest.input_len() > 0 {
        let Some(after) = after_canonical(rest, depth) else {
            return false;
        };
        rest = after;
    }
    true
}

// Whether a body is pairs one after another, each key above the one before it, each value in its
// canonical encoding, and containers nest at most `depth` deep in each value.
#[cycle(canonical)]
#[inline(never)]
fn are_canonical_pairs<'a>(body: SliceInput<'a>, depth: usize) -> bool
    ensures yes { result ≡ true → CanonEntries depth None (slice_bytes body.entry) }
    ensures no { result ≡ false → CanonEntries depth None (slice_bytes body.entry) → ⊥ }
{
    let mut rest = body;
    let mut previous: Option<&[u8]> = None;
    'pairs: while rest.input_len() > 0 {
        let Ok((after_key, key)) = read_key(rest) else {
            return false;
        };
        let key = key.as_slice();
        if !is_above(previous, key) {
            return false;
        }
        let Ok(()) = check_utf8(key) else {
            return false;
        };
        let Some(after) = after_canonical(after_key, depth) else {
            return false;
        };
        rest = after;
        previous = Some(key);
    }
    true
}

// Whether a key is above the one before it by their bytes, or is the first. A table's encoding is
// canonical only if each of its keys is.
#[inline(always)]
pub(crate) fn is_above(previous: Option<&[u8]>, key: &[u8]) -> bool
    ensures yes { result ≡ true → IsAbove previous.entry key.now }
    ensures no { result ≡ false → IsAbove previous.entry key.now → ⊥ }
{
    match previous {
        Some(previous) => is_below(previous, key),
        None => true,
    }
}

// Whether a key is below another: by `cmp`, which passes over equal bytes by groups.
#[inline(always)]
fn is_below(a: &[u8], b: &[u8]) -> bool
    ensures yes { result ≡ true → slice_cmp nat_cmp a.now b.now ≡ Less }
    ensures no { result ≡ false → slice_cmp nat_cmp a.now b.now ≡ Less → ⊥ }
{
    a.cmp(b).is_lt()
}

// Whether no alternate tag is first, and after a boolean's 0 or 1.
fn is_first_spelling(bytes: &[u8]) -> bool
    ensures yes { result ≡ true → IsFirstSpelling bytes.now }
    ensures no { result ≡ false → IsFirstSpelling bytes.now → ⊥ }
{
    match bytes {
        [b'U' | b'L', ..] => false,
        [b't', truth, ..] => *truth < 2,
        _ => true,
    }
}
