//! `read_in_place` and `read_table_in_place`: validate all of an encoded value, or of a table
//! without its type tag, and return a view of it.

// Tactics at functions: each names the lemmas that prove several clauses or several arms.

ghost use Rattle.std.specs.Str.{IsUtf8};
ghost use Rattle.std.specs.Prelude.{◌≡◌, ◌++◌, ◌↔◌, ◌<◌, ◌^◌, IsTrue, true, false, length, MatchResult, IfErr, IfOk};
ghost use Rattle.amqp_value_core.specs.Values.{Tree, Trees, Entries, table};
ghost use Rattle.amqp_value_core.specs.Grammar.{long_field};
ghost use Rattle.amqp_value_core.specs.Nesting.{BodyWithin, OutcomeWithin};
ghost use Rattle.amqp_value_core.specs.Outcomes.{Outcome, found, malformed};
ghost use Rattle.amqp_value_core.specs.Bytes.{slice_bytes};
ghost use Rattle.amq_protocol_types.specs.parsing.ParseResults.{IsRefusal};
ghost use Rattle.amq_protocol_types.specs.parsing.Bodies.{IsNoBody, IsTable, IsNoTable};
ghost use Rattle.amq_protocol_types.specs.parsing.Limits.{Within, RefusesWithin};
ghost use Rattle.amq_protocol_types.specs.parsing.Untagged.{UntaggedWithin, RefusesUntagged};
ghost use Rattle.amqp_in_place.specs.Bodies.{HasEntries};
ghost use Rattle.amqp_in_place.specs.Heads.{HasValidBody};
ghost use Rattle.amqp_in_place.specs.Refs.{table_body, Denotes, IsOneValue, IsOneTable};
ghost use Rattle.amqp_in_place.specs.InPlaceResults.{IsLeft, IsReadInPlaceWithin, NeedsNoMemory};
ghost use Rattle.amqp_in_place.specs.Places.{IsViewIn};

use super::head::{Head, read_head, read_key, read_table_head};
use super::refs::{TableRef, ValueRef};
use super::steps::value_of;
use amq_protocol_types::parsing::header::{Header, header_of};
use amq_protocol_types::parsing::{
    ErrorKind, Limits, ParserError, ParserResult, error_of_kind, lacks,
};
use amqp_value_core::input::{ParsableInput, SliceInput};
use amqp_value_core::types::AMQPType;
use simdutf8::basic::Utf8Error;

/// Reads a value in place: returns what `parse_value_within` does within the same limits, except
/// that it never runs out of memory.
///
/// All of the value is validated, keys' UTF-8 too. Nothing is copied or allocated. By measurements
/// it uses stack for at most `limits.depth` levels; docs/PROMISES.md has what one takes.
///
/// # Examples
///
/// ```rust
/// let (value, _rest) = read_in_place(b"I\0\0\x27\x10", LIMITS)?;
/// println!(rt; "in place: {} {:?}", value.get_type(), value.as_long_int())?;
/// ```
#[tactic(auto, using(crate::proofs::Reading::one_value, crate::proofs::Reading::left_after, amq_protocol_types::proofs::ParsingLaws::unknown_within, amq_protocol_types::proofs::ParsingLaws::lacks_within))]
pub fn read_in_place(bytes: &[u8], limits: Limits) -> Result<(ValueRef<'_>, &[u8]), ParserError>
    ensures within { MatchResult result
        (λ x. (v : Tree) × Denotes x.0 v × Within limits bytes.now (found v x.1.now))
        (RefusesWithin limits bytes.now) }
    ensures no_memory { IfErr result NeedsNoMemory }
    ensures one { IfOk result (λ x. IsOneValue x.0) }
    ensures rest { IfOk result (λ x. IsLeft bytes.now x.1.now) }
    ensures inside { IfOk result (λ x. IsViewIn bytes.now x.0 x.1.now) }
{
    let i = SliceInput::new(bytes);
    match header_of(i, limits.frame) {
        Header::Unknown => Err(error_of_kind(ErrorKind::MapOpt)),
        Header::TooLarge => Err(error_of_kind(ErrorKind::TooLarge)),
        Header::Lacks(n) => Err(lacks(n)),
        Header::Whole => {
            let (rest, value) = value_within(i, limits.depth as usize)?;
            Ok((value, rest.as_slice()))
        }
    }
}

/// Reads a value in place, without limits: returns what `parse_value` does, except that it never
/// runs out of memory.
///
/// It uses stack for each level of nesting, which only the input's length bounds: for bytes from
/// untrusted peers use `read_in_place`. docs/PROMISES.md has measurements.
#[tactic(auto, using(crate::proofs::Reading::one_value, crate::proofs::Reading::left_after))]
pub fn read_in_place_unlimited(bytes: &[u8]) -> Result<(ValueRef<'_>, &[u8]), ParserError>
    ensures outcome { MatchResult result
        (λ x. (v : Tree) × Denotes x.0 v × Outcome bytes.now (found v x.1.now))
        (IsRefusal (Outcome bytes.now) ⊥) }
    ensures one { IfOk result (λ x. IsOneValue x.0) }
    ensures rest { IfOk result (λ x. IsLeft bytes.now x.1.now) }
    ensures inside { IfOk result (λ x. IsViewIn bytes.now x.0 x.1.now) }
{
    let (rest, value) = value_within(SliceInput::new(bytes), bytes.len())?;
    Ok((value, rest.as_slice()))
}

/// Reads a table without its type tag in place, as AMQP methods and content headers have it: its
/// length in four bytes, big-endian, then its pairs.
///
/// It returns what `read_in_place` does of the type tag `F` and the bytes, within the same limits:
/// `frame` counts the type tag, and `depth` the table. Nothing is copied or allocated. It recurses
/// at most `limits.depth` levels deep, as `read_in_place` does.
///
/// # Examples
///
/// ```rust
/// let (headers, _rest) = read_table_in_place(HEADERS, LIMITS)?;
/// let retry = headers.get("retry").and_then(|value| value.as_bool());
/// ```
#[inline(always)]
pub fn read_table_in_place(
    bytes: &[u8],
    limits: Limits,
) -> Result<(TableRef<'_>, &[u8]), ParserError>
    ensures within { MatchResult result
        (λ x. (es : Entries) × HasEntries (table_body x.0) es
        × UntaggedWithin limits AMQPType.FieldTable bytes.now (found (table es) x.1.now))
        (RefusesUntagged limits AMQPType.FieldTable bytes.now) }
    ensures no_memory { IfErr result NeedsNoMemory }
    ensures one { IfOk result (λ x. IsOneTable x.0) }
    ensures rest { IfOk result (λ x. IsLeft bytes.now x.1.now) }
    ensures inside { IfOk result (λ x. bytes.now ≡ long_field (table_body x.0) ++ x.1.now) }
    ensures few { IfOk result (λ x. length (table_body x.0) < 2 ^ 32) }
{
    let (rest, body) = read_table_head(SliceInput::new(bytes), limits)?;
    if !has_valid_body(Head::FieldTable(body), limits.depth as usize) {
        return Err(error_of_kind(ErrorKind::Eof));
    }
    Ok((TableRef::of(body), rest.as_slice()))
}

// Reads a value in which containers nest at most `depth` deep.
#[cycle(reader)]
#[inline(always)]
#[tactic(auto, using(crate::proofs::HeadLemmas::head_within))]
fn value_within<'a>(i: SliceInput<'a>, depth: usize) -> ParserResult<SliceInput<'a>, ValueRef<'a>>
    ensures outcome { MatchResult result
        (λ x. IsReadInPlaceWithin depth (slice_bytes i.entry) x.1 (slice_bytes x.0))
        (IsRefusal (OutcomeWithin depth (slice_bytes i.entry)) ⊥) }
    ensures inside { IfOk result (λ x. IsViewIn (slice_bytes i.entry) x.1 (slice_bytes x.0)) }
{
    let (rest, head) = read_head(i)?;
    if !has_valid_body(head, depth) {
        return Err(error_of_kind(ErrorKind::Eof));
    }
    Ok((rest, value_of(head)))
}

// Whether the body of a container is values or pairs, if the head is of one, and containers nest at
// most `depth` deep.
#[cycle(reader)]
#[inline(always)]
fn has_valid_body<'a>(head: Head<'a>, depth: usize) -> bool
    ensures yes { result ≡ true → HasValidBody depth head.entry }
    ensures no { result ≡ false → HasValidBody depth head.entry → ⊥ }
{
    match head {
        Head::Plain(_) => true,
        Head::FieldArray(body) => depth > 0 && are_values(body, depth - 1),
        Head::FieldTable(body) => depth > 0 && are_pairs(body, depth - 1),
    }
}

// Whether a body is values one after another, in each of which containers nest at most `depth`
// deep.
#[cycle(reader)]
#[inline(never)]
fn are_values<'a>(body: SliceInput<'a>, depth: usize) -> bool
    ensures yes { result ≡ true → (vs : Trees) × BodyWithin depth (slice_bytes body.entry) vs }
    ensures no { result ≡ false → IsNoBody depth (slice_bytes body.entry) malformed }
{
    let mut rest = body;
    'values: while rest.input_len() > 0 {
        let Ok((after, _)) = value_within(rest, depth) else {
            return false;
        };
        rest = after;
    }
    true
}

// Whether a body is keys, each with a value, one after another, and containers nest at most `depth`
// deep in each value.
#[cycle(reader)]
#[inline(never)]
fn are_pairs<'a>(body: SliceInput<'a>, depth: usize) -> bool
    ensures yes { result ≡ true → (es : Entries) × IsTable depth (slice_bytes body.entry) es }
    ensures no { result ≡ false → IsNoTable depth (slice_bytes body.entry) malformed }
{
    let mut rest = body;
    'pairs: while rest.input_len() > 0 {
        let Ok((after_key, key)) = read_key(rest) else {
            return false;
        };
        let Ok(()) = check_utf8(key.as_slice()) else {
            return false;
        };
        let Ok((after, _)) = value_within(after_key, depth) else {
            return false;
        };
        rest = after;
    }
    true
}

// Checks that bytes are UTF-8. Most keys are ASCII. The standard library's check is left to
// `parse_value`, which has it in line as long as nothing else calls it.
#[tactic(auto, using(crate::proofs::Reading::all_ascii_is_utf8))]
pub(crate) fn check_utf8(bytes: &[u8]) -> Result<(), Utf8Error>
    ensures { MatchResult result (λ _. IsUtf8 bytes.now) (λ _. IsUtf8 bytes.now → ⊥) }
{
    let is_ascii = if bytes.len() < 8 {
        bytes.iter().all(|byte| *byte < 128)
    } else {
        is_ascii_by_words(bytes)
    };
    if is_ascii || is_utf8(bytes) {
        Ok(())
    } else {
        Err(Utf8Error)
    }
}

// Whether bytes are ASCII, eight at a time. It isn't in line, since what it takes of the stack would
// be taken at each level.
#[inline(never)]
#[tactic(auto, using(amq_protocol_types::proofs::ParsingLaws::ascii_is_utf8))]
fn is_ascii_by_words(bytes: &[u8]) -> bool
    ensures { result ≡ true → IsUtf8 bytes.now }
{
    bytes.is_ascii()
}

// Whether bytes are UTF-8, by compares: table look-ups take as long, and not every processor has
// them. It isn't in line, since what it takes of the stack would be taken at each level.
#[cold]
#[inline(never)]
fn is_utf8(bytes: &[u8]) -> bool
    ensures { IsTrue result ↔ IsUtf8 bytes.now }
{
    simdutf8::is_utf8_baseline(bytes)
}
