//! `from_json` and `encoding_of_json`: from a JSON text to a value, and to its canonical encoding.

// The tactics at the functions name the lemmas that clauses are proved by.

ghost use Rattle.std.specs.Prelude.{◌≡◌, ◌≢◌, Some, IfOk, IfErr, List, ℕ, length, min};
ghost use Rattle.amqp_value_core.specs.Grammar.{Wire};
ghost use Rattle.amqp_value_core.specs.Texts.{text, Fits};
ghost use Rattle.amqp_value_core.specs.Values.{Tree};
ghost use Rattle.amqp_value_core.specs.View.{view};
ghost use Rattle.json.specs.Lex.{tokens};
ghost use Rattle.amqp_json.specs.Conversions.{IsEncodingWithin, IsRefusedAs, IsRefusedWithin, IsWithin};
ghost use Rattle.amqp_json.specs.Meaning.{json_within, meant, meant_within, most_levels};
ghost use Rattle.amqp_json.specs.Nesting.{ReportsNestingOf};
ghost use Rattle.amqp_json.specs.declared.error.JsonError.TheVariants.{TooLarge};
ghost use Rattle.amqp_json.specs.reading.Puts.{IsEncodedAsItComes};

mod brackets;
mod keys;
mod named;
mod nesting;
mod put;
mod syntax;
mod walk;

use self::nesting::first_too_deep;
use self::syntax::first_fault;
use self::walk::put_document;
use crate::error::JsonError;
use amq_protocol_types::generation::{GenError, WriteContext, gen_value};
use amq_protocol_types::parsing::{SliceInput, parse_value};
use amqp_in_place::{Limits, is_canonical};
use amqp_value_core::value::AMQPValue;
use json::{Reader, Scratch};
use std::alloc::Global;

// No text nests deeper.
const UNLIMITED: Limits = Limits {
    frame: u32::MAX,
    depth: 128,
};

// The most arrays and objects that may be open at once in a text.
const MOST_LEVELS: u32 = 127;

/// Converts a JSON text to the canonical encoding of the value that it means.
///
/// The error says why the text means no value, and at which byte, or that an allocation failed. At
/// most 127 arrays and objects may be open at once: a deeper one is rejected with `TooDeep`.
/// docs/JSON.md has the most memory that it allocates for each byte of the text.
pub fn encoding_of_json(alloc: Global, json: &str) -> Result<Vec<u8>, JsonError>
    ensures ok { IfOk result (λ bytes. IsEncodingWithin most_levels json.now bytes.items) }
    ensures encodes { IfOk result (λ bytes. (v : Tree) → meant json.now ≡ Some v
        → Wire bytes.items v) }
    ensures refused { IfErr result (λ e. IsRefusedWithin most_levels e json.now) }
    ensures within { IfErr result (λ e. IsWithin e (length json.now)) }
{
    canonical_encoding(alloc, json, MOST_LEVELS)
}

/// Converts a JSON text as `encoding_of_json` does, with another limit on nesting: at most `levels`
/// arrays and objects may be open at once. More than 127 count as 127.
pub fn encoding_of_json_within(alloc: Global, json: &str, levels: u32) -> Result<Vec<u8>, JsonError>
    ensures ok { IfOk result (λ bytes. IsEncodingWithin (min levels most_levels) json.now bytes.items) }
    ensures encodes { IfOk result (λ bytes. (v : Tree)
        → meant_within (min levels most_levels) json.now ≡ Some v → Wire bytes.items v) }
    ensures refused { IfErr result (λ e. IsRefusedWithin (min levels most_levels) e json.now) }
    ensures within { IfErr result (λ e. IsWithin e (length json.now)) }
{
    canonical_encoding(alloc, json, levels.min(MOST_LEVELS))
}

// The canonical encoding of the value that a text of at most `levels` levels means.
fn canonical_encoding(alloc: Global, json: &str, levels: u32) -> Result<Vec<u8>, JsonError>
    ensures ok { IfOk result (λ bytes. IsEncodingWithin levels json.now bytes.items) }
    ensures encodes { IfOk result (λ bytes. (v : Tree) → meant_within levels json.now ≡ Some v
        → Wire bytes.items v) }
    ensures refused { IfErr result (λ e. IsRefusedWithin levels e json.now) }
    ensures within { IfErr result (λ e. IsWithin e (length json.now)) }
{
    let bytes = encoding_of_text(alloc, json, levels)?;
    if is_canonical(bytes.as_slice(), UNLIMITED) {
        return Ok(bytes);
    }
    canonical_of(alloc, bytes)
}

/// Converts a JSON text to the value that it means. Errors and the limit on nesting are as in
/// `encoding_of_json`; docs/JSON.md has the most memory that it allocates for each byte of the
/// text.
///
/// # Examples
///
/// ```rust
/// const ARGUMENTS: &str = "{\"x-queue-type\": \"quorum\", \"x-max-length\": {\"$LongInt\": 10000}}";
///
/// let arguments = from_json(alloc, ARGUMENTS)?;
/// println!(rt; "json: {}", to_json(alloc, &arguments)?)?;
/// ```
pub fn from_json(alloc: Global, json: &str) -> Result<AMQPValue, JsonError>
    ensures ok { IfOk result (λ v. meant json.now ≡ Some (view v)) }
    ensures refused { IfErr result (λ e. IsRefusedWithin most_levels e json.now) }
    ensures within { IfErr result (λ e. IsWithin e (length json.now)) }
{
    let bytes = encoding_of_text(alloc, json, MOST_LEVELS)?;
    value_of(alloc, bytes)
}

// The canonical encoding of the value of an encoding.
#[tactic(auto, using(crate::proofs::Encodings::encoded_again))]
fn canonical_of(alloc: Global, bytes: Vec<u8>) -> Result<Vec<u8>, JsonError>
    ensures ok { IfOk result (λ out. (v : Tree) → Wire bytes.items v → out.items ≡ text v) }
    ensures encodes { IfOk result (λ out. (v : Tree) → Wire bytes.items v → Wire out.items v) }
    ensures size { IfErr result (λ e. e ≡ TooLarge → (v : Tree) → Wire bytes.items v → Fits v → ⊥) }
    ensures refused { IfErr result (λ e. (most : ℕ) (t : List ℕ) → IsRefusedWithin most e t) }
    ensures within { IfErr result (λ e. (len : ℕ) → IsWithin e len) }
{
    let value = value_of(alloc, bytes)?;
    let mut context = WriteContext::from(Vec::new(alloc));
    match gen_value(&value, &mut context) {
        Ok(()) => Ok(context.into_inner().0),
        Err(GenError::OutOfMemory) => Err(JsonError::OutOfMemory),
        Err(_) => Err(JsonError::TooLarge),
    }
}

// The value of an encoding.
#[tactic(auto, using(crate::proofs::Encodings::same_value))]
fn value_of(alloc: Global, bytes: Vec<u8>) -> Result<AMQPValue, JsonError>
    ensures ok { IfOk result (λ u. (v : Tree) → Wire bytes.items v → v ≡ view u) }
    ensures refused { IfErr result (λ e. (most : ℕ) (t : List ℕ) → IsRefusedWithin most e t) }
    ensures size { IfErr result (λ e. e ≢ TooLarge) }
    ensures within { IfErr result (λ e. (len : ℕ) → IsWithin e len) }
{
    match parse_value(alloc, SliceInput::new(bytes.as_slice())) {
        Ok((_, value)) => Ok(value),
        Err(_) => Err(JsonError::OutOfMemory),
    }
}

// An encoding, with pairs in the order of the text.
fn encoding_of_text(alloc: Global, text: &str, levels: u32) -> Result<Vec<u8>, JsonError>
    ensures ok { IfOk result (λ bytes. IsEncodedAsItComes levels text.now bytes.items) }
    ensures refused { IfErr result (λ e. IsRefusedWithin levels e text.now) }
    ensures within { IfErr result (λ e. IsWithin e (length text.now)) }
{
    let mut scratch = Scratch::new(alloc);
    let mut reader = Reader::new(text, &mut scratch)?;
    let mut out = Vec::with_capacity(alloc, text.len())?;
    match put_document(alloc, &mut reader, &mut out, levels as usize) {
        Ok(()) => Ok(out),
        Err(error) => Err(located(error, text, levels)),
    }
}

// The error with its byte, which is within the text.
fn located(error: JsonError, text: &str, levels: u32) -> JsonError
    requires refused { IsRefusedAs levels error (λ d. json_within d text.now) }
    requires nesting { ReportsNestingOf levels error (tokens text.now) }
    ensures refused { IsRefusedWithin levels result text.now }
    ensures within { IsWithin result (length text.now) }
{
    let len = text.len();
    match error {
        JsonError::OutOfMemory => JsonError::OutOfMemory,
        JsonError::TooLarge => JsonError::TooLarge,
        JsonError::Syntax(..) => {
            let (at, error) = first_fault(text);
            JsonError::Syntax(at, error)
        }
        JsonError::TooDeep(_) => match first_too_deep(text, levels) {
            Some(at) => JsonError::TooDeep(at),
            None => unreachable!(),
        },
        JsonError::NotAValue(at, mismatch) => JsonError::NotAValue(at.min(len), mismatch),
    }
}
