//! `to_json`, `json_of_encoding` and `write_json`: from a value or its encoding to JSON text.

// The tactics at the functions name the lemmas that clauses are proved by.

ghost use Rattle.std.specs.Prelude.{◌≡◌, ◌≤◌, List, ℕ, length, IfOk, IfErr, MatchResult, string_bytes};
ghost use Rattle.amq_protocol_types.specs.declared.parsing.within.Limits.{Limits};
ghost use Rattle.amqp_in_place.specs.Written.{IsWrittenAs};
ghost use Rattle.amqp_value_core.specs.Values.{Tree};
ghost use Rattle.amqp_value_core.specs.Texts.{text};
ghost use Rattle.amqp_value_core.specs.View.{view};
ghost use Rattle.amqp_json.specs.Conversions.{IsJsonOf, IsNotRead, IsJsonWritten, IsNotWritten, HasNoText};
ghost use Rattle.amqp_json.specs.Views.{HasText, IsReadBack, IsViewOfRead, WritesText};
ghost use Rattle.amqp_json.specs.Written.{json_text, MeansIfShallow};

mod decimals;
mod leaves;
mod put;
mod tokens;
mod walk;

use self::tokens::Place;
use self::walk::put_value;
use crate::error::{DecodeError, EncodeError, WriteError};
use amq_protocol_types::generation::{GenError, WriteContext, gen_value};
use amqp_in_place::{Limits, ValueRef, read_in_place, read_in_place_unlimited};
use amqp_value_core::value::AMQPValue;
use std::alloc::{AllocError, Global};

/// Converts a value to its JSON text, without spaces. `from_json` reads the text as the value if
/// the text nests at most 127 deep.
///
/// Returns an error for a value that has no encoding, and if an allocation fails. It allocates the
/// canonical encoding and the text. It uses stack for each level of nesting.
pub fn to_json(alloc: Global, value: &AMQPValue) -> Result<String, EncodeError>
    ensures text { IfOk result (λ s. string_bytes s ≡ json_text (view value.now)) }
    ensures read_back { IfOk result (λ s. MeansIfShallow (view value.now) (string_bytes s) (view value.now)) }
    ensures refused { IfErr result (HasNoText (view value.now)) }
{
    let bytes = canonical(alloc, value)?;
    text_of_canonical(alloc, bytes.as_slice())
}

/// Converts the encoding at the start of the bytes to JSON text, and returns the remaining bytes
/// too. The value is read as `read_in_place` does. The pairs of a table are written in the order in
/// which they are encoded, also those whose keys come again: of these the last counts.
///
/// It allocates the text. It uses stack for at most `limits.depth` levels.
#[tactic(auto, using(amq_protocol_types::proofs::ParsingLaws::found_all))]
pub fn json_of_encoding<'a>(
    alloc: Global,
    bytes: &'a [u8],
    limits: Limits,
) -> Result<(String, &'a [u8]), DecodeError>
    ensures json { IfOk result (λ x.
        IsJsonOf limits bytes.entry.now (string_bytes x.0) x.1.now) }
    ensures refused { IfErr result (IsNotRead limits bytes.entry.now) }
{
    match read_in_place(bytes, limits) {
        Ok((value, rest)) => match json_of_view(alloc, value) {
            Ok(text) => Ok((text, rest)),
            Err(_) => Err(DecodeError::OutOfMemory),
        },
        Err(refusal) => Err(DecodeError::Refused(refusal)),
    }
}

/// Converts a value that was read in place to JSON text, as `json_of_encoding` does. Returns an
/// error only if an allocation fails.
pub fn json_of_view(alloc: Global, value: ValueRef<'_>) -> Result<String, AllocError>
    requires read { (l : Limits) × (s : List ℕ) × (rest : List ℕ) × IsViewOfRead l s value rest }
    ensures json { IfOk result (λ text. (l : Limits) (s rest : List ℕ) → IsViewOfRead l s value.entry rest
        → IsJsonOf l s (string_bytes text) rest) }
{
    text_of(alloc, value)
}

/// Writes the JSON text of the encoding at the start of the bytes to the start of the buffer, and
/// returns how many bytes the text has, and the bytes after the encoding.
///
/// Nothing is allocated, and nothing is sorted: the text is that of `json_of_encoding`. After an
/// error the buffer may hold some of it. It uses stack for at most `limits.depth` levels.
pub fn write_json<'a>(
    bytes: &'a [u8],
    limits: Limits,
    buffer: &mut [u8],
) -> Result<(usize, &'a [u8]), WriteError>
    ensures written { MatchResult result
        (λ x. IsJsonWritten limits bytes.entry.now buffer.old buffer.new x.0 x.1.now)
        (IsNotWritten limits bytes.entry.now (length buffer.old)) }
{
    let (value, rest) = match read_in_place(bytes, limits) {
        Ok(read) => read,
        Err(refusal) => return Err(WriteError::Refused(refusal)),
    };
    let capacity = buffer.len();
    let count = write_json_of_view(value, buffer);
    if count > capacity {
        return Err(WriteError::BufferTooSmall(count));
    }
    Ok((count, rest))
}

/// Writes the JSON text of a value that was read in place to the start of the buffer, and returns
/// how many bytes the text has, which may be more than the buffer has.
///
/// Nothing is allocated. If the text doesn't fit, the buffer may hold some of it.
pub fn write_json_of_view(value: ValueRef<'_>, buffer: &mut [u8]) -> usize
    ensures written { (l : Limits) (s rest : List ℕ) → IsViewOfRead l s value.entry rest
        → WritesText l s rest buffer.old buffer.new result }
{
    put_value(buffer, Place::START, value).count
}

// The text of a value that was read. It is written to a small buffer first, which also measures it.
// A longer one is then written to a string of its length.
fn text_of(alloc: Global, value: ValueRef<'_>) -> Result<String, AllocError>
    requires json { HasText value }
    ensures text { IfOk result (λ s. (t : Tree) → IsWrittenAs value.entry t → string_bytes s ≡ json_text t) }
{
    let mut short = [0u8; 1024];
    let end = put_value(&mut short, Place::START, value);
    if end.count <= short.len() {
        let text = Vec::from_slice(alloc, &short[..end.count])?;
        return Ok(unsafe { String::from_utf8_unchecked(text) });
    }
    let mut text = vec![in alloc; 0u8; end.count]?;
    put_value(text.as_mut_slice(), Place::START, value);
    Ok(unsafe { String::from_utf8_unchecked(text) })
}

// The text of a canonical encoding.
fn text_of_canonical(alloc: Global, bytes: &[u8]) -> Result<String, EncodeError>
    requires canonical { (v : Tree) × (bytes.now ≡ text v) × IsReadBack v }
    ensures text { IfOk result (λ s. (v : Tree) → bytes.now ≡ text v → IsReadBack v
        → string_bytes s ≡ json_text v) }
    ensures read_back { IfOk result (λ s. (v : Tree) → bytes.now ≡ text v → IsReadBack v
        → MeansIfShallow v (string_bytes s) v) }
    ensures refused { IfErr result (λ e. (v : Tree) → bytes.now ≡ text v → IsReadBack v
        → HasNoText v e) }
{
    match read_in_place_unlimited(bytes) {
        Ok((found, _)) => Ok(text_of(alloc, found)?),
        Err(_refusal) => Err(EncodeError::NoTypeTag),
    }
}

// The canonical encoding of a value.
fn canonical(alloc: Global, value: &AMQPValue) -> Result<Vec<u8>, EncodeError>
    ensures text { IfOk result (λ bytes. bytes.items ≡ text (view value.now)) }
    ensures back { IfOk result (λ bytes. IsReadBack (view value.now)) }
    ensures refused { IfErr result (HasNoText (view value.now)) }
{
    let mut context = WriteContext::from(Vec::new(alloc));
    match gen_value(value, &mut context) {
        Ok(()) => Ok(context.into_inner().0),
        Err(GenError::LengthTooLong) => Err(EncodeError::TooLong),
        Err(_) => Err(EncodeError::OutOfMemory),
    }
}
