//! Requests on `SplitInput`, an input of two slices: `input N BYTES BYTES` splits it at N. The
//! bytes in one slice have to be the same. `split_value BYTES BYTES` has the value that `parse_value` reads of two
//! slices, and what it leaves of each.

use super::parse::error_text;
use super::values::Word;
use super::words::{bytes_of, digits, number, ok};
use super::{Answer, Trouble};
use amq_protocol_types::parsing::traits::ParsableInput;
use amq_protocol_types::parsing::{SliceInput, SplitInput, parse_value};
use std::alloc::Global;

/// What is answered of an input of two slices.
pub fn answer(rt: &HostRuntime, alloc: Global, call: &str, words: &[&str]) -> Answer {
    match (call, words) {
        ("input", [place, word, other]) => input(alloc, *place, *word, *other),
        ("split_value", [word, other]) => split_value(rt, alloc, *word, *other),
        _ => Err(Trouble::Unknown),
    }
}

/// The value at the start of two slices, and the bytes after it, each in its slice.
fn split_value(rt: &HostRuntime, alloc: Global, word: &str, other: &str) -> Answer {
    let (first, second) = (bytes_of(alloc, word)?, bytes_of(alloc, other)?);
    let input = SplitInput::new(first.as_slice(), second.as_slice());
    match call!(rt; parse_value(alloc, input)) {
        Ok((rest, value)) => {
            let mut text = ok(alloc, value.word(alloc)?.as_str())?;
            push_parts(alloc, &mut text, "rest ", rest)?;
            Ok(text)
        }
        Err(error) => error_text(alloc, error),
    }
}

/// The length, the byte at N, the bytes before it and from it on, each in its slice, and the chunk.
fn input(alloc: Global, place: &str, word: &str, other: &str) -> Answer {
    let mut whole = bytes_of(alloc, word)?;
    let cut = whole.len();
    whole.extend_from_slice(bytes_of(alloc, other)?.as_slice())?;
    split(alloc, number(place)?, whole.as_slice(), cut)
}

fn split(alloc: Global, place: usize, whole: &[u8], cut: usize) -> Answer {
    let (first, second) = whole.split_at(cut.min(whole.len()));
    let (one, two) = (SliceInput::new(whole), SplitInput::new(first, second));
    if two.input_len() < place || one.input_len() < place {
        return Err(Trouble::Unknown);
    }
    let mut text = format!(in alloc; "length {}", two.input_len())?;
    if place < two.input_len() {
        push(alloc, &mut text, "byte ", &[two.byte_at(place)])?;
    } else {
        text.push_str(" byte none")?;
    }
    push_parts(alloc, &mut text, "before ", two.take(place))?;
    push_parts(alloc, &mut text, "after ", two.take_from(place))?;
    push(alloc, &mut text, "chunk ", two.chunk())?;
    let (first, second) = whole.split_at(place.min(whole.len()));
    let is_same = one.chunk() == whole
        && one.take(place).as_slice() == first
        && one.take_from(place).as_slice() == second;
    if !is_same {
        text.push_str(" but one slice has others")?;
    }
    Ok(text)
}

/// Adds what bytes are, and these.
fn push(alloc: Global, text: &mut String, what: &str, bytes: &[u8]) -> Result<(), Trouble> {
    let bytes = digits(alloc, bytes)?;
    Ok(write!(text, " {what}{bytes}")?)
}

/// The same, of both slices of an input.
fn push_parts(
    alloc: Global,
    text: &mut String,
    what: &str,
    input: SplitInput<'_>,
) -> Result<(), Trouble> {
    let (first, second) = input.parts();
    let (first, second) = (digits(alloc, first)?, digits(alloc, second)?);
    Ok(write!(text, " {what}{first},{second}")?)
}
