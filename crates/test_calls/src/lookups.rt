//! Requests on a `ValueRef`, a value that is read in place: `iter BYTES [STEPS]`, `get BYTES KEY`,
//! `get_path BYTES STEPS`, `repeated_key BYTES` and `view_getters BYTES`.
//!
//! Steps are `-` for none, or joined by `/`, each a position or a key.

use super::values::{Word, push_some, push_word};
use super::words::{bytes_of, digits, named, number, plain, quoted, shown, text_of};
use super::{Answer, Trouble};
use amqp_in_place::{ArrayRef, EqualKeys, PathStep, TableRef, ValueRef, read_in_place_unlimited};
use std::alloc::Global;

/// So many values or pairs of a container are shown, at most.
const MOST: usize = 12;

/// What a call of a value in place answers.
pub fn answer(rt: &HostRuntime, alloc: Global, call: &str, words: &[&str]) -> Answer {
    let [word, words @ ..] = words else {
        return Err(Trouble::Unknown);
    };
    let bytes = bytes_of(alloc, *word)?;
    let Ok((value, [])) = read_in_place_unlimited(bytes.as_slice()) else {
        return Err(Trouble::Unknown);
    };
    match (call, words, value) {
        ("iter", [], _) => each(rt, alloc, value),
        ("iter", [steps], _) => each_at(rt, alloc, value, *steps),
        ("get", [key], ValueRef::FieldTable(table)) => get(rt, alloc, table, *key),
        ("get_path", [steps], _) => get_path(rt, alloc, value, *steps),
        ("repeated_key", [], ValueRef::FieldTable(table)) => repeated_key(rt, alloc, table),
        ("view_getters", [], _) => getters(alloc, value),
        _ => Err(Trouble::Unknown),
    }
}

fn repeated_key(rt: &HostRuntime, alloc: Global, table: TableRef<'_>) -> Answer {
    match call!(rt; table.repeated_key(alloc)) {
        Ok(Some(key)) => quoted(alloc, key),
        Ok(None) => plain(alloc, "None"),
        Err(error) => named(alloc, error),
    }
}

/// The word of what was found, of a container its bytes.
fn found_text(alloc: Global, found: Option<ValueRef<'_>>) -> Answer {
    match found {
        None => plain(alloc, "None"),
        Some(ValueRef::FieldArray(array)) => {
            let bytes = digits(alloc, array.as_bytes())?;
            Ok(format!(in alloc; "FieldArray({bytes})")?)
        }
        Some(ValueRef::FieldTable(table)) => {
            let bytes = digits(alloc, table.as_bytes())?;
            Ok(format!(in alloc; "FieldTable({bytes})")?)
        }
        Some(value) => value.to_owned(alloc)?.word(alloc),
    }
}

/// The values of a container in order, each with the bytes that are left after it, until there is none twice.
fn each(rt: &HostRuntime, alloc: Global, value: ValueRef<'_>) -> Answer {
    match value {
        ValueRef::FieldArray(array) => each_value(rt, alloc, array),
        ValueRef::FieldTable(table) => each_pair(rt, alloc, table),
        _ => Err(Trouble::Unknown),
    }
}

fn each_value(rt: &HostRuntime, alloc: Global, array: ArrayRef<'_>) -> Answer {
    let mut text = begun(alloc, array.as_bytes(), array.is_empty())?;
    let mut values = call!(rt; array.iter());
    for at in 0..MOST {
        let value = call!(rt; values.next());
        let (shown, left) = (found_text(alloc, value)?, digits(alloc, values.as_bytes())?);
        write!(text, "; {shown} left {left}")?;
        let got = found_text(alloc, call!(rt; array.get(at)))?;
        if got.as_str() != shown.as_str() {
            write!(text, " but got {got}")?;
        }
        if value.is_none() {
            break;
        }
    }
    let after = found_text(alloc, values.next())?;
    write!(text, "; {after}")?;
    Ok(text)
}

fn each_pair(rt: &HostRuntime, alloc: Global, table: TableRef<'_>) -> Answer {
    let mut text = begun(alloc, table.as_bytes(), table.is_empty())?;
    let mut pairs = call!(rt; table.iter());
    for _ in 0..MOST {
        let Some((key, value)) = call!(rt; pairs.next()) else {
            break;
        };
        let (key, value) = (quoted(alloc, key)?, found_text(alloc, Some(value))?);
        let left = digits(alloc, pairs.as_bytes())?;
        write!(text, "; {key}:{value} left {left}")?;
    }
    let is_over = pairs.next().is_none();
    let left = digits(alloc, pairs.as_bytes())?;
    write!(text, "; over {is_over} left {left}")?;
    Ok(text)
}

/// The bytes of a container.
fn begun(alloc: Global, bytes: &[u8], is_empty: bool) -> Answer {
    let bytes = digits(alloc, bytes)?;
    if is_empty {
        return Ok(format!(in alloc; "empty {bytes}")?);
    }
    Ok(bytes)
}

/// Of equal keys the first value and the last.
fn get(rt: &HostRuntime, alloc: Global, table: TableRef<'_>, key: &str) -> Answer {
    let key = text_of(alloc, key)?;
    let key = key.as_str();
    let first = found_text(alloc, call!(rt; table.get_first(key)))?;
    let last = found_text(alloc, call!(rt; table.get(key)))?;
    let is_there = call!(rt; table.contains_key(key));
    if is_there != (last.as_str() != "None") {
        return Ok(format!(in alloc; "first {first} last {last} contains {is_there}")?);
    }
    both_text(alloc, first, last)
}

fn both_text(alloc: Global, first: String, last: String) -> Answer {
    if first.as_str() != last.as_str() {
        return Ok(format!(in alloc; "first {first} last {last}")?);
    }
    Ok(last)
}

/// A step, with a key of its own.
#[derive(Drop)]
enum Step {
    Key(String),
    Index(usize),
}

fn steps_of(alloc: Global, word: &str) -> Result<Vec<Step>, Trouble> {
    let mut steps = Vec::new(alloc);
    if word == "-" {
        return Ok(steps);
    }
    for step in word.split('/') {
        steps.push(match number(step) {
            Ok(index) => Step::Index(index),
            Err(_) => Step::Key(text_of(alloc, step)?),
        })?;
    }
    Ok(steps)
}

fn path_of<'a>(alloc: Global, steps: &'a [Step]) -> Result<Vec<PathStep<'a>>, Trouble> {
    let mut path = Vec::new(alloc);
    for step in steps {
        path.push(match step {
            Step::Key(key) => PathStep::Key(key.as_str()),
            Step::Index(index) => PathStep::Index(*index),
        })?;
    }
    Ok(path)
}

/// Where a path leads: by the first of equal keys, and by the last.
fn get_path(rt: &HostRuntime, alloc: Global, value: ValueRef<'_>, steps: &str) -> Answer {
    let steps = steps_of(alloc, steps)?;
    let path = path_of(alloc, steps.as_slice())?;
    let path = path.as_slice();
    let first = found_text(alloc, call!(rt; value.get_path(path, EqualKeys::First)))?;
    let last = found_text(alloc, call!(rt; value.get_path(path, EqualKeys::Last)))?;
    let whole = both_text(alloc, first, last)?;
    if let ValueRef::FieldTable(table) = value {
        let first = found_text(alloc, call!(rt; table.get_path(path, EqualKeys::First)))?;
        let last = found_text(alloc, call!(rt; table.get_path(path, EqualKeys::Last)))?;
        let of_table = both_text(alloc, first, last)?;
        if of_table.as_str() != whole.as_str() {
            return Ok(format!(in alloc; "{whole} but {of_table} of the table")?);
        }
    }
    Ok(whole)
}

/// What is in the container that a path leads to.
fn each_at(rt: &HostRuntime, alloc: Global, value: ValueRef<'_>, steps: &str) -> Answer {
    let steps = steps_of(alloc, steps)?;
    let path = path_of(alloc, steps.as_slice())?;
    match value.get_path(path.as_slice(), EqualKeys::First) {
        Some(value) => each(rt, alloc, value),
        None => Err(Trouble::Unknown),
    }
}

/// The type, and the getters that answer something, each with what.
fn getters(alloc: Global, value: ValueRef<'_>) -> Answer {
    let mut text = shown(alloc, value.get_type())?;
    let to = &mut text;
    push_numbers!(to, alloc, value);
    push_bytes(alloc, to, "as_long_string", value.as_long_string())?;
    push_bytes(
        alloc,
        to,
        "as_array",
        value.as_array().map(|it| it.as_bytes()),
    )?;
    push_bytes(
        alloc,
        to,
        "as_field_table",
        value.as_field_table().map(|it| it.as_bytes()),
    )?;
    push_bytes(alloc, to, "as_byte_array", value.as_byte_array())?;
    Ok(text)
}

fn push_bytes(
    alloc: Global,
    text: &mut String,
    name: &str,
    held: Option<&[u8]>,
) -> Result<(), Trouble> {
    match held {
        Some(it) => push_some(text, name, Some(digits(alloc, it)?)),
        None => Ok(()),
    }
}
