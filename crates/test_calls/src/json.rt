//! Requests to convert JSON: `json TEXT`, or `json_bytes BYTES` for a text of any bytes;
//! `to_json VALUE`; `json_message BYTES` and `to_json_message VALUE` for the message of their
//! error; and `json_of_encoding BYTES`, which `in_place` calls with each small limit.
//!
//! If two calls don't agree, or a text that was written isn't read back, that is shown after the answer.

use super::parse::{error_text, with_rest};
use super::values::{Word, value_of};
use super::words::{WIDE, digits, named, plain, shown, text_of};
use super::{Answer, Trouble};
use amq_protocol_types::AMQPValue;
use amq_protocol_types::parsing::{SliceInput, parse_value};
use amqp_in_place::Limits;
use amqp_json::{
    DecodeError, JsonError, encoding_of_json, from_json, json_of_encoding, to_json, write_json,
};
use std::alloc::Global;

/// A longer text is shown as bytes.
const LONG: usize = 256;

/// The answer to a request, except to `json_of_encoding`.
pub fn answer(rt: &HostRuntime, alloc: Global, call: &str, words: &[&str]) -> Answer {
    match (call, words) {
        ("to_json", [word]) => written(rt, alloc, &value_of(alloc, *word)?),
        ("json_bytes", [word]) => read(rt, alloc, text_of(alloc, *word)?.as_str()),
        ("json", words) => read(rt, alloc, words.join(alloc, " ")?.as_str()),
        ("json_message", [word]) => match from_json(alloc, text_of(alloc, *word)?.as_str()) {
            Ok(_) => Err(Trouble::Unknown),
            Err(error) => shown(alloc, error),
        },
        ("to_json_message", [word]) => match to_json(alloc, &value_of(alloc, *word)?) {
            Ok(_) => Err(Trouble::Unknown),
            Err(error) => shown(alloc, error),
        },
        _ => Err(Trouble::Unknown),
    }
}

/// The text of a value.
fn written(rt: &HostRuntime, alloc: Global, value: &AMQPValue) -> Answer {
    match call!(rt; to_json(alloc, value)) {
        Ok(text) => {
            let mut answer = as_text(alloc, text.as_str())?;
            push_unless_read_back(alloc, &mut answer, text.as_str(), value)?;
            Ok(answer)
        }
        Err(error) => named(alloc, error),
    }
}

/// The value of a text, and its encoding.
fn read(rt: &HostRuntime, alloc: Global, text: &str) -> Answer {
    let value = call!(rt; from_json(alloc, text));
    let encoding = call!(rt; encoding_of_json(alloc, text));
    match (&value, &encoding) {
        (Ok(value), Ok(bytes)) => {
            let (word, encoded) = (value.word(alloc)?, digits(alloc, bytes.as_slice())?);
            let mut answer = format!(in alloc; "{word} {encoded}")?;
            push_other_texts(alloc, &mut answer, value, bytes.as_slice())?;
            Ok(answer)
        }
        (Err(error), Err(other)) if error == other => named(alloc, error),
        _ => differ(alloc, &value, &encoding),
    }
}

/// What is answered if only one of the calls fails, or each otherwise.
fn differ(
    alloc: Global,
    value: &Result<AMQPValue, JsonError>,
    encoding: &Result<Vec<u8>, JsonError>,
) -> Answer {
    let value = match value {
        Ok(value) => value.word(alloc)?,
        Err(error) => named(alloc, error)?,
    };
    let encoding = match encoding {
        Ok(bytes) => digits(alloc, bytes.as_slice())?,
        Err(error) => named(alloc, error)?,
    };
    Ok(format!(in alloc; "{value} but encoded {encoding}")?)
}

/// Adds what is wrong with the text of a value: it isn't that of the encoding, or it isn't read back.
fn push_other_texts(
    alloc: Global,
    answer: &mut String,
    value: &AMQPValue,
    encoding: &[u8],
) -> Result<(), Trouble> {
    let text = to_json(alloc, value);
    let other = json_of_encoding(alloc, encoding, WIDE);
    match (&text, &other) {
        (Ok(text), Ok((other, _))) if text == other => {
            push_unless_read_back(alloc, answer, text.as_str(), value)
        }
        _ => Ok(write!(
            answer,
            " but to_json {text:?} and json_of_encoding {other:?}"
        )?),
    }
}

/// Adds what is read from a text if it isn't the value.
fn push_unless_read_back(
    alloc: Global,
    answer: &mut String,
    text: &str,
    value: &AMQPValue,
) -> Result<(), Trouble> {
    let back = match from_json(alloc, text) {
        Ok(back) if back == *value => return Ok(()),
        Ok(back) => back.word(alloc)?,
        Err(error) => named(alloc, error)?,
    };
    Ok(write!(answer, " but read {back}")?)
}

/// The text of an encoding, and what `write_json` does if it writes another into a buffer of that length.
pub fn of_encoding(rt: &HostRuntime, alloc: Global, bytes: &[u8], limits: Limits) -> Answer {
    let (text, rest) = match call!(rt; json_of_encoding(alloc, bytes, limits)) {
        Ok(read) => read,
        Err(DecodeError::Refused(error)) => return error_text(alloc, error),
        Err(error) => return named(alloc, error),
    };
    let text = text.as_str();
    let Ok((_, value)) = parse_value(alloc, SliceInput::new(bytes)) else {
        return Err(Trouble::Unknown);
    };
    let mut answer = with_rest(alloc, as_text(alloc, text)?, rest)?;
    push_unless_written(alloc, &mut answer, bytes, limits, text)?;
    push_unless_read_back(alloc, &mut answer, text, &value)?;
    Ok(answer)
}

/// Adds what `write_json` does unless it writes the text.
fn push_unless_written(
    alloc: Global,
    answer: &mut String,
    bytes: &[u8],
    limits: Limits,
    text: &str,
) -> Result<(), Trouble> {
    let mut buffer = vec![in alloc; 0_u8; text.len()]?;
    match write_json(bytes, limits, buffer.as_mut_slice()) {
        Ok(_) if buffer.as_slice() == text.as_bytes() => Ok(()),
        Ok(_) => Ok(answer.push_str("; write_json another text")?),
        Err(error) => Ok(write!(answer, "; write_json {error:?}")?),
    }
}

/// A text as it is, or its bytes if it is long.
fn as_text(alloc: Global, text: &str) -> Answer {
    if LONG < text.len() {
        return digits(alloc, text.as_bytes());
    }
    plain(alloc, text)
}
