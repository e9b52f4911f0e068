//! What the other modules make calls with: a mebibyte of bytes or of text, many values, many
//! entries.

use super::Unmade;
use amq_protocol_types::parsing::{SliceInput, parse_field_table};
use amq_protocol_types::stream::Limits;
use amq_protocol_types::{AMQPValue, FieldTable, ShortString};
use std::alloc::Global;

/// So many bytes: a mebibyte.
pub const MUCH: usize = 1 << 20;
/// So many values, entries or flags: each takes 27 bytes or more, so that all of them take a mebibyte.
pub const MANY: u32 = 40_000;
/// The most bytes of a short string.
pub const SHORT: usize = 255;
/// Limits that all inputs are within.
pub const LIMITS: Limits = Limits {
    frame: u32::MAX,
    depth: 2,
};

/// A mebibyte.
pub fn bytes(alloc: Global) -> Result<Vec<u8>, Unmade> {
    Ok(vec![in alloc; b'a'; MUCH]?)
}

/// A text of so many letters.
pub fn text(alloc: Global, count: usize) -> Result<String, Unmade> {
    match String::from_utf8(vec![in alloc; b'a'; count]?) {
        Ok(text) => Ok(text),
        Err(_) => Err(Unmade::NoInput),
    }
}

/// Many values.
pub fn values(alloc: Global) -> Result<Vec<AMQPValue>, Unmade> {
    let mut values = Vec::new(alloc);
    for _ in 0..MANY {
        values.push(AMQPValue::Void)?;
    }
    Ok(values)
}

/// A key for each number, in the order of the numbers.
pub fn key_of(n: u32) -> [u8; 5] {
    [n >> 16, n >> 12, n >> 8, n >> 4, n].map(|digit| b'a' + (digit % 16) as u8)
}

/// The same as a short string.
pub fn short_key_of(alloc: Global, n: u32) -> Result<ShortString, Unmade> {
    let key = key_of(n);
    match std::str::from_utf8(&key) {
        Ok(key) => match ShortString::try_copy(alloc, key) {
            Ok(key) => Ok(key),
            Err(_) => Err(Unmade::NoInput),
        },
        Err(_) => Err(Unmade::NoInput),
    }
}

/// A payload: the length of the body, and the body.
pub fn payload(alloc: Global, body: &[u8]) -> Result<Vec<u8>, Unmade> {
    let Ok(length) = u32::try_from(body.len()) else {
        return Err(Unmade::NoInput);
    };
    let mut bytes = Vec::new(alloc);
    bytes.extend_from_slice(&length.to_be_bytes())?;
    bytes.extend_from_slice(body)?;
    Ok(bytes)
}

/// An encoding: the type tag and the payload.
pub fn encoding(alloc: Global, tag: u8, body: &[u8]) -> Result<Vec<u8>, Unmade> {
    let mut bytes = Vec::new(alloc);
    bytes.push(tag)?;
    bytes.extend_from_slice(payload(alloc, body)?.as_slice())?;
    Ok(bytes)
}

/// The body of an array of many values.
pub fn array_body(alloc: Global) -> Result<Vec<u8>, Unmade> {
    Ok(vec![in alloc; b'V'; MANY as usize]?)
}

/// The body of a table of many entries, whose keys ascend or descend.
pub fn table_body(alloc: Global, is_rising: bool) -> Result<Vec<u8>, Unmade> {
    let mut bytes = Vec::new(alloc);
    for n in 0..MANY {
        let key = key_of(if is_rising { n } else { MANY - n });
        bytes.push(5)?;
        bytes.extend_from_slice(&key)?;
        bytes.push(b'V')?;
    }
    Ok(bytes)
}

/// A table of many entries.
pub fn table(alloc: Global) -> Result<FieldTable, Unmade> {
    let payload = payload(alloc, table_body(alloc, true)?.as_slice())?;
    match parse_field_table(alloc, SliceInput::new(payload.as_slice())) {
        Ok((_, table)) => Ok(table),
        Err(_) => Err(Unmade::NoInput),
    }
}
