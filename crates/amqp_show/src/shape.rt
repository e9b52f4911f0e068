//! `shape_of`: what an input is by its bytes: a value, a table without its type tag or length, or something else.

use crate::arguments::Settings;
use crate::hexadecimal::is_hexadecimal;
use crate::parts::type_of;
use amqp_in_place::read_table_in_place;
use std::alloc::{AllocError, Global};

// The most bytes of a value that has no length, with its type tag.
const LONGEST_NUMBER: usize = 9;

/// What bytes seem to be.
#[derive(Clone, Copy)]
pub enum Seems {
    /// What the settings say.
    AsSet,
    /// A table without its type tag.
    Table,
    /// A table without its type tag and its length.
    Body,
    /// Something that isn't read, and what to do.
    Other(&'static str),
}

impl Seems {
    /// What is said of it.
    pub fn text(self) -> Option<&'static str> {
        match self {
            Seems::AsSet => None,
            Seems::Table => Some("read as a table without its type tag, as with --table"),
            Seems::Body => Some("read as a table's body, without its type tag and length"),
            Seems::Other(what) => Some(what),
        }
    }

    /// The settings that read it.
    pub fn settings(self, settings: Settings) -> Settings {
        let is_body = matches!(self, Seems::Body);
        Settings {
            is_table: settings.is_table || is_body || matches!(self, Seems::Table),
            is_body,
            ..settings
        }
    }
}

/// What is before the body of a table that has so many bytes, if it has its type tag and its length.
pub fn before(len: usize) -> [u8; 5] {
    let [a, b, c, d] = u32::try_from(len).unwrap_or(u32::MAX).to_be_bytes();
    [b'F', a, b, c, d]
}

/// Whether an input that begins so is as the settings say, also if it is malformed or cut: it has a type tag, or a
/// table's length that is within the limits.
pub fn is_plain(begin: &[u8], settings: Settings) -> bool {
    match begin {
        [a, b, c, d, ..] if settings.is_table => {
            let len = u32::from_be_bytes([*a, *b, *c, *d]);
            len.saturating_add(5) <= settings.limits.frame
        }
        _ => settings.is_table || begin.is_empty() || type_of(begin).is_some(),
    }
}

/// Whether an input that begins so seems to be text, although its first letter is a type tag: more follows the value
/// than a number has.
pub fn begins_text(begin: &[u8], settings: Settings) -> bool {
    !settings.hex && begin.len() > LONGEST_NUMBER && is_printable(begin)
}

// Whether no byte is a control character. The length of a string, an array or a table nearly always has one.
fn is_printable(bytes: &[u8]) -> bool {
    bytes
        .iter()
        .all(|c| *c >= b' ' || matches!(c, b'\t' | b'\n' | b'\r'))
}

/// What all bytes of an input seem to be that isn't plain, or as many as the limits allow.
pub fn shape_of(alloc: Global, bytes: &[u8], settings: Settings) -> Result<Seems, AllocError> {
    let is_text = !settings.hex && !settings.has_lines;
    Ok(match bytes {
        [b'F', 0, ..] if settings.is_table => {
            Seems::Other("the input seems to have a type tag; without --table it is read")
        }
        _ if !settings.is_table && begins_table(bytes) => Seems::Table,
        [0xd4, 0xc3, 0xb2, 0xa1, ..]
        | [0x4d, 0x3c, 0xb2, 0xa1, ..]
        | [0x0a, 0x0d, 0x0d, 0x0a, ..] => {
            Seems::Other(
                "a capture of packets: copy the bytes of the table in Wireshark as a hex stream, for --hex",
            )
        }
        _ if is_text && matches!(bytes.trim_ascii_start(), [b'{' | b'[', ..]) => {
            Seems::Other("the input seems to be JSON; --encode reads it")
        }
        _ if is_text && is_hexadecimal(bytes) => {
            Seems::Other("the input seems to be hexadecimal; --hex reads it")
        }
        _ if is_body(alloc, bytes, settings)? => Seems::Body,
        _ if is_text && is_printable(bytes) => {
            Seems::Other("the input seems to be text, not bytes; --hex reads hexadecimal")
        }
        _ => Seems::AsSet,
    })
}

/// Whether bytes that don't begin with a value begin with a table without its type tag: one of the length that
/// there is, or one whose first value has a type tag, as far as it is there.
pub fn begins_table(bytes: &[u8]) -> bool {
    let [0, b, c, d, body @ ..] = bytes else {
        return false;
    };
    let len = u32::from_be_bytes([0, *b, *c, *d]) as usize;
    let value = match body {
        [count, after @ ..] => after.get(usize::from(*count)..).unwrap_or(&[]),
        [] => &[],
    };
    len == body.len()
        || (len > 0 && type_of(value).is_some())
        || (len > body.len() && value.is_empty())
}

// Whether all of the bytes are the pairs of a table.
fn is_body(alloc: Global, bytes: &[u8], settings: Settings) -> Result<bool, AllocError> {
    let len = bytes.len();
    if len == 0 || len.saturating_add(5) > settings.limits.frame as usize {
        return Ok(false);
    }
    let mut table = Vec::new(alloc);
    table.extend_from_slice(before(len).get(1..).unwrap_or(&[]))?;
    table.extend_from_slice(bytes)?;
    let read = read_table_in_place(table.as_slice(), settings.limits);
    Ok(matches!(read, Ok((_, rest)) if rest.is_empty()))
}
