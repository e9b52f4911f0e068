//! Requests to read in place: `CALL BYTES`, of `read_in_place`, `skip_value`, `canonical_len` and
//! their variants, of `json_of_encoding`, and of `warnings` and `warnings_in_table`. `lookups` has those on the value
//! that is read.
//!
//! Each is answered without limits. Then it is asked with each small limit: a frame of some bytes more than the input,
//! and then fewer, and a depth of a few levels, and then fewer. The answer names the limits at which it changes, as in
//! `ok [[]]; frame 9 error TooLarge; depth 1 error Eof`: with 8 bytes it is as with 9, and with no level as with one.

use super::parse::{error_text, with_rest};
use super::values::{Word, push_some};
use super::words::{WIDE, bytes_of, named, plain, shown};
use super::{Answer, Trouble, json};
use amqp_in_place::rabbitmq::{CLIENT_LEVELS, Warned, warnings, warnings_in_table};
use amqp_in_place::{
    Limits, canonical_len, canonical_table_len, is_canonical, is_canonical_table, read_in_place,
    read_in_place_unlimited, read_table_in_place, skip_value,
};
use std::alloc::{AllocError, Global};
use std::ops::Range;

/// Inputs from so many bytes on are asked with few limits.
const LONG: u32 = 1000;

/// What a call answers, without limits and with each small one.
pub fn answer(rt: &HostRuntime, alloc: Global, call: &str, words: &[&str]) -> Answer {
    let [word] = words else {
        return Err(Trouble::Unknown);
    };
    let bytes = bytes_of(alloc, *word)?;
    let bytes = bytes.as_slice();
    match call {
        "skip_value" => match call!(rt; skip_value(bytes)) {
            Ok(count) => shown(alloc, count),
            Err(error) => error_text(alloc, error),
        },
        "read_in_place_unlimited" => match call!(rt; read_in_place_unlimited(bytes)) {
            Ok((value, rest)) => copied(alloc, call!(rt; value.to_owned(alloc)), rest),
            Err(error) => error_text(alloc, error),
        },
        _ => by_limits(rt, alloc, call, bytes),
    }
}

/// What is answered without limits, and each smaller limit at which the answer changes.
fn by_limits(rt: &HostRuntime, alloc: Global, call: &str, bytes: &[u8]) -> Answer {
    let whole = within(rt, alloc, call, bytes, WIDE)?;
    let length = u32::try_from(bytes.len()).unwrap_or(u32::MAX);
    let (beyond, frames, depths) = if length < LONG { (9, 72, 9) } else { (1, 2, 1) };
    let end = length.saturating_add(beyond);
    let frames = end.saturating_sub(frames)..end;
    let frames = changes(rt, alloc, call, bytes, whole.as_str(), true, frames)?;
    let depths = changes(rt, alloc, call, bytes, whole.as_str(), false, 0..depths)?;
    Ok(format!(in alloc; "{whole}{frames}{depths}")?)
}

/// The frames or the depths, from the greatest on, at which the answer changes, each with the answer.
fn changes(
    rt: &HostRuntime,
    alloc: Global,
    call: &str,
    bytes: &[u8],
    whole: &str,
    is_frame: bool,
    range: Range<u32>,
) -> Answer {
    let mut text = String::new(alloc);
    let mut last = plain(alloc, whole)?;
    for n in range.rev() {
        let (name, limits) = if is_frame {
            ("frame", Limits { frame: n, ..WIDE })
        } else {
            ("depth", Limits { depth: n, ..WIDE })
        };
        let answer = within(rt, alloc, call, bytes, limits)?;
        if answer.as_str() != last.as_str() {
            write!(text, "; {name} {n} {answer}")?;
            last = answer;
        }
    }
    Ok(text)
}

/// What a call answers within limits.
fn within(rt: &HostRuntime, alloc: Global, call: &str, bytes: &[u8], limits: Limits) -> Answer {
    match call {
        "read_in_place" => match call!(rt; read_in_place(bytes, limits)) {
            Ok((value, rest)) => copied(alloc, call!(rt; value.to_owned(alloc)), rest),
            Err(error) => error_text(alloc, error),
        },
        "read_table_in_place" => match call!(rt; read_table_in_place(bytes, limits)) {
            Ok((table, rest)) => copied(alloc, call!(rt; table.to_owned(alloc)), rest),
            Err(error) => error_text(alloc, error),
        },
        "canonical_len" => {
            let len = call!(rt; canonical_len(bytes, limits));
            canonical(alloc, len, call!(rt; is_canonical(bytes, limits)))
        }
        "canonical_table_len" => {
            let len = call!(rt; canonical_table_len(bytes, limits));
            canonical(alloc, len, call!(rt; is_canonical_table(bytes, limits)))
        }
        "json_of_encoding" => json::of_encoding(rt, alloc, bytes, limits),
        "warnings" => warned(
            alloc,
            call!(rt; warnings(alloc, bytes, limits, 0, CLIENT_LEVELS)),
        ),
        "warnings_in_table" => warned(
            alloc,
            call!(rt; warnings_in_table(alloc, bytes, limits, 0, CLIENT_LEVELS)),
        ),
        _ => Err(Trouble::Unknown),
    }
}

/// The copy of a value in place, and the bytes after it.
fn copied<T: Word + Drop>(alloc: Global, copy: Result<T, AllocError>, rest: &[u8]) -> Answer {
    match copy {
        Ok(copy) => with_rest(alloc, copy.word(alloc)?, rest),
        Err(error) => named(alloc, error),
    }
}

fn canonical(alloc: Global, len: Option<usize>, is_whole: bool) -> Answer {
    Ok(format!(in alloc; "{len:?} {is_whole}")?)
}

/// The offsets that a call warns of, each after what is there.
fn warned(alloc: Global, returned: Result<Warned, AllocError>) -> Answer {
    let it = match returned {
        Ok(it) => it,
        Err(error) => return named(alloc, error),
    };
    let mut text = plain(alloc, "warned")?;
    push_some(&mut text, "repeated_key", it.repeated_key)?;
    push_some(&mut text, "key_not_utf8", it.key_not_utf8)?;
    push_some(&mut text, "empty_key", it.empty_key)?;
    push_some(&mut text, "too_deep", it.too_deep)?;
    push_some(&mut text, "decimal", it.decimal)?;
    push_some(&mut text, "nested_header", it.nested_header)?;
    Ok(text)
}
