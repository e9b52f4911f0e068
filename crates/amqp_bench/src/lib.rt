//! The codec as a C library for benchmarks: bytes go in, and a number of bytes comes out.
//!
//! A call that can't return a number of bytes returns -1 if more bytes are needed, -2 if the bytes begin
//! with no value, -3 if an allocation failed, -4 if the canonical encoding of the value doesn't fit, and
//! -5 if a read failed. No call has a contract: each is proved to be safe and to return, and
//! `bench/right.py` and `tests/counts` check what it returns.
#![tactic(auto)]

mod pieces;

use amq_protocol_types::AMQPValue;
use amq_protocol_types::generation::{SliceOutput, WriteContext, gen_value};
use amq_protocol_types::parsing::traits::ParsableInput;
use amq_protocol_types::parsing::{Err, ParserError, SliceInput, parse_value};
use amq_protocol_types::stream::{Limits, StreamError, ValueReader, parse_value_within};
use amqp_in_place::{ValueRef, canonical_len, read_in_place_unlimited};
use pieces::Pieces;
use std::alloc::Global;

const INCOMPLETE: i64 = -1;

const REFUSED: i64 = -2;

const OUT_OF_MEMORY: i64 = -3;

const TOO_SMALL: i64 = -4;

const UNREAD: i64 = -5;

const WIDEST: Limits = Limits {
    frame: u32::MAX,
    depth: u32::MAX,
};

/// Reads a value from the start of `bytes` to a separate tree, drops it, and returns how many
/// bytes it took.
#[unsafe(no_mangle)]
pub extern "C" fn amqp_bench_decode(alloc: Global, bytes: &[u8]) -> i64 {
    match parse_value(alloc, SliceInput::new(bytes)) {
        Ok((rest, value)) => {
            drop(value);
            number(bytes.len().saturating_sub(rest.input_len()))
        }
        Err(error) => number_of(error),
    }
}

/// Reads a value from the start of `bytes` to a separate tree within the limits, drops it, and
/// returns how many bytes it took.
#[unsafe(no_mangle)]
pub extern "C" fn amqp_bench_decode_within(
    alloc: Global,
    bytes: &[u8],
    frame: u32,
    depth: u32,
) -> i64 {
    match parse_value_within(alloc, SliceInput::new(bytes), Limits { frame, depth }) {
        Ok((rest, value)) => {
            drop(value);
            number(bytes.len().saturating_sub(rest.input_len()))
        }
        Err(error) => number_of(error),
    }
}

/// Reads a value from the start of `bytes` to a separate tree, from a reader that yields at most
/// `piece` bytes in a read (one if that is 0), drops it, and returns how many bytes it took.
#[unsafe(no_mangle)]
pub extern "C" fn amqp_bench_stream(alloc: Global, bytes: &[u8], piece: usize) -> i64 {
    let mut values = ValueReader::new(alloc, Pieces::new(bytes, piece), WIDEST);
    let read = values.next();
    let left = values.into_inner().count();
    match read {
        Ok(Some(_)) => number(bytes.len().saturating_sub(left)),
        Ok(None) | Err(StreamError::Truncated) => INCOMPLETE,
        Err(StreamError::Refused(_)) => REFUSED,
        Err(StreamError::OutOfMemory) => OUT_OF_MEMORY,
        Err(StreamError::Read(_) | StreamError::Failed) => UNREAD,
    }
}

/// Returns how many bytes the canonical encoding at the start of `bytes` has, or -2 if there is none.
#[unsafe(no_mangle)]
pub extern "C" fn amqp_bench_canonical_len(bytes: &[u8]) -> i64 {
    match canonical_len(bytes, WIDEST) {
        Some(count) => number(count),
        None => REFUSED,
    }
}

/// Reads a value in place, and returns how many bytes it took.
#[unsafe(no_mangle)]
pub extern "C" fn amqp_bench_scan(bytes: &[u8]) -> i64 {
    match read_in_place_unlimited(bytes) {
        Ok((_, rest)) => number(bytes.len() - rest.len()),
        Err(error) => number_of(error),
    }
}

/// Reads a value in place, looks the key `-` up in it, and returns how many bytes it
/// took, or 0 if it is a table with a value at that key.
#[unsafe(no_mangle)]
pub extern "C" fn amqp_bench_find(bytes: &[u8]) -> i64 {
    match read_in_place_unlimited(bytes) {
        Ok((ValueRef::FieldTable(table), _)) if table.contains_key("-") => 0,
        Ok((_, rest)) => number(bytes.len() - rest.len()),
        Err(error) => number_of(error),
    }
}

/// Reads a value from the start of `bytes`, writes it from the start of `out`, and returns how many
/// bytes were written.
#[unsafe(no_mangle)]
pub extern "C" fn amqp_bench_roundtrip(alloc: Global, bytes: &[u8], out: &mut [u8]) -> i64 {
    amqp_bench_encode_n(alloc, bytes, out, 1)
}

/// Reads a value from the start of `bytes`, writes it `times` times from the start of `out`, and
/// returns how many bytes were written the last time, 0 if it is written zero times.
#[unsafe(no_mangle)]
pub extern "C" fn amqp_bench_encode_n(
    alloc: Global,
    bytes: &[u8],
    out: &mut [u8],
    times: u64,
) -> i64 {
    let value = match parse_value(alloc, SliceInput::new(bytes)) {
        Ok((_, value)) => value,
        Err(error) => return number_of(error),
    };
    let mut written = 0;
    for _ in 0..times {
        written = match write(&value, &mut *out) {
            Some(count) => count,
            None => return TOO_SMALL,
        };
    }
    number(written)
}

/// Writes a value from the start of `out`, and returns how many bytes were written, if it fits.
fn write(value: &AMQPValue, out: &mut [u8]) -> Option<usize> {
    let mut context = WriteContext::from(SliceOutput::new(out));
    gen_value(value, &mut context).ok()?;
    usize::try_from(context.position()).ok()
}

/// A number of bytes, as a call returns it.
fn number(count: usize) -> i64 {
    i64::try_from(count).unwrap_or(i64::MAX)
}

/// The number that a call returns for an error of reading.
fn number_of(error: ParserError) -> i64 {
    match error {
        Err::Incomplete(_) => INCOMPLETE,
        Err::Error(_) => REFUSED,
        Err::Failure(_) => OUT_OF_MEMORY,
    }
}
