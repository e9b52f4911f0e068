//! `word_of` answers `wire`, `wire_as` and `wire_sizes`, for `parse`: what `gen_value` writes for a
//! value that `parse_value` read.
//!
//! Each value is written to a vector and to a slice as long as the bytes that it was read from, and is read back.

use super::words::{WIDE, digits, plain};
use super::{Answer, Trouble};
use amq_protocol_types::AMQPValue;
use amq_protocol_types::generation::{SliceOutput, WriteContext, gen_value};
use amq_protocol_types::parsing::{SliceInput, parse_value};
use amqp_in_place::{Measure, measure_value};
use std::alloc::Global;

/// The word of `wire`, `wire_as` or `wire_sizes` for a value that was read from `taken` bytes.
pub fn word_of(
    alloc: Global,
    call: &str,
    value: &AMQPValue,
    taken: usize,
    wanted: &[u8],
) -> Answer {
    let mut x = WriteContext::from(Vec::new(alloc));
    if let Err(error) = gen_value(value, &mut x) {
        return Ok(format!(in alloc; "not written: {error:?}")?);
    }
    let bytes = x.into_inner().0;
    let bytes = bytes.as_slice();
    if !is_written(alloc, value, taken, bytes)? {
        return Ok(format!(in alloc; "not written in {taken} bytes")?);
    }
    if !is_read(alloc, value, bytes) {
        return plain(alloc, "not read back");
    }
    match call {
        "wire_sizes" => sizes(alloc, taken, bytes),
        "wire_as" if bytes == wanted => plain(alloc, "same"),
        _ => digits(alloc, bytes),
    }
}

/// How many values are written in a value, itself counted, how deep containers nest, and the bytes.
fn sizes(alloc: Global, taken: usize, written: &[u8]) -> Answer {
    match measure_value(written, WIDE) {
        Ok(
            Measure {
                bytes,
                values,
                levels,
            },
        ) => { Ok(format!(in alloc; "count {values} depth {levels} of {taken} bytes in {bytes}")?) }
        Err(_) => plain(alloc, "not measured"),
    }
}

/// Whether a value is written as these bytes into a slice of this length.
fn is_written(
    alloc: Global,
    value: &AMQPValue,
    room: usize,
    bytes: &[u8],
) -> Result<bool, Trouble> {
    let mut slice = vec![in alloc; 0_u8; room]?;
    let mut x = WriteContext::from(SliceOutput::new(slice.as_mut_slice()));
    let is_ok = gen_value(value, &mut x).is_ok();
    Ok(is_ok && x.into_inner().0.written() == bytes)
}

/// Whether bytes are read as a value, with nothing left.
fn is_read(alloc: Global, value: &AMQPValue, bytes: &[u8]) -> bool {
    match parse_value(alloc, SliceInput::new(bytes)) {
        Ok((rest, read)) => rest.as_slice().is_empty() && read == *value,
        Err(_) => false,
    }
}
