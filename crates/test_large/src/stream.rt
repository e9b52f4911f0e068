//! `ValueReader::next` and `Values::next_from`, with a long string and with a large array.

use super::inputs::{LIMITS, array_body, bytes, encoding};
use super::{Done, Unmade, done};
use amq_protocol_types::stream::{ValueReader, Values};
use std::alloc::Global;

/// Whether the call is done, with a long string and with an array of many values.
pub fn call(alloc: Global, name: &str) -> Done {
    if name != "ValueReader::next" && name != "Values::next_from" {
        return Err(Unmade::Unknown);
    }
    let string = encoding(alloc, b'S', bytes(alloc)?.as_slice())?;
    let array = encoding(alloc, b'A', array_body(alloc)?.as_slice())?;
    Ok(of(alloc, name, string.as_slice())? && of(alloc, name, array.as_slice())?)
}

fn of(alloc: Global, name: &str, bytes: &[u8]) -> Done {
    let mut reader = bytes;
    match name {
        "ValueReader::next" => done(ValueReader::new(alloc, reader, LIMITS).next()),
        _ => done(Values::new(alloc, LIMITS).next_from(&mut reader)),
    }
}
