//! The arguments of a queue: made, written, and read again.

use amq_protocol_types::generation::to_vec;
use amq_protocol_types::parsing::{SliceInput, parse_value};
use amq_protocol_types::{AMQPValue, Error, FieldTable};
use anyhow::Result;
use std::alloc::Global;

/// The bytes of a queue's arguments as hexadecimal, how many there are, and whether they are read
/// again as the same value.
fn there_and_back(alloc: Global) -> Result<(String, usize, bool), Error> {
    let entries = [("x-max-length", AMQPValue::LongInt(10_000))];
    let arguments = FieldTable::from_entries(alloc, entries)?;
    let value = AMQPValue::FieldTable(arguments);

    let bytes = to_vec(alloc, &value)?;
    let length = bytes.len();

    let (rest, read) = parse_value(alloc, SliceInput::new(bytes.as_slice()))?;
    let is_same = read == value && rest.as_slice().is_empty();
    Ok((hex::encode(alloc, bytes.as_slice())?, length, is_same))
}

/// Prints the bytes of a queue's arguments.
pub fn run<P: Print>(rt: &P, alloc: Global) -> Result<()> {
    let (text, length, is_same) = there_and_back(alloc)?;
    println!(rt; "arguments: {length} bytes {text}, read again as the same value: {is_same}")?;
    Ok(())
}
