//! `parse_value_within`: bytes from an untrusted peer, which may be cut short or too large, read
//! within limits.

use crate::headers::LIMITS;
use amq_protocol_types::parsing::{Err, SliceInput};
use amq_protocol_types::stream::parse_value_within;
use anyhow::Result;
use std::alloc::Global;

/// An integer, the beginning of one, and an array that claims to have 4 GiB.
const RECEIVED: [&[u8]; 3] = [b"I\0\0\x27\x10", b"I\0\0", b"A\xff\xff\xff\xff"];

/// Prints the value at the start of the bytes, or why there is none.
fn print_value<P: Print>(rt: &P, alloc: Global, bytes: &[u8]) -> Result<()> {
    match parse_value_within(alloc, SliceInput::new(bytes), LIMITS) {
        Ok((_rest, value)) => println!(rt; "untrusted: {value:?}")?,
        // call again with more bytes
        Err(Err::Incomplete(needed)) => println!(rt; "untrusted: {needed}")?,
        // no bytes that follow make it a value
        Err(Err::Error(error)) => println!(rt; "untrusted: {error}")?,
        // an allocation failed
        Err(Err::Failure(error)) => Err(error)?,
    }
    Ok(())
}

/// Prints what is received.
pub fn run<P: Print>(rt: &P, alloc: Global) -> Result<()> {
    for bytes in RECEIVED {
        print_value(rt, alloc, bytes)?;
    }
    Ok(())
}
