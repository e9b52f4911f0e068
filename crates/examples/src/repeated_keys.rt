//! A message's headers that are rejected if a key is repeated in them: RabbitMQ and clients take
//! different values of such a key.

use crate::headers::LIMITS;
use amqp_in_place::{TableRef, read_table_in_place};
use anyhow::{Result, bail};
use std::alloc::Global;

/// The headers of `amqp-publish -H "k: 1" -H "k: 2"`. RabbitMQ 4.0.5 delivers the first `k`, and its
/// headers exchanges route by the last.
const HEADERS: &[u8] = b"\0\0\0\x10\x01kS\0\0\0\x011\x01kS\0\0\0\x012";

/// The table of a message's headers, in which each key occurs once. What nests in it isn't checked.
fn unambiguous<'a>(alloc: Global, headers: &'a [u8]) -> Result<TableRef<'a>> {
    let (table, _rest) = read_table_in_place(headers, LIMITS)?;
    match table.repeated_key(alloc)? {
        Some(key) => bail!("rejected, the key {key:?} is repeated"),
        None => Ok(table),
    }
}

/// Prints whether the headers are rejected, and why.
pub fn run<P: Print>(rt: &P, alloc: Global) -> Result<()> {
    match unambiguous(alloc, HEADERS) {
        Ok(_) => println!(rt; "repeated keys: none")?,
        Err(error) => println!(rt; "repeated keys: {error}")?,
    }
    Ok(())
}
