//! The headers of a message that was dead-lettered: an array of tables under the key `x-death`.

use amq_protocol_types::parsing::SliceInput;
use amq_protocol_types::stream::{Limits, parse_field_table_within};
use amq_protocol_types::{Error, FieldTable};
use anyhow::Result;
use std::alloc::Global;

/// Headers as RabbitMQ sends them, a table without its type tag: `retry`, which is true, and
/// `x-death` with one entry.
pub(crate) const HEADERS: &[u8] = b"\0\0\0\x5a\x05retryt\x01\x07x-deathA\0\0\0\x45F\0\0\0\x40\
    \x05countl\0\0\0\0\0\0\0\x03\x08exchangeS\0\0\0\0\x05queueS\0\0\0\x04work\
    \x06reasonS\0\0\0\x08rejected";

/// Limits for headers, which anyone may have sent.
pub(crate) const LIMITS: Limits = Limits {
    frame: 1_048_576,
    depth: 32,
};

/// How often the message was dead-lettered for the first reason that is named.
fn deaths(headers: &FieldTable) -> Option<i64> {
    let entries = headers.get("x-death")?.as_array()?;
    let first = entries.as_slice().first()?.as_field_table()?;
    first.get("count")?.as_long_long_int()
}

/// How often that was, by the headers of a message.
fn read_deaths(alloc: Global) -> Result<Option<i64>, Error> {
    let (_rest, headers) = parse_field_table_within(alloc, SliceInput::new(HEADERS), LIMITS)?;
    Ok(deaths(&headers))
}

/// Prints what is under `x-death`.
pub fn run<P: Print>(rt: &P, alloc: Global) -> Result<()> {
    match read_deaths(alloc)? {
        Some(count) => println!(rt; "headers: dead-lettered {count} times")?,
        None => println!(rt; "headers: never dead-lettered")?,
    }
    Ok(())
}
