//! A message's headers looked up in place: nothing is copied, and nothing is allocated.

use crate::headers::{HEADERS, LIMITS};
use amq_protocol_types::parsing::ParserError;
use amqp_in_place::{EqualKeys, Limits, PathStep, read_in_place, read_table_in_place};
use anyhow::Result;

/// How often a message was dead-lettered, by its headers' bytes, which anyone may have sent.
fn deaths(headers: &[u8]) -> Result<Option<i64>, ParserError> {
    let limits = Limits {
        frame: 1_048_576,
        depth: 32,
    };
    let (headers, _rest) = read_table_in_place(headers, limits)?;
    let path = [
        PathStep::Key("x-death"),
        PathStep::Index(0),
        PathStep::Key("count"),
    ];
    let count = headers.get_path(&path, EqualKeys::First);
    Ok(count.and_then(|value| value.as_long_long_int()))
}

/// Prints how often, whether the message is to be tried again, and whether its headers can be
/// compared by their bytes: they are in their canonical encoding. Prints a value with its type tag
/// too.
pub fn run<P: Print>(rt: &P) -> Result<()> {
    if let Some(count) = deaths(HEADERS)? {
        println!(rt; "in place: dead-lettered {count} times")?;
    }
    let (headers, _rest) = read_table_in_place(HEADERS, LIMITS)?;
    let retry = headers.get("retry").and_then(|value| value.as_bool());
    println!(rt; "in place: retry is {retry:?}")?;
    let canonical = amqp_in_place::is_canonical_table(HEADERS, LIMITS);
    println!(rt; "in place: in canonical encoding: {canonical}")?;
    let (value, _rest) = read_in_place(b"I\0\0\x27\x10", LIMITS)?;
    println!(rt; "in place: {} {:?}", value.get_type(), value.as_long_int())?;
    Ok(())
}
