//! Headers that are checked before they are published: RabbitMQ closes the connection for some, and
//! relays others that clients can't read.

use crate::headers::LIMITS;
use amqp_in_place::rabbitmq::{CLIENT_LEVELS, first_problem_in_table, warnings_in_table};
use anyhow::Result;
use std::alloc::Global;

/// RabbitMQ's usual frame-max, in bytes.
const FRAME_MAX: u32 = 131_072;
/// Headers of which one is a NaN.
const NOT_FINITE: &[u8] = b"\0\0\0\x07\x01af\x7f\xc0\0\0";
/// Headers of which one has an empty key.
const EMPTY_KEY: &[u8] = b"\0\0\0\x02\0V";

/// Prints the first problem that RabbitMQ has with the headers, or what others may not accept.
fn print_problem<P: Print>(rt: &P, alloc: Global, headers: &[u8]) -> Result<()> {
    if let Some(problem) = first_problem_in_table(headers, LIMITS) {
        println!(rt; "publishing: {:?} at byte {}", problem.kind, problem.offset)?;
        return Ok(());
    }
    let warned = warnings_in_table(alloc, headers, LIMITS, FRAME_MAX, CLIENT_LEVELS)?;
    println!(rt; "publishing: the first empty key: {:?}", warned.empty_key)?;
    Ok(())
}

/// Prints what is wrong with headers.
pub fn run<P: Print>(rt: &P, alloc: Global) -> Result<()> {
    print_problem(rt, alloc, NOT_FINITE)?;
    print_problem(rt, alloc, EMPTY_KEY)
}
