//! `ValueReader`: reads the values of a stream one after another, within limits, and prints them as
//! JSON.

use amq_protocol_types::stream::{Limits, StreamError, ValueReader};
use amqp_json::to_json;
use anyhow::Result;
use std::alloc::Global;
use std::io::{ErrorKind, Read};

/// Void, a long string, and the beginning of one that is longer than the limit.
const STREAM: &[u8] = b"VS\0\0\0\x04testS\0\x10\0\0";

/// Prints each value that a reader of values yields, as JSON, and at last why there are no more.
pub fn print_values<P: Print, R: Read + Drop>(
    rt: &P,
    alloc: Global,
    mut values: ValueReader<R>,
) -> Result<()> {
    for _ in 0..u64::MAX {
        match values.next() {
            Ok(Some(value)) => println!(rt; "stream: {}", to_json(alloc, &value)?)?,
            Ok(None) => {
                println!(rt; "stream: ended after a value")?;
                break;
            }
            // nothing that came is lost: ask again
            Err(StreamError::Read(ErrorKind::Interrupted)) => {}
            // nor is it here, once the reader works or there is memory again
            Err(error @ (StreamError::Read(_) | StreamError::OutOfMemory)) => Err(error)?,
            // the stream ended inside a value, or what came is rejected
            Err(error) => {
                println!(rt; "stream: {error}")?;
                break;
            }
        }
    }
    Ok(())
}

/// Prints the values of a stream.
pub fn run<P: Print>(rt: &P, alloc: Global) -> Result<()> {
    let limits = Limits {
        frame: 1_048_576,
        depth: 32,
    };
    print_values(rt, alloc, ValueReader::new(alloc, STREAM, limits))
}
