//! Values as JSON texts, and a JSON number as a value of a type.

use amq_protocol_types::{AMQPType, AMQPValue};
use amqp_json::{from_json, to_json};
use anyhow::Result;
use serde_json::Value;
use std::alloc::Global;

/// A queue's arguments. A type that plain JSON doesn't have is an object with its name.
const ARGUMENTS: &str = "{\"x-queue-type\": \"quorum\", \"x-max-length\": {\"$LongInt\": 10000}}";

/// Prints the JSON of a value that a JSON text means, and what a JSON number is as a value of a
/// type.
pub fn run<P: Print>(rt: &P, alloc: Global) -> Result<()> {
    let arguments = from_json(alloc, ARGUMENTS)?;
    println!(rt; "json: {}", to_json(alloc, &arguments)?)?;

    let number = Value::from_str(alloc, "60000")?;
    match AMQPValue::try_from(alloc, &number, AMQPType::ShortUInt)? {
        Some(value) => println!(rt; "json: 60000 is {value:?}")?,
        None => println!(rt; "json: 60000 is no ShortUInt")?,
    }
    match AMQPValue::try_from(alloc, &number, AMQPType::ShortInt)? {
        Some(value) => println!(rt; "json: 60000 is {value:?}")?,
        None => println!(rt; "json: 60000 is no ShortInt")?,
    }
    Ok(())
}
