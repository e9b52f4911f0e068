//! Reads a message's headers within limits, sets a header that counts retries, and writes them: the
//! proved caller in `crates/amq_protocol_types/CALLING.md`.

ghost use Rattle.std.specs.Prelude.{IfOk};
ghost use Rattle.examples.specs.Retries.{WritesRetries};

use crate::headers::{HEADERS, LIMITS};
use amq_protocol_types::generation::field_table_to_vec;
use amq_protocol_types::parsing::SliceInput;
use amq_protocol_types::stream::{Limits, parse_field_table_within};
use amq_protocol_types::{AMQPValue, Error, ShortString};
use amqp_value_core::laws::table_is_a_map;
use anyhow::Result;
use std::alloc::Global;

/// Returns the headers with this count of retries, as they are sent again.
fn with_retries(alloc: Global, headers: &[u8], count: u32, limits: Limits) -> Result<Vec<u8>, Error>
    ensures { IfOk result (λ written.
        WritesRetries limits headers.now count written.items) }
{
    table_is_a_map();
    let (_rest, mut table) = parse_field_table_within(alloc, SliceInput::new(headers), limits)?;
    let key = ShortString::try_copy(alloc, "x-retries")?;
    table.place(key, AMQPValue::LongUInt(count))?;
    Ok(field_table_to_vec(alloc, &table)?)
}

/// Prints headers with a count of retries.
pub fn run<P: Print>(rt: &P, alloc: Global) -> Result<()> {
    let written = with_retries(alloc, HEADERS, 1, LIMITS)?;
    println!(rt;
        "retries: {} bytes instead of {}",
        written.len(),
        HEADERS.len()
    )?;
    Ok(())
}
