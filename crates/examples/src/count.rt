//! A loop over `ValueReader` with a contract: counts the values of a stream.

ghost use Rattle.std.specs.Prelude.{◌<◌, IfOk};
ghost use Rattle.examples.specs.Counts.{CountsValues};

use crate::headers::LIMITS;
use amq_protocol_types::stream::laws::loop_over_values;
use amq_protocol_types::stream::{Limits, StreamError, ValueReader};
use anyhow::Result;
use std::alloc::Global;
use std::io::Read;

/// Counts the values of a stream, each within the limits, and stops after `most`.
fn count_values<R: Read + Drop>(
    alloc: Global,
    stream: R,
    limits: Limits,
    most: u64,
) -> Result<u64, StreamError>
    requires { 0 < limits.frame }
    ensures { IfOk result (CountsValues limits (R.remaining stream) most) }
{
    loop_over_values::<R>();
    let mut reader = ValueReader::new(alloc, stream, limits);
    'values: for count in 0..most {
        let Some(_value) = reader.next()? else {
            return Ok(count);
        };
    }
    Ok(most)
}

/// Prints how many values a stream has.
pub fn run<P: Print>(rt: &P, alloc: Global) -> Result<()> {
    let stream: &[u8] = b"VS\0\0\0\x04test";
    let count = count_values(alloc, stream, LIMITS, 10)?;
    println!(rt; "count: {count} values")?;
    Ok(())
}
