//! What a client does with the codec: a queue's arguments, a message's headers, values from peers,
//! and values as JSON. Prints each result, as in `stdout`. With the word `stream` it prints the
//! values of standard input instead, of any size; `tests/wire` runs it so on devices that fail, and
//! `tests/memory` with too little memory.
#![tactic(auto)]

mod arguments;
mod count;
mod headers;
mod in_place;
mod json;
mod publishing;
mod repeated_keys;
mod retries;
mod stream;
mod untrusted;

use amq_protocol_types::stream::{Limits, ValueReader};
use anyhow::Result;
use std::alloc::Global;
use std::env;

/// For values of any size.
const ANY_SIZE: Limits = Limits {
    frame: u32::MAX,
    depth: 32,
};

fn main(rt: HostRuntime) -> Result<()> {
    let alloc = rt.alloc();
    let words: Vec<String> = env::args(&rt)?.collect(alloc)?;
    match words.get(1) {
        Some(word) if word.as_str() == "stream" => {
            let values = ValueReader::new(alloc, rt.stdin(), ANY_SIZE);
            stream::print_values(&rt, alloc, values)
        }
        _ => print_all(&rt, alloc),
    }
}

/// Runs each example.
fn print_all<P: Print>(rt: &P, alloc: Global) -> Result<()> {
    arguments::run(rt, alloc)?;
    headers::run(rt, alloc)?;
    retries::run(rt, alloc)?;
    in_place::run(rt)?;
    repeated_keys::run(rt, alloc)?;
    publishing::run(rt, alloc)?;
    untrusted::run(rt, alloc)?;
    stream::run(rt, alloc)?;
    count::run(rt, alloc)?;
    json::run(rt, alloc)
}
