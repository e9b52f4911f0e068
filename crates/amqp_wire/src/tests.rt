//! `run_program`: runs lines or a stream, for `rows`, which tests what is written, and for
//! `faults`, where readers and writers fail.

mod faults;
mod rows;

use crate::fault::WireFault;
use crate::run::{run, run_split, run_within};
use crate::stream::run_stream;
use Program::{Lines, Split, Stream, Within};
use amq_protocol_types::stream::Limits;
use std::alloc::Global;
use std::io::{Read, Write};
use std::process::Abort;

/// What is run.
#[derive(Clone, Copy)]
enum Program {
    Lines,
    /// Lines whose bytes are cut after that many.
    Split(usize),
    /// Lines within the limits `frame` and `depth`.
    Within(u32, u32),
    /// A stream within those, of that many values at most.
    Stream(u32, u32, usize),
}

// Runs it.
fn run_program<R: Read, W: Write>(
    rt: &impl Abort,
    alloc: Global,
    program: Program,
    reader: &mut R,
    writer: &mut W,
) -> Result<(), WireFault> {
    match program {
        Lines => run(alloc, reader, writer),
        Split(at) => run_split(alloc, reader, writer, at),
        Within(frame, depth) => run_within(alloc, reader, writer, Limits { frame, depth }),
        Stream(frame, depth, most) => {
            assert!(rt; 0 < frame);
            run_stream(alloc, reader, writer, Limits { frame, depth }, most)
        }
    }
}
