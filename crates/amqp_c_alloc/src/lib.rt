//! The calls of the C API that allocate: the canonical encoding of a value, that of what a JSON text means, and what a
//! client or a stream queue may not accept in a value that RabbitMQ accepts.
//!
//! They allocate by C's `malloc`, `realloc` and `free` (the canonical encoding only if the value isn't encoded so
//! already), and free all of it. They keep no state, print nothing and never end the process.
//! `include/amqp_values.h` declares them, and says how much stack they use.
//!
//! Tests are in `tests/c`: `tests/c/test_by_model.py` compares each call with the reference
//! implementation, and `tests/c/memory.c` makes each allocation fail.
#![tactic(auto)]

ghost use Rattle.amqp_c_alloc.specs.CanonicalCalls.{WritesCanonical};
ghost use Rattle.amqp_c_alloc.specs.JsonCalls.{WritesEncoding};
ghost use Rattle.amqp_c_alloc.specs.WarningCalls.{GivesWarnings};

mod canonical;
mod json;
mod reason;
mod warnings;

use amqp_c::{Input, Problem, return_length};
use canonical::canonical;
use json::{put_encoding, store_problem};
use std::alloc::Global;
use warnings::{Warnings, find_warnings, store_warnings};

/// Writes the canonical encoding of the value at the start of the input to the start of `buffer`.
///
/// `length` becomes how many bytes were written, or the capacity that is needed, otherwise 0.
#[unsafe(no_mangle)]
pub extern "C" fn amqpv_canonical(
    alloc: Global,
    input: &Input<'_>,
    buffer: &mut [u8],
    length: &mut usize,
) -> i32
    ensures { WritesCanonical input.now buffer.old result buffer.new length.new }
{
    return_length(canonical(alloc, input, buffer), length)
}

/// Writes the canonical encoding of the value that a JSON text means to the start of `buffer`, or stores where and
/// why the text isn't the JSON of a value. A `nesting` of more than 127 counts as that. `length` is as for
/// `amqpv_canonical`.
#[unsafe(no_mangle)]
pub extern "C" fn amqpv_proved_from_json(
    alloc: Global,
    text: &[u8],
    nesting: u32,
    buffer: &mut [u8],
    length: &mut usize,
    problem: &mut Problem,
) -> i32
    ensures { WritesEncoding nesting text.now
        buffer.old problem.old result buffer.new length.new problem.new }
{
    let put = put_encoding(alloc, text, nesting, buffer);
    store_problem(put.problem, problem);
    return_length(put.done, length)
}

/// Looks for what a client or a stream queue may not accept in the value at the start of the input. A container is too
/// deep that nests deeper than `levels`, or than the limit of the input. A `frame_max` of 0 means that there is none.
/// What concerns stream queues only is a warning if a flag asks for it.
#[unsafe(no_mangle)]
pub extern "C" fn amqpv_warn(
    alloc: Global,
    input: &Input<'_>,
    frame_max: u32,
    levels: u32,
    warnings: &mut Warnings,
) -> i32
    ensures { GivesWarnings frame_max levels input.now warnings.old result warnings.new }
{
    store_warnings(
        input,
        find_warnings(alloc, input, frame_max, levels),
        warnings,
    )
}
