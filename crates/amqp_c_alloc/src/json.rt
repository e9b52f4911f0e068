//! `put_encoding`, for `amqpv_proved_from_json`: writes the canonical encoding of a JSON text's value.

ghost use Rattle.std.specs.Prelude.{◌≡◌, ◌≤◌, min, length, Err, IfErr, IfSome};
ghost use Rattle.amqp_json.specs.Meaning.{most_levels};
ghost use Rattle.amqp_c_alloc.specs.JsonCalls.{IsPutOrRejected, problem_or_old, json_fault, json_problem, rejected_at};

use crate::reason::{NO_REASON, mismatch_reason, syntax_reason};
use amqp_c::{Fault, Problem, put_at_start};
use amqp_json::{JsonError, encoding_of_json_within};
use std::alloc::Global;
use std::str;

/// The result of converting a JSON text to an encoding in a buffer.
#[derive(Clone, Copy)]
pub struct EncodingPut {
    /// How many bytes were written to the buffer, or why none were.
    pub done: Result<usize, Fault>,
    /// Where and why the text isn't the JSON of a value.
    pub problem: Option<Problem>,
}

/// Writes the canonical encoding of the value that a JSON text means to the start of `buffer`. At
/// most `nesting` arrays and objects may be open at once, and at most 127.
pub fn put_encoding(alloc: Global, text: &[u8], nesting: u32, buffer: &mut [u8]) -> EncodingPut
    ensures written { IsPutOrRejected (min nesting most_levels) text.now buffer.old buffer.new result.done result.problem }
    ensures kept { IfErr result.done (λ _. buffer.new ≡ buffer.old) }
    ensures inside { IfSome result.problem (λ problem. problem.offset ≤ length text.now) }
{
    let json = match str::from_utf8(text) {
        Ok(json) => json,
        Err(error) => return rejected(Fault::NotUtf8, error.valid_up_to(), NO_REASON),
    };
    match encoding_of_json_within(alloc, json, nesting) {
        Ok(bytes) => EncodingPut {
            done: put_at_start(&bytes, buffer),
            problem: None,
        },
        Err(error) => failure_of(error),
    }
}

/// Why a text has no encoding.
fn failure_of(error: JsonError) -> EncodingPut
    ensures done { result.done ≡ Err (json_fault error) }
    ensures problem { result.problem ≡ json_problem error }
{
    match error {
        JsonError::Syntax(at, why) => rejected(Fault::NotJson, at, syntax_reason(why)),
        JsonError::TooDeep(at) => rejected(Fault::TooDeep, at, NO_REASON),
        JsonError::NotAValue(at, why) => rejected(Fault::NotAValue, at, mismatch_reason(why)),
        JsonError::OutOfMemory => not_put(Fault::NoMemory),
        JsonError::TooLarge => not_put(Fault::NoEncoding),
    }
}

/// The text isn't the JSON of a value.
fn rejected(fault: Fault, offset: usize, reason: u8) -> EncodingPut
    ensures done { result.done ≡ Err fault }
    ensures problem { result.problem ≡ Some (rejected_at offset reason) }
{
    EncodingPut {
        done: Err(fault),
        problem: Some(Problem {
            offset,
            missing: 0,
            tag: 0,
            reason,
        }),
    }
}

/// Nothing is put, and nothing is said of the text.
fn not_put(fault: Fault) -> EncodingPut
    ensures done { result.done ≡ Err fault }
    ensures problem { result.problem ≡ None }
{
    EncodingPut {
        done: Err(fault),
        problem: None,
    }
}

/// Stores where and why the text isn't the JSON of a value, if it isn't.
pub fn store_problem(found: Option<Problem>, problem: &mut Problem)
    ensures { problem.new ≡ problem_or_old problem.old found }
{
    if let Some(found) = found {
        *problem = found;
    }
}
