//! `read`, `peek`, `measure` and `is_canonical`: the entry of the value at the start of an input,
//! its `Size` (`amqpv_size`), and whether it is encoded canonically.

ghost use Rattle.std.specs.Prelude.{◌≡◌, true, false, None, Some, Ok, IfOk, MatchBool, MatchOption, MatchResult};
ghost use Rattle.amqp_value_core.specs.Outcomes.{Outcome};
ghost use Rattle.amq_protocol_types.specs.parsing.Untagged.{tagged};
ghost use Rattle.amqp_in_place.specs.declared.problems.Rules.TheVariants.{Reading};
ghost use Rattle.amqp_in_place.specs.ProblemResults.{FindsValue};
ghost use Rattle.amqp_c.specs.Inputs.{limits, encoding, read_error};
ghost use Rattle.amqp_c.specs.Entries.{HeaderFaults};
ghost use Rattle.amqp_c.specs.Reads.{IsPrefixedTable, IsEntryOf, IsReadEntry, FailsByGrammar, HasProblemInside, same_measure, IsMeasured, IsEncodedSo, IsTold};

use crate::entry::{Entry, first};
use crate::problem::ReadError;
use crate::{Fault, Input, Span};
use amq_protocol_types::parsing::parse_length_prefixed;
use amqp_in_place::{
    Measure, Rules, canonical_len, canonical_table_len, measure_table, measure_value,
};
use amqp_value_core::input::{ParsableInput, SliceInput};
use amqp_value_core::types::AMQPType;

/// Reads the value within the limits by the rules: its entry by its type tag and its length, and then checks all of it.
pub fn read(input: &Input<'_>, rules: Rules) -> Result<Entry, ReadError>
    ensures error { MatchResult result
        (λ entry. read_error rules input.now ≡ None)
        (λ error. read_error rules input.now ≡ Some error) }
    ensures entry { IfOk result (IsEntryOf input.now) }
    ensures value { rules ≡ Reading → IfOk result (IsReadEntry input.now) }
    ensures grammar { rules ≡ Reading → FailsByGrammar input.now }
    ensures inside { HasProblemInside rules input.now }
{
    let peeked = peek(input);
    if let Some(error) = input.read_error(rules) {
        return Err(error);
    }
    match peeked {
        Ok(entry) => Ok(entry),
        Err(_fault) => unreachable!(),
    }
}

// The tactic names what is given of a table without its type tag, and of any other value.
/// The entry of the value, by its type tag and its length only. What is inside a container isn't looked at.
#[inline(always)]
#[tactic(auto, using(crate::proofs::Reading::table_peeked, crate::proofs::Reading::value_peeked))]
pub fn peek(input: &Input<'_>) -> Result<Entry, Fault>
    ensures { MatchResult result
        (IsEntryOf input.now)
        (HeaderFaults (Outcome (encoding input.now))) }
{
    if input.is_untagged() {
        first_table(input.bytes)
    } else {
        first(input.bytes)
    }
}

/// The entry of the table without its type tag, by its length only.
fn first_table(bytes: &[u8]) -> Result<Entry, Fault>
    ensures { MatchResult result
        (IsPrefixedTable bytes.now)
        (HeaderFaults (Outcome (tagged AMQPType.FieldTable bytes.now))) }
{
    let (rest, body) = parse_length_prefixed(SliceInput::new(bytes))?;
    Ok(Entry {
        key: Span::NONE,
        value: Span {
            offset: 0,
            length: bytes.len() - rest.input_len(),
        },
        content: Span {
            offset: 4,
            length: body.input_len(),
        },
        bits: 0,
        tag: b'F',
        scale: 0,
    })
}

/// The size of a value: `amqpv_size`.
#[repr(C)]
#[derive(Clone, Copy)]
pub struct Size {
    /// The length of the encoding, of the bytes that were passed.
    pub bytes: usize,
    /// The number of values: itself and every value inside, duplicate keys included.
    pub values: usize,
    /// How deep containers nest: 0 for a scalar.
    pub levels: usize,
}

impl Size {
    /// The measure in C's struct.
    fn of(measure: Measure) -> Size
        ensures { result ≡ same_measure measure }
    {
        Size {
            bytes: measure.bytes,
            values: measure.values,
            levels: measure.levels,
        }
    }
}

/// Measures the value, which is read within the limits.
pub fn measure(input: &Input<'_>) -> Result<Size, ReadError>
    ensures { MatchResult result
        (λ size. (read_error Reading input.now ≡ None) × IsMeasured input.now size)
        (λ error. read_error Reading input.now ≡ Some error) }
{
    if let Some(measure) = measured(input) {
        return Ok(Size::of(measure));
    }
    match input.read_error(Rules::Reading) {
        Some(error) => Err(error),
        None => unreachable!(),
    }
}

/// The measure of the value, if it is read.
fn measured(input: &Input<'_>) -> Option<Measure>
    ensures { MatchOption result
        (FindsValue (limits input.now) (encoding input.now) → ⊥)
        (λ measure. (read_error Reading input.now ≡ None)
        × IsMeasured input.now (same_measure measure)) }
{
    if input.is_untagged() {
        return match measure_table(input.bytes(), input.limits()) {
            Ok(measure) => Some(measure),
            Err(_refused) => None,
        };
    }
    match measure_value(input.bytes(), input.limits()) {
        Ok(measure) => Some(measure),
        Err(_refused) => None,
    }
}

/// Whether the value, which is read within the limits, is encoded canonically: in one pass if it is, otherwise in at
/// most two.
pub fn is_canonical(input: &Input<'_>) -> Result<bool, Fault>
    ensures { IsTold input.now result }
{
    if has_canonical(input) {
        return Ok(true);
    }
    match input.read_error(Rules::Reading) {
        Some(error) => Err(error.fault),
        None => Ok(false),
    }
}

/// Whether the canonical encoding of a value within the limits is at the start.
fn has_canonical(input: &Input<'_>) -> bool
    ensures { MatchBool result
        (IsTold input.now (Ok true))
        (FindsValue (limits input.now) (encoding input.now) → IsEncodedSo false input.now) }
{
    if input.is_untagged() {
        return canonical_table_len(input.bytes(), input.limits()).is_some();
    }
    canonical_len(input.bytes(), input.limits()).is_some()
}
