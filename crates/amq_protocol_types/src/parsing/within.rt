//! [`parse_value_within`] and the same for arrays and tables: parsing within [`Limits`] on bytes
//! and nesting, which each call takes. Two other `Limits`, in `bindings/rust`, also count values.

ghost use Rattle.std.specs.Prelude.{suc, ◌≡◌, ◌-◌, ◌≤◌, length, MatchResult, IfOk};
ghost use Rattle.amqp_value_core.specs.Bytes.{IsBytes};
ghost use Rattle.amqp_value_core.specs.Outcomes.{found};
ghost use Rattle.amqp_value_core.specs.Values.{array, table};
ghost use Rattle.amqp_value_core.specs.View.{view};
ghost use Rattle.amqp_value_core.specs.Containers.{array_view, table_view};
ghost use Rattle.amq_protocol_types.specs.parsing.Limits.{Within, RefusesWithin, LawsWithin, IsReadWithin};
ghost use Rattle.amq_protocol_types.specs.parsing.Untagged.{tagged, UntaggedWithin, RefusesUntagged, IsPayloadWithin, ReadsPayloadsBack};

use super::errors::{ErrorKind, ParserResult, error_of_kind, lacks};
use super::header::{Header, counted_len, header_of};
use super::values::{array_within, table_within, value_within};
use amqp_value_core::input::ParsableInput;
use amqp_value_core::types::{AMQPType, FieldArray, FieldTable};
use amqp_value_core::value::AMQPValue;
use std::alloc::Global;

/// The limits on a value's length and nesting.
///
/// For bytes from untrusted peers `Limits { frame: 1_048_576, depth: 32 }` is suitable: RabbitMQ
/// sends frames above its usual `frame_max`, which is 131,072.
#[derive(Clone, Copy, Debug, PartialEq, Eq)]
pub struct Limits {
    /// The most bytes that a value's encoding may have, from its type tag to its end.
    pub frame: u32,
    /// How deep containers may nest in a value: 0 for none, 1 for containers of scalars and strings
    /// only. Each entry that is written counts, even if its key occurs again.
    pub depth: u32,
}

/// Parses a value as `parse_value` does, if it has at most `limits.frame` bytes and its containers
/// nest at most `limits.depth` deep.
///
/// A longer value is rejected with `TooLarge` as soon as its first bytes show it; tests see no
/// allocation then. One that nests deeper is rejected with `Eof`, like any other length-prefixed
/// field that isn't a value; each entry that is written counts, even if its key occurs again. By
/// measurements it uses stack for at most `limits.depth` levels; docs/PROMISES.md has what one
/// takes.
pub fn parse_value_within<I: ParsableInput>(
    alloc: Global,
    i: I,
    limits: Limits,
) -> ParserResult<I, AMQPValue>
    ensures within { MatchResult result
        (λ x. Within limits (I.bytes i) (found (view x.1) (I.bytes x.0)))
        (RefusesWithin limits (I.bytes i)) }
    ensures laws { LawsWithin limits (I.bytes i) }
    ensures value { IfOk result (λ x.
        IsReadWithin limits (length (I.bytes i) - length (I.bytes x.0)) (view x.1)) }
{
    read_within(alloc, i, limits)
}

// Reads a value once its header shows that it is complete, and within the limit `frame`.
#[tactic(auto, using(crate::proofs::Refusals::unknown_within, crate::proofs::MissingBytes::lacks_within))]
fn read_within<I: ParsableInput>(alloc: Global, i: I, limits: Limits) -> ParserResult<I, AMQPValue>
    ensures within { MatchResult result
        (λ x. Within limits (I.bytes i) (found (view x.1) (I.bytes x.0)))
        (RefusesWithin limits (I.bytes i)) }
    ensures bytes { IsBytes (I.bytes i) }
{
    match header_of(i, limits.frame) {
        Header::Unknown => Err(error_of_kind(ErrorKind::MapOpt)),
        Header::TooLarge => Err(error_of_kind(ErrorKind::TooLarge)),
        Header::Lacks(n) => Err(lacks(n)),
        Header::Whole => value_within(alloc, i, limits.depth as usize),
    }
}

/// Parses an array as `parse_field_array` does, within limits.
///
/// They count it as `parse_value_within` does with its type tag: `frame` includes that byte, and
/// `depth` the array itself. Errors and memory are as there.
pub fn parse_field_array_within<I: ParsableInput>(
    alloc: Global,
    i: I,
    limits: Limits,
) -> ParserResult<I, FieldArray>
    ensures within { MatchResult result
        (λ x. UntaggedWithin limits AMQPType.FieldArray (I.bytes i)
        (found (array (array_view x.1)) (I.bytes x.0)))
        (RefusesUntagged limits AMQPType.FieldArray (I.bytes i)) }
    ensures payload { IsPayloadWithin limits AMQPType.FieldArray (I.bytes i) }
    ensures read_back { ReadsPayloadsBack limits AMQPType.FieldArray }
    ensures laws { LawsWithin limits (tagged AMQPType.FieldArray (I.bytes i)) }
    ensures value { IfOk result (λ x.
        IsReadWithin limits (suc (length (I.bytes i)) - length (I.bytes x.0))
        (array (array_view x.1))) }
{
    read_array_within(alloc, i, limits)
}

// Reads an array once its length shows that it is within the limit `frame`.
fn read_array_within<I: ParsableInput>(
    alloc: Global,
    i: I,
    limits: Limits,
) -> ParserResult<I, FieldArray>
    ensures within { MatchResult result
        (λ x. UntaggedWithin limits AMQPType.FieldArray (I.bytes i)
        (found (array (array_view x.1)) (I.bytes x.0)))
        (RefusesUntagged limits AMQPType.FieldArray (I.bytes i)) }
    ensures bytes { IsBytes (I.bytes i) }
{
    if counted_len(i) >= limits.frame as usize {
        return Err(error_of_kind(ErrorKind::TooLarge));
    }
    array_within(alloc, i, limits.depth as usize)
}

/// Parses a table as `parse_field_table` does, within limits: for the tables of methods and content
/// headers from untrusted peers.
///
/// They count it as `parse_value_within` does with its type tag: `frame` includes that byte, and
/// `depth` the table itself. Errors and memory are as there.
pub fn parse_field_table_within<I: ParsableInput>(
    alloc: Global,
    i: I,
    limits: Limits,
) -> ParserResult<I, FieldTable>
    ensures within { MatchResult result
        (λ x. UntaggedWithin limits AMQPType.FieldTable (I.bytes i)
        (found (table (table_view x.1)) (I.bytes x.0)))
        (RefusesUntagged limits AMQPType.FieldTable (I.bytes i)) }
    ensures payload { IsPayloadWithin limits AMQPType.FieldTable (I.bytes i) }
    ensures read_back { ReadsPayloadsBack limits AMQPType.FieldTable }
    ensures laws { LawsWithin limits (tagged AMQPType.FieldTable (I.bytes i)) }
    ensures value { IfOk result (λ x.
        IsReadWithin limits (suc (length (I.bytes i)) - length (I.bytes x.0))
        (table (table_view x.1))) }
{
    read_table_within(alloc, i, limits)
}

// Reads a table once its length shows that it is within the limit `frame`.
fn read_table_within<I: ParsableInput>(
    alloc: Global,
    i: I,
    limits: Limits,
) -> ParserResult<I, FieldTable>
    ensures within { MatchResult result
        (λ x. UntaggedWithin limits AMQPType.FieldTable (I.bytes i)
        (found (table (table_view x.1)) (I.bytes x.0)))
        (RefusesUntagged limits AMQPType.FieldTable (I.bytes i)) }
    ensures bytes { IsBytes (I.bytes i) }
{
    if counted_len(i) >= limits.frame as usize {
        return Err(error_of_kind(ErrorKind::TooLarge));
    }
    table_within(alloc, i, limits.depth as usize)
}
