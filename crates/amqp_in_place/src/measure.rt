//! `measure_value` and `measure_table`: how many bytes, values and levels of nesting an encoded
//! value has, counted in place.

ghost use Rattle.std.specs.Prelude.{ℕ, List, ◌≡◌, ◌+◌, ◌^◌, ◌<◌, ◌≤◌, max, drop, length, MatchResult, IfErr, IfOk};
ghost use Rattle.amqp_value_core.specs.Values.{Tree, count, depth};
ghost use Rattle.amqp_value_core.specs.Outcomes.{found};
ghost use Rattle.amqp_value_core.specs.Bytes.{slice_bytes};
ghost use Rattle.amq_protocol_types.specs.parsing.Limits.{Within, RefusesWithin};
ghost use Rattle.amq_protocol_types.specs.parsing.Untagged.{tagged, UntaggedWithin, RefusesUntagged};
ghost use Rattle.amqp_in_place.specs.Bodies.{HasValues, HasPairs};
ghost use Rattle.amqp_in_place.specs.InPlaceResults.{NeedsNoMemory};
ghost use Rattle.amqp_in_place.specs.Lookups.{content};
ghost use Rattle.amqp_in_place.specs.Places.{IsViewIn};
ghost use Rattle.amqp_in_place.specs.Written.{written, OfEncoding, HoldsValue, HoldsValues, HoldsPairs};

use super::read::{read_in_place, read_table_in_place};
use super::refs::ValueRef;
use super::steps::{next_pair, next_value};
use amq_protocol_types::parsing::{Limits, ParserError};
use amqp_value_core::input::SliceInput;
use amqp_value_core::types::AMQPType;

/// How large a value is, by its encoding.
#[derive(Clone, Copy, Debug, PartialEq, Eq)]
pub struct Measure {
    /// The length of the encoding in bytes.
    pub bytes: usize,
    /// How many values are written in it, itself and containers included. Of a table each written
    /// pair's value counts, even if its key occurs again.
    pub values: usize,
    /// How many levels containers nest: 0 for none, 1 for containers of scalars and strings only.
    pub levels: usize,
}

/// Measures the value at the start of the bytes, before it is parsed: with the errors of
/// `read_in_place`, and without allocating. It reads the value in place, and then counts what is in
/// the view.
///
/// Limits on length and depth bound the memory of its tree loosely: 131 kB of small values become
/// megabytes. The number of values, with the length, bounds it closely, so a caller may reject too
/// many before it parses. It recurses at most `limits.depth` levels deep, as `read_in_place` does.
pub fn measure_value(bytes: &[u8], limits: Limits) -> Result<Measure, ParserError>
    ensures within { MatchResult result
        (λ m. (v : Tree) × Within limits bytes.now (found v (drop m.bytes bytes.now)))
        (RefusesWithin limits bytes.now) }
    ensures no_memory { IfErr result NeedsNoMemory }
    ensures bytes { IfOk result (λ m. (m.bytes ≤ length bytes.now)
        × OfEncoding bytes.now (λ w v p. m.bytes ≡ length w)) }
    ensures values { IfOk result (λ m. OfEncoding bytes.now (λ w v p. m.values ≡ count (written w v p))) }
    ensures levels { IfOk result (λ m. OfEncoding bytes.now (λ w v p. m.levels ≡ depth (written w v p))) }
    ensures tree { IfOk result (λ m.
        OfEncoding bytes.now (λ w v p. (count v ≤ m.values) × (depth v ≤ m.levels))) }
{
    let (value, rest) = read_in_place(bytes, limits)?;
    Ok(measure_of(value, bytes.len() - rest.len()))
}

/// Measures the table at the start of the bytes as `measure_value` does, without its type tag: its
/// length, then its pairs.
///
/// The limits count the type tag as if it were there, and `bytes` of the result doesn't.
pub fn measure_table(bytes: &[u8], limits: Limits) -> Result<Measure, ParserError>
    ensures within { MatchResult result
        (λ m. (v : Tree)
        × UntaggedWithin limits AMQPType.FieldTable bytes.now (found v (drop m.bytes bytes.now)))
        (RefusesUntagged limits AMQPType.FieldTable bytes.now) }
    ensures no_memory { IfErr result NeedsNoMemory }
    ensures bytes { IfOk result (λ m. (m.bytes ≤ length bytes.now)
        × OfEncoding (tagged AMQPType.FieldTable bytes.now) (λ w v p. 1 + m.bytes ≡ length w)) }
    ensures values { IfOk result (λ m.
        OfEncoding (tagged AMQPType.FieldTable bytes.now) (λ w v p. m.values ≡ count (written w v p))) }
    ensures levels { IfOk result (λ m.
        OfEncoding (tagged AMQPType.FieldTable bytes.now) (λ w v p. m.levels ≡ depth (written w v p))) }
    ensures tree { IfOk result (λ m. OfEncoding (tagged AMQPType.FieldTable bytes.now)
        (λ w v p. (count v ≤ m.values) × (depth v ≤ m.levels))) }
{
    let (table, rest) = read_table_in_place(bytes, limits)?;
    let value = ValueRef::FieldTable(table);
    Ok(measure_of(value, bytes.len() - rest.len()))
}

// The measure of a value, if that many bytes are there of it. Its values and levels are those of each
// encoding that the value is a view of: of a bare table, that with its type tag.
fn measure_of<'a>(value: ValueRef<'a>, bytes: usize) -> Measure
    requires { length (content value) < 2 ^ 32 }
    ensures bytes { result.bytes ≡ bytes }
    ensures values { (s rest : List ℕ) → IsViewIn s value.entry rest
        → OfEncoding s (λ w v p. result.values ≡ count (written w v p)) }
    ensures levels { (s rest : List ℕ) → IsViewIn s value.entry rest
        → OfEncoding s (λ w v p. result.levels ≡ depth (written w v p)) }
    ensures tree { (s rest : List ℕ) → IsViewIn s value.entry rest
        → OfEncoding s (λ w v p. (count v ≤ result.values) × (depth v ≤ result.levels)) }
{
    let held = counts_of_value(value);
    Measure {
        bytes,
        values: held.values,
        levels: held.levels,
    }
}

// How many values a part of an encoding holds, and how many levels containers nest in it.
#[derive(Clone, Copy)]
struct Held {
    values: usize,
    levels: usize,
}

impl Held {
    // What two parts of a body hold together: as many values as both, and as many levels as the
    // deeper one.
    fn and(self, others: Held) -> Held
        requires { self.values + others.values < 2 ^ 64 }
        ensures values { result.values ≡ self.values + others.values }
        ensures levels { result.levels ≡ max self.levels others.levels }
    {
        Held {
            values: self.values + others.values,
            levels: self.levels.max(others.levels),
        }
    }

    // What a container holds whose body holds these.
    fn with_container(self) -> Held
        requires { (self.values < 2 ^ 32) × (self.levels < 2 ^ 32) }
        ensures values { result.values ≡ 1 + self.values }
        ensures levels { result.levels ≡ 1 + self.levels }
    {
        Held {
            values: 1 + self.values,
            levels: 1 + self.levels,
        }
    }
}

// What a value holds: itself, and if it is a container, what its body holds.
#[cycle(measurer)]
fn counts_of_value<'a>(value: ValueRef<'a>) -> Held
    requires { length (content value) < 2 ^ 32 }
    ensures { HoldsValue value.entry result.values result.levels }
{
    match value {
        ValueRef::FieldArray(array) => counts_of_values(array.body()).with_container(),
        ValueRef::FieldTable(table) => counts_of_pairs(table.body()).with_container(),
        _ => Held {
            values: 1,
            levels: 0,
        },
    }
}

// What an array's body holds.
#[cycle(measurer)]
fn counts_of_values<'a>(body: SliceInput<'a>) -> Held
    requires { ∥ HasValues (slice_bytes body) ∥₁ × (length (slice_bytes body) < 2 ^ 32) }
    ensures { HoldsValues (slice_bytes body.entry) result.values result.levels }
{
    let mut held = Held {
        values: 0,
        levels: 0,
    };
    let mut rest = body;
    'values: while let Some((value, after)) = next_value(rest) {
        held = held.and(counts_of_value(value));
        rest = after;
    }
    held
}

// What a table's body holds: of each pair its value.
#[cycle(measurer)]
fn counts_of_pairs<'a>(body: SliceInput<'a>) -> Held
    requires { ∥ HasPairs (slice_bytes body) ∥₁ × (length (slice_bytes body) < 2 ^ 32) }
    ensures { HoldsPairs (slice_bytes body.entry) result.values result.levels }
{
    let mut held = Held {
        values: 0,
        levels: 0,
    };
    let mut rest = body;
    'pairs: while let Some((_, value, after)) = next_pair(rest) {
        held = held.and(counts_of_value(value));
        rest = after;
    }
    held
}
