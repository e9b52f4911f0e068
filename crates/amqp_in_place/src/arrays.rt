//! `ArrayRef`, an array in place: `get` by position, `is_empty`, `as_bytes`, and `to_owned`, which
//! copies it to a `FieldArray`. Its `iter` is in `iter.rt`.

ghost use Rattle.std.specs.Prelude.{◌≡◌, ◌<◌, ◌↔◌, IsTrue, IfSome, length, MatchResult};
ghost use Rattle.amqp_value_core.specs.Values.{Trees, no_trees};
ghost use Rattle.amqp_value_core.specs.Grammar.{ArrayBody};
ghost use Rattle.amqp_value_core.specs.Containers.{array_view};
ghost use Rattle.amqp_value_core.specs.Bytes.{slice_bytes};
ghost use Rattle.amqp_in_place.specs.Bodies.{HasValues};
ghost use Rattle.amqp_in_place.specs.Refs.{array_body};
ghost use Rattle.amqp_in_place.specs.Walks.{FoundIs, WrittenIs, ViewIs, ValueIs, tree_at};
ghost use Rattle.amqp_in_place.specs.Written.{WrittenValues};
ghost use Rattle.amqp_in_place.specs.Encoded.{EncodedValues, nth_encoded};
ghost use Rattle.amqp_in_place.specs.Places.{IsViewWithin};

use super::refs::{ArrayRef, ValueRef};
use super::steps::next_value;
use amq_protocol_types::parsing::{Err, parse_array_body};
use amqp_value_core::input::{ParsableInput, SliceInput};
use amqp_value_core::types::FieldArray;
use std::alloc::{AllocError, Global};

impl<'a> ArrayRef<'a> {
    /// Returns the bytes of the body: those after its length.
    pub fn as_bytes(self) -> &'a [u8]
        ensures { result.now ≡ array_body self.entry }
    {
        self.body().as_slice()
    }

    /// Returns whether the array has no values.
    pub fn is_empty(self) -> bool
        ensures { (vs : Trees) → ArrayBody (array_body self.entry) vs → IsTrue result ↔ (vs ≡ no_trees) }
    {
        self.body().input_len() == 0
    }

    /// Returns the value at `index`, counted from 0, or `None` if the array has no more than
    /// `index` values. Skips over the values before it one by one, and doesn't allocate.
    pub fn get(self, index: usize) -> Option<ValueRef<'a>>
        ensures value { (vs : Trees) → ArrayBody (array_body self.entry) vs → FoundIs (tree_at index vs) result }
        ensures written { (ts : Trees) → WrittenValues (array_body self.entry) ts → WrittenIs (tree_at index ts) result }
        ensures view { (es : Trees) → EncodedValues (array_body self.entry) es → ViewIs (tree_at index es) result }
        ensures inside { IfSome result (λ r. IsViewWithin (array_body self.entry) r) }
    {
        nth_value(self.body(), index)
    }

    /// Copies the array to the owned one that `parse_value` returns. Returns an error if an
    /// allocation fails; an empty array doesn't allocate. It uses stack for each level of nesting;
    /// docs/PROMISES.md has measurements.
    #[tactic(auto, using(amqp_value_core::proofs::GrammarLaws::body_of))]
    pub fn to_owned(self, alloc: Global) -> Result<FieldArray, AllocError>
        ensures { MatchResult result
            (λ a. ArrayBody (array_body self.entry) (array_view a))
            (λ _. 0 < length (array_body self.entry)) }
    {
        let body = self.body();
        match parse_array_body(alloc, body, body.input_len()) {
            Ok(array) => Ok(array),
            Err(Err::Failure(_)) => Err(AllocError),
            Err(Err::Incomplete(_)) => unreachable!(),
            Err(Err::Error(_)) => unreachable!(),
        }
    }
}

// The value at a position, in bytes that are values.
fn nth_value<'a>(values: SliceInput<'a>, index: usize) -> Option<ValueRef<'a>>
    requires { ∥ HasValues (slice_bytes values) ∥₁ }
    ensures found { (vs : Trees) (p : ArrayBody (slice_bytes values.entry) vs)
        → ValueIs (nth_encoded index (slice_bytes values.entry) vs p) result }
    ensures inside { IfSome result (λ r. IsViewWithin (slice_bytes values.entry) r) }
{
    let mut left = index;
    let mut rest = values;
    'values: while let Some((value, after)) = next_value(rest) {
        if left == 0 {
            return Some(value);
        }
        left -= 1;
        rest = after;
    }
    None
}
