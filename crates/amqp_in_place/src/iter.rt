//! The public iterators `ArrayValues` and `TablePairs`, which `ArrayRef::iter` and `TableRef::iter`
//! return. Each `next` is a step of `steps.rt`.

ghost use Rattle.amqp_value_core.specs.Bytes.{slice_bytes};
ghost use Rattle.amqp_in_place.specs.Bodies.{HasValues, HasPairs};

use super::refs::{ArrayRef, TableRef, ValueRef};
use super::steps::{next_pair, next_value};
use amqp_value_core::input::SliceInput;

/// An iterator over the remaining values of an array, in order.
#[derive(Drop)]
pub struct ArrayValues<'a> {
    values: SliceInput<'a>,
    ghost well_formed: { ∥ HasValues (slice_bytes values) ∥₁ },
}

/// An iterator over the remaining pairs of a table, in the order in which they are written. A key
/// may occur more than once: the last pair's value counts.
#[derive(Drop)]
pub struct TablePairs<'a> {
    pairs: SliceInput<'a>,
    ghost well_formed: { ∥ HasPairs (slice_bytes pairs) ∥₁ },
}

impl<'a> ArrayRef<'a> {
    ghost use Rattle.std.specs.Prelude.{◌≡◌};
    ghost use Rattle.amqp_in_place.specs.Refs.{array_body};
    ghost use Rattle.amqp_in_place.specs.Suffix.{values_left};

    /// Iterates over the values, in order.
    pub fn iter(self) -> ArrayValues<'a>
        ensures { values_left result ≡ array_body self.entry }
    {
        ArrayValues {
            values: self.body(),
        }
    }
}

impl<'a> TableRef<'a> {
    ghost use Rattle.std.specs.Prelude.{◌≡◌};
    ghost use Rattle.amqp_in_place.specs.Refs.{table_body};
    ghost use Rattle.amqp_in_place.specs.Suffix.{pairs_left};

    /// Iterates over the pairs, in the order in which they are written; a key may occur more than
    /// once.
    pub fn iter(self) -> TablePairs<'a>
        ensures { pairs_left result ≡ table_body self.entry }
    {
        TablePairs { pairs: self.body() }
    }
}

impl<'a> Iterator for ArrayValues<'a> {
    ghost use Rattle.std.specs.Prelude.{length, IfSome};
    ghost use Rattle.std.specs.Iterator.{at_most};
    ghost use Rattle.amqp_value_core.specs.Values.{Trees};
    ghost use Rattle.amqp_value_core.specs.Grammar.{ArrayBody};
    ghost use Rattle.amqp_in_place.specs.Suffix.{values_left};
    ghost use Rattle.amqp_in_place.specs.Walks.{ValueStep};
    ghost use Rattle.amqp_in_place.specs.Places.{IsViewIn};

    type Item = ValueRef<'a>;

    ghost next_gives = { λ s r t.
        ((vs : Trees) → ArrayBody (values_left s) vs → ValueStep vs r (values_left t))
        × IfSome r (λ x. IsViewIn (values_left s) x (values_left t)) };

    ghost remaining = { λ s. at_most (length (values_left s)) };

    fn next(&mut self) -> Option<ValueRef<'a>> {
        let (value, rest) = next_value(self.values)?;
        self.values = rest;
        Some(value)
    }
}

impl<'a> Iterator for TablePairs<'a> {
    ghost use Rattle.std.specs.Prelude.{length, IfSome};
    ghost use Rattle.std.specs.Iterator.{at_most};
    ghost use Rattle.amqp_value_core.specs.Values.{Entries};
    ghost use Rattle.amqp_value_core.specs.Grammar.{TableBody};
    ghost use Rattle.amqp_in_place.specs.Suffix.{pairs_left};
    ghost use Rattle.amqp_in_place.specs.Walks.{PairStep};
    ghost use Rattle.amqp_in_place.specs.Places.{IsPairViewIn};

    type Item = (&'a str, ValueRef<'a>);

    ghost next_gives = { λ s r t.
        ((ps : Entries) → TableBody (pairs_left s) ps → PairStep ps r (pairs_left t))
        × IfSome r (λ x. IsPairViewIn (pairs_left s) x.0.now x.1 (pairs_left t)) };

    ghost remaining = { λ s. at_most (length (pairs_left s)) };

    fn next(&mut self) -> Option<(&'a str, ValueRef<'a>)> {
        let (key, value, rest) = next_pair(self.pairs)?;
        self.pairs = rest;
        Some((key, value))
    }
}

impl<'a> ArrayValues<'a> {
    ghost use Rattle.std.specs.Prelude.{◌≡◌};
    ghost use Rattle.amqp_in_place.specs.Suffix.{values_left};

    /// The bytes of the remaining values: those of the array from the next value on.
    pub fn as_bytes(&self) -> &'a [u8]
        ensures { result.now ≡ values_left self.now }
    {
        self.values.as_slice()
    }
}

impl<'a> TablePairs<'a> {
    ghost use Rattle.std.specs.Prelude.{◌≡◌};
    ghost use Rattle.amqp_in_place.specs.Suffix.{pairs_left};

    /// The bytes of the remaining pairs: those of the table from the next key's length on.
    pub fn as_bytes(&self) -> &'a [u8]
        ensures { result.now ≡ pairs_left self.now }
    {
        self.pairs.as_slice()
    }
}
