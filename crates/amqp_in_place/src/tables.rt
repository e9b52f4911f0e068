//! `TableRef`, a table in place: `get`, `get_first`, `contains_key`, `is_empty`, `as_bytes`, and
//! `to_owned`, a copy. Its other methods are in `iter.rt`, `path.rt` and `repeated.rt`.

// Tactics at functions: each names the one lemma on tables that proves its clause.

ghost use Rattle.std.specs.Prelude.{◌≡◌, ◌<◌, ◌↔◌, IsTrue, IfSome, length, MatchResult};
ghost use Rattle.amqp_value_core.specs.Values.{Entries, no_entries};
ghost use Rattle.amqp_value_core.specs.Maps.{has_key, value_at, last_at};
ghost use Rattle.amqp_value_core.specs.Grammar.{TableBody};
ghost use Rattle.amqp_value_core.specs.Containers.{table_view};
ghost use Rattle.amqp_in_place.specs.InPlaceResults.{IsLeft};
ghost use Rattle.amqp_in_place.specs.Bodies.{HasPairs, HasEntries};
ghost use Rattle.amqp_in_place.specs.Refs.{table_body};
ghost use Rattle.amqp_in_place.specs.Walks.{FoundIs, WrittenIs, ViewIs, BeginsWith};
ghost use Rattle.amqp_in_place.specs.Written.{WrittenPairs};
ghost use Rattle.amqp_in_place.specs.Encoded.{EncodedPairs, encoded_of};
ghost use Rattle.amqp_in_place.specs.Lookups.{first_at, value_of_pair};
ghost use Rattle.amqp_in_place.specs.Places.{IsViewWithin};

use super::path::EqualKeys;
use super::refs::{TableRef, ValueRef};
use super::search::place_of_key;
use super::steps::value_there;
use amq_protocol_types::parsing::{Err, parse_table_body};
use amqp_value_core::input::ParsableInput;
use amqp_value_core::types::FieldTable;
use std::alloc::{AllocError, Global};

impl<'a> TableRef<'a> {
    /// Returns the bytes of the body: those after its length.
    pub fn as_bytes(self) -> &'a [u8]
        ensures { result.now ≡ table_body self.entry }
    {
        self.body().as_slice()
    }

    /// Returns whether the table has no pairs.
    #[tactic(auto, using(crate::proofs::Lookups::no_pairs_at))]
    pub fn is_empty(self) -> bool
        ensures { (ps : Entries) → TableBody (table_body self.entry) ps → IsTrue result ↔ (ps ≡ no_entries) }
    {
        self.body().input_len() == 0
    }

    /// Returns the value at the key, of equal keys the last pair's, or `None` if no pair has the
    /// key. Skips over all pairs by their lengths, and reads the value that is found. Doesn't
    /// allocate.
    #[tactic(auto, using(crate::proofs::Lookups::last_means))]
    pub fn get(self, key: &str) -> Option<ValueRef<'a>>
        ensures value { (es : Entries) → HasEntries (table_body self.entry) es → FoundIs (value_at key.now es) result }
        ensures written { (ps : Entries) → WrittenPairs (table_body self.entry) ps → WrittenIs (last_at key.now ps) result }
        ensures view { (es : Entries) → EncodedPairs (table_body self.entry) es → ViewIs (last_at key.now es) result }
        ensures inside { IfSome result (λ r. IsViewWithin (table_body self.entry) r) }
    {
        self.value_of_pair(key, EqualKeys::Last)
    }

    /// Returns the value of the first pair with the key, or `None` if no pair has it; `get` returns
    /// the last pair's. Skips over the pairs before it by their lengths, and reads none after it.
    /// Doesn't allocate.
    pub fn get_first(self, key: &str) -> Option<ValueRef<'a>>
        ensures value { (ps : Entries) → TableBody (table_body self.entry) ps → FoundIs (first_at key.now ps) result }
        ensures written { (ps : Entries) → WrittenPairs (table_body self.entry) ps → WrittenIs (first_at key.now ps) result }
        ensures view { (es : Entries) → EncodedPairs (table_body self.entry) es → ViewIs (first_at key.now es) result }
        ensures inside { IfSome result (λ r. IsViewWithin (table_body self.entry) r) }
    {
        self.value_of_pair(key, EqualKeys::First)
    }

    /// Returns whether a pair has the key. Skips over the pairs by their lengths, and doesn't
    /// allocate.
    pub fn contains_key(self, key: &str) -> bool
        ensures { (es : Entries) → HasEntries (table_body self.entry) es → result ≡ has_key key.now es }
    {
        place_of(self.as_bytes(), key.as_bytes(), EqualKeys::Last).is_some()
    }

    // The value of the first or the last pair with the key.
    pub(crate) fn value_of_pair(self, key: &str, of_equal: EqualKeys) -> Option<ValueRef<'a>>
        ensures value { (ps : Entries) → TableBody (table_body self.entry) ps
            → FoundIs (value_of_pair of_equal key.now ps) result }
        ensures written { (ps : Entries) → WrittenPairs (table_body self.entry) ps
            → WrittenIs (value_of_pair of_equal key.now ps) result }
        ensures view { (es : Entries) → EncodedPairs (table_body self.entry) es
            → ViewIs (value_of_pair of_equal key.now es) result }
        ensures inside { IfSome result (λ r. IsViewWithin (table_body self.entry) r) }
    {
        value_there(place_of(self.as_bytes(), key.as_bytes(), of_equal))
    }

    /// Copies the table to the owned one that `parse_value` returns: of equal keys the last pair's
    /// value is retained. Returns an error if an allocation fails; an empty table doesn't allocate.
    /// It uses stack for each level of nesting; docs/PROMISES.md has measurements.
    #[tactic(auto, using(crate::proofs::HeadLemmas::entries_of_table))]
    pub fn to_owned(self, alloc: Global) -> Result<FieldTable, AllocError>
        ensures { MatchResult result
            (λ t. HasEntries (table_body self.entry) (table_view t))
            (λ _. 0 < length (table_body self.entry)) }
    {
        let body = self.body();
        match parse_table_body(alloc, body, body.input_len()) {
            Ok(table) => Ok(table),
            Err(Err::Failure(_)) => Err(AllocError),
            Err(Err::Incomplete(_)) => unreachable!(),
            Err(Err::Error(_)) => unreachable!(),
        }
    }
}

// The bytes from the value of the first or the last pair with the key on, in bytes that are pairs.
fn place_of<'a>(pairs: &'a [u8], key: &[u8], of_equal: EqualKeys) -> Option<&'a [u8]>
    requires { ∥ HasPairs pairs.now ∥₁ }
    ensures found { (ps : Entries) (p : TableBody pairs.now ps)
        → BeginsWith (encoded_of of_equal key.now pairs.now ps p) result }
    ensures left { IfSome result (λ at. IsLeft pairs.now at.now) }
{
    let Ok(place) = place_of_key(pairs, key, of_equal.is_first()) else {
        unreachable!()
    };
    place
}
