//! `get_path`, which looks up a nested value by a path of keys and positions (`PathStep`).

ghost use Rattle.std.specs.Prelude.{◌≡◌, ◌≢◌, [], Some, IfSome};
ghost use Rattle.amqp_value_core.specs.Values.{Tree};
ghost use Rattle.amqp_in_place.specs.declared.refs.ValueRef.TheVariants as at;
ghost use Rattle.amqp_in_place.specs.Refs.{Denotes, table_body};
ghost use Rattle.amqp_in_place.specs.Walks.{FoundIs, WrittenIs};
ghost use Rattle.amqp_in_place.specs.Written.{IsWrittenAs};
ghost use Rattle.amqp_in_place.specs.Places.{IsViewWithin};
ghost use Rattle.amqp_in_place.specs.Searches.{is_first};
ghost use Rattle.amqp_in_place.specs.Lookups.{at_step, at_path, content, StepsTo, LeadsTo};

use super::refs::{TableRef, ValueRef};

/// A step from a container to a value in it.
#[derive(Clone, Copy, Debug)]
pub enum PathStep<'p> {
    /// To the value at this key of a table.
    Key(&'p str),
    /// To the value at this position of an array, counted from 0.
    Index(usize),
}

/// Which of several pairs with an equal key a look-up takes.
#[derive(Clone, Copy, Debug, PartialEq, Eq)]
pub enum EqualKeys {
    /// The first pair: [`TableRef::get_first`].
    First,
    /// The last pair, as in the tree that `parse_value` returns: [`TableRef::get`].
    Last,
}

impl EqualKeys {
    pub(crate) fn is_first(self) -> bool
        ensures { result ≡ is_first self }
    {
        match self {
            EqualKeys::First => true,
            EqualKeys::Last => false,
        }
    }
}

impl<'a> ValueRef<'a> {
    /// Returns the value that the steps lead to, one after another from this value on. An empty
    /// path leads to the value itself. Returns `None` if a step finds nothing: a key that isn't
    /// there, or in anything but a table; a position past the end, or in anything but an array.
    /// Each step iterates over the pairs or values of one container, by their lengths; it doesn't
    /// recurse.
    pub fn get_path(self, path: &[PathStep<'_>], of_equal: EqualKeys) -> Option<ValueRef<'a>>
        ensures written { (t : Tree) → IsWrittenAs self.entry t → WrittenIs (at_path of_equal path.now t) result }
        ensures last { of_equal ≡ EqualKeys.Last → (v : Tree) → Denotes self.entry v
            → FoundIs (at_path of_equal path.now v) result }
        ensures itself { path.now ≡ [] → result ≡ Some self.entry }
        ensures inside { path.now ≢ [] → IfSome result (λ r. IsViewWithin (content self.entry) r) }
        ensures view { IfSome result (LeadsTo of_equal path.now self.entry) }
    {
        let mut at = self;
        for step in path {
            at = at.step(*step, of_equal)?;
        }
        Some(at)
    }

    // The value that one step leads to.
    fn step(self, step: PathStep<'_>, of_equal: EqualKeys) -> Option<ValueRef<'a>>
        ensures written { (t : Tree) → IsWrittenAs self.entry t → WrittenIs (at_step of_equal step.entry t) result }
        ensures last { of_equal ≡ EqualKeys.Last → (v : Tree) → Denotes self.entry v
            → FoundIs (at_step of_equal step.entry v) result }
        ensures inside { IfSome result (λ r. IsViewWithin (content self.entry) r) }
        ensures view { IfSome result (StepsTo of_equal step.entry self.entry) }
    {
        match step {
            PathStep::Key(key) => {
                let ValueRef::FieldTable(table) = self else {
                    return None;
                };
                table.value_of_pair(key, of_equal)
            }
            PathStep::Index(index) => {
                let ValueRef::FieldArray(array) = self else {
                    return None;
                };
                array.get(index)
            }
        }
    }
}

impl<'a> TableRef<'a> {
    /// Returns the value that the steps lead to: as [`ValueRef::get_path`] from this table.
    ///
    /// # Examples
    ///
    /// ```rust
    /// let path = [PathStep::Key("x-death"), PathStep::Index(0), PathStep::Key("count")];
    /// let count = headers.get_path(&path, EqualKeys::First);
    /// ```
    pub fn get_path(self, path: &[PathStep<'_>], of_equal: EqualKeys) -> Option<ValueRef<'a>>
        ensures written { (t : Tree) → IsWrittenAs (at.FieldTable self.entry) t
            → WrittenIs (at_path of_equal path.now t) result }
        ensures last { of_equal ≡ EqualKeys.Last → (v : Tree) → Denotes (at.FieldTable self.entry) v
            → FoundIs (at_path of_equal path.now v) result }
        ensures itself { path.now ≡ [] → result ≡ Some (at.FieldTable self.entry) }
        ensures inside { path.now ≢ [] → IfSome result (λ r. IsViewWithin (table_body self.entry) r) }
        ensures view { IfSome result (LeadsTo of_equal path.now (at.FieldTable self.entry)) }
    {
        ValueRef::FieldTable(self).get_path(path, of_equal)
    }
}
