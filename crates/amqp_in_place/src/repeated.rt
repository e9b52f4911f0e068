//! `TableRef::repeated_key`, which returns a key that occurs more than once in a table.

ghost use Rattle.std.specs.Prelude.{◌≡◌, true, false, IfOk, OnErr};
ghost use Rattle.amqp_value_core.specs.Values.{Entries};
ghost use Rattle.amqp_value_core.specs.Grammar.{TableBody};
ghost use Rattle.amqp_value_core.specs.Maps.{IsRising};
ghost use Rattle.amqp_value_core.specs.Bytes.{slice_bytes};
ghost use Rattle.amqp_in_place.specs.Bodies.{HasPairs};
ghost use Rattle.amqp_in_place.specs.Refs.{table_body};
ghost use Rattle.amqp_in_place.specs.Lookups.{RepeatedIs};

use super::canonical::is_above;
use super::refs::TableRef;
use super::steps::next_pair;
use amqp_value_core::input::SliceInput;
use std::alloc::{AllocError, Global};
use std::collections::BTreeSet;

impl<'a> TableRef<'a> {
    /// Returns a key that more than one pair has, so that readers may differ on its value, or
    /// `None` if there is no such key. Containers inside the table aren't checked.
    ///
    /// If the keys ascend by their bytes, as in a canonical encoding, it doesn't allocate.
    /// Otherwise keys are retained in a set, in at most some 40 bytes each, until one is repeated:
    /// n log n comparisons for n pairs, whoever picks the keys.
    ///
    /// # Examples
    ///
    /// ```rust
    /// let (table, _rest) = read_table_in_place(headers, LIMITS)?;
    /// match table.repeated_key(alloc)? {
    ///     Some(key) => bail!("rejected, the key {key:?} is repeated"),
    ///     None => Ok(table),
    /// }
    /// ```
    pub fn repeated_key(self, alloc: Global) -> Result<Option<&'a str>, AllocError>
        ensures repeated { IfOk result (λ key. (ps : Entries) → TableBody (table_body self.entry) ps → RepeatedIs ps key) }
        ensures err { OnErr result ((ps : Entries) → TableBody (table_body self.entry) ps → IsRising ps → ⊥) }
    {
        if keys_rise(self.body()) {
            return Ok(None);
        }
        let mut seen = BTreeSet::new(alloc);
        let mut rest = self.body();
        'pairs: while let Some((key, _, after)) = next_pair(rest) {
            if !seen.insert(key)? {
                return Ok(Some(key));
            }
            rest = after;
        }
        Ok(None)
    }
}

// Whether the keys of the pairs are ascending by their bytes.
fn keys_rise<'a>(pairs: SliceInput<'a>) -> bool
    requires { ∥ HasPairs (slice_bytes pairs) ∥₁ }
    ensures yes { result ≡ true → (ps : Entries) → TableBody (slice_bytes pairs.entry) ps → IsRising ps }
    ensures no { result ≡ false → (ps : Entries) → TableBody (slice_bytes pairs.entry) ps → IsRising ps → ⊥ }
{
    let mut rest = pairs;
    let mut previous: Option<&[u8]> = None;
    'pairs: while let Some((key, _, after)) = next_pair(rest) {
        let key = key.as_bytes();
        if !is_above(previous, key) {
            return false;
        }
        rest = after;
        previous = Some(key);
    }
    true
}
