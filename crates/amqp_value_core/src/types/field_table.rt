//! `FieldTable`: a map from `ShortString` keys to `AMQPValue`s.

// The tactics at the functions name lemmas: a map of pairs is the table that they result in, and a
// table has a key if it has a value at it.

ghost use Rattle.std.specs.Prelude.{◌≡◌, ◌≤◌, [], ◌∷◌, length, option_map, OnOk, OnErr, IfOk, IfErr, IsOk};
ghost use Rattle.std.specs.Borrow.{sem};
ghost use Rattle.amqp_value_core.specs.Values.{no_entries};
ghost use Rattle.amqp_value_core.specs.Maps.{insert, insert_all, has_key, value_at};
ghost use Rattle.amqp_value_core.specs.View.{view};
ghost use Rattle.amqp_value_core.specs.Containers.{entries, named, names, table_entries, table_view};
ghost use Rattle.amqp_value_core.specs.Short.{AreCopiesRefused, first_too_long};
ghost use Rattle.amqp_value_core.specs.Lending.{LentOrKept, LentOrKeptIn, bare_of};

use crate::types::{ShortString, TryCopyError};
use crate::value::AMQPValue;
use std::alloc::{AllocError, Global};
use std::collections::{BTreeMap, btree_map};
use std::convert::AsStr;

/// A map from short strings to values, each with its type (AMQP 0-9-1, section 4.2.5.5). It has
/// each key once, and iterates over the keys in the order of their bytes.
#[cycle(values)]
#[derive(Debug, Drop)]
pub struct FieldTable {
    map: BTreeMap<ShortString, AMQPValue>,
}

/// A table that a call returns.
#[derive(Drop)]
struct Lent<'a> {
    table: &'a mut FieldTable,
}

// the table, out of its struct
fn bare(lent: Result<Lent<'_>, AllocError>) -> Result<&mut FieldTable, AllocError>
    ensures { result ≡ bare_of lent.entry }
{
    match lent {
        Ok(Lent { table }) => Ok(table),
        Err(e) => Err(e),
    }
}

// the entries as a `Vec`
fn list_of<K: Drop, const N: usize>(
    alloc: Global,
    pairs: [(K, AMQPValue); N],
) -> Result<Vec<(K, AMQPValue)>, AllocError>
    ensures { IfOk result (λ list. list.items ≡ pairs) }
{
    Ok(Vec::from_array(alloc, pairs)?)
}

impl FieldTable {
    /// Makes an empty table. Doesn't allocate.
    pub fn new_in(alloc: Global) -> Self
        ensures { table_entries result ≡ [] }
    {
        FieldTable {
            map: BTreeMap::new(alloc),
        }
    }

    /// Inserts a value at a key, and returns the table, so that calls can be chained. An old value
    /// at the key is replaced. If an allocation fails the table is unchanged, and the key and the
    /// value are dropped.
    pub fn insert(&mut self, k: ShortString, v: AMQPValue) -> Result<&mut FieldTable, AllocError>
        ensures* unchanged_at_err { sem 𝓛 (LentOrKept self.entry result) }
        ensures same { IfOk result (λ r. r.ghost_name ≡ self.entry.ghost_name) }
        ensures ok { IfOk result (λ r. table_view r.now ≡ insert k (view v) (table_view self.old)) }
    {
        bare(self.lend(k, v))
    }

    fn lend(&mut self, k: ShortString, v: AMQPValue) -> Result<Lent<'_>, AllocError>
        ensures* unchanged_at_err { sem 𝓛 (LentOrKeptIn self.entry result) }
        ensures same { IfOk result (λ r. r.table.ghost_name ≡ self.entry.ghost_name) }
        ensures ok { IfOk result (λ r. table_view r.table.now ≡ insert k (view v) (table_view self.old)) }
    {
        self.place(k, v)?;
        Ok(Lent { table: self })
    }

    /// Inserts a value at a key, as `insert` does, and returns nothing: for callers whose own
    /// contract is about the table after an error.
    pub fn place(&mut self, k: ShortString, v: AMQPValue) -> Result<(), AllocError>
        ensures ok { OnOk result (table_view self.new ≡ insert k (view v) (table_view self.old)) }
        ensures err { OnErr result (table_entries self.new ≡ table_entries self.old) }
    {
        drop(self.map.insert(k, v)?);
        Ok(())
    }

    /// Makes a table of the pairs, inserted in order: of equal keys the last one's value is
    /// retained. From some hundred pairs on it is faster than to insert each, but uses more memory
    /// meanwhile. If an allocation fails the pairs are dropped. An empty vector doesn't allocate.
    #[inline(never)]
    #[tactic(auto, using(crate::proofs::Gathered::made_of))]
    pub fn from_pairs(
        alloc: Global,
        pairs: Vec<(ShortString, AMQPValue)>,
    ) -> Result<FieldTable, AllocError>
        ensures pairs { IfOk result (λ table. table_view table ≡ insert_all no_entries (entries pairs.items)) }
        ensures empty { pairs.items ≡ [] → IsOk result }
    {
        if pairs.is_empty() {
            return Ok(FieldTable::new_in(alloc));
        }
        let map: BTreeMap<ShortString, AMQPValue> = pairs.into_iter().collect(alloc)?;
        Ok(FieldTable { map })
    }

    /// Makes a table of the entries, with copies of their keys, inserted in order: of equal keys
    /// the last one's value is retained. Returns `TooLong` at the first key of more than 255 bytes,
    /// and `OutOfMemory` if an allocation fails; what was copied so far is dropped. An empty array
    /// doesn't allocate.
    pub fn from_entries<K: AsStr + Drop, const N: usize>(
        alloc: Global,
        pairs: [(K, AMQPValue); N],
    ) -> Result<FieldTable, TryCopyError>
        ensures entries { IfOk result (λ table. table_view table ≡ insert_all no_entries (entries (named K.text pairs))) }
        ensures fits { OnOk result (first_too_long (names K.text pairs) ≡ None) }
        ensures err { IfErr result (AreCopiesRefused (names K.text pairs)) }
    {
        if N == 0 {
            return Ok(FieldTable::new_in(alloc));
        }
        FieldTable::from_named(alloc, list_of(alloc, pairs)?)
    }

    fn from_named<K: AsStr + Drop>(
        alloc: Global,
        pairs: Vec<(K, AMQPValue)>,
    ) -> Result<FieldTable, TryCopyError>
        ensures entries { IfOk result (λ table. table_view table ≡ insert_all no_entries (entries (named K.text pairs.items))) }
        ensures fits { OnOk result (first_too_long (names K.text pairs.items) ≡ None) }
        ensures err { IfErr result (AreCopiesRefused (names K.text pairs.items)) }
    {
        let mut table = FieldTable::new_in(alloc);
        for (name, value) in pairs {
            table.place_at(alloc, name.as_str(), value)?;
        }
        Ok(table)
    }

    // places a value at a copy of a string
    fn place_at(&mut self, alloc: Global, name: &str, v: AMQPValue) -> Result<(), TryCopyError>
        ensures ok { OnOk result (table_view self.new ≡ insert name.now (view v) (table_view self.old)) }
        ensures fits { OnOk result (length name.now ≤ 255) }
        ensures err { IfErr result (AreCopiesRefused (name.now ∷ [])) }
    {
        self.place(ShortString::try_copy(alloc, name)?, v)?;
        Ok(())
    }

    /// Returns the value at a key, or `None` if the table doesn't have the key. No table has a key of
    /// more than 255 bytes. It compares the key with one after another, and doesn't allocate.
    pub fn get(&self, key: &str) -> Option<&AMQPValue>
        ensures { option_map (λ v. view v.now) result ≡ value_at key.now (table_view self.now) }
    {
        for (name, value) in self.map.iter() {
            if name.as_str() == key {
                return Some(value);
            }
        }
        None
    }

    /// Returns whether the table has the key. It compares as `get` does, and doesn't allocate.
    #[tactic(auto, using(crate::proofs::Tables::key_has_value))]
    pub fn contains_key(&self, k: &str) -> bool
        ensures { result ≡ has_key k.now (table_view self.now) }
    {
        self.get(k).is_some()
    }

    /// Returns the entries as a `BTreeMap`, to look up a value by its key or to iterate.
    pub fn inner(&self) -> &BTreeMap<ShortString, AMQPValue>
        ensures { result.now.entries ≡ table_entries self.now }
    {
        &self.map
    }
}

impl From<BTreeMap<ShortString, AMQPValue>> for FieldTable {
    ghost use Rattle.amqp_value_core.specs.Containers.{table_entries};

    ghost from_gives = { λ m t. table_entries t ≡ m.entries };

    fn from(map: BTreeMap<ShortString, AMQPValue>) -> Self {
        FieldTable { map }
    }
}

impl<'a> IntoIterator for &'a FieldTable {
    ghost use Rattle.std.specs.Prelude.{ℕ, List, ◌<◌, ◌^◌, length};
    ghost use Rattle.std.specs.Ordering.{nat_cmp};
    ghost use Rattle.std.specs.Cmp.Lexicographic.{slice_cmp};
    ghost use Rattle.std.specs.List.Sorted.{IsStrictlySortedBy};
    ghost use Rattle.std.specs.Map.{keys_of};
    ghost use Rattle.std.specs.Map.Iter.{ShowsInOrder, ShowsValuesInOrder, ShowsInReverse, deref_pair};
    ghost use Rattle.amqp_value_core.specs.declared.value.AMQPValue.{AMQPValue};

    type Item = (&'a ShortString, &'a AMQPValue);

    type IntoIter = btree_map::Iter<'a, ShortString, AMQPValue>;

    // the entries, in order or from the back; the keys are ascending
    ghost into_iter_gives = { λ t r. (r ≡ table_entries t.now) × (length r < 2 ^ 63) × ShowsInOrder (deref_pair {K = List ℕ} {X = AMQPValue}) × ShowsValuesInOrder (deref_pair {K = List ℕ} {X = AMQPValue}) × ShowsInReverse (deref_pair {K = List ℕ} {X = AMQPValue}) × IsStrictlySortedBy (slice_cmp nat_cmp) (keys_of (table_entries t.now)) };

    fn into_iter(self) -> btree_map::Iter<'a, ShortString, AMQPValue> {
        self.map.iter()
    }
}
