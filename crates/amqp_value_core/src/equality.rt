//! `==` on values, arrays and tables: equality of their trees.

ghost use Rattle.std.specs.Prelude.{◌≡◌, ◌↔◌, IsTrue};
ghost use Rattle.amqp_value_core.specs.View.{view};
ghost use Rattle.amqp_value_core.specs.Containers.{array_view, table_view, trees, entries};
ghost use Rattle.amqp_value_core.specs.Equality.{same_tree, same_trees, same_entries};
ghost use Rattle.amqp_value_core.specs.Decided.{same_tree_laws, same_trees_laws, same_entries_laws};

use crate::types::{FieldArray, FieldTable, ShortString};
use crate::value::AMQPValue;
use std::collections::BTreeMap;

impl PartialEq for AMQPValue {
    ghost eq = { λ a b. same_tree (view a) (view b) };

    ghost laws = { same_tree_laws view };

    fn eq(&self, other: &Self) -> bool
        ensures test { result ≡ same_tree (view self.now) (view other.now) }
        ensures trees { IsTrue result ↔ (view self.now ≡ view other.now) }
    {
        same(self, other)
    }
}

impl PartialEq for FieldArray {
    ghost eq = { λ a b. same_trees (array_view a) (array_view b) };

    ghost laws = { same_trees_laws array_view };

    fn eq(&self, other: &Self) -> bool
        ensures test { result ≡ same_trees (array_view self.now) (array_view other.now) }
        ensures trees { IsTrue result ↔ (array_view self.now ≡ array_view other.now) }
    {
        same_items(self.as_slice(), other.as_slice())
    }
}

impl PartialEq for FieldTable {
    ghost eq = { λ a b. same_entries (table_view a) (table_view b) };

    ghost laws = { same_entries_laws table_view };

    fn eq(&self, other: &Self) -> bool
        ensures test { result ≡ same_entries (table_view self.now) (table_view other.now) }
        ensures trees { IsTrue result ↔ (table_view self.now ≡ table_view other.now) }
    {
        same_pairs(self.inner(), other.inner())
    }
}

/// Whether two values have the same type and contents.
#[cycle(same)]
fn same(a: &AMQPValue, b: &AMQPValue) -> bool
    ensures { result ≡ same_tree (view a.now) (view b.now) }
{
    match (a, b) {
        (AMQPValue::Boolean(a), AMQPValue::Boolean(b)) => a == b,
        (AMQPValue::ShortShortInt(a), AMQPValue::ShortShortInt(b)) => a == b,
        (AMQPValue::ShortShortUInt(a), AMQPValue::ShortShortUInt(b)) => a == b,
        (AMQPValue::ShortInt(a), AMQPValue::ShortInt(b)) => a == b,
        (AMQPValue::ShortUInt(a), AMQPValue::ShortUInt(b)) => a == b,
        (AMQPValue::LongInt(a), AMQPValue::LongInt(b)) => a == b,
        (AMQPValue::LongUInt(a), AMQPValue::LongUInt(b)) => a == b,
        (AMQPValue::LongLongInt(a), AMQPValue::LongLongInt(b)) => a == b,
        (AMQPValue::Float(a), AMQPValue::Float(b)) => a == b,
        (AMQPValue::Double(a), AMQPValue::Double(b)) => a == b,
        (AMQPValue::DecimalValue(a), AMQPValue::DecimalValue(b)) => a == b,
        (AMQPValue::ShortString(a), AMQPValue::ShortString(b)) => a == b,
        (AMQPValue::LongString(a), AMQPValue::LongString(b)) => a == b,
        (AMQPValue::FieldArray(a), AMQPValue::FieldArray(b)) => {
            same_items(a.as_slice(), b.as_slice())
        }
        (AMQPValue::Timestamp(a), AMQPValue::Timestamp(b)) => a == b,
        (AMQPValue::FieldTable(a), AMQPValue::FieldTable(b)) => { same_pairs(a.inner(), b.inner()) }
        (AMQPValue::ByteArray(a), AMQPValue::ByteArray(b)) => a == b,
        (AMQPValue::Void, AMQPValue::Void) => true,
        _ => false,
    }
}

/// Whether two lists have the same length and equal values at each index.
#[cycle(same)]
fn same_items(a: &[AMQPValue], b: &[AMQPValue]) -> bool
    ensures { result ≡ same_trees (trees a.now) (trees b.now) }
{
    for (x, y) in a.iter().zip(b) {
        if !same(x, y) {
            return false;
        }
    }
    a.len() == b.len()
}

/// Whether two maps have the same number of entries, with equal keys and values in order.
#[cycle(same)]
fn same_pairs(m: &BTreeMap<ShortString, AMQPValue>, n: &BTreeMap<ShortString, AMQPValue>) -> bool
    ensures { result ≡ same_entries (entries m.now.entries) (entries n.now.entries) }
{
    for ((j, x), (k, y)) in m.iter().zip(n.iter()) {
        if j != k || !same(x, y) {
            return false;
        }
    }
    m.len() == n.len()
}
