//! `clone` of `AMQPValue`, `FieldArray` and `FieldTable`: deep copies.
//!
//! If an allocation fails, what was copied so far is dropped. What has no bytes, no values and no
//! entries doesn't allocate.

ghost use Rattle.std.specs.Prelude.{◌≡◌, [], IfOk, IsOk};
ghost use Rattle.amqp_value_core.specs.Containers.{NeedsNoAlloc, trees, entries, array_items, array_view, table_entries, table_view};
ghost use Rattle.amqp_value_core.specs.View.{view};

use crate::types::{FieldArray, FieldTable, ShortString};
use crate::value::AMQPValue;
use std::alloc::{AllocError, Global};
use std::collections::BTreeMap;

impl FieldArray {
    /// Copies the array and each value in it. An empty array doesn't allocate.
    pub fn clone(&self, alloc: Global) -> Result<FieldArray, AllocError>
        ensures same { IfOk result (λ a. array_view a ≡ array_view self.now) }
        ensures empty { array_items self.now ≡ [] → IsOk result }
    {
        copy_items(alloc, self.as_slice())
    }
}

impl FieldTable {
    /// Copies the table, each key and each value. An empty table doesn't allocate.
    pub fn clone(&self, alloc: Global) -> Result<FieldTable, AllocError>
        ensures same { IfOk result (λ t. table_view t ≡ table_view self.now) }
        ensures empty { table_entries self.now ≡ [] → IsOk result }
    {
        copy_entries(alloc, self.inner())
    }
}

impl AMQPValue {
    /// Copies the value and each value in it. A number, a boolean, Void and what is empty don't
    /// allocate.
    pub fn clone(&self, alloc: Global) -> Result<AMQPValue, AllocError>
        ensures same { IfOk result (λ v. view v ≡ view self.now) }
        ensures light { NeedsNoAlloc (view self.now) → IsOk result }
    {
        copy(alloc, self)
    }
}

#[cycle(copies)]
fn copy(alloc: Global, value: &AMQPValue) -> Result<AMQPValue, AllocError>
    ensures same { IfOk result (λ v. view v ≡ view value.now) }
    ensures light { NeedsNoAlloc (view value.now) → IsOk result }
{
    match value {
        AMQPValue::Boolean(b) => Ok(AMQPValue::Boolean(*b)),
        AMQPValue::ShortShortInt(n) => Ok(AMQPValue::ShortShortInt(*n)),
        AMQPValue::ShortShortUInt(n) => Ok(AMQPValue::ShortShortUInt(*n)),
        AMQPValue::ShortInt(n) => Ok(AMQPValue::ShortInt(*n)),
        AMQPValue::ShortUInt(n) => Ok(AMQPValue::ShortUInt(*n)),
        AMQPValue::LongInt(n) => Ok(AMQPValue::LongInt(*n)),
        AMQPValue::LongUInt(n) => Ok(AMQPValue::LongUInt(*n)),
        AMQPValue::LongLongInt(n) => Ok(AMQPValue::LongLongInt(*n)),
        AMQPValue::Float(n) => Ok(AMQPValue::Float(*n)),
        AMQPValue::Double(n) => Ok(AMQPValue::Double(*n)),
        AMQPValue::DecimalValue(n) => Ok(AMQPValue::DecimalValue(*n)),
        AMQPValue::ShortString(s) => Ok(AMQPValue::ShortString(s.clone(alloc)?)),
        AMQPValue::LongString(s) => Ok(AMQPValue::LongString(s.clone(alloc)?)),
        AMQPValue::FieldArray(a) => Ok(AMQPValue::FieldArray(copy_items(alloc, a.as_slice())?)),
        AMQPValue::Timestamp(n) => Ok(AMQPValue::Timestamp(*n)),
        AMQPValue::FieldTable(t) => Ok(AMQPValue::FieldTable(copy_entries(alloc, t.inner())?)),
        AMQPValue::ByteArray(a) => Ok(AMQPValue::ByteArray(a.clone(alloc)?)),
        AMQPValue::Void => Ok(AMQPValue::Void),
    }
}

#[cycle(copies)]
fn copy_items(alloc: Global, items: &[AMQPValue]) -> Result<FieldArray, AllocError>
    ensures same { IfOk result (λ a. array_view a ≡ trees items.now) }
    ensures empty { items.now ≡ [] → IsOk result }
{
    let mut copies = FieldArray::new_in(alloc);
    for item in items {
        copies.push(copy(alloc, item)?)?;
    }
    Ok(copies)
}

#[cycle(copies)]
fn copy_entries(
    alloc: Global,
    map: &BTreeMap<ShortString, AMQPValue>,
) -> Result<FieldTable, AllocError>
    ensures same { IfOk result (λ t. table_view t ≡ entries map.now.entries) }
    ensures empty { map.now.entries ≡ [] → IsOk result }
{
    let mut copies = FieldTable::new_in(alloc);
    for (key, item) in map.iter() {
        let name = key.clone(alloc)?;
        copies.place(name, copy(alloc, item)?)?;
    }
    Ok(copies)
}
