//! `FieldArray`: a list of `AMQPValue`s, which needn't have the same type.

ghost use Rattle.std.specs.Prelude.{◌≡◌, [], ◌∷◌, ◌++◌, OnOk, OnErr};
ghost use Rattle.amqp_value_core.specs.Containers.{array_items};

use crate::value::AMQPValue;
use std::alloc::{AllocError, Global};

/// A list of values, each with its type: they needn't have the same one.
#[cycle(values)]
#[derive(Debug, Drop)]
pub struct FieldArray {
    items: Vec<AMQPValue>,
}

impl FieldArray {
    /// Makes an empty array. Doesn't allocate.
    pub fn new_in(alloc: Global) -> Self
        ensures { array_items result ≡ [] }
    {
        FieldArray {
            items: Vec::new(alloc),
        }
    }

    /// Returns the values, in order.
    pub fn as_slice(&self) -> &[AMQPValue]
        ensures { result.now ≡ array_items self.now }
    {
        self.items.as_slice()
    }

    /// Appends a value, which may allocate. If an allocation fails the array is unchanged, and the
    /// value is dropped.
    pub fn push(&mut self, v: AMQPValue) -> Result<(), AllocError>
        ensures ok { OnOk result (array_items self.new ≡ array_items self.old ++ v ∷ []) }
        ensures err { OnErr result (array_items self.new ≡ array_items self.old) }
    {
        self.items.push(v)?;
        Ok(())
    }
}

impl From<Vec<AMQPValue>> for FieldArray {
    ghost use Rattle.amqp_value_core.specs.Containers.{array_items};

    ghost from_gives = { λ v a. array_items a ≡ v.items };

    fn from(items: Vec<AMQPValue>) -> Self {
        FieldArray { items }
    }
}
