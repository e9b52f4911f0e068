//! `ValueRef::to_owned`, which copies a value in place to an `AMQPValue`.

ghost use Rattle.std.specs.Prelude.{MatchResult};
ghost use Rattle.amqp_value_core.specs.View.{view};
ghost use Rattle.amqp_in_place.specs.Refs.{Denotes, HasBytes};

use super::refs::ValueRef;
use amq_protocol_types::parsing::copy_of;
use amqp_value_core::input::SliceInput;
use amqp_value_core::types::{ByteArray, LongString};
use amqp_value_core::value::AMQPValue;
use std::alloc::{AllocError, Global};

impl<'a> ValueRef<'a> {
    /// Copies the value to the owned one that `parse_value` returns. Returns an error if an
    /// allocation fails; a number, a boolean, Void and what is empty don't allocate. It uses stack
    /// for each level of nesting; docs/PROMISES.md has measurements.
    pub fn to_owned(self, alloc: Global) -> Result<AMQPValue, AllocError>
        ensures { MatchResult result (λ v. Denotes self.entry (view v)) (λ _. HasBytes self.entry) }
    {
        match self {
            ValueRef::Boolean(b) => Ok(AMQPValue::Boolean(b)),
            ValueRef::ShortShortInt(n) => Ok(AMQPValue::ShortShortInt(n)),
            ValueRef::ShortShortUInt(n) => Ok(AMQPValue::ShortShortUInt(n)),
            ValueRef::ShortInt(n) => Ok(AMQPValue::ShortInt(n)),
            ValueRef::ShortUInt(n) => Ok(AMQPValue::ShortUInt(n)),
            ValueRef::LongInt(n) => Ok(AMQPValue::LongInt(n)),
            ValueRef::LongUInt(n) => Ok(AMQPValue::LongUInt(n)),
            ValueRef::LongLongInt(n) => Ok(AMQPValue::LongLongInt(n)),
            ValueRef::Float(f) => Ok(AMQPValue::Float(f)),
            ValueRef::Double(f) => Ok(AMQPValue::Double(f)),
            ValueRef::DecimalValue(d) => Ok(AMQPValue::DecimalValue(d)),
            ValueRef::LongString(s) => {
                let bytes = copy_of(alloc, SliceInput::new(s))?;
                Ok(AMQPValue::LongString(LongString::from(bytes)))
            }
            ValueRef::FieldArray(a) => {
                let array = a.to_owned(alloc)?;
                Ok(AMQPValue::FieldArray(array))
            }
            ValueRef::Timestamp(n) => Ok(AMQPValue::Timestamp(n)),
            ValueRef::FieldTable(t) => {
                let table = t.to_owned(alloc)?;
                Ok(AMQPValue::FieldTable(table))
            }
            ValueRef::ByteArray(s) => {
                let bytes = copy_of(alloc, SliceInput::new(s))?;
                Ok(AMQPValue::ByteArray(ByteArray::from(bytes)))
            }
            ValueRef::Void => Ok(AMQPValue::Void),
        }
    }
}
