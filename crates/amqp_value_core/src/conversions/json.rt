//! `AMQPValue::try_from`: a JSON number, string, boolean or null as a value of a given type. The
//! crate `amqp_json` has the JSON of every value.

ghost use Rattle.std.specs.Prelude.{◌≡◌, option_map, IfOk, OnErr};
ghost use Rattle.serde_json.specs.View.{view as document};
ghost use Rattle.amqp_value_core.specs.declared.types.amqp_type.AMQPType.TheVariants as amqp;
ghost use Rattle.amqp_value_core.specs.View.{view};
ghost use Rattle.amqp_value_core.specs.Json.{json, JsonAllocates};

use crate::types::{AMQPType, LongString, ShortString, TryCopyError};
use crate::value::AMQPValue;
use serde_json::Value;
use std::alloc::{AllocError, Global};

impl AMQPValue {
    /// Converts a JSON value to a value of the type, or returns `None` if it isn't one.
    ///
    /// A number becomes a value of a type that holds it, and for `LongLongUInt` the `LongLongInt`
    /// of the same bits. A string becomes a `LongString`, or a `ShortString` if it has at most 255
    /// bytes; `true` and `false` become a `Boolean`, and `null` becomes `Void`. Nothing becomes a
    /// `Float`, a `Double`, a `DecimalValue`, a `ByteArray`, an array or a table. Only a string
    /// that isn't empty allocates.
    pub fn try_from(
        alloc: Global,
        value: &Value,
        amqp_type: AMQPType,
    ) -> Result<Option<AMQPValue>, AllocError>
        ensures ok { IfOk result (λ v. option_map view v ≡ json (document value.now) amqp_type) }
        ensures err { OnErr result (JsonAllocates (document value.now) amqp_type) }
    {
        match amqp_type {
            AMQPType::Boolean => Ok(boolean(value)),
            AMQPType::ShortShortInt => Ok(short_short_int(value)),
            AMQPType::ShortShortUInt => Ok(short_short_uint(value)),
            AMQPType::ShortInt => Ok(short_int(value)),
            AMQPType::ShortUInt => Ok(short_uint(value)),
            AMQPType::LongInt => Ok(long_int(value)),
            AMQPType::LongUInt => Ok(long_uint(value)),
            AMQPType::LongLongInt => Ok(long_long_int(value)),
            AMQPType::LongLongUInt => Ok(long_long_uint(value)),
            AMQPType::Timestamp => Ok(timestamp(value)),
            AMQPType::ShortString => short_string(alloc, value),
            AMQPType::LongString => long_string(alloc, value),
            AMQPType::Void => Ok(void(value)),
            AMQPType::Float
            | AMQPType::Double
            | AMQPType::DecimalValue
            | AMQPType::FieldArray
            | AMQPType::FieldTable
            | AMQPType::ByteArray => Ok(None),
        }
    }
}

fn boolean(value: &Value) -> Option<AMQPValue>
    ensures { option_map view result ≡ json (document value.now) amqp.Boolean }
{
    Some(AMQPValue::Boolean(value.as_bool()?))
}

fn short_short_int(value: &Value) -> Option<AMQPValue>
    ensures { option_map view result ≡ json (document value.now) amqp.ShortShortInt }
{
    Some(AMQPValue::ShortShortInt(i8::try_from(value.as_i64()?).ok()?))
}

fn short_short_uint(value: &Value) -> Option<AMQPValue>
    ensures { option_map view result ≡ json (document value.now) amqp.ShortShortUInt }
{
    Some(AMQPValue::ShortShortUInt(u8::try_from(value.as_u64()?).ok()?))
}

fn short_int(value: &Value) -> Option<AMQPValue>
    ensures { option_map view result ≡ json (document value.now) amqp.ShortInt }
{
    Some(AMQPValue::ShortInt(i16::try_from(value.as_i64()?).ok()?))
}

fn short_uint(value: &Value) -> Option<AMQPValue>
    ensures { option_map view result ≡ json (document value.now) amqp.ShortUInt }
{
    Some(AMQPValue::ShortUInt(u16::try_from(value.as_u64()?).ok()?))
}

fn long_int(value: &Value) -> Option<AMQPValue>
    ensures { option_map view result ≡ json (document value.now) amqp.LongInt }
{
    Some(AMQPValue::LongInt(i32::try_from(value.as_i64()?).ok()?))
}

fn long_uint(value: &Value) -> Option<AMQPValue>
    ensures { option_map view result ≡ json (document value.now) amqp.LongUInt }
{
    Some(AMQPValue::LongUInt(u32::try_from(value.as_u64()?).ok()?))
}

fn long_long_int(value: &Value) -> Option<AMQPValue>
    ensures { option_map view result ≡ json (document value.now) amqp.LongLongInt }
{
    Some(AMQPValue::LongLongInt(value.as_i64()?))
}

fn long_long_uint(value: &Value) -> Option<AMQPValue>
    ensures { option_map view result ≡ json (document value.now) amqp.LongLongUInt }
{
    Some(AMQPValue::LongLongInt(value.as_u64()?.cast_signed()))
}

fn timestamp(value: &Value) -> Option<AMQPValue>
    ensures { option_map view result ≡ json (document value.now) amqp.Timestamp }
{
    Some(AMQPValue::Timestamp(value.as_u64()?))
}

fn void(value: &Value) -> Option<AMQPValue>
    ensures { option_map view result ≡ json (document value.now) amqp.Void }
{
    value.as_null()?;
    Some(AMQPValue::Void)
}

fn short_string(alloc: Global, value: &Value) -> Result<Option<AMQPValue>, AllocError>
    ensures ok { IfOk result (λ v. option_map view v ≡ json (document value.now) amqp.ShortString) }
    ensures err { OnErr result (JsonAllocates (document value.now) amqp.ShortString) }
{
    let Some(text) = value.as_str() else {
        return Ok(None);
    };
    match ShortString::try_copy(alloc, text) {
        Ok(s) => Ok(Some(AMQPValue::ShortString(s))),
        Err(TryCopyError::TooLong(_)) => Ok(None),
        Err(TryCopyError::OutOfMemory) => Err(AllocError),
    }
}

fn long_string(alloc: Global, value: &Value) -> Result<Option<AMQPValue>, AllocError>
    ensures ok { IfOk result (λ v. option_map view v ≡ json (document value.now) amqp.LongString) }
    ensures err { OnErr result (JsonAllocates (document value.now) amqp.LongString) }
{
    match value.as_str() {
        Some(text) => Ok(Some(AMQPValue::LongString(LongString::from_text(alloc, text)?))),
        None => Ok(None),
    }
}
