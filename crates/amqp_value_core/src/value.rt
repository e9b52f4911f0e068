//! `AMQPValue`: a value of a field table or array, with a variant for each type. Most of its
//! methods are in `conversions`.

use crate::types::{
    AMQPType, Boolean, ByteArray, DecimalValue, Double, FieldArray, FieldTable, Float, LongInt,
    LongLongInt, LongString, LongUInt, ShortInt, ShortShortInt, ShortShortUInt, ShortString,
    ShortUInt, Timestamp,
};

/// A value of a table or an array, with its type (AMQP 0-9-1, section 4.2.5.5, by RabbitMQ's
/// errata).
///
/// `==` compares types and contents: an integer of 8 bits never equals one of 16. A value isn't
/// `Clone`, since a copy may need memory: use the method `clone`.
#[cycle(values)]
#[derive(Debug, Drop)]
pub enum AMQPValue {
    /// A boolean.
    Boolean(Boolean),
    /// A signed integer of 8 bits.
    ShortShortInt(ShortShortInt),
    /// An unsigned integer of 8 bits.
    ShortShortUInt(ShortShortUInt),
    /// A signed integer of 16 bits.
    ShortInt(ShortInt),
    /// An unsigned integer of 16 bits.
    ShortUInt(ShortUInt),
    /// A signed integer of 32 bits.
    LongInt(LongInt),
    /// An unsigned integer of 32 bits.
    LongUInt(LongUInt),
    /// A signed integer of 64 bits.
    LongLongInt(LongLongInt),
    /// A floating-point number of 32 bits.
    Float(Float),
    /// A floating-point number of 64 bits.
    Double(Double),
    /// A decimal number: an unsigned integer and the place of its decimal point.
    DecimalValue(DecimalValue),
    /// A string of at most 255 bytes. It can be written, but the parsers reject what is written.
    ShortString(ShortString),
    /// Arbitrary bytes, which most peers take for a string.
    LongString(LongString),
    /// A list of values, each with its type.
    FieldArray(FieldArray),
    /// A time, in seconds since 1970. The parsers accept every number of 64 bits.
    Timestamp(Timestamp),
    /// A map from short strings to values, each with its type.
    FieldTable(FieldTable),
    /// Arbitrary bytes.
    ByteArray(ByteArray),
    /// No value.
    Void,
}

impl AMQPValue {
    ghost use Rattle.std.specs.Prelude.{◌≡◌};
    ghost use Rattle.amqp_value_core.specs.View.{view};
    ghost use Rattle.amqp_value_core.specs.Values.{type_of};

    /// Returns the type of the value. It is never `LongLongUInt`, which has no variant here.
    pub fn get_type(&self) -> AMQPType
        ensures { result ≡ type_of (view self.now) }
    {
        match self {
            AMQPValue::Boolean(_) => AMQPType::Boolean,
            AMQPValue::ShortShortInt(_) => AMQPType::ShortShortInt,
            AMQPValue::ShortShortUInt(_) => AMQPType::ShortShortUInt,
            AMQPValue::ShortInt(_) => AMQPType::ShortInt,
            AMQPValue::ShortUInt(_) => AMQPType::ShortUInt,
            AMQPValue::LongInt(_) => AMQPType::LongInt,
            AMQPValue::LongUInt(_) => AMQPType::LongUInt,
            AMQPValue::LongLongInt(_) => AMQPType::LongLongInt,
            AMQPValue::Float(_) => AMQPType::Float,
            AMQPValue::Double(_) => AMQPType::Double,
            AMQPValue::DecimalValue(_) => AMQPType::DecimalValue,
            AMQPValue::ShortString(_) => AMQPType::ShortString,
            AMQPValue::LongString(_) => AMQPType::LongString,
            AMQPValue::FieldArray(_) => AMQPType::FieldArray,
            AMQPValue::Timestamp(_) => AMQPType::Timestamp,
            AMQPValue::FieldTable(_) => AMQPType::FieldTable,
            AMQPValue::ByteArray(_) => AMQPType::ByteArray,
            AMQPValue::Void => AMQPType::Void,
        }
    }
}
