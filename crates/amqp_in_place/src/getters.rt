//! The getters of `ValueRef`: `get_type`, and `as_bool`, `as_long_int` and the like, which return
//! what a value of their type holds.

use super::refs::{ArrayRef, TableRef, ValueRef};
use amqp_value_core::types::{
    AMQPType, Boolean, DecimalValue, Double, Float, LongInt, LongLongInt, LongUInt, ShortInt,
    ShortShortInt, ShortShortUInt, ShortUInt, Timestamp,
};

/// Getters. None of them converts: `as_long_int` returns `None` for a `ShortInt`. None allocates:
/// strings, byte arrays and containers are borrowed from the encoding.
impl<'a> ValueRef<'a> {
    ghost use Rattle.std.specs.Prelude.{◌≡◌, option_map, is_some};
    ghost use Rattle.std.specs.Int.{w8, w16, w32, w64, cast_unsigned};
    ghost use Rattle.amqp_value_core.specs.declared.types.amqp_type.AMQPType.TheVariants as amqp;
    ghost use Rattle.amqp_value_core.specs.View.{float_bits, double_bits};
    ghost use Rattle.amqp_value_core.specs.Values.{Tree, type_of};
    ghost use Rattle.amqp_value_core.specs.Getters.{truth_in, number_in, decimal_in, long_in, octets_in, array_in, table_in, is_void};
    ghost use Rattle.amqp_in_place.specs.Refs.{Denotes, ArrayIs, TableIs, array_body, table_body, array_bytes, table_bytes};

    /// Returns the type of the value. It is never `ShortString` or `LongLongUInt`, which have no
    /// type tag.
    pub fn get_type(self) -> AMQPType
        ensures { (v : Tree) → Denotes self.entry v → result ≡ type_of v }
    {
        match self {
            ValueRef::Boolean(_) => AMQPType::Boolean,
            ValueRef::ShortShortInt(_) => AMQPType::ShortShortInt,
            ValueRef::ShortShortUInt(_) => AMQPType::ShortShortUInt,
            ValueRef::ShortInt(_) => AMQPType::ShortInt,
            ValueRef::ShortUInt(_) => AMQPType::ShortUInt,
            ValueRef::LongInt(_) => AMQPType::LongInt,
            ValueRef::LongUInt(_) => AMQPType::LongUInt,
            ValueRef::LongLongInt(_) => AMQPType::LongLongInt,
            ValueRef::Float(_) => AMQPType::Float,
            ValueRef::Double(_) => AMQPType::Double,
            ValueRef::DecimalValue(_) => AMQPType::DecimalValue,
            ValueRef::LongString(_) => AMQPType::LongString,
            ValueRef::FieldArray(_) => AMQPType::FieldArray,
            ValueRef::Timestamp(_) => AMQPType::Timestamp,
            ValueRef::FieldTable(_) => AMQPType::FieldTable,
            ValueRef::ByteArray(_) => AMQPType::ByteArray,
            ValueRef::Void => AMQPType::Void,
        }
    }

    /// Returns the boolean, or `None` if the value isn't a `Boolean`.
    pub fn as_bool(self) -> Option<Boolean>
        ensures { (v : Tree) → Denotes self.entry v → result ≡ truth_in v }
    {
        match self {
            ValueRef::Boolean(b) => Some(b),
            _ => None,
        }
    }

    /// Returns the signed integer of 8 bits, or `None` if the value isn't a `ShortShortInt`.
    pub fn as_short_short_int(self) -> Option<ShortShortInt>
        ensures { (v : Tree) → Denotes self.entry v
            → option_map (cast_unsigned w8) result ≡ number_in amqp.ShortShortInt v }
    {
        match self {
            ValueRef::ShortShortInt(n) => Some(n),
            _ => None,
        }
    }

    /// Returns the unsigned integer of 8 bits, or `None` if the value isn't a `ShortShortUInt`.
    pub fn as_short_short_uint(self) -> Option<ShortShortUInt>
        ensures { (v : Tree) → Denotes self.entry v → result ≡ number_in amqp.ShortShortUInt v }
    {
        match self {
            ValueRef::ShortShortUInt(n) => Some(n),
            _ => None,
        }
    }

    /// Returns the signed integer of 16 bits, or `None` if the value isn't a `ShortInt`.
    pub fn as_short_int(self) -> Option<ShortInt>
        ensures { (v : Tree) → Denotes self.entry v
            → option_map (cast_unsigned w16) result ≡ number_in amqp.ShortInt v }
    {
        match self {
            ValueRef::ShortInt(n) => Some(n),
            _ => None,
        }
    }

    /// Returns the unsigned integer of 16 bits, or `None` if the value isn't a `ShortUInt`.
    pub fn as_short_uint(self) -> Option<ShortUInt>
        ensures { (v : Tree) → Denotes self.entry v → result ≡ number_in amqp.ShortUInt v }
    {
        match self {
            ValueRef::ShortUInt(n) => Some(n),
            _ => None,
        }
    }

    /// Returns the signed integer of 32 bits, or `None` if the value isn't a `LongInt`.
    pub fn as_long_int(self) -> Option<LongInt>
        ensures { (v : Tree) → Denotes self.entry v
            → option_map (cast_unsigned w32) result ≡ number_in amqp.LongInt v }
    {
        match self {
            ValueRef::LongInt(n) => Some(n),
            _ => None,
        }
    }

    /// Returns the unsigned integer of 32 bits, or `None` if the value isn't a `LongUInt`.
    pub fn as_long_uint(self) -> Option<LongUInt>
        ensures { (v : Tree) → Denotes self.entry v → result ≡ number_in amqp.LongUInt v }
    {
        match self {
            ValueRef::LongUInt(n) => Some(n),
            _ => None,
        }
    }

    /// Returns the signed integer of 64 bits, or `None` if the value isn't a `LongLongInt`.
    pub fn as_long_long_int(self) -> Option<LongLongInt>
        ensures { (v : Tree) → Denotes self.entry v
            → option_map (cast_unsigned w64) result ≡ number_in amqp.LongLongInt v }
    {
        match self {
            ValueRef::LongLongInt(n) => Some(n),
            _ => None,
        }
    }

    /// Returns the floating-point number of 32 bits, or `None` if the value isn't a `Float`.
    pub fn as_float(self) -> Option<Float>
        ensures { (v : Tree) → Denotes self.entry v
            → option_map float_bits result ≡ number_in amqp.Float v }
    {
        match self {
            ValueRef::Float(n) => Some(n),
            _ => None,
        }
    }

    /// Returns the floating-point number of 64 bits, or `None` if the value isn't a `Double`.
    pub fn as_double(self) -> Option<Double>
        ensures { (v : Tree) → Denotes self.entry v
            → option_map double_bits result ≡ number_in amqp.Double v }
    {
        match self {
            ValueRef::Double(n) => Some(n),
            _ => None,
        }
    }

    /// Returns the decimal number, or `None` if the value isn't a `DecimalValue`.
    pub fn as_decimal_value(self) -> Option<DecimalValue>
        ensures { (v : Tree) → Denotes self.entry v
            → option_map (λ d. (d.scale, d.value)) result ≡ decimal_in v }
    {
        match self {
            ValueRef::DecimalValue(n) => Some(n),
            _ => None,
        }
    }

    /// Returns the bytes of the string, which may not be UTF-8, or `None` if the value isn't a
    /// `LongString`.
    pub fn as_long_string(self) -> Option<&'a [u8]>
        ensures { (v : Tree) → Denotes self.entry v → option_map (λ s. s.now) result ≡ long_in v }
    {
        match self {
            ValueRef::LongString(s) => Some(s),
            _ => None,
        }
    }

    /// Returns the array, or `None` if the value isn't a `FieldArray`.
    pub fn as_array(self) -> Option<ArrayRef<'a>>
        ensures value { (v : Tree) → Denotes self.entry v → ArrayIs (array_in v) result }
        ensures bytes { option_map array_body result ≡ array_bytes self.entry }
    {
        match self {
            ValueRef::FieldArray(a) => Some(a),
            _ => None,
        }
    }

    /// Returns the time in seconds since 1970, or `None` if the value isn't a `Timestamp`.
    pub fn as_timestamp(self) -> Option<Timestamp>
        ensures { (v : Tree) → Denotes self.entry v → result ≡ number_in amqp.Timestamp v }
    {
        match self {
            ValueRef::Timestamp(n) => Some(n),
            _ => None,
        }
    }

    /// Returns the table, or `None` if the value isn't a `FieldTable`.
    pub fn as_field_table(self) -> Option<TableRef<'a>>
        ensures value { (v : Tree) → Denotes self.entry v → TableIs (table_in v) result }
        ensures bytes { option_map table_body result ≡ table_bytes self.entry }
    {
        match self {
            ValueRef::FieldTable(t) => Some(t),
            _ => None,
        }
    }

    /// Returns the bytes, or `None` if the value isn't a `ByteArray`.
    pub fn as_byte_array(self) -> Option<&'a [u8]>
        ensures { (v : Tree) → Denotes self.entry v
            → option_map (λ s. s.now) result ≡ octets_in v }
    {
        match self {
            ValueRef::ByteArray(a) => Some(a),
            _ => None,
        }
    }

    /// Returns `Some(())` if the value is `Void`, and `None` if it has another type.
    pub fn as_void(self) -> Option<()>
        ensures { (v : Tree) → Denotes self.entry v → is_some result ≡ is_void v }
    {
        match self {
            ValueRef::Void => Some(()),
            _ => None,
        }
    }
}
