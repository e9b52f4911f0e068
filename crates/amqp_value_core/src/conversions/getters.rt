//! Getters of `AMQPValue`, such as `as_bool`: what a value of that type holds, or `None`.

use crate::types::{
    Boolean, ByteArray, DecimalValue, Double, FieldArray, FieldTable, Float, LongInt, LongLongInt,
    LongString, LongUInt, ShortInt, ShortShortInt, ShortShortUInt, ShortString, ShortUInt,
    Timestamp,
};
use crate::value::AMQPValue;

/// Getters. None of them converts or allocates: `as_long_int` returns `None` for a `ShortInt`, and
/// a string or container is borrowed from the value.
impl AMQPValue {
    ghost use Rattle.std.specs.Prelude.{◌≡◌, option_map, is_some};
    ghost use Rattle.std.specs.Int.{w8, w16, w32, w64, cast_unsigned};
    ghost use Rattle.amqp_value_core.specs.declared.types.amqp_type.AMQPType.TheVariants as amqp;
    ghost use Rattle.amqp_value_core.specs.View.{float_bits, double_bits, long_bytes, octets_of, view};
    ghost use Rattle.amqp_value_core.specs.Containers.{array_view, table_view};
    ghost use Rattle.amqp_value_core.specs.Getters.{truth_in, number_in, decimal_in, short_in, long_in, octets_in, array_in, table_in, is_void};

    /// Returns the boolean, or `None` if the value isn't a `Boolean`.
    pub fn as_bool(&self) -> Option<Boolean>
        ensures { result ≡ truth_in (view self.now) }
    {
        match self {
            AMQPValue::Boolean(b) => Some(*b),
            _ => None,
        }
    }

    /// Returns the signed integer of 8 bits, or `None` if the value isn't a `ShortShortInt`.
    pub fn as_short_short_int(&self) -> Option<ShortShortInt>
        ensures { option_map (cast_unsigned w8) result
            ≡ number_in amqp.ShortShortInt (view self.now) }
    {
        match self {
            AMQPValue::ShortShortInt(n) => Some(*n),
            _ => None,
        }
    }

    /// Returns the unsigned integer of 8 bits, or `None` if the value isn't a `ShortShortUInt`.
    pub fn as_short_short_uint(&self) -> Option<ShortShortUInt>
        ensures { result ≡ number_in amqp.ShortShortUInt (view self.now) }
    {
        match self {
            AMQPValue::ShortShortUInt(n) => Some(*n),
            _ => None,
        }
    }

    /// Returns the signed integer of 16 bits, or `None` if the value isn't a `ShortInt`.
    pub fn as_short_int(&self) -> Option<ShortInt>
        ensures { option_map (cast_unsigned w16) result
            ≡ number_in amqp.ShortInt (view self.now) }
    {
        match self {
            AMQPValue::ShortInt(n) => Some(*n),
            _ => None,
        }
    }

    /// Returns the unsigned integer of 16 bits, or `None` if the value isn't a `ShortUInt`.
    pub fn as_short_uint(&self) -> Option<ShortUInt>
        ensures { result ≡ number_in amqp.ShortUInt (view self.now) }
    {
        match self {
            AMQPValue::ShortUInt(n) => Some(*n),
            _ => None,
        }
    }

    /// Returns the signed integer of 32 bits, or `None` if the value isn't a `LongInt`.
    pub fn as_long_int(&self) -> Option<LongInt>
        ensures { option_map (cast_unsigned w32) result
            ≡ number_in amqp.LongInt (view self.now) }
    {
        match self {
            AMQPValue::LongInt(n) => Some(*n),
            _ => None,
        }
    }

    /// Returns the unsigned integer of 32 bits, or `None` if the value isn't a `LongUInt`.
    pub fn as_long_uint(&self) -> Option<LongUInt>
        ensures { result ≡ number_in amqp.LongUInt (view self.now) }
    {
        match self {
            AMQPValue::LongUInt(n) => Some(*n),
            _ => None,
        }
    }

    /// Returns the signed integer of 64 bits, or `None` if the value isn't a `LongLongInt`.
    pub fn as_long_long_int(&self) -> Option<LongLongInt>
        ensures { option_map (cast_unsigned w64) result
            ≡ number_in amqp.LongLongInt (view self.now) }
    {
        match self {
            AMQPValue::LongLongInt(n) => Some(*n),
            _ => None,
        }
    }

    /// Returns the floating-point number of 32 bits, or `None` if the value isn't a `Float`.
    pub fn as_float(&self) -> Option<Float>
        ensures { option_map float_bits result ≡ number_in amqp.Float (view self.now) }
    {
        match self {
            AMQPValue::Float(n) => Some(*n),
            _ => None,
        }
    }

    /// Returns the floating-point number of 64 bits, or `None` if the value isn't a `Double`.
    pub fn as_double(&self) -> Option<Double>
        ensures { option_map double_bits result ≡ number_in amqp.Double (view self.now) }
    {
        match self {
            AMQPValue::Double(n) => Some(*n),
            _ => None,
        }
    }

    /// Returns the decimal number, or `None` if the value isn't a `DecimalValue`.
    pub fn as_decimal_value(&self) -> Option<DecimalValue>
        ensures { option_map (λ d. (d.scale, d.value)) result ≡ decimal_in (view self.now) }
    {
        match self {
            AMQPValue::DecimalValue(n) => Some(*n),
            _ => None,
        }
    }

    /// Returns the string of at most 255 bytes, or `None` if the value isn't a `ShortString`. The
    /// strings in a parsed table or array are `LongString`s: use `as_long_string` for them.
    pub fn as_short_string(&self) -> Option<&ShortString>
        ensures { option_map (λ s. s.now) result ≡ short_in (view self.now) }
    {
        match self {
            AMQPValue::ShortString(s) => Some(s),
            _ => None,
        }
    }

    /// Returns the string, whose bytes may not be UTF-8, or `None` if the value isn't a
    /// `LongString`.
    pub fn as_long_string(&self) -> Option<&LongString>
        ensures { option_map (λ s. long_bytes s.now) result ≡ long_in (view self.now) }
    {
        match self {
            AMQPValue::LongString(s) => Some(s),
            _ => None,
        }
    }

    /// Returns the array, or `None` if the value isn't a `FieldArray`.
    pub fn as_array(&self) -> Option<&FieldArray>
        ensures { option_map (λ a. array_view a.now) result ≡ array_in (view self.now) }
    {
        match self {
            AMQPValue::FieldArray(a) => Some(a),
            _ => None,
        }
    }

    /// Returns the time in seconds since 1970, or `None` if the value isn't a `Timestamp`.
    pub fn as_timestamp(&self) -> Option<Timestamp>
        ensures { result ≡ number_in amqp.Timestamp (view self.now) }
    {
        match self {
            AMQPValue::Timestamp(n) => Some(*n),
            _ => None,
        }
    }

    /// Returns the table, or `None` if the value isn't a `FieldTable`.
    pub fn as_field_table(&self) -> Option<&FieldTable>
        ensures { option_map (λ t. table_view t.now) result ≡ table_in (view self.now) }
    {
        match self {
            AMQPValue::FieldTable(t) => Some(t),
            _ => None,
        }
    }

    /// Returns the bytes, or `None` if the value isn't a `ByteArray`.
    pub fn as_byte_array(&self) -> Option<&ByteArray>
        ensures { option_map (λ a. octets_of a.now) result ≡ octets_in (view self.now) }
    {
        match self {
            AMQPValue::ByteArray(a) => Some(a),
            _ => None,
        }
    }

    /// Returns `Some(())` if the value is `Void`, and `None` if it has another type.
    pub fn as_void(&self) -> Option<()>
        ensures { is_some result ≡ is_void (view self.now) }
    {
        match self {
            AMQPValue::Void => Some(()),
            _ => None,
        }
    }
}
