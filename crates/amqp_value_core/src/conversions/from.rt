//! `From` for `AMQPValue`: what a variant holds becomes that variant, and a `u64` becomes a
//! `Timestamp`.

ghost use Rattle.std.specs.Prelude.{◌≡◌};
ghost use Rattle.std.specs.Int.{w8, w16, w32, w64, cast_unsigned};
ghost use Rattle.amqp_value_core.specs.View.{float_bits, double_bits, long_bytes, octets_of, view};
ghost use Rattle.amqp_value_core.specs.declared.types.amqp_type.AMQPType.TheVariants as amqp;
ghost use Rattle.amqp_value_core.specs.Values.{boolean, number, decimal, scalar, short, long, octets, array, table};
ghost use Rattle.amqp_value_core.specs.Containers.{array_view, table_view};

use crate::types::{
    ByteArray, DecimalValue, Double, FieldArray, FieldTable, Float, LongString, ShortString,
};
use crate::value::AMQPValue;

impl From<bool> for AMQPValue {
    ghost from_gives = { λ b value. view value ≡ scalar (boolean b) };

    fn from(field: bool) -> AMQPValue {
        AMQPValue::Boolean(field)
    }
}

impl From<i8> for AMQPValue {
    ghost from_gives = { λ z value. view value ≡ scalar (number amqp.ShortShortInt (cast_unsigned w8 z)) };

    fn from(field: i8) -> AMQPValue {
        AMQPValue::ShortShortInt(field)
    }
}

impl From<u8> for AMQPValue {
    ghost from_gives = { λ n value. view value ≡ scalar (number amqp.ShortShortUInt n) };

    fn from(field: u8) -> AMQPValue {
        AMQPValue::ShortShortUInt(field)
    }
}

impl From<i16> for AMQPValue {
    ghost from_gives = { λ z value. view value ≡ scalar (number amqp.ShortInt (cast_unsigned w16 z)) };

    fn from(field: i16) -> AMQPValue {
        AMQPValue::ShortInt(field)
    }
}

impl From<u16> for AMQPValue {
    ghost from_gives = { λ n value. view value ≡ scalar (number amqp.ShortUInt n) };

    fn from(field: u16) -> AMQPValue {
        AMQPValue::ShortUInt(field)
    }
}

impl From<i32> for AMQPValue {
    ghost from_gives = { λ z value. view value ≡ scalar (number amqp.LongInt (cast_unsigned w32 z)) };

    fn from(field: i32) -> AMQPValue {
        AMQPValue::LongInt(field)
    }
}

impl From<u32> for AMQPValue {
    ghost from_gives = { λ n value. view value ≡ scalar (number amqp.LongUInt n) };

    fn from(field: u32) -> AMQPValue {
        AMQPValue::LongUInt(field)
    }
}

impl From<i64> for AMQPValue {
    ghost from_gives = { λ z value. view value ≡ scalar (number amqp.LongLongInt (cast_unsigned w64 z)) };

    fn from(field: i64) -> AMQPValue {
        AMQPValue::LongLongInt(field)
    }
}

impl From<Float> for AMQPValue {
    ghost from_gives = { λ f value. view value ≡ scalar (number amqp.Float (float_bits f)) };

    fn from(field: Float) -> AMQPValue {
        AMQPValue::Float(field)
    }
}

impl From<Double> for AMQPValue {
    ghost from_gives = { λ f value. view value ≡ scalar (number amqp.Double (double_bits f)) };

    fn from(field: Double) -> AMQPValue {
        AMQPValue::Double(field)
    }
}

impl From<DecimalValue> for AMQPValue {
    ghost from_gives = { λ d value. view value ≡ scalar (decimal d.scale d.value) };

    fn from(field: DecimalValue) -> AMQPValue {
        AMQPValue::DecimalValue(field)
    }
}

impl From<ShortString> for AMQPValue {
    ghost from_gives = { λ s value. view value ≡ short s };

    fn from(field: ShortString) -> AMQPValue {
        AMQPValue::ShortString(field)
    }
}

impl From<LongString> for AMQPValue {
    ghost from_gives = { λ s value. view value ≡ long (long_bytes s) };

    fn from(field: LongString) -> AMQPValue {
        AMQPValue::LongString(field)
    }
}

impl From<FieldArray> for AMQPValue {
    ghost from_gives = { λ a value. view value ≡ array (array_view a) };

    fn from(field: FieldArray) -> AMQPValue {
        AMQPValue::FieldArray(field)
    }
}

impl From<u64> for AMQPValue {
    ghost from_gives = { λ n value. view value ≡ scalar (number amqp.Timestamp n) };

    fn from(field: u64) -> AMQPValue {
        AMQPValue::Timestamp(field)
    }
}

impl From<FieldTable> for AMQPValue {
    ghost from_gives = { λ t value. view value ≡ table (table_view t) };

    fn from(field: FieldTable) -> AMQPValue {
        AMQPValue::FieldTable(field)
    }
}

impl From<ByteArray> for AMQPValue {
    ghost from_gives = { λ a value. view value ≡ octets (octets_of a) };

    fn from(field: ByteArray) -> AMQPValue {
        AMQPValue::ByteArray(field)
    }
}
