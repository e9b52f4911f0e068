//! Generators of type tags ([`gen_type`]) and of payloads of fixed width: booleans, numbers,
//! decimals, timestamps.

ghost use Rattle.std.specs.Prelude.{[], ◌∷◌};
ghost use Rattle.std.specs.Int.{w8, w16, w32, w64, to_be_bytes, cast_unsigned};
ghost use Rattle.amqp_value_core.specs.Values.{boolean, decimal};
ghost use Rattle.amqp_value_core.specs.Ids.{id_of};
ghost use Rattle.amqp_value_core.specs.Layouts.{spelled};
ghost use Rattle.amqp_value_core.specs.View.{float_bits, double_bits};
ghost use Rattle.amq_protocol_types.specs.generation.Contexts.{AppendsThrough, KeepsStart};

use crate::generation::{GenResult, Output, WriteContext};
use amqp_value_core::types::{
    AMQPType, Boolean, DecimalValue, Double, Float, Identifier, LongInt, LongLongInt, LongLongUInt,
    LongUInt, ShortInt, ShortShortInt, ShortShortUInt, ShortUInt, Timestamp,
};

/// Writes the type tag of the type, one byte: `l` for `LongLongUInt`, and `_`, which no parser
/// accepts, for `ShortString`.
pub fn gen_type<W: Output>(t: AMQPType, x: &mut WriteContext<W>) -> GenResult
    ensures put { AppendsThrough W.is_buffer W.seen (id_of t ∷ []) x.old result x.new }
    ensures start { KeepsStart x.old x.new }
{
    x.put(&[t.get_id() as u8])
}

/// Writes the number of a class or of a method in two bytes, big-endian.
pub fn gen_id<W: Output>(n: Identifier, x: &mut WriteContext<W>) -> GenResult
    ensures put { AppendsThrough W.is_buffer W.seen (to_be_bytes w16 n) x.old result x.new }
    ensures start { KeepsStart x.old x.new }
{
    gen_short_uint(n, x)
}

/// Writes a boolean in one byte: true as 1, false as 0.
pub fn gen_boolean<W: Output>(b: Boolean, x: &mut WriteContext<W>) -> GenResult
    ensures put { AppendsThrough W.is_buffer W.seen (spelled (boolean b)) x.old result x.new }
    ensures start { KeepsStart x.old x.new }
{
    x.put(&[u8::from(b)])
}

/// Writes a signed integer in one byte, in two's complement.
pub fn gen_short_short_int<W: Output>(n: ShortShortInt, x: &mut WriteContext<W>) -> GenResult
    ensures put { AppendsThrough W.is_buffer W.seen (to_be_bytes w8 (cast_unsigned w8 n))
        x.old result x.new }
    ensures start { KeepsStart x.old x.new }
{
    x.put(&i8::to_be_bytes(n))
}

/// Writes an unsigned integer in one byte.
pub fn gen_short_short_uint<W: Output>(n: ShortShortUInt, x: &mut WriteContext<W>) -> GenResult
    ensures put { AppendsThrough W.is_buffer W.seen (to_be_bytes w8 n) x.old result x.new }
    ensures start { KeepsStart x.old x.new }
{
    x.put(&u8::to_be_bytes(n))
}

/// Writes a signed integer in two bytes, big-endian.
pub fn gen_short_int<W: Output>(n: ShortInt, x: &mut WriteContext<W>) -> GenResult
    ensures put { AppendsThrough W.is_buffer W.seen (to_be_bytes w16 (cast_unsigned w16 n))
        x.old result x.new }
    ensures start { KeepsStart x.old x.new }
{
    x.put(&i16::to_be_bytes(n))
}

/// Writes an unsigned integer in two bytes, big-endian.
pub fn gen_short_uint<W: Output>(n: ShortUInt, x: &mut WriteContext<W>) -> GenResult
    ensures put { AppendsThrough W.is_buffer W.seen (to_be_bytes w16 n) x.old result x.new }
    ensures start { KeepsStart x.old x.new }
{
    x.put(&u16::to_be_bytes(n))
}

/// Writes a signed integer in four bytes, big-endian.
pub fn gen_long_int<W: Output>(n: LongInt, x: &mut WriteContext<W>) -> GenResult
    ensures put { AppendsThrough W.is_buffer W.seen (to_be_bytes w32 (cast_unsigned w32 n))
        x.old result x.new }
    ensures start { KeepsStart x.old x.new }
{
    x.put(&i32::to_be_bytes(n))
}

/// Writes an unsigned integer in four bytes, big-endian.
pub fn gen_long_uint<W: Output>(n: LongUInt, x: &mut WriteContext<W>) -> GenResult
    ensures put { AppendsThrough W.is_buffer W.seen (to_be_bytes w32 n) x.old result x.new }
    ensures start { KeepsStart x.old x.new }
{
    x.put(&u32::to_be_bytes(n))
}

/// Writes a signed integer in eight bytes, big-endian.
pub fn gen_long_long_int<W: Output>(n: LongLongInt, x: &mut WriteContext<W>) -> GenResult
    ensures put { AppendsThrough W.is_buffer W.seen (to_be_bytes w64 (cast_unsigned w64 n))
        x.old result x.new }
    ensures start { KeepsStart x.old x.new }
{
    x.put(&i64::to_be_bytes(n))
}

/// Writes an unsigned integer in eight bytes, big-endian.
pub fn gen_long_long_uint<W: Output>(n: LongLongUInt, x: &mut WriteContext<W>) -> GenResult
    ensures put { AppendsThrough W.is_buffer W.seen (to_be_bytes w64 n) x.old result x.new }
    ensures start { KeepsStart x.old x.new }
{
    x.put(&u64::to_be_bytes(n))
}

/// Writes the bits of a floating-point number in four bytes, big-endian. The bits of a NaN are
/// kept.
pub fn gen_float<W: Output>(f: Float, x: &mut WriteContext<W>) -> GenResult
    ensures put { AppendsThrough W.is_buffer W.seen (to_be_bytes w32 (float_bits f))
        x.old result x.new }
    ensures start { KeepsStart x.old x.new }
{
    gen_long_uint(f.to_bits(), x)
}

/// Writes the bits of a floating-point number in eight bytes, big-endian. The bits of a NaN are
/// kept.
pub fn gen_double<W: Output>(f: Double, x: &mut WriteContext<W>) -> GenResult
    ensures put { AppendsThrough W.is_buffer W.seen (to_be_bytes w64 (double_bits f))
        x.old result x.new }
    ensures start { KeepsStart x.old x.new }
{
    gen_long_long_uint(f.to_bits(), x)
}

/// Writes a time, in seconds since 1970, in eight bytes, big-endian.
pub fn gen_timestamp<W: Output>(n: Timestamp, x: &mut WriteContext<W>) -> GenResult
    ensures put { AppendsThrough W.is_buffer W.seen (to_be_bytes w64 n) x.old result x.new }
    ensures start { KeepsStart x.old x.new }
{
    gen_long_long_uint(n, x)
}

/// Writes a decimal number: its scale in one byte, then its digits as an unsigned integer in four
/// bytes, big-endian.
pub fn gen_decimal_value<W: Output>(d: DecimalValue, x: &mut WriteContext<W>) -> GenResult
    ensures put { AppendsThrough W.is_buffer W.seen (spelled (decimal d.scale d.value))
        x.old result x.new }
    ensures start { KeepsStart x.old x.new }
{
    let [a, b, c, e] = u32::to_be_bytes(d.value);
    x.put(&[d.scale, a, b, c, e])
}
