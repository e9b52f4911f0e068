//! [`gen_value`] and [`gen_raw_value`], which write a value with and without its type tag, and the
//! generators of arrays and tables. `scalars.rt` and `strings.rt` write all other payloads.

ghost use Rattle.std.specs.Prelude.{◌+◌, ◌≤◌, ℕ, List, [], ◌∷◌, ◌++◌, length, true, OnOk};
ghost use Rattle.amqp_value_core.specs.Values.{array, table, type_of};
ghost use Rattle.amqp_value_core.specs.View.{view};
ghost use Rattle.amqp_value_core.specs.Containers.{array_view, table_view};
ghost use Rattle.amqp_value_core.specs.Ids.{id_of};
ghost use Rattle.amqp_value_core.specs.Bytes.{IsShort};
ghost use Rattle.amqp_value_core.specs.Grammar.{short_field};
ghost use Rattle.amqp_value_core.specs.Texts.{text, Fits, payload};
ghost use Rattle.amqp_value_core.specs.InMemory.{IsValue};
ghost use Rattle.amq_protocol_types.specs.generation.Outputs.{Writes};
ghost use Rattle.amq_protocol_types.specs.generation.BufferOutput.{PatchesLength};
ghost use Rattle.amq_protocol_types.specs.generation.Written.{WritesWhatWasRead, WritesPayloadRead, IsReadBackAndCanonical, IsPayloadReadBack, IsPayloadCanonical, IsShortestAndUnique};
ghost use Rattle.amq_protocol_types.specs.generation.Contexts.{state_of, KeepsStart};

use crate::generation::{
    BackToTheBuffer, GenError, GenResult, WriteContext, gen_boolean, gen_byte_array,
    gen_decimal_value, gen_long_int, gen_long_long_int, gen_long_long_uint, gen_long_string,
    gen_long_uint, gen_short_int, gen_short_short_int, gen_short_short_uint, gen_short_string,
    gen_short_uint, gen_timestamp, gen_type,
};
use amqp_value_core::types::{AMQPType, DecimalValue, FieldArray, FieldTable, ShortString};
use amqp_value_core::value::AMQPValue;

/// Writes a value: its type tag, then its payload.
///
/// What is written is the value's canonical encoding: a shortest one, which no other value has. For
/// a value that was parsed, a buffer as long as the bytes it was parsed from is enough. A value
/// that holds a `ShortString`, except as a key, has no encoding: it is written with the byte `_` as
/// type tag, and the parsers reject it.
///
/// Returns `LengthTooLong` if a string or the body of a container has more than 4294967295 bytes,
/// and the output's error if the output fails. It uses stack for each level of nesting.
pub fn gen_value<W: BackToTheBuffer>(v: &AMQPValue, x: &mut WriteContext<W>) -> GenResult
    ensures written { Writes true (Fits (view v.now)) (text (view v.now))
        (state_of W.seen x.old) result (state_of W.seen x.new) }
    ensures start { KeepsStart x.old x.new }
    ensures fits_input_size { WritesWhatWasRead (view v.now) (state_of W.seen x.old) result }
    ensures encoding { IsShortestAndUnique (view v.now) }
    ensures ok { OnOk result (IsReadBackAndCanonical (view v.now)) }
{
    write_value(v, x)
}

// Writes a value, for `gen_value` and for the containers that it is in.
#[cycle(values)]
#[inline(always)]
fn write_value<W: BackToTheBuffer>(v: &AMQPValue, x: &mut WriteContext<W>) -> GenResult
    ensures written { Writes true (Fits (view v.now)) (text (view v.now))
        (state_of W.seen x.old) result (state_of W.seen x.new) }
    ensures start { KeepsStart x.old x.new }
    ensures value { OnOk result (IsValue (view v.now)) }
{
    let at = x.at();
    gen_type(v.get_type(), x)?;
    if let Err(e) = gen_raw_value(v, x) {
        x.back_to(at);
        return Err(e);
    }
    Ok(())
}

/// Writes a value's payload, without its type tag. Errors and memory are as in `gen_value`.
#[cycle(values)]
#[inline(always)]
pub fn gen_raw_value<W: BackToTheBuffer>(v: &AMQPValue, x: &mut WriteContext<W>) -> GenResult
    ensures written { Writes true (Fits (view v.now)) (payload (view v.now))
        (state_of W.seen x.old) result (state_of W.seen x.new) }
    ensures start { KeepsStart x.old x.new }
    ensures value { OnOk result (IsValue (view v.now)) }
{
    match v {
        AMQPValue::Boolean(b) => gen_boolean(*b, x),
        AMQPValue::ShortShortInt(n) => gen_short_short_int(*n, x),
        AMQPValue::ShortShortUInt(n) => gen_short_short_uint(*n, x),
        AMQPValue::ShortInt(n) => gen_short_int(*n, x),
        AMQPValue::ShortUInt(n) => gen_short_uint(*n, x),
        AMQPValue::LongInt(n) => gen_long_int(*n, x),
        AMQPValue::LongUInt(n) => gen_long_uint(*n, x),
        AMQPValue::LongLongInt(n) => gen_long_long_int(*n, x),
        AMQPValue::Float(f) => gen_long_uint(f.to_bits(), x),
        AMQPValue::Double(f) => gen_long_long_uint(f.to_bits(), x),
        AMQPValue::DecimalValue(d) => {
            // each part read on its own is known to be in its range
            let DecimalValue { scale, value } = d;
            let (scale, value) = (*scale, *value);
            gen_decimal_value(DecimalValue { scale, value }, x)
        }
        AMQPValue::ShortString(s) => gen_short_string(s.as_str(), x),
        AMQPValue::LongString(s) => gen_long_string(s.as_bytes(), x),
        AMQPValue::FieldArray(a) => Ok(gen_field_array(a, x)?),
        AMQPValue::Timestamp(n) => gen_timestamp(*n, x),
        AMQPValue::FieldTable(t) => Ok(gen_field_table(t, x)?),
        AMQPValue::ByteArray(a) => gen_byte_array(a, x),
        AMQPValue::Void => Ok(()),
    }
}

/// Writes an array: the length of its body in four bytes, big-endian, then its values, each after
/// its type tag. Returns `LengthTooLong` if the body, or a string in it, has more than 4294967295
/// bytes.
#[cycle(values)]
#[inline(never)]
pub fn gen_field_array<W: BackToTheBuffer>(a: &FieldArray, x: &mut WriteContext<W>) -> GenResult
    ensures written { Writes true (Fits (array (array_view a.now)))
        (payload (array (array_view a.now)))
        (state_of W.seen x.old) result (state_of W.seen x.new) }
    ensures start { KeepsStart x.old x.new }
    ensures value { OnOk result (IsValue (array (array_view a.now))) }
    ensures read_back { OnOk result
        (IsPayloadReadBack AMQPType.FieldArray (array (array_view a.now))) }
    ensures canonical { OnOk result
        (IsPayloadCanonical AMQPType.FieldArray (array (array_view a.now))) }
    ensures fits_input_size { WritesPayloadRead AMQPType.FieldArray (array (array_view a.now))
        (state_of W.seen x.old) result }
{
    let at = x.reserve(4)?;
    for v in a.as_slice() {
        if let Err(e) = write_value(v, x) {
            x.back_to(at);
            return Err(e);
        }
    }
    fill_length(at, x)
}

/// Writes a table: the length of its body in four bytes, big-endian, then its entries, each its key
/// as a short string and its value after its type tag, sorted by the keys' bytes. Returns
/// `LengthTooLong` if the body, or a string in it, has more than 4294967295 bytes.
#[cycle(values)]
#[inline(never)]
pub fn gen_field_table<W: BackToTheBuffer>(t: &FieldTable, x: &mut WriteContext<W>) -> GenResult
    ensures written { Writes true (Fits (table (table_view t.now)))
        (payload (table (table_view t.now)))
        (state_of W.seen x.old) result (state_of W.seen x.new) }
    ensures start { KeepsStart x.old x.new }
    ensures value { OnOk result (IsValue (table (table_view t.now))) }
    ensures read_back { OnOk result
        (IsPayloadReadBack AMQPType.FieldTable (table (table_view t.now))) }
    ensures canonical { OnOk result
        (IsPayloadCanonical AMQPType.FieldTable (table (table_view t.now))) }
    ensures fits_input_size { WritesPayloadRead AMQPType.FieldTable (table (table_view t.now))
        (state_of W.seen x.old) result }
{
    let at = x.reserve(4)?;
    for (k, v) in t.inner().iter() {
        if let Err(e) = gen_entry(k, v, x) {
            x.back_to(at);
            return Err(e);
        }
    }
    fill_length(at, x)
}

// Writes a key as a short string, then the type tag of its value.
#[inline(always)]
fn gen_key<W: BackToTheBuffer>(k: &str, v: &AMQPValue, x: &mut WriteContext<W>) -> GenResult
    ensures written { Writes true (length k.now ≤ 255) (short_field k.now ++ id_of (type_of (view v.now)) ∷ [])
        (state_of W.seen x.old) result (state_of W.seen x.new) }
    ensures start { KeepsStart x.old x.new }
{
    let tag = v.get_type().get_id() as u8;
    if k.len() > 255 {
        return Err(GenError::LengthTooLong);
    }
    x.put_three(&[k.len() as u8], k.as_bytes(), tag)
}

// Writes an entry of a table: its key as a short string, then its value with its type tag.
#[cycle(values)]
#[inline(always)]
fn gen_entry<W: BackToTheBuffer>(
    k: &ShortString,
    v: &AMQPValue,
    x: &mut WriteContext<W>,
) -> GenResult
    ensures written { Writes true (Fits (view v.now)) (short_field k.now ++ text (view v.now))
        (state_of W.seen x.old) result (state_of W.seen x.new) }
    ensures start { KeepsStart x.old x.new }
    ensures key { IsShort k.now }
    ensures value { OnOk result (IsValue (view v.now)) }
{
    let at = x.at();
    gen_key(k.as_str(), v, x)?;
    if let Err(e) = gen_raw_value(v, x) {
        x.back_to(at);
        return Err(e);
    }
    Ok(())
}

// Fills in how many bytes are after the four from `at` on, or takes all from `at` on back.
pub(super) fn fill_length<W: BackToTheBuffer>(at: u64, x: &mut WriteContext<W>) -> GenResult
    requires { at + 4 ≤ (state_of W.seen x.old).position }
    ensures filled { PatchesLength at (state_of W.seen x.old) result (state_of W.seen x.new) }
    ensures start { KeepsStart x.old x.new }
{
    let n = x.at() - at - 4;
    if n > 0xffff_ffff {
        x.back_to(at);
        return Err(GenError::LengthTooLong);
    }
    x.fill(at, &u32::to_be_bytes(n as u32));
    Ok(())
}
