//! Generators, into a vector that has a mebibyte and no capacity for more, so that each call asks
//! for memory.

use super::flags::flags;
use super::inputs::{bytes, table, values};
use super::{Done, Unmade, done};
use amq_protocol_types::generation::{
    BackToTheBuffer, GenResult, Output, WriteContext, field_table_to_vec, gen_boolean,
    gen_byte_array, gen_decimal_value, gen_double, gen_field_array, gen_field_table, gen_flags,
    gen_float, gen_id, gen_long_int, gen_long_long_int, gen_long_long_uint, gen_long_string,
    gen_long_uint, gen_raw_value, gen_short_int, gen_short_short_int, gen_short_short_uint,
    gen_short_string, gen_short_uint, gen_timestamp, gen_type, gen_value, gen_with_len,
    tagged_field_table_to_vec, to_vec,
};
use amq_protocol_types::{
    AMQPType, AMQPValue, ByteArray, DecimalValue, Double, FieldArray, Float, LongString,
};
use std::alloc::Global;

/// A context over a vector.
type Context = WriteContext<Vec<u8>>;

/// Whether the call is done.
pub fn call(alloc: Global, name: &str) -> Done {
    let of_trait = name.strip_prefix("VecU8").unwrap_or(name);
    if of_trait.starts_with("Output::") || of_trait.starts_with("BackToTheBuffer::") {
        return of_vector(alloc, of_trait);
    }
    if name.ends_with("to_vec") {
        return to_vector(alloc, name);
    }
    if name != "WriteContext::put" && !name.starts_with("gen_") {
        return Err(Unmade::Unknown);
    }
    let mut context = WriteContext::from(Vec::new(alloc));
    if context.put(bytes(alloc)?.as_slice()).is_err() {
        return Err(Unmade::NoInput);
    }
    match name {
        "gen_long_string" | "gen_byte_array" | "gen_with_len" | "WriteContext::put" => {
            of_bytes(alloc, name, &mut context)
        }
        "gen_flags" => done(gen_flags(&flags(alloc)?, &mut context)),
        "gen_value" | "gen_raw_value" | "gen_field_array" | "gen_field_table" => {
            of_values(alloc, name, &mut context)
        }
        _ => of_scalar(name, &mut context),
    }
}

/// A call that makes a vector.
fn to_vector(alloc: Global, name: &str) -> Done {
    match name {
        "to_vec" => {
            let value = AMQPValue::LongString(LongString::from(bytes(alloc)?));
            done(to_vec(alloc, &value))
        }
        "tagged_field_table_to_vec" => done(tagged_field_table_to_vec(alloc, &table(alloc)?)),
        "field_table_to_vec" => done(field_table_to_vec(alloc, &table(alloc)?)),
        _ => Err(Unmade::Unknown),
    }
}

/// A call of a vector that has a mebibyte.
fn of_vector(alloc: Global, name: &str) -> Done {
    let bytes = bytes(alloc)?;
    let mut vector = Vec::from_slice(alloc, bytes.as_slice())?;
    match name {
        "Output::put" => done(vector.put(bytes.as_slice())),
        "Output::make_room" => done(vector.make_room(bytes.len())),
        "Output::put_both" => done(vector.put_both(&[], bytes.as_slice())),
        "BackToTheBuffer::put_three" => done(vector.put_three(&[], bytes.as_slice(), 0)),
        "BackToTheBuffer::reserve" => done(vector.reserve(bytes.len())),
        _ => Err(Unmade::Unknown),
    }
}

fn of_bytes(alloc: Global, name: &str, x: &mut Context) -> Done {
    let bytes = bytes(alloc)?;
    match name {
        "gen_long_string" => done(gen_long_string(bytes.as_slice(), x)),
        "gen_byte_array" => done(gen_byte_array(&ByteArray::from(bytes), x)),
        "gen_with_len" => done(with_len(bytes.as_slice(), x)),
        _ => done(x.put(bytes.as_slice())),
    }
}

fn with_len<W: BackToTheBuffer>(bytes: &[u8], x: &mut WriteContext<W>) -> GenResult {
    gen_with_len(|x| x.put(bytes), x)
}

fn of_values(alloc: Global, name: &str, x: &mut Context) -> Done {
    match name {
        "gen_field_array" => done(gen_field_array(&FieldArray::from(values(alloc)?), x)),
        "gen_field_table" => done(gen_field_table(&table(alloc)?, x)),
        _ => of_value(alloc, name, x),
    }
}

fn of_value(alloc: Global, name: &str, x: &mut Context) -> Done {
    let value = AMQPValue::LongString(LongString::from(bytes(alloc)?));
    match name {
        "gen_value" => done(gen_value(&value, x)),
        _ => done(gen_raw_value(&value, x)),
    }
}

fn of_scalar(name: &str, x: &mut Context) -> Done {
    done(match name {
        "gen_type" => gen_type(AMQPType::Void, x),
        "gen_id" => gen_id(86, x),
        "gen_boolean" => gen_boolean(true, x),
        "gen_short_short_int" => gen_short_short_int(1, x),
        "gen_short_short_uint" => gen_short_short_uint(1, x),
        "gen_short_int" => gen_short_int(1, x),
        "gen_short_uint" => gen_short_uint(1, x),
        "gen_long_int" => gen_long_int(1, x),
        "gen_long_uint" => gen_long_uint(1, x),
        "gen_long_long_int" => gen_long_long_int(1, x),
        "gen_long_long_uint" => gen_long_long_uint(1, x),
        "gen_timestamp" => gen_timestamp(1, x),
        "gen_float" => gen_float(Float::from_bits(1), x),
        "gen_double" => gen_double(Double::from_bits(1), x),
        "gen_decimal_value" => gen_decimal_value(DecimalValue { scale: 1, value: 1 }, x),
        "gen_short_string" => gen_short_string("a", x),
        _ => return Err(Unmade::Unknown),
    })
}
