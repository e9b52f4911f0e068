//! Calls of `AMQPValue`, `FieldArray` and `FieldTable`, with many values or many entries.

use super::inputs::{MANY, MUCH, SHORT, bytes, short_key_of, table, text, values};
use super::{Done, Unmade, done};
use amq_protocol_types::{AMQPType, AMQPValue, FieldArray, FieldTable, LongString};
use serde_json::Value;
use std::alloc::Global;

/// So many entries take a mebibyte with keys of 255 bytes. They come in an array, which is on the
/// stack.
const ENTRIES: usize = 4200;

/// Whether the call is done.
pub fn call(alloc: Global, name: &str) -> Done {
    match name {
        "AMQPValue::clone" => cloned_value(alloc),
        "AMQPValue::try_from" => of_json(alloc),
        "FieldArray::push" => pushed(alloc),
        "FieldArray::clone" => cloned_array(alloc),
        "FieldTable::insert" => inserted(alloc),
        "FieldTable::place" => placed(alloc),
        "FieldTable::from_pairs" => of_pairs(alloc),
        "FieldTable::from_entries" => of_entries(alloc),
        "FieldTable::clone" => done(table(alloc)?.clone(alloc)),
        _ => Err(Unmade::Unknown),
    }
}

fn cloned_value(alloc: Global) -> Done {
    let array = AMQPValue::FieldArray(FieldArray::from(values(alloc)?));
    let string = AMQPValue::LongString(LongString::from(bytes(alloc)?));
    Ok(array.clone(alloc).is_ok() && string.clone(alloc).is_ok())
}

fn of_json(alloc: Global) -> Done {
    let json = Value::String(text(alloc, MUCH)?);
    done(AMQPValue::try_from(alloc, &json, AMQPType::LongString))
}

fn pushed(alloc: Global) -> Done {
    let mut array = FieldArray::new_in(alloc);
    for _ in 0..MANY {
        if array.push(AMQPValue::Void).is_err() {
            return Ok(false);
        }
    }
    Ok(true)
}

fn cloned_array(alloc: Global) -> Done {
    let array = FieldArray::from(values(alloc)?);
    done(array.clone(alloc))
}

fn inserted(alloc: Global) -> Done {
    let mut table = FieldTable::new_in(alloc);
    for n in 0..MANY {
        let key = short_key_of(alloc, n)?;
        if table.insert(key, AMQPValue::Void).is_err() {
            return Ok(false);
        }
    }
    Ok(true)
}

fn placed(alloc: Global) -> Done {
    let mut table = FieldTable::new_in(alloc);
    for n in 0..MANY {
        let key = short_key_of(alloc, n)?;
        if table.place(key, AMQPValue::Void).is_err() {
            return Ok(false);
        }
    }
    Ok(true)
}

fn of_pairs(alloc: Global) -> Done {
    let mut pairs = Vec::new(alloc);
    for n in 0..MANY {
        pairs.push((short_key_of(alloc, n)?, AMQPValue::Void))?;
    }
    done(FieldTable::from_pairs(alloc, pairs))
}

fn of_entries(alloc: Global) -> Done {
    let key = text(alloc, SHORT)?;
    let key = key.as_str();
    let entries: [(&str, AMQPValue); ENTRIES] = std::array::from_fn(|_| (key, AMQPValue::Void));
    done(FieldTable::from_entries(alloc, entries))
}
