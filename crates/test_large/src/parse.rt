//! Calls of parsers, with a long string, a large array or a large table.

use super::inputs::{LIMITS, SHORT, array_body, bytes, encoding, payload, table_body};
use super::{Done, Unmade, done};
use amq_protocol_types::AMQPType;
use amq_protocol_types::parsing::{
    SliceInput, copy_of, parse_array_body, parse_byte_array, parse_field_array, parse_field_table,
    parse_long_string, parse_raw_value, parse_short_string, parse_table_body, parse_value,
};
use amq_protocol_types::stream::{
    parse_field_array_within, parse_field_table_within, parse_value_within,
};
use std::alloc::Global;

/// Whether the call is done.
pub fn call(alloc: Global, name: &str) -> Done {
    match name {
        "parse_short_string" => short_string(alloc),
        "copy_of" | "parse_long_string" | "parse_byte_array" => of_bytes(alloc, name),
        "parse_array_body" | "parse_field_array" | "parse_field_array_within" => {
            of_array(alloc, name)
        }
        "parse_table_body" | "parse_field_table" | "parse_field_table_within" => {
            of_table(alloc, name)
        }
        "parse_value" | "parse_value_within" => of_values(alloc, name),
        "parse_raw_value" => raw_values(alloc),
        _ => Err(Unmade::Unknown),
    }
}

fn short_string(alloc: Global) -> Done {
    let mut bytes = vec![in alloc; b'a'; SHORT]?;
    bytes.insert(0, 255)?;
    done(parse_short_string(alloc, SliceInput::new(bytes.as_slice())))
}

fn of_bytes(alloc: Global, name: &str) -> Done {
    let payload = payload(alloc, bytes(alloc)?.as_slice())?;
    let input = SliceInput::new(payload.as_slice());
    match name {
        "copy_of" => done(copy_of(alloc, input)),
        "parse_long_string" => done(parse_long_string(alloc, input)),
        _ => done(parse_byte_array(alloc, input)),
    }
}

fn of_array(alloc: Global, name: &str) -> Done {
    let body = array_body(alloc)?;
    let payload = payload(alloc, body.as_slice())?;
    let input = SliceInput::new(payload.as_slice());
    match name {
        "parse_array_body" => done(parse_array_body(alloc, SliceInput::new(body.as_slice()), 1)),
        "parse_field_array" => done(parse_field_array(alloc, input)),
        _ => done(parse_field_array_within(alloc, input, LIMITS)),
    }
}

fn of_table(alloc: Global, name: &str) -> Done {
    let body = table_body(alloc, true)?;
    let payload = payload(alloc, body.as_slice())?;
    let input = SliceInput::new(payload.as_slice());
    match name {
        "parse_table_body" => done(parse_table_body(alloc, SliceInput::new(body.as_slice()), 1)),
        "parse_field_table" => done(parse_field_table(alloc, input)),
        _ => done(parse_field_table_within(alloc, input, LIMITS)),
    }
}

/// A call with a long string, then with an array of many values.
fn of_values(alloc: Global, name: &str) -> Done {
    let string = encoding(alloc, b'S', bytes(alloc)?.as_slice())?;
    let array = encoding(alloc, b'A', array_body(alloc)?.as_slice())?;
    Ok(of_value(alloc, name, string.as_slice())? && of_value(alloc, name, array.as_slice())?)
}

fn of_value(alloc: Global, name: &str, bytes: &[u8]) -> Done {
    let input = SliceInput::new(bytes);
    match name {
        "parse_value" => done(parse_value(alloc, input)),
        _ => done(parse_value_within(alloc, input, LIMITS)),
    }
}

fn raw_values(alloc: Global) -> Done {
    let string = payload(alloc, bytes(alloc)?.as_slice())?;
    let array = payload(alloc, array_body(alloc)?.as_slice())?;
    Ok(
        raw_value(alloc, AMQPType::LongString, string.as_slice())?
            && raw_value(alloc, AMQPType::FieldArray, array.as_slice())?,
    )
}

fn raw_value(alloc: Global, amqp_type: AMQPType, bytes: &[u8]) -> Done {
    done(parse_raw_value(alloc, amqp_type, SliceInput::new(bytes)))
}
