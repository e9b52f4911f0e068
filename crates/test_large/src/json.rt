//! Calls of amqp_json, with a long string or its JSON text.

use super::inputs::{LIMITS, MUCH, bytes, encoding, text};
use super::{Done, Unmade, done};
use amq_protocol_types::{AMQPValue, LongString};
use amqp_json::{encoding_of_json, encoding_of_json_within, from_json, json_of_encoding, to_json};
use std::alloc::Global;

/// Whether the call is done.
pub fn call(alloc: Global, name: &str) -> Done {
    match name {
        "to_json" => of_value(alloc),
        "json_of_encoding" => of_encoding(alloc),
        "encoding_of_json" | "encoding_of_json_within" | "from_json" => {
            of_json(alloc, name, quoted(alloc)?.as_str())
        }
        _ => Err(Unmade::Unknown),
    }
}

fn of_value(alloc: Global) -> Done {
    let value = AMQPValue::LongString(LongString::from(bytes(alloc)?));
    done(to_json(alloc, &value))
}

fn of_encoding(alloc: Global) -> Done {
    let bytes = encoding(alloc, b'S', bytes(alloc)?.as_slice())?;
    done(json_of_encoding(alloc, bytes.as_slice(), LIMITS))
}

/// A JSON string of a mebibyte.
fn quoted(alloc: Global) -> Result<String, Unmade> {
    let mut json = String::from_str(alloc, "\"")?;
    json.push_str(text(alloc, MUCH)?.as_str())?;
    json.push('"')?;
    Ok(json)
}

fn of_json(alloc: Global, name: &str, json: &str) -> Done {
    match name {
        "encoding_of_json" => done(encoding_of_json(alloc, json)),
        "encoding_of_json_within" => done(encoding_of_json_within(alloc, json, 2)),
        _ => done(from_json(alloc, json)),
    }
}
