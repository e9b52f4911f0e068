//! Calls of amqp_in_place that allocate, `to_owned`, `repeated_key` and `warnings`, with a long
//! string, a large array or a large table.

use super::inputs::{LIMITS, array_body, bytes, encoding, table_body};
use super::{Done, Unmade, done};
use amqp_in_place::rabbitmq::{CLIENT_LEVELS, warnings, warnings_in_table};
use amqp_in_place::{TableRef, ValueRef, read_in_place_unlimited};
use std::alloc::Global;

/// Whether the call is done.
pub fn call(alloc: Global, name: &str) -> Done {
    match name {
        "ValueRef::to_owned" => {
            of_value(
                alloc,
                encoding(alloc, b'S', bytes(alloc)?.as_slice())?.as_slice(),
            )
        }
        "ArrayRef::to_owned" => {
            of_value(
                alloc,
                encoding(alloc, b'A', array_body(alloc)?.as_slice())?.as_slice(),
            )
        }
        "TableRef::to_owned" | "TableRef::repeated_key" | "warnings" | "warnings_in_table" => {
            of_table(alloc, name)
        }
        _ => Err(Unmade::Unknown),
    }
}

fn of_value(alloc: Global, bytes: &[u8]) -> Done {
    match read_in_place_unlimited(bytes) {
        Ok((ValueRef::FieldArray(array), _)) => done(array.to_owned(alloc)),
        Ok((value, _)) => done(value.to_owned(alloc)),
        Err(_) => Err(Unmade::NoInput),
    }
}

/// A call with a table, whose keys don't ascend, so that they are kept until one is repeated.
fn of_table(alloc: Global, name: &str) -> Done {
    let bytes = encoding(alloc, b'F', table_body(alloc, false)?.as_slice())?;
    let bytes = bytes.as_slice();
    match name {
        "warnings" => done(warnings(alloc, bytes, LIMITS, 0, CLIENT_LEVELS)),
        "warnings_in_table" => {
            let (_, table) = bytes.split_at(bytes.len().min(1));
            done(warnings_in_table(alloc, table, LIMITS, 0, CLIENT_LEVELS))
        }
        _ => match read_in_place_unlimited(bytes) {
            Ok((ValueRef::FieldTable(table), _)) => of_table_ref(alloc, name, table),
            _ => Err(Unmade::NoInput),
        },
    }
}

fn of_table_ref(alloc: Global, name: &str, table: TableRef<'_>) -> Done {
    match name {
        "TableRef::to_owned" => done(table.to_owned(alloc)),
        _ => done(table.repeated_key(alloc)),
    }
}
