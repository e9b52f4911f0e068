//! `put_value`: puts the JSON text of a `ValueRef` into a buffer. It allocates nothing.

ghost use Rattle.std.specs.Prelude.{List, ℕ};
ghost use Rattle.amqp_value_core.specs.Values.{Tree, Trees, Entries, array as array_tree, table as table_tree};
ghost use Rattle.amqp_in_place.specs.Refs.{array_body, table_body};
ghost use Rattle.amqp_in_place.specs.Written.{IsWrittenAs, WrittenValues, WrittenPairs};
ghost use Rattle.amqp_json.specs.printing.Buffers.{PutsJson};
ghost use Rattle.amqp_json.specs.Written.{written};

use super::leaves::put_leaf;
use super::tokens::{Place, put_key, put_token};
use amqp_in_place::{ArrayRef, TableRef, ValueRef};
use json::Token;

/// Puts the JSON text of a value after what is written: the pairs of a table in the order in which
/// they are encoded, also those whose keys come again.
#[cycle(walk)]
#[inline(always)]
pub(crate) fn put_value(buffer: &mut [u8], place: Place, value: ValueRef<'_>) -> Place
    ensures { (t : Tree) → IsWrittenAs value.entry t
        → PutsJson buffer.old place buffer.new result (written t) }
{
    match value {
        ValueRef::FieldArray(array) => put_array(buffer, place, array),
        ValueRef::FieldTable(table) => put_table(buffer, place, table),
        _ => put_leaf(buffer, place, value),
    }
}

#[cycle(walk)]
#[inline(never)]
fn put_array(buffer: &mut [u8], place: Place, array: ArrayRef<'_>) -> Place
    ensures { (ts : Trees) → WrittenValues (array_body array.entry) ts
        → PutsJson buffer.old place buffer.new result (written (array_tree ts)) }
{
    let mut end = put_token(buffer, place, Token::BeginArray);
    for item in array.iter() {
        end = put_value(buffer, end, item);
    }
    put_token(buffer, end, Token::EndArray)
}

#[cycle(walk)]
#[inline(never)]
fn put_table(buffer: &mut [u8], place: Place, table: TableRef<'_>) -> Place
    ensures { (ps : Entries) → WrittenPairs (table_body table.entry) ps
        → PutsJson buffer.old place buffer.new result (written (table_tree ps)) }
{
    let mut end = put_token(buffer, place, Token::BeginObject);
    for (key, value) in table.iter() {
        let keyed = put_key(buffer, end, key);
        end = put_value(buffer, keyed, value);
    }
    put_token(buffer, end, Token::EndObject)
}
