//! `plain_of_encoding`: a value as JSON without the names of types, for `--plain`.

// The tactics at the functions name the lemmas that clauses are proved by.

ghost use Rattle.std.specs.Prelude.{◌≡◌, IfOk, IfErr, OnOk, string_bytes};
ghost use Rattle.hex.specs.Hex.{encode_lower};
ghost use Rattle.json.specs.Json.{Json, string};
ghost use Rattle.json.specs.Print.{print};
ghost use Rattle.json.specs.Tree.{json_tokens};
ghost use Rattle.amqp_value_core.specs.Values.{Tree, Trees, Entries, array as array_tree, table as table_tree};
ghost use Rattle.amqp_in_place.specs.Heads.{IsPlainRef};
ghost use Rattle.amqp_in_place.specs.Refs.{array_body, table_body};
ghost use Rattle.amqp_in_place.specs.Written.{IsWrittenAs, WrittenValues, WrittenPairs};
ghost use Rattle.amqp_json.specs.Conversions.{IsNotRead};
ghost use Rattle.amqp_show.specs.Plain.{IsPlain, IsPlainOf, IsNumberOrNull, WritesJson, WritesPlain, WritesPlainOf};

use crate::tree::{date_text, decimal_text};
use amq_protocol_types::stream::Limits;
use amqp_in_place::{ArrayRef, TableRef, ValueRef, read_in_place};
use amqp_json::DecodeError;
use json::{Writer, is_number};
use ryu::Buffer;
use std::alloc::{AllocError, Global};
use std::num::{f32_from_bits_with_nan, f64_from_bits_with_nan};
use std::str;

/// The plain JSON of the value at the start of the bytes. It uses stack for at most `limits.depth` levels.
#[tactic(auto, using(amq_protocol_types::proofs::ParsingLaws::found_all))]
pub fn plain_of_encoding(alloc: Global, bytes: &[u8], limits: Limits) -> Result<String, DecodeError>
    ensures json { IfOk result (λ text. IsPlainOf limits bytes.now (string_bytes text)) }
    ensures refused { IfErr result (IsNotRead limits bytes.now) }
{
    match read_in_place(bytes, limits) {
        Ok((value, _)) => Ok(text_of(alloc, value)?),
        Err(refusal) => Err(DecodeError::Refused(refusal)),
    }
}

fn text_of(alloc: Global, value: ValueRef<'_>) -> Result<String, AllocError>
    ensures { IfOk result (λ text. (t : Tree) → IsWrittenAs value.entry t
        → (j : Json) × IsPlain t j × (string_bytes text ≡ print (json_tokens j))) }
{
    let mut writer = Writer::new(Vec::new(alloc));
    write_value(alloc, &mut writer, value)?;
    Ok(unsafe { String::from_utf8_unchecked(writer.into_inner()) })
}

#[cycle(plain)]
fn write_value(alloc: Global, writer: &mut Writer, value: ValueRef<'_>) -> Result<(), AllocError>
    ensures plain { OnOk result (WritesPlainOf value.entry writer.old.tokens writer.new.tokens) }
    ensures before { writer.new.before ≡ writer.old.before }
{
    match value {
        ValueRef::FieldArray(array) => write_array(alloc, writer, array),
        ValueRef::FieldTable(table) => write_table(alloc, writer, table),
        _ => write_leaf(alloc, writer, value),
    }
}

#[cycle(plain)]
fn write_array(alloc: Global, writer: &mut Writer, array: ArrayRef<'_>) -> Result<(), AllocError>
    ensures plain { OnOk result ((all : Trees) → WrittenValues (array_body array.entry) all
        → WritesPlain writer.old.tokens writer.new.tokens (array_tree all)) }
    ensures before { writer.new.before ≡ writer.old.before }
{
    writer.begin_array()?;
    for item in array.iter() {
        write_value(alloc, writer, item)?;
    }
    writer.end_array()
}

#[cycle(plain)]
fn write_table(alloc: Global, writer: &mut Writer, table: TableRef<'_>) -> Result<(), AllocError>
    ensures plain { OnOk result ((all : Entries) → WrittenPairs (table_body table.entry) all
        → WritesPlain writer.old.tokens writer.new.tokens (table_tree all)) }
    ensures before { writer.new.before ≡ writer.old.before }
{
    writer.begin_object()?;
    for (key, value) in table.iter() {
        writer.key(key)?;
        write_value(alloc, writer, value)?;
    }
    writer.end_object()
}

// A value that isn't a container. It isn't inlined, so that the functions above need little stack.
#[inline(never)]
fn write_leaf(alloc: Global, writer: &mut Writer, value: ValueRef<'_>) -> Result<(), AllocError>
    requires { IsPlainRef value }
    ensures plain { OnOk result (WritesPlainOf value.entry writer.old.tokens writer.new.tokens) }
    ensures before { writer.new.before ≡ writer.old.before }
{
    match value {
        ValueRef::Boolean(b) => writer.boolean(b),
        ValueRef::ShortShortInt(n) => writer.i64(n as i64),
        ValueRef::ShortShortUInt(n) => writer.u64(n as u64),
        ValueRef::ShortInt(n) => writer.i64(n as i64),
        ValueRef::ShortUInt(n) => writer.u64(n as u64),
        ValueRef::LongInt(n) => writer.i64(n as i64),
        ValueRef::LongUInt(n) => writer.u64(n as u64),
        ValueRef::LongLongInt(n) => writer.i64(n),
        ValueRef::Float(x) => {
            let number = f32_from_bits_with_nan(x.to_bits());
            write_number(writer, Buffer::new().format(number))
        }
        ValueRef::Double(x) => {
            let number = f64_from_bits_with_nan(x.to_bits());
            write_number(writer, Buffer::new().format(number))
        }
        ValueRef::DecimalValue(d) => {
            let text = decimal_text(alloc, d.value, usize::from(d.scale))?;
            write_number(writer, text.as_str())
        }
        ValueRef::LongString(bytes) => match str::from_utf8(bytes) {
            Ok(text) => writer.string(text),
            Err(_) => write_digits(alloc, writer, bytes),
        },
        ValueRef::ByteArray(bytes) => write_digits(alloc, writer, bytes),
        ValueRef::Timestamp(seconds) => match date_text(alloc, seconds)? {
            Some(date) => writer.string(date.as_str()),
            None => writer.quoted_u64(seconds),
        },
        ValueRef::Void => writer.null(),
        ValueRef::FieldArray(_) | ValueRef::FieldTable(_) => unreachable!(),
    }
}

// A number, or null if the text isn't one, as of NaN and of infinities.
fn write_number(writer: &mut Writer, text: &str) -> Result<(), AllocError>
    ensures number { OnOk result ((j : Json) × IsNumberOrNull j × WritesJson writer.old.tokens writer.new.tokens j) }
    ensures before { writer.new.before ≡ writer.old.before }
{
    if is_number(text) {
        writer.number(text)
    } else {
        writer.null()
    }
}

// A string of the bytes in hexadecimal.
fn write_digits(alloc: Global, writer: &mut Writer, bytes: &[u8]) -> Result<(), AllocError>
    ensures digits { OnOk result (WritesJson writer.old.tokens writer.new.tokens (string (encode_lower bytes.now))) }
    ensures before { writer.new.before ≡ writer.old.before }
{
    let digits = hex::encode(alloc, bytes)?;
    writer.string(digits.as_str())
}
