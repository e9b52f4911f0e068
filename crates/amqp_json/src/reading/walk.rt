//! `put_document`: reads the tokens of a JSON text and puts the encoding of its value, with pairs
//! in the order of the text.

// The tactic at the function names the lemmas that clauses are proved by.

ghost use Rattle.std.specs.Prelude.{◌≡◌, ◌<◌, ◌≤◌, ◌∷◌, length, Some, None, option_map, option_and_then, OnOk, IfErr, MatchResult, MatchOption, List, ℕ, drop, true, false};
ghost use Rattle.json.specs.Reads.{token_of};
ghost use Rattle.json.specs.Json.{value, read_key};
ghost use Rattle.amqp_json.specs.Conversions.{IsRefusedAs};
ghost use Rattle.amqp_json.specs.Nesting.{ReportsNestingOf};
ghost use Rattle.amqp_json.specs.Meaning.{json_of, meaning, meanings, pairs_of, is_type_key};
ghost use Rattle.amqp_json.specs.reading.Puts.{PutsEncodingOf, PutsValues, PutsPairs, IsNamed, IsLeaf, IsLeafRefusal, IsRead, IsRefusal, IsSyntax, items_at, members_at, array_of, object_meant, next_token};

use super::keys::{Key, key_of, type_of_name};
use super::named::{other_kind, put_number, put_string, type_of_number};
use super::put::{fill_length, put, put_counted, put_head, put_key};
use crate::error::{JsonError, Mismatch, SyntaxError};
use amqp_value_core::types::AMQPType;
use json::{Reader, Token};
use std::alloc::Global;

// Which byte it is, and what is wrong there, is found afterwards.
const NOT_JSON: JsonError = JsonError::Syntax(0, SyntaxError::UnexpectedEnd);

/// The value of a whole text of at most `levels` levels.
pub(crate) fn put_document(
    alloc: Global,
    reader: &mut Reader<'_>,
    out: &mut Vec<u8>,
    levels: usize,
) -> Result<(), JsonError>
    ensures ok { OnOk result (PutsEncodingOf (λ v. option_and_then meaning (json_of levels reader.old)
        ≡ Some v) out.old.items out.new.items) }
    ensures refused { IfErr result (λ e. IsRefusedAs levels e (λ d. json_of d reader.old)) }
    ensures nesting { IfErr result (λ e. ReportsNestingOf levels e reader.old) }
{
    put_value(alloc, reader, out, levels)?;
    match reader.next() {
        None => Ok(()),
        Some(_) => Err(NOT_JSON),
    }
}

#[cycle(walk)]
fn put_value(
    alloc: Global,
    reader: &mut Reader<'_>,
    out: &mut Vec<u8>,
    depth: usize,
) -> Result<(), JsonError>
    ensures ok { OnOk result (PutsEncodingOf (λ v. IsRead depth meaning (λ d. value d reader.old)
        v reader.new) out.old.items out.new.items) }
    ensures shorter { OnOk result (length reader.new < length reader.old) }
    ensures refused { IfErr result (λ e. IsRefusal depth e meaning value reader.old) }
{
    let at = reader.offset();
    let Some(token) = reader.next() else {
        return Err(NOT_JSON);
    };
    match token {
        Token::Null => put(out, b'V', &[]),
        Token::Bool(b) => put(out, b't', &[u8::from(b)]),
        Token::Number(text) => put_number(out, type_of_number(text), text, at),
        Token::String(text) => put_counted(out, b'S', text.as_bytes()),
        Token::BeginArray => {
            if depth == 0 {
                return Err(JsonError::TooDeep(at));
            }
            put_array(alloc, reader, out, depth - 1)
        }
        Token::BeginObject => {
            if depth == 0 {
                return Err(JsonError::TooDeep(at));
            }
            put_object(alloc, reader, out, depth - 1)
        }
        Token::EndArray | Token::EndObject | Token::Key(_) | Token::Bad => Err(NOT_JSON),
    }
}

#[cycle(walk)]
fn put_array(
    alloc: Global,
    reader: &mut Reader<'_>,
    out: &mut Vec<u8>,
    depth: usize,
) -> Result<(), JsonError>
    ensures ok { OnOk result (PutsEncodingOf (λ v. IsRead depth array_of (λ d. items_at d reader.old)
        v reader.new) out.old.items out.new.items) }
    ensures shorter { OnOk result (length reader.new < length reader.old) }
    ensures refused { IfErr result (λ e. IsRefusal depth e meanings items_at reader.old) }
{
    let at = out.len() + 1;
    put_head(out, b'A')?;
    put_items(alloc, reader, out, depth)?;
    fill_length(out, at)
}

#[cycle(walk)]
fn put_items(
    alloc: Global,
    reader: &mut Reader<'_>,
    out: &mut Vec<u8>,
    depth: usize,
) -> Result<(), JsonError>
    ensures ok { OnOk result (PutsValues (λ vs. IsRead depth meanings (λ d. items_at d reader.old)
        vs reader.new) out.old.items out.new.items) }
    ensures shorter { OnOk result (length reader.new < length reader.old) }
    ensures refused { IfErr result (λ e. IsRefusal depth e meanings items_at reader.old) }
{
    'items: loop {
        if reader.take_end_array() {
            return Ok(());
        }
        put_value(alloc, reader, out, depth)?;
    }
}

#[cycle(walk)]
fn put_object(
    alloc: Global,
    reader: &mut Reader<'_>,
    out: &mut Vec<u8>,
    depth: usize,
) -> Result<(), JsonError>
    ensures ok { OnOk result (PutsEncodingOf (λ v. IsRead depth object_meant
        (λ d. members_at d reader.old) v reader.new) out.old.items out.new.items) }
    ensures shorter { OnOk result (length reader.new < length reader.old) }
    ensures refused { IfErr result (λ e. IsRefusal depth e object_meant members_at reader.old) }
{
    let key_at = reader.offset();
    let first = next_key(reader)?;
    if let Some(name) = name_in(first) {
        return put_named(alloc, reader, out, name, key_at);
    }
    let at = out.len() + 1;
    put_head(out, b'F')?;
    put_pairs(alloc, reader, out, first, key_at, depth)?;
    fill_length(out, at)
}

// The name of a type that is the first key of an object.
#[inline(always)]
fn name_in<'a>(first: Option<&'a str>) -> Option<&'a str>
    ensures { MatchOption result
        ((k : List ℕ) → option_map (λ s. s.now) first.entry ≡ Some k → is_type_key k ≡ false)
        (λ name. (k : List ℕ) × (option_map (λ s. s.now) first.entry ≡ Some k) × (is_type_key k ≡ true) × (name.now ≡ drop 1 k)) }
{
    let key = first?;
    match key_of(key) {
        Key::Name(name) => Some(name),
        Key::Entry(_) => None,
    }
}

// The pairs from a key on.
#[cycle(walk)]
fn put_pairs<'a>(
    alloc: Global,
    reader: &mut Reader<'a>,
    out: &mut Vec<u8>,
    first: Option<&'a str>,
    first_at: usize,
    depth: usize,
) -> Result<(), JsonError>
    ensures ok { OnOk result (PutsPairs (λ ps. IsRead depth pairs_of
        (λ d. members_at d (next_token (option_map (λ s. s.now) first.entry) ∷ reader.old))
        ps reader.new) out.old.items out.new.items) }
    ensures shorter { OnOk result (length reader.new ≤ length reader.old) }
    ensures refused { IfErr result (λ e. IsRefusal depth e pairs_of members_at
        (next_token (option_map (λ s. s.now) first.entry) ∷ reader.old)) }
{
    let mut next = first;
    let mut at = first_at;
    'pairs: loop {
        let Some(key) = next else {
            return Ok(());
        };
        put_key(out, key, at)?;
        put_value(alloc, reader, out, depth)?;
        at = reader.offset();
        next = next_key(reader)?;
    }
}

// What is after the name of a type, the only key of an object.
fn put_named(
    alloc: Global,
    reader: &mut Reader<'_>,
    out: &mut Vec<u8>,
    name: &str,
    name_at: usize,
) -> Result<(), JsonError>
    ensures ok { OnOk result (PutsEncodingOf (λ v. IsNamed name.now reader.old
        (λ depth ts. IsRead depth object_meant (λ d. members_at d ts) v reader.new)) out.old.items out.new.items) }
    ensures shorter { OnOk result (length reader.new < length reader.old) }
    ensures refused { IfErr result (λ e. IsNamed name.now reader.old
        (λ depth ts. IsRefusal depth e object_meant members_at ts)) }
{
    let Some(amqp_type) = type_of_name(name) else {
        return Err(JsonError::NotAValue(name_at, Mismatch::UnknownType));
    };
    let at = reader.offset();
    let Some(token) = reader.next() else {
        return Err(NOT_JSON);
    };
    put_leaf(alloc, out, amqp_type, token, at)?;
    let next_at = reader.offset();
    match reader.next_key() {
        Ok(None) => Ok(()),
        Ok(Some(_)) => Err(JsonError::NotAValue(next_at, Mismatch::NotAlone)),
        Err(_) => Err(NOT_JSON),
    }
}

// A number or a string, as a value of the type.
#[tactic(auto, using(crate::proofs::ObjectKeys::number_none, crate::proofs::ObjectKeys::string_none, crate::proofs::ObjectKeys::no_leaf))]
fn put_leaf(
    alloc: Global,
    out: &mut Vec<u8>,
    amqp_type: AMQPType,
    token: Token<'_>,
    at: usize,
) -> Result<(), JsonError>
    ensures ok { OnOk result (PutsEncodingOf (IsLeaf amqp_type (token_of token.entry)) out.old.items out.new.items) }
    ensures refused { IfErr result (λ e. IsLeafRefusal e amqp_type (token_of token.entry)) }
{
    match token {
        Token::Number(text) => put_number(out, amqp_type, text, at),
        Token::String(text) => put_string(alloc, out, amqp_type, text, at),
        Token::EndArray | Token::EndObject | Token::Key(_) | Token::Bad => Err(NOT_JSON),
        _ => Err(JsonError::NotAValue(at, other_kind(amqp_type))),
    }
}

fn next_key<'a>(reader: &mut Reader<'a>) -> Result<Option<&'a str>, JsonError>
    ensures value { MatchResult result
        (λ k. read_key reader.old ≡ Some (option_map (λ s. s.now) k, reader.new))
        (λ e. (read_key reader.old ≡ None) × IsSyntax e) }
    ensures shorter { OnOk result (length reader.new < length reader.old) }
{
    match reader.next_key() {
        Ok(key) => Ok(key),
        Err(_) => Err(NOT_JSON),
    }
}
