//! `put_leaf`: puts the JSON text of a value that isn't an array or a table into a buffer.

// The tactics at the functions name the lemmas on bytes that are UTF-8, and on others, and open the definition of an
// escape: the names of types need none.

ghost use Rattle.std.specs.Prelude.{◌≡◌, ◌∷◌, [], codes, decimal};
ghost use Rattle.std.specs.Int.{w32, w64, to_be_bytes};
ghost use Rattle.std.specs.Fmt.{signed_decimal};
ghost use Rattle.hex.specs.Hex.{encode_lower};
ghost use Rattle.json.specs.Print.{escape};
ghost use Rattle.json.specs.Reads.{token_of};
ghost use Rattle.json.specs.Token.{begin_object, end_object, key, number, string};
ghost use Rattle.amqp_value_core.specs.Values.{Tree};
ghost use Rattle.amqp_in_place.specs.Heads.{IsPlainRef};
ghost use Rattle.amqp_in_place.specs.Refs.{Denotes};
ghost use Rattle.amqp_json.specs.Written.{decimal_text, double_written, float_written, long_written, written};
ghost use Rattle.amqp_json.specs.Decimals.{float_text};
ghost use Rattle.std.specs.Float.{binary32, binary64};
ghost use Rattle.amqp_json.specs.printing.Buffers.{PutsTokens, PutsJson};

use super::decimals::{FloatBits, float_text};
use super::tokens::{Place, put_decimal, put_digits, put_name, put_token};
use amqp_in_place::ValueRef;
use amqp_value_core::types::DecimalValue;
use itoa::Buffer;
use json::Token;

/// The JSON text of a value that is no container. Each type has a function of its own, so that this
/// one needs little stack.
#[tactic(auto, unfolding(json::specs::Print::escape_byte))]
#[inline(never)]
pub(crate) fn put_leaf(buffer: &mut [u8], place: Place, value: ValueRef<'_>) -> Place
    requires { IsPlainRef value }
    ensures { (v : Tree) → Denotes value.entry v
        → PutsJson buffer.old place buffer.new result (written v) }
{
    match value {
        ValueRef::Boolean(b) => put_token(buffer, place, Token::Bool(b)),
        ValueRef::ShortShortInt(n) => integer(buffer, place, "$ShortShortInt", n as i64),
        ValueRef::ShortShortUInt(n) => natural(buffer, place, "$ShortShortUInt", n as u64),
        ValueRef::ShortInt(n) => integer(buffer, place, "$ShortInt", n as i64),
        ValueRef::ShortUInt(n) => natural(buffer, place, "$ShortUInt", n as u64),
        ValueRef::LongInt(n) => integer(buffer, place, "$LongInt", n as i64),
        ValueRef::LongUInt(n) => natural(buffer, place, "$LongUInt", n as u64),
        ValueRef::LongLongInt(n) => plain_integer(buffer, place, n),
        ValueRef::Float(f) => float(buffer, place, f.to_bits()),
        ValueRef::Double(f) => double(buffer, place, f.to_bits()),
        ValueRef::DecimalValue(d) => decimal(buffer, place, d),
        ValueRef::LongString(bytes) => long_string(buffer, place, bytes),
        ValueRef::Timestamp(n) => natural(buffer, place, "$Timestamp", n),
        ValueRef::ByteArray(bytes) => digits(buffer, place, "$ByteArray", bytes),
        ValueRef::Void => put_token(buffer, place, Token::Null),
        ValueRef::FieldArray(_) | ValueRef::FieldTable(_) => unreachable!(),
    }
}

// A token under a type's name.
#[inline(always)]
fn named(buffer: &mut [u8], place: Place, name: &str, value: Token<'_>) -> Place
    requires { escape name.now ≡ name.now }
    ensures { PutsTokens buffer.old place buffer.new result
        (begin_object ∷ key name.now ∷ token_of value.entry ∷ end_object ∷ []) }
{
    let place = put_name(buffer, place, name);
    let place = put_token(buffer, place, value);
    put_token(buffer, place, Token::EndObject)
}

#[inline(never)]
fn natural(buffer: &mut [u8], place: Place, name: &str, n: u64) -> Place
    requires { escape name.now ≡ name.now }
    ensures { PutsTokens buffer.old place buffer.new result
        (begin_object ∷ key name.now ∷ number (decimal n) ∷ end_object ∷ []) }
{
    let mut text = Buffer::new();
    named(buffer, place, name, Token::Number(text.format(n)))
}

#[inline(never)]
fn integer(buffer: &mut [u8], place: Place, name: &str, n: i64) -> Place
    requires { escape name.now ≡ name.now }
    ensures { PutsTokens buffer.old place buffer.new result
        (begin_object ∷ key name.now ∷ number (signed_decimal n) ∷ end_object ∷ []) }
{
    let mut text = Buffer::new();
    named(buffer, place, name, Token::Number(text.format(n)))
}

// An integer without its type's name.
#[inline(never)]
fn plain_integer(buffer: &mut [u8], place: Place, n: i64) -> Place
    ensures { PutsTokens buffer.old place buffer.new result (number (signed_decimal n) ∷ []) }
{
    let mut text = Buffer::new();
    put_token(buffer, place, Token::Number(text.format(n)))
}

// Bytes in hexadecimal digits.
#[inline(never)]
fn digits(buffer: &mut [u8], place: Place, name: &str, bytes: &[u8]) -> Place
    requires { escape name.now ≡ name.now }
    ensures { PutsTokens buffer.old place buffer.new result
        (begin_object ∷ key name.now ∷ string (encode_lower bytes.now) ∷ end_object ∷ []) }
{
    let place = put_name(buffer, place, name);
    let place = put_digits(buffer, place, bytes);
    put_token(buffer, place, Token::EndObject)
}

// Its decimal text, if it has one, otherwise its bits.
#[tactic(auto, unfolding(json::specs::Print::escape_byte))]
#[inline(never)]
fn float(buffer: &mut [u8], place: Place, bits: u32) -> Place
    ensures { PutsJson buffer.old place buffer.new result (float_written (float_text binary32 bits) bits) }
{
    match float_text(FloatBits::Float(bits), &mut [0; 96]) {
        Some(text) => named(buffer, place, "$Float", Token::Number(text)),
        None => digits(buffer, place, "$Float", &bits.to_be_bytes()),
    }
}

// Its decimal text, if it has one, otherwise its bits.
#[tactic(auto, unfolding(json::specs::Print::escape_byte))]
#[inline(never)]
fn double(buffer: &mut [u8], place: Place, bits: u64) -> Place
    ensures { PutsJson buffer.old place buffer.new result (double_written (float_text binary64 bits) bits) }
{
    match float_text(FloatBits::Double(bits), &mut [0; 96]) {
        Some(text) => put_token(buffer, place, Token::Number(text)),
        None => digits(buffer, place, "$Double", &bits.to_be_bytes()),
    }
}

#[tactic(auto, unfolding(json::specs::Print::escape_byte))]
#[inline(never)]
fn decimal(buffer: &mut [u8], place: Place, d: DecimalValue) -> Place
    ensures { PutsTokens buffer.old place buffer.new result
        (begin_object ∷ key (codes "$DecimalValue") ∷ string (decimal_text d.scale d.value) ∷ end_object ∷ []) }
{
    let place = put_name(buffer, place, "$DecimalValue");
    let place = put_decimal(buffer, place, d);
    put_token(buffer, place, Token::EndObject)
}

// A long string, as a string if it is UTF-8.
#[tactic(auto, using(crate::proofs::Printed::text_is_plain, crate::proofs::Printed::bytes_are_named), unfolding(json::specs::Print::escape_byte))]
#[inline(never)]
fn long_string(buffer: &mut [u8], place: Place, bytes: &[u8]) -> Place
    ensures { PutsJson buffer.old place buffer.new result (long_written bytes.now) }
{
    match std::str::from_utf8(bytes) {
        Ok(text) => put_token(buffer, place, Token::String(text)),
        Err(_) => digits(buffer, place, "$LongString", bytes),
    }
}
