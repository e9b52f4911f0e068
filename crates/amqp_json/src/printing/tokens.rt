//! `put_token`: puts one JSON token into a buffer, with a comma before it if one is needed; and the
//! tokens of keys, of hexadecimal digits and of decimals.

ghost use Rattle.std.specs.Prelude.{◌≡◌, ◌∷◌, [], ◌++◌, ◌&&◌, cond, true, decimal};
ghost use Rattle.hex.specs.Hex.{encode_lower};
ghost use Rattle.json.specs.Token.{begin_object, key, string};
ghost use Rattle.json.specs.Reads.{token_of};
ghost use Rattle.json.specs.Print.{begins, ends, escape, token_text};
ghost use Rattle.amqp_json.specs.printing.Buffers.{PutsBytes, PutsTokens};
ghost use Rattle.amqp_json.specs.Written.{is_marked, written_key, decimal_text};

use super::put::{put, put_escaped, put_hexadecimal};
use amqp_value_core::types::DecimalValue;
use itoa::Buffer;
use json::Token;

/// How far a text was written.
#[derive(Clone, Copy)]
pub struct Place {
    /// How many bytes it has, which may be more than the buffer has.
    pub count: usize,
    /// Whether a value has just ended.
    pub after_value: bool,
}

impl Place {
    /// Before the text.
    pub const START: Place = Place {
        count: 0,
        after_value: false,
    };
}

/// A token, with a comma before it after a value.
#[inline(always)]
pub(crate) fn put_token(buffer: &mut [u8], place: Place, token: Token<'_>) -> Place
    ensures { PutsTokens buffer.old place buffer.new result (token_of token.entry ∷ []) }
{
    let at = put_separator(buffer, place, begins(token));
    Place {
        count: put_text(buffer, at, token),
        after_value: ends(token),
    }
}

/// The key of an entry: one that begins with `$` is written with one more.
#[inline(always)]
pub(crate) fn put_key(buffer: &mut [u8], place: Place, name: &str) -> Place
    ensures { PutsTokens buffer.old place buffer.new result (key (written_key name.now) ∷ []) }
{
    let at = put_separator(buffer, place, true);
    let at = put_key_quote(buffer, at, name);
    let at = put_escaped(buffer, at, name.as_bytes());
    Place {
        count: put(buffer, at, b"\":"),
        after_value: false,
    }
}

// The quote before a key, with the `$` before another.
#[inline(always)]
fn put_key_quote(buffer: &mut [u8], at: usize, name: &str) -> usize
    ensures { PutsBytes buffer.old at buffer.new result (cond (is_marked name.now) (34 ∷ 36 ∷ []) (34 ∷ [])) }
{
    if name.starts_with('$') {
        put(buffer, at, b"\"$")
    } else {
        put(buffer, at, b"\"")
    }
}

/// An opening brace and the key of a type's name.
#[inline(always)]
pub(crate) fn put_name(buffer: &mut [u8], place: Place, name: &str) -> Place
    requires { escape name.now ≡ name.now }
    ensures { PutsTokens buffer.old place buffer.new result (begin_object ∷ key name.now ∷ []) }
{
    let at = put_separator(buffer, place, true);
    let at = put(buffer, at, b"{\"");
    let at = put(buffer, at, name.as_bytes());
    Place {
        count: put(buffer, at, b"\":"),
        after_value: false,
    }
}

/// The string of the bytes in hexadecimal digits.
pub(crate) fn put_digits(buffer: &mut [u8], place: Place, bytes: &[u8]) -> Place
    ensures { PutsTokens buffer.old place buffer.new result (string (encode_lower bytes.now) ∷ []) }
{
    let at = put_separator(buffer, place, true);
    let at = put(buffer, at, b"\"");
    let at = put_hexadecimal(buffer, at, bytes);
    Place {
        count: put(buffer, at, b"\""),
        after_value: true,
    }
}

/// The string of a decimal: its number, `e-` and its scale.
pub(crate) fn put_decimal(buffer: &mut [u8], place: Place, d: DecimalValue) -> Place
    ensures { PutsTokens buffer.old place buffer.new result (string (decimal_text d.scale d.value) ∷ []) }
{
    let at = put_separator(buffer, place, true);
    let at = put(buffer, at, b"\"");
    let at = put_natural(buffer, at, d.value);
    let at = put(buffer, at, b"e-");
    let at = put_natural(buffer, at, d.scale as u32);
    Place {
        count: put(buffer, at, b"\""),
        after_value: true,
    }
}

fn put_natural(buffer: &mut [u8], at: usize, n: u32) -> usize
    ensures { PutsBytes buffer.old at buffer.new result (decimal n) }
{
    let mut text = Buffer::new();
    put(buffer, at, text.format(n).as_bytes())
}

#[inline(always)]
fn put_separator(buffer: &mut [u8], place: Place, is_first: bool) -> usize
    ensures { PutsBytes buffer.old place.count buffer.new result
        (cond (place.after_value && is_first) (44 ∷ []) []) }
{
    if place.after_value && is_first {
        put(buffer, place.count, b",")
    } else {
        place.count
    }
}

#[inline(always)]
fn put_text(buffer: &mut [u8], at: usize, token: Token<'_>) -> usize
    ensures { PutsBytes buffer.old at buffer.new result (token_text (token_of token.entry)) }
{
    match token {
        Token::BeginObject => put(buffer, at, b"{"),
        Token::EndObject => put(buffer, at, b"}"),
        Token::BeginArray => put(buffer, at, b"["),
        Token::EndArray => put(buffer, at, b"]"),
        Token::Key(name) => put_quoted(buffer, at, name.as_bytes(), b"\":"),
        Token::String(text) => put_quoted(buffer, at, text.as_bytes(), b"\""),
        Token::Number(text) => put(buffer, at, text.as_bytes()),
        Token::Bool(true) => put(buffer, at, b"true"),
        Token::Bool(false) => put(buffer, at, b"false"),
        Token::Null => put(buffer, at, b"null"),
        Token::Bad => at,
    }
}

// A text in quotes, of which `close` is the last one with what follows.
#[inline(always)]
fn put_quoted(buffer: &mut [u8], at: usize, text: &[u8], close: &[u8]) -> usize
    ensures { PutsBytes buffer.old at buffer.new result (34 ∷ (escape text.now ++ close.now)) }
{
    let at = put(buffer, at, b"\"");
    let at = put_escaped(buffer, at, text);
    put(buffer, at, close)
}

// Whether it is the first token of a value or a member.
#[inline(always)]
fn begins(token: Token<'_>) -> bool
    ensures { result ≡ begins (token_of token.entry) }
{
    match token {
        Token::EndObject | Token::EndArray => false,
        _ => true,
    }
}

// Whether it is the last token of a value.
#[inline(always)]
fn ends(token: Token<'_>) -> bool
    ensures { result ≡ ends (token_of token.entry) }
{
    match token {
        Token::BeginObject | Token::BeginArray | Token::Key(_) => false,
        _ => true,
    }
}
