//! Puts bytes of JSON text into a buffer, as they are, escaped or in hexadecimal. Each call returns
//! how many bytes there are then, which may be more than the buffer has space for: those that don't
//! fit are counted, and not written.

// The tactics at the functions name the lemma that a clause is proved by, and open the definition of an escape.

ghost use Rattle.std.specs.Prelude.{◌≡◌, ◌+◌, ◌<◌, ◌≤◌, length, drop, map};
ghost use Rattle.std.specs.List.{prefix_len};
ghost use Rattle.std.specs.Char.{digit_char};
ghost use Rattle.std.specs.Simd.Lanes.{mask_l};
ghost use Rattle.hex.specs.Hex.{encode_lower};
ghost use Rattle.json.specs.Print.{escape_letter, escape_byte, escape};
ghost use Rattle.json.specs.Run.{is_plain, is_stop};
ghost use Rattle.amqp_json.specs.printing.Buffers.{PutsBytes};

use std::simd::prelude::*;

#[inline(always)]
pub(crate) fn put(buffer: &mut [u8], at: usize, bytes: &[u8]) -> usize
    ensures { PutsBytes buffer.old at buffer.new result bytes.now }
{
    let end = at.saturating_add(bytes.len());
    if end <= buffer.len() {
        buffer[at..end].copy_from_slice(bytes);
    }
    end
}

/// The bytes in hexadecimal digits.
pub(crate) fn put_hexadecimal(buffer: &mut [u8], at: usize, bytes: &[u8]) -> usize
    ensures { PutsBytes buffer.old at buffer.new result (encode_lower bytes.now) }
{
    let end = at.saturating_add(2 * bytes.len());
    if end > buffer.len() {
        return end;
    }
    match hex::encode_to_slice(bytes, &mut buffer[at..end]) {
        Ok(()) => end,
        Err(_) => unreachable!(),
    }
}

/// A text with its escapes.
pub(crate) fn put_escaped(buffer: &mut [u8], at: usize, text: &[u8]) -> usize
    ensures { PutsBytes buffer.old at buffer.new result (escape text.now) }
{
    let mut at = at;
    let mut from = 0;
    while from < text.len() {
        if is_plain(text[from]) {
            let stop = plain_end(text, from);
            at = put(buffer, at, &text[from..stop]);
            from = stop;
        } else {
            at = put_escape(buffer, at, text[from]);
            from += 1;
        }
    }
    at
}

// The first place from this one on that has a quote, a backslash or a control character, or the end. Eight bytes
// without one are passed at once.
#[tactic(auto, using(crate::proofs::Escapes::plain_through))]
#[inline(always)]
fn plain_end(bytes: &[u8], from: usize) -> usize
    requires { from ≤ length bytes.now }
    ensures value { result ≡ from + prefix_len is_plain (drop from bytes.now) }
    ensures bound { result ≤ length bytes.now }
{
    let mut at = from;
    while bytes.len() - at >= 8 && stops(u8x8::from_slice(&bytes[at..])) == 0 {
        at += 8;
    }
    stop_of(bytes, at)
}

#[inline(always)]
fn is_plain(byte: u8) -> bool
    ensures { result ≡ is_plain byte }
{
    byte != b'"' && byte != b'\\' && byte >= 0x20
}

// A bit for each byte that has to be escaped.
#[inline(always)]
fn stops(bytes: u8x8) -> u64
    ensures { result ≡ mask_l (map is_stop bytes) }
{
    (bytes.simd_eq(u8x8::splat(b'"'))
        | bytes.simd_eq(u8x8::splat(b'\\'))
        | bytes.simd_lt(u8x8::splat(0x20))).to_bitmask()
}

#[inline(always)]
fn stop_of(bytes: &[u8], from: usize) -> usize
    requires { from ≤ length bytes.now }
    ensures value { result ≡ from + prefix_len is_plain (drop from bytes.now) }
    ensures bound { result ≤ length bytes.now }
{
    let mut at = from;
    while at < bytes.len() && is_plain(bytes[at]) {
        at += 1;
    }
    at
}

// A byte, or its escape if it has one.
#[tactic(auto, unfolding(json::specs::Print::escape_byte))]
#[inline(always)]
fn put_escape(buffer: &mut [u8], at: usize, byte: u8) -> usize
    ensures { PutsBytes buffer.old at buffer.new result (escape_byte byte) }
{
    let letter = letter(byte);
    if letter > 0 {
        return put(buffer, at, &[b'\\', letter]);
    }
    if byte < 0x20 {
        let [high, low] = [digit(byte / 16), digit(byte % 16)];
        return put(buffer, at, &[b'\\', b'u', b'0', b'0', high, low]);
    }
    put(buffer, at, &[byte])
}

// The letter of the short escape, or 0.
fn letter(byte: u8) -> u8
    ensures { result ≡ escape_letter byte }
{
    match byte {
        b'"' | b'\\' => byte,
        8 => b'b',
        12 => b'f',
        b'\n' => b'n',
        b'\r' => b'r',
        b'\t' => b't',
        _ => 0,
    }
}

fn digit(n: u8) -> u8
    requires { n < 16 }
    ensures { result ≡ digit_char n }
{
    if n < 10 { b'0' + n } else { b'a' - 10 + n }
}
