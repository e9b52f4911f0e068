//! The decimal text of a `Float` or a `Double`: that with the fewest digits after the point that is
//! read as it.

ghost use Rattle.std.specs.Prelude.{◌≡◌, ◌<◌, ◌≤◌, ◌^◌, Some, None, IfSome, MatchOption, length, drop, decimal as digits};
ghost use Rattle.amqp_json.specs.printing.Buffers.{PutsBytes, format_of, bits_of};
ghost use Rattle.amqp_json.specs.Decimals.{exponent, significand, times, numerator, shift, raised, scaled, minus, with_point, rounded, text_with, is_read, is_near, is_text, places_of, float_text, double_of};

use super::put::put;
use crate::floats::{double_bits, float_bits};
use itoa::Buffer;

/// The bits of a float.
#[derive(Clone, Copy)]
pub enum FloatBits {
    Float(u32),
    Double(u64),
}

/// The float's text, if it has one, in a buffer that has room for it.
#[tactic(auto, using(crate::proofs::DecimalTexts::text_with_utf8))]
pub(crate) fn float_text(float: FloatBits, buffer: &mut [u8; 96]) -> Option<&str>
    ensures { MatchOption result (float_text (format_of float) (bits_of float) ≡ None)
        (λ text. float_text (format_of float) (bits_of float) ≡ Some text.now) }
{
    let places = places_of(float)?;
    Some(unsafe { std::str::from_utf8_unchecked(text_with(float, places, buffer)) })
}

// How many digits the float's text has after the point, if the float has a text.
fn places_of(float: FloatBits) -> Option<u32>
    ensures value { result ≡ places_of (format_of float) (bits_of float) }
    ensures bound { IfSome result (λ places. places ≤ 18) }
{
    (1..19u32).find(|places| is_text(float, *places))
}

// Whether the text with so many digits after the point is read as the float.
fn is_text(float: FloatBits, places: u32) -> bool
    requires { places ≤ 18 }
    ensures { result ≡ is_text (format_of float) (bits_of float) places }
{
    let ten = power(places);
    scaled(double_of(float), ten) / (ten as u128) < 1 << 64
        && is_near(float, ten)
        && is_read(float, text_with(float, places, &mut [0; 96]))
}

// Whether rounding changed a Double by at most the distance to the next.
fn is_near(float: FloatBits, ten: u64) -> bool
    requires { ten ≤ 10 ^ 18 }
    ensures { result ≡ is_near (format_of float) (bits_of float) ten }
{
    let FloatBits::Double(bits) = float else {
        return true;
    };
    let unit = 1u128 << shift(bits);
    let rest = raised(bits, ten) % unit;
    rest <= unit / 2 + ten as u128 && unit / 2 <= rest + ten as u128
}

fn is_read(float: FloatBits, text: &[u8]) -> bool
    ensures { result ≡ is_read (format_of float) (bits_of float) text.now }
{
    match float {
        FloatBits::Float(bits) => float_bits(text) == Some(bits),
        FloatBits::Double(bits) => double_bits(text) == Some(bits),
    }
}

// The text with so many digits after the point.
fn text_with(float: FloatBits, places: u32, buffer: &mut [u8; 96]) -> &[u8]
    requires { places ≤ 18 }
    ensures { result.now ≡ text_with (format_of float) (bits_of float) places }
{
    let end = put_rounded(buffer, 0, double_of(float), places);
    &buffer[..end]
}

// The bits of the Double that equals the float, unless the float is zero or subnormal.
fn double_of(float: FloatBits) -> u64
    ensures { result ≡ double_of (format_of float) (bits_of float) }
{
    match float {
        FloatBits::Float(bits) => {
            let bits = bits as u64;
            bits / (1 << 31) * (1 << 63) + (bits % (1 << 31) * (1 << 29) + 896 * (1 << 52))
        }
        FloatBits::Double(bits) => bits,
    }
}

// A Double's text with so many digits after the point.
fn put_rounded(buffer: &mut [u8], at: usize, bits: u64, places: u32) -> usize
    requires { places ≤ 18 }
    ensures puts { PutsBytes buffer.old at buffer.new result (rounded bits places) }
    ensures short { length (rounded bits places) ≤ 82 }
{
    let ten = power(places);
    let at = put_minus(buffer, at, bits);
    put_with_point(buffer, at, scaled(bits, ten), ten)
}

fn put_minus(buffer: &mut [u8], at: usize, bits: u64) -> usize
    ensures { PutsBytes buffer.old at buffer.new result (minus bits) }
{
    if bits < 1 << 63 {
        put(buffer, at, b"")
    } else {
        put(buffer, at, b"-")
    }
}

// A number times a power of ten, with a point.
fn put_with_point(buffer: &mut [u8], at: usize, n: u128, ten: u64) -> usize
    requires { (0 < ten) × (ten ≤ 10 ^ 18) }
    ensures puts { PutsBytes buffer.old at buffer.new result (with_point n ten) }
    ensures short { length (with_point n ten) ≤ 81 }
{
    let mut whole = Buffer::new();
    let at = put(buffer, at, whole.format(n / ten as u128).as_bytes());
    let at = put(buffer, at, b".");
    put_fraction(buffer, at, ten + (n % ten as u128) as u64)
}

// The digits after the first.
#[tactic(auto, using(std::proofs::lemmas::Fmt::decimal_nonempty))]
fn put_fraction(buffer: &mut [u8], at: usize, n: u64) -> usize
    ensures puts { PutsBytes buffer.old at buffer.new result (drop 1 (digits n)) }
    ensures short { length (drop 1 (digits n)) ≤ 40 }
{
    let mut text = Buffer::new();
    put(buffer, at, &text.format(n).as_bytes()[1..])
}

fn power(places: u32) -> u64
    requires { places ≤ 18 }
    ensures value { result ≡ 10 ^ places }
    ensures bound { (0 < result) × (result ≤ 10 ^ 18) }
{
    10u64.pow(places)
}

// The number times a power of ten, rounded.
fn scaled(bits: u64, ten: u64) -> u128
    requires { ten ≤ 10 ^ 18 }
    ensures { result ≡ scaled bits ten }
{
    raised(bits, ten) >> shift(bits)
}

fn raised(bits: u64, ten: u64) -> u128
    requires { ten ≤ 10 ^ 18 }
    ensures { result ≡ raised bits ten }
{
    numerator(bits) * ten as u128 + (1 << shift(bits)) / 2
}

fn numerator(bits: u64) -> u128
    ensures value { result ≡ numerator bits }
    ensures bound { result < 2 ^ 64 }
{
    significand(bits) as u128 * times(bits) as u128
}

fn times(bits: u64) -> u64
    ensures value { result ≡ times bits }
    ensures bound { result ≤ 2 ^ 11 }
{
    1 << exponent(bits).saturating_sub(1075).min(11)
}

fn shift(bits: u64) -> u64
    ensures value { result ≡ shift bits }
    ensures bound { result ≤ 126 }
{
    1075u64.saturating_sub(exponent(bits)).min(126)
}

fn exponent(bits: u64) -> u64
    ensures { result ≡ exponent bits }
{
    bits / (1 << 52) % (1 << 11)
}

fn significand(bits: u64) -> u64
    ensures value { result ≡ significand bits }
    ensures bound { result < 2 ^ 53 }
{
    let hidden = if exponent(bits) == 0 { 0 } else { 1 << 52 };
    bits % (1 << 52) + hidden
}
