//! `is_key`, for `container`: whether bytes can be the key of an entry that is added to a table.

ghost use Rattle.std.specs.Prelude.{◌≡◌, ◌<◌, ◌≤◌, ◌⊎◌, true, length, MatchBool};
ghost use Rattle.amqp_value_core.specs.Bytes.{IsShort};
ghost use Rattle.std.specs.Str.{IsAscii, IsUtf8};

use std::str;

// The tactic names why ASCII is UTF-8.
/// Whether the bytes are a short string, or if a number isn't 0, any of at most 255 bytes. Of ASCII the number
/// isn't looked at.
#[inline(always)]
#[tactic(auto, using(amq_protocol_types::proofs::ParsingLaws::ascii_is_utf8))]
pub fn is_key(bytes: &[u8], any: u8) -> bool
    ensures { MatchBool result
        (IsShort bytes.now ⊎ ((0 < any) × (length bytes.now ≤ 255)))
        (IsShort bytes.now ⊎ ((0 < any) × (length bytes.now ≤ 255)) → ⊥) }
{
    is_short_ascii(bytes) || is_other_key(bytes, any)
}

/// Whether the bytes are ASCII, at most 255: 8 to 16, as most keys have, by the high bits of two words, which may
/// overlap.
#[inline(always)]
fn is_short_ascii(bytes: &[u8]) -> bool
    ensures ascii { result ≡ true → IsAscii bytes.now }
    ensures short { result ≡ true → length bytes.now ≤ 255 }
{
    if bytes.len() < 8 {
        return bytes.is_ascii();
    }
    let Some(first) = bytes.first_chunk::<8>() else {
        unreachable!()
    };
    let Some(last) = bytes.last_chunk::<8>() else {
        unreachable!()
    };
    if bytes.len() <= 16 {
        return has_no_high_bit(first) && has_no_high_bit(last);
    }
    bytes.len() <= 255 && bytes.is_ascii()
}

/// Whether none of eight bytes has its high bit set.
fn has_no_high_bit(eight: &[u8; 8]) -> bool
    ensures { result ≡ true → IsAscii eight.now }
{
    u64::from_le_bytes(*eight) & 0x8080_8080_8080_8080 == 0
}

/// Whether bytes that aren't ASCII are at most 255, and UTF-8 or the number isn't 0.
#[cold]
#[inline(never)]
fn is_other_key(bytes: &[u8], any: u8) -> bool
    ensures { MatchBool result
        ((length bytes.now ≤ 255) × (IsUtf8 bytes.now ⊎ (0 < any)))
        ((length bytes.now ≤ 255) × (IsUtf8 bytes.now ⊎ (0 < any)) → ⊥) }
{
    bytes.len() <= 255 && (any != 0 || str::from_utf8(bytes).is_ok())
}
