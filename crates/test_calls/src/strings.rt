//! Requests on strings: `try_new STRING`, `try_copy STRING`, `order STRING STRING`,
//! `long_string BYTES`, `byte_array BYTES` and `order_bytes BYTES BYTES`; and
//! `hash_decimal DECIMAL DECIMAL`.

use super::values::{Word, decimal_of, short_string};
use super::words::{bytes_of, named, ok, plain, quoted, shown, text_of};
use super::{Answer, Trouble};
use amq_protocol_types::{ByteArray, LongString, ShortString, TryCopyError};
use std::alloc::Global;
use std::hash::{DefaultHasher, Hash, Hasher};

/// What a call of strings answers.
pub fn answer(rt: &HostRuntime, alloc: Global, call: &str, words: &[&str]) -> Answer {
    match (call, words) {
        ("try_new", [text]) => new(rt, alloc, text_of(alloc, *text)?),
        ("try_copy", [text]) => copy(rt, alloc, text_of(alloc, *text)?.as_str()),
        ("order", [one, other]) => order(alloc, *one, *other),
        ("order_bytes", [one, other]) => {
            order_of_bytes(alloc, bytes_of(alloc, *one)?, bytes_of(alloc, *other)?)
        }
        ("hash_decimal", [one, other]) => order_of_decimals(alloc, *one, *other),
        ("long_string", [bytes]) => long_string(rt, alloc, bytes_of(alloc, *bytes)?),
        ("byte_array", [bytes]) => byte_array(rt, alloc, bytes_of(alloc, *bytes)?),
        _ => Err(Trouble::Unknown),
    }
}

fn new(rt: &HostRuntime, alloc: Global, text: String) -> Answer {
    let length = text.len();
    match call!(rt; ShortString::try_new(text)) {
        Ok(string) => short_text(alloc, string),
        Err(error) if error.length() == length => Ok(format!(in alloc; "error {error}")?),
        Err(error) => Ok(format!(in alloc; "error {error} not {length}")?),
    }
}

fn copy(rt: &HostRuntime, alloc: Global, text: &str) -> Answer {
    match call!(rt; ShortString::try_copy(alloc, text)) {
        Ok(string) => short_text(alloc, string),
        Err(error) => not_copied(alloc, error),
    }
}

/// Why a string isn't copied.
pub fn not_copied(alloc: Global, error: TryCopyError) -> Answer {
    match error {
        TryCopyError::TooLong(error) => Ok(format!(in alloc; "error {error}")?),
        TryCopyError::OutOfMemory => plain(alloc, "OutOfMemory"),
    }
}

/// How two words compare as short strings, and as bytes if that differs.
fn order(alloc: Global, one: &str, other: &str) -> Answer {
    let (first, second) = (short_string(alloc, one)?, short_string(alloc, other)?);
    let short = ordered(alloc, &first, &second)?;
    let bytes = order_of_bytes(alloc, bytes_of(alloc, one)?, bytes_of(alloc, other)?)?;
    if short.as_str() != bytes.as_str() {
        return Ok(format!(in alloc; "{short} but {bytes} as bytes")?);
    }
    Ok(short)
}

fn order_of_decimals(alloc: Global, one: &str, other: &str) -> Answer {
    let (one, other) = (decimal_of(one)?, decimal_of(other)?);
    let (is_equal, is_hashed) = (one == other, hash_of(&one) == hash_of(&other));
    Ok(format!(in alloc; "equal {is_equal} hashed {is_hashed}")?)
}

/// What a string is hashed to.
fn hash_of<T: Hash>(string: &T) -> u64 {
    let mut hasher = DefaultHasher::new();
    string.hash(&mut hasher);
    hasher.finish()
}

/// How strings compare, and whether they are hashed alike.
fn ordered<T: Ord + Hash>(alloc: Global, one: &T, other: &T) -> Answer {
    let (how, partial) = (one.cmp(other), one.partial_cmp(other));
    let (is_equal, is_hashed) = (one == other, hash_of(one) == hash_of(other));
    Ok(format!(in alloc; "{how:?} {partial:?} equal {is_equal} hashed {is_hashed}")?)
}

/// How bytes compare as long strings. Byte arrays have no order.
fn order_of_bytes(alloc: Global, one: Vec<u8>, other: Vec<u8>) -> Answer {
    let first = ByteArray::from_slice(alloc, one.as_slice())?;
    let second = ByteArray::from_slice(alloc, other.as_slice())?;
    let (one, other) = (LongString::from(one), LongString::from(other));
    let (is_equal, is_hashed) = (first == second, hash_of(&first) == hash_of(&second));
    if is_equal != (one == other) || is_hashed != (hash_of(&one) == hash_of(&other)) {
        return Ok(format!(in alloc; "byte arrays equal {is_equal} hashed {is_hashed}")?);
    }
    ordered(alloc, &one, &other)
}

/// A short string as it is held, as it is printed, and as a string.
fn short_text(alloc: Global, string: ShortString) -> Answer {
    let held = string.word(alloc)?;
    let shown = quoted(alloc, shown(alloc, &string)?.as_str())?;
    let made = quoted(alloc, String::from(string).as_str())?;
    if held.as_str() != shown.as_str() || held.as_str() != made.as_str() {
        return Ok(format!(in alloc; "ok {held} printed {shown} as a string {made}")?);
    }
    ok(alloc, held.as_str())
}

/// A long string's bytes, their number, whether there are none, and what is printed; made in each way.
fn long_string(rt: &HostRuntime, alloc: Global, bytes: Vec<u8>) -> Answer {
    let string = match call!(rt; LongString::from_slice(alloc, bytes.as_slice())) {
        Ok(string) => string,
        Err(error) => return named(alloc, error),
    };
    if let Ok(text) = std::str::from_utf8(bytes.as_slice()) {
        match call!(rt; LongString::from_text(alloc, text)) {
            Ok(copied) if copied == string => {}
            Ok(_) => return plain(alloc, "other from a text"),
            Err(error) => return named(alloc, error),
        }
    }
    long_text(alloc, string, bytes)
}

fn long_text(alloc: Global, string: LongString, bytes: Vec<u8>) -> Answer {
    if let Ok(text) = std::str::from_utf8(bytes.as_slice()) {
        if LongString::from(String::from_str(alloc, text)?) != string {
            return plain(alloc, "other from a string");
        }
    }
    if LongString::from(bytes) != string {
        return plain(alloc, "other from a vector");
    }
    let (held, length, is_empty) = (string.word(alloc)?, string.len(), string.is_empty());
    Ok(format!(in alloc; "ok {held} {length} {is_empty} \"{string}\"")?)
}

/// A byte array's bytes, their number, and whether there are none; made in each way.
fn byte_array(rt: &HostRuntime, alloc: Global, bytes: Vec<u8>) -> Answer {
    match call!(rt; ByteArray::from_slice(alloc, bytes.as_slice())) {
        Ok(array) => array_text(alloc, &array, &ByteArray::from(bytes)),
        Err(error) => named(alloc, error),
    }
}

fn array_text(alloc: Global, array: &ByteArray, of_vector: &ByteArray) -> Answer {
    if of_vector != array {
        return plain(alloc, "other from a vector");
    }
    let (held, length, is_empty) = (array.word(alloc)?, array.len(), array.is_empty());
    Ok(format!(in alloc; "ok {held} {length} {is_empty}")?)
}
