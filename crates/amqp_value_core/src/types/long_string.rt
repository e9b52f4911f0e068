//! `LongString`: arbitrary bytes with the type tag `S`, which most peers take for UTF-8.

ghost use Rattle.std.specs.Prelude.{◌≡◌, [], length, nat_eq, IfOk, IsOk};
ghost use Rattle.amqp_value_core.specs.View.{long_bytes};

use bstr::BStr;
use serde::{Deserialize, Serialize};
use std::alloc::{AllocError, Global};
use std::fmt;

/// A string: arbitrary bytes, a value with the type tag `S`. Most peers take the bytes for UTF-8.
/// At most 4294967295 of them can be written.
///
/// Order, equality and hash are those of its bytes. `Display` writes U+FFFD for bytes that aren't
/// UTF-8. `From<Vec<u8>>` and `From<String>` take the bytes over without a copy.
#[derive(Debug, PartialEq, Eq, PartialOrd, Ord, Hash, Serialize, Deserialize, Drop)]
#[serde(transparent)]
pub struct LongString {
    bytes: Vec<u8>,
}

impl LongString {
    /// Makes an empty string. Doesn't allocate.
    pub fn new_in(alloc: Global) -> Self
        ensures { long_bytes result ≡ [] }
    {
        LongString {
            bytes: Vec::new(alloc),
        }
    }

    /// Copies a string, or returns an error if memory for it can't be allocated. An empty string
    /// doesn't allocate.
    pub fn from_text(alloc: Global, text: &str) -> Result<LongString, AllocError>
        ensures bytes { IfOk result (λ s. long_bytes s ≡ text.now) }
        ensures empty { text.now ≡ [] → IsOk result }
    {
        LongString::from_slice(alloc, text.as_bytes())
    }

    /// Copies the bytes, or returns an error if memory for them can't be allocated. An empty slice
    /// doesn't allocate.
    pub fn from_slice(alloc: Global, bytes: &[u8]) -> Result<LongString, AllocError>
        ensures bytes { IfOk result (λ s. long_bytes s ≡ bytes.now) }
        ensures empty { bytes.now ≡ [] → IsOk result }
    {
        if bytes.is_empty() {
            return Ok(LongString::new_in(alloc));
        }
        Ok(LongString {
            bytes: Vec::from_slice(alloc, bytes)?,
        })
    }

    /// Returns the bytes, which may not be UTF-8.
    pub fn as_bytes(&self) -> &[u8]
        ensures { result.now ≡ long_bytes self.now }
    {
        self.bytes.as_slice()
    }

    /// Returns the number of bytes.
    pub fn len(&self) -> usize
        ensures { result ≡ length (long_bytes self.now) }
    {
        self.bytes.len()
    }

    /// Returns whether there are no bytes.
    pub fn is_empty(&self) -> bool
        ensures { result ≡ nat_eq (length (long_bytes self.now)) 0 }
    {
        self.bytes.is_empty()
    }

    /// Copies the string, or returns an error if memory for the copy can't be allocated. An empty
    /// string doesn't allocate.
    pub fn clone(&self, alloc: Global) -> Result<LongString, AllocError>
        ensures same { IfOk result (λ s. long_bytes s ≡ long_bytes self.now) }
        ensures empty { long_bytes self.now ≡ [] → IsOk result }
    {
        LongString::from_slice(alloc, self.as_bytes())
    }
}

impl From<Vec<u8>> for LongString {
    ghost use Rattle.amqp_value_core.specs.View.{long_bytes};

    ghost from_gives = { λ v s. long_bytes s ≡ v.items };

    fn from(bytes: Vec<u8>) -> Self {
        LongString { bytes }
    }
}

impl From<String> for LongString {
    ghost use Rattle.std.specs.Prelude.{string_bytes};
    ghost use Rattle.amqp_value_core.specs.View.{long_bytes};

    ghost from_gives = { λ t s. long_bytes s ≡ string_bytes t };

    fn from(text: String) -> Self {
        LongString {
            bytes: text.into_bytes(),
        }
    }
}

impl fmt::Display for LongString {
    ghost use Rattle.std.specs.Prelude.{Some, encode_utf8_all};
    ghost use Rattle.bstr.specs.Utf8.{lossy_chars};

    // the characters, with U+FFFD for what isn't UTF-8
    ghost output = { λ s. Some (encode_utf8_all (lossy_chars (long_bytes s))) };

    fn fmt<W: fmt::Write>(&self, f: &mut fmt::Formatter<W>) -> fmt::Result {
        BStr::new(self.as_bytes()).fmt(f)
    }
}
