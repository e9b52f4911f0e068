//! `ByteArray`: arbitrary bytes with the type tag `x`; those of a `LongString` have `S`.

ghost use Rattle.std.specs.Prelude.{◌≡◌, [], length, nat_eq, IfOk, IsOk};
ghost use Rattle.amqp_value_core.specs.View.{octets_of};

use serde::{Deserialize, Serialize};
use std::alloc::{AllocError, Global};

/// Arbitrary bytes, a value with the type tag `x`. At most 4294967295 of them can be written.
///
/// Equality and hash are those of its bytes. `From<Vec<u8>>` takes a vector over without a copy.
#[derive(Debug, PartialEq, Eq, Hash, Serialize, Deserialize, Drop)]
#[serde(transparent)]
pub struct ByteArray {
    bytes: Vec<u8>,
}

impl ByteArray {
    /// Makes an empty array. Doesn't allocate.
    pub fn new_in(alloc: Global) -> Self
        ensures { octets_of result ≡ [] }
    {
        ByteArray {
            bytes: Vec::new(alloc),
        }
    }

    /// Copies the bytes, or returns an error if memory for them can't be allocated. An empty slice
    /// doesn't allocate.
    pub fn from_slice(alloc: Global, bytes: &[u8]) -> Result<ByteArray, AllocError>
        ensures bytes { IfOk result (λ a. octets_of a ≡ bytes.now) }
        ensures empty { bytes.now ≡ [] → IsOk result }
    {
        if bytes.is_empty() {
            return Ok(ByteArray::new_in(alloc));
        }
        Ok(ByteArray {
            bytes: Vec::from_slice(alloc, bytes)?,
        })
    }

    /// Returns the bytes.
    pub fn as_slice(&self) -> &[u8]
        ensures { result.now ≡ octets_of self.now }
    {
        self.bytes.as_slice()
    }

    /// Returns the number of bytes.
    pub fn len(&self) -> usize
        ensures { result ≡ length (octets_of self.now) }
    {
        self.bytes.len()
    }

    /// Returns whether there are no bytes.
    pub fn is_empty(&self) -> bool
        ensures { result ≡ nat_eq (length (octets_of self.now)) 0 }
    {
        self.bytes.is_empty()
    }

    /// Copies the bytes, or returns an error if memory for them can't be allocated. An empty array
    /// doesn't allocate.
    pub fn clone(&self, alloc: Global) -> Result<ByteArray, AllocError>
        ensures same { IfOk result (λ a. octets_of a ≡ octets_of self.now) }
        ensures empty { octets_of self.now ≡ [] → IsOk result }
    {
        ByteArray::from_slice(alloc, self.as_slice())
    }
}

impl From<Vec<u8>> for ByteArray {
    ghost use Rattle.amqp_value_core.specs.View.{octets_of};

    ghost from_gives = { λ v a. octets_of a ≡ v.items };

    fn from(bytes: Vec<u8>) -> Self {
        ByteArray { bytes }
    }
}
