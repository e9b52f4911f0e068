//! Short strings, which are also the keys of tables: UTF-8 of at most 255 bytes.

ghost use Rattle.std.specs.Hash as fed;
ghost use Rattle.std.specs.Cmp.Rules.{hashing};
ghost use Rattle.std.proofs.Common.{rules};
ghost use Rattle.std.specs.Prelude.{◌≡◌, ◌≤◌, ◌<◌, length, string_bytes, Some, IfOk, IfErr, IsOk, OnOk, OnErr};
ghost use Rattle.amqp_value_core.specs.Bytes.{IsShort};
ghost use Rattle.amqp_value_core.specs.Short.{IsTooLong, IsCopyRefused, refused_length, too_long_text};

use crate::types::MAX_SHORT_STRING_LENGTH;
use std::alloc::{AllocError, Global};
use std::cmp::Ordering;
use std::error::Error;
use std::fmt;
use std::hash::{Hash, Hasher};
use std::marker::Model;

/// A string of at most 255 bytes of UTF-8: a table's key, and AMQP's `shortstr` (0-9-1, section
/// 4.2.5.3).
///
/// Order, equality and hash are those of its bytes.
#[derive(Debug, Drop)]
pub struct ShortString {
    text: String,
}

impl Model for ShortString {
    ghost use Rattle.std.specs.Prelude.{ℕ, ◌≤◌, List, length, string_bytes};
    ghost use Rattle.std.specs.Str.{IsUtf8};

    ghost Value = { List ℕ };

    ghost view = { λ s. string_bytes s.text };

    ghost invariant = { λ s. (length (string_bytes s.text) ≤ 255) × IsUtf8 (string_bytes s.text) };
}

impl ShortString {
    ghost use Rattle.std.specs.Prelude.{[], Ok};

    /// Makes an empty string. Doesn't allocate.
    pub fn new_in(alloc: Global) -> Self
        ensures { result ≡ [] }
    {
        ShortString {
            text: String::new(alloc),
        }
    }

    /// Converts a string of at most 255 bytes, without a copy. A longer one is dropped, and the
    /// error has its length. Doesn't allocate.
    pub fn try_new(s: String) -> Result<ShortString, ShortStringError>
        ensures ok { IfOk result (λ short. short ≡ string_bytes s) }
        ensures fits { OnOk result (length (string_bytes s) ≤ 255) }
        ensures err { IfErr result (IsTooLong (string_bytes s)) }
    {
        let length = s.as_str().len();
        if length > MAX_SHORT_STRING_LENGTH {
            return Err(ShortStringError { length });
        }
        Ok(ShortString { text: s })
    }

    /// Copies a string of at most 255 bytes. Returns `TooLong` for a longer one, before anything is
    /// allocated, and `OutOfMemory` if an allocation fails. An empty string doesn't allocate.
    pub fn try_copy(alloc: Global, s: &str) -> Result<ShortString, TryCopyError>
        ensures ok { IfOk result (λ short. short ≡ s.now) }
        ensures fits { OnOk result (length s.now ≤ 255) }
        ensures err { IfErr result (IsCopyRefused s.now) }
        ensures empty { s.now ≡ [] → result ≡ Ok [] }
    {
        let length = s.len();
        if length > MAX_SHORT_STRING_LENGTH {
            return Err(TryCopyError::TooLong(ShortStringError { length }));
        }
        if length == 0 {
            return Ok(ShortString::new_in(alloc));
        }
        match String::from_str(alloc, s) {
            Ok(text) => Ok(ShortString { text }),
            Err(AllocError) => Err(TryCopyError::OutOfMemory),
        }
    }

    /// Returns the string, which has at most 255 bytes.
    pub fn as_str(&self) -> &str
        ensures text { result.now ≡ self.now }
        ensures short { IsShort self.now }
    {
        self.text.as_str()
    }

    /// Copies the string, or returns an error if memory for the copy can't be allocated. An empty
    /// string doesn't allocate.
    pub fn clone(&self, alloc: Global) -> Result<ShortString, AllocError>
        ensures same { IfOk result (λ s. s ≡ self.now) }
        ensures empty { self.now ≡ [] → IsOk result }
    {
        match ShortString::try_copy(alloc, self.as_str()) {
            Ok(s) => Ok(s),
            Err(TryCopyError::OutOfMemory) => Err(AllocError),
            Err(TryCopyError::TooLong(_)) => unreachable!(),
        }
    }
}

impl From<ShortString> for String {
    ghost from_gives = { λ s t. string_bytes t ≡ s };

    fn from(s: ShortString) -> String {
        let ShortString { text } = s;
        text
    }
}

impl PartialEq for ShortString {
    ghost use Rattle.std.specs.Prelude.{nat_eq};
    ghost use Rattle.std.specs.Cmp.{partial_equiv_from_equiv};
    ghost use Rattle.std.specs.Cmp.Lexicographic.{pointwise, nat_list_eq_equiv};

    ghost eq = { pointwise nat_eq };

    ghost laws = { partial_equiv_from_equiv nat_list_eq_equiv };

    fn eq(&self, other: &ShortString) -> bool {
        self.as_str() == other.as_str()
    }
}

impl Eq for ShortString {
    ghost use Rattle.std.specs.Cmp.Lexicographic.{nat_list_eq_equiv};

    ghost laws = { nat_list_eq_equiv };
}

impl PartialOrd for ShortString {
    ghost use Rattle.std.specs.Ordering.{nat_cmp};
    ghost use Rattle.std.specs.Cmp.Lexicographic.{slice_cmp, texts_po};

    ghost partial_cmp = { λ a b. Some (slice_cmp nat_cmp a b) };

    ghost laws = { texts_po };

    fn partial_cmp(&self, other: &ShortString) -> Option<Ordering> {
        Some(self.cmp(other))
    }
}

impl Ord for ShortString {
    ghost use Rattle.std.specs.Prelude.{refl};
    ghost use Rattle.std.specs.Ordering.{nat_cmp};
    ghost use Rattle.std.specs.Cmp.Lexicographic.{slice_cmp, nat_list_cmp_total, texts_ties};

    ghost cmp = { slice_cmp nat_cmp };

    ghost total = { nat_list_cmp_total };

    ghost matches_partial_cmp = { λ a b. refl };

    ghost matches_eq = { texts_ties };

    fn cmp(&self, other: &ShortString) -> Ordering {
        self.as_str().cmp(other.as_str())
    }
}

impl Hash for ShortString {
    ghost hash_input = { fed.str };

    ghost respects_eq = { Prim.search (hashing, rules) };

    fn hash<H: Hasher>(&self, state: &mut H) {
        self.as_str().hash(state);
    }
}

impl fmt::Display for ShortString {
    ghost output = { λ s. Some s };

    fn fmt<W: fmt::Write>(&self, f: &mut fmt::Formatter<W>) -> fmt::Result {
        f.write_str(self.as_str())
    }
}

/// The error for a string of more than 255 bytes.
#[derive(Clone, Copy, Debug, PartialEq, Eq)]
pub struct ShortStringError {
    length: usize,
}

impl ShortStringError {
    /// Returns the length of the rejected string in bytes, at least 256.
    pub fn length(&self) -> usize
        ensures { result ≡ refused_length self.now }
    {
        self.length
    }
}

impl fmt::Display for ShortStringError {
    ghost output = { λ e. Some (too_long_text e) };

    fn fmt<W: fmt::Write>(&self, f: &mut fmt::Formatter<W>) -> fmt::Result {
        write!(
            f,
            "ShortString exceeds maximum length of {} bytes (got {})",
            MAX_SHORT_STRING_LENGTH, self.length
        )
    }
}

impl Error for ShortStringError {}

/// Why `ShortString::try_copy` or a call that makes keys by it failed.
#[derive(Clone, Copy, Debug, PartialEq, Eq, thiserror::Error)]
pub enum TryCopyError {
    /// The string has more than 255 bytes.
    #[error(transparent)]
    TooLong(ShortStringError),
    /// An allocation failed.
    #[error("out of memory")]
    OutOfMemory,
}

impl From<AllocError> for TryCopyError {
    ghost use Rattle.amqp_value_core.specs.declared.types.short_string.TryCopyError.TheVariants.{OutOfMemory};

    ghost from_gives = { λ _ e. e ≡ OutOfMemory };

    fn from(_error: AllocError) -> TryCopyError {
        TryCopyError::OutOfMemory
    }
}
