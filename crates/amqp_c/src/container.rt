//! `Container` (`amqpv_container`): an array or a table that is being built in a buffer, and
//! whether an entry with some key can be added to it.

ghost use Rattle.std.specs.Prelude.{◌≡◌, ◌≤◌, ◌<◌, ◌^◌, ℕ, List, length, MatchBool, MatchResult};
ghost use Rattle.amqp_c.specs.Entries.{IsContainerTag};
ghost use Rattle.amqp_c.specs.Containers.{IsKeyOf, HasNoneOpen, IsPlace, named, end_of, up_to, empty_at};
ghost use Rattle.amqp_c.specs.BuildCalls.{RefusesPlace};

use crate::key::is_key;
use crate::{Fault, Span};

/// An array or a table that is being put together.
#[repr(C)]
#[derive(Clone, Copy)]
pub struct Container {
    /// Its body, as far as it is written.
    pub written: Span,
    /// The type tag: `A` of an array, `F` of a table.
    pub tag: u8,
    /// 1 while an entry that was opened in it isn't closed, otherwise 0.
    pub inner: u8,
    /// 0 if keys that are put must be UTF-8. With any other number they may be any bytes, also in what is opened there.
    pub any_keys: u8,
    /// After a buffer was too small for an entry: the capacity that it should have had.
    pub needed: usize,
}

/// Whether it is the type tag of an array or a table.
pub fn is_container_tag(tag: u8) -> bool
    ensures { MatchBool result (IsContainerTag tag) (IsContainerTag tag → ⊥) }
{
    tag == b'A' || tag == b'F'
}

impl Container {
    /// A container of which nothing is written yet.
    pub fn empty_at(at: usize, tag: u8, any_keys: u8) -> Container
        ensures { result ≡ empty_at at tag any_keys }
    {
        Container {
            written: Span {
                offset: at,
                length: 0,
            },
            tag,
            inner: 0,
            any_keys,
            needed: 0,
        }
    }

    /// Where the next entry begins, at the end of what is written, if in a buffer of that many bytes
    /// one with this key can be put.
    pub fn place(self, buffer_length: usize, key: &[u8]) -> Result<usize, Fault>
        ensures { MatchResult result
            (λ at. IsPlace buffer_length self key.now × (at ≡ end_of self))
            (RefusesPlace buffer_length self key.now) }
    {
        let Some(at) = self.written.end_in(buffer_length) else {
            return Err(Fault::Invalid);
        };
        if self.inner != 0 {
            return Err(Fault::Invalid);
        }
        if !is_container_tag(self.tag) {
            return Err(Fault::Invalid);
        }
        if !self.has_key(key) {
            return Err(Fault::BadKey);
        }
        Ok(at)
    }

    /// Whether an entry may have this key: in an array no key, in a table each short string, and if keys may
    /// be any bytes, each of at most 255.
    #[inline(always)]
    fn has_key(self, key: &[u8]) -> bool
        ensures { MatchBool result (IsKeyOf self key.now) (IsKeyOf self key.now → ⊥) }
    {
        match self.tag {
            b'A' => key.is_empty(),
            b'F' => is_key(key, self.any_keys),
            _ => false,
        }
    }

    /// Whether these bytes can be before the value of an entry.
    pub fn has_name(self, name: &[u8]) -> bool
        ensures { MatchBool result
            ((k : List ℕ) × IsKeyOf self k × (name.now ≡ named self.tag k))
            ((k : List ℕ) → IsKeyOf self k → name.now ≡ named self.tag k → ⊥) }
    {
        if self.tag != b'F' {
            return self.has_key(name);
        }
        let Some((length, key)) = name.split_first() else {
            return false;
        };
        usize::from(*length) == key.len() && self.has_key(key)
    }

    /// The container, if what is written ends there, and nothing is open in it.
    pub fn up_to(self, at: usize) -> Container
        requires begins { self.written.offset ≤ at }
        requires none { HasNoneOpen self }
        ensures { result ≡ up_to at self }
    {
        Container {
            written: Span {
                offset: self.written.offset,
                length: at - self.written.offset,
            },
            ..self
        }
    }
}
