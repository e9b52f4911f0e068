//! `Span` (`amqpv_span`): bytes of an input or a buffer, by their offset and their number.

ghost use Rattle.std.specs.Prelude.{◌≡◌, ◌+◌, ◌<◌, ◌≤◌, ◌^◌, length, MatchOption};
ghost use Rattle.amqp_c.specs.Entries.{part, SpanIsIn, span_after, rest_after, last};

/// Bytes, by how many are before them and how many there are.
#[repr(C)]
#[derive(Clone, Copy)]
pub struct Span {
    /// How many bytes are before them.
    pub offset: usize,
    /// How many bytes there are.
    pub length: usize,
}

impl Span {
    /// The span of no byte, at the start.
    pub const NONE: Span = Span {
        offset: 0,
        length: 0,
    };

    /// The bytes of the span, if it is inside `bytes`.
    pub fn of(self, bytes: &[u8]) -> Option<&[u8]>
        ensures { MatchOption result
            (SpanIsIn (length bytes.now) self → ⊥)
            (λ found. SpanIsIn (length bytes.now) self × (found.now ≡ part bytes.now self)) }
    {
        if self.offset > bytes.len() || self.length > bytes.len() - self.offset {
            return None;
        }
        Some(&bytes[self.offset..self.offset + self.length])
    }

    /// The end of the span, if it is inside that many bytes.
    pub(crate) fn end_in(self, count: usize) -> Option<usize>
        ensures { MatchOption result
            (SpanIsIn count self → ⊥)
            (λ end. SpanIsIn count self × (end ≡ self.offset + self.length)) }
    {
        if self.offset > count || self.length > count - self.offset {
            return None;
        }
        Some(self.offset + self.length)
    }

    /// The span, with that many bytes more before it.
    pub(crate) fn span_after(self, by: usize) -> Span
        requires { self.offset + by < 2 ^ 64 }
        ensures { result ≡ span_after by self }
    {
        Span {
            offset: self.offset + by,
            length: self.length,
        }
    }

    /// What is after a part of the span, in the span.
    pub(crate) fn rest_after(self, part: Span) -> Span
        requires part { part.offset + part.length ≤ self.offset + self.length }
        requires fits { self.offset + self.length < 2 ^ 64 }
        ensures { result ≡ rest_after self part }
    {
        let offset = part.offset + part.length;
        Span {
            offset,
            length: self.offset + self.length - offset,
        }
    }

    /// That many of its last bytes.
    pub(crate) fn last(self, count: usize) -> Span
        requires count { count ≤ self.length }
        requires fits { self.offset + self.length < 2 ^ 64 }
        ensures { result ≡ last self count }
    {
        let before = self.length - count;
        Span {
            offset: self.offset + before,
            length: count,
        }
    }
}
