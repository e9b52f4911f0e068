//! `ParsableInput`, the bytes that a parser reads, and `SliceInput`, the bytes of one slice.

ghost use Rattle.std.specs.Prelude.{◌≡◌, ◌<◌, ◌≤◌, List, ℕ, length, slice_index, take, drop};
ghost use Rattle.amqp_value_core.specs.Bytes.{IsPrefix, IsBytes};

mod split;

pub use split::SplitInput;

/// The input of a parser: a list of bytes, each below 256. Its calls don't allocate and copy no
/// byte.
///
/// An implementor must guarantee the clauses below, and that copies of an input have the same
/// bytes. Each parser of this project works over every implementor.
pub trait ParsableInput: Copy {
    ghost bytes: { Self → List ℕ };

    /// The number of bytes.
    fn input_len(&self) -> usize
        ensures count { result ≡ length (bytes self.now) }
        ensures bytes { IsBytes (bytes self.now) };

    /// The byte at index `i`, counted from 0.
    fn byte_at(&self, i: usize) -> u8
        requires { i < length (bytes self.now) }
        ensures { result ≡ slice_index (bytes self.now) i };

    /// The first `n` bytes.
    fn take(&self, n: usize) -> Self
        requires { n ≤ length (bytes self.now) }
        ensures { bytes result ≡ take n (bytes self.now) };

    /// All bytes but the first `n`.
    fn take_from(&self, n: usize) -> Self
        requires { n ≤ length (bytes self.now) }
        ensures { bytes result ≡ drop n (bytes self.now) };

    /// A prefix of the bytes as a slice: as many as are contiguous, possibly zero. Parsers copy
    /// bytes chunk by chunk, and byte by byte if a chunk is empty. An implementor may leave it out.
    fn chunk(&self) -> &[u8]
        ensures { IsPrefix result.now (bytes self.now) }
    {
        &[]
    }
}

// How many bytes a slice has, each below 256.
#[inline(always)]
fn length_of(bytes: &[u8]) -> usize
    ensures count { result ≡ length bytes.now }
    ensures bytes { IsBytes bytes.now }
{
    bytes.len()
}

/// A slice of bytes as an input. It is a reference: copies are cheap.
#[derive(Clone, Copy, Debug)]
pub struct SliceInput<'a> {
    slice: &'a [u8],
}

impl<'a> SliceInput<'a> {
    ghost use Rattle.amqp_value_core.specs.Bytes.{slice_bytes};

    /// Makes an input of all bytes of a slice. Doesn't copy or allocate.
    pub fn new(slice: &'a [u8]) -> Self
        ensures { slice_bytes result ≡ slice.now }
    {
        SliceInput { slice }
    }

    /// Returns the bytes. The slice outlives the input: it lives as long as the one that the input
    /// was made of.
    pub fn as_slice(&self) -> &'a [u8]
        ensures { result.now ≡ slice_bytes self.now }
    {
        self.slice
    }
}

impl<'a> ParsableInput for SliceInput<'a> {
    ghost use Rattle.amqp_value_core.specs.Bytes.{slice_bytes};

    ghost bytes = { slice_bytes };

    fn input_len(&self) -> usize {
        length_of(self.slice)
    }

    fn byte_at(&self, i: usize) -> u8 {
        self.slice[i]
    }

    fn take(&self, n: usize) -> Self {
        SliceInput {
            slice: &self.slice[..n],
        }
    }

    fn take_from(&self, n: usize) -> Self {
        SliceInput {
            slice: &self.slice[n..],
        }
    }

    /// All of the bytes.
    fn chunk(&self) -> &[u8]
        ensures all { result.now ≡ slice_bytes self.now }
        ensures prefix { IsPrefix result.now (slice_bytes self.now) }
    {
        self.as_slice()
    }
}
