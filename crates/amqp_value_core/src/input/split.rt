//! `SplitInput`: two slices as one input, as a ring buffer has them. The rows of
//! `crates/test_calls/data/inputs.calls` test it.

// The tactic at the function names the lemma that bytes after bytes are bytes.

ghost use Rattle.std.specs.Prelude.{◌≡◌, ◌+◌, ◌-◌, ◌^◌, ◌<◌, ◌≤◌, ◌++◌, length, take, drop};

use crate::input::{ParsableInput, length_of};

/// Two slices of bytes as one input, the first's bytes before the second's, as a ring buffer has
/// them. They aren't joined: each byte stays in its part.
#[derive(Clone, Copy, Debug)]
pub struct SplitInput<'a> {
    first: &'a [u8],
    second: &'a [u8],
    ghost fits: { length first.now + length second.now < 2 ^ 64 },
}

impl<'a> SplitInput<'a> {
    ghost use Rattle.amqp_value_core.specs.Bytes.{split_first, split_second};

    /// Makes an input of two slices. Doesn't copy or allocate. Precondition: a `usize` holds the
    /// sum of their lengths.
    pub fn new(first: &'a [u8], second: &'a [u8]) -> Self
        requires { length first.now + length second.now < 2 ^ 64 }
        ensures first { split_first result ≡ first.now }
        ensures second { split_second result ≡ second.now }
    {
        SplitInput { first, second }
    }

    /// Returns the bytes as two slices, of which either may be empty.
    pub fn parts(&self) -> (&'a [u8], &'a [u8])
        ensures first { result.0.now ≡ split_first self.now }
        ensures second { result.1.now ≡ split_second self.now }
    {
        (self.first, self.second)
    }
}

impl<'a> ParsableInput for SplitInput<'a> {
    ghost use Rattle.amqp_value_core.specs.Bytes.{IsPrefix, split_first, split_second};

    ghost bytes = { λ s. split_first s ++ split_second s };

    #[tactic(auto, using(crate::proofs::Bytes::bytes_join))]
    fn input_len(&self) -> usize {
        length_of(self.first) + length_of(self.second)
    }

    fn byte_at(&self, i: usize) -> u8 {
        if i < self.first.len() {
            self.first[i]
        } else {
            self.second[i - self.first.len()]
        }
    }

    /// The first `n` bytes, each in its part.
    fn take(&self, n: usize) -> Self
        requires { n ≤ length (split_first self.now ++ split_second self.now) }
        ensures bytes { split_first result ++ split_second result
            ≡ take n (split_first self.now ++ split_second self.now) }
        ensures first { split_first result ≡ take n (split_first self.now) }
        ensures second { split_second result ≡ take (n - length (split_first self.now)) (split_second self.now) }
    {
        if n < self.first.len() {
            SplitInput {
                first: &self.first[..n],
                second: &self.second[..0],
            }
        } else {
            SplitInput {
                first: self.first,
                second: &self.second[..n - self.first.len()],
            }
        }
    }

    /// All bytes but the first `n`, each in its part.
    fn take_from(&self, n: usize) -> Self
        requires { n ≤ length (split_first self.now ++ split_second self.now) }
        ensures bytes { split_first result ++ split_second result
            ≡ drop n (split_first self.now ++ split_second self.now) }
        ensures first { split_first result ≡ drop n (split_first self.now) }
        ensures second { split_second result ≡ drop (n - length (split_first self.now)) (split_second self.now) }
    {
        let end = self.first.len();
        SplitInput {
            first: &self.first[n.min(end)..],
            second: &self.second[n.saturating_sub(end)..],
        }
    }

    /// The first part that isn't empty.
    fn chunk(&self) -> &[u8]
        ensures prefix { IsPrefix result.now (split_first self.now ++ split_second self.now) }
        ensures some { 0 < length (split_first self.now ++ split_second self.now) → 0 < length result.now }
    {
        if self.first.is_empty() {
            self.second
        } else {
            self.first
        }
    }
}
