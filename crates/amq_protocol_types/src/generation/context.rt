//! [`WriteContext`], through which generators write to an output. It counts the bytes.

ghost use Rattle.std.specs.Prelude.{◌≡◌, ◌-◌, ◌+◌, ◌≤◌, true, ⊤, IfOk, [], ◌∷◌, ◌++◌, length, replicate};
ghost use Rattle.amq_protocol_types.specs.generation.BufferOutput.{IsConsistentOutput, AppendsBytes, PromisesCapacity, outcome_of, filled, TruncatesTo};
ghost use Rattle.amq_protocol_types.specs.generation.Outputs.{Writes};
ghost use Rattle.amq_protocol_types.specs.generation.Contexts.{output_of, start_of, state_of};

use crate::generation::{BackToTheBuffer, GenError, GenResult, Output};

/// What serializers write through: an output, and its position when this context was made. `From`
/// makes one of an output.
#[derive(Drop)]
pub struct WriteContext<W: Output> {
    output: W,
    start: u64,
}

impl<W: Output> From<W> for WriteContext<W> {
    ghost use Rattle.std.specs.Prelude.{◌≡◌};
    ghost use Rattle.amq_protocol_types.specs.generation.Contexts.{output_of, start_of};

    ghost from_gives = { λ w x. (output_of x ≡ w) × (start_of x ≡ (W.seen w).position) };

    fn from(output: W) -> Self {
        let start = output.position();
        WriteContext { output, start }
    }
}

impl<W: Output> WriteContext<W> {
    /// Returns the number of bytes written through this context. Bytes that the output had before
    /// don't count.
    pub fn position(&self) -> u64
        ensures { result ≡ (state_of W.seen self.now).position - start_of self.now }
    {
        self.output.position().saturating_sub(self.start)
    }

    /// Appends all of `bytes` to the output, or returns an error.
    pub fn put(&mut self, bytes: &[u8]) -> GenResult
        ensures put { AppendsBytes W.is_buffer bytes.now
            (state_of W.seen self.old) result (state_of W.seen self.new) }
        ensures start { start_of self.new ≡ start_of self.old }
    {
        self.output.put(bytes)
    }

    // Appends all of `a`, then all of `b`, or returns an error.
    pub(crate) fn put_both(&mut self, a: &[u8], b: &[u8]) -> GenResult
        ensures written { Writes W.is_buffer ⊤ (a.now ++ b.now)
            (state_of W.seen self.old) result (state_of W.seen self.new) }
        ensures start { start_of self.new ≡ start_of self.old }
    {
        self.output.put_both(a, b)
    }

    // Reserves capacity for `n` more bytes, so that a buffer won't reject them, or fails.
    pub(crate) fn make_room(&mut self, n: usize) -> GenResult
        ensures made { PromisesCapacity W.is_buffer n
            (state_of W.seen self.old) result (state_of W.seen self.new) }
        ensures start { start_of self.new ≡ start_of self.old }
    {
        self.output.make_room(n)
    }

    /// Returns the output, and the number of bytes written through this context.
    pub fn into_inner(self) -> (W, u64)
        ensures output { result.0 ≡ output_of self }
        ensures count { result.1 ≡ (state_of W.seen self).position - start_of self }
    {
        let count = self.position();
        (self.output, count)
    }
}

impl<W: BackToTheBuffer> WriteContext<W> {
    // The output's position.
    pub(crate) fn at(&self) -> u64
        ensures at { result ≡ (state_of W.seen self.now).position }
        ensures whole { IsConsistentOutput (state_of W.seen self.now) }
    {
        self.output.position()
    }

    // Appends `n` bytes of 0 and returns the position before them, or fails.
    pub(crate) fn reserve(&mut self, n: usize) -> Result<u64, GenError>
        ensures written { Writes true ⊤ (replicate n 0)
            (state_of W.seen self.old) (outcome_of result) (state_of W.seen self.new) }
        ensures place { IfOk result (λ at. at ≡ (state_of W.seen self.old).position) }
        ensures start { start_of self.new ≡ start_of self.old }
        ensures whole { IsConsistentOutput (state_of W.seen self.old) }
    {
        self.output.reserve(n)
    }

    // Appends all of `a`, then all of `b`, then `c`, or returns an error.
    pub(crate) fn put_three(&mut self, a: &[u8], b: &[u8], c: u8) -> GenResult
        ensures written { Writes true ⊤ (a.now ++ (b.now ++ c ∷ []))
            (state_of W.seen self.old) result (state_of W.seen self.new) }
        ensures start { start_of self.new ≡ start_of self.old }
    {
        self.output.put_three(a, b, c)
    }

    // Replaces the bytes from the output's position `at` on.
    pub(crate) fn fill(&mut self, at: u64, bytes: &[u8])
        requires { at + length bytes.now ≤ (state_of W.seen self.old).position }
        ensures filled { state_of W.seen self.new ≡ filled (state_of W.seen self.old) at bytes.now }
        ensures start { start_of self.new ≡ start_of self.old }
    {
        self.output.fill(at, bytes);
    }

    // Takes back the bytes from the output's position `at` on.
    pub(crate) fn back_to(&mut self, at: u64)
        requires { at ≤ (state_of W.seen self.old).position }
        ensures back { TruncatesTo at (state_of W.seen self.old) (state_of W.seen self.new) }
        ensures start { start_of self.new ≡ start_of self.old }
    {
        self.output.back_to(at);
    }
}
