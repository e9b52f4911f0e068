//! [`Output`], the trait of what generators write to, and [`BackToTheBuffer`], the trait of a
//! buffer, whose bytes can be changed or taken back.

ghost use Rattle.std.specs.Prelude.{◌≡◌, ◌+◌, ◌≤◌, Bool, true, ⊤, IfOk, [], ◌∷◌, ◌++◌, length, replicate};
ghost use Rattle.amq_protocol_types.specs.generation.Outputs.{OutputState, Writes};
ghost use Rattle.amq_protocol_types.specs.generation.BufferOutput.{IsConsistentOutput, AppendsBytes, PromisesCapacity, outcome_of, filled, TruncatesTo};

use crate::generation::{GenError, GenResult};

/// What generators write to: bytes are appended at its end.
///
/// Its model has the bytes written, a position, a capacity that is fixed or open, a guarantee of
/// how many further bytes it won't reject, and a count of its device's faults. It is a buffer if
/// its model has its bytes and an error leaves them unchanged. Only a buffer of open capacity may
/// return `OutOfMemory`: a fixed one needs no memory, and what a device needs is the device's own
/// failure.
pub trait Output {
    ghost is_buffer: { Bool };

    ghost seen: { Self → OutputState };

    /// Appends all of `bytes`, or returns an error.
    fn put(&mut self, bytes: &[u8]) -> GenResult
        ensures { AppendsBytes is_buffer bytes.now (seen self.old) result (seen self.new) };

    /// Reserves capacity for `n` more bytes, so that a buffer won't reject them, or returns an
    /// error.
    fn make_room(&mut self, n: usize) -> GenResult
        ensures { PromisesCapacity is_buffer n (seen self.old) result (seen self.new) };

    /// Appends all of `a`, then all of `b`, or returns an error.
    fn put_both(&mut self, a: &[u8], b: &[u8]) -> GenResult
        ensures { Writes is_buffer ⊤ (a.now ++ b.now) (seen self.old) result (seen self.new) }
    {
        self.make_room(a.len() + b.len())?;
        self.put(a)?;
        self.put(b)
    }

    /// The number of bytes before the next one.
    fn position(&self) -> u64
        ensures { result ≡ (seen self.now).position };

    /// How often the device failed; it saturates at the greatest `u64`.
    fn faults(&self) -> u64
        ensures { result ≡ (seen self.now).faults };
}

/// A buffer, whose bytes can be changed and truncated after they were written.
///
/// An implementor must guarantee that it is a buffer, and that its model has as many bytes as its
/// position states.
pub trait BackToTheBuffer: Output {
    /// Appends `n` bytes of 0 and returns the position before them, or returns an error.
    fn reserve(&mut self, n: usize) -> Result<u64, GenError>
        ensures written { Writes true ⊤ (replicate n 0)
            (Self.seen self.old) (outcome_of result) (Self.seen self.new) }
        ensures place { IfOk result (λ at. at ≡ (Self.seen self.old).position) };

    /// Appends all of `a`, then all of `b`, then `c`, or returns an error.
    fn put_three(&mut self, a: &[u8], b: &[u8], c: u8) -> GenResult
        ensures { Writes true ⊤ (a.now ++ (b.now ++ c ∷ [])) (Self.seen self.old) result (Self.seen self.new) }
    {
        let at = self.position();
        self.put_both(a, b)?;
        if let Err(e) = self.put(&[c]) {
            self.back_to(at);
            return Err(e);
        }
        Ok(())
    }

    /// Overwrites the bytes from `at` on with `bytes`.
    fn fill(&mut self, at: u64, bytes: &[u8])
        requires { at + length bytes.now ≤ (Self.seen self.old).position }
        ensures { Self.seen self.new ≡ filled (Self.seen self.old) at bytes.now };

    /// Cuts the buffer to the position `at`.
    fn back_to(&mut self, at: u64)
        requires { at ≤ (Self.seen self.old).position }
        ensures { TruncatesTo at (Self.seen self.old) (Self.seen self.new) };

    ghost is_one: { Self.is_buffer ≡ true };

    ghost whole: { (s : Self) → IsConsistentOutput (Self.seen s) };
}
