//! [`SliceOutput`]: a slice as an [`Output`], whose capacity is fixed.

ghost use Rattle.std.specs.Prelude.{◌≡◌, []};
ghost use Rattle.amq_protocol_types.specs.generation.OutputViews.{seen_slice};

use crate::generation::{BackToTheBuffer, GenError, GenResult, Output};
use std::marker::Model;

/// A slice as a buffer of fixed capacity, written from its start. Bytes that don't fit are rejected
/// with `BufferTooSmall`. Doesn't allocate.
#[derive(Drop)]
pub struct SliceOutput<'a> {
    slice: &'a mut [u8],
    at: usize,
}

impl<'a> Model for SliceOutput<'a> {
    ghost use Rattle.std.specs.Prelude.{◌≤◌, take, drop, length};
    ghost use Rattle.amq_protocol_types.specs.generation.OutputViews.{Sliced};

    ghost Value = { Sliced };

    ghost view = { λ s. record { put = take s.at s.slice.now; tail = drop s.at s.slice.now } };

    ghost invariant = { λ s. s.at ≤ length s.slice.now };
}

impl<'a> SliceOutput<'a> {
    /// Makes a buffer of the slice, with nothing written.
    pub fn new(slice: &'a mut [u8]) -> Self
        ensures { result ≡ record { put = []; tail = slice.old } }
    {
        SliceOutput { slice, at: 0 }
    }

    /// Returns the bytes written so far.
    pub fn written(&self) -> &[u8]
        ensures { result.now ≡ self.now.put }
    {
        &self.slice[..self.at]
    }
}

impl<'a> Output for SliceOutput<'a> {
    ghost use Rattle.std.specs.Prelude.{true};

    ghost is_buffer = { true };

    ghost seen = { seen_slice };

    fn put(&mut self, bytes: &[u8]) -> GenResult {
        if bytes.len() > self.slice.len() - self.at {
            return Err(GenError::BufferTooSmall);
        }
        let at = self.at;
        let end = at + bytes.len();
        self.at = end;
        self.slice[at..end].copy_from_slice(bytes);
        Ok(())
    }

    fn put_both(&mut self, a: &[u8], b: &[u8]) -> GenResult {
        let at = self.at;
        let slice = &mut *self.slice;
        if a.len() + b.len() > slice.len() - at {
            return Err(GenError::BufferTooSmall);
        }
        let middle = at + a.len();
        let end = middle + b.len();
        self.at = end;
        slice[at..middle].copy_from_slice(a);
        slice[middle..end].copy_from_slice(b);
        Ok(())
    }

    fn make_room(&mut self, n: usize) -> GenResult {
        if n > self.slice.len() - self.at {
            return Err(GenError::BufferTooSmall);
        }
        Ok(())
    }

    fn position(&self) -> u64 {
        self.at as u64
    }

    fn faults(&self) -> u64 {
        0
    }
}

impl<'a> BackToTheBuffer for SliceOutput<'a> {
    ghost use Rattle.std.specs.Prelude.{refl};

    ghost is_one = { refl };

    ghost whole = { λ s. record { written = refl; counted = refl; tail = refl } };

    fn reserve(&mut self, n: usize) -> Result<u64, GenError> {
        if n > self.slice.len() - self.at {
            return Err(GenError::BufferTooSmall);
        }
        let at = self.at;
        let end = at + n;
        self.slice[at..end].fill(0);
        self.at = end;
        Ok(at as u64)
    }

    fn put_three(&mut self, a: &[u8], b: &[u8], c: u8) -> GenResult {
        let at = self.at;
        let slice = &mut *self.slice;
        if a.len() + b.len() >= slice.len() - at {
            return Err(GenError::BufferTooSmall);
        }
        let middle = at + a.len();
        let end = middle + b.len();
        self.at = end + 1;
        // `b` is copied last, since its copy may be a call
        slice[end..end + 1].copy_from_slice(&[c]);
        slice[at..middle].copy_from_slice(a);
        slice[middle..end].copy_from_slice(b);
        Ok(())
    }

    fn fill(&mut self, at: u64, bytes: &[u8]) {
        let at = at as usize;
        self.slice[at..at + bytes.len()].copy_from_slice(bytes);
    }

    fn back_to(&mut self, at: u64) {
        self.at = at as usize;
    }
}
