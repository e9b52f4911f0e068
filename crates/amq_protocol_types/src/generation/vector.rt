//! A `Vec<u8>` as an [`Output`], whose capacity grows.

ghost use Rattle.std.specs.Prelude.{◌≡◌, ◌+◌, ⊤, true, IfOk, IfErr, length, replicate};
ghost use Rattle.amq_protocol_types.specs.generation.BufferOutput.{AppendsBytes, PromisesCapacity, outcome_of};
ghost use Rattle.amq_protocol_types.specs.generation.Outputs.{Writes};
ghost use Rattle.amq_protocol_types.specs.generation.OutputViews.{seen_vector};
ghost use Rattle.amq_protocol_types.specs.declared.generation.error.GenError.TheVariants.{OutOfMemory};

use crate::generation::{BackToTheBuffer, GenError, GenResult, Output};
use std::alloc::AllocError;

impl From<AllocError> for GenError {
    ghost from_gives = { λ _ e. e ≡ OutOfMemory };

    fn from(_error: AllocError) -> GenError {
        GenError::OutOfMemory
    }
}

/// A `Vec` as a buffer of open capacity, written at its end. Its position is its length, and it
/// returns an error only if an allocation fails.
impl Output for Vec<u8> {
    ghost is_buffer = { true };

    ghost seen = { seen_vector };

    fn put(&mut self, bytes: &[u8]) -> GenResult
        ensures put { AppendsBytes true bytes.now
            (seen_vector self.old) result (seen_vector self.new) }
        ensures refused { IfErr result (λ e. e ≡ OutOfMemory) }
    {
        Ok(self.extend_from_slice(bytes)?)
    }

    fn make_room(&mut self, n: usize) -> GenResult
        ensures made { PromisesCapacity true n (seen_vector self.old) result (seen_vector self.new) }
        ensures refused { IfErr result (λ e. e ≡ OutOfMemory) }
    {
        Ok(self.try_reserve(n)?)
    }

    fn position(&self) -> u64 {
        self.len() as u64
    }

    fn faults(&self) -> u64 {
        0
    }
}

impl BackToTheBuffer for Vec<u8> {
    ghost use Rattle.std.specs.Prelude.{refl};

    ghost is_one = { refl };

    ghost whole = { λ v. record { written = refl; counted = refl; tail = tt } };

    fn reserve(&mut self, n: usize) -> Result<u64, GenError>
        ensures written { Writes true ⊤ (replicate n 0)
            (seen_vector self.old) (outcome_of result) (seen_vector self.new) }
        ensures place { IfOk result (λ at. at ≡ (seen_vector self.old).position) }
        ensures refused { IfErr result (λ e. e ≡ OutOfMemory) }
    {
        let at = self.len();
        self.try_reserve(n)?;
        self.resize(at + n, 0)?;
        Ok(at as u64)
    }

    fn fill(&mut self, at: u64, bytes: &[u8]) {
        let at = at as usize;
        self[at..at + bytes.len()].copy_from_slice(bytes);
    }

    fn back_to(&mut self, at: u64) {
        self.truncate(at as usize);
    }
}
