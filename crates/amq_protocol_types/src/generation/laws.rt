//! Laws of writing, [`capacity_suffices`] and [`vectors_fail_for_memory`]: when a generator of values
//! succeeds, and which errors are left.
//!
//! Nothing here does anything when it runs: the contracts are the laws.

ghost use Rattle.std.specs.Prelude.{◌≡◌, ◌+◌, ◌^◌, ◌<◌, ◌≤◌, true, ℕ, Option, Some, Vec, Result, Err, IsOk, length};
ghost use Rattle.std.specs.declared.alloc.Global.{Global};
ghost use Rattle.amqp_value_core.specs.Values.{Tree};
ghost use Rattle.amqp_value_core.specs.Texts.{text, payload, size, Fits};
ghost use Rattle.amq_protocol_types.specs.declared.generation.error.GenError.{GenError};
ghost use Rattle.amq_protocol_types.specs.declared.generation.error.GenError.TheVariants.{OutOfMemory};
ghost use Rattle.amq_protocol_types.specs.generation.Outputs.{OutputState, Writes};
ghost use Rattle.amq_protocol_types.specs.generation.OutputViews.{seen_vector};

/// A buffer of fixed capacity takes what fits it, if each length fits its field: an encoding, and a
/// payload.
#[tactic(auto, using(crate::proofs::Vectors::has_capacity))]
pub fn capacity_suffices()
    ensures encoding { (v : Tree) (n : ℕ) (before after : OutputState) (r : Result (Unit {0}) GenError)
        → Writes true (Fits v) (text v) before r after → before.capacity ≡ Some n
        → Fits v → size v ≤ n → IsOk r }
    ensures payload { (v : Tree) (n : ℕ) (before after : OutputState) (r : Result (Unit {0}) GenError)
        → Writes true (Fits v) (payload v) before r after → before.capacity ≡ Some n
        → Fits v → length (payload v) ≤ n → IsOk r }
{}

/// A `Vec` fails only if memory runs out, if each length fits its field: for an encoding, and for a
/// payload.
#[tactic(auto, using(crate::proofs::Vectors::only_memory))]
pub fn vectors_fail_for_memory()
    ensures encoding { (v : Tree) (old new : Vec ℕ Global) (e : GenError)
        → Writes true (Fits v) (text v) (seen_vector old) (Err e) (seen_vector new)
        → Fits v → length old.items + size v < 2 ^ 64 → e ≡ OutOfMemory }
    ensures payload { (v : Tree) (old new : Vec ℕ Global) (e : GenError)
        → Writes true (Fits v) (payload v) (seen_vector old) (Err e) (seen_vector new)
        → Fits v → length old.items + length (payload v) < 2 ^ 64 → e ≡ OutOfMemory }
{}
