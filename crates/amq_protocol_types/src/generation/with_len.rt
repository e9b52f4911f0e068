//! [`gen_with_len`] writes a length in four bytes before what a closure writes.
//! `crates/test_codec/src/closures.rt` tests it.

ghost use Rattle.std.specs.Prelude.{◌≡◌, Result, OnOk, OnErr, IfErr};
ghost use Rattle.std.specs.Fn.{FnOnceReturnsAtMut};
ghost use Rattle.amq_protocol_types.specs.declared.generation.context.WriteContext.{WriteContext};
ghost use Rattle.amq_protocol_types.specs.declared.generation.error.GenError.{GenError};
ghost use Rattle.amq_protocol_types.specs.generation.Contexts.{state_of};
ghost use Rattle.amq_protocol_types.specs.generation.Lengths.{OnlyAppends, AppendsWithLength, RefusesWithLength};

use crate::generation::values::fill_length;
use crate::generation::{BackToTheBuffer, GenResult, WriteContext};

/// Writes the length of what `f` appends in four bytes, big-endian, then what it appends.
///
/// Precondition: `f` only appends, whatever it returns. If `f` returns an error, that is returned,
/// and if it appends more than 4294967295 bytes, `LengthTooLong`. On an error the position and the
/// bytes before it are unchanged.
pub fn gen_with_len<W: BackToTheBuffer, F: FnOnce(&mut WriteContext<W>) -> GenResult>(
    f: F,
    x: &mut WriteContext<W>,
) -> GenResult
    requires callable { F.IsAlwaysCallable f }
    requires appends { (old new : WriteContext W) (r : Result (Unit {0}) GenError) →
        FnOnceReturnsAtMut F.FnOnce f old r new
        → OnlyAppends (state_of W.seen old) r (state_of W.seen new) }
    ensures ok { OnOk result
        (AppendsWithLength W.seen (FnOnceReturnsAtMut F.FnOnce f) x.old x.new) }
    ensures err { IfErr result
        (RefusesWithLength W.seen (FnOnceReturnsAtMut F.FnOnce f) x.old x.new) }
    ensures kept { OnErr result
        ((state_of W.seen x.new).written ≡ (state_of W.seen x.old).written) }
    ensures stayed { OnErr result
        ((state_of W.seen x.new).position ≡ (state_of W.seen x.old).position) }
    ensures only { OnlyAppends (state_of W.seen x.old) result (state_of W.seen x.new) }
{
    let at = x.reserve(4)?;
    if let Err(e) = f(x) {
        x.back_to(at);
        return Err(e);
    }
    fill_length(at, x)
}
