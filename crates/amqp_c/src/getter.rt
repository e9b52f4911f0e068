//! `as_int` and `as_uint`: the integer of an `Entry`, for `amqpv_as_int` and `amqpv_as_uint`.

ghost use Rattle.std.specs.Prelude.{pos, MatchBool, MatchResult};
ghost use Rattle.amqp_c.specs.Scalars.{IsSignedTag, IsUnsignedTag, IsInteger, RefusesInt, RefusesUint};

use crate::Fault;
use crate::entry::Entry;

impl Entry {
    // This tactic and the next name lemmas on integers by their sign, which no callee's clause states.
    /// Its integer, if that fits an `i64`.
    #[tactic(auto, using(crate::proofs::Scalars::no_integer, crate::proofs::Scalars::signed_is, crate::proofs::Scalars::unsigned_is, crate::proofs::Scalars::too_great))]
    pub fn as_int(&self) -> Result<i64, Fault>
        ensures { MatchResult result (IsInteger self.now) (RefusesInt self.now) }
    {
        if is_signed_tag(self.tag) {
            return Ok(self.bits.cast_signed());
        }
        if !is_unsigned_tag(self.tag) {
            return Err(Fault::BadTag);
        }
        let Ok(number) = i64::try_from(self.bits) else {
            return Err(Fault::OutOfRange);
        };
        Ok(number)
    }

    /// Its integer, if that isn't below 0.
    #[tactic(auto, using(crate::proofs::Scalars::no_integer, crate::proofs::Scalars::unsigned_is, crate::proofs::Scalars::uint_is, crate::proofs::Scalars::below_0))]
    pub fn as_uint(&self) -> Result<u64, Fault>
        ensures { MatchResult result (λ n. IsInteger self.now (pos n)) (RefusesUint self.now) }
    {
        if is_unsigned_tag(self.tag) {
            return Ok(self.bits);
        }
        if !is_signed_tag(self.tag) {
            return Err(Fault::BadTag);
        }
        let Ok(number) = u64::try_from(self.bits.cast_signed()) else {
            return Err(Fault::OutOfRange);
        };
        Ok(number)
    }
}

/// Whether it is the type tag of signed numbers.
fn is_signed_tag(tag: u8) -> bool
    ensures { MatchBool result (IsSignedTag tag) (IsSignedTag tag → ⊥) }
{
    tag == b'b' || tag == b's' || tag == b'I' || tag == b'l'
}

/// Whether it is the type tag of unsigned numbers.
fn is_unsigned_tag(tag: u8) -> bool
    ensures { MatchBool result (IsUnsignedTag tag) (IsUnsignedTag tag → ⊥) }
{
    tag == b'B' || tag == b'u' || tag == b'i'
}
