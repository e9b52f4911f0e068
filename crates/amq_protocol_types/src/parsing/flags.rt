//! [`parse_flags`] reads an [`AMQPFlags`] (`src/flags.rt`) from packed bytes, by the flags' names.

ghost use Rattle.std.specs.Prelude.{MatchResult, map, length};
ghost use Rattle.amq_protocol_types.specs.parsing.ParseResults.{IsRefusal};
ghost use Rattle.amq_protocol_types.specs.Flags.{flags_of, AreFlagsRead, AreFlagsCut, AreFlagsHeavy};

use super::errors::{ParserResult, lacks};
use crate::flags::AMQPFlags;
use amqp_value_core::input::ParsableInput;
use std::alloc::Global;

/// Parses a flag for each name: as many bytes as the names need, eight flags to a byte, the lowest
/// bit of a byte first (AMQP 0-9-1, section 4.2.5.2). Unused bits are ignored.
///
/// Returns `Incomplete` with the number of missing bytes, and `Failure` if an allocation fails. It
/// allocates only if there is a name and the bytes are all there.
pub fn parse_flags<I: ParsableInput>(
    alloc: Global,
    i: I,
    names: &[&str],
) -> ParserResult<I, AMQPFlags>
    ensures { MatchResult result
        (λ x. AreFlagsRead (map (λ n. n.now) names.now) (I.bytes i) (flags_of x.1) (I.bytes x.0))
        (IsRefusal (AreFlagsCut (length names.now) (I.bytes i))
        (AreFlagsHeavy (length names.now) (I.bytes i))) }
{
    let len = names.len().div_ceil(8);
    let there = i.input_len();
    if there < len {
        return Err(lacks(len - there));
    }
    let flags = AMQPFlags::from_bytes(alloc, names, i.take(len))?;
    Ok((i.take_from(len), flags))
}
