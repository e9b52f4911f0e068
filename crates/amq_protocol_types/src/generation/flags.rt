//! [`gen_flags`] writes the flags of an [`AMQPFlags`] (`src/flags.rt`), eight to a byte.

ghost use Rattle.std.specs.Prelude.{⊤};
ghost use Rattle.amq_protocol_types.specs.generation.Outputs.{Writes};
ghost use Rattle.amq_protocol_types.specs.generation.Contexts.{state_of, KeepsStart};
ghost use Rattle.amq_protocol_types.specs.Flags.{flags_of, values_of, pack, AreFlagsReadBack};

use crate::flags::{AMQPFlags, byte_of};
use crate::generation::{GenResult, Output, WriteContext};

/// Writes flags, eight to a byte, the first one in the lowest bit. It packs as it goes, and doesn't
/// allocate, except that a `Vec` grows.
///
/// What is written is read back by the flags' names as the same flags, whatever follows.
pub fn gen_flags<W: Output>(flags: &AMQPFlags, x: &mut WriteContext<W>) -> GenResult
    ensures written { Writes W.is_buffer ⊤ (pack (values_of (flags_of flags.now)))
        (state_of W.seen x.old) result (state_of W.seen x.new) }
    ensures read_back { AreFlagsReadBack (flags_of flags.now) }
    ensures start { KeepsStart x.old x.new }
{
    let all = flags.as_slice();
    x.make_room(all.len().div_ceil(8))?;
    for eight in all.chunks(8) {
        x.put(&[byte_of(eight)])?;
    }
    Ok(())
}
