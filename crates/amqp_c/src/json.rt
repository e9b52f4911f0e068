//! `put_json`, for `amqpv_proved_to_json`: writes the JSON text of a value. Nothing is allocated.

ghost use Rattle.std.specs.Prelude.{◌≡◌, false, length, Err, MatchResult};
ghost use Rattle.amqp_c.specs.declared.fault.Fault.TheVariants.{Invalid};
ghost use Rattle.amqp_c.specs.Inputs.{has_known_flags};
ghost use Rattle.amqp_c.specs.JsonTexts.{IsJsonPut, IsJsonFault};

use crate::{Fault, Input};
use amqp_json::write_json_of_view;

/// Puts the JSON text of the value at the start of the input at the start of `buffer`, and returns how many bytes it
/// has. After a fault the buffer may have some of it.
pub fn put_json(input: &Input<'_>, buffer: &mut [u8]) -> Result<usize, Fault>
    ensures written { MatchResult result
        (IsJsonPut input.now buffer.old buffer.new)
        (IsJsonFault input.now (length buffer.old)) }
    ensures flags { has_known_flags input.now ≡ false → result ≡ Err Invalid }
{
    let value = input.view()?;
    let capacity = buffer.len();
    let count = write_json_of_view(value, buffer);
    if count > capacity {
        return Err(Fault::NoRoom(count));
    }
    Ok(count)
}
