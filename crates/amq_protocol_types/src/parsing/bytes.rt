//! [`copy_of`] copies all bytes of an input into one `Vec`, chunk by chunk if they aren't
//! contiguous.

ghost use Rattle.std.specs.Prelude.{◌≡◌, ◌<◌, IfOk, OnErr, length};

use amqp_value_core::input::ParsableInput;
use std::alloc::{AllocError, Global};

/// Copies all bytes of the input into one buffer, or returns an error if memory for them can't be
/// allocated. An empty input doesn't allocate.
#[inline(always)]
pub fn copy_of<I: ParsableInput>(alloc: Global, input: I) -> Result<Vec<u8>, AllocError>
    ensures ok { IfOk result (λ bytes. bytes.items ≡ I.bytes input) }
    ensures err { OnErr result (0 < length (I.bytes input)) }
{
    if input.input_len() == 0 {
        return Ok(Vec::new(alloc));
    }
    let chunk = input.chunk();
    if chunk.len() == input.input_len() {
        let mut bytes = Vec::with_capacity(alloc, chunk.len())?;
        bytes.extend_from_slice(chunk)?;
        return Ok(bytes);
    }
    copy_by_chunks(alloc, input)
}

// A copy of all bytes of the input, by its chunks, and byte by byte if a chunk is empty.
pub(crate) fn copy_by_chunks<I: ParsableInput>(
    alloc: Global,
    input: I,
) -> Result<Vec<u8>, AllocError>
    ensures ok { IfOk result (λ bytes. bytes.items ≡ I.bytes input) }
    ensures err { OnErr result (0 < length (I.bytes input)) }
{
    let mut bytes = Vec::new(alloc);
    bytes.reserve(input.input_len())?;
    let mut rest = input;
    'chunks: while rest.input_len() > 0 {
        let chunk = rest.chunk();
        let n = chunk.len();
        if n > 0 {
            bytes.extend_from_slice(chunk)?;
            rest = rest.take_from(n);
        } else {
            bytes.push(rest.byte_at(0))?;
            rest = rest.take_from(1);
        }
    }
    Ok(bytes)
}
