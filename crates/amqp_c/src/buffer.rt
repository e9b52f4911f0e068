//! Writes to the caller's buffer: `append` adds an entry after what a container has, for `put` and
//! `nest`, and `put_at_start` writes bytes at the start, for amqp_c_alloc.

ghost use Rattle.std.specs.Prelude.{◌≡◌, ◌+◌, ◌≤◌, ◌<◌, ◌^◌, ◌++◌, length, OnErr, MatchResult};
ghost use Rattle.amqp_value_core.specs.Grammar.{short_field};
ghost use Rattle.amqp_c.specs.Containers.{IsPlace, named, end_of, entry_of, end_with, up_to};
ghost use Rattle.amqp_c.specs.Growth.{IsAppended};
ghost use Rattle.amqp_c.specs.CallResults.{with_bytes, IsPutAtStart, LacksRoom};

use crate::Fault;
use crate::container::Container;

/// Writes the bytes from `at` on.
pub fn write(buffer: &mut [u8], at: usize, bytes: &[u8])
    requires { at + length bytes.now ≤ length buffer.old }
    ensures { buffer.new ≡ with_bytes at bytes.now buffer.old }
{
    buffer[at..at + bytes.len()].copy_from_slice(bytes);
}

/// Puts the bytes at the start of the buffer, if they fit it, and returns how many they are.
pub fn put_at_start(bytes: &[u8], buffer: &mut [u8]) -> Result<usize, Fault>
    ensures put { MatchResult result
        (IsPutAtStart bytes.now buffer.old buffer.new)
        (LacksRoom (length bytes.now) (length buffer.old)) }
    ensures kept { OnErr result (buffer.new ≡ buffer.old) }
{
    let count = bytes.len();
    if buffer.len() < count {
        return Err(Fault::NoRoom(count));
    }
    buffer[..count].copy_from_slice(bytes);
    Ok(count)
}

/// Puts an entry after what the container has, at its place: its key, and an encoding in two parts.
#[inline(always)]
pub fn append(
    buffer: &mut [u8],
    into: Container,
    at: usize,
    key: &[u8],
    head: &[u8],
    content: &[u8],
) -> Result<Container, Fault>
    requires place { IsPlace (length buffer.old) into key.now }
    requires at { at ≡ end_of into }
    requires few { length head.now ≤ 9 }
    requires limited { length content.now ≤ 4294967300 }
    ensures appended { MatchResult result
        (λ grown. IsAppended buffer.old into key.now (head.now ++ content.now) buffer.new
        × (grown ≡ up_to (end_with into key.now (head.now ++ content.now)) into))
        (LacksRoom (end_with into key.now (head.now ++ content.now)) (length buffer.old)) }
    ensures kept { OnErr result (buffer.new ≡ buffer.old) }
{
    let name_length = if into.tag == b'F' { 1 + key.len() } else { 0 };
    let count = name_length + head.len() + content.len();
    if buffer.len() - at < count {
        return Err(Fault::NoRoom(at + count));
    }
    write_name(buffer, at, into.tag, key);
    write(buffer, at + name_length, head);
    write_bytes(buffer, at + name_length + head.len(), content);
    Ok(into.up_to(at + count))
}

/// Writes the bytes from `at` on: up to 32 by moves, which take less time than a call of `memcpy`. A number
/// has up to 8, and most keys up to 16.
#[inline(always)]
fn write_bytes(buffer: &mut [u8], at: usize, bytes: &[u8])
    requires { at + length bytes.now ≤ length buffer.old }
    ensures { buffer.new ≡ with_bytes at bytes.now buffer.old }
{
    match bytes.len() {
        0 => {}
        1 => write(buffer, at, &bytes[..1]),
        2 => write(buffer, at, &bytes[..2]),
        3 => write(buffer, at, &bytes[..3]),
        4 => write(buffer, at, &bytes[..4]),
        5 => write(buffer, at, &bytes[..5]),
        6 => write(buffer, at, &bytes[..6]),
        7 => write(buffer, at, &bytes[..7]),
        8..=16 => write_ends::<8>(buffer, at, bytes),
        17..=32 => write_ends::<16>(buffer, at, bytes),
        _ => write_long(buffer, at, bytes),
    }
}

/// Writes the bytes from `at` on, out of line.
#[inline(never)]
fn write_long(buffer: &mut [u8], at: usize, bytes: &[u8])
    requires { at + length bytes.now ≤ length buffer.old }
    ensures { buffer.new ≡ with_bytes at bytes.now buffer.old }
{
    write(buffer, at, bytes);
}

/// Writes N to 2 * N bytes: the first N and the last N, which may overlap.
fn write_ends<const N: usize>(buffer: &mut [u8], at: usize, bytes: &[u8])
    requires fits { at + length bytes.now ≤ length buffer.old }
    requires least { N ≤ length bytes.now }
    requires most { length bytes.now ≤ N + N }
    ensures { buffer.new ≡ with_bytes at bytes.now buffer.old }
{
    let Some(first) = bytes.first_chunk::<N>() else {
        unreachable!()
    };
    let Some(last) = bytes.last_chunk::<N>() else {
        unreachable!()
    };
    // Both are read before one is written: so they stay in registers.
    let (first, last) = (*first, *last);
    write(buffer, at, &first);
    write(buffer, at + bytes.len() - N, &last);
}

/// Writes what is before the value of an entry: in a table the key, after its length.
#[inline(always)]
pub fn write_name(buffer: &mut [u8], at: usize, tag: u8, key: &[u8])
    requires few { length key.now ≤ 255 }
    requires buffer { at + length (named tag key.now) ≤ length buffer.old }
    ensures { buffer.new ≡ with_bytes at (named tag key.now) buffer.old }
{
    if tag == b'F' {
        write(buffer, at, &[key.len() as u8]);
        write_bytes(buffer, at + 1, key);
    }
}
