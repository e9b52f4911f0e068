//! `open` and `close` begin and end an entry whose value is an array or a table, for `amqpv_open`
//! and `amqpv_close`.

ghost use Rattle.std.specs.Prelude.{◌≡◌, ℕ, List, OnErr, MatchResult, MatchBool, MatchOption};
ghost use Rattle.amqp_value_core.specs.Grammar.{short_field};
ghost use Rattle.amqp_c.specs.BuildCalls.{RefusesToOpen, RefusesToClose};
ghost use Rattle.amqp_c.specs.Growth.{IsOpened, IsOpen, IsClosed};

use crate::Fault;
use crate::buffer::{append, write};
use crate::container::{Container, is_container_tag};

/// Opens an entry whose value is an array or a table, and returns its body, which is empty.
pub fn open(buffer: &mut [u8], into: Container, key: &[u8], tag: u8) -> Result<Container, Fault>
    ensures opened { MatchResult result
        (IsOpened tag buffer.old into key.now buffer.new)
        (RefusesToOpen tag buffer.old into key.now) }
    ensures kept { OnErr result (buffer.new ≡ buffer.old) }
{
    let at = into.place(buffer.len(), key)?;
    if !is_container_tag(tag) {
        return Err(Fault::BadTag);
    }
    let grown = append(buffer, into, at, key, &[tag, 0, 0, 0, 0], &[])?;
    let end = grown.written.offset + grown.written.length;
    Ok(Container::empty_at(end, tag, into.any_keys))
}

/// Closes the entry whose value is the array or the table with this body: fills in its length.
pub fn close(buffer: &mut [u8], into: Container, body: Container) -> Result<Container, Fault>
    ensures closed { MatchResult result
        (IsClosed buffer.old into body buffer.new)
        (RefusesToClose buffer.old into body) }
    ensures kept { OnErr result (buffer.new ≡ buffer.old) }
{
    if !is_open(buffer, into, body) {
        return Err(Fault::Invalid);
    }
    let Ok(length) = u32::try_from(body.written.length) else {
        return Err(Fault::TooLarge);
    };
    write(buffer, body.written.offset - 4, &length.to_be_bytes());
    let outer = Container { inner: 0, ..into };
    Ok(outer.up_to(body.written.offset + body.written.length))
}

/// Whether the body is one of an entry that was opened after what `into` has, and nothing is open in
/// the body.
fn is_open(buffer: &[u8], into: Container, body: Container) -> bool
    ensures { MatchBool result
        ((k : List ℕ) × IsOpen buffer.now into body k)
        ((k : List ℕ) → IsOpen buffer.now into body k → ⊥) }
{
    let Some(_) = body.written.end_in(buffer.len()) else {
        return false;
    };
    // Where the type tag of the body ends, and its length begins.
    if body.written.offset < 4 {
        return false;
    }
    let named = body.written.offset - 4;
    let Some(at) = into.written.end_in(named) else {
        return false;
    };
    if into.inner != 1 || body.inner != 0 {
        return false;
    }
    let Some((tag, name)) = buffer[at..named].split_last() else {
        return false;
    };
    if *tag != body.tag {
        return false;
    }
    if !is_container_tag(body.tag) {
        return false;
    }
    into.has_name(name)
}
