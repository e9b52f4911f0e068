//! The end of each call: `store` and the functions like it write what is returned to the caller's
//! pointers, and return the result code.

ghost use Rattle.std.specs.Prelude.{◌≡◌, pos, IfOk, IfErr};
ghost use Rattle.amqp_c.specs.CallResults.{return_code_of, code_of, return_code_if_any, ok_or_old, found_or_old, entry_or_old, cursor_or_old, length_of};
ghost use Rattle.amqp_c.specs.BuildCalls.{needing, grown_or_needing, opened_or_needing, closed_or_old};
ghost use Rattle.amqp_c.specs.Reads.{code_if_told};

use crate::container::Container;
use crate::cursor::Cursor;
use crate::entry::Entry;
use crate::problem::ReadError;
use crate::{Fault, Problem};

/// Something is given.
const OK: i32 = 0;
/// No entry is left, no entry has the key, or the value isn't canonical.
const NONE: i32 = 1;

/// Stores what a call returns, and returns its result code.
pub fn store<T: Copy>(done: Result<T, Fault>, place: &mut T) -> i32
    ensures returned { result ≡ return_code_of done }
    ensures place { place.new ≡ ok_or_old place.old done }
{
    match done {
        Ok(given) => {
            *place = given;
            OK
        }
        Err(fault) => fault.code(),
    }
}

/// Stores how far a container is written after an entry was added, or the capacity that the buffer
/// should have.
pub fn store_grown(done: Result<Container, Fault>, into: &mut Container) -> i32
    ensures returned { result ≡ return_code_of done }
    ensures container { into.new ≡ grown_or_needing into.old done }
{
    match done {
        Ok(grown) => {
            into.written = grown.written;
            OK
        }
        Err(fault) => store_fault(fault, into),
    }
}

/// Stores the body that was opened, and in its container that one is open, or the capacity that the
/// buffer should have.
pub fn store_opened(
    done: Result<Container, Fault>,
    into: &mut Container,
    body: &mut Container,
) -> i32
    ensures returned { result ≡ return_code_of done }
    ensures outer { into.new ≡ opened_or_needing into.old done }
    ensures body { body.new ≡ ok_or_old body.old done }
{
    match done {
        Ok(opened) => {
            *body = opened;
            into.inner = 1;
            OK
        }
        Err(fault) => store_fault(fault, into),
    }
}

/// Stores how far a container is written after an entry in it was closed, and that none is open in
/// it.
pub fn store_closed(done: Result<Container, Fault>, into: &mut Container) -> i32
    ensures returned { result ≡ return_code_of done }
    ensures container { into.new ≡ closed_or_old into.old done }
{
    match done {
        Ok(grown) => {
            into.written = grown.written;
            into.inner = 0;
            OK
        }
        Err(fault) => fault.code(),
    }
}

/// Leaves the capacity that a buffer should have that is too small.
fn store_fault(fault: Fault, into: &mut Container) -> i32
    ensures returned { result ≡ code_of fault }
    ensures container { into.new ≡ needing fault into.old }
{
    if let Fault::NoRoom(capacity) = fault {
        into.needed = capacity;
    }
    fault.code()
}

/// Stores what was read, or where reading failed.
pub fn store_read<T: Copy>(done: Result<T, ReadError>, place: &mut T, problem: &mut Problem) -> i32
    ensures read { IfOk done (λ read.
        (result ≡ pos 0) × (place.new ≡ read) × (problem.new ≡ problem.old)) }
    ensures failed { IfErr done (λ error. (result ≡ code_of error.fault)
        × (place.new ≡ place.old) × (problem.new ≡ error.problem)) }
{
    match done {
        Ok(read) => {
            *place = read;
            OK
        }
        Err(error) => {
            *problem = error.problem;
            error.fault.code()
        }
    }
}

/// Stores how many bytes were written, or which capacity is needed, or else 0, and returns the result.
pub fn return_length(done: Result<usize, Fault>, length: &mut usize) -> i32
    ensures returned { result ≡ return_code_of done }
    ensures length { length.new ≡ length_of done }
{
    match done {
        Ok(written) => {
            *length = written;
            OK
        }
        Err(fault) => {
            *length = match fault {
                Fault::NoRoom(capacity) => capacity,
                _ => 0,
            };
            fault.code()
        }
    }
}

/// Returns the result code of a call that answers yes or no.
pub fn told(done: Result<bool, Fault>) -> i32
    ensures { result ≡ code_if_told done }
{
    match done {
        Ok(true) => OK,
        Ok(false) => NONE,
        Err(fault) => fault.code(),
    }
}

/// Stores the entry that was found.
pub fn store_found(done: Result<Option<Entry>, Fault>, entry: &mut Entry) -> i32
    ensures returned { result ≡ return_code_if_any done }
    ensures entry { entry.new ≡ found_or_old entry.old done }
{
    match done {
        Ok(Some(found)) => {
            *entry = found;
            OK
        }
        Ok(None) => NONE,
        Err(fault) => fault.code(),
    }
}

/// Stores the entry and the cursor that a step returns.
pub fn store_step(
    done: Result<Option<(Entry, Cursor)>, Fault>,
    cursor: &mut Cursor,
    entry: &mut Entry,
) -> i32
    ensures returned { result ≡ return_code_if_any done }
    ensures cursor { cursor.new ≡ cursor_or_old cursor.old done }
    ensures entry { entry.new ≡ entry_or_old entry.old done }
{
    match done {
        Ok(Some((next, rest))) => {
            entry.set(next);
            cursor.set(rest);
            OK
        }
        Ok(None) => NONE,
        Err(fault) => fault.code(),
    }
}
