//! [`Pending`], the buffer of a `Values` (`values.rt`): the bytes that have come of a value that
//! isn't complete yet.

ghost use Rattle.std.specs.Prelude.{◌≡◌, ◌<◌, ◌≤◌, ◌+◌, ℕ, List, [], length, take, drop, max, min, vec_len, vec_capacity, IfOk, OnOk, OnErr, IfErr};
ghost use Rattle.std.specs.Io.KnownBytes.{Keeps, IsAtEnd};
ghost use Rattle.std.specs.IoError.{error_kind};
ghost use Rattle.amq_protocol_types.specs.stream.Sources.{IsPassing, GivesBytes, GainsBytes, KeepsKind};

use super::error::StreamError;
use super::source::Source;
use std::alloc::{AllocError, Global};
use std::io;
use std::marker::Model;

// The first capacity is for that many bytes.
const BLOCK: usize = 8192;

// That many bytes of new capacity are filled at once, at most: they are still in the processor's
// cache when the reader writes over them.
const FILLED: usize = 65_536;

// The first bytes of a buffer, as many as `count`. What is after them is capacity that is filled
// already, since what isn't filled yet can't be read into.
#[derive(Drop)]
pub(super) struct Pending {
    buffer: Vec<u8>,
    count: usize,
}

impl Model for Pending {
    ghost Value = { List ℕ };

    ghost view = { λ p. take p.count p.buffer.items };

    ghost invariant = { λ p. p.count ≤ vec_len p.buffer };
}

// Requests memory, if the buffer has as many bytes as fit: for as many again or a block, whatever a
// length claims.
fn grow(buffer: &mut Vec<u8>, most: usize) -> Result<(), AllocError>
    requires some { 0 < most }
    ensures same { buffer.new.items ≡ buffer.old.items }
    ensures space { OnOk result (vec_len buffer.new < vec_capacity buffer.new) }
    ensures bounded { vec_capacity buffer.new
        ≤ max (vec_capacity buffer.old) (vec_len buffer.old + max (vec_len buffer.old) 8192) }
{
    if buffer.len() == buffer.capacity() {
        buffer.reserve_exact(most.min(buffer.len()).max(BLOCK))?;
    }
    Ok(())
}

// Fills some of the capacity for `most` more bytes, if the buffer is full, and returns how many
// bytes may be read into it.
fn make_room(buffer: &mut Vec<u8>, count: usize, most: usize) -> Result<usize, AllocError>
    requires some { 0 < most }
    requires within { count ≤ vec_len buffer.old }
    ensures same { take count buffer.new.items ≡ take count buffer.old.items }
    ensures within { count ≤ vec_len buffer.new }
    ensures space { IfOk result (λ n. (0 < n) × (n ≤ most) × (count + n ≤ vec_len buffer.new)) }
    ensures bounded { vec_len buffer.new ≤ max (vec_len buffer.old) (count + min most 65_536) }
{
    if count == buffer.len() {
        grow(buffer, most)?;
        let more = most.min(buffer.capacity() - count).min(FILLED);
        buffer.resize(count + more, 0)?;
    }
    Ok(most.min(buffer.len() - count))
}

// Asks the reader once for at most `space` bytes, and puts those that it returns after the first
// `count`.
fn read_after<R: Source>(
    bytes: &mut [u8],
    count: usize,
    reader: &mut R,
    space: usize,
) -> io::Result<usize>
    requires some { 0 < space }
    requires within { count + space ≤ length bytes.old }
    ensures prefix { take count bytes.new ≡ take count bytes.old }
    ensures fits { IfOk result (λ n. n ≤ space) }
    ensures ok { IfOk result
        (λ n. GivesBytes R.Source reader.old (take n (drop count bytes.new)) reader.new) }
    ensures end { IfOk result (λ n. n ≡ 0 → IsAtEnd (R.remaining reader.new)) }
    ensures err { OnErr result (Keeps (R.remaining reader.old) (R.remaining reader.new)) }
    ensures length { length bytes.new ≡ length bytes.old }
    ensures goes { OnOk result (R.goes reader.old reader.new) }
    ensures fails { IfErr result (λ e. R.fails reader.old (error_kind e) reader.new) }
{
    reader.read_some(&mut bytes[count..count + space])
}

// Asks the reader as `read_after` does, for bytes after the first `count` of a vector.
fn read_into<R: Source>(
    buffer: &mut Vec<u8>,
    count: usize,
    reader: &mut R,
    space: usize,
) -> io::Result<usize>
    requires some { 0 < space }
    requires within { count + space ≤ vec_len buffer.old }
    ensures prefix { take count buffer.new.items ≡ take count buffer.old.items }
    ensures fits { IfOk result (λ n. n ≤ space) }
    ensures ok { IfOk result
        (λ n. GivesBytes R.Source reader.old (take n (drop count buffer.new.items)) reader.new) }
    ensures end { IfOk result (λ n. n ≡ 0 → IsAtEnd (R.remaining reader.new)) }
    ensures err { OnErr result (Keeps (R.remaining reader.old) (R.remaining reader.new)) }
    ensures length { vec_len buffer.new ≡ vec_len buffer.old }
    ensures goes { OnOk result (R.goes reader.old reader.new) }
    ensures fails { IfErr result (λ e. R.fails reader.old (error_kind e) reader.new) }
{
    read_after(buffer.as_mut_slice(), count, reader, space)
}

impl Pending {
    pub(super) fn new_in(alloc: Global) -> Pending
        ensures { result ≡ [] }
    {
        Pending {
            buffer: Vec::new(alloc),
            count: 0,
        }
    }

    pub(super) fn as_slice(&self) -> &[u8]
        ensures { result.now ≡ self.now }
    {
        &self.buffer[..self.count]
    }

    // Retains no byte. The capacity stays.
    pub(super) fn clear(&mut self)
        ensures { self.new ≡ [] }
    {
        self.count = 0;
    }

    // Asks the reader once for at most `most` bytes, and retains those that it returns.
    pub(super) fn fill_from<R: Source>(
        &mut self,
        reader: &mut R,
        most: usize,
    ) -> Result<usize, StreamError>
        requires { 0 < most }
        ensures ok { IfOk result
            (GainsBytes R.Source most self.old reader.old self.new reader.new) }
        ensures end { IfOk result (λ n. n ≡ 0 → IsAtEnd (R.remaining reader.new)) }
        ensures err { IfErr result (λ e. IsPassing e × (self.new ≡ self.old)
            × Keeps (R.remaining reader.old) (R.remaining reader.new)) }
        ensures kind { KeepsKind R.goes R.fails reader.old result reader.new }
    {
        let space = make_room(&mut self.buffer, self.count, most)?;
        match read_into(&mut self.buffer, self.count, reader, space) {
            Ok(n) => {
                self.count += n;
                Ok(n)
            }
            Err(e) => Err(StreamError::Read(e.kind())),
        }
    }
}
