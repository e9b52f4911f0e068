//! `parts_of`: splits an encoding into its `Part`s, such as tags, lengths and keys, even if it is
//! malformed or cut. `tree` shows them.

ghost use Rattle.std.specs.Prelude.{◌≡◌, ◌≤◌, ◌+◌, length, take, IfOk, OnOk};
ghost use Rattle.amqp_show.specs.Parts.{joined, HaveOffsets};

use amq_protocol_types::AMQPType;
use amq_protocol_types::parsing::SliceInput;
use amq_protocol_types::parsing::header::value_len;
use amqp_in_place::{Limits, ValueRef, read_in_place};
use std::alloc::{AllocError, Global};
use std::collections::BTreeSet;

/// What a part of an encoding is.
#[derive(Clone, Copy, PartialEq, Eq)]
pub enum Field {
    /// The byte that determines the type of the value after it.
    TypeTag(AMQPType),
    /// The length of a string, a byte array or the body of a container: four bytes.
    Length(u32),
    /// The length of a key: one byte.
    KeyLength(u8),
    /// A key.
    Key,
    /// The payload of a value that isn't a container, after its length if it has one.
    Payload,
    /// The beginning of a payload of that many bytes, of which the others aren't there.
    Cut(u32),
    /// What isn't read, as it isn't there to its end, or is no value.
    Rest,
}

/// What readers may differ on.
#[derive(Clone, Copy, PartialEq, Eq)]
pub enum Note {
    /// The table has the key already.
    Repeated,
    /// The key is less than the one before it in the table.
    AfterGreater,
    /// `U` denotes a ShortInt.
    AlternateShortInt,
    /// `L` denotes a LongLongInt.
    AlternateLongLongInt,
    /// A boolean is neither 0 nor 1.
    OtherTrue,
}

impl Note {
    /// What is printed after the part.
    pub fn text(self) -> &'static str {
        match self {
            Note::Repeated => " (the key comes again)",
            Note::AfterGreater => " (the key comes after a greater one)",
            Note::AlternateShortInt => " (the type tag U isn't canonical, s is)",
            Note::AlternateLongLongInt => " (the type tag L isn't canonical, l is)",
            Note::OtherTrue => " (the byte isn't canonical, 01 is)",
        }
    }
}

/// A piece of an encoding.
#[derive(Clone, Copy)]
pub struct Part<'a> {
    /// The number of bytes before it.
    pub offset: usize,
    /// Its bytes.
    pub bytes: &'a [u8],
    /// The number of containers that it is in.
    pub level: u32,
    /// What it is.
    pub field: Field,
    /// What readers may differ on, if anything.
    pub note: Option<Note>,
}

/// The parts of the bytes, which are an encoding or the beginning of one, in order and without gaps.
/// A container that nests deeper than `depth` isn't read. It uses no stack for levels of nesting.
pub fn parts_of<'a>(alloc: Global, bytes: &'a [u8], depth: u32) -> Result<Vec<Part<'a>>, AllocError>
    ensures joined { IfOk result (λ parts. joined parts.items ≡ bytes.entry.now) }
    ensures offsets { IfOk result (λ parts. HaveOffsets parts.items) }
{
    let mut walk = Walk {
        bytes,
        at: 0,
        level: 0,
        payload: None,
        parts: Vec::new(alloc),
    };
    let mut open = Vec::new(alloc);
    for _entry in 0..bytes.len() {
        if walk.at == bytes.len() || !walk.entry(alloc, &mut open, depth)? {
            break;
        }
    }
    walk.rest()?;
    Ok(walk.parts)
}

// A container whose end hasn't come, and the keys that have come of it.
#[derive(Drop)]
struct Open<'a> {
    end: usize,
    is_table: bool,
    last: &'a [u8],
    keys: BTreeSet<&'a [u8]>,
}

impl<'a> Open<'a> {
    // What readers may differ on at the next key.
    fn note(&mut self, key: &'a [u8]) -> Result<Option<Note>, AllocError> {
        let is_new = self.keys.insert(key)?;
        let is_less = key < self.last;
        self.last = key;
        Ok(match (is_new, is_less) {
            (false, _) => Some(Note::Repeated),
            (true, true) => Some(Note::AfterGreater),
            (true, false) => None,
        })
    }
}

// The parts of some bytes up to an offset.
#[derive(Drop)]
struct Walk<'a> {
    bytes: &'a [u8],
    at: usize,
    level: u32,
    // How many bytes the payload has that isn't there to its end.
    payload: Option<u32>,
    parts: Vec<Part<'a>>,
    ghost within: { at ≤ length bytes.now },
    ghost joined: { joined parts.items ≡ take at bytes.now },
    ghost offsets: { HaveOffsets parts.items },
}

impl<'a> Walk<'a> {
    // Adds the next bytes as a part.
    fn add(&mut self, count: usize, field: Field, note: Option<Note>) -> Result<(), AllocError>
        requires { self.old.at + count ≤ length self.old.bytes.now }
        ensures bytes { self.new.bytes ≡ self.old.bytes }
        ensures at { OnOk result (self.new.at ≡ self.old.at + count) }
    {
        self.parts.push(Part {
            offset: self.at,
            bytes: &self.bytes[self.at..self.at + count],
            level: self.level,
            field,
            note,
        })?;
        self.at += count;
        Ok(())
    }

    // Adds them if there are as many. Returns whether there are.
    fn take(&mut self, count: usize, field: Field, note: Option<Note>) -> Result<bool, AllocError>
        ensures { self.new.bytes ≡ self.old.bytes }
    {
        if count > self.bytes.len() - self.at {
            return Ok(false);
        }
        self.add(count, field, note)?;
        Ok(true)
    }

    // Adds the bytes that have no part yet, if there are any.
    fn rest(&mut self) -> Result<(), AllocError>
        ensures bytes { self.new.bytes ≡ self.old.bytes }
        ensures at { OnOk result (self.new.at ≡ length self.old.bytes.now) }
    {
        let count = self.bytes.len() - self.at;
        let field = match self.payload {
            Some(len) if count < len as usize => Field::Cut(len),
            _ => Field::Rest,
        };
        if count > 0 {
            self.add(count, field, None)?;
        }
        Ok(())
    }

    // The bytes that have no part yet, up to an end.
    fn ahead(&self, end: usize) -> &'a [u8] {
        self.bytes.get(self.at..end).unwrap_or(&[])
    }

    // Adds the next value, after its key in a table; of a container what is before its entries.
    // Returns whether it is read.
    fn entry(
        &mut self,
        alloc: Global,
        open: &mut Vec<Open<'a>>,
        depth: u32,
    ) -> Result<bool, AllocError>
        ensures { self.new.bytes ≡ self.old.bytes }
    {
        close(open, self.at);
        self.level = u32::try_from(open.len()).unwrap_or(u32::MAX);
        let mut end = self.bytes.len();
        if let Some(container) = open.last_mut() {
            end = container.end;
            if container.is_table && !self.key(container)? {
                return Ok(false);
            }
        }
        let ahead = self.ahead(end);
        match type_of(ahead) {
            None => Ok(false),
            Some(AMQPType::FieldArray | AMQPType::FieldTable) if self.level >= depth => Ok(false),
            Some(amqp_type @ (AMQPType::FieldArray | AMQPType::FieldTable)) => {
                self.take(1, Field::TypeTag(amqp_type), None)?;
                let len = value_len(SliceInput::new(ahead)).saturating_sub(1);
                open.push(Open {
                    end: self.at.saturating_add(len).min(end),
                    is_table: amqp_type == AMQPType::FieldTable,
                    last: &[],
                    keys: BTreeSet::new(alloc),
                })?;
                self.length(ahead)
            }
            Some(amqp_type @ (AMQPType::LongString | AMQPType::ByteArray)) => {
                self.take(1, Field::TypeTag(amqp_type), None)?;
                Ok(self.length(ahead)? && self.payload(ahead, 5)?)
            }
            Some(amqp_type) => {
                self.take(1, Field::TypeTag(amqp_type), None)?;
                self.payload(ahead, 1)
            }
        }
    }

    // Adds the next key of a table.
    fn key(&mut self, table: &mut Open<'a>) -> Result<bool, AllocError>
        ensures { self.new.bytes ≡ self.old.bytes }
    {
        let Some((len, ahead)) = self.ahead(table.end).split_first() else {
            return Ok(false);
        };
        let Some(key) = ahead.get(..usize::from(*len)) else {
            return Ok(false);
        };
        self.take(1, Field::KeyLength(*len), None)?;
        let note = table.note(key)?;
        self.take(key.len(), Field::Key, note)
    }

    // Adds the length of the value at the beginning of some bytes, after its type tag.
    fn length(&mut self, value: &[u8]) -> Result<bool, AllocError>
        ensures { self.new.bytes ≡ self.old.bytes }
    {
        match value {
            [_, a, b, c, d, ..] => {
                let len = u32::from_be_bytes([*a, *b, *c, *d]);
                self.take(4, Field::Length(len), None)
            }
            _ => Ok(false),
        }
    }

    // Adds what is after the header of the value at the beginning of some bytes, if the library reads
    // the value. Void has nothing there.
    fn payload(&mut self, value: &'a [u8], header: usize) -> Result<bool, AllocError>
        ensures { self.new.bytes ≡ self.old.bytes }
    {
        match leaf_of(value) {
            None => {
                let len = value_len(SliceInput::new(value)).saturating_sub(header);
                self.payload = u32::try_from(len).ok();
                Ok(false)
            }
            Some((ValueRef::Void, _)) => Ok(true),
            Some((_, len)) => {
                let count = len.saturating_sub(header);
                self.take(count, Field::Payload, payload_note(value))
            }
        }
    }
}

// Is done with the containers that end before an offset, or there.
fn close(open: &mut Vec<Open<'_>>, at: usize) {
    for _container in 0..open.len() {
        if open.last().is_some_and(|container| container.end > at) {
            return;
        }
        open.pop();
    }
}

/// The type of the value at the beginning of some bytes.
pub fn type_of(bytes: &[u8]) -> Option<AMQPType> {
    AMQPType::from_id(char::from(*bytes.first()?))
}

/// The value at the beginning of some bytes that isn't a container, and how many bytes it has.
pub fn leaf_of(bytes: &[u8]) -> Option<(ValueRef<'_>, usize)> {
    let limits = Limits {
        frame: u32::MAX,
        depth: 0,
    };
    let (leaf, after) = read_in_place(bytes, limits).ok()?;
    Some((leaf, bytes.len().saturating_sub(after.len())))
}

fn payload_note(value: &[u8]) -> Option<Note> {
    match value {
        [b'U', ..] => Some(Note::AlternateShortInt),
        [b'L', ..] => Some(Note::AlternateLongLongInt),
        [b't', byte, ..] if *byte > 1 => Some(Note::OtherTrue),
        _ => None,
    }
}
