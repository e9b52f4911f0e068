//! `Input`: reads a file or standard input, or the bytes that it spells in hexadecimal, only as far
//! as they are asked for.

use crate::fault::{Fault, Result};
use crate::hexadecimal::{Decoder, NotHexadecimal, dump_of};
use amq_protocol_types::parsing::header::value_len;
use amq_protocol_types::parsing::{SliceInput, SplitInput};
use std::alloc::AllocError;
use std::collections::VecDeque;
use std::fs::File;
use std::io;
use std::io::{ErrorKind, Read, Stdin};

/// As many bytes are read at once, at most.
pub const BLOCK: usize = 65_536;

#[derive(Drop)]
enum Source {
    File(File),
    Stdin(Stdin),
}

impl Source {
    fn read(&mut self, buf: &mut [u8]) -> io::Result<usize> {
        match self {
            Source::File(file) => file.read(buf),
            Source::Stdin(stdin) => stdin.read(buf),
        }
    }
}

/// A file or the standard input, and what was read of it and isn't done with.
#[derive(Drop)]
pub struct Input {
    source: Source,
    decoder: Option<Decoder>,
    block: Vec<u8>,
    bytes: Vec<u8>,
    start: usize,
    // How many bytes were before these, the type tags that were put there not among them.
    before: usize,
    // Of each line of hexadecimal that has bytes: how many bytes there are up to its end, and its number.
    lines: VecDeque<(usize, u64)>,
    // What ends the bytes, if it is known.
    end: Option<Result<(), NotHexadecimal>>,
}

// How many bytes may be put before the others.
const ROOM: usize = 16;

impl Input {
    /// Opens a file, or the standard input if it is called `-`.
    pub fn open(rt: &HostRuntime, file: &str, is_hexadecimal: bool) -> Result<Input> {
        let source = if file == "-" {
            Source::Stdin(rt.stdin())
        } else {
            Source::File(File::open(rt, file).map_err(Fault::of_input)?)
        };
        Ok(Input {
            source,
            decoder: is_hexadecimal.then_some(Decoder::new(1)),
            block: vec![in rt.alloc(); 0; BLOCK]?,
            bytes: Vec::new(rt.alloc()),
            start: 0,
            before: ROOM,
            lines: VecDeque::new(rt.alloc()),
            end: None,
        })
    }

    /// Puts a byte before the next one.
    pub fn put(&mut self, byte: u8) -> Result<()> {
        if self.start > 0 {
            self.start -= 1;
            if let Some(there) = self.bytes.get_mut(self.start) {
                *there = byte;
            }
            return Ok(());
        }
        self.bytes.extend_from_slice(&[byte])?;
        self.bytes.rotate_right(self.bytes.len().min(1));
        self.before = self.before.saturating_sub(1);
        Ok(())
    }

    /// The bytes that were read and aren't done with.
    pub fn there(&self) -> &[u8] {
        self.bytes.get(self.start..).unwrap_or(&[])
    }

    /// The next bytes, as many if the input doesn't end before.
    pub fn up_to(&mut self, count: usize) -> Result<&[u8]> {
        self.fill(count)?;
        let there = self.there();
        Ok(there.get(..count).unwrap_or(there))
    }

    /// The bytes of the next value, or if it has more than `most`, or is none, as many as show that:
    /// fewer if the input ends before.
    pub fn next_value(&mut self, most: u32) -> Result<&[u8]> {
        self.fill(1)?;
        // (the first byte determines the length, or that it is in four more)
        for _ in 0..2 {
            let len = value_len(SliceInput::new(self.there()));
            if len <= most as usize {
                self.fill(len)?;
            }
        }
        let there = self.there();
        let len = value_len(SliceInput::new(there)).max(1);
        Ok(there.get(..len).unwrap_or(there))
    }

    /// Whether the next value is there, after a type tag that is put before it, so that it needn't be awaited.
    pub fn has_next(&self, tag: &[u8]) -> bool {
        let there = self.there();
        let len = there.len().saturating_add(tag.len());
        !there.is_empty() && value_len(SplitInput::new(tag, there)) <= len
    }

    /// How many bytes the next line has with its end, or so many that it has more than `most`.
    pub fn line_len(&mut self, most: usize) -> Result<usize> {
        let mut from = 0;
        for _ in 0..u64::MAX {
            let there = self.there();
            let len = there.len();
            let line = there.get(from..).unwrap_or(&[]);
            if let Some(end) = line.iter().position(|c| *c == b'\n') {
                return Ok(from.saturating_add(end).saturating_add(1));
            }
            self.fill(len.saturating_add(1))?;
            if len > most || self.there().len() == len {
                return Ok(len);
            }
            from = len;
        }
        Ok(from)
    }

    /// Is done with that many bytes.
    pub fn pass(&mut self, count: usize) {
        self.start = self.start.saturating_add(count);
        let at = self.before.saturating_add(self.start);
        for _line in 0..self.lines.len() {
            if self.lines.front().is_none_or(|(end, _)| *end > at) {
                return;
            }
            self.lines.pop_front();
        }
    }

    /// Of the line of hexadecimal that the next byte is in, if it has come to its end: its number, how many of the
    /// next bytes are in it, and the bytes of the line after it if that has come to its end too.
    pub fn line(&self) -> Option<(u64, usize, &[u8])> {
        let at = self.before.saturating_add(self.start);
        let mut lines = self.lines.iter().skip_while(|(end, _)| *end <= at);
        let (end, line) = lines.next()?;
        let there = self.there();
        let first = end.saturating_sub(at);
        let second = match lines.next() {
            Some((end, _)) => end.saturating_sub(at),
            None if self.end.is_some() => there.len(),
            None => first,
        };
        Some((*line, first, there.get(first..second).unwrap_or(&[])))
    }

    /// Is done with that many of the first bytes.
    pub fn skip(&mut self, count: u64) -> Result<()> {
        let mut left = count;
        for _ in 0..u64::MAX {
            let some = left.min(BLOCK as u64) as usize;
            if some == 0 {
                break;
            }
            if self.up_to(some)?.len() < some {
                return Err(Fault::Short(count));
            }
            self.pass(some);
            left = left.saturating_sub(some as u64);
        }
        Ok(())
    }

    // Reads on until there are that many bytes, or the input ends.
    fn fill(&mut self, count: usize) -> Result<()> {
        for _ in 0..u64::MAX {
            if self.there().len() >= count {
                return Ok(());
            }
            match self.end {
                Some(Ok(())) => return Ok(()),
                Some(Err(fault)) => return Err(Fault::NotHexadecimal(fault)),
                None => {}
            }
            let passed = self.start.min(self.bytes.len());
            self.bytes.drain(..passed);
            self.before = self.before.saturating_add(passed);
            self.start = 0;
            match self.source.read(&mut self.block) {
                Ok(count) => self.add(count)?,
                Err(error) if error.kind() == ErrorKind::Interrupted => {}
                Err(error) => return Err(Fault::of_input(error)),
            }
        }
        Ok(())
    }

    // Adds that many bytes of the block, or what they spell. With none the input ends.
    fn add(&mut self, count: usize) -> Result<()> {
        let read = self.block.get(..count).unwrap_or(&[]);
        let Some(decoder) = &mut self.decoder else {
            self.bytes.extend_from_slice(read)?;
            if read.is_empty() {
                self.end = Some(Ok(()));
            }
            return Ok(());
        };
        if read.is_empty() {
            self.end = Some(decoder.finish());
        }
        if decoder.is_at_start()
            && let Some(dump) = dump_of(read)
        {
            self.end = Some(Err(dump));
            return Ok(());
        }
        for character in read {
            match decoder.take(*character) {
                Ok(Some(byte)) => self.bytes.extend_from_slice(&[byte])?,
                Ok(None) => if *character == b'\n' {
                    let end = self.before.saturating_add(self.bytes.len());
                    note_line(&mut self.lines, end, decoder.line())?;
                },
                Err(fault) => {
                    self.end = Some(Err(fault));
                    return Ok(());
                }
            }
        }
        Ok(())
    }
}

// Adds the end of a line, unless it has no bytes.
fn note_line(
    lines: &mut VecDeque<(usize, u64)>,
    end: usize,
    number: u64,
) -> Result<(), AllocError> {
    let last = lines.back().map_or(ROOM, |(end, _)| *end);
    if end > last {
        lines.push_back((end, number))?;
    }
    Ok(())
}
