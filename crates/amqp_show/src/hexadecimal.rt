//! `Decoder`: the bytes that a text spells in hexadecimal, for `--hex`. Each is two digits side by
//! side, with `0x` or `\x` right before them or nothing; between bytes may be white space, `,`,
//! `:`, and comments from `#` to the end of the line.

use std::alloc::AllocError;
use thiserror::Error;

/// Why a text isn't hexadecimal.
#[derive(Clone, Copy, Debug, Error)]
pub enum NotHexadecimal {
    /// Another byte is at this line and column, counted from 1.
    #[error("line {0}, column {1}: a byte of two hexadecimal digits is expected")]
    At(u64, u64),
    /// The text ends inside a byte.
    #[error("the text ends inside a byte of two hexadecimal digits")]
    Unfinished,
    /// It is a dump of xxd, whose offsets would be taken for bytes.
    #[error("a dump of xxd: `xxd -r FILE | amqp_show` reads it")]
    Xxd,
    /// It is a dump of xxd -b, in binary.
    #[error("a dump of xxd -b, in binary: `xxd FILE` makes one that `xxd -r` reads, and `xxd -p FILE` one that --hex reads")]
    Bits,
    /// It is a dump of tcpdump -x or -X, whose offsets would be taken for bytes.
    #[error("a dump of tcpdump: `grep '^.0x' FILE | cut -c 11-49 | amqp_show --hex` reads its bytes, of which a packet's headers are the first")]
    Tcpdump,
    /// It is a dump of Wireshark, whose offsets would be taken for bytes.
    #[error("a dump of Wireshark: copy the bytes of the table as a hex stream, which --hex reads")]
    Wireshark,
    /// It is a dump of od or hexdump in which a line `*` stands for lines that are equal.
    #[error("a dump in which * stands for lines that are left out: dump it again with -v")]
    Squeezed,
    /// It is a dump of od, whose offsets would be taken for bytes.
    #[error("a dump of od: `cut -sd ' ' -f 2- FILE | amqp_show --hex` reads it")]
    Od,
    /// It is a dump of od -x or hexdump, which have offsets too, and the bytes of a word in another order.
    #[error("a dump of two-byte words, whose bytes od and hexdump swap: `od -An -v -tx1 FILE` makes one that --hex reads")]
    Words,
    /// It is a dump of tshark, whose offsets would be taken for bytes.
    #[error("a dump of tshark: `cut -c 7-53 FILE | amqp_show --hex` reads its bytes, of which a packet's headers are the first")]
    Tshark,
    /// More lines follow one that is a value.
    #[error("line {0} is a whole value, and another line follows: --lines reads a value from each")]
    Lines(u64),
    /// A line ends inside a value, while others end with one.
    #[error("line {0} ends inside a value, while other lines are whole values: --lines reads each by itself")]
    LineCut(u64),
    /// It is a dump of hexdump -C, whose offsets would be taken for bytes.
    #[error("a dump of hexdump -C: `cut -c 11-58 FILE | amqp_show --hex` reads it")]
    Hexdump,
}

// What may come next.
#[derive(Clone, Copy)]
enum State {
    // The next byte, or what is between bytes.
    Between,
    // The second digit of a byte, after the first; or after a 0 an `x`.
    SecondOrPrefix(u8),
    // The `x` of a prefix.
    Prefix,
    // The first digit of a byte, and the second.
    First,
    Second(u8),
    // A comment.
    Comment,
}

/// What was read of a text.
#[derive(Clone, Copy)]
pub struct Decoder {
    state: State,
    line: u64,
    column: u64,
}

impl Decoder {
    /// Nothing yet of a text that begins at this line.
    pub fn new(line: u64) -> Self {
        Decoder {
            state: State::Between,
            line,
            column: 0,
        }
    }

    /// The number of the line that ended last.
    pub fn line(&self) -> u64 {
        self.line.saturating_sub(1)
    }

    /// Whether nothing was read.
    pub fn is_at_start(&self) -> bool {
        self.line == 1 && self.column == 0
    }

    /// Reads the next character, and returns the byte that it completes, if any.
    pub fn take(&mut self, character: u8) -> Result<Option<u8>, NotHexadecimal> {
        self.column = self.column.saturating_add(1);
        let Some((state, byte)) = next(self.state, character) else {
            return Err(NotHexadecimal::At(self.line, self.column));
        };
        if character == b'\n' {
            self.line = self.line.saturating_add(1);
            self.column = 0;
        }
        self.state = state;
        Ok(byte)
    }

    /// Ends the text.
    pub fn finish(&self) -> Result<(), NotHexadecimal> {
        match self.state {
            State::Between | State::Comment => Ok(()),
            State::SecondOrPrefix(_) | State::Prefix | State::First | State::Second(_) => Err(
                NotHexadecimal::Unfinished,
            ),
        }
    }
}

/// Whether a text begins as a dump does, whose offsets would be taken for bytes.
pub fn dump_of(text: &[u8]) -> Option<NotHexadecimal> {
    if let Some(bytes) = text.strip_prefix(b"00000000: ") {
        let is_binary = bytes.len() > 8 && bytes.iter().take(8).all(|c| matches!(c, b'0' | b'1'));
        Some(if is_binary {
            NotHexadecimal::Bits
        } else {
            NotHexadecimal::Xxd
        })
    } else if has_line(text, b"\t0x0000:  ") {
        Some(NotHexadecimal::Tcpdump)
    } else if text.starts_with(b"0000   ") {
        Some(NotHexadecimal::Wireshark)
    } else if text.starts_with(b"00000000  ") {
        Some(unless_squeezed(text, NotHexadecimal::Hexdump))
    } else if has_line(text, b"0000  ") {
        Some(NotHexadecimal::Tshark)
    } else {
        with_offsets(text)
    }
}

// Whether one of the first three lines begins so.
fn has_line(text: &[u8], start: &[u8]) -> bool {
    text.split(|c| *c == b'\n')
        .take(3)
        .any(|line| line.starts_with(start))
}

// Whether a text begins with zeros, and its second line with the number of bytes after them, as lines with offsets do.
fn with_offsets(text: &[u8]) -> Option<NotHexadecimal> {
    let mut lines = text.split(|c| *c == b'\n');
    let (first, second) = (lines.next()?, lines.next()?);
    let width = first.iter().take_while(|c| **c == b'0').count();
    let (words, next) = (first.get(width..)?, second.get(..width)?);
    let count = words.iter().filter(|c| c.is_ascii_hexdigit()).count() as u64 / 2;
    let is_next = number(next, 16) == count
        || number(next, 8) == count
        || number(next, 10) == count;
    if width < 4 || count == 0 || !words.starts_with(b" ") || !is_next {
        return None;
    }
    let has_words = words.split(|c| *c == b' ').any(|word| word.len() > 2);
    Some(if has_words {
        NotHexadecimal::Words
    } else {
        unless_squeezed(text, NotHexadecimal::Od)
    })
}

// What a dump is if no line of it is `*`.
fn unless_squeezed(text: &[u8], dump: NotHexadecimal) -> NotHexadecimal {
    if text
        .split(|c| *c == b'\n')
        .any(|line| line == b"*".as_slice())
    {
        NotHexadecimal::Squeezed
    } else {
        dump
    }
}

// The number that digits denote, or a larger one if they are none.
fn number(digits: &[u8], base: u64) -> u64 {
    let mut number = 0u64;
    for digit in digits {
        let digit = value_of(*digit)
            .map(u64::from)
            .filter(|digit| *digit < base);
        number = number
            .saturating_mul(base)
            .saturating_add(digit.unwrap_or(u64::MAX));
    }
    number
}

/// Adds the bytes that a line spells to others, or returns why it spells none.
pub fn push_bytes(
    bytes: &mut Vec<u8>,
    text: &[u8],
    line: u64,
) -> Result<Option<NotHexadecimal>, AllocError> {
    let mut decoder = Decoder::new(line);
    for character in text {
        match decoder.take(*character) {
            Ok(Some(byte)) => bytes.push(byte)?,
            Ok(None) => {}
            Err(fault) => return Ok(Some(fault)),
        }
    }
    // (what isn't finished at the end of a line never is)
    Ok(decoder.take(b'\n').err())
}

/// Whether the bytes are themselves a text that spells some, also if a digit is missing at its end.
pub fn is_hexadecimal(text: &[u8]) -> bool {
    let mut decoder = Decoder::new(1);
    let mut has_bytes = false;
    for character in text.trim_ascii_end() {
        match decoder.take(*character) {
            Ok(byte) => has_bytes |= byte.is_some(),
            Err(_) => return false,
        }
    }
    has_bytes
}

// The state after the next character, and the byte that it completes; `None` if it can't come.
fn next(state: State, character: u8) -> Option<(State, Option<u8>)> {
    match state {
        State::Between => Some((between(character)?, None)),
        State::SecondOrPrefix(0) if character == b'x' || character == b'X' => {
            Some((State::First, None))
        }
        State::SecondOrPrefix(first) | State::Second(first) => {
            Some((State::Between, Some(byte_of(first, value_of(character)?))))
        }
        State::Prefix => (character == b'x').then_some((State::First, None)),
        State::First => Some((State::Second(value_of(character)?), None)),
        State::Comment if character == b'\n' => Some((State::Between, None)),
        State::Comment => Some((State::Comment, None)),
    }
}

// The state after a character that doesn't belong to the byte before it.
fn between(character: u8) -> Option<State> {
    match character {
        b' ' | b'\t' | b'\r' | b'\n' | 0x0c | b',' | b':' => Some(State::Between),
        b'#' => Some(State::Comment),
        b'\\' => Some(State::Prefix),
        _ => Some(State::SecondOrPrefix(value_of(character)?)),
    }
}

fn byte_of(first: u8, second: u8) -> u8 {
    first % 16 * 16 + second % 16
}

fn value_of(digit: u8) -> Option<u8> {
    match digit {
        b'0'..=b'9' => Some(digit - b'0'),
        b'a'..=b'f' => Some(digit - b'a' + 10),
        b'A'..=b'F' => Some(digit - b'A' + 10),
        _ => None,
    }
}
