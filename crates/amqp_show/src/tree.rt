//! `show_tree` and `show_parts`: show the parts of a value, as a tree or each on a line.

use crate::arguments::Settings;
use crate::fault::Result;
use crate::input::BLOCK;
use crate::messages::quoted;
use crate::parts::{Field, Note, Part, leaf_of};
use crate::screen::{Colour, Screen};
use amqp_in_place::ValueRef;
use jiff::Timestamp;
use jiff::tz::Offset;
use ryu::Buffer;
use std::alloc::{AllocError, Global};
use std::num::{f32_from_bits_with_nan, f64_from_bits_with_nan};

// As many levels are indented.
const INDENTED: u32 = 64;

// How many characters the bytes of a part take, and the two spaces after them.
const COLUMN: usize = 20;

// As many as a line has side by side, at most.
const SPACES: &str =
    "                                                                                                                                                    ";

// How many bytes of a part are shown in hexadecimal, and how many of what isn't read in quotes.
const SHOWN: usize = 8;

const REST: usize = 64;

/// Shows a line for each value: its key in a table, its type, and what it is, indented by its depth.
pub fn show_tree(
    rt: &HostRuntime,
    screen: &mut Screen,
    encoding: &[u8],
    parts: &[Part<'_>],
    is_canonical: bool,
) -> Result<()> {
    let (mut value, mut is_after_key) = (encoding, false);
    for (index, part) in parts.iter().enumerate() {
        match part.field {
            Field::KeyLength(_) | Field::Length(_) => continue,
            Field::TypeTag(_) if is_after_key => screen.push(": ")?,
            Field::Payload | Field::Cut(_) => {}
            Field::TypeTag(_) | Field::Key | Field::Rest => begin_line(screen, index, part.level)?,
        }
        if let Field::TypeTag(_) = part.field {
            value = encoding.get(part.offset..).unwrap_or(&[]);
        }
        is_after_key = part.field == Field::Key;
        push_node(rt.alloc(), screen, part, value, " ")?;
        push_note(screen, part.note, is_canonical)?;
        if screen.len() >= BLOCK {
            screen.print(rt)?;
        }
    }
    if !parts.is_empty() {
        screen.end_line()?;
    }
    Ok(())
}

// Ends the line before, unless this is the first, and indents the next.
fn begin_line(screen: &mut Screen, index: usize, level: u32) -> Result<(), AllocError> {
    if index > 0 {
        screen.end_line()?;
    }
    push_spaces(screen, indentation(level))
}

fn indentation(level: u32) -> usize {
    level.min(INDENTED) as usize * 2
}

fn push_spaces(screen: &mut Screen, count: usize) -> Result<(), AllocError> {
    screen.push(SPACES.get(..count).unwrap_or(SPACES))
}

// Adds what the tree has of a part, of the value at the beginning of some bytes; and before a payload
// some words.
fn push_node(
    alloc: Global,
    screen: &mut Screen,
    part: &Part<'_>,
    value: &[u8],
    before: &str,
) -> Result<(), AllocError> {
    match part.field {
        Field::KeyLength(_) | Field::Length(_) => Ok(()),
        Field::Key => {
            let key = quoted(alloc, part.bytes)?;
            screen.push_coloured(key.as_str(), Colour::Key)
        }
        Field::TypeTag(amqp_type) => {
            let name = format!(in alloc; "{amqp_type}")?;
            screen.push(name.as_str())
        }
        Field::Payload => push_payload(alloc, screen, before, value),
        Field::Cut(_) => {
            screen.push(before)?;
            push_rest(alloc, screen, part, value)
        }
        Field::Rest => push_rest(alloc, screen, part, value),
    }
}

/// Shows a line for each part that is in the input: its offset; its bytes in hexadecimal, the first of
/// them if they are many; and what it is, indented by its depth.
pub fn show_parts(
    rt: &HostRuntime,
    screen: &mut Screen,
    encoding: &[u8],
    parts: &[Part<'_>],
    settings: Settings,
) -> Result<()> {
    let alloc = rt.alloc();
    let mut value = encoding;
    for part in parts {
        if part.offset < settings.left_out() {
            continue;
        }
        if let Field::TypeTag(_) = part.field {
            value = encoding.get(part.offset..).unwrap_or(&[]);
        }
        begin_part(alloc, screen, part, settings)?;
        push_field(alloc, screen, part, value)?;
        push_note(screen, part.note, settings.is_canonical)?;
        screen.end_line()?;
        if screen.len() >= BLOCK {
            screen.print(rt)?;
        }
    }
    Ok(())
}

// Adds the offset of a part and its first bytes, and indents what it is.
fn begin_part(
    alloc: Global,
    screen: &mut Screen,
    part: &Part<'_>,
    settings: Settings,
) -> Result<(), AllocError> {
    let digits = first_digits(alloc, part.bytes)?;
    let begin = format!(in alloc; "{:>6}  {digits}", settings.offset(part.offset))?;
    screen.push(begin.as_str())?;
    let column = COLUMN.saturating_sub(digits.len());
    push_spaces(screen, column.saturating_add(indentation(part.level)))
}

// The first bytes in hexadecimal.
fn first_digits(alloc: Global, bytes: &[u8]) -> Result<String, AllocError> {
    let mut digits = hex::encode(alloc, bytes.get(..SHOWN).unwrap_or(bytes))?;
    if bytes.len() > SHOWN {
        digits.push_str("..")?;
    }
    Ok(digits)
}

// Adds what a part is, of the value at the beginning of some bytes.
fn push_field(
    alloc: Global,
    screen: &mut Screen,
    part: &Part<'_>,
    value: &[u8],
) -> Result<(), AllocError> {
    let text = match part.field {
        Field::TypeTag(amqp_type) => {
            let tag = value.first().map_or(' ', |tag| char::from(*tag));
            format!(in alloc; "type tag {tag}, {amqp_type}")
        }
        Field::Length(len) => format!(in alloc; "length {len}"),
        Field::KeyLength(len) => format!(in alloc; "key length {len}"),
        Field::Key => format!(in alloc; "key "),
        Field::Payload | Field::Cut(_) | Field::Rest => Ok(String::new(alloc)),
    }?;
    screen.push(text.as_str())?;
    match part.field {
        Field::TypeTag(_) => Ok(()),
        _ => push_node(alloc, screen, part, value, ""),
    }
}

// Adds the value at the beginning of some bytes, unless its text is empty.
fn push_payload(
    alloc: Global,
    screen: &mut Screen,
    before: &str,
    value: &[u8],
) -> Result<(), AllocError> {
    let Some((leaf, _)) = leaf_of(value) else {
        return Ok(());
    };
    let text = value_text(alloc, leaf)?;
    if text.is_empty() {
        return Ok(());
    }
    screen.push(before)?;
    screen.push(text.as_str())
}

// Adds what isn't decoded, in the value at the beginning of some bytes: the first bytes if they are many.
fn push_rest(
    alloc: Global,
    screen: &mut Screen,
    part: &Part<'_>,
    value: &[u8],
) -> Result<(), AllocError> {
    let shown = part.bytes.get(..REST).unwrap_or(part.bytes);
    let count = part.bytes.len();
    let dots = if count > REST { ".." } else { "" };
    let begin = match (part.field, value.first()) {
        (Field::Cut(_), Some(b'S')) => quoted(alloc, shown),
        (Field::Cut(_), _) => hex::encode(alloc, shown),
        _ => quoted(alloc, shown),
    }?;
    let text = match part.field {
        Field::Cut(len) => format!(in alloc; "{begin}{dots} ({count} of {len} bytes)"),
        _ => format!(in alloc; "{begin}{dots} (not decoded)"),
    }?;
    screen.push_coloured(text.as_str(), Colour::Failure)
}

// Adds what readers may differ on, if anything: what isn't canonical if that is asked for, and a
// repeated key always.
fn push_note(
    screen: &mut Screen,
    note: Option<Note>,
    is_canonical: bool,
) -> Result<(), AllocError> {
    match note {
        Some(note) if is_canonical || note == Note::Repeated => {
            screen.push_coloured(note.text(), Colour::Note)
        }
        _ => Ok(()),
    }
}

// A value that isn't a container: nothing of Void, and with a Timestamp its date.
fn value_text(alloc: Global, value: ValueRef<'_>) -> Result<String, AllocError> {
    match value {
        ValueRef::Boolean(b) => format!(in alloc; "{b}"),
        ValueRef::ShortShortInt(n) => format!(in alloc; "{n}"),
        ValueRef::ShortShortUInt(n) => format!(in alloc; "{n}"),
        ValueRef::ShortInt(n) => format!(in alloc; "{n}"),
        ValueRef::ShortUInt(n) => format!(in alloc; "{n}"),
        ValueRef::LongInt(n) => format!(in alloc; "{n}"),
        ValueRef::LongUInt(n) => format!(in alloc; "{n}"),
        ValueRef::LongLongInt(n) => format!(in alloc; "{n}"),
        ValueRef::Float(x) => {
            let number = f32_from_bits_with_nan(x.to_bits());
            String::from_str(alloc, Buffer::new().format(number))
        }
        ValueRef::Double(x) => {
            let number = f64_from_bits_with_nan(x.to_bits());
            String::from_str(alloc, Buffer::new().format(number))
        }
        ValueRef::DecimalValue(d) => decimal_text(alloc, d.value, usize::from(d.scale)),
        ValueRef::LongString(bytes) => quoted(alloc, bytes),
        ValueRef::ByteArray(bytes) => hex::encode(alloc, bytes),
        ValueRef::Timestamp(seconds) => timestamp_text(alloc, seconds),
        ValueRef::FieldArray(_) | ValueRef::FieldTable(_) | ValueRef::Void => Ok(String::new(
            alloc,
        )),
    }
}

/// A number with as many digits after its point.
pub fn decimal_text(alloc: Global, number: u32, scale: usize) -> Result<String, AllocError> {
    let digits = format!(in alloc; "{number:0>width$}", width = scale.saturating_add(1))?;
    let point = digits.len().saturating_sub(scale);
    match (digits.get(..point), digits.get(point..)) {
        (Some(whole), Some(fraction)) if scale > 0 => format!(in alloc; "{whole}.{fraction}"),
        _ => Ok(digits),
    }
}

// Seconds since 1970, and the date if there is one.
fn timestamp_text(alloc: Global, seconds: u64) -> Result<String, AllocError> {
    match date_text(alloc, seconds)? {
        Some(date) => format!(in alloc; "{seconds} ({date})"),
        None => format!(in alloc; "{seconds}"),
    }
}

/// The date in UTC that is as many seconds after 1970 began, if the calendar reaches so far.
pub fn date_text(alloc: Global, seconds: u64) -> Result<Option<String>, AllocError> {
    let instant = i64::try_from(seconds)
        .ok()
        .and_then(|seconds| Timestamp::from_second(seconds).ok());
    let Some(instant) = instant else {
        return Ok(None);
    };
    let date = Offset::UTC.to_datetime(instant);
    Ok(Some(format!(in alloc; "{date}Z")?))
}
