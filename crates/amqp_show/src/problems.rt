//! `problem_text`: the message of a `Problem`, which says why a value is rejected, or closes a
//! connection, and where.

ghost use Rattle.std.specs.Prelude.{IsFalse};
ghost use Rattle.amqp_show.specs.Output.{is_read};

use crate::arguments::{Form, Settings};
use crate::fault::Status;
use crate::messages::{bytes_text, place_text, quoted};
use crate::parts::{Field, Part, type_of};
use amq_protocol_types::AMQPType;
use amq_protocol_types::parsing::SliceInput;
use amq_protocol_types::parsing::header::value_len;
use amqp_in_place::{Problem, ProblemKind};
use std::alloc::{AllocError, Global};

/// The offset of the first problem in an encoding with these parts, and what it is; and the keys that
/// lead to it, unless a tree or the parts have them.
pub fn problem_text(
    alloc: Global,
    encoding: &[u8],
    parts: &[Part<'_>],
    problem: Problem,
    settings: Settings,
) -> Result<String, AllocError> {
    let (place, at) = if is_truncated(problem) {
        (innermost(encoding, parts), encoding.len())
    } else {
        (problem.offset, problem.offset)
    };
    let there = encoding.get(place..).unwrap_or(&[]);
    let why = match problem.kind {
        ProblemKind::Cut if is_truncated(problem) => truncated_text(alloc, there),
        ProblemKind::Cut => cut_text(alloc, encoding, parts, place),
        ProblemKind::UnknownTag(tag) => unknown_tag_text(alloc, tag),
        ProblemKind::NotFinite => format!(in alloc; "the number is an infinity or a NaN"),
        ProblemKind::KeyCut => cut_key_text(alloc, there),
        ProblemKind::KeyNotUtf8 => key_not_utf8_text(alloc, there),
        ProblemKind::TooDeep => too_deep_text(alloc, settings),
        ProblemKind::TooLarge => too_large_text(alloc, there, settings),
    }?;
    let path = match settings.form {
        Form::Tree | Form::Bytes => Ok(String::new(alloc)),
        Form::Json | Form::Plain | Form::Check(_) => path_text(alloc, parts, place),
    }?;
    let place = place_text(alloc, at, settings)?;
    format!(in alloc; "{place}: {why}{path}")
}

/// Whether it is that the input ends inside the value.
pub fn is_truncated(problem: Problem) -> bool {
    problem.kind == ProblemKind::Cut && problem.offset == 0
}

/// Whether it is that the value has more bytes than the limits allow, or nests deeper.
pub fn is_beyond_limits(problem: Problem) -> bool {
    matches!(problem.kind, ProblemKind::TooDeep | ProblemKind::TooLarge)
}

/// The status of a value that has it.
pub fn status_of(problem: Problem) -> Status
    ensures { IsFalse (is_read result) }
{
    if is_beyond_limits(problem) {
        return Status::Beyond;
    }
    Status::Rejected
}

fn truncated_text(alloc: Global, innermost: &[u8]) -> Result<String, AllocError> {
    match type_of(innermost) {
        Some(amqp_type) => format!(in alloc; "the input ends inside the {amqp_type}"),
        None => format!(in alloc; "a value is expected; the input ends here"),
    }
}

fn cut_text(
    alloc: Global,
    encoding: &[u8],
    parts: &[Part<'_>],
    offset: usize,
) -> Result<String, AllocError> {
    match value_in_container(encoding, parts, offset) {
        Some((amqp_type, value)) => format!(in alloc;
            "the {amqp_type} of {} bytes goes past the end of its container",
            value_len(SliceInput::new(value))
        ),
        None => format!(in alloc; "a value is expected; its table ends here"),
    }
}

fn cut_key_text(alloc: Global, pair: &[u8]) -> Result<String, AllocError> {
    let len = pair.first().copied().unwrap_or(0);
    let size = bytes_text(alloc, usize::from(len))?;
    format!(in alloc; "the key of {size} goes past the end of its table")
}

fn key_not_utf8_text(alloc: Global, pair: &[u8]) -> Result<String, AllocError> {
    let key = quoted(alloc, key_of(pair))?;
    format!(in alloc; "the key {key} isn't UTF-8")
}

fn too_deep_text(alloc: Global, settings: Settings) -> Result<String, AllocError> {
    let most = settings.limits.depth;
    format!(in alloc; "containers nest deeper than --depth {most} allows")
}

fn too_large_text(alloc: Global, value: &[u8], settings: Settings) -> Result<String, AllocError> {
    let with_tag = if settings.is_table && !settings.is_body {
        " with its type tag"
    } else {
        ""
    };
    let (name, most) = (settings.name(), settings.limits.frame);
    let size = bytes_text(alloc, value_len(SliceInput::new(value)))?;
    format!(in alloc; "the {name}{with_tag} has {size}, more than --max-bytes {most} allows")
}

// RabbitMQ has other type tags than `amq_protocol_types`.
fn unknown_tag_text(alloc: Global, tag: u8) -> Result<String, AllocError> {
    let name = char::from(tag);
    match AMQPType::from_id(name) {
        Some(amqp_type) => format!(in alloc;
            "RabbitMQ doesn't know the type tag {name} ({amqp_type})"
        ),
        None => format!(in alloc; "a type tag is expected; {tag:02x} is none"),
    }
}

// Where the innermost value begins inside of which the input ends.
fn innermost(encoding: &[u8], parts: &[Part<'_>]) -> usize {
    let mut level = u32::MAX;
    for part in parts.iter().rev() {
        if matches!(part.field, Field::TypeTag(_)) && part.level < level {
            let there = encoding.get(part.offset..).unwrap_or(&[]);
            if value_len(SliceInput::new(there)) > there.len() {
                return part.offset;
            }
            level = part.level;
        }
    }
    0
}

/// Something about the key of the pair at an offset.
pub fn key_text(
    alloc: Global,
    encoding: &[u8],
    pair: usize,
    what: &str,
    settings: Settings,
) -> Result<String, AllocError> {
    let key = quoted(alloc, key_of(encoding.get(pair..).unwrap_or(&[])))?;
    let place = place_text(alloc, pair, settings)?;
    format!(in alloc; "{place}: the key {key} {what}")
}

// The type of the value that begins at an offset, and its bytes up to the end of its container; `None` if
// no value begins there.
fn value_in_container<'a>(
    encoding: &'a [u8],
    parts: &[Part<'_>],
    offset: usize,
) -> Option<(AMQPType, &'a [u8])> {
    let mut tags = parts
        .iter()
        .rev()
        .filter(|part| matches!(part.field, Field::TypeTag(_)));
    let value = tags.find(|part| part.offset == offset)?;
    let container = tags.find(|part| part.level < value.level)?;
    let body = encoding.get(container.offset..)?;
    let end = container
        .offset
        .saturating_add(value_len(SliceInput::new(body)));
    let there = encoding.get(offset..end.min(encoding.len()))?;
    Some((type_of(there)?, there))
}

/// The key at the beginning of a pair.
pub fn key_of(pair: &[u8]) -> &[u8] {
    match pair {
        [len, after @ ..] => after.get(..usize::from(*len)).unwrap_or(after),
        [] => &[],
    }
}

// What leads into a container: the number of its values that have begun, or the part that is the key.
#[derive(Clone, Copy)]
enum Step {
    Index(usize),
    Key(usize),
    NoKey,
}

/// The keys and indices that lead to an offset, as `, in "a"[0]`: none to the outermost value.
pub fn path_text(alloc: Global, parts: &[Part<'_>], offset: usize) -> Result<String, AllocError> {
    let mut path = String::new(alloc);
    for step in &steps_to(alloc, parts, offset)? {
        match *step {
            Step::Index(count) => write!(path, "[{}]", count.saturating_sub(1))?,
            Step::Key(index) => if let Some(part) = parts.get(index) {
                let key = quoted(alloc, part.bytes)?;
                write!(path, "{}{key}", if path.is_empty() { "" } else { "." })?;
            },
            Step::NoKey => {}
        }
    }
    if path.is_empty() {
        return Ok(path);
    }
    format!(in alloc; ", in {path}")
}

// What leads into each container that an offset is in.
fn steps_to(alloc: Global, parts: &[Part<'_>], offset: usize) -> Result<Vec<Step>, AllocError> {
    let mut steps = Vec::new(alloc);
    let mut is_after_key = false;
    for (index, part) in parts.iter().enumerate() {
        let is_inside = matches!(
            part.field,
            Field::Length(_) | Field::Payload | Field::Cut(_)
        );
        if part.offset > offset || is_inside {
            continue;
        }
        steps.truncate(part.level as usize);
        if let Some(step) = steps.last_mut() {
            *step = match *step {
                Step::Index(count) => Step::Index(count.saturating_add(1)),
                _ if part.field == Field::Key => Step::Key(index),
                Step::Key(_) | Step::NoKey if !is_after_key => Step::NoKey,
                same => same,
            };
        }
        is_after_key = part.field == Field::Key;
        if part.offset < offset {
            steps.push(match part.field {
                Field::TypeTag(AMQPType::FieldArray) => Step::Index(0),
                _ => Step::NoKey,
            })?;
        }
    }
    Ok(steps)
}
