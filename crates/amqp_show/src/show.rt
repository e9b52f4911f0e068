//! `show_file`: shows the value at the beginning of a file, or each value of a stream, by `tree`,
//! `decode` or `check`.

ghost use Rattle.std.specs.Prelude.{◌↔◌, IfOk, IsTrue};
ghost use Rattle.amqp_show.specs.Output.{is_read};
ghost use Rattle.amqp_in_place.specs.ProblemResults.{FindsValue};

use crate::arguments::{Form, Settings};
use crate::check::push_check;
use crate::decode::show_json;
use crate::fault::{Fault, Result, Status};
use crate::hexadecimal::NotHexadecimal;
use crate::input::{BLOCK, Input};
use crate::messages::{bytes_text, complain, push_outcome, push_remark};
use crate::parts::{Note, Part, parts_of};
use crate::problems::{is_beyond_limits, is_truncated, key_text, problem_text, status_of};
use crate::screen::{Colour, Screen};
use crate::shape::{Seems, before, begins_table, begins_text, is_plain, shape_of};
use crate::tree::{show_parts, show_tree};
use amq_protocol_types::parsing::{Err, Needed};
use amqp_in_place::{
    Problem, ProblemKind, Rules, first_problem, read_in_place, read_table_in_place,
};
use std::alloc::{AllocError, Global};

const MORE_VALUES: &str = "; --stream shows values one after another";

const ARE_TABLES: &str = "the input seems to be tables without their type tags; --table reads them";

/// Shows the value at the beginning of a file, or each of a stream.
pub fn show_file(rt: &HostRuntime, file: &str, settings: Settings) -> Result<Status> {
    let mut input = Input::open(rt, file, settings.hex)?;
    input.skip(settings.start)?;
    let mut screen = begin(rt, file, settings)?;
    if settings.is_stream {
        let shown = show_stream(rt, &mut screen, file, input, settings);
        screen.print(rt)?;
        return shown;
    }
    show_first(rt, &mut screen, file, &mut input, settings)
}

/// What is shown of a file first: its name, if it has one.
pub fn begin(rt: &HostRuntime, file: &str, settings: Settings) -> Result<Screen> {
    let mut screen = Screen::new(rt.alloc(), settings.colours);
    if file != "-" && !settings.form.is_json() {
        screen.push(file)?;
        screen.push_line(":")?;
    }
    Ok(screen)
}

// Shows the value at the beginning of an input, and reports that more bytes follow; or reports what the
// input is instead.
fn show_first(
    rt: &HostRuntime,
    screen: &mut Screen,
    file: &str,
    input: &mut Input,
    mut settings: Settings,
) -> Result<Status> {
    let begin = if settings.is_table { 4 } else { 1 };
    if let Form::Check(_) = settings.form
        && input.up_to(1)?.is_empty()
    {
        complain(rt, file, "the input is empty")?;
        return Ok(Status::Mistake);
    }
    if !is_plain(input.up_to(begin)?, settings) || begins_text(input.there(), settings) {
        let bytes = input.up_to(settings.limits.frame as usize)?;
        let seems = shape_of(rt.alloc(), bytes, settings)?;
        if let Some(what) = seems.text() {
            complain(rt, file, what)?;
        }
        if let Seems::Other(_) = seems {
            return Ok(Status::Mistake);
        }
        settings = seems.settings(settings);
    }
    let before = before(input.there().len());
    for byte in before.iter().take(settings.left_out()).rev() {
        input.put(*byte)?;
    }
    let len = input.next_value(settings.limits.frame)?.len();
    // (what follows may be no hexadecimal, which is reported after the value)
    let ahead = input.up_to(len.saturating_add(1)).map(|bytes| bytes.len());
    check_line(input, len, settings)?;
    let status = show_value(rt, screen, file, input.up_to(len)?, settings)?;
    screen.print(rt)?;
    if status.is_read() && ahead? > len {
        let hint = if settings.is_table { "" } else { MORE_VALUES };
        let offset = settings.offset(len);
        let why = format!(in rt.alloc(); "more bytes follow, from offset {offset}{hint}")?;
        complain(rt, file, why.as_str())?;
        return Ok(Status::Warned);
    }
    Ok(status)
}

// Whether the line of hexadecimal at which a value of so many bytes begins isn't a part of it, but a value by itself,
// or the line after it is one. (A value of several lines ends with the last, after which no bytes follow, and after
// bytes that were passed over a line may have others.)
fn check_line(input: &Input, len: usize, settings: Settings) -> Result<()> {
    match input.line() {
        _ if settings.start > 0 || input.there().len() <= len => Ok(()),
        Some((line, end, _)) if end == len => {
            Err(Fault::NotHexadecimal(NotHexadecimal::Lines(line)))
        }
        Some((line, end, after)) if end < len && is_whole(after, settings) => {
            Err(Fault::NotHexadecimal(NotHexadecimal::LineCut(line)))
        }
        _ => Ok(()),
    }
}

// Whether all of the bytes are one value.
fn is_whole(bytes: &[u8], settings: Settings) -> bool {
    if settings.is_table {
        let read = read_table_in_place(bytes, settings.limits);
        return matches!(read, Ok((_, rest)) if rest.is_empty());
    }
    matches!(read_in_place(bytes, settings.limits), Ok((_, rest)) if rest.is_empty())
}

// Shows the values of a stream up to the first that is rejected. What is added to the screen is
// printed once the next value has to be awaited.
fn show_stream(
    rt: &HostRuntime,
    screen: &mut Screen,
    file: &str,
    mut input: Input,
    mut settings: Settings,
) -> Result<Status> {
    // whether each line of hexadecimal was a value, and how many bytes the last had
    let (mut are_values, mut last) = (settings.start == 0, usize::from(settings.start > 0));
    let mut all = Status::Read;
    let tag: &[u8] = if settings.is_table { b"F" } else { b"" };
    for _ in 0..u64::MAX {
        if screen.len() >= BLOCK || !input.has_next(tag) {
            screen.print(rt)?;
        }
        if settings.is_table && !input.up_to(1)?.is_empty() {
            input.put(b'F')?;
        }
        let len = input.next_value(settings.limits.frame)?.len();
        if len == 0 {
            break;
        }
        if let Some((line, end, after)) = input.line() {
            // (lines of another kind have the same length, and a value of two ends with the second)
            let is_cut = if last > 0 {
                are_values && last != end
            } else {
                len != end.saturating_add(after.len()) && is_whole(after, settings)
            };
            if end < len && is_cut {
                return Err(Fault::NotHexadecimal(NotHexadecimal::LineCut(line)));
            }
            are_values = are_values && end == len;
            last = end;
        }
        let status = show_value(rt, screen, file, input.up_to(len)?, settings)?;
        if !status.is_read() {
            if !settings.is_table && begins_table(input.there()) {
                screen.print(rt)?;
                complain(rt, file, ARE_TABLES)?;
            }
            return Ok(status);
        }
        all = all.and(status);
        input.pass(len);
        let len = len.saturating_sub(settings.left_out()) as u64;
        settings.start = settings.start.saturating_add(len);
    }
    Ok(all)
}

/// Shows the value of these bytes, or why it is rejected.
pub fn show_value(
    rt: &HostRuntime,
    screen: &mut Screen,
    file: &str,
    bytes: &[u8],
    settings: Settings,
) -> Result<Status> {
    match settings.form {
        Form::Tree | Form::Bytes => show_text(rt, screen, bytes, settings),
        Form::Check(version) => Ok(push_check(rt.alloc(), screen, bytes, version, settings)?),
        Form::Json | Form::Plain => show_json(rt, screen, file, bytes, settings),
    }
}

// Shows the value of these bytes as a tree or by its parts, and the first problem.
fn show_text(
    rt: &HostRuntime,
    screen: &mut Screen,
    bytes: &[u8],
    settings: Settings,
) -> Result<Status>
    ensures { IfOk result (λ status.
        IsTrue (is_read status) ↔ FindsValue settings.limits bytes.now) }
{
    let alloc = rt.alloc();
    let problem = first_problem(bytes, Rules::Reading, settings.limits);
    let shown = match problem {
        Some(problem) if problem.kind == ProblemKind::TooLarge => &[],
        _ => bytes,
    };
    let parts = parts_of(alloc, shown, settings.limits.depth)?;
    let parts = parts.as_slice();
    if settings.form == Form::Bytes {
        show_parts(rt, screen, bytes, parts, settings)
    } else {
        show_tree(rt, screen, bytes, parts, settings.is_canonical)
    }?;
    push_result(alloc, screen, bytes, parts, problem, settings)?;
    Ok(match problem {
        Some(problem) => status_of(problem),
        None if repeated(parts).is_some() => Status::Warned,
        None => Status::Read,
    })
}

// Adds a line about the first key that comes again, one about the problem, and what reading results in.
fn push_result(
    alloc: Global,
    screen: &mut Screen,
    bytes: &[u8],
    parts: &[Part<'_>],
    problem: Option<Problem>,
    settings: Settings,
) -> Result<(), AllocError> {
    push_repeated(alloc, screen, bytes, parts, settings)?;
    if let Some(problem) = problem {
        let why = problem_text(alloc, bytes, parts, problem, settings)?;
        push_remark(alloc, screen, Colour::Failure, why.as_str())?;
    }
    let outcome = outcome_text(alloc, bytes, problem, settings)?;
    push_outcome(alloc, screen, outcome.as_str(), settings)
}

// Adds a line about the first key that comes again in its table.
fn push_repeated(
    alloc: Global,
    screen: &mut Screen,
    bytes: &[u8],
    parts: &[Part<'_>],
    settings: Settings,
) -> Result<(), AllocError> {
    let Some(part) = repeated(parts) else {
        return Ok(());
    };
    let what = "comes again; readers differ in which value they take";
    // (the key's length is before it)
    let why = key_text(alloc, bytes, part.offset.saturating_sub(1), what, settings)?;
    push_remark(alloc, screen, Colour::Note, why.as_str())
}

// The first key that comes again in its table.
fn repeated<'a>(parts: &'a [Part<'a>]) -> Option<&'a Part<'a>> {
    parts.iter().find(|part| part.note == Some(Note::Repeated))
}

// What reading the bytes results in.
fn outcome_text(
    alloc: Global,
    bytes: &[u8],
    problem: Option<Problem>,
    settings: Settings,
) -> Result<String, AllocError> {
    match problem {
        None => {
            let size = bytes_text(alloc, bytes.len().saturating_sub(settings.left_out()))?;
            format!(in alloc; "a {} of {size}", settings.name())
        }
        Some(problem) if is_truncated(problem) => match read_in_place(bytes, settings.limits) {
            Err(Err::Incomplete(Needed::Size(needed))) => format!(in alloc;
                "truncated; more bytes needed: {needed}"
            ),
            _ => format!(in alloc; "truncated"),
        },
        Some(problem) if is_beyond_limits(problem) => format!(in alloc; "beyond the limits"),
        Some(_) => format!(in alloc; "malformed"),
    }
}
