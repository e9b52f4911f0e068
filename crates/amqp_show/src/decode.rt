//! `show_json`: shows a value as JSON, for `--json` and `--plain`.

ghost use Rattle.std.specs.Prelude.{OnOk};
ghost use Rattle.amqp_show.specs.Output.{AddsJsonLine, AddsPlainLine};

use crate::arguments::{Form, Settings};
use crate::fault::{Fault, Result, Status};
use crate::messages::complain;
use crate::parts::parts_of;
use crate::plain::plain_of_encoding;
use crate::problems::{key_text, problem_text, status_of};
use crate::screen::Screen;
use amq_protocol_types::stream::Limits;
use amqp_in_place::rabbitmq::warnings;
use amqp_in_place::{Rules, first_problem, is_canonical};
use amqp_json::{DecodeError, json_of_encoding};
use json::Writer;
use std::alloc::{AllocError, Global};

/// Shows the JSON of the value of these bytes, in an object with the file's name if there are several
/// files, and reports a key that comes again; or reports why it is rejected.
pub fn show_json(
    rt: &HostRuntime,
    screen: &mut Screen,
    file: &str,
    bytes: &[u8],
    settings: Settings,
) -> Result<Status> {
    let (alloc, limits) = (rt.alloc(), settings.limits);
    let (begin, end) = if settings.has_files {
        (named_text(alloc, file)?, "}")
    } else {
        (String::new(alloc), "")
    };
    let pushed = if settings.form == Form::Plain {
        push_plain(alloc, screen, begin.as_str(), bytes, end, limits)
    } else {
        push_json(alloc, screen, begin.as_str(), bytes, end, limits)
    };
    let (status, why) = match pushed {
        Ok(()) => match repeated_text(alloc, bytes, settings)? {
            None => return Ok(Status::Read),
            Some(why) => (Status::Warned, why),
        },
        Err(DecodeError::Refused(_)) => match first_problem(bytes, Rules::Reading, limits) {
            None => return Ok(Status::Rejected),
            Some(problem) => {
                let parts = parts_of(alloc, bytes, limits.depth)?;
                let why = problem_text(alloc, bytes, parts.as_slice(), problem, settings)?;
                (status_of(problem), why)
            }
        },
        Err(DecodeError::OutOfMemory) => return Err(Fault::OutOfMemory),
    };
    screen.print(rt)?;
    complain(rt, file, why.as_str())?;
    Ok(status)
}

// The beginning of an object with a file's name and the value of its bytes.
fn named_text(alloc: Global, file: &str) -> Result<String, AllocError> {
    let mut writer = Writer::new(Vec::new(alloc));
    writer.begin_object()?;
    writer.key("file")?;
    writer.string(file)?;
    writer.key("value")?;
    Ok(unsafe { String::from_utf8_unchecked(writer.into_inner()) })
}

// Adds the JSON of the value at the start of the bytes, between two texts on a line.
fn push_json(
    alloc: Global,
    screen: &mut Screen,
    begin: &str,
    bytes: &[u8],
    end: &str,
    limits: Limits,
) -> Result<(), DecodeError>
    ensures { OnOk result
        (AddsJsonLine limits begin.now bytes.now end.now screen.old screen.new) }
{
    let (json, _) = json_of_encoding(alloc, bytes, limits)?;
    screen.push(begin)?;
    screen.push(json.as_str())?;
    screen.push_line(end)?;
    Ok(())
}

// Adds its plain JSON so.
fn push_plain(
    alloc: Global,
    screen: &mut Screen,
    begin: &str,
    bytes: &[u8],
    end: &str,
    limits: Limits,
) -> Result<(), DecodeError>
    ensures { OnOk result
        (AddsPlainLine limits begin.now bytes.now end.now screen.old screen.new) }
{
    let json = plain_of_encoding(alloc, bytes, limits)?;
    screen.push(begin)?;
    screen.push(json.as_str())?;
    screen.push_line(end)?;
    Ok(())
}

// The first key that comes again in its table.
fn repeated_text(
    alloc: Global,
    bytes: &[u8],
    settings: Settings,
) -> Result<Option<String>, AllocError> {
    if is_canonical(bytes, settings.limits) {
        return Ok(None);
    }
    let warned = warnings(alloc, bytes, settings.limits, 0, u32::MAX)?;
    let Some(pair) = warned.repeated_key else {
        return Ok(None);
    };
    let what = "comes again; JSON parsers differ in which value they take";
    Ok(Some(key_text(alloc, bytes, pair, what, settings)?))
}
