//! `show_lines`: shows the value of each line of a file in hexadecimal, for `--lines`.

use crate::arguments::{Form, Settings};
use crate::fault::{Fault, Result, Status};
use crate::hexadecimal::{dump_of, push_bytes};
use crate::input::{BLOCK, Input};
use crate::messages::complain;
use crate::screen::Screen;
use crate::shape::{Seems, before, is_plain, shape_of};
use crate::show::{begin, show_value};
use amq_protocol_types::parsing::SliceInput;
use amq_protocol_types::parsing::header::value_len;

// A line has at most so many characters for each byte that a value may have.
const CHARACTERS: usize = 8;

/// Shows the value of each line, or reports why it has none. What is added to the screen is printed once a line has to
/// be awaited.
pub fn show_lines(rt: &HostRuntime, file: &str, mut settings: Settings) -> Result<Status> {
    let mut input = Input::open(rt, file, false)?;
    let mut screen = begin(rt, file, settings)?;
    let most = (settings.limits.frame as usize)
        .saturating_mul(CHARACTERS)
        .max(BLOCK);
    let (mut status, mut is_rest) = (Status::Read, false);
    settings.line = 1;
    for _ in 0..u64::MAX {
        if screen.len() >= BLOCK || !input.there().contains(&b'\n') {
            screen.print(rt)?;
        }
        let len = input.line_len(most)?;
        if len == 0 {
            break;
        }
        if settings.line == 1
            && let Some(dump) = dump_of(input.there())
        {
            return Err(Fault::NotHexadecimal(dump));
        }
        let text = input.up_to(len)?;
        let is_ended = text.ends_with(b"\n");
        if !is_rest {
            status = status.and(show_line(rt, &mut screen, file, text, settings)?);
        }
        input.pass(len);
        is_rest = !is_ended;
        settings.line = settings.line.saturating_add(u64::from(is_ended));
    }
    screen.print(rt)?;
    Ok(status)
}

// Shows the value of a line, or reports why it has none.
fn show_line(
    rt: &HostRuntime,
    screen: &mut Screen,
    file: &str,
    text: &[u8],
    mut settings: Settings,
) -> Result<Status> {
    let mut bytes = Vec::new(rt.alloc());
    if let Some(fault) = push_bytes(&mut bytes, text, settings.line)? {
        let why = format!(in rt.alloc(); "{fault}")?;
        screen.print(rt)?;
        complain(rt, file, why.as_str())?;
        return Ok(Status::Mistake);
    }
    if bytes.is_empty() {
        return Ok(Status::Read);
    }
    if !is_plain(bytes.as_slice(), settings) {
        let seems = shape_of(rt.alloc(), bytes.as_slice(), settings)?;
        if let Some(what) = seems.text() {
            complain_of_line(rt, screen, file, what, settings)?;
        }
        if let Seems::Other(_) = seems {
            return Ok(Status::Mistake);
        }
        settings = seems.settings(settings);
    }
    let mut all = Vec::new(rt.alloc());
    let before = before(bytes.len());
    all.extend_from_slice(before.get(..settings.left_out()).unwrap_or(&[]))?;
    all.extend_from_slice(bytes.as_slice())?;
    let bytes = all.as_slice();
    let len = value_len(SliceInput::new(bytes)).max(1);
    let value = bytes.get(..len).unwrap_or(bytes);
    let (is_judged, has_more) = (matches!(settings.form, Form::Check(_)), len < bytes.len());
    let status = if is_judged && has_more {
        // (the broker would read the bytes that follow too)
        Status::Read
    } else {
        show_value(rt, screen, file, value, settings)?
    };
    if status.is_read() && has_more {
        complain_of_line(rt, screen, file, "more bytes follow the value", settings)?;
        return Ok(Status::Rejected);
    }
    Ok(status)
}

// Reports something about a line.
fn complain_of_line(
    rt: &HostRuntime,
    screen: &mut Screen,
    file: &str,
    why: &str,
    settings: Settings,
) -> Result<()> {
    screen.print(rt)?;
    let why = format!(in rt.alloc(); "line {}: {why}", settings.line)?;
    complain(rt, file, why.as_str())
}
