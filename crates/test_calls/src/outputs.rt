//! Requests on `Output`: `output WHERE CALLS` makes the calls one after another. The answer has
//! that of each, and what was written.
//!
//! WHERE is a slice's length, `vec`, or `io:STEPS`. A call is `put:BYTES`, `put_both:BYTES:BYTES`, `make_room:N`,
//! and of a buffer `put_three:BYTES:BYTES:BYTE`, `reserve:N`, `fill:AT:BYTES` or `back_to:AT`.

use super::devices::Device;
use super::words::{bytes_of, digits, number};
use super::{Answer, Trouble};
use amq_protocol_types::generation::{BackToTheBuffer, GenResult, IoOutput, Output, SliceOutput};
use std::alloc::Global;

/// What each call answers, and the state after them.
pub fn answer(_rt: &HostRuntime, alloc: Global, call: &str, words: &[&str]) -> Answer {
    let ("output", [place, calls @ ..]) = (call, words) else {
        return Err(Trouble::Unknown);
    };
    if *place == "vec" {
        let mut output: Vec<u8> = Vec::new(alloc);
        let text = buffer_calls(alloc, &mut output, calls)?;
        return with_state(alloc, text, &output, output.as_slice());
    }
    if let Some(steps) = place.strip_prefix("io:") {
        return in_device(alloc, Device::of(alloc, steps)?, calls);
    }
    let mut slice = vec![in alloc; 0xee_u8; number(*place)?]?;
    let mut output = SliceOutput::new(slice.as_mut_slice());
    let text = buffer_calls(alloc, &mut output, calls)?;
    with_state(alloc, text, &output, output.written())
}

fn in_device(alloc: Global, device: Device, calls: &[&str]) -> Answer {
    let mut output = IoOutput::new(device);
    let mut text = String::new(alloc);
    for call in calls {
        output_call(alloc, &mut text, &mut output, *call)?;
    }
    let text = with_state(alloc, text, &output, &[])?;
    let taken = digits(alloc, output.into_inner().taken.as_slice())?;
    Ok(format!(in alloc; "{text} taken {taken}")?)
}

fn buffer_calls<W: BackToTheBuffer>(alloc: Global, output: &mut W, calls: &[&str]) -> Answer {
    let mut text = String::new(alloc);
    for call in calls {
        buffer_call(alloc, &mut text, output, *call)?;
    }
    Ok(text)
}

fn with_state<W: Output>(alloc: Global, text: String, output: &W, written: &[u8]) -> Answer {
    let written = digits(alloc, written)?;
    let (position, faults) = (output.position(), output.faults());
    Ok(format!(in alloc; "{text}{written} position {position} faults {faults}")?)
}

/// A call of a buffer.
fn buffer_call<W: BackToTheBuffer>(
    alloc: Global,
    text: &mut String,
    output: &mut W,
    call: &str,
) -> Result<(), Trouble> {
    let (name, words) = call.split_once(':').unwrap_or((call, ""));
    match name {
        "reserve" => match output.reserve(number(words)?) {
            Ok(at) => Ok(write!(text, "ok {at}; ")?),
            Err(error) => push_how(text, Err(error)),
        },
        "put_three" => {
            let (a, rest) = words.split_once(':').unwrap_or((words, "-"));
            let (b, c) = rest.split_once(':').unwrap_or((rest, "-"));
            let (a, b, c) = (
                bytes_of(alloc, a)?,
                bytes_of(alloc, b)?,
                bytes_of(alloc, c)?,
            );
            let [c] = c.as_slice() else {
                return Err(Trouble::Unknown);
            };
            push_how(text, output.put_three(a.as_slice(), b.as_slice(), *c))
        }
        "fill" => {
            let (at, bytes) = words.split_once(':').unwrap_or((words, "-"));
            let (at, bytes): (u64, _) = (number(at)?, bytes_of(alloc, bytes)?);
            match at.checked_add(bytes.len() as u64) {
                Some(end) if end <= output.position() => output.fill(at, bytes.as_slice()),
                _ => return Err(Trouble::Unknown),
            }
            push_how(text, Ok(()))
        }
        "back_to" => {
            let at = number(words)?;
            if output.position() < at {
                return Err(Trouble::Unknown);
            }
            output.back_to(at);
            push_how(text, Ok(()))
        }
        _ => output_call(alloc, text, output, call),
    }
}

/// A call of any output.
fn output_call<W: Output>(
    alloc: Global,
    text: &mut String,
    output: &mut W,
    call: &str,
) -> Result<(), Trouble> {
    let (name, word) = call.split_once(':').unwrap_or((call, ""));
    match name {
        "put" => push_how(text, output.put(bytes_of(alloc, word)?.as_slice())),
        "put_both" => {
            let (a, b) = word.split_once(':').unwrap_or((word, "-"));
            let (a, b) = (bytes_of(alloc, a)?, bytes_of(alloc, b)?);
            push_how(text, output.put_both(a.as_slice(), b.as_slice()))
        }
        "make_room" => push_how(text, output.make_room(number(word)?)),
        _ => Err(Trouble::Unknown),
    }
}

/// Adds how a call ended.
fn push_how(text: &mut String, how: GenResult) -> Result<(), Trouble> {
    match how {
        Ok(()) => Ok(text.push_str("ok; ")?),
        Err(error) => Ok(write!(text, "{error:?}; ")?),
    }
}
