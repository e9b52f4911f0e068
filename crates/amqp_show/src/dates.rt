//! `dates_as_seconds`: the dates that `--encode` reads in place of a Timestamp's seconds.

use jiff::Timestamp;
use json::{Reader, Scratch, Token};
use std::alloc::{AllocError, Global};

/// The text with its dates under `$Timestamp` as seconds since 1970, each followed by as many spaces as
/// the date has more characters: so offsets stay the same. Other dates stay as they are.
pub fn dates_as_seconds(alloc: Global, json: &str) -> Result<String, AllocError> {
    let mut scratch = Scratch::new(alloc);
    let mut reader = Reader::new(json, &mut scratch)?;
    let mut text = String::new(alloc);
    let (mut is_timestamp, mut copied) = (false, 0);
    for _ in 0..u64::MAX {
        let at = reader.offset();
        let Some(token) = reader.next() else {
            break;
        };
        if is_timestamp
            && let Token::String(date) = token
            && let Ok(seconds) = seconds_of(date)
            && let Some((before, width)) = date_in(json, copied, at, date)
        {
            write!(text, "{before}{seconds:<width$}")?;
            copied = at.saturating_add(width);
        }
        is_timestamp = matches!(token, Token::Key("$Timestamp"));
    }
    text.push_str(json.get(copied..).unwrap_or(""))?;
    Ok(text)
}

// What a text has between two bytes, and how many bytes a date in quotes takes at the second, if it
// is there without escapes.
fn date_in<'a>(json: &'a str, from: usize, at: usize, date: &str) -> Option<(&'a str, usize)> {
    let quoted = json.get(at..)?.strip_prefix('"')?;
    let after = quoted.strip_prefix(date)?;
    after
        .starts_with('"')
        .then_some((json.get(from..at)?, date.len().saturating_add(2)))
}

/// The seconds since 1970 of a date, or why it isn't a Timestamp.
pub fn seconds_of(date: &str) -> Result<u64, &'static str> {
    let Ok(instant) = date.parse::<Timestamp>() else {
        return Err("a date has a day, a time, and Z or an offset");
    };
    if instant.subsec_nanosecond() != 0 {
        return Err("a Timestamp has whole seconds");
    }
    u64::try_from(instant.as_second()).map_err(|_| "the date is before 1970")
}
