//! Requests for texts of errors: `message_of ERROR`, of an error by its name; and `message BYTES`,
//! of the error that `parse_value` returns, which `parse` answers by `message` of this module.

use super::words::{bytes_of, kind_of, number, shown};
use super::{Answer, Trouble};
use amq_protocol_types::generation::GenError;
use amq_protocol_types::parsing::{
    Err, Needed, ParserError, SliceInput, parse_short_string, parse_value,
};
use amq_protocol_types::stream::{Limits, StreamError, parse_value_within};
use amq_protocol_types::{Error, ShortString, ShortStringError, TryCopyError};
use std::alloc::{AllocError, Global};

/// The text of an error.
pub fn message(alloc: Global, error: ParserError) -> Answer {
    let own = shown(alloc, &error)?;
    let text = shown(alloc, Error::from(error))?;
    if own.as_str() != text.as_str() {
        return Ok(format!(in alloc; "{text} but {own} itself")?);
    }
    Ok(text)
}

fn variant_of(error: &Error) -> &str {
    match error {
        Error::ShortString(_) => "ShortString",
        Error::TryCopy(_) => "TryCopy",
        Error::Gen(_) => "Gen",
        Error::Parser(_) => "Parser",
        Error::Stream(_) => "Stream",
        Error::Alloc(_) => "Alloc",
    }
}

/// The variant of `Error` that the named error becomes, and its text.
pub fn answer(_rt: &HostRuntime, alloc: Global, call: &str, words: &[&str]) -> Answer {
    if call != "message_of" {
        return Err(Trouble::Unknown);
    }
    let error = error_of(alloc, words)?;
    let variant = variant_of(&error);
    Ok(format!(in alloc; "{variant}: {error}")?)
}

fn error_of(alloc: Global, words: &[&str]) -> Result<Error, Trouble> {
    Ok(match words {
        ["AllocError"] => Error::from(AllocError),
        ["GenError::BufferTooSmall"] => Error::from(GenError::BufferTooSmall),
        ["GenError::LengthTooLong"] => Error::from(GenError::LengthTooLong),
        ["GenError::OutOfMemory"] => Error::from(GenError::OutOfMemory),
        ["GenError::InvalidOffset"] => Error::from(GenError::InvalidOffset),
        ["StreamError::Truncated"] => Error::from(StreamError::Truncated),
        ["StreamError::OutOfMemory"] => Error::from(StreamError::OutOfMemory),
        ["StreamError::Failed"] => Error::from(StreamError::Failed),
        ["TryCopyError::OutOfMemory"] => Error::from(TryCopyError::OutOfMemory),
        ["ParserError::Incomplete"] => Error::from(ParserError::Incomplete(Needed::Unknown)),
        [name, word] => return error_with(alloc, *name, *word),
        _ => return Err(Trouble::Unknown),
    })
}

/// The error of this name that holds something.
fn error_with(alloc: Global, name: &str, word: &str) -> Result<Error, Trouble> {
    Ok(match name {
        "GenError::IoError" => Error::from(GenError::IoError(kind_of(word)?)),
        "StreamError::Read" => Error::from(StreamError::Read(kind_of(word)?)),
        "StreamError::Refused" => match parser_error(alloc, word)? {
            Err::Error(error) => Error::from(StreamError::Refused(error)),
            _ => return Err(Trouble::Unknown),
        },
        "ParserError::Error" => Error::from(parser_error(alloc, word)?),
        "ParserError::Incomplete" => {
            Error::from(ParserError::Incomplete(Needed::Size(number(word)?)))
        }
        "ShortStringError" => Error::from(too_long(alloc, number(word)?)?),
        "TryCopyError::TooLong" => {
            Error::from(TryCopyError::TooLong(too_long(alloc, number(word)?)?))
        }
        _ => return Err(Trouble::Unknown),
    })
}

/// The error for a string that isn't UTF-8, for a value that is too large, or for these bytes.
fn parser_error(alloc: Global, word: &str) -> Result<ParserError, Trouble> {
    let limits = Limits { frame: 0, depth: 0 };
    let error = match word {
        "MapRes" => parse_short_string(alloc, SliceInput::new(b"\x01\xff")).err(),
        "TooLarge" => parse_value_within(alloc, SliceInput::new(b"V"), limits).err(),
        _ => {
            let bytes = bytes_of(alloc, word)?;
            parse_value(alloc, SliceInput::new(bytes.as_slice())).err()
        }
    };
    match error {
        Some(error) => Ok(error),
        None => Err(Trouble::Unknown),
    }
}

/// The error for a string of this length.
fn too_long(alloc: Global, length: usize) -> Result<ShortStringError, Trouble> {
    let Ok(text) = String::from_utf8(vec![in alloc; b'a'; length]?) else {
        return Err(Trouble::Unknown);
    };
    match ShortString::try_new(text) {
        Ok(_string) => Err(Trouble::Unknown),
        Err(error) => Ok(error),
    }
}
