//! The errors: `JsonError` of reading a JSON text; `EncodeError`, `DecodeError` and `WriteError` of
//! writing one.

use amq_protocol_types::parsing::ParserError;
use std::alloc::AllocError;
use thiserror::Error;

/// Why no value was read from a JSON text. Offsets are in bytes, counted from 0.
#[derive(Clone, Copy, Debug, Drop, PartialEq, Eq, Error)]
pub enum JsonError {
    /// An allocation failed.
    #[error("out of memory")]
    OutOfMemory,
    /// The encoding would have 2^32 bytes or more in a string or a container.
    #[error("too large")]
    TooLarge,
    /// The text isn't JSON: the bytes before this one begin a JSON text, and no JSON text has this byte after them.
    #[error("{1} at byte {0}")]
    Syntax(usize, SyntaxError),
    /// At this byte an array or an object begins that is nested too deep.
    #[error("nested too deep at byte {0}")]
    TooDeep(usize),
    /// The text is JSON up to this byte, where something begins that no AMQP value has.
    #[error("{1} at byte {0}")]
    NotAValue(usize, Mismatch),
}

/// What is wrong where a text stops being JSON.
#[derive(Clone, Copy, Debug, Drop, PartialEq, Eq, Error)]
pub enum SyntaxError {
    /// The text ends too early.
    #[error("unexpected end")]
    UnexpectedEnd,
    /// The text ends in a string.
    #[error("unfinished string")]
    UnfinishedString,
    /// A character that can't be there in any JSON text.
    #[error("unexpected character")]
    UnexpectedCharacter,
    /// A control character in a string, such as a line feed, which has to be escaped.
    #[error("control character in a string")]
    ControlCharacter,
    /// A character after a backslash that makes no escape, or no hexadecimal digit after `\u`.
    #[error("unknown escape")]
    UnknownEscape,
    /// An escape of one half of a surrogate pair without the other.
    #[error("lone surrogate")]
    LoneSurrogate,
    /// A value or a key where a comma should be.
    #[error("missing comma")]
    MissingComma,
    /// Something other than a colon after a key.
    #[error("missing colon")]
    MissingColon,
    /// A closing bracket after a comma.
    #[error("trailing comma")]
    TrailingComma,
    /// Something after the value of the text.
    #[error("more text after the value")]
    AfterTheValue,
    /// A byte order mark at the beginning.
    #[error("byte order mark")]
    ByteOrderMark,
}

/// What no AMQP value has.
#[derive(Clone, Copy, Debug, Drop, PartialEq, Eq, Error)]
pub enum Mismatch {
    /// A key with one `$` and no name of a type that is written by its name.
    #[error("expected the name of a type after `$`")]
    UnknownType,
    /// A key with one `$` beside another key, or another key beside it.
    #[error("expected no other key beside a type name")]
    NotAlone,
    /// A table's key of more than 255 bytes.
    #[error("a key of more than 255 bytes")]
    KeyTooLong,
    /// Anything but a number for a type whose values are numbers. A `Float` or a `Double` may also be a string.
    #[error("expected a number")]
    NotANumber,
    /// Anything but a string for a type that is written as a string.
    #[error("expected a string")]
    NotAString,
    /// A number that the type doesn't hold: one with a point or an exponent for an integer type, or one that is too large.
    #[error("expected a number that the type holds")]
    OutOfRange,
    /// An odd number of hexadecimal digits.
    #[error("expected an even number of hexadecimal digits")]
    OddDigits,
    /// A character that isn't a hexadecimal digit.
    #[error("expected only hexadecimal digits")]
    NotHexadecimal,
    /// The string of a `Float` that doesn't have 8 digits, or that of a `Double` that doesn't have 16.
    #[error("expected 8 hexadecimal digits of a Float, or 16 of a Double")]
    DigitCount,
    /// A decimal that isn't a number, `e-` and a scale, as `314e-2`.
    #[error("expected a number and a scale, as in 314e-2")]
    NotADecimal,
}

/// Why a value has no JSON text.
#[derive(Clone, Copy, Debug, Drop, PartialEq, Eq, Error)]
pub enum EncodeError {
    /// An allocation failed.
    #[error("out of memory")]
    OutOfMemory,
    /// The value is or holds a `ShortString`, which has no type tag.
    #[error("a ShortString has no type tag")]
    NoTypeTag,
    /// A string, a byte array or a container is longer than its length field can hold.
    #[error("length too long")]
    TooLong,
}

/// Why some bytes have no JSON text.
#[derive(Debug, Drop)]
pub enum DecodeError {
    /// The bytes don't begin with a value within the limits: the error of `parse_value_within`.
    Refused(ParserError),
    /// An allocation failed.
    OutOfMemory,
}

/// Why no JSON text was written to a buffer.
#[derive(Debug, Drop)]
pub enum WriteError {
    /// The bytes don't begin with a value within the limits: the error of `parse_value_within`.
    Refused(ParserError),
    /// The text has that many bytes, more than the buffer. `usize::MAX` stands for any larger number too.
    BufferTooSmall(usize),
}

impl From<AllocError> for JsonError {
    ghost use Rattle.std.specs.Prelude.{◌≡◌};
    ghost use Rattle.amqp_json.specs.declared.error.JsonError.TheVariants.{OutOfMemory};

    ghost from_gives = { λ _ e. e ≡ OutOfMemory };

    fn from(_refused: AllocError) -> JsonError {
        JsonError::OutOfMemory
    }
}

impl From<AllocError> for EncodeError {
    ghost use Rattle.std.specs.Prelude.{◌≡◌};
    ghost use Rattle.amqp_json.specs.declared.error.EncodeError.TheVariants.{OutOfMemory};

    ghost from_gives = { λ _ e. e ≡ OutOfMemory };

    fn from(_refused: AllocError) -> EncodeError {
        EncodeError::OutOfMemory
    }
}

impl From<AllocError> for DecodeError {
    ghost use Rattle.std.specs.Prelude.{◌≡◌};
    ghost use Rattle.amqp_json.specs.declared.error.DecodeError.TheVariants.{OutOfMemory};

    ghost from_gives = { λ _ e. e ≡ OutOfMemory };

    fn from(_refused: AllocError) -> DecodeError {
        DecodeError::OutOfMemory
    }
}
