//! [`ParserError`], the error of parsers: more bytes are needed, the input is malformed, or an
//! allocation failed. `crate::Error` (`src/errors.rt`) holds any error of this crate.

ghost use Rattle.std.specs.Prelude.{◌≡◌, Some};
ghost use Rattle.amq_protocol_types.specs.parsing.Refusals.{lacks, error_of_kind, out_of_memory, inside};

use std::alloc::AllocError;
use std::error::Error;
use std::fmt;
use std::marker::Model;

/// Why a parser returned no value. It is used with `ParserErrors`, as `ParserError`.
#[derive(Clone, Debug, PartialEq, Drop, thiserror::Error)]
#[error_bound(E: fmt::Display)]
pub enum Err<E> {
    /// The input ended too early. Call again with the same bytes and more after them.
    #[error("incomplete input ({0})")]
    Incomplete(Needed),
    /// The input is malformed, whatever bytes follow.
    #[error("{0}")]
    Error(E),
    /// An allocation failed. The same call may succeed later.
    #[error("{0}")]
    Failure(E),
}

/// How many more bytes are needed.
#[derive(Clone, Copy, Debug, PartialEq, Eq)]
pub enum Needed {
    /// An unknown number. No parser of this crate returns it.
    Unknown,
    /// This many bytes, at least 1, for the field that is being read.
    Size(usize),
}

impl fmt::Display for Needed {
    fn fmt<W: fmt::Write>(&self, f: &mut fmt::Formatter<W>) -> fmt::Result {
        match self {
            Needed::Unknown => f.write_str("more bytes are needed"),
            Needed::Size(n) => write!(f, "bytes needed: {n}"),
        }
    }
}

/// What is wrong with an input, or that memory ran out. Most names are those of nom, which
/// `amq-protocol-types` uses.
#[derive(Clone, Copy, Debug, PartialEq, Eq)]
pub enum ErrorKind {
    /// The byte is no known type tag.
    MapOpt,
    /// A short string is complete, and isn't UTF-8.
    MapRes,
    /// A container is complete, and its body isn't a concatenation of entries; or, within limits,
    /// containers nest deeper than `depth`.
    Eof,
    /// An allocation failed.
    OutOfMemory,
    /// A value is longer than the limit `frame`, as its type tag and length show.
    TooLarge,
}

/// The error in `Err::Error` or `Err::Failure`: its kind. It has no position.
#[derive(Clone, Debug, PartialEq, Drop)]
pub struct ParserErrors {
    kind: ErrorKind,
}

impl Model for ParserErrors {
    ghost use Rattle.amq_protocol_types.specs.declared.parsing.errors.ErrorKind.{ErrorKind};

    ghost Value = { ErrorKind };

    ghost view = { λ e. e.kind };

    ghost inverse = { λ k. record { kind = k } };
}

impl ParserErrors {
    /// Returns the kind of the error.
    pub fn kind(&self) -> ErrorKind
        ensures { result ≡ self.now }
    {
        self.kind
    }
}

impl fmt::Display for ParserErrors {
    ghost use Rattle.amq_protocol_types.specs.parsing.Refusals.{printed};

    ghost output = { λ e. Some (printed e) };

    fn fmt<W: fmt::Write>(&self, f: &mut fmt::Formatter<W>) -> fmt::Result {
        f.write_str(match self.kind {
            ErrorKind::MapOpt => "Parser error: Nom(MapOpt)",
            ErrorKind::MapRes => "Parser error: Nom(MapRes)",
            ErrorKind::Eof => "Parser error: Nom(Eof)",
            ErrorKind::OutOfMemory => "Parser error: OutOfMemory",
            ErrorKind::TooLarge => "Parser error: Nom(TooLarge)",
        })
    }
}

impl Error for ParserErrors {}

/// What a parser returns instead of a value: an error, or how many more bytes it needs.
pub type ParserError = Err<ParserErrors>;

/// What a parser returns: the remaining input and a value, or why there is no value.
pub type ParserResult<I, T> = Result<(I, T), ParserError>;

/// Makes `Incomplete`: `n` more bytes are needed for the field that is being read. For parsers of
/// one's own.
pub fn lacks(n: usize) -> ParserError
    ensures { result ≡ lacks n }
{
    Err::Incomplete(Needed::Size(n))
}

/// Makes an error of the kind.
pub(crate) fn refusal(kind: ErrorKind) -> ParserErrors
    ensures { result ≡ kind }
{
    ParserErrors { kind }
}

/// Makes `Error` of the kind: the input is malformed. For parsers of one's own.
pub fn error_of_kind(kind: ErrorKind) -> ParserError
    ensures { result ≡ error_of_kind kind }
{
    Err::Error(ParserErrors { kind })
}

/// An allocation failed.
pub(crate) fn out_of_memory() -> ParserError
    ensures { result ≡ out_of_memory }
{
    Err::Failure(ParserErrors {
        kind: ErrorKind::OutOfMemory,
    })
}

impl From<AllocError> for ParserError {
    ghost from_gives = { λ _ e. e ≡ out_of_memory };

    fn from(_refused: AllocError) -> ParserError {
        out_of_memory()
    }
}

// what the error of an entry means for the container round it, whose body is complete
pub(crate) fn inside(e: ParserError) -> ParserError
    ensures { result ≡ inside e }
{
    match e {
        Err::Failure(e) => Err::Failure(e),
        Err::Incomplete(_) | Err::Error(_) => error_of_kind(ErrorKind::Eof),
    }
}
