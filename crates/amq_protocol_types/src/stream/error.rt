//! [`StreamError`], the error of a `ValueReader` or `Values`: a parser's, a truncated value, or the
//! reader's own. `crate::Error` (`src/errors.rt`) holds any error of this crate.

use crate::parsing::ParserErrors;
use std::alloc::AllocError;
use std::io;
use thiserror::Error;

/// Why a reader of values returned none. What each variant means for the bytes that came is proved
/// for readers in memory, such as slices, and tested for others by the rows of
/// `crates/test_calls/data/stream.calls`.
#[derive(Clone, Debug, PartialEq, Drop, Error)]
pub enum StreamError {
    /// The input is no value within the limits. The reader of values has failed for good.
    #[error(transparent)]
    Refused(ParserErrors),
    /// The input ended inside a value. The reader of values has failed for good.
    #[error("truncated")]
    Truncated,
    /// The reader returned this kind of error, `Interrupted` too. Nothing that came is lost, and
    /// the next call continues.
    #[error("read failed")]
    Read(io::ErrorKind),
    /// An allocation failed. Nothing that came is lost, and the next call continues.
    #[error("out of memory")]
    OutOfMemory,
    /// An earlier call returned `Refused` or `Truncated`. Nothing was read.
    #[error("failed before")]
    Failed,
}

impl From<AllocError> for StreamError {
    ghost use Rattle.std.specs.Prelude.{◌≡◌};
    ghost use Rattle.amq_protocol_types.specs.declared.stream.error.StreamError.TheVariants.{OutOfMemory};

    ghost from_gives = { λ _ e. e ≡ OutOfMemory };

    fn from(_refused: AllocError) -> StreamError {
        StreamError::OutOfMemory
    }
}
