//! [`GenError`], the error of generators and outputs: no capacity, a length that is too long, no
//! memory, or a device's fault. `crate::Error` (`src/errors.rt`) holds any error of this crate.

use std::io::ErrorKind;
use thiserror::Error;

/// Why a serializer or an output failed.
#[derive(Clone, Copy, Debug, PartialEq, Eq, Error)]
pub enum GenError {
    /// The bytes don't fit in the rest of the buffer.
    #[error("buffer too small")]
    BufferTooSmall,
    /// A string or container has more bytes than its length field can state: 255 for a short
    /// string, 4294967295 for every other.
    #[error("length too long")]
    LengthTooLong,
    /// An allocation failed.
    #[error("out of memory")]
    OutOfMemory,
    /// The device failed with this kind of error.
    #[error("write failed")]
    IoError(ErrorKind),
    /// The number of bytes written would exceed the greatest `u64`.
    #[error("invalid offset")]
    InvalidOffset,
}

/// What a serializer returns: nothing, or why it failed.
pub type GenResult = Result<(), GenError>;
