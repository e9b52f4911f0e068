//! How the work on a file ends: `Status`, the exit status, and `Fault`, what ends it early.

use crate::hexadecimal::NotHexadecimal;
use std::alloc::AllocError;
use std::io;
use std::io::ErrorKind;
use thiserror::Error;

/// How it went, from the best to the worst.
#[derive(Clone, Copy, PartialEq, Eq)]
pub enum Status {
    /// Each value was read.
    Read,
    /// Each was, and readers may differ on one.
    Warned,
    /// One is beyond the limits.
    Beyond,
    /// RabbitMQ closes the connection for one.
    Closes,
    /// One was rejected, or is truncated.
    Rejected,
    /// A mistake in the arguments, input that can't be read, output that can't be written, or out of
    /// memory.
    Mistake,
}

impl Status {
    ghost use Rattle.std.specs.Prelude.{◌≡◌, max};
    ghost use Rattle.amqp_show.specs.Output.{code_of, rank_of, is_read};

    /// The exit status of the program.
    pub fn code(self) -> u8
        ensures { result ≡ code_of self }
    {
        match self {
            Status::Read => 0,
            Status::Rejected => 1,
            Status::Mistake => 2,
            Status::Beyond => 3,
            Status::Closes => 4,
            Status::Warned => 5,
        }
    }

    // From the best to the worst.
    fn rank(self) -> u8
        ensures { result ≡ rank_of self }
    {
        match self {
            Status::Read => 0,
            Status::Warned => 1,
            Status::Beyond => 2,
            Status::Closes => 3,
            Status::Rejected => 4,
            Status::Mistake => 5,
        }
    }

    /// Whether each value was read.
    pub fn is_read(self) -> bool
        ensures { result ≡ is_read self }
    {
        matches!(self, Status::Read | Status::Warned)
    }

    /// The worse of two.
    pub fn and(self, other: Status) -> Status
        ensures { rank_of result ≡ max (rank_of self) (rank_of other) }
    {
        if self.rank() < other.rank() {
            other
        } else {
            self
        }
    }
}

/// Why the program can't go on with a file, or at all.
#[derive(Debug, Drop, Error)]
pub enum Fault {
    /// An allocation failed.
    #[error("out of memory")]
    OutOfMemory,
    /// The file can't be opened or read.
    #[error("can't be read: {0}")]
    Input(io::Error),
    /// The file isn't hexadecimal.
    #[error("{0}")]
    NotHexadecimal(NotHexadecimal),
    /// The input ends before what --skip passes over does.
    #[error("the input ends within the {0} bytes that --skip passes over")]
    Short(u64),
    /// Nobody reads the output any more.
    #[error("nobody reads the output")]
    Closed,
    /// The output takes no more.
    #[error("the output can't be written: {0}")]
    Output(io::Error),
    /// The output is a terminal, which would obey the bytes.
    #[error("--raw doesn't write to a terminal, which would obey the bytes; redirect the output")]
    Terminal,
}

/// What the program does, unless a fault ends it.
pub type Result<T, E = Fault> = std::result::Result<T, E>;

impl Fault {
    /// Why input can't be read.
    pub fn of_input(error: io::Error) -> Fault {
        match error.kind() {
            ErrorKind::OutOfMemory => Fault::OutOfMemory,
            _ => Fault::Input(error),
        }
    }

    /// Why output can't be written.
    pub fn of_output(error: io::Error) -> Fault {
        match error.kind() {
            ErrorKind::BrokenPipe => Fault::Closed,
            _ => Fault::Output(error),
        }
    }

    /// Whether the next file may still be shown.
    pub fn is_of_file(&self) -> bool {
        matches!(
            self,
            Fault::Input(_) | Fault::NotHexadecimal(_) | Fault::Short(_)
        )
    }
}

impl From<AllocError> for Fault {
    fn from(_error: AllocError) -> Fault {
        Fault::OutOfMemory
    }
}
