//! `WireFault`: what ends a run before its last line, and the exit status then.

ghost use Rattle.std.specs.Prelude.{◌≡◌};
ghost use Rattle.std.specs.IoError.{error_kind};
ghost use Rattle.std.specs.Process.{exit_status};
ghost use Rattle.amqp_wire.specs.Faults.{fault_of, status_of};
ghost use Rattle.amqp_wire.specs.declared.fault.WireFault.TheVariants.{OutOfMemory};

use std::alloc::AllocError;
use std::io;
use std::io::ErrorKind;
use std::process::ExitCode;
use thiserror::Error;

/// A fault of memory, or of the reader or the writer.
#[derive(Clone, Copy, Debug, PartialEq, Eq, Error)]
pub enum WireFault {
    /// An allocation failed, or the reader or the writer reported that one did.
    #[error("out of memory")]
    OutOfMemory,
    /// The reader or the writer failed in any other way.
    #[error("input or output failed")]
    Io,
}

impl From<AllocError> for WireFault {
    ghost from_gives = { λ _ fault. fault ≡ OutOfMemory };

    fn from(_error: AllocError) -> WireFault {
        WireFault::OutOfMemory
    }
}

impl From<io::Error> for WireFault {
    ghost from_gives = { λ error fault. fault ≡ fault_of (error_kind error) };

    fn from(error: io::Error) -> WireFault {
        match error.kind() {
            ErrorKind::OutOfMemory => WireFault::OutOfMemory,
            _ => WireFault::Io,
        }
    }
}

impl From<WireFault> for ExitCode {
    ghost from_gives = { λ fault code. exit_status code ≡ status_of fault };

    fn from(fault: WireFault) -> ExitCode {
        match fault {
            WireFault::OutOfMemory => ExitCode::from(1),
            WireFault::Io => ExitCode::from(2),
        }
    }
}
