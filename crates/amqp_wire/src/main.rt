//! Reads lines of hexadecimal from standard input, and prints for each a line that states what
//! its bytes are read as: a value, how many more bytes are needed, or an error. Arguments are
//! ignored.
//!
//! Its tests are in `src/tests`; `stdout` has what it prints for `stdin`. `tests/wire` runs it on
//! devices that fail, and compares it with the reference implementation. `tests/memory` runs it with
//! each allocation failing.
#![tactic(auto)]

mod fault;
mod line;
mod read;
mod run;
mod sink;
mod stream;
#[cfg(test)]
mod tests;

use std::process::ExitCode;

fn main(rt: HostRuntime) -> ExitCode {
    match run::run(rt.alloc(), &mut rt.stdin(), &mut rt.stdout()) {
        Ok(()) => ExitCode::SUCCESS,
        Err(fault) => {
            // If the message can't be written, the status still reports what happened.
            let _ = eprintln!(rt; "amqp_wire: {fault}");
            ExitCode::from(fault)
        }
    }
}
