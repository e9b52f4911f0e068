//! Makes the calls that standard input names, a line for each, with so much that the call itself
//! asks for a mebibyte of memory, or has a hundred thousand flags. Prints whether it was done or
//! gave up. No contract says that there was memory.
//!
//! A method's name is after that of its type, as `rt check` has it. The file `stdin` has all names,
//! and `stdout` has what must be printed.
#![tactic(auto)]

mod flags;
mod generate;
mod in_place;
mod inputs;
mod json;
mod parse;
mod stream;
mod strings;
mod values;

use std::alloc::{AllocError, AllocFailed, Global};
use std::io::{self, Read};
use std::process::ExitCode;

/// Why a call isn't made.
#[derive(Clone, Copy, Debug)]
pub enum Unmade {
    /// No call has the name.
    Unknown,
    /// What the call needs wasn't made.
    NoInput,
}

impl From<AllocError> for Unmade {
    fn from(_error: AllocError) -> Unmade {
        Unmade::NoInput
    }
}

impl<T: Drop> From<AllocFailed<T>> for Unmade {
    fn from(_error: AllocFailed<T>) -> Unmade {
        Unmade::NoInput
    }
}

/// Whether a call is done.
pub type Done = Result<bool, Unmade>;

fn main(rt: HostRuntime) -> ExitCode {
    match run(&rt) {
        Ok(()) => ExitCode::SUCCESS,
        Err(_) => ExitCode::from(1),
    }
}

/// Makes the calls that standard input names, a line for each.
fn run(rt: &HostRuntime) -> io::Result<()> {
    let alloc = rt.alloc();
    let mut names = String::new(alloc);
    rt.stdin().read_to_string(&mut names)?;
    for name in names.as_str().lines() {
        let word = match call(alloc, name) {
            Ok(true) => "done",
            Ok(false) => "given up",
            Err(Unmade::Unknown) => "unknown",
            Err(Unmade::NoInput) => "no input",
        };
        println!(rt; "{name} {word}")?;
    }
    Ok(())
}

/// Makes the call: that of the first topic which has it.
fn call(alloc: Global, name: &str) -> Done {
    macro_rules! first_of {
        ($($topic:ident)*) => {
            $(
                match $topic::call(alloc, name) {
                    Err(Unmade::Unknown) => {}
                    done => return done,
                }
            )*
        };
    }
    first_of!(strings values flags parse generate stream in_place json);
    Err(Unmade::Unknown)
}

/// Whether a call returned no error.
fn done<T: Drop, E: Drop>(returned: Result<T, E>) -> Done {
    Ok(returned.is_ok())
}
