//! Shows AMQP field tables: as a tree, byte by byte, as JSON, or by what RabbitMQ makes of one; and
//! encodes JSON.
//!
//! What comes in, through which modules, and what comes out:
//!
//! ```text
//! arguments   arguments                                    Settings
//! a file      input, with --hex by hexadecimal             the bytes of a value
//! the bytes   show or lines, by parts and problems: tree,  Screen, Status
//!             decode (to JSON, or by plain), check
//!             (RabbitMQ)
//! JSON        encode, with dates                           the bytes, or digits
//! Screen      screen; messages on standard error           what is printed
//! ```
//!
//! `tests/show` tests it. The file `stdout` has what it prints with the words of the file `args`,
//! which name the files of `data`.
#![tactic(auto)]

ghost use Rattle.std.specs.Prelude.{◌≡◌};
ghost use Rattle.std.specs.Process.{exit_status};
ghost use Rattle.amqp_show.specs.Output.{code_of, status_after};

mod arguments;
mod check;
mod dates;
mod decode;
mod encode;
mod fault;
mod hexadecimal;
mod input;
mod lines;
mod messages;
mod parts;
mod plain;
mod problems;
mod screen;
mod shape;
mod show;
mod tree;

use arguments::Settings;
use clap::ArgMatches;
use clap::error::ErrorKind;
use fault::{Fault, Result, Status};
use messages::{complain, say};
use screen::{Screen, is_terminal};
use std::env;
use std::io::IsTerminal;
use std::process::ExitCode;

fn main(rt: HostRuntime) -> ExitCode {
    let outcome = run(&rt);
    if let Err(fault) = &outcome {
        // If the message can't be written, the status still reports what happened.
        let _ = fail(&rt, fault);
    }
    exit_code(&outcome)
}

// What the program ends with: the status of its work, or of a mistake if a fault ended it.
fn exit_code(outcome: &Result<Status>) -> ExitCode
    ensures { exit_status result ≡ code_of (status_after outcome.now) }
{
    match outcome {
        Ok(status) => ExitCode::from(status.code()),
        // (as other programs whose output nobody reads any more)
        Err(Fault::Closed) => ExitCode::from(Status::Read.code()),
        Err(_) => ExitCode::from(Status::Mistake.code()),
    }
}

// Reports why the program can't go on, unless that is since nobody reads what it prints.
fn fail(rt: &HostRuntime, fault: &Fault) -> Result<()> {
    if let Fault::Closed = fault {
        return Ok(());
    }
    let why = format!(in rt.alloc(); "{fault}")?;
    say(rt, why.as_str())
}

fn run(rt: &HostRuntime) -> Result<Status> {
    let alloc = rt.alloc();
    let words: Vec<String> = env::args(rt).map_err(Fault::of_input)?.collect(alloc)?;
    match arguments::command(alloc)?.try_get_matches_from(words.as_slice()) {
        Ok(matches) => run_files(rt, &matches),
        Err(error) => show_usage(rt, &error),
    }
}

// Shows each file, or encodes its JSON.
fn run_files(rt: &HostRuntime, matches: &ArgMatches<'_>) -> Result<Status> {
    let settings = Settings::from_matches(matches, has_colours(rt, matches));
    let mut status = Status::Read;
    for file in matches.get_strs("FILE").unwrap_or(&["-"]) {
        status = status.and(run_file(rt, *file, matches, settings)?);
    }
    if status == Status::Warned && !matches.get_flag("strict") {
        return Ok(Status::Read);
    }
    Ok(status)
}

// Shows a file, or encodes its JSON; or reports why it can't be read.
fn run_file(
    rt: &HostRuntime,
    file: &str,
    matches: &ArgMatches<'_>,
    settings: Settings,
) -> Result<Status> {
    if file == "-" && rt.stdin().is_terminal() {
        say(rt, "reading standard input")?;
    }
    let ran = if matches.get_flag("encode") {
        encode::encode_file(rt, file, matches.get_flag("raw"), settings)
    } else if settings.has_lines {
        lines::show_lines(rt, file, settings)
    } else {
        show::show_file(rt, file, settings)
    };
    match ran {
        Err(fault) if fault.is_of_file() => {
            let why = format!(in rt.alloc(); "{fault}")?;
            complain(rt, file, why.as_str())?;
            Ok(Status::Mistake)
        }
        ran => ran,
    }
}

// Prints what the arguments ask for, or why they can't be understood.
fn show_usage(rt: &HostRuntime, error: &clap::Error) -> Result<Status> {
    match error.kind() {
        ErrorKind::OutOfMemory => return Err(Fault::OutOfMemory),
        _ => {}
    }
    let text = format!(in rt.alloc(); "{error}")?;
    let mut screen = Screen::new(rt.alloc(), false);
    for line in text.lines() {
        screen.push_line(line)?;
    }
    if error.use_stderr() {
        screen.print_error(rt)?;
        return Ok(Status::Mistake);
    }
    screen.print(rt)?;
    Ok(Status::Read)
}

// Whether there are colours: as --color says, or on a terminal that has them, unless a variable `NO_COLOR` isn't empty.
fn has_colours(rt: &HostRuntime, matches: &ArgMatches<'_>) -> bool {
    match matches.get_str("color") {
        Some("always") => true,
        Some("never") => false,
        _ => is_terminal(rt) && !is_variable(rt, "TERM", "dumb") && is_variable(rt, "NO_COLOR", ""),
    }
}

// Whether a variable has a value, of which it has none if it isn't set.
fn is_variable(rt: &HostRuntime, name: &str, value: &str) -> bool {
    match env::var(rt, name) {
        Ok(text) => text.as_str() == value,
        Err(_) => value.is_empty(),
    }
}
