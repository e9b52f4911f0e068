//! Each `Program` on readers and writers that fail: which `WireFault` it returns, and what it has
//! written.

use super::rows::{BYTES, LINES};
use super::*;
use Failing::{TakingNone, With};
use std::alloc::AllocError;
use std::io;
use std::io::ErrorKind;
use std::test::Fail;

/// Yields the bytes of a string, at most 3 at a time, and then returns an error.
#[derive(Drop)]
struct BrokenReader<'a> {
    text: &'a [u8],
    kind: ErrorKind,
}

impl Read for BrokenReader<'_> {
    fn read(&mut self, buf: &mut [u8]) -> io::Result<usize> {
        if self.text.is_empty() {
            return Err(io::Error::from(self.kind));
        }
        let most = buf.len().min(3);
        self.text.read(&mut buf[..most])
    }
}

/// Yields the bytes of a string, and is interrupted three times before each byte and at the end.
#[derive(Drop)]
struct InterruptedReader<'a> {
    text: &'a [u8],
    interruptions: u8,
}

impl Read for InterruptedReader<'_> {
    fn read(&mut self, buf: &mut [u8]) -> io::Result<usize> {
        if self.interruptions < 3 {
            self.interruptions += 1;
            return Err(io::Error::from(ErrorKind::Interrupted));
        }
        self.interruptions = 0;
        let most = buf.len().min(1);
        self.text.read(&mut buf[..most])
    }
}

/// How a writer fails.
#[derive(Clone, Copy)]
enum Failing {
    With(ErrorKind),
    TakingNone,
}

/// Takes at most 5 bytes at a time, and fails once it was called `calls` times.
#[derive(Drop)]
struct BrokenWriter {
    taken: Vec<u8>,
    calls: usize,
    failing: Failing,
}

impl Write for BrokenWriter {
    fn write(&mut self, buf: &[u8]) -> io::Result<usize> {
        if self.calls == 0 {
            return match self.failing {
                With(kind) => Err(io::Error::from(kind)),
                TakingNone => Ok(0),
            };
        }
        self.calls -= 1;
        let most = buf.len().min(5);
        self.taken.write(&buf[..most])
    }

    fn flush(&mut self) -> io::Result<()> {
        Ok(())
    }
}

/// What is run, what is read until the reader fails, how, what is returned, and what is written.
const READERS: &[(Program, &[u8], ErrorKind, Result<(), WireFault>, &str)] = &[
    (
        Lines,
        b"56\n56\n",
        ErrorKind::BrokenPipe,
        Err(WireFault::Io),
        "",
    ),
    (
        Lines,
        b"56\n56\n",
        ErrorKind::OutOfMemory,
        Err(WireFault::OutOfMemory),
        "",
    ),
    (
        Within(9, 2),
        b"56\n56\n",
        ErrorKind::BrokenPipe,
        Err(WireFault::Io),
        "",
    ),
    (
        Within(9, 2),
        b"56\n56\n",
        ErrorKind::OutOfMemory,
        Err(WireFault::OutOfMemory),
        "",
    ),
    (
        Stream(9, 2, 9),
        CUT,
        ErrorKind::BrokenPipe,
        Err(WireFault::Io),
        "value 56\n",
    ),
    (
        Stream(9, 2, 9),
        CUT,
        ErrorKind::Interrupted,
        Err(WireFault::Io),
        "value 56\n",
    ),
    (
        Stream(9, 2, 9),
        CUT,
        ErrorKind::OutOfMemory,
        Err(WireFault::OutOfMemory),
        "value 56\n",
    ),
    // a reader that fails after the last value isn't asked
    (
        Stream(9, 2, 2),
        &[86, 86],
        ErrorKind::BrokenPipe,
        Ok(()),
        "value 56\nvalue 56\n",
    ),
];

/// The kinds that no error number of the system has.
const NO_NUMBER: &[ErrorKind] = &[
    ErrorKind::InvalidData,
    ErrorKind::WriteZero,
    ErrorKind::UnexpectedEof,
    ErrorKind::Other,
];

/// Every kind of fault, some of them several times.
fn kinds(alloc: Global) -> Result<Vec<ErrorKind>, AllocError> {
    let mut kinds = Vec::from_slice(alloc, NO_NUMBER)?;
    for number in 0..134 {
        kinds.push(io::Error::from_raw_os_error(number).kind())?;
    }
    Ok(kinds)
}

/// What a run returns after a fault of this kind.
fn fault_of(kind: ErrorKind) -> WireFault {
    if kind == ErrorKind::OutOfMemory {
        WireFault::OutOfMemory
    } else {
        WireFault::Io
    }
}

/// What is run on a reader that fails after each of the bytes. What reads lines asks a reader that
/// was interrupted again.
const BROKEN_OFF: &[(Program, &[u8])] = &[
    (Lines, b"56\n7a"),
    (Split(1), b"56\n7a"),
    (Within(9, 2), b"56\n7a"),
    (Stream(9, 2, 9), CUT),
];

fn ends_with_the_fault(rt: &impl Abort, alloc: Global, kind: ErrorKind) {
    for (program, text) in BROKEN_OFF {
        let is_stream = matches!(program, Stream(_, _, _));
        for at in 0..text.len() + 1 {
            if is_stream || kind != ErrorKind::Interrupted {
                let text = &text[..at];
                let mut reader = BrokenReader { text, kind };
                let mut out = Vec::new(alloc);
                let outcome = run_program(rt, alloc, *program, &mut reader, &mut out);
                assert_eq!(rt; outcome, Err(fault_of(kind)), "{kind:?} after {text:?}");
            }
        }
    }
}

#[test]
fn each_kind_of_fault_of_the_reader_is_reported(rt: HostRuntime) -> Result<(), Fail> {
    for kind in kinds(rt.alloc())?.as_slice() {
        ends_with_the_fault(&rt, rt.alloc(), *kind);
    }
    Ok(())
}

#[test]
fn lines_are_read_on_after_each_interruption(rt: HostRuntime) {
    for program in [Lines, Split(1), Within(9, 2)] {
        let mut reader = InterruptedReader {
            text: b"56\n7a",
            interruptions: 0,
        };
        let mut out = Vec::new(rt.alloc());
        let outcome = run_program(&rt, rt.alloc(), program, &mut reader, &mut out);
        assert_eq!(rt; outcome, Ok(()));
        assert_eq!(rt;
            out.as_slice(),
            b"value 56 rest 0\nrefused MapOpt\n".as_slice()
        );
    }
}

/// Void, and the beginning of a long string.
const CUT: &[u8] = &[86, 83, 0, 0, 0, 4, 116];

#[test]
fn a_fault_of_the_reader_ends_it(rt: HostRuntime) {
    for (at, (program, text, kind, outcome, written)) in READERS.iter().enumerate() {
        let mut reader = BrokenReader { text, kind: *kind };
        let mut out = Vec::new(rt.alloc());
        let returned = run_program(&rt, rt.alloc(), *program, &mut reader, &mut out);
        assert_eq!(rt; returned, *outcome, "row {at}");
        assert_eq!(rt; out.as_slice(), written.as_bytes(), "row {at}");
    }
}

/// What is run, what is read, what is written, and in how many calls: one for each five bytes of a
/// line, and one for what is left of it.
const WRITERS: &[(Program, &[u8], &str, usize)] = &[
    (Lines, b"56\n7\n", "value 56 rest 0\nnot hex\n", 6),
    (Split(1), b"56\n7\n", "value 56 rest 0\nnot hex\n", 6),
    (Within(4, 2), b"41", "refused TooLarge\n", 4),
    (Stream(9, 2, 9), BYTES, LINES, 11),
];

// Until the writer fails it takes the beginning of what is written, and if it doesn't, all.
fn is_taken(
    rt: &impl Abort,
    alloc: Global,
    program: Program,
    input: &[u8],
    lines: &[u8],
    mut writer: BrokenWriter,
    outcome: Result<(), WireFault>,
) {
    let mut reader = input;
    let returned = run_program(rt, alloc, program, &mut reader, &mut writer);
    assert_eq!(rt; returned, outcome);
    assert!(rt; lines.starts_with(writer.taken.as_slice()));
    assert_eq!(rt; writer.taken.len() == lines.len(), outcome.is_ok());
}

/// A writer that fails so ends each run with the fault, whichever of its calls that is.
fn ends_each_run(rt: &impl Abort, alloc: Global, failing: Failing, fault: WireFault) {
    for (program, input, lines, needed) in WRITERS {
        for calls in 0..12 {
            let writer = BrokenWriter {
                taken: Vec::new(alloc),
                calls,
                failing,
            };
            let outcome = if calls < *needed { Err(fault) } else { Ok(()) };
            let lines = lines.as_bytes();
            is_taken(rt, alloc, *program, input, lines, writer, outcome);
        }
    }
}

#[test]
fn each_kind_of_fault_of_the_writer_is_reported(rt: HostRuntime) -> Result<(), Fail> {
    for kind in kinds(rt.alloc())?.as_slice() {
        ends_each_run(&rt, rt.alloc(), With(*kind), fault_of(*kind));
    }
    ends_each_run(&rt, rt.alloc(), TakingNone, WireFault::Io);
    Ok(())
}

#[test]
fn names_faults(rt: HostRuntime) -> Result<(), Fail> {
    for (fault, text) in [
        (WireFault::OutOfMemory, "out of memory"),
        (WireFault::Io, "input or output failed"),
    ] {
        assert_eq!(rt; fault.to_string(rt.alloc())?.as_str(), text);
    }
    Ok(())
}
