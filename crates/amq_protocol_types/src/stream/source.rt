//! [`Source`], the trait of readers that values are read from. Each `Read` is one. Unlike `Read`,
//! `Source` has clauses about the errors that a reader returns.

ghost use Rattle.std.specs.Prelude.{ℕ, List, Option, ⊤, IfErr, OnOk};
ghost use Rattle.std.specs.Io.{ReadsAtMost};
ghost use Rattle.std.specs.Io.KnownBytes.{ReadConsumes};
ghost use Rattle.std.specs.IoError.{error_kind};
ghost use Rattle.std.specs.declared.io.ErrorKind.{ErrorKind};

use std::io;
use std::io::Read;

/// A source of bytes. Each reader is one; use it as that.
///
/// `Read` has no clause about the errors that a reader returns. This trait has, so what is proved
/// of each source keeps them: an implementor may state which errors come.
pub trait Source {
    // The bytes that calls will return from here on, if they are known.
    ghost remaining: { Self → Option (List ℕ) };

    // What a call may do that returns no error.
    ghost goes: { Self → Self → Type 0 };

    // What a call may do that returns an error of this kind.
    ghost fails: { Self → ErrorKind → Self → Type 0 };

    /// Does what `Read::read` does.
    fn read_some(&mut self, buf: &mut [u8]) -> io::Result<usize>
        ensures bound { ReadsAtMost result buf.new }
        ensures bytes { ReadConsumes (remaining self.old) (remaining self.new) result buf.new }
        ensures goes { OnOk result (goes self.old self.new) }
        ensures fails { IfErr result (λ e. fails self.old (error_kind e) self.new) };
}

impl<R: Read> Source for R {
    ghost remaining = { R.remaining };

    ghost goes = { λ _ _. ⊤ };

    ghost fails = { λ _ _ _. ⊤ };

    fn read_some(&mut self, buf: &mut [u8]) -> io::Result<usize> {
        self.read(buf)
    }
}
