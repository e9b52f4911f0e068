//! `Sink`: a writer that lines are written to. Unlike `Write` it has clauses about its errors, as
//! `Source` of amq_protocol_types has them of a reader.

ghost use Rattle.std.specs.Prelude.{ℕ, List, Option, ⊤, IfOk, IfErr};
ghost use Rattle.std.specs.Io.{WritesAtMost};
ghost use Rattle.std.specs.Io.KnownBytes.{WriteAppends};
ghost use Rattle.std.specs.IoError.{error_kind};
ghost use Rattle.std.specs.declared.io.ErrorKind.{ErrorKind};

use std::io;
use std::io::Write;

/// A writer, with clauses about the errors that it returns, as `Source` has them of a reader.
pub trait Sink {
    // The bytes that it holds, if they are known.
    ghost contents: { Self → Option (List ℕ) };

    // What a call may do that accepts that many bytes.
    ghost takes: { Self → ℕ → Self → Type 0 };

    // What a call may do that returns an error of this kind.
    ghost fails: { Self → ErrorKind → Self → Type 0 };

    /// Does what `Write::write` does.
    fn write_some(&mut self, buf: &[u8]) -> io::Result<usize>
        ensures bound { WritesAtMost result buf.now }
        ensures bytes { WriteAppends (contents self.old) (contents self.new) result buf.now }
        ensures takes { IfOk result (λ n. takes self.old n self.new) }
        ensures fails { IfErr result (λ e. fails self.old (error_kind e) self.new) };
}

impl<W: Write> Sink for W {
    ghost contents = { W.contents };

    ghost takes = { λ _ _ _. ⊤ };

    ghost fails = { λ _ _ _. ⊤ };

    fn write_some(&mut self, buf: &[u8]) -> io::Result<usize> {
        self.write(buf)
    }
}
