//! `read_all`: all the bytes that a `Source` has, for `run`.

ghost use Rattle.std.specs.Prelude.{◌≡◌, ℕ, List, ◌++◌, length, IfErr, IfOk, IfSome, OnOk};
ghost use Rattle.std.specs.Io.{ReadsAtMost};
ghost use Rattle.std.specs.Io.KnownBytes.{Consumes, IsAtEnd, ReadConsumes};
ghost use Rattle.std.specs.IoError.{error_kind};
ghost use Rattle.amq_protocol_types.specs.stream.Sources.{SourceReaches, SourceStops};
ghost use Rattle.amqp_wire.specs.Faults.{SourceContinues, EndsRead};

use crate::fault::WireFault;
use amq_protocol_types::stream::Source;
use std::alloc::Global;
use std::io;
use std::io::ErrorKind;

/// A call asks the source for that many bytes.
const BLOCK: usize = 8192;

/// Does what `read_some` does. A call that was interrupted is made again, `u64::MAX` times at most;
/// then the error is returned.
fn read_again<R: Source>(reader: &mut R, buf: &mut [u8]) -> io::Result<usize>
    ensures bound { ReadsAtMost result buf.new }
    ensures bytes { ReadConsumes (R.remaining reader.old) (R.remaining reader.new) result buf.new }
    ensures goes { OnOk result (SourceReaches (SourceContinues R.goes R.fails) reader.old reader.new) }
    ensures fails { IfErr result (λ e. SourceStops (SourceContinues R.goes R.fails) R.fails reader.old (error_kind e) reader.new) }
{
    'calls: for _ in 0..u64::MAX {
        match reader.read_some(buf) {
            Err(error) if error.kind() == ErrorKind::Interrupted => {}
            Err(error) => return Err(error),
            Ok(n) => return Ok(n),
        }
    }
    reader.read_some(buf)
}

/// Reads a block at most, appends it to the bytes, and returns its length, which is 0 only at the
/// end.
fn read_block<R: Source>(bytes: &mut Vec<u8>, reader: &mut R) -> Result<usize, WireFault>
    ensures ok { IfOk result (λ n. (more : List ℕ) × (length more ≡ n) × (bytes.new.items ≡ bytes.old.items ++ more)
        × Consumes (R.remaining reader.old) (R.remaining reader.new) more) }
    ensures end { IfOk result (λ n. n ≡ 0 → IsAtEnd (R.remaining reader.new)) }
    ensures ends { EndsRead (SourceContinues R.goes R.fails) R.fails reader.old result reader.new }
{
    let mut block = [0; BLOCK];
    let n = read_again(reader, &mut block)?;
    bytes.extend_from_slice(&block[..n])?;
    Ok(n)
}

/// Reads all that the source has. A call that was interrupted is made again, as `read_to_end` does.
pub fn read_all<R: Source>(alloc: Global, reader: &mut R) -> Result<Vec<u8>, WireFault>
    ensures all { IfOk result (λ bytes. IfSome (R.remaining reader.old) (λ xs. bytes.items ≡ xs)) }
    ensures end { OnOk result (IsAtEnd (R.remaining reader.new)) }
    ensures ends { EndsRead (SourceContinues R.goes R.fails) R.fails reader.old result reader.new }
{
    let mut bytes = Vec::new(alloc);
    'reads: loop {
        if read_block(&mut bytes, reader)? == 0 {
            return Ok(bytes);
        }
    }
}
