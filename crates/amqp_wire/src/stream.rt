//! `run_stream`: reads encoded values from a reader, and writes a line for each to a writer. Only
//! tests run it.

ghost use Rattle.std.specs.Prelude.{◌≡◌, ◌<◌, ◌^◌, ◌∷◌, ◌++◌, [], true, false, codes, OnOk, OnErr, IfOk, IfSome, string_bytes};
ghost use Rattle.std.specs.Io.KnownBytes.{Appends};
ghost use Rattle.amqp_value_core.specs.Bytes.{IsBytes};
ghost use Rattle.amqp_value_core.specs.Texts.{size, Fits};
ghost use Rattle.amqp_value_core.specs.View.{view};
ghost use Rattle.amq_protocol_types.specs.stream.Readers.{kept, has_failed, limits_of};
ghost use Rattle.amqp_wire.specs.Faults.{EndsRead, EndsRun};
ghost use Rattle.amqp_wire.specs.Lines.{AppendsTextPrefix, kind_name};
ghost use Rattle.amqp_wire.specs.Streams.{value_line, stream_text, HasLines, LeavesAfterValues, IsLine};

use crate::fault::WireFault;
use crate::line::name_of;
use crate::run::write_out;
use crate::sink::Sink;
use amq_protocol_types::AMQPValue;
use amq_protocol_types::generation::{GenError, WriteContext, gen_value};
use amq_protocol_types::parsing::ErrorKind;
use amq_protocol_types::stream::{Limits, Source, StreamError, Values};
use std::alloc::{AllocError, Global};
use std::io;

/// The line of a value that was read within limits.
fn line_of(alloc: Global, value: &AMQPValue) -> Result<Vec<u8>, AllocError>
    requires fits { Fits (view value.now) }
    requires small { size (view value.now) < 2 ^ 32 }
    ensures { IfOk result (λ line. line.items ≡ value_line (view value.now)) }
{
    let mut context = WriteContext::from(Vec::new(alloc));
    match gen_value(value, &mut context) {
        Ok(()) => {}
        Err(GenError::OutOfMemory) => return Err(AllocError),
        Err(_) => unreachable!(),
    }
    let (bytes, _) = context.into_inner();
    let hex = hex::encode(alloc, bytes.as_slice())?;
    Ok(format!(in alloc; "value {hex}\n")?.into_bytes())
}

/// The last line if a value is rejected.
fn refused_line(alloc: Global, kind: ErrorKind) -> Result<Vec<u8>, AllocError>
    ensures { IfOk result (λ line. line.items ≡ codes "refused " ++ (kind_name kind ++ 10 ∷ [])) }
{
    let name = name_of(kind);
    Ok(format!(in alloc; "refused {name}\n")?.into_bytes())
}

/// The string's bytes.
fn text_of(alloc: Global, text: &str) -> Result<Vec<u8>, AllocError>
    ensures { IfOk result (λ line. line.items ≡ text.now) }
{
    Ok(String::from_str(alloc, text)?.into_bytes())
}

/// The next line, and whether it is a value's.
fn next_line<R: Source>(
    alloc: Global,
    values: &mut Values,
    reader: &mut R,
) -> Result<(Vec<u8>, bool), WireFault>
    requires kept { kept values.old ≡ [] }
    requires not_failed { has_failed values.old ≡ false }
    requires small { (limits_of values.old).frame < 2 ^ 32 }
    ensures line { IfOk result (λ p. IfSome (R.remaining reader.old)
        (λ s. IsBytes s → IsLine (limits_of values.old) s (R.remaining reader.new) p.0.items p.1)) }
    ensures more { IfOk result (λ p. p.1 ≡ true → (kept values.new ≡ []) × (has_failed values.new ≡ false)) }
    ensures limits { limits_of values.new ≡ limits_of values.old }
    ensures ends { EndsRead R.goes R.fails reader.old result reader.new }
{
    match values.next_from(reader) {
        Ok(Some(value)) => Ok((line_of(alloc, &value)?, true)),
        Ok(None) => Ok((text_of(alloc, "end\n")?, false)),
        Err(StreamError::Truncated) => Ok((text_of(alloc, "truncated\n")?, false)),
        Err(StreamError::Refused(error)) => Ok((refused_line(alloc, error.kind())?, false)),
        Err(StreamError::Read(kind)) => Err(WireFault::from(io::Error::from(kind))),
        Err(StreamError::OutOfMemory) => Err(WireFault::OutOfMemory),
        Err(StreamError::Failed) => unreachable!(),
    }
}

/// Reads values from the reader within the limits until there are `most`, and writes a line for
/// each. If there are fewer a last line reports why: the reader ended, or ended inside a value, or
/// what came is rejected. If the reader reports its bytes, none after the last value is read.
pub fn run_stream<R: Source, W: Sink>(
    alloc: Global,
    reader: &mut R,
    writer: &mut W,
    limits: Limits,
    most: usize,
) -> Result<(), WireFault>
    requires { 0 < limits.frame }
    ensures ok { OnOk result (IfSome (R.remaining reader.old) (λ s. IsBytes s →
        Appends (W.contents writer.old) (W.contents writer.new) (stream_text limits most s))) }
    ensures rest { OnOk result (IfSome (R.remaining reader.old) (λ s. IsBytes s →
        LeavesAfterValues limits most s (R.remaining reader.new))) }
    ensures err { OnErr result (IfSome (R.remaining reader.old) (λ s. IsBytes s →
        AppendsTextPrefix (W.contents writer.old) (W.contents writer.new) (stream_text limits most s))) }
    ensures ends { EndsRun R.goes R.fails W.takes W.fails reader.old writer.old result reader.new writer.new }
    ensures values { HasLines limits most }
{
    write_stream(alloc, reader, writer, limits, most)
}

/// Writes the lines of a stream, one after another.
fn write_stream<R: Source, W: Sink>(
    alloc: Global,
    reader: &mut R,
    writer: &mut W,
    limits: Limits,
    most: usize,
) -> Result<(), WireFault>
    requires { 0 < limits.frame }
    ensures ok { OnOk result (IfSome (R.remaining reader.old) (λ s. IsBytes s →
        Appends (W.contents writer.old) (W.contents writer.new) (stream_text limits most s))) }
    ensures rest { OnOk result (IfSome (R.remaining reader.old) (λ s. IsBytes s →
        LeavesAfterValues limits most s (R.remaining reader.new))) }
    ensures err { OnErr result (IfSome (R.remaining reader.old) (λ s. IsBytes s →
        AppendsTextPrefix (W.contents writer.old) (W.contents writer.new) (stream_text limits most s))) }
    ensures ends { EndsRun R.goes R.fails W.takes W.fails reader.old writer.old result reader.new writer.new }
{
    let mut values = Values::new(alloc, limits);
    let mut left = most;
    'values: while left > 0 {
        let (line, is_value) = next_line(alloc, &mut values, reader)?;
        write_out(line.as_slice(), writer)?;
        if !is_value {
            return Ok(());
        }
        left -= 1;
    }
    Ok(())
}
