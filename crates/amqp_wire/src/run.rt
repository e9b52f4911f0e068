//! `run`: reads lines of hexadecimal from a reader, and writes the result of each to a writer. Only
//! tests run `run_split` and `run_within`.

ghost use Rattle.std.specs.Prelude.{◌<◌, OnOk, OnErr, length};
ghost use Rattle.std.specs.Io.KnownBytes.{Appends, IsAtEnd};
ghost use Rattle.amqp_wire.specs.Faults.{EndsResults, EndsLines, EndsWrite};
ghost use Rattle.amqp_wire.specs.Lines.{output, output_by, output_within, said_in, AppendsTextPrefix, AppendsResult, AppendsResultPrefix};

use crate::fault::WireFault;
use crate::line::{Form, ended_result_of_line};
use crate::read::read_all;
use crate::sink::Sink;
use amq_protocol_types::stream::{Limits, Source};
use bstr::ByteSlice;
use std::alloc::Global;

/// Reads all that the reader has, and writes a line for each line of it. A line ends at `\n` or
/// `\r\n`, or with the input, and is bytes in hexadecimal, in either case.
pub fn run<R: Source, W: Sink>(
    alloc: Global,
    reader: &mut R,
    writer: &mut W,
) -> Result<(), WireFault>
    ensures ok { OnOk result (AppendsResult output
        (R.remaining reader.old) (W.contents writer.old) (W.contents writer.new)) }
    ensures err { OnErr result (AppendsResultPrefix output
        (R.remaining reader.old) (W.contents writer.old) (W.contents writer.new)) }
    ensures end { OnOk result (IsAtEnd (R.remaining reader.new)) }
    ensures ends { EndsLines R.goes R.fails W.takes W.fails reader.old writer.old result reader.new writer.new }
{
    run_in_form(alloc, reader, writer, Form::Whole)
}

/// Does what `run` does, and passes the parser the bytes of each line as two slices, cut after `at`
/// bytes, or after the last if there are fewer. It writes the same wherever a line is cut, so its
/// contract is that of `run`: nothing that it writes shows that a line was cut.
pub fn run_split<R: Source, W: Sink>(
    alloc: Global,
    reader: &mut R,
    writer: &mut W,
    at: usize,
) -> Result<(), WireFault>
    ensures ok { OnOk result (AppendsResult output
        (R.remaining reader.old) (W.contents writer.old) (W.contents writer.new)) }
    ensures err { OnErr result (AppendsResultPrefix output
        (R.remaining reader.old) (W.contents writer.old) (W.contents writer.new)) }
    ensures end { OnOk result (IsAtEnd (R.remaining reader.new)) }
    ensures ends { EndsLines R.goes R.fails W.takes W.fails reader.old writer.old result reader.new writer.new }
{
    run_in_form(alloc, reader, writer, Form::Split(at))
}

/// Does what `run` does, and reads each value within the limits: one that has more bytes, or nests
/// deeper, is rejected.
pub fn run_within<R: Source, W: Sink>(
    alloc: Global,
    reader: &mut R,
    writer: &mut W,
    limits: Limits,
) -> Result<(), WireFault>
    ensures ok { OnOk result (AppendsResult (output_within limits)
        (R.remaining reader.old) (W.contents writer.old) (W.contents writer.new)) }
    ensures err { OnErr result (AppendsResultPrefix (output_within limits)
        (R.remaining reader.old) (W.contents writer.old) (W.contents writer.new)) }
    ensures end { OnOk result (IsAtEnd (R.remaining reader.new)) }
    ensures ends { EndsLines R.goes R.fails W.takes W.fails reader.old writer.old result reader.new writer.new }
{
    run_in_form(alloc, reader, writer, Form::Within(limits))
}

/// Reads all that the reader has, and writes the result of each line of it.
fn run_in_form<R: Source, W: Sink>(
    alloc: Global,
    reader: &mut R,
    writer: &mut W,
    form: Form,
) -> Result<(), WireFault>
    ensures ok { OnOk result (AppendsResult (output_by (said_in form))
        (R.remaining reader.old) (W.contents writer.old) (W.contents writer.new)) }
    ensures err { OnErr result (AppendsResultPrefix (output_by (said_in form))
        (R.remaining reader.old) (W.contents writer.old) (W.contents writer.new)) }
    ensures end { OnOk result (IsAtEnd (R.remaining reader.new)) }
    ensures ends { EndsLines R.goes R.fails W.takes W.fails reader.old writer.old result reader.new writer.new }
{
    let input = read_all(alloc, reader)?;
    write_results(alloc, input.as_slice(), writer, form)
}

/// Writes the results of the lines of `input`.
fn write_results<W: Sink>(
    alloc: Global,
    input: &[u8],
    writer: &mut W,
    form: Form,
) -> Result<(), WireFault>
    ensures ok { OnOk result (Appends (W.contents writer.old) (W.contents writer.new) (output_by (said_in form) input.now)) }
    ensures err { OnErr result (AppendsTextPrefix (W.contents writer.old) (W.contents writer.new) (output_by (said_in form) input.now)) }
    ensures ends { EndsResults W.takes W.fails writer.old result writer.new }
{
    for line in input.lines() {
        let printed = ended_result_of_line(alloc, line, form)?;
        write_out(printed.as_slice(), writer)?;
    }
    Ok(())
}

/// Writes all of the bytes. Each error of the writer ends it, and so does one that accepts zero.
pub fn write_out<W: Sink>(bytes: &[u8], writer: &mut W) -> Result<(), WireFault>
    ensures ok { OnOk result (Appends (W.contents writer.old) (W.contents writer.new) bytes.now) }
    ensures err { OnErr result (AppendsTextPrefix (W.contents writer.old) (W.contents writer.new) bytes.now) }
    ensures some { OnErr result (0 < length bytes.now) }
    ensures ends { EndsWrite W.takes W.fails writer.old result writer.new }
{
    let mut rest = bytes;
    'writes: while !rest.is_empty() {
        match writer.write_some(rest)? {
            0 => return Err(WireFault::Io),
            n => rest = rest.split_at(n).1,
        }
    }
    Ok(())
}
