//! What is printed for a line of hexadecimal: `value HEX rest N`, `more N`, `refused KIND` or
//! `not hex`. The only error is that memory runs out.

ghost use Rattle.std.specs.Prelude.{◌≡◌, ◌-◌, ◌≤◌, ◌++◌, ◌∷◌, [], length, IfOk, string_bytes};
ghost use Rattle.amqp_value_core.specs.Decode.{compute_outcome};
ghost use Rattle.amqp_value_core.specs.Headline.{IsWritableIn};
ghost use Rattle.amqp_value_core.specs.View.{view};
ghost use Rattle.amqp_value_core.specs.Texts.{text, size, Fits};
ghost use Rattle.hex.specs.Hex.{encode_lower};
ghost use Rattle.amqp_wire.specs.Lines.{line_by, read_within, said, said_in, said_of_value, said_within, kind_name, IsSaid, IsKnownRefusal};

use amq_protocol_types::AMQPValue;
use amq_protocol_types::generation::laws::capacity_suffices;
use amq_protocol_types::generation::{SliceOutput, WriteContext, gen_value};
use amq_protocol_types::parsing::traits::ParsableInput;
use amq_protocol_types::parsing::{
    Err, ErrorKind, Needed, ParserError, SliceInput, SplitInput, parse_value,
};
use amq_protocol_types::stream::{Limits, parse_value_within};
use hex::FromHexError;
use std::alloc::{AllocError, Global};

/// How the bytes that a line denotes are read.
#[derive(Clone, Copy, Debug)]
pub enum Form {
    /// As one slice.
    Whole,
    /// As two slices, cut after that many bytes, or after the last if there are fewer.
    Split(usize),
    /// As one slice, within limits.
    Within(Limits),
}

/// The canonical encoding of a value in hexadecimal. It is first written to a buffer of `capacity`
/// bytes, which holds it.
fn hex_of(alloc: Global, value: &AMQPValue, capacity: usize) -> Result<String, AllocError>
    requires fits { Fits (view value.now) }
    requires capacity { size (view value.now) ≤ capacity }
    ensures hex { IfOk result (λ hex. string_bytes hex ≡ encode_lower (text (view value.now))) }
{
    capacity_suffices();
    let mut bytes = vec![in alloc; 0; capacity]?;
    let mut context = WriteContext::from(SliceOutput::new(bytes.as_mut_slice()));
    gen_value(value, &mut context).unwrap();
    let (output, _) = context.into_inner();
    hex::encode(alloc, output.written())
}

/// What is printed of a value that was read from `count` bytes, of which `rest` is left after it.
/// It is written to a buffer of as many bytes as it was read from.
fn value_text<I: ParsableInput>(
    alloc: Global,
    value: &AMQPValue,
    count: usize,
    rest: I,
) -> Result<String, AllocError>
    requires { IsWritableIn (count - length (I.bytes rest)) (view value.now) }
    ensures { IfOk result (λ printed. string_bytes printed ≡ said_of_value (view value.now) (length (I.bytes rest))) }
{
    let left = rest.input_len();
    let hex = hex_of(alloc, value, count.saturating_sub(left))?;
    format!(in alloc; "value {hex} rest {left}")
}

/// The name of a kind.
pub fn name_of(kind: ErrorKind) -> &'static str
    ensures { result.now ≡ kind_name kind }
{
    match kind {
        ErrorKind::MapOpt => "MapOpt",
        ErrorKind::MapRes => "MapRes",
        ErrorKind::Eof => "Eof",
        ErrorKind::OutOfMemory => "OutOfMemory",
        ErrorKind::TooLarge => "TooLarge",
    }
}

/// What is printed of an error.
fn refusal_text(alloc: Global, error: ParserError) -> Result<String, AllocError>
    requires { IsKnownRefusal error }
    ensures { IfOk result (λ printed. IsSaid error (string_bytes printed)) }
{
    match error {
        Err::Incomplete(Needed::Size(lack)) => format!(in alloc; "more {lack}"),
        Err::Incomplete(Needed::Unknown) => unreachable!(),
        Err::Error(error) => {
            let name = name_of(error.kind());
            format!(in alloc; "refused {name}")
        }
        Err::Failure(_) => Err(AllocError),
    }
}

/// What is printed of the bytes that a line denotes.
fn result_of_bytes<I: ParsableInput>(alloc: Global, bytes: I) -> Result<String, AllocError>
    ensures { IfOk result (λ printed. string_bytes printed ≡ said (compute_outcome (I.bytes bytes))) }
{
    let count = bytes.input_len();
    match parse_value(alloc, bytes) {
        Ok((rest, value)) => value_text(alloc, &value, count, rest),
        Err(error) => refusal_text(alloc, error),
    }
}

/// What is printed of them if they are read within limits.
fn result_within<I: ParsableInput>(
    alloc: Global,
    bytes: I,
    limits: Limits,
) -> Result<String, AllocError>
    ensures { IfOk result (λ printed. string_bytes printed ≡ said_within (read_within limits (I.bytes bytes))) }
{
    let count = bytes.input_len();
    match parse_value_within(alloc, bytes, limits) {
        Ok((rest, value)) => value_text(alloc, &value, count, rest),
        Err(error) => refusal_text(alloc, error),
    }
}

/// What is printed of the bytes that a line denotes, read in the form `form`.
fn result_in_form(alloc: Global, bytes: &[u8], form: Form) -> Result<String, AllocError>
    ensures { IfOk result (λ printed. string_bytes printed ≡ said_in form bytes.now) }
{
    match form {
        Form::Whole => result_of_bytes(alloc, SliceInput::new(bytes)),
        Form::Split(at) => {
            let (first, second) = bytes.split_at(at.min(bytes.len()));
            result_of_bytes(alloc, SplitInput::new(first, second))
        }
        Form::Within(limits) => result_within(alloc, SliceInput::new(bytes), limits),
    }
}

/// The result of a line, without its end.
fn result_of_line(alloc: Global, input: &[u8], form: Form) -> Result<String, AllocError>
    ensures { IfOk result (λ printed. string_bytes printed ≡ line_by (said_in form) input.now) }
{
    match hex::decode(alloc, input) {
        Ok(bytes) => result_in_form(alloc, bytes.as_slice(), form),
        Err(FromHexError::OutOfMemory) => Err(AllocError),
        Err(_) => String::from_str(alloc, "not hex"),
    }
}

/// The result of a line, with a line feed at its end.
pub fn ended_result_of_line(alloc: Global, input: &[u8], form: Form) -> Result<Vec<u8>, AllocError>
    ensures { IfOk result (λ bytes. bytes.items ≡ line_by (said_in form) input.now ++ 10 ∷ []) }
{
    let mut printed = result_of_line(alloc, input, form)?;
    printed.push('\n')?;
    Ok(printed.into_bytes())
}
