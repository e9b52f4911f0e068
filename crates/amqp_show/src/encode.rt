//! `encode_file`: writes the encoding of a file's JSON, for `--encode`, or says why it is rejected.

ghost use Rattle.std.specs.Prelude.{◌≡◌, ◌++◌, ◌∷◌, [], IfOk, IfSome, IsTrue, IsFalse};
ghost use Rattle.hex.specs.Hex.{encode_lower};
ghost use Rattle.amqp_show.specs.Screens.{in_line};
ghost use Rattle.amqp_show.specs.Output.{shown};

use crate::arguments::Settings;
use crate::dates::{dates_as_seconds, seconds_of};
use crate::fault::{Fault, Result, Status};
use crate::input::Input;
use crate::messages::{complain, quoted};
use crate::screen::{Screen, print_raw};
use amqp_json::{JsonError, Mismatch, SyntaxError, encoding_of_json_within};
use json::{Reader, Scratch, Token};
use std::alloc::{AllocError, Global};
use std::collections::BTreeSet;
use std::str;

// How many characters of a text are shown.
const EXCERPT: usize = 30;

// The JSON that --json shows has at most so many bytes for each byte of an encoding, in `{"$ShortShortInt":-128},`.
const JSON_BYTES: usize = 12;

// The most levels that the JSON of a value may have.
const LEVELS: u32 = 127;

// The names that may follow a `$`, and what is written there.
const TYPES: &[(&str, &str)] = &[
    ("ShortShortInt", "an integer from -128 to 127"),
    ("ShortShortUInt", "an integer from 0 to 255"),
    ("ShortInt", "an integer from -32768 to 32767"),
    ("ShortUInt", "an integer from 0 to 65535"),
    ("LongInt", "an integer from -2147483648 to 2147483647"),
    ("LongUInt", "an integer from 0 to 4294967295"),
    ("LongLongInt", INTEGER),
    ("Timestamp", TIMESTAMP),
    (
        "Float",
        "a number up to 3.4e38, or its bits as 8 hexadecimal digits in quotes",
    ),
    ("Double", DOUBLE),
    ("DecimalValue", "a number and a scale, as \"314e-2\""),
    ("LongString", "two hexadecimal digits a byte, in quotes"),
    ("ByteArray", "two hexadecimal digits a byte, in quotes"),
];

const INTEGER: &str = "an integer from -9223372036854775808 to 9223372036854775807";

const TIMESTAMP: &str =
    "an integer from 0 to 18446744073709551615, or a date as \"2026-12-01T12:00:00Z\"";

const DOUBLE: &str = "a number up to 1.7e308, or its bits as 16 hexadecimal digits in quotes";

// Where a text is: in a file, and with --lines on one of its lines.
#[derive(Clone, Copy)]
struct Source<'a> {
    file: &'a str,
    line: Option<u64>,
}

/// Writes the encoding of the value that a file's JSON denotes, or of the table without its type
/// tag, raw or in hexadecimal. Reports a key that comes again. With `--lines` each line has JSON.
pub fn encode_file(
    rt: &HostRuntime,
    file: &str,
    is_raw: bool,
    settings: Settings,
) -> Result<Status> {
    let mut input = Input::open(rt, file, false)?;
    if settings.has_lines {
        return encode_lines(rt, file, &mut input, is_raw, settings);
    }
    let text = input.up_to(json_len(settings.limits.frame).saturating_add(1))?;
    encode_text(rt, Source { file, line: None }, text, is_raw, settings)
}

// Does so with each line that isn't blank, also after one whose JSON is rejected.
fn encode_lines(
    rt: &HostRuntime,
    file: &str,
    input: &mut Input,
    is_raw: bool,
    settings: Settings,
) -> Result<Status> {
    let most = json_len(settings.limits.frame);
    let (mut status, mut line, mut is_rest) = (Status::Read, 1u64, false);
    for _ in 0..u64::MAX {
        let len = input.line_len(most)?;
        if len == 0 {
            break;
        }
        let text = input.up_to(len)?;
        let is_ended = text.ends_with(b"\n");
        let text = text.strip_suffix(b"\n").unwrap_or(text);
        if !is_rest && !text.trim_ascii().is_empty() {
            let source = Source {
                file,
                line: Some(line),
            };
            status = status.and(encode_text(rt, source, text, is_raw, settings)?);
        }
        input.pass(len);
        is_rest = !is_ended;
        line = line.saturating_add(u64::from(is_ended));
    }
    Ok(status)
}

fn encode_text(
    rt: &HostRuntime,
    source: Source<'_>,
    text: &[u8],
    is_raw: bool,
    settings: Settings,
) -> Result<Status> {
    let (alloc, most) = (rt.alloc(), settings.limits.frame);
    if text.len() > json_len(most) {
        return reject(rt, source, too_long_text(alloc, most));
    }
    match str::from_utf8(text) {
        Ok(json) => encode_json(rt, source, json, is_raw, settings),
        Err(error) => reject(rt, source, not_utf8_text(alloc, text, error.valid_up_to())),
    }
}

// Reports why JSON is rejected.
fn reject(rt: &HostRuntime, source: Source<'_>, why: Result<String, AllocError>) -> Result<Status> {
    let why = why?;
    report(rt, source, why.as_str())?;
    Ok(Status::Rejected)
}

// Prints a message about a text.
fn report(rt: &HostRuntime, source: Source<'_>, why: &str) -> Result<()> {
    let Some(line) = source.line else {
        return complain(rt, source.file, why);
    };
    let why = format!(in rt.alloc(); "line {line}: {why}")?;
    complain(rt, source.file, why.as_str())
}

// How many bytes the JSON may have of an encoding that has at most that many.
fn json_len(most: u32) -> usize {
    (most as usize).saturating_mul(JSON_BYTES)
}

fn too_long_text(alloc: Global, most: u32) -> Result<String, AllocError> {
    let most_text = json_len(most);
    format!(in alloc;
        "the text has more than {most_text} bytes, {JSON_BYTES} times what --max-bytes {most} allows"
    )
}

fn not_utf8_text(alloc: Global, text: &[u8], at: usize) -> Result<String, AllocError> {
    let place = place_text(alloc, text, at)?;
    format!(in alloc; "the text isn't UTF-8 at {place}")
}

fn encode_json(
    rt: &HostRuntime,
    source: Source<'_>,
    json: &str,
    is_raw: bool,
    settings: Settings,
) -> Result<Status> {
    let depth = settings.limits.depth;
    // (what is at a byte of this text is there in the given one)
    let dated = dates_as_seconds(rt.alloc(), json)?;
    match encoding_of_json_within(rt.alloc(), dated.as_str(), depth) {
        Ok(bytes) => write_encoding(rt, source, json, bytes.as_slice(), is_raw, settings),
        Err(JsonError::OutOfMemory) => Err(Fault::OutOfMemory),
        Err(error) => reject(rt, source, error_text(rt.alloc(), json, error, depth)),
    }
}

// Writes the encoding of some JSON, and reports a key that comes again; or reports why it isn't written.
fn write_encoding(
    rt: &HostRuntime,
    source: Source<'_>,
    json: &str,
    bytes: &[u8],
    is_raw: bool,
    settings: Settings,
) -> Result<Status> {
    let (len, most) = (bytes.len(), settings.limits.frame);
    if len > most as usize {
        return reject(
            rt,
            source,
            format!(in rt.alloc();
                "the value has {len} bytes, more than --max-bytes {most} allows"
            ),
        );
    }
    let Some(wanted) = wanted_of(bytes, settings.is_table) else {
        return reject(
            rt,
            source,
            format!(in rt.alloc(); "--table writes a FieldTable, and the JSON is another value"),
        );
    };
    let repeated = repeated_key(rt.alloc(), json)?;
    print_encoding(rt, wanted, is_raw)?;
    if let Some(why) = repeated {
        report(rt, source, why.as_str())?;
        return Ok(Status::Warned);
    }
    Ok(Status::Read)
}

// Where a text is read in an array or an object that is open.
#[derive(Clone, Copy)]
enum Step {
    // The number of items that have begun.
    Items(usize),
    // The byte at which the last key begins.
    Key(usize),
}

// Goes on to a token, which begins at a byte.
fn pass(steps: &mut Vec<Step>, token: &Token<'_>, at: usize) -> Result<(), AllocError> {
    if let Token::EndArray | Token::EndObject = token {
        steps.pop();
        return Ok(());
    }
    if let Some(step) = steps.last_mut() {
        *step = match (*step, token) {
            (_, Token::Key(_)) => Step::Key(at),
            (Step::Items(count), _) => Step::Items(count.saturating_add(1)),
            (same, _) => same,
        };
    }
    match token {
        Token::BeginArray => steps.push(Step::Items(0))?,
        Token::BeginObject => steps.push(Step::Key(at))?,
        _ => {}
    }
    Ok(())
}

// The first key that comes again in its object.
fn repeated_key(alloc: Global, json: &str) -> Result<Option<String>, AllocError> {
    let mut scratch = Scratch::new(alloc);
    let mut reader = Reader::new(json, &mut scratch)?;
    // the keys of each open object, and a step for each open array or object
    let mut open: Vec<BTreeSet<_>> = Vec::new(alloc);
    let mut steps: Vec<Step> = Vec::new(alloc);
    for _ in 0..u64::MAX {
        let at = reader.offset();
        let Some(token) = reader.next() else {
            break;
        };
        pass(&mut steps, &token, at)?;
        match token {
            Token::BeginObject => open.push(BTreeSet::new(alloc))?,
            Token::EndObject => {
                open.pop();
            }
            Token::Key(key) => if let Some(keys) = open.last_mut()
                && !keys.insert(key)?
            {
                return Ok(Some(repeated_text(alloc, json, at, key, steps.as_slice())?));
            },
            _ => {}
        }
    }
    Ok(None)
}

// Where a key comes again, and in which object.
fn repeated_text(
    alloc: Global,
    json: &str,
    at: usize,
    key: &str,
    steps: &[Step],
) -> Result<String, AllocError> {
    let path = path_text(alloc, json, steps)?;
    let inside = if path.is_empty() { "" } else { ", in " };
    let (key, place) = (
        quoted(alloc, key.as_bytes())?,
        place_text(alloc, json.as_bytes(), at)?,
    );
    format!(in alloc;
        "the key {key} comes again at {place}{inside}{path}; only its last value is written"
    )
}

// The keys and indices that lead to the object of the last step.
fn path_text(alloc: Global, json: &str, steps: &[Step]) -> Result<String, AllocError> {
    let mut path = String::new(alloc);
    let outer = steps.len().saturating_sub(1);
    for step in steps.iter().take(outer) {
        match step {
            Step::Items(count) => write!(path, "[{}]", count.saturating_sub(1))?,
            Step::Key(at) => {
                let key = quoted_key(alloc, json, *at)?;
                write!(path, "{}{key}", if path.is_empty() { "" } else { "." })?;
            }
        }
    }
    Ok(path)
}

// The key that begins at a byte, as in a message.
fn quoted_key(alloc: Global, json: &str, at: usize) -> Result<String, AllocError> {
    let mut scratch = Scratch::new(alloc);
    let mut reader = Reader::new(json.get(at..).unwrap_or(""), &mut scratch)?;
    match reader.next() {
        Some(Token::Key(key)) => quoted(alloc, key.as_bytes()),
        _ => Ok(String::new(alloc)),
    }
}

// A byte of a text, and of a text of several lines also the line and the column, counted from 1.
fn place_text(alloc: Global, text: &[u8], at: usize) -> Result<String, AllocError> {
    let before = text.get(..at).unwrap_or(text);
    if !text.trim_ascii_end().contains(&b'\n') {
        return format!(in alloc; "byte {at}");
    }
    let line = before.iter().filter(|byte| **byte == b'\n').count();
    let in_line = before
        .rsplit(|byte| *byte == b'\n')
        .next()
        .unwrap_or(before);
    // (a character's other bytes begin with the bits 10)
    let column = in_line.iter().filter(|byte| **byte & 0xc0 != 0x80).count();
    let (line, column) = (line.saturating_add(1), column.saturating_add(1));
    format!(in alloc; "byte {at} (line {line}, column {column})")
}

// What was expected, at which byte of a text, and what is there.
fn error_text(
    alloc: Global,
    json: &str,
    error: JsonError,
    depth: u32,
) -> Result<String, AllocError> {
    if json.trim().is_empty() {
        return format!(in alloc; "the input is empty");
    }
    let (at, expected, remark) = match error {
        JsonError::OutOfMemory | JsonError::TooLarge => return format!(in alloc; "{error}"),
        JsonError::Syntax(at, error) => (
            at,
            format!(in alloc; "not JSON: {error}")?,
            String::new(alloc),
        ),
        JsonError::TooDeep(at) => (at, too_deep_text(alloc, depth)?, String::new(alloc)),
        JsonError::NotAValue(at, mismatch) => (
            at,
            expects(alloc, json, at, mismatch)?,
            detail(alloc, json, at, mismatch)?,
        ),
    };
    let place = place_text(alloc, json.as_bytes(), at)?;
    if at >= json.len() {
        return format!(in alloc; "{expected} at {place}, where the input ends");
    }
    let there = match error {
        // (neither a byte order mark nor a line end can be seen)
        JsonError::Syntax(_, SyntaxError::ByteOrderMark) => String::new(alloc),
        _ => excerpt(alloc, json, at)?,
    };
    if there.is_empty() {
        return format!(in alloc; "{expected} at {place}{remark}");
    }
    format!(in alloc; "{expected} at {place}{remark}: {there}")
}

// Which limit arrays and objects exceed.
fn too_deep_text(alloc: Global, depth: u32) -> Result<String, AllocError> {
    if depth < LEVELS {
        return format!(in alloc; "more than the {depth} levels of --depth");
    }
    format!(in alloc; "more than {LEVELS} levels")
}

fn expects(alloc: Global, json: &str, at: usize, mismatch: Mismatch) -> Result<String, AllocError> {
    match (mismatch, type_before(json, at)) {
        (Mismatch::UnknownType, _) => format!(in alloc; "{mismatch} (--help lists them)"),
        (_, Some((name, form))) => format!(in alloc; "expected a {name} ({form})"),
        (Mismatch::OutOfRange, None) if has_point_or_exponent(json.get(at..).unwrap_or("")) => {
            format!(in alloc; "expected a Double ({DOUBLE})")
        }
        (Mismatch::OutOfRange, None) => format!(in alloc; "expected a LongLongInt ({INTEGER})"),
        (_, None) => format!(in alloc; "{mismatch}"),
    }
}

// Whether the number that a text begins with is one of a Double.
fn has_point_or_exponent(text: &str) -> bool {
    let is_other = |c: char| !matches!(c, '0'..='9' | '-' | '+' | '.' | 'e' | 'E');
    let number = text.split(is_other).next().unwrap_or("");
    number.contains(['.', 'e', 'E'])
}

// What is wrong with the digits, or the date, at this byte.
fn detail(alloc: Global, json: &str, at: usize, mismatch: Mismatch) -> Result<String, AllocError> {
    let there = json.get(at..).unwrap_or("");
    match mismatch {
        Mismatch::OddDigits | Mismatch::NotHexadecimal | Mismatch::DigitCount => {
            let mut digits = there.chars().skip(1).take_while(|c| *c != '"');
            match digits.find(|c| !c.is_ascii_hexdigit()) {
                Some(c) => format!(in alloc; "; '{c}' isn't a hexadecimal digit"),
                None if mismatch != Mismatch::OddDigits => Ok(String::new(alloc)),
                None => format!(in alloc; "; the number of digits is odd"),
            }
        }
        Mismatch::NotANumber if let Some(why) = date_fault(json, at) => format!(in alloc;
            "; {why}"
        ),
        _ => Ok(String::new(alloc)),
    }
}

// What is wrong with the date at this byte, if one may be there.
fn date_fault(json: &str, at: usize) -> Option<&'static str> {
    let (name, _) = type_before(json, at)?;
    let date = json.get(at..)?.strip_prefix('"')?.split('"').next()?;
    if name == "Timestamp" {
        seconds_of(date).err()
    } else {
        None
    }
}

// The type that an object names whose value is at this byte.
fn type_before(json: &str, at: usize) -> Option<(&'static str, &'static str)> {
    let name = name_before(json.get(..at)?)?;
    TYPES.iter().find(|(it, _)| *it == name).copied()
}

// The name after a `$`, in the key that a text ends with.
fn name_before(text: &str) -> Option<&str> {
    let key = text.trim_end().strip_suffix(':')?.trim_end();
    let (_, name) = key.strip_suffix('"')?.rsplit_once("\"$")?;
    Some(name)
}

// What a text has from a byte on, as far as its line goes, or the beginning of that.
fn excerpt(alloc: Global, json: &str, at: usize) -> Result<String, AllocError> {
    let there = json.get(at..).unwrap_or("");
    let line = there.lines().next().unwrap_or("");
    line.chars().take(EXCERPT).collect(alloc)
}

// What is wanted of an encoding: all of it, or of a table what is after its type tag.
fn wanted_of(encoding: &[u8], is_table: bool) -> Option<&[u8]>
    ensures value { IsFalse is_table → IfSome result (λ wanted. wanted.now ≡ encoding.now) }
    ensures table { IsTrue is_table → IfSome result (λ wanted. encoding.now ≡ 70 ∷ wanted.now) }
{
    if is_table {
        return encoding.strip_prefix(b"F");
    }
    Some(encoding)
}

// Writes an encoding, raw or in hexadecimal on a line.
fn print_encoding(rt: &HostRuntime, bytes: &[u8], is_raw: bool) -> Result<()> {
    if is_raw {
        return print_raw(rt, bytes);
    }
    digits_line(rt.alloc(), bytes)?.print(rt)
}

// Bytes in hexadecimal on a line.
fn digits_line(alloc: Global, bytes: &[u8]) -> Result<Screen, AllocError>
    ensures line { IfOk result (λ screen.
        shown screen ≡ in_line (encode_lower bytes.now) ++ 10 ∷ []) }
{
    let digits = hex::encode(alloc, bytes)?;
    let mut screen = Screen::new(alloc, false);
    screen.push_line(digits.as_str())?;
    Ok(screen)
}
