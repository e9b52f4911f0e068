//! Tests of `Error`, which every error of amq_protocol_types becomes by `?`, and of the texts of
//! `JsonError` and `EncodeError`.

use amq_protocol_types::generation::{SliceOutput, WriteContext, gen_value};
use amq_protocol_types::parsing::{SliceInput, parse_value};
use amq_protocol_types::stream::{Limits, ValueReader};
use amq_protocol_types::{AMQPValue, Error, FieldTable, ShortString};
use amqp_json::{EncodeError, JsonError};
use std::alloc::{AllocError, Global};
use std::test::Fail;

const LIMITS: Limits = Limits { frame: 4, depth: 1 };

// a table of one key is written into a buffer, and a value is read of bytes, twice
fn pass_on(alloc: Global, key: &str, buffer: &mut [u8], bytes: &[u8]) -> Result<(), Error> {
    let key = ShortString::try_new(String::from_str(alloc, key)?)?;
    let table = FieldTable::from_entries(alloc, [(key.as_str(), AMQPValue::Void)])?;
    let mut context = WriteContext::from(SliceOutput::new(buffer));
    gen_value(&AMQPValue::from(table), &mut context)?;
    drop(parse_value(alloc, SliceInput::new(bytes))?);
    drop(ValueReader::new(alloc, bytes, LIMITS).next()?);
    Ok(())
}

fn text_of(alloc: Global, passed: Result<(), Error>) -> Result<String, AllocError> {
    match passed {
        Ok(()) => String::from_str(alloc, "ok"),
        Err(error) => format!(in alloc; "{error}"),
    }
}

#[test]
fn each_error_is_passed_on_with_its_text(rt: HostRuntime) -> Result<(), Fail> {
    let alloc = rt.alloc();
    let cases: [(usize, usize, &[u8], &str); 6] = [
        (255, 300, b"V", "ok"),
        (
            256,
            300,
            b"V",
            "ShortString exceeds maximum length of 255 bytes (got 256)",
        ),
        (1, 7, b"V", "buffer too small"),
        (1, 8, b"S\0", "incomplete input (bytes needed: 3)"),
        (1, 8, b"z", "Parser error: Nom(MapOpt)"),
        (1, 8, b"S\0\0\0\0", "Parser error: Nom(TooLarge)"),
    ];
    for (letters, capacity, bytes, text) in cases {
        let key = String::from_utf8(vec![in alloc; b'a'; letters]?)?;
        let mut buffer = vec![in alloc; 0; capacity]?;
        let passed = pass_on(alloc, key.as_str(), buffer.as_mut_slice(), bytes);
        assert_eq!(rt; text_of(alloc, passed)?.as_str(), text);
    }
    Ok(())
}

#[test]
fn errors_of_json_without_a_byte(rt: HostRuntime) -> Result<(), Fail> {
    let alloc = rt.alloc();
    let memory = format!(in alloc; "{}", JsonError::OutOfMemory)?;
    assert_eq!(rt; memory.as_str(), "out of memory");
    let large = format!(in alloc; "{}", JsonError::TooLarge)?;
    assert_eq!(rt; large.as_str(), "too large");
    let memory = format!(in alloc; "{}", EncodeError::OutOfMemory)?;
    assert_eq!(rt; memory.as_str(), "out of memory");
    let short = format!(in alloc; "{}", EncodeError::NoTypeTag)?;
    assert_eq!(rt; short.as_str(), "a ShortString has no type tag");
    let long = format!(in alloc; "{}", EncodeError::TooLong)?;
    assert_eq!(rt; long.as_str(), "length too long");
    Ok(())
}
