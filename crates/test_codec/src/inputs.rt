//! Tests of parsers over `Singles`, a `ParsableInput` that isn't one of the library's own.

use amq_protocol_types::AMQPValue;
use amq_protocol_types::parsing::traits::ParsableInput;
use amq_protocol_types::parsing::{Err, Needed, SliceInput, parse_long_string, parse_value};
use std::test::Fail;

// the bytes of a slice, one by one
#[derive(Clone, Copy)]
struct Singles<'a> {
    bytes: &'a [u8],
}

impl<'a> ParsableInput for Singles<'a> {
    ghost bytes = { λ s. s.bytes.now };

    fn input_len(&self) -> usize {
        SliceInput::new(self.bytes).input_len()
    }

    fn byte_at(&self, i: usize) -> u8 {
        self.bytes[i]
    }

    fn take(&self, n: usize) -> Self {
        Singles {
            bytes: &self.bytes[..n],
        }
    }

    fn take_from(&self, n: usize) -> Self {
        Singles {
            bytes: &self.bytes[n..],
        }
    }
}

#[test]
fn a_string_is_read(rt: HostRuntime) -> Result<(), Fail> {
    let input = Singles {
        bytes: &[0, 0, 0, 2, 104, 105, 7],
    };
    let Ok((rest, text)) = parse_long_string(rt.alloc(), input) else {
        return Err("no string".into());
    };
    assert_eq!(rt; text.as_bytes(), b"hi".as_slice());
    assert_eq!(rt; rest.bytes, [7].as_slice());
    Ok(())
}

#[test]
fn a_table_is_read(rt: HostRuntime) -> Result<(), Fail> {
    let input = Singles {
        bytes: b"F\0\0\0\x04\x01at\x01V",
    };
    let Ok((rest, AMQPValue::FieldTable(table))) = parse_value(rt.alloc(), input) else {
        return Err("no table".into());
    };
    assert!(rt; table.contains_key("a"));
    assert_eq!(rt; rest.bytes, b"V".as_slice());
    Ok(())
}

#[test]
fn more_bytes_are_asked_for(rt: HostRuntime) {
    let input = Singles {
        bytes: b"F\0\0\0\x04\x01",
    };
    let cut = parse_value(rt.alloc(), input);
    assert!(rt; matches!(cut, Err(Err::Incomplete(Needed::Size(3)))));
}
