//! Tests of several generators through one `WriteContext`, and of what `gen_value` asks of
//! `Recorder`, an `Output` that notes it.

use amq_protocol_types::generation::*;
use amq_protocol_types::parsing::{SliceInput, parse_value};
use amq_protocol_types::{
    AMQPType, AMQPValue, DecimalValue, Double, FieldArray, FieldTable, Float,
};
use std::alloc::Global;
use std::test::Fail;

// Calls each generator of a number, one after another.
fn put_numbers<W: Output>(x: &mut WriteContext<W>) -> GenResult {
    gen_type(AMQPType::LongInt, x)?;
    gen_id(258, x)?;
    gen_boolean(true, x)?;
    gen_short_short_int(-1, x)?;
    gen_short_short_uint(2, x)?;
    gen_short_int(-2, x)?;
    gen_short_uint(3, x)?;
    gen_long_int(-3, x)?;
    gen_long_uint(4, x)?;
    gen_long_long_int(-4, x)?;
    gen_long_long_uint(5, x)?;
    gen_float(Float::from_bits(6), x)?;
    gen_double(Double::from_bits(7), x)?;
    gen_timestamp(8, x)?;
    gen_decimal_value(DecimalValue { scale: 2, value: 9 }, x)
}

/// What they write.
const NUMBERS: [u8; 59] = [
    73, // a type tag
    1, 2, // Id
    1, // Boolean
    255, 2, // ShortShortInt, ShortShortUInt
    255, 254, 0, 3, // ShortInt, ShortUInt
    255, 255, 255, 253, 0, 0, 0, 4, // LongInt, LongUInt
    255, 255, 255, 255, 255, 255, 255, 252, // LongLongInt
    0, 0, 0, 0, 0, 0, 0, 5, // LongLongUInt
    0, 0, 0, 6, // Float
    0, 0, 0, 0, 0, 0, 0, 7, // Double
    0, 0, 0, 0, 0, 0, 0, 8, // Timestamp
    2, 0, 0, 0, 9, // DecimalValue
];

#[test]
fn generators_follow_one_another(rt: HostRuntime) {
    let mut slice = [0; 59];
    let mut x = WriteContext::from(SliceOutput::new(&mut slice));
    assert_eq!(rt; put_numbers(&mut x), Ok(()));
    assert_eq!(rt; x.position(), 59);
    assert_eq!(rt; x.into_inner().0.written(), NUMBERS.as_slice());
}

#[test]
fn one_that_fails_keeps_what_is_before(rt: HostRuntime) {
    let mut slice = [0; 58];
    let mut x = WriteContext::from(SliceOutput::new(&mut slice));
    assert_eq!(rt; put_numbers(&mut x), Err(GenError::BufferTooSmall));
    assert_eq!(rt; x.position(), 54);
    assert_eq!(rt; x.into_inner().0.written(), NUMBERS.split_at(54).0);
}

#[test]
fn a_device_gets_the_same_bytes(rt: HostRuntime) {
    let mut x = WriteContext::from(IoOutput::new(Vec::new(rt.alloc())));
    assert_eq!(rt; put_numbers(&mut x), Ok(()));
    assert_eq!(rt; x.position(), 59);
    let (output, _) = x.into_inner();
    assert_eq!(rt; output.faults(), 0);
    assert_eq!(rt; output.into_inner().as_slice(), NUMBERS.as_slice());
}

#[test]
fn reserved_bytes_are_zeros(rt: HostRuntime) {
    let mut slice = [7; 3];
    let mut output = SliceOutput::new(&mut slice);
    assert_eq!(rt; output.reserve(2), Ok(0));
    assert_eq!(rt; output.written(), [0, 0].as_slice());
}

#[derive(Debug, PartialEq, Eq, Drop)]
enum Call {
    Reserved(usize, u64),
    Filled(u64, Option<[u8; 4]>),
}

// A vector, with notes of which bytes are reserved and filled.
#[derive(Drop)]
struct Recorder {
    inner: Vec<u8>,
    calls: Vec<Call>,
}

impl Output for Recorder {
    ghost use Rattle.std.specs.Prelude.{true};
    ghost use Rattle.amq_protocol_types.specs.generation.OutputViews.{seen_vector};

    ghost is_buffer = { true };

    ghost seen = { λ r. seen_vector r.inner };

    fn put(&mut self, bytes: &[u8]) -> GenResult {
        self.inner.put(bytes)
    }

    fn make_room(&mut self, n: usize) -> GenResult {
        self.inner.make_room(n)
    }

    fn position(&self) -> u64 {
        self.inner.position()
    }

    fn faults(&self) -> u64 {
        self.inner.faults()
    }
}

impl BackToTheBuffer for Recorder {
    ghost use Rattle.std.specs.Prelude.{refl};

    ghost is_one = { refl };

    ghost whole = { λ s. record { written = refl; counted = refl; tail = tt } };

    fn reserve(&mut self, n: usize) -> Result<u64, GenError> {
        let at = BackToTheBuffer::reserve(&mut self.inner, n)?;
        let _ = self.calls.push(Call::Reserved(n, at));
        Ok(at)
    }

    fn fill(&mut self, at: u64, bytes: &[u8]) {
        let _ = self
            .calls
            .push(Call::Filled(at, <[u8; 4]>::try_from(bytes).ok()));
        BackToTheBuffer::fill(&mut self.inner, at, bytes)
    }

    fn back_to(&mut self, at: u64) {
        self.inner.back_to(at)
    }
}

impl Recorder {
    fn new(alloc: Global) -> Self {
        Recorder {
            inner: Vec::new(alloc),
            calls: Vec::new(alloc),
        }
    }

    // How many lengths were reserved, and how many filled in.
    fn counts(&self) -> (usize, usize) {
        let calls = self.calls.as_slice();
        let reserved = calls.iter().filter(|it| matches!(it, Call::Reserved(4, _)));
        let filled = calls.iter().filter(|it| matches!(it, Call::Filled(..)));
        (reserved.count(), filled.count())
    }
}

// an array of a table with Void at the key a
fn array_of_a_table(alloc: Global) -> Result<AMQPValue, Fail> {
    let table = FieldTable::from_entries(alloc, [("a", AMQPValue::Void)])?;
    let array = vec![in alloc; AMQPValue::FieldTable(table)]?;
    Ok(AMQPValue::FieldArray(FieldArray::from(array)))
}

#[test]
fn each_length_is_filled_in_once(rt: HostRuntime) -> Result<(), Fail> {
    let value = array_of_a_table(rt.alloc())?;
    let mut x = WriteContext::from(Recorder::new(rt.alloc()));
    assert_eq!(rt; gen_value(&value, &mut x), Ok(()));
    let (output, _) = x.into_inner();
    let written = b"A\0\0\0\x08F\0\0\0\x03\x01aV";
    assert_eq!(rt; output.inner.as_slice(), written.as_slice());
    let calls = [
        Call::Reserved(4, 1),
        Call::Reserved(4, 6),
        Call::Filled(6, Some([0, 0, 0, 3])),
        Call::Filled(1, Some([0, 0, 0, 8])),
    ];
    assert_eq!(rt; output.calls.as_slice(), calls.as_slice());
    Ok(())
}

/// A table that holds two tables and two arrays.
const LARGE_TABLE: &[u8] = b"F\0\0\0\xc2\
    \x04aaaab*\
    \x03barF\0\0\0\0\
    \x04bbbbB@\
    \x04blaht\0\
    \x04ccccs\0\x20\
    \x04ddddu\0\x84\
    \x04eeeeI\xff\xff\xff\xcb\
    \x04ffffi\0\x01\x04j\
    \x03fooA\0\0\0\x03t\x01V\
    \x04ggggl\xff\xff\xff\xff\xff\xff\xd8\xf1\
    \x04hhhhx\0\0\0\x04*\x01\x02\x03\
    \x04iiiifB)\xae\x14\
    \x04jjjjd@E5\xc2\x8f\\(\xf6\
    \x04kkkkT\0\0\0\0I\x96\x02\xd2\
    \x04llllV\
    \x03oofA\0\0\0\0\
    \x04tablF\0\0\0\x19\x03bazS\0\0\0\x06blah42\x03fooD7\0\0\x03\xe7";

#[test]
fn each_container_has_one_length(rt: HostRuntime) -> Result<(), Fail> {
    let (_, value) = parse_value(rt.alloc(), SliceInput::new(LARGE_TABLE))?;
    let mut x = WriteContext::from(Recorder::new(rt.alloc()));
    assert_eq!(rt; gen_value(&value, &mut x), Ok(()));
    let (output, _) = x.into_inner();
    assert_eq!(rt; output.inner.as_slice(), LARGE_TABLE);
    assert_eq!(rt; output.counts(), (5, 5));
    Ok(())
}
