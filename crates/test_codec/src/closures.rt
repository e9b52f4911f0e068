//! Closures that `gen_with_len` calls: they nest, fail, and aren't called without room.

ghost use Rattle.amq_protocol_types.specs.generation.Contexts.{state_of};
ghost use Rattle.amq_protocol_types.specs.generation.Lengths.{OnlyAppends};

use amq_protocol_types::AMQPType;
use amq_protocol_types::generation::*;
use std::test::Fail;

// Puts one byte after two lengths.
fn put_after_two_lengths<W: BackToTheBuffer>(x: &mut WriteContext<W>) -> GenResult {
    gen_with_len(|y| gen_with_len(|z| z.put(&[7]), y), x)
}

// Puts two numbers after their length.
fn put_two_numbers<W: BackToTheBuffer>(x: &mut WriteContext<W>) -> GenResult {
    gen_with_len(
        |y: &mut WriteContext<W>| -> GenResult
            ensures { OnlyAppends (state_of W.seen y.old) result (state_of W.seen y.new) }
        {
            gen_short_uint(1, y)?;
            gen_short_uint(2, y)
        },
        x,
    )
}

#[test]
fn a_body_may_have_parts(rt: HostRuntime) -> Result<(), Fail> {
    let mut x = WriteContext::from(Vec::new(rt.alloc()));
    assert_eq!(rt; put_two_numbers(&mut x), Ok(()));
    assert_eq!(rt;
        x.into_inner().0.as_slice(),
        [0, 0, 0, 4, 0, 1, 0, 2].as_slice()
    );
    Ok(())
}

#[test]
fn lengths_nest(rt: HostRuntime) -> Result<(), Fail> {
    let mut x = WriteContext::from(Vec::new(rt.alloc()));
    assert_eq!(rt; put_after_two_lengths(&mut x), Ok(()));
    assert_eq!(rt;
        x.into_inner().0.as_slice(),
        [0, 0, 0, 5, 0, 0, 0, 1, 7].as_slice()
    );
    Ok(())
}

#[test]
fn a_generator_is_a_body(rt: HostRuntime) -> Result<(), Fail> {
    let mut x = WriteContext::from(Vec::from_slice(rt.alloc(), &[9])?);
    assert_eq!(rt;
        gen_with_len(|y| gen_type(AMQPType::Void, y), &mut x),
        Ok(())
    );
    assert_eq!(rt; x.into_inner().0.as_slice(), [9, 0, 0, 0, 1, 86].as_slice());
    Ok(())
}

#[test]
fn a_rejected_body_is_taken_back(rt: HostRuntime) -> Result<(), Fail> {
    let mut x = WriteContext::from(Vec::from_slice(rt.alloc(), &[9])?);
    assert_eq!(rt; x.put(&[8]), Ok(()));
    let returned = gen_with_len(
        |y| {
            y.put(&[1])?;
            Err(GenError::LengthTooLong)
        },
        &mut x,
    );
    assert_eq!(rt; returned, Err(GenError::LengthTooLong));
    assert_eq!(rt; x.position(), 1);
    assert_eq!(rt; x.into_inner().0.as_slice(), [9, 8].as_slice());
    Ok(())
}

// Puts three bytes after their length, and fails.
fn put_three_and_fail<W: BackToTheBuffer>(x: &mut WriteContext<W>) -> GenResult {
    gen_with_len(
        |y| {
            y.put(&[1, 2, 3])?;
            Err(GenError::InvalidOffset)
        },
        x,
    )
}

#[test]
fn the_error_of_a_body_is_returned(rt: HostRuntime) -> Result<(), Fail> {
    let mut x = WriteContext::from(Vec::from_slice(rt.alloc(), &[9])?);
    assert_eq!(rt; put_three_and_fail(&mut x), Err(GenError::InvalidOffset));
    assert_eq!(rt; x.position(), 0);
    assert_eq!(rt; x.into_inner().0.as_slice(), [9].as_slice());
    let mut slice = [0; 20];
    let mut x = WriteContext::from(SliceOutput::new(&mut slice));
    assert_eq!(rt; x.put(&[9]), Ok(()));
    assert_eq!(rt; put_three_and_fail(&mut x), Err(GenError::InvalidOffset));
    assert_eq!(rt; x.position(), 1);
    assert_eq!(rt; x.into_inner().0.written(), [9].as_slice());
    Ok(())
}

#[test]
fn a_length_without_capacity_calls_nothing(rt: HostRuntime) {
    let mut slice = [7u8; 3];
    let mut x = WriteContext::from(SliceOutput::new(&mut slice));
    let mut called = false;
    let returned = gen_with_len(
        |y| {
            called = true;
            y.put(&[1])
        },
        &mut x,
    );
    assert_eq!(rt; returned, Err(GenError::BufferTooSmall));
    assert_eq!(rt; x.position(), 0);
    assert!(rt; !called);
}

#[test]
fn a_body_without_capacity_is_taken_back(rt: HostRuntime) {
    let mut slice = [7u8; 5];
    let mut x = WriteContext::from(SliceOutput::new(&mut slice));
    assert_eq!(rt;
        gen_with_len(|y| y.put(&[1, 2]), &mut x),
        Err(GenError::BufferTooSmall)
    );
    assert_eq!(rt; x.position(), 0);
}
