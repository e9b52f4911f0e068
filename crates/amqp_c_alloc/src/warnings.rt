//! `Warnings` (`amqpv_warnings`), for `amqpv_warn`: what RabbitMQ accepts in a value, and a client
//! or a stream queue may not.

ghost use Rattle.std.specs.Prelude.{◌≡◌, ◌≤◌, MatchResult};
ghost use Rattle.amqp_c.specs.CallResults.{return_code_of};
ghost use Rattle.amqp_c_alloc.specs.WarningCalls.{offset_of, one_if, count_of, numbered, asked_for, warnings_or_old, IsFoundBy, AreFirst, CanRunOut};

use amqp_c::{Fault, Input};
use amqp_in_place::rabbitmq::{Warned, warnings, warnings_in_table};
use std::alloc::{AllocError, Global};

/// It was looked for them.
const OK: i32 = 0;

/// No offset.
const NOWHERE: usize = usize::MAX;

/// How many constructs there are, and the offset of the first of each: `amqpv_warnings`.
#[repr(C)]
#[derive(Clone, Copy)]
pub struct Warnings {
    /// How many of the constructs below there are.
    pub count: usize,
    /// A pair whose key an earlier pair of the same table has.
    pub repeated_key: usize,
    /// A pair whose key isn't UTF-8.
    pub key_not_utf8: usize,
    /// A pair whose key is empty.
    pub empty_key: usize,
    /// A container that nests too deep.
    pub too_deep: usize,
    /// A decimal.
    pub decimal: usize,
    /// A container inside the outermost one.
    pub nested_header: usize,
    /// `usize::MAX`, until a later version has a meaning for it.
    pub reserved: [usize; 4],
    /// 1 if the value doesn't fit a frame, otherwise 0.
    pub exceeds_frame: u8,
    /// 0, until a later version has a meaning for it.
    pub reserved_flags: [u8; 7],
}

impl Warnings {
    /// The warnings in C's struct.
    fn of(warned: Warned) -> Warnings
        ensures { result ≡ numbered warned }
    {
        Warnings {
            count: count_of(warned),
            repeated_key: offset_of(warned.repeated_key),
            key_not_utf8: offset_of(warned.key_not_utf8),
            empty_key: offset_of(warned.empty_key),
            too_deep: offset_of(warned.too_deep),
            decimal: offset_of(warned.decimal),
            nested_header: offset_of(warned.nested_header),
            reserved: [NOWHERE, NOWHERE, NOWHERE, NOWHERE],
            exceeds_frame: u8::from(warned.exceeds_frame),
            reserved_flags: [0, 0, 0, 0, 0, 0, 0],
        }
    }
}

/// Finds the constructs that `amqpv_warnings` has, as `amqp_in_place::rabbitmq::warnings` does.
pub fn find_warnings(
    alloc: Global,
    input: &Input<'_>,
    frame_max: u32,
    levels: u32,
) -> Result<Warned, Fault>
    ensures { IsFoundBy frame_max levels input.now result }
{
    if input.has_unknown_flag() {
        return Err(Fault::Invalid);
    }
    match warnings_of(alloc, input, frame_max, levels) {
        Ok(warned) => Ok(warned),
        Err(AllocError) => Err(Fault::NoMemory),
    }
}

/// The same, whatever flags are set.
fn warnings_of(
    alloc: Global,
    input: &Input<'_>,
    frame_max: u32,
    levels: u32,
) -> Result<Warned, AllocError>
    ensures { MatchResult result (AreFirst frame_max levels input.now) (λ _. CanRunOut input.now) }
{
    if input.is_untagged() {
        warnings_in_table(alloc, input.bytes, input.limits(), frame_max, levels)
    } else {
        warnings(alloc, input.bytes, input.limits(), frame_max, levels)
    }
}

/// Stores the warnings that the flags of the input ask for, and returns the result code.
pub fn store_warnings(
    input: &Input<'_>,
    found: Result<Warned, Fault>,
    warnings: &mut Warnings,
) -> i32
    ensures returned { result ≡ return_code_of found }
    ensures warnings { warnings.new ≡ warnings_or_old input.now warnings.old found }
{
    match found {
        Ok(warned) => {
            *warnings = Warnings::of(asked_for(input, warned));
            OK
        }
        Err(fault) => fault.code(),
    }
}

/// The warnings, without those of stream queues unless a flag asks for them.
fn asked_for(input: &Input<'_>, warned: Warned) -> Warned
    ensures { result ≡ asked_for input.now warned }
{
    if input.is_for_streams() {
        return warned;
    }
    Warned {
        decimal: None,
        nested_header: None,
        ..warned
    }
}

/// The offset, or the greatest number if there is none.
fn offset_of(offset: Option<usize>) -> usize
    ensures { result ≡ offset_of offset }
{
    match offset {
        Some(bytes) => bytes,
        None => NOWHERE,
    }
}

/// How many warnings there are.
fn count_of(warned: Warned) -> usize
    ensures { result ≡ count_of warned }
{
    one_if(warned.repeated_key.is_some())
        + one_if(warned.key_not_utf8.is_some())
        + one_if(warned.empty_key.is_some())
        + one_if(warned.too_deep.is_some())
        + one_if(warned.decimal.is_some())
        + one_if(warned.nested_header.is_some())
        + one_if(warned.exceeds_frame)
}

/// 1 if it is so, otherwise 0.
fn one_if(is_so: bool) -> usize
    ensures value { result ≡ one_if is_so }
    ensures small { result ≤ 1 }
{
    usize::from(is_so)
}
