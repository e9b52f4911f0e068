//! One step through a body that was validated: `next_value` and `next_pair` split off
//! the first entry. Iterators, look-ups, `measure` and `repeated` loop over these.

ghost use Rattle.std.specs.Prelude.{length, IfSome};
ghost use Rattle.amqp_value_core.specs.Values.{Tree, Trees, Entries};
ghost use Rattle.amqp_value_core.specs.Grammar.{ArrayBody, TableBody};
ghost use Rattle.amqp_value_core.specs.Bytes.{slice_bytes};
ghost use Rattle.amqp_in_place.specs.Bodies.{HasValues, HasPairs};
ghost use Rattle.amqp_in_place.specs.Refs.{Denotes};
ghost use Rattle.amqp_in_place.specs.Heads.{HeadHasMeaning, HeadMeans, RefersTo};
ghost use Rattle.amqp_in_place.specs.Places.{IsViewIn, IsPairViewIn};
ghost use Rattle.amqp_in_place.specs.Walks.{HasEncodingAtStart, IsValueThere, NextValueIs, MoreValues, NextPairIs, MorePairs};

use super::head::{Head, read_head, read_key};
use super::refs::{ArrayRef, TableRef, ValueRef};
use amqp_value_core::input::{ParsableInput, SliceInput};
use std::str;

// The value of a head that is known to have one.
#[inline(always)]
pub(crate) fn value_of<'a>(head: Head<'a>) -> ValueRef<'a>
    requires { ∥ HeadHasMeaning head ∥₁ }
    ensures means { (v : Tree) → HeadMeans head.entry v → Denotes result v }
    ensures refers { RefersTo head.entry result }
{
    match head {
        Head::Plain(value) => value,
        Head::FieldArray(body) => ValueRef::FieldArray(ArrayRef::of(body)),
        Head::FieldTable(body) => ValueRef::FieldTable(TableRef::of(body)),
    }
}

// The value at the start of bytes, if there are any.
pub(crate) fn value_there<'a>(place: Option<&'a [u8]>) -> Option<ValueRef<'a>>
    requires { IfSome place (λ bytes. ∥ HasEncodingAtStart bytes.now ∥₁) }
    ensures { IsValueThere place.entry result }
{
    match place {
        Some(bytes) => {
            let Ok((_, head)) = read_head(SliceInput::new(bytes)) else {
                unreachable!()
            };
            Some(value_of(head))
        }
        None => None,
    }
}

// Takes the first value off bytes that are values, and returns those after it.
#[inline(always)]
pub(crate) fn next_value<'a>(bytes: SliceInput<'a>) -> Option<(ValueRef<'a>, SliceInput<'a>)>
    requires { ∥ HasValues (slice_bytes bytes) ∥₁ }
    ensures value { (vs : Trees) → ArrayBody (slice_bytes bytes.entry) vs → NextValueIs vs result }
    ensures more { MoreValues (length (slice_bytes bytes.entry)) result }
    ensures inside { IfSome result (λ x. IsViewIn (slice_bytes bytes.entry) x.0 (slice_bytes x.1)) }
{
    if bytes.input_len() == 0 {
        return None;
    }
    let Ok((rest, head)) = read_head(bytes) else {
        unreachable!()
    };
    Some((value_of(head), rest))
}

// Takes the first pair off bytes that are pairs, and returns those after it.
#[inline(always)]
pub(crate) fn next_pair<'a>(
    bytes: SliceInput<'a>,
) -> Option<(&'a str, ValueRef<'a>, SliceInput<'a>)>
    requires { ∥ HasPairs (slice_bytes bytes) ∥₁ }
    ensures pair { (ps : Entries) → TableBody (slice_bytes bytes.entry) ps → NextPairIs ps result }
    ensures more { MorePairs (length (slice_bytes bytes.entry)) result }
    ensures inside { IfSome result (λ x. IsPairViewIn (slice_bytes bytes.entry) x.0.now x.1 (slice_bytes x.2)) }
{
    if bytes.input_len() == 0 {
        return None;
    }
    let Ok((after, key)) = read_key(bytes) else {
        unreachable!()
    };
    let key = unsafe { str::from_utf8_unchecked(key.as_slice()) };
    let Ok((rest, head)) = read_head(after) else {
        unreachable!()
    };
    Some((key, value_of(head), rest))
}
