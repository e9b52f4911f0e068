//! `Cursor` (`amqpv_cursor`): a position in an array or a table. `next` steps to the next entry;
//! look-ups are in `lookup`.

ghost use Rattle.std.specs.Prelude.{◌≡◌, ◌+◌, ◌<◌, ◌++◌, ℕ, List, length, drop, IfErr, IfOk, IfNone, IfSome, MatchOption};
ghost use Rattle.amqp_value_core.specs.Values.{Tree, Trees, Entries};
ghost use Rattle.amqp_value_core.specs.Grammar.{short_field, ArrayBody, TableBody};
ghost use Rattle.amqp_value_core.specs.Outcomes.{Outcome, found};
ghost use Rattle.amq_protocol_types.specs.parsing.Headers.{extent};
ghost use Rattle.amqp_c.specs.Entries.{part, SpanIsIn, IsTagged, IsTrueTo, EntryIsIn};
ghost use Rattle.amqp_in_place.specs.Searches.{IsHeaded};
ghost use Rattle.amqp_c.specs.Steps.{contents, IsOfContainer, HasNoPair, StepsIn, RefusesStep, GivesNextValue, GivesNextPair, IsFirstEntryIn, IsValueIn, IsPairIn, EndsIn, StandsAlone, StandsKeyed};

use crate::entry::{Entry, first};
use crate::{Fault, Span};
use amq_protocol_types::parsing::header::value_len;
use amqp_value_core::input::SliceInput;

/// A position in an array or a table: `amqpv_cursor`.
#[repr(C)]
#[derive(Clone, Copy)]
pub struct Cursor {
    /// What has not been visited of the body.
    pub left: Span,
    /// The type tag: `A` of an array, `F` of a table.
    pub tag: u8,
}

impl Entry {
    /// The cursor over its content, whatever that is.
    pub fn contents(&self) -> Cursor
        ensures { result ≡ contents self.now }
    {
        Cursor {
            left: self.content,
            tag: self.tag,
        }
    }
}

impl Cursor {
    /// Assigns every field. Padding isn't copied.
    #[inline(always)]
    pub fn set(&mut self, to: Cursor)
        ensures { self.new ≡ to }
    {
        self.left = to.left;
        self.tag = to.tag;
    }

    /// The bytes that are left, if they are in `bytes` and are of a container.
    #[inline(always)]
    fn body(self, bytes: &[u8]) -> Option<&[u8]>
        ensures { MatchOption result
            (IsOfContainer (length bytes.now) self → ⊥)
            (λ body. IsOfContainer (length bytes.now) self
            × (body.now ≡ part bytes.now self.left)) }
    {
        if self.tag != b'A' && self.tag != b'F' {
            return None;
        }
        self.left.of(bytes)
    }

    /// The next entry, and a cursor after it. It looks at the key's length, the type tag and the
    /// length after it only, so it takes constant time.
    #[inline(always)]
    pub fn next(self, bytes: &[u8]) -> Result<Option<(Entry, Cursor)>, Fault>
        ensures values { GivesNextValue bytes.now self result }
        ensures pairs { GivesNextPair bytes.now self result }
        ensures steps { IfOk result (StepsIn bytes.now self) }
        ensures refused { IfErr result (RefusesStep bytes.now self) }
    {
        let Some(body) = self.body(bytes) else {
            return Err(Fault::Invalid);
        };
        if body.is_empty() {
            return Ok(None);
        }
        let next = if self.tag == b'F' {
            first_pair(bytes, self.left)
        } else {
            first_value(bytes, self.left)
        };
        let Some(entry) = next else {
            return Err(Fault::Cut);
        };
        let rest = Cursor {
            left: self.left.rest_after(entry.value),
            tag: self.tag,
        };
        Ok(Some((entry, rest)))
    }
}

/// The entry of the value at the start of the span.
#[inline(always)]
pub fn first_value(bytes: &[u8], left: Span) -> Option<Entry>
    requires left { SpanIsIn (length bytes.now) left }
    ensures value { (vs : Trees) → 0 < left.length → ArrayBody (part bytes.now left) vs
        → IsValueIn bytes.now left vs result }
    ensures stands { IfSome result (StandsAlone bytes.now left) }
    ensures cut { IfNone result (IsHeaded (part bytes.now left) → ⊥) }
    ensures typed { IfSome result (λ e. IsTagged (part bytes.now e.value) e) }
    ensures faithful { IfSome result (IsTrueTo bytes.now) }
    ensures inside { IfSome result (λ e. EntryIsIn (length bytes.now) e × EndsIn left e) }
{
    first_of(bytes, left, Span::NONE)
}

/// The entry of the pair at the start of the span.
#[inline(always)]
pub fn first_pair(bytes: &[u8], left: Span) -> Option<Entry>
    requires left { SpanIsIn (length bytes.now) left }
    ensures pair { (ps : Entries) → 0 < left.length → TableBody (part bytes.now left) ps
        → IsPairIn bytes.now left ps result }
    ensures stands { IfSome result (StandsKeyed bytes.now left) }
    ensures cut { IfNone result (HasNoPair (part bytes.now left)) }
    ensures typed { IfSome result (λ e. IsTagged (part bytes.now e.value) e) }
    ensures faithful { IfSome result (IsTrueTo bytes.now) }
    ensures inside { IfSome result (λ e. EntryIsIn (length bytes.now) e × EndsIn left e) }
{
    let length = usize::from(*part(bytes, left).first()?);
    if left.length - 1 < length {
        return None;
    }
    let key = Span {
        offset: left.offset + 1,
        length,
    };
    first_of(bytes, left.rest_after(key), key)
}

/// The bytes of a span that is inside `bytes`.
#[inline(always)]
fn part(bytes: &[u8], at: Span) -> &[u8]
    requires { SpanIsIn (length bytes.now) at }
    ensures { result.now ≡ part bytes.now at }
{
    &bytes[at.offset..at.offset + at.length]
}

/// The entry of the value at the start of the span, with its key.
#[inline(always)]
fn first_of(bytes: &[u8], left: Span, key: Span) -> Option<Entry>
    requires left { SpanIsIn (length bytes.now) left }
    requires key { SpanIsIn (length bytes.now) key }
    ensures entry { (v : Tree) (rest : List ℕ) → Outcome (part bytes.now left) (found v rest)
        → IsFirstEntryIn bytes.now left key v rest result }
    ensures key { IfSome result (λ e. e.key ≡ key) }
    ensures value { IfSome result (λ e.
        (e.value.offset ≡ left.offset) × (e.value.length ≡ extent (part bytes.now left))) }
    ensures cut { IfNone result (IsHeaded (part bytes.now left) → ⊥) }
    ensures typed { IfSome result (λ e. IsTagged (part bytes.now e.value) e) }
    ensures faithful { IfSome result (IsTrueTo bytes.now) }
    ensures inside { IfSome result (λ e. EntryIsIn (length bytes.now) e × EndsIn left e) }
{
    let Ok(entry) = first(part(bytes, left)) else {
        return None;
    };
    Some(Entry {
        key,
        value: entry.value.span_after(left.offset),
        content: entry.content.span_after(left.offset),
        ..entry
    })
}
