//! `find`, for `amqpv_proved_find`: follows a path from an entry by a look-up for each `Step`, which is a
//! key or an index.

ghost use Rattle.std.specs.Prelude.{◌≡◌, length, MatchBool, MatchOption};
ghost use Rattle.amqp_c.specs.Entries.{part};
ghost use Rattle.amqp_c.specs.LookUps.{IsOf, LooksUp, LooksUpNth};
ghost use Rattle.amqp_c.specs.Paths.{IsInside, StepLeads, LooksUpOn};

use crate::Fault;
use crate::cursor::{Cursor, first_pair, first_value};
use crate::entry::Entry;
use amqp_in_place::search::{place_of_index, place_of_key};

/// A step of a path: `amqpv_step`.
#[repr(C)]
#[derive(Clone, Copy)]
pub struct Step<'a> {
    /// Into a table: the key.
    pub key: &'a [u8],
    /// Into an array: how many values are before the one that is meant.
    pub index: usize,
    /// The type tag of what it is a step into: `A` of an array, `F` of a table.
    pub into: u8,
}

impl Entry {
    /// Whether its offsets are inside that many bytes.
    fn is_inside(&self, count: usize) -> bool
        ensures { MatchBool result (IsInside count self.now) (IsInside count self.now → ⊥) }
    {
        self.key.end_in(count).is_some()
            && self.value.end_in(count).is_some()
            && self.content.end_in(count).is_some()
    }

    /// The entry that a step leads to, or `None` if it doesn't fit the entry's type.
    // The tactic names a lemma for each of three results, since a step is stated as a record of four facts.
    #[tactic(auto, using(crate::proofs::Paths::leads_none, crate::proofs::Paths::leads_nowhere, crate::proofs::Paths::leads_nth, crate::proofs::Paths::leads_by))]
    fn step(&self, bytes: &[u8], step: &Step<'_>, first_key: bool) -> Result<Option<Entry>, Fault>
        ensures { StepLeads bytes.now first_key step.now self.now result }
    {
        if self.tag != step.into {
            return Ok(None);
        }
        let contents = self.contents();
        if step.into == b'A' {
            return contents.nth(bytes, step.index);
        }
        if step.into != b'F' {
            return Ok(None);
        }
        contents.find(bytes, step.key, first_key)
    }
}

/// The entry that a path leads to, step by step, from an entry.
pub fn find(
    bytes: &[u8],
    from: &Entry,
    path: &[Step<'_>],
    first_key: bool,
) -> Result<Option<Entry>, Fault>
    ensures { LooksUpOn bytes.now from.now path.now first_key result }
{
    if !from.is_inside(bytes.len()) {
        return Err(Fault::Invalid);
    }
    let mut at = *from;
    for step in path {
        match at.step(bytes, step, first_key)? {
            Some(next) => at = next,
            None => return Ok(None),
        }
    }
    Ok(Some(at))
}

impl Cursor {
    /// The entry at the key: of equal keys the first, or else the last.
    fn find(self, bytes: &[u8], key: &[u8], first_key: bool) -> Result<Option<Entry>, Fault>
        ensures { LooksUp first_key bytes.now self key.now result }
    {
        let Some(body) = self.body_of(b'F', bytes) else {
            return Err(Fault::Invalid);
        };
        let Ok(place) = place_of_key(body, key, first_key) else {
            return Err(Fault::Cut);
        };
        let Some(value) = place else {
            return Ok(None);
        };
        match first_pair(bytes, self.left.last(1 + key.len() + value.len())) {
            Some(entry) => Ok(Some(entry)),
            None => Err(Fault::Cut),
        }
    }

    /// The entry of the value that `index` others are before.
    fn nth(self, bytes: &[u8], index: usize) -> Result<Option<Entry>, Fault>
        ensures { LooksUpNth bytes.now self index result }
    {
        let Some(body) = self.body_of(b'A', bytes) else {
            return Err(Fault::Invalid);
        };
        let Ok(place) = place_of_index(body, index) else {
            return Err(Fault::Cut);
        };
        let Some(value) = place else {
            return Ok(None);
        };
        match first_value(bytes, self.left.last(value.len())) {
            Some(entry) => Ok(Some(entry)),
            None => Err(Fault::Cut),
        }
    }

    /// The bytes that are left, if the cursor is of a container with the type tag and inside `bytes`.
    fn body_of(self, tag: u8, bytes: &[u8]) -> Option<&[u8]>
        ensures { MatchOption result
            (IsOf tag (length bytes.now) self → ⊥)
            (λ body. IsOf tag (length bytes.now) self
            × (body.now ≡ part bytes.now self.left)) }
    {
        if self.tag != tag {
            return None;
        }
        self.left.of(bytes)
    }
}
