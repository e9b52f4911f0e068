//! Searches for a value in the body of an array or a table by type tags and lengths alone. The bytes
//! of a view are always a body; those that the C API is given may be malformed.

ghost use Rattle.std.specs.Prelude.{◌≡◌, ◌<◌, ◌++◌, ℕ, List, [], Option, None, length, drop, MatchOption, MatchResult};
ghost use Rattle.amqp_value_core.specs.Grammar.{short_field};
ghost use Rattle.amq_protocol_types.specs.parsing.Headers.{extent};
ghost use Rattle.amqp_in_place.specs.Searches.{IsHeaded, HasPair, HasNth, IsPlaceIn, HasNoKey};

use amq_protocol_types::parsing::header::value_len;
use amqp_value_core::input::SliceInput;

/// The bytes end before the value that is searched for, or inside a value before it.
#[derive(Clone, Copy)]
pub struct Cut;

/// Returns the bytes from the value at `index` on, or `None` if there are fewer values. Reads no byte of
/// that value.
pub fn place_of_index<'a>(values: &'a [u8], index: usize) -> Result<Option<&'a [u8]>, Cut>
    ensures { MatchResult result
        (λ place. MatchOption place (HasNth index values.now None)
        (λ at. IsPlaceIn (HasNth index values.now) [] values.now at.now))
        (λ _. (w : Option (List ℕ)) → HasNth index values.now w → ⊥) }
{
    let mut left = values;
    let mut before = index;
    'values: while !left.is_empty() && before > 0 {
        let Some(later) = after_value(left) else {
            return Err(Cut);
        };
        left = later;
        before -= 1;
    }
    if left.is_empty() {
        return Ok(None);
    }
    Ok(Some(left))
}

/// Returns the bytes from the value on of the pair with the key, or `None` if no pair has it. Of equal keys
/// it takes the first with `first_key`, and reads nothing after that key; otherwise it takes the last, and
/// walks all pairs.
pub fn place_of_key<'a>(
    pairs: &'a [u8],
    key: &[u8],
    first_key: bool,
) -> Result<Option<&'a [u8]>, Cut>
    ensures { MatchResult result
        (λ place. MatchOption place (HasPair first_key key.now pairs.now None)
        (λ at. IsPlaceIn (HasPair first_key key.now pairs.now) (short_field key.now) pairs.now at.now))
        (λ _. (w : Option (List ℕ)) → HasPair first_key key.now pairs.now w → ⊥) }
{
    let mut at = None;
    let mut left = pairs;
    'pairs: while !left.is_empty() {
        let Some((name, value)) = split_key(left) else {
            return Err(Cut);
        };
        if key == name {
            at = Some(value);
            if first_key {
                return Ok(at);
            }
        }
        let Some(later) = after_value(value) else {
            return Err(Cut);
        };
        left = later;
    }
    Ok(at)
}

/// Splits the pair at the start into its key and the bytes from its value on.
fn split_key<'a>(pairs: &'a [u8]) -> Option<(&'a [u8], &'a [u8])>
    ensures { MatchOption result
        (HasNoKey pairs.now)
        (λ x. (pairs.now ≡ short_field x.0.now ++ x.1.now) × (0 < length x.1.now)) }
{
    let (length, named) = pairs.split_first()?;
    let length = usize::from(*length);
    if named.len() <= length {
        return None;
    }
    Some(named.split_at(length))
}

/// The bytes after the value at the start, by its header alone.
#[inline(always)]
fn after_value<'a>(value: &'a [u8]) -> Option<&'a [u8]>
    ensures { MatchOption result
        (IsHeaded value.now → ⊥)
        (λ rest. (rest.now ≡ drop (extent value.now) value.now) × IsHeaded value.now) }
{
    let taken = value_len(SliceInput::new(value));
    if taken == 0 || value.len() < taken {
        return None;
    }
    let (_, later) = value.split_at(taken);
    Some(later)
}
