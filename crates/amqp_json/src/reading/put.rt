//! Appends type tags, lengths, keys and payloads of encodings to a `Vec<u8>`, for `walk` and
//! `named`.

ghost use Rattle.std.specs.Prelude.{◌≡◌, ◌+◌, ◌-◌, ◌<◌, ◌^◌, ◌∷◌, [], ◌++◌, length, take, drop, false, None, Option, OnOk, IfErr};
ghost use Rattle.std.specs.Int.{w32, to_be_bytes};
ghost use Rattle.amqp_value_core.specs.Grammar.{short_field, long_field};
ghost use Rattle.amqp_value_core.specs.Bytes.{IsShort};
ghost use Rattle.amqp_value_core.specs.Values.{Tree, Entries};
ghost use Rattle.amqp_json.specs.Meaning.{is_type_key, entry_key, with_entry};
ghost use Rattle.amqp_json.specs.declared.error.JsonError.TheVariants.{OutOfMemory};
ghost use Rattle.amqp_json.specs.reading.Puts.{OnMismatch};

use super::keys::{Key, key_of};
use crate::error::{JsonError, Mismatch};

/// A type tag, and bytes.
pub(crate) fn put(out: &mut Vec<u8>, tag: u8, bytes: &[u8]) -> Result<(), JsonError>
    ensures ok { OnOk result (out.new.items ≡ out.old.items ++ tag ∷ bytes.now) }
    ensures refused { IfErr result (λ e. e ≡ OutOfMemory) }
{
    out.extend_from_slice(&[tag])?;
    Ok(out.extend_from_slice(bytes)?)
}

/// A type tag, and bytes after their length.
pub(crate) fn put_counted(out: &mut Vec<u8>, tag: u8, bytes: &[u8]) -> Result<(), JsonError>
    ensures ok { OnOk result ((out.new.items ≡ out.old.items ++ tag ∷ long_field bytes.now)
        × (length bytes.now < 2 ^ 32)) }
    ensures refused { IfErr result (λ e. OnMismatch e ⊥) }
{
    let Ok(n) = u32::try_from(bytes.len()) else {
        return Err(JsonError::TooLarge);
    };
    put(out, tag, &n.to_be_bytes())?;
    Ok(out.extend_from_slice(bytes)?)
}

/// The key of an entry, after its length.
pub(crate) fn put_key(out: &mut Vec<u8>, key: &str, at: usize) -> Result<(), JsonError>
    ensures ok { OnOk result ((out.new.items ≡ out.old.items ++ short_field (entry_key key.now))
        × (is_type_key key.now ≡ false) × IsShort (entry_key key.now)) }
    ensures refused { IfErr result (λ e. OnMismatch e ((v : Option Tree) (ps : Option Entries)
        → with_entry key.now v ps ≡ None)) }
{
    let Key::Entry(key) = key_of(key) else {
        return Err(JsonError::NotAValue(at, Mismatch::NotAlone));
    };
    let Ok(n) = u8::try_from(key.len()) else {
        return Err(JsonError::NotAValue(at, Mismatch::KeyTooLong));
    };
    put(out, n, key.as_bytes())
}

/// A container's type tag, and four bytes for its length, which `fill_length` fills in.
pub(crate) fn put_head(out: &mut Vec<u8>, tag: u8) -> Result<(), JsonError>
    ensures ok { OnOk result (out.new.items ≡ out.old.items ++ tag ∷ 0 ∷ 0 ∷ 0 ∷ 0 ∷ []) }
    ensures refused { IfErr result (λ e. e ≡ OutOfMemory) }
{
    put(out, tag, &[0, 0, 0, 0])
}

/// The length of what is after four bytes, to these: they begin at `at`, if there are four.
pub(crate) fn fill_length(out: &mut Vec<u8>, at: usize) -> Result<(), JsonError>
    ensures ok { OnOk result ((out.new.items ≡ take at out.old.items
        ++ (to_be_bytes w32 (length out.old.items - at - 4) ++ drop (at + 4) out.old.items))
        × (length out.old.items - at - 4 < 2 ^ 32)) }
    ensures refused { IfErr result (λ e. OnMismatch e ⊥) }
{
    if out.len() < 4 || out.len() - 4 < at {
        return Err(JsonError::TooLarge);
    }
    let Ok(n) = u32::try_from(out.len() - at - 4) else {
        return Err(JsonError::TooLarge);
    };
    out[at..at + 4].copy_from_slice(&n.to_be_bytes());
    Ok(())
}
