//! `key_of`: whether a key of a JSON object is that of a table's entry, or `$` and a type's name.

ghost use Rattle.std.specs.Prelude.{◌≡◌, true, false, drop};
ghost use Rattle.std.specs.Str.{bytes_eq};
ghost use Rattle.amqp_json.specs.Meaning.{is_type_key, entry_key, type_named};
ghost use Rattle.amqp_json.specs.reading.Puts.{IsKey};

use amqp_value_core::types::AMQPType;

/// What a key of an object says.
#[derive(Clone, Copy)]
pub(crate) enum Key<'a> {
    /// The key of an entry, without the `$` that is written before another.
    Entry(&'a str),
    /// The name of a type.
    Name(&'a str),
}

#[inline(always)]
pub(crate) fn key_of(key: &str) -> Key<'_>
    ensures { IsKey key.now result }
{
    let [b'$', ..] = key.as_bytes() else {
        return Key::Entry(key);
    };
    let rest = &key[1..];
    match rest.as_bytes() {
        [b'$', ..] => Key::Entry(rest),
        _ => Key::Name(rest),
    }
}

/// The type of a name, if its values can be written by their names.
pub(crate) fn type_of_name(name: &str) -> Option<AMQPType>
    ensures { result ≡ type_named name.now }
{
    match name {
        it if is_same(it, "ShortShortInt") => Some(AMQPType::ShortShortInt),
        it if is_same(it, "ShortShortUInt") => Some(AMQPType::ShortShortUInt),
        it if is_same(it, "ShortInt") => Some(AMQPType::ShortInt),
        it if is_same(it, "ShortUInt") => Some(AMQPType::ShortUInt),
        it if is_same(it, "LongInt") => Some(AMQPType::LongInt),
        it if is_same(it, "LongUInt") => Some(AMQPType::LongUInt),
        it if is_same(it, "LongLongInt") => Some(AMQPType::LongLongInt),
        it if is_same(it, "Float") => Some(AMQPType::Float),
        it if is_same(it, "Double") => Some(AMQPType::Double),
        it if is_same(it, "DecimalValue") => Some(AMQPType::DecimalValue),
        it if is_same(it, "LongString") => Some(AMQPType::LongString),
        it if is_same(it, "Timestamp") => Some(AMQPType::Timestamp),
        it if is_same(it, "ByteArray") => Some(AMQPType::ByteArray),
        _ => None,
    }
}

// Whether two names are equal. Their lengths are compared where this is called, which mostly suffices.
#[inline(always)]
fn is_same(name: &str, other: &str) -> bool
    ensures { result ≡ bytes_eq name.now other.now }
{
    name.len() == other.len() && name == other
}
