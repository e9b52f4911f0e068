//! `AMQPType`: the type of an AMQP value, its name, and its type tag.

// The tactic at the function names the lemma that a type that a type tag denotes is read back as itself.

ghost use Rattle.std.specs.Prelude.{◌≡◌, Some, IfSome};
ghost use Rattle.amqp_value_core.specs.Ids.{kind, id_of};
ghost use Rattle.amqp_value_core.specs.Names.{read_as};

use serde::{Deserialize, Serialize};
use std::fmt;

/// The type of an AMQP value: the first byte of its encoding, its type tag, denotes it.
#[derive(Clone, Copy, Debug, PartialEq, Eq, Serialize, Deserialize)]
pub enum AMQPType {
    /// A boolean, a `bool`.
    Boolean,
    /// A signed integer of 8 bits, an `i8`.
    ShortShortInt,
    /// An unsigned integer of 8 bits, a `u8`.
    ShortShortUInt,
    /// A signed integer of 16 bits, an `i16`.
    ShortInt,
    /// An unsigned integer of 16 bits, a `u16`.
    ShortUInt,
    /// A signed integer of 32 bits, an `i32`.
    LongInt,
    /// An unsigned integer of 32 bits, a `u32`.
    LongUInt,
    /// A signed integer of 64 bits, an `i64`.
    LongLongInt,
    /// An unsigned integer of 64 bits, a `u64`. It has no type tag: `get_id` returns that of
    /// `LongLongInt`, and a reader gets a `LongLongInt` of the same bits.
    LongLongUInt,
    /// A floating-point number of 32 bits.
    Float,
    /// A floating-point number of 64 bits.
    Double,
    /// A decimal number: a scale and an unsigned integer of 32 bits.
    DecimalValue,
    /// A string of at most 255 bytes. It has no type tag: it is a table's key, and the parsers
    /// reject one that is written as a value.
    ShortString,
    /// Arbitrary bytes, which most peers take for a string.
    LongString,
    /// A list of values, each with its type.
    FieldArray,
    /// A time, in seconds since 1970, an unsigned integer of 64 bits.
    Timestamp,
    /// A map from short strings to values, each with its type.
    FieldTable,
    /// Arbitrary bytes.
    ByteArray,
    /// No value: a type with one value.
    Void,
}

impl AMQPType {
    /// Returns the type that a type tag denotes by RabbitMQ's errata, or `None` if the character is
    /// no type tag. Two are alternate tags: `U` is read as `s`, and `L` as `l`.
    #[inline(always)]
    #[tactic(auto, using(crate::proofs::Ids::kind_read))]
    pub fn from_id(id: char) -> Option<AMQPType>
        ensures kind { result ≡ kind id }
        ensures read_back { IfSome result (λ t. read_as t ≡ Some t) }
    {
        match id {
            't' => Some(AMQPType::Boolean),
            'b' => Some(AMQPType::ShortShortInt),
            'B' => Some(AMQPType::ShortShortUInt),
            's' | 'U' => Some(AMQPType::ShortInt),
            'u' => Some(AMQPType::ShortUInt),
            'I' => Some(AMQPType::LongInt),
            'i' => Some(AMQPType::LongUInt),
            'l' | 'L' => Some(AMQPType::LongLongInt),
            'f' => Some(AMQPType::Float),
            'd' => Some(AMQPType::Double),
            'D' => Some(AMQPType::DecimalValue),
            'S' => Some(AMQPType::LongString),
            'A' => Some(AMQPType::FieldArray),
            'T' => Some(AMQPType::Timestamp),
            'F' => Some(AMQPType::FieldTable),
            'x' => Some(AMQPType::ByteArray),
            'V' => Some(AMQPType::Void),
            _ => None,
        }
    }

    /// Returns the type tag that is written for the type, an ASCII letter, or `_` for
    /// `ShortString`, which has none.
    pub fn get_id(self) -> char
        ensures id { result ≡ id_of self }
        ensures read_back { kind result ≡ read_as self }
    {
        match self {
            AMQPType::Boolean => 't',
            AMQPType::ShortShortInt => 'b',
            AMQPType::ShortShortUInt => 'B',
            AMQPType::ShortInt => 's',
            AMQPType::ShortUInt => 'u',
            AMQPType::LongInt => 'I',
            AMQPType::LongUInt => 'i',
            AMQPType::LongLongInt => 'l',
            AMQPType::LongLongUInt => 'l',
            AMQPType::Float => 'f',
            AMQPType::Double => 'd',
            AMQPType::DecimalValue => 'D',
            AMQPType::ShortString => '_',
            AMQPType::LongString => 'S',
            AMQPType::FieldArray => 'A',
            AMQPType::Timestamp => 'T',
            AMQPType::FieldTable => 'F',
            AMQPType::ByteArray => 'x',
            AMQPType::Void => 'V',
        }
    }
}

impl fmt::Display for AMQPType {
    ghost use Rattle.amqp_value_core.specs.Names.{name_of};

    ghost output = { λ t. Some (name_of t) };

    fn fmt<W: fmt::Write>(&self, f: &mut fmt::Formatter<W>) -> fmt::Result {
        f.write_str(match self {
            AMQPType::Boolean => "Boolean",
            AMQPType::ShortShortInt => "ShortShortInt",
            AMQPType::ShortShortUInt => "ShortShortUInt",
            AMQPType::ShortInt => "ShortInt",
            AMQPType::ShortUInt => "ShortUInt",
            AMQPType::LongInt => "LongInt",
            AMQPType::LongUInt => "LongUInt",
            AMQPType::LongLongInt => "LongLongInt",
            AMQPType::LongLongUInt => "LongLongUInt",
            AMQPType::Float => "Float",
            AMQPType::Double => "Double",
            AMQPType::DecimalValue => "DecimalValue",
            AMQPType::ShortString => "ShortString",
            AMQPType::LongString => "LongString",
            AMQPType::FieldArray => "FieldArray",
            AMQPType::Timestamp => "Timestamp",
            AMQPType::FieldTable => "FieldTable",
            AMQPType::ByteArray => "ByteArray",
            AMQPType::Void => "Void",
        })
    }
}
