//! The types `ValueRef`, `ArrayRef` and `TableRef`: borrowed views of encoded values that were
//! validated. Their methods are in other modules, such as `getters`, `arrays` and `tables`.

ghost use Rattle.amqp_value_core.specs.Bytes.{slice_bytes};
ghost use Rattle.amqp_in_place.specs.Bodies.{HasValues, HasPairs};

use amqp_value_core::input::SliceInput;
use amqp_value_core::types::{
    Boolean, DecimalValue, Double, Float, LongInt, LongLongInt, LongUInt, ShortInt, ShortShortInt,
    ShortShortUInt, ShortUInt, Timestamp,
};

/// A borrowed view of an encoded array, which was validated. Copies are cheap: it is a reference to
/// the encoding.
#[derive(Clone, Copy)]
pub struct ArrayRef<'a> {
    body: SliceInput<'a>,
    ghost well_formed: { ∥ HasValues (slice_bytes body) ∥₁ },
}

/// A borrowed view of an encoded table, which was validated. Copies are cheap: it is a reference to
/// the encoding.
#[derive(Clone, Copy)]
pub struct TableRef<'a> {
    body: SliceInput<'a>,
    ghost well_formed: { ∥ HasPairs (slice_bytes body) ∥₁ },
}

/// A borrowed view of an encoded value, which was validated, with its type. It is never a short
/// string, which has no type tag.
#[derive(Clone, Copy)]
pub enum ValueRef<'a> {
    /// A boolean.
    Boolean(Boolean),
    /// A signed integer of 8 bits.
    ShortShortInt(ShortShortInt),
    /// An unsigned integer of 8 bits.
    ShortShortUInt(ShortShortUInt),
    /// A signed integer of 16 bits.
    ShortInt(ShortInt),
    /// An unsigned integer of 16 bits.
    ShortUInt(ShortUInt),
    /// A signed integer of 32 bits.
    LongInt(LongInt),
    /// An unsigned integer of 32 bits.
    LongUInt(LongUInt),
    /// A signed integer of 64 bits.
    LongLongInt(LongLongInt),
    /// A floating-point number of 32 bits.
    Float(Float),
    /// A floating-point number of 64 bits.
    Double(Double),
    /// A decimal number: an unsigned integer and the place of its decimal point.
    DecimalValue(DecimalValue),
    /// A string: arbitrary bytes, which most peers take for UTF-8.
    LongString(&'a [u8]),
    /// A list of values, each with its type.
    FieldArray(ArrayRef<'a>),
    /// A time, in seconds since 1970. Every number of 64 bits is accepted.
    Timestamp(Timestamp),
    /// A map from short strings to values, each with its type.
    FieldTable(TableRef<'a>),
    /// Arbitrary bytes.
    ByteArray(&'a [u8]),
    /// No value.
    Void,
}

impl<'a> ArrayRef<'a> {
    ghost use Rattle.std.specs.Prelude.{◌≡◌};
    ghost use Rattle.amqp_in_place.specs.Refs.{array_body};

    // The array whose body this is.
    #[inline(always)]
    pub(crate) fn of(body: SliceInput<'a>) -> Self
        requires { ∥ HasValues (slice_bytes body) ∥₁ }
        ensures { array_body result ≡ slice_bytes body.entry }
    {
        ArrayRef { body }
    }

    #[inline(always)]
    pub(crate) fn body(self) -> SliceInput<'a>
        ensures body { slice_bytes result ≡ array_body self.entry }
        ensures well_formed { ∥ HasValues (slice_bytes result) ∥₁ }
    {
        self.body
    }
}

impl<'a> TableRef<'a> {
    ghost use Rattle.std.specs.Prelude.{◌≡◌};
    ghost use Rattle.amqp_in_place.specs.Refs.{table_body};

    // The table whose body this is.
    #[inline(always)]
    pub(crate) fn of(body: SliceInput<'a>) -> Self
        requires { ∥ HasPairs (slice_bytes body) ∥₁ }
        ensures { table_body result ≡ slice_bytes body.entry }
    {
        TableRef { body }
    }

    #[inline(always)]
    pub(crate) fn body(self) -> SliceInput<'a>
        ensures body { slice_bytes result ≡ table_body self.entry }
        ensures well_formed { ∥ HasPairs (slice_bytes result) ∥₁ }
    {
        self.body
    }
}
