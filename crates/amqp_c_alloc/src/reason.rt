//! The numbers of the reasons for which a text isn't the JSON of a value: `AMQPV_JSON_..` of
//! include/amqp_values.h, whose values tests/c/stable.c holds. specs/JsonCalls.antt has them too.

ghost use Rattle.std.specs.Prelude.{◌≡◌};
ghost use Rattle.amqp_c_alloc.specs.JsonCalls.{syntax_reason, mismatch_reason};

use amqp_json::{Mismatch, SyntaxError};

/// No reason: the result code says it all.
pub const NO_REASON: u8 = 0;

/// Why a text isn't JSON.
pub fn syntax_reason(error: SyntaxError) -> u8
    ensures { result ≡ syntax_reason error }
{
    match error {
        SyntaxError::UnexpectedEnd => 1,
        SyntaxError::UnfinishedString => 2,
        SyntaxError::UnexpectedCharacter => 3,
        SyntaxError::ControlCharacter => 4,
        SyntaxError::UnknownEscape => 5,
        SyntaxError::LoneSurrogate => 6,
        SyntaxError::MissingComma => 7,
        SyntaxError::MissingColon => 8,
        SyntaxError::TrailingComma => 9,
        SyntaxError::AfterTheValue => 10,
        SyntaxError::ByteOrderMark => 11,
    }
}

/// Why JSON isn't the JSON of a value.
pub fn mismatch_reason(mismatch: Mismatch) -> u8
    ensures { result ≡ mismatch_reason mismatch }
{
    match mismatch {
        Mismatch::UnknownType => 101,
        Mismatch::NotAlone => 102,
        Mismatch::KeyTooLong => 103,
        Mismatch::NotANumber => 104,
        Mismatch::NotAString => 105,
        Mismatch::OutOfRange => 106,
        Mismatch::OddDigits => 107,
        Mismatch::NotHexadecimal => 108,
        Mismatch::DigitCount => 109,
        Mismatch::NotADecimal => 110,
    }
}
