//! `Fault`: why a call fails. Its numbers are also in specs/CallResults.antt, which `code` is
//! proved to return, and in include/amqp_values.h, whose values tests/c/stable.c holds.

ghost use Rattle.std.specs.Prelude.{◌≡◌};
ghost use Rattle.amqp_c.specs.CallResults.{header_fault, code_of};

use amq_protocol_types::parsing::{Err, ErrorKind, Needed, ParserError};

/// Why a call fails: the results of `amqpv_result` below 0.
#[derive(Clone, Copy)]
pub enum Fault {
    /// The bytes end before the value does. At least that many more are needed.
    More(usize),
    /// A byte isn't a type tag, or isn't one that RabbitMQ knows.
    UnknownTag,
    /// A value is missing, or extends past the end of its container.
    Cut,
    /// A key extends past the end of its table.
    KeyCut,
    /// A key isn't UTF-8.
    KeyNotUtf8,
    /// A float is infinite or NaN.
    NotFinite,
    /// Containers, or JSON brackets, nest deeper than the limit.
    TooDeep,
    /// The value has more bytes than the limit, or what is written has 2^32 or more.
    TooLarge,
    /// The text isn't UTF-8.
    NotUtf8,
    /// The text isn't JSON.
    NotJson,
    /// The text is JSON, but not the JSON of a value.
    NotAValue,
    /// The value has no encoding.
    NoEncoding,
    /// A struct that no call returned, an unknown flag, or a container that has an open body.
    Invalid,
    /// The key isn't allowed there.
    BadKey,
    /// The call doesn't take values of this type.
    BadTag,
    /// The number doesn't fit the type.
    OutOfRange,
    /// The buffer is too small. That capacity is needed.
    NoRoom(usize),
    /// An allocation failed.
    NoMemory,
}

impl Fault {
    /// The result that C gets.
    pub fn code(self) -> i32
        ensures { result ≡ code_of self }
    {
        match self {
            Fault::More(_) => -1,
            Fault::UnknownTag => -2,
            Fault::Cut => -3,
            Fault::KeyCut => -4,
            Fault::KeyNotUtf8 => -5,
            Fault::NotFinite => -6,
            Fault::TooDeep => -7,
            Fault::TooLarge => -8,
            Fault::NotUtf8 => -9,
            Fault::NotJson => -10,
            Fault::NotAValue => -11,
            Fault::NoEncoding => -12,
            Fault::Invalid => -13,
            Fault::BadKey => -14,
            Fault::BadTag => -15,
            Fault::OutOfRange => -16,
            Fault::NoRoom(_) => -17,
            Fault::NoMemory => -18,
        }
    }
}

/// An error of reading a type tag, a length or a number: only these are converted. Why a whole value isn't read is
/// said by `Input::read_error`.
impl From<ParserError> for Fault {
    ghost from_gives = { λ error fault. fault ≡ header_fault error };

    fn from(error: ParserError) -> Self {
        match error {
            Err::Incomplete(Needed::Size(n)) => Fault::More(n),
            Err::Incomplete(Needed::Unknown) => Fault::More(1),
            Err::Failure(_) => Fault::NoMemory,
            Err::Error(refused) => match refused.kind() {
                ErrorKind::MapOpt => Fault::UnknownTag,
                _ => Fault::Cut,
            },
        }
    }
}
