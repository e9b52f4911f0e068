//! Parsers: one for a complete value ([`parse_value`]), one for each type.
//!
//! A parser returns `Ok((rest, value))`; `Err(Incomplete(..))` with the number of further bytes
//! that it needs, to be called again with more; `Err(Error(..))` if the input is invalid, whatever
//! bytes follow; or `Err(Failure(..))` if memory ran out. None of them limits length or nesting: on
//! bytes from untrusted peers use `stream`, or the crate `amqp_in_place`.

mod bytes;
pub(crate) mod errors;
mod flags;
pub mod header;
mod pairs;
mod scalars;
mod strings;
pub(crate) mod values;
mod within;

pub use amqp_value_core::input::{SliceInput, SplitInput};
pub use bytes::copy_of;
pub use errors::{
    Err, ErrorKind, Needed, ParserError, ParserErrors, ParserResult, error_of_kind, lacks,
};
pub use flags::parse_flags;
pub use scalars::{
    parse_boolean, parse_decimal_value, parse_double, parse_float, parse_id, parse_long_int,
    parse_long_long_int, parse_long_long_uint, parse_long_uint, parse_short_int,
    parse_short_short_int, parse_short_short_uint, parse_short_uint, parse_timestamp, parse_type,
};
pub use strings::{parse_byte_array, parse_length_prefixed, parse_long_string, parse_short_string};
pub use values::{
    parse_array_body, parse_field_array, parse_field_table, parse_raw_value, parse_table_body,
    parse_value,
};
pub use within::{Limits, parse_field_array_within, parse_field_table_within, parse_value_within};

/// The traits and inputs that the parsers are generic over.
pub mod traits {
    pub use crate::parsing::errors::Needed;
    pub use amqp_value_core::input::{ParsableInput, SliceInput, SplitInput};
}
