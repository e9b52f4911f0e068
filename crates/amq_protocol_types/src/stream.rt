//! Parsing with limits on length ([`Limits::frame`]) and nesting ([`Limits::depth`]), for bytes
//! from untrusted peers: one value from an input ([`parse_value_within`]), an array or a table
//! without its type tag ([`parse_field_array_within`], [`parse_field_table_within`]), or one value
//! after another from a reader ([`ValueReader`], or [`Values`] if each call is passed the reader).

mod error;
pub mod laws;
mod pending;
mod reader;
mod source;
mod values;

pub use crate::parsing::{
    Limits, parse_field_array_within, parse_field_table_within, parse_value_within,
};
pub use error::StreamError;
pub use reader::ValueReader;
pub use source::Source;
pub use values::Values;
