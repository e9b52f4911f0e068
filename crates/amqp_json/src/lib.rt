//! The JSON of AMQP values: to text and back, from values and from encodings. docs/JSON.md has the
//! format.
//!
//! What comes in, through which modules, and what comes out:
//!
//! ```text
//! a text     reading: walk, by keys, named and put; where it isn't JSON, syntax,   an encoding, a value
//!            and where it nests too deep, nesting
//! encoding   printing: walk, by leaves, decimals, tokens and put                   a text
//! or value
//! ```
//!
//! `laws` has what the definitions imply. The crate's tests are the rows of
//! `crates/test_calls/data/json.calls`, and `tests/c/test_by_model.py` from C.
#![tactic(auto)]

mod error;
mod floats;
pub mod laws;
mod printing;
mod reading;

pub use error::{DecodeError, EncodeError, JsonError, Mismatch, SyntaxError, WriteError};
pub use printing::{json_of_encoding, json_of_view, to_json, write_json, write_json_of_view};
pub use reading::{encoding_of_json, encoding_of_json_within, from_json};
