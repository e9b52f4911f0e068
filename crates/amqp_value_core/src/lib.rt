//! The values of AMQP 0-9-1 field tables, and the inputs that parsers read.
//!
//! What comes in, through which modules, and what comes out:
//!
//! ```text
//! Rust's types, JSON   conversions::from, json       AMQPValue
//! strings, pairs       types                         short strings, arrays and tables in a value
//! AMQPValue            conversions::getters, copies  what is in it, a copy; by equality whether two are equal
//! one or two slices    input                         what the parsers of other crates read
//! the definitions      laws                          what holds of every list of bytes and every value
//! ```
//!
//! Its tests are rows in `crates/test_calls/data`: `tags.calls`, `values.calls`, `strings.calls`,
//! `conversions.calls`, `containers.calls` and `inputs.calls`. `crates/test_codec` has worked
//! examples of the definitions, and tests of an input of its own and of serde.
#![tactic(auto)]

mod conversions;
mod equality;
pub mod input;
pub mod laws;
pub mod types;
pub mod value;
