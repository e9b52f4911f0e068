//! Reading in place: borrowed views of encoded values, which are validated once and then iterated
//! and looked up, without allocation or copies.
//!
//! What comes in, through which modules, and what comes out:
//!
//! ```text
//! bytes     read, by head: all that is in them is checked        ValueRef or TableRef, rest
//! ValueRef  getters; arrays, tables, path and iter, by steps     numbers, strings, ValueRef
//! ValueRef  owned; repeated                                      AMQPValue; a repeated key
//! bytes     measure, by read and steps; head, the length alone   Measure; a length
//! bytes     canonical, by head; problems and rabbitmq            a length; Problem, Warned
//! ```
//!
//! `crates/test_calls/data/in_place.calls` has rows of reading, look-ups and canonical encodings.
//! `tests/c/test_by_model.py` tries problems, warnings and measures by the calls of the C API, and
//! `tests/show` problems and warnings by amqp_show. `crates/test_large/src/in_place.rt` has calls
//! that allocate much.
#![tactic(auto)]

mod arrays;
mod canonical;
mod getters;
mod head;
mod iter;
mod measure;
mod owned;
mod path;
mod problems;
pub mod rabbitmq;
mod read;
mod refs;
mod repeated;
pub mod search;
mod steps;
mod tables;

pub use amq_protocol_types::stream::Limits;
pub use canonical::{canonical_len, canonical_table_len, is_canonical, is_canonical_table};
pub use head::skip_value;
pub use iter::{ArrayValues, TablePairs};
pub use measure::{Measure, measure_table, measure_value};
pub use path::{EqualKeys, PathStep};
pub use problems::{Problem, ProblemKind, Rules, first_problem, first_problem_in_table};
pub use read::{read_in_place, read_in_place_unlimited, read_table_in_place};
pub use refs::{ArrayRef, TableRef, ValueRef};
