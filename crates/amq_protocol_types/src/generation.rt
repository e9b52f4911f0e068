//! Serializers: [`to_vec`] returns a value's encoding, [`gen_value`] writes it to an output, and there
//! is a generator for each type.
//!
//! Generators write through a [`WriteContext`] to a slice ([`SliceOutput`]) or a `Vec<u8>`; those of
//! scalars, strings and flags also to an `io::Write` ([`IoOutput`]). On an error a buffer's
//! position and the bytes before it are as before the call. None of them allocates, except that a
//! `Vec` grows. The theorems on their results are in [`laws`].

mod context;
mod device;
mod error;
mod flags;
pub mod laws;
mod output;
mod owned;
mod scalars;
mod slice;
mod strings;
mod values;
mod vector;
mod with_len;

pub use context::WriteContext;
pub use device::IoOutput;
pub use error::{GenError, GenResult};
pub use flags::gen_flags;
pub use output::{BackToTheBuffer, Output};
pub use owned::{field_table_to_vec, tagged_field_table_to_vec, to_vec};
pub use scalars::{
    gen_boolean, gen_decimal_value, gen_double, gen_float, gen_id, gen_long_int, gen_long_long_int,
    gen_long_long_uint, gen_long_uint, gen_short_int, gen_short_short_int, gen_short_short_uint,
    gen_short_uint, gen_timestamp, gen_type,
};
pub use slice::SliceOutput;
pub use strings::{gen_byte_array, gen_long_string, gen_short_string};
pub use values::{gen_field_array, gen_field_table, gen_raw_value, gen_value};
pub use with_len::gen_with_len;
