//! `Float`: a floating-point number of 32 bits, as its bits; the rows of
//! `crates/test_calls/data/values.calls` have such numbers.

ghost use Rattle.std.specs.Prelude.{◌≡◌};
ghost use Rattle.amqp_value_core.specs.View.{float_bits};

/// A floating-point number of 32 bits, stored as its bits (IEEE 754, `binary32`).
///
/// Two are equal if their bits are: a NaN equals itself, and the two zeros differ.
#[derive(Clone, Copy, Debug, PartialEq, Eq)]
pub struct Float {
    bits: u32,
}

impl Float {
    /// Makes a number from its bits, of which each combination is allowed.
    pub fn from_bits(bits: u32) -> Self
        ensures { float_bits result ≡ bits }
    {
        Float { bits }
    }

    /// Returns the number's bits. Those of a NaN are kept as they were read.
    pub fn to_bits(self) -> u32
        ensures { result ≡ float_bits self }
    {
        self.bits
    }
}
