//! `Double`: a floating-point number of 64 bits, as its bits; the rows of
//! `crates/test_calls/data/values.calls` have such numbers.

ghost use Rattle.std.specs.Prelude.{◌≡◌};
ghost use Rattle.amqp_value_core.specs.View.{double_bits};

/// A floating-point number of 64 bits, stored as its bits (IEEE 754, `binary64`).
///
/// Two are equal if their bits are: a NaN equals itself, and the two zeros differ.
#[derive(Clone, Copy, Debug, PartialEq, Eq)]
pub struct Double {
    bits: u64,
}

impl Double {
    /// Makes a number from its bits, of which each combination is allowed.
    pub fn from_bits(bits: u64) -> Self
        ensures { double_bits result ≡ bits }
    {
        Double { bits }
    }

    /// Returns the number's bits. Those of a NaN are kept as they were read.
    pub fn to_bits(self) -> u64
        ensures { result ≡ double_bits self }
    {
        self.bits
    }
}
