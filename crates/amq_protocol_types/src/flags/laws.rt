//! Laws of packed flags, [`flags_are_bits`] and [`flags_are_unpacked`]: where the bit of each flag
//! is, and that unpacking returns the flags that were packed.
//!
//! Nothing here does anything when it runs: the contracts are the laws.

ghost use Rattle.std.specs.Prelude.{◌≡◌, ◌==◌, ◌<◌, ◌≤◌, ◌+◌, ◌/◌, ◌%◌, Bool, false, ℕ, List, length, slice_index, slice_index_or};
ghost use Rattle.std.specs.Int.{bit_at};
ghost use Rattle.amq_protocol_types.specs.Flags.{Flag, names_of, values_of, pack, unpack};

/// Flag number n is bit n % 8, counted from the lowest, of byte n / 8. The bits left over are 0,
/// and there are no more bytes than the flags need.
pub fn flags_are_bits()
    ensures bit { (bs : List Bool) (n : ℕ) → n < length bs
        → (bit_at (slice_index (pack bs) (n / 8)) (n % 8) == 1) ≡ slice_index_or bs n false }
    ensures left_over { (bs : List Bool) (n : ℕ) → length bs ≤ n → n / 8 < length (pack bs)
        → (bit_at (slice_index (pack bs) (n / 8)) (n % 8) == 1) ≡ false }
    ensures count { (bs : List Bool) → length (pack bs) ≡ (length bs + 7) / 8 }
{}

/// Packed flags are unpacked by their names as the same flags.
pub fn flags_are_unpacked()
    ensures { (fs : List Flag) → unpack (names_of fs) (pack (values_of fs)) ≡ fs }
{}
