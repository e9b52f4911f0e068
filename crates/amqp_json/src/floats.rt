//! The float that is nearest to a number: what `reading` reads, and what `printing` tries.

ghost use Rattle.std.specs.Prelude.{◌≡◌};
ghost use Rattle.std.specs.Float.{binary32, binary64};
ghost use Rattle.amqp_json.specs.Meaning.{float_of};

/// The bits of the nearest Float, if that is finite.
pub(crate) fn float_bits(text: &[u8]) -> Option<u32>
    ensures { result ≡ float_of binary32 text.now }
{
    let x: f32 = fast_float::parse(text).ok()?;
    if x.is_finite() {
        Some(x.to_bits())
    } else {
        None
    }
}

/// The bits of the nearest Double, if that is finite.
pub(crate) fn double_bits(text: &[u8]) -> Option<u64>
    ensures { result ≡ float_of binary64 text.now }
{
    let x: f64 = fast_float::parse(text).ok()?;
    if x.is_finite() {
        Some(x.to_bits())
    } else {
        None
    }
}
