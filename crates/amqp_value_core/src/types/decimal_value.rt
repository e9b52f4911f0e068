//! `DecimalValue`: a decimal number as its scale and its digits.

use crate::types::{LongUInt, ShortShortUInt};
use serde::{Deserialize, Serialize};

/// A decimal number: `value` divided by ten to the power of `scale` (AMQP 0-9-1, section 4.2.5.5).
/// With a scale of 2 the value 1999 is 19.99.
///
/// `==` compares the two fields: 1.0 and 1.00 differ. The quotient isn't computed here.
#[derive(Clone, Copy, Debug, PartialEq, Eq, Hash, Serialize, Deserialize)]
pub struct DecimalValue {
    /// The number of digits after the decimal point, up to 255.
    pub scale: ShortShortUInt,
    /// The digits, as an unsigned integer of 32 bits.
    pub value: LongUInt,
}
