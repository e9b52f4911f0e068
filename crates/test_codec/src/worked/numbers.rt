//! A worked example of `view`: the `Tree` that stands for a negative number in memory.

ghost use Rattle.std.specs.Prelude.{◌≡◌, negsuc};
ghost use Rattle.amqp_value_core.specs.Values.{number, scalar};
ghost use Rattle.amqp_value_core.specs.View.{view};

use amqp_value_core::types::AMQPType;
use amqp_value_core::value::AMQPValue;

/// A number below 0 is written as its two's complement: -2 in four bytes.
pub fn a_negative_number()
    ensures { view (AMQPValue.LongInt (negsuc 1)) ≡ scalar (number AMQPType.LongInt 0xfffffffe) }
{}
