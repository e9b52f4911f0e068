//! The law of loops over a [`ValueReader`](super::ValueReader), or over
//! [`Values`](super::Values): [`loop_over_values`].
//!
//! It does nothing when it runs: its contract is the law.

ghost use Rattle.std.specs.Prelude.{◌≡◌, ◌∷◌, ◌++◌, [], false, ℕ, List, Option, Some, None, Ok, Err};
ghost use Rattle.amqp_value_core.specs.declared.value.AMQPValue.{AMQPValue};
ghost use Rattle.amqp_value_core.specs.Values.{Tree};
ghost use Rattle.amqp_value_core.specs.View.{view};
ghost use Rattle.amq_protocol_types.specs.declared.parsing.within.Limits.{Limits};
ghost use Rattle.amq_protocol_types.specs.declared.stream.error.StreamError.{StreamError};
ghost use Rattle.amq_protocol_types.specs.declared.stream.values.Values.{Values};
ghost use Rattle.amq_protocol_types.specs.stream.Readers.{kept, has_failed, limits_of, NextResult, ReadsNext};
ghost use Rattle.amq_protocol_types.specs.stream.ReadSoFar.{HasRead, AreAllValues, EndsAfterValues};
ghost use Rattle.amq_protocol_types.specs.stream.Sources.{IsPassing};

use super::source::Source;

/// What a loop has read, by what each call for the next value returns. At the start it has read no
/// value (`start`), and then each value that a call returned (`value`); a passing error changes
/// nothing (`again`). After `None` the values are all that the reader had (`end`). After an error
/// what follows them is what the error says (`error`).
pub fn loop_over_values<R: Source>()
    ensures start { (l : Limits) (values : Values) (device from : R) → from ≡ device
        → limits_of values ≡ l → kept values ≡ [] → has_failed values ≡ false
        → HasRead l (R.remaining device) [] values (R.remaining from) }
    ensures value { (l : Limits) (first : Option (List ℕ)) (vs : List Tree) (v : AMQPValue)
        (result : NextResult) (old new : Values) (from to : R) → result ≡ Ok (Some v)
        → HasRead l first vs old (R.remaining from) → ReadsNext R.Source old from result new to
        → HasRead l first (vs ++ view v ∷ []) new (R.remaining to) }
    ensures again { (l : Limits) (first : Option (List ℕ)) (vs : List Tree) (e : StreamError)
        (result : NextResult) (old new : Values) (from to : R) → result ≡ Err e → IsPassing e
        → HasRead l first vs old (R.remaining from) → ReadsNext R.Source old from result new to
        → HasRead l first vs new (R.remaining to) }
    ensures end { (l : Limits) (first : Option (List ℕ)) (vs : List Tree)
        (result : NextResult) (old new : Values) (from to : R) → result ≡ Ok None
        → HasRead l first vs old (R.remaining from) → ReadsNext R.Source old from result new to
        → AreAllValues l first vs }
    ensures error { (l : Limits) (first : Option (List ℕ)) (vs : List Tree) (e : StreamError)
        (result : NextResult) (old new : Values) (from to : R) → result ≡ Err e
        → HasRead l first vs old (R.remaining from) → ReadsNext R.Source old from result new to
        → EndsAfterValues l first vs e }
{}
