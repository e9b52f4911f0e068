//! The laws of the JSON of values: what its definitions imply, for every value.
//!
//! The functions are laws. They do nothing, and their contracts state what holds.

// The tactic at a function names the lemma that is the law.

ghost use Rattle.std.specs.Prelude.{◌≡◌, ◌+◌, ◌++◌, take, Some, List, ℕ};
ghost use Rattle.amqp_value_core.specs.Grammar.{Wire};
ghost use Rattle.amqp_value_core.specs.Bytes.{IsBytes};
ghost use Rattle.amqp_value_core.specs.Values.{Tree};
ghost use Rattle.amqp_json.specs.Meaning.{meaning, meant, meant_within};
ghost use Rattle.amqp_json.specs.Nesting.{IsTooDeepAt};
ghost use Rattle.amq_protocol_types.specs.declared.parsing.within.Limits.{Limits};
ghost use Rattle.amqp_json.specs.Conversions.{IsJsonOf};
ghost use Rattle.amqp_in_place.specs.Written.{written as as_written};
ghost use Rattle.amqp_json.specs.Written.{written, valued, HasJson, json_text, MeansIfShallow};

/// What is written for a value means the value: a table's pairs may be in any order, and of equal keys
/// the last counts.
#[tactic(auto, using(crate::proofs::ValueRoundTrip::read_back))]
pub fn read_back()
    ensures { (v : Tree) → HasJson v → meaning (written v) ≡ Some (valued v) }
{}

/// The text of a value is read as the value, if the text nests at most 127 deep.
#[tactic(auto, using(crate::proofs::TextRoundTrip::text_is_read))]
pub fn text_read_back()
    ensures { (v : Tree) → HasJson v → MeansIfShallow v (json_text v) (valued v) }
{}

/// Each value that is encoded has a text, as it is written.
#[tactic(auto, using(crate::proofs::Encodings::has_json))]
pub fn encoded_has_json()
    ensures { (w : List ℕ) (v : Tree) → IsBytes w → (p : Wire w v) → HasJson (as_written w v p) }
{}

/// The bytes at the start of others have at most one JSON text.
pub fn encoded_has_one_text()
    ensures { (l : Limits) (s t u rest left : List ℕ) → IsJsonOf l s t rest → IsJsonOf l s u left → t ≡ u }
{}

/// As an encoded value is written, it is the value.
#[tactic(auto, using(crate::proofs::Encodings::valued_written))]
pub fn encoded_is_value()
    ensures { (w : List ℕ) (v : Tree) (p : Wire w v) → valued (as_written w v p) ≡ v }
{}

/// A text that means a value within a limit on nesting is never too deep for it.
#[tactic(auto, using(crate::proofs::Scanning::meant_fits))]
pub fn meant_fits()
    ensures { (most : ℕ) (t : List ℕ) (v : Tree) (at : ℕ) → meant_within most t ≡ Some v → IsTooDeepAt most t at → ⊥ }
{}

/// No text that means a value within the limit begins with the bytes of a text up to and including the bracket that is
/// too deep.
#[tactic(auto, using(crate::proofs::Scanning::none_begins))]
pub fn none_begins()
    ensures { (most : ℕ) (t rest : List ℕ) (at : ℕ) (v : Tree) → IsTooDeepAt most t at → meant_within most (take (at + 1) t ++ rest) ≡ Some v → ⊥ }
{}
