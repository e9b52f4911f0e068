//! `Input` (`amqpv_input`): bytes, limits and flags. `view` reads the value at the start of the
//! bytes, and `read_error` says why it isn't read.

ghost use Rattle.std.specs.Prelude.{◌≡◌, ◌≤◌, ◌↔◌, ℕ, List, false, Err, IsNone, IfSome, length, MatchOption, MatchResult};
ghost use Rattle.amqp_value_core.specs.Bytes.{IsBytes};
ghost use Rattle.amq_protocol_types.specs.parsing.Limits.{IsHeader};
ghost use Rattle.amq_protocol_types.specs.parsing.Untagged.{tagged};
ghost use Rattle.amqp_in_place.specs.declared.problems.Rules.TheVariants.{Reading};
ghost use Rattle.amqp_in_place.specs.ProblemResults.{FindsValue, FailsAt};
ghost use Rattle.amqp_c.specs.declared.fault.Fault.TheVariants.{Invalid};
ghost use Rattle.amqp_c.specs.Inputs.{limits, is_untagged, is_first_key, is_for_streams, has_unknown_flag, rules, has_known_flags, encoding, first_problem, read_error, IsInputFault};
ghost use Rattle.amqp_c.specs.Reads.{IsViewOf};

use crate::fault::Fault;
use crate::problem::ReadError;
use amq_protocol_types::parsing::Limits;
use amq_protocol_types::parsing::header::{Header, header_of};
use amqp_in_place::{
    Problem, Rules, ValueRef, first_problem, first_problem_in_table, read_in_place,
    read_table_in_place,
};
use amqp_value_core::input::{SliceInput, SplitInput};
use amqp_value_core::types::AMQPType;

/// Bytes to read, and how: `amqpv_input`.
#[repr(C)]
#[derive(Clone, Copy)]
pub struct Input<'a> {
    /// They begin with an encoded value.
    pub bytes: &'a [u8],
    /// The most bytes that the value may have, its type tag included.
    pub max_bytes: u32,
    /// How deep containers may nest.
    pub max_depth: u32,
    /// The sum of `AMQPV_UNTAGGED` (1), `AMQPV_ANY_KEYS` (2), `AMQPV_RABBITMQ` (4), `AMQPV_FIRST_KEY` (8) and
    /// `AMQPV_STREAMS` (16).
    pub flags: u32,
}

impl<'a> Input<'a> {
    /// The bytes.
    pub(crate) fn bytes(&self) -> &'a [u8]
        ensures same { result.now ≡ self.now.bytes.now }
        ensures bytes { IsBytes self.now.bytes.now }
    {
        as_bytes(self.bytes)
    }

    /// The limits.
    pub fn limits(&self) -> Limits
        ensures { result ≡ limits self.now }
    {
        Limits {
            frame: self.max_bytes,
            depth: self.max_depth,
        }
    }

    /// Whether the bytes begin with a table without its type tag.
    pub fn is_untagged(&self) -> bool
        ensures { result ≡ is_untagged self.now }
    {
        self.flags & 1 == 1
    }

    /// Whether the first of equal keys counts, rather than the last.
    pub(crate) fn is_first_key(&self) -> bool
        ensures { result ≡ is_first_key self.now }
    {
        self.flags >> 3 & 1 == 1
    }

    /// Whether warnings are of stream queues too.
    pub fn is_for_streams(&self) -> bool
        ensures { result ≡ is_for_streams self.now }
    {
        self.flags >> 4 & 1 == 1
    }

    /// Whether a flag is unknown.
    pub fn has_unknown_flag(&self) -> bool
        ensures { result ≡ has_unknown_flag self.now }
    {
        self.flags > 31
    }

    /// The rules that the value has to keep, or `None` if a flag is unknown.
    pub(crate) fn rules(&self) -> Option<Rules>
        ensures { result ≡ rules self.now }
    {
        if self.has_unknown_flag() {
            return None;
        }
        if self.flags >> 2 & 1 == 1 {
            return Some(Rules::RabbitMq);
        }
        if self.flags >> 1 & 1 == 1 {
            return Some(Rules::AnyKeys);
        }
        Some(Rules::Reading)
    }

    /// Whether no flag is unknown.
    pub fn has_known_flags(&self) -> bool
        ensures { result ≡ has_known_flags self.now }
    {
        !self.has_unknown_flag()
    }

    /// The value at the start, by the rules of reading, whatever other rules the flags name.
    pub fn view(&self) -> Result<ValueRef<'a>, Fault>
        ensures read { MatchResult result
            (λ value. (rest : List ℕ) × IsViewOf (limits self.now) (encoding self.now) value rest)
            (IsInputFault self.now) }
        ensures flags { has_known_flags self.now ≡ false → result ≡ Err Invalid }
    {
        if !self.has_known_flags() {
            return Err(Fault::Invalid);
        }
        if let Some(value) = self.read_view() {
            return Ok(value);
        }
        match self.read_error(Rules::Reading) {
            Some(error) => Err(error.fault),
            None => unreachable!(),
        }
    }

    /// The value at the start, if it is read.
    fn read_view(&self) -> Option<ValueRef<'a>>
        ensures { MatchOption result
            (FindsValue (limits self.now) (encoding self.now) → ⊥)
            (λ value. (rest : List ℕ) × IsViewOf (limits self.now) (encoding self.now) value rest) }
    {
        if self.is_untagged() {
            view_of_table(self.bytes, self.limits())
        } else {
            view_of_value(self.bytes, self.limits())
        }
    }

    /// Why the value at the start isn't read by the rules, or `None` if it is.
    #[tactic(auto, using(crate::proofs::ReadErrors::reported))]
    pub(crate) fn read_error(&self, rules: Rules) -> Option<ReadError>
        ensures first { result ≡ read_error rules self.now }
        ensures read { rules ≡ Reading
            → (IsNone result ↔ FindsValue (limits self.now) (encoding self.now)) }
        ensures fails { rules ≡ Reading → IfSome (first_problem rules self.now)
            (λ p. FailsAt (limits self.now) (encoding self.now) p.offset p.kind) }
        ensures inside { IfSome (first_problem rules self.now)
            (λ p. p.offset ≤ length self.now.bytes.now) }
    {
        let problem = self.first_problem(rules)?;
        Some(ReadError::of(problem, self.header()))
    }

    /// What the type tag and the length determine.
    #[cold]
    fn header(self) -> Header
        ensures { IsHeader (limits self.entry).frame (encoding self.entry) result }
    {
        if self.is_untagged() {
            header_of(SplitInput::new(b"F", self.bytes), self.max_bytes)
        } else {
            header_of(SliceInput::new(self.bytes), self.max_bytes)
        }
    }

    /// The first problem of the value, by its offset in the bytes.
    fn first_problem(&self, rules: Rules) -> Option<Problem>
        ensures first { result ≡ first_problem rules self.now }
        ensures read { rules ≡ Reading
            → (IsNone result ↔ FindsValue (limits self.now) (encoding self.now)) }
        ensures fails { rules ≡ Reading → IfSome result
            (λ p. FailsAt (limits self.now) (encoding self.now) p.offset p.kind) }
        ensures inside { IfSome result (λ problem. problem.offset ≤ length self.now.bytes.now) }
    {
        if self.is_untagged() {
            first_problem_in_table(self.bytes, rules, self.limits())
        } else {
            first_problem(self.bytes, rules, self.limits())
        }
    }
}

/// The value at the start, if it is read.
fn view_of_value(bytes: &[u8], limits: Limits) -> Option<ValueRef<'_>>
    ensures { MatchOption result
        (FindsValue limits bytes.now → ⊥)
        (λ value. (rest : List ℕ) × IsViewOf limits bytes.now value rest) }
{
    match read_in_place(bytes, limits) {
        Ok((value, _)) => Some(value),
        Err(_) => None,
    }
}

/// The table without its type tag at the start, if it is read.
fn view_of_table(bytes: &[u8], limits: Limits) -> Option<ValueRef<'_>>
    ensures { MatchOption result
        (FindsValue limits (tagged AMQPType.FieldTable bytes.now) → ⊥)
        (λ value. (rest : List ℕ) × IsViewOf limits (tagged AMQPType.FieldTable bytes.now) value rest) }
{
    match read_table_in_place(bytes, limits) {
        Ok((table, _)) => Some(ValueRef::FieldTable(table)),
        Err(_) => None,
    }
}

// The tactic names why what is in a slice of bytes is bytes.
/// The same bytes.
#[tactic(auto, using(amqp_in_place::proofs::Canonicals::bytes_all))]
fn as_bytes(bytes: &[u8]) -> &[u8]
    ensures same { result.now ≡ bytes.now }
    ensures bytes { IsBytes bytes.now }
{
    bytes
}
