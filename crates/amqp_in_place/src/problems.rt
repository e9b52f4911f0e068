//! `first_problem`: the first thing in an encoded value that the given `Rules` don't allow, and its
//! offset.

// Tactics at functions: each names the lemmas that prove its clauses.

ghost use Rattle.std.specs.Prelude.{true, None, ◌≡◌, ◌↔◌, ◌<◌, ◌≤◌, ◌+◌, ◌^◌, ◌&&◌, suc, not, IfSome, IsNone, length};
ghost use Rattle.std.specs.Int.{w32, w64, from_be_bytes};
ghost use Rattle.amqp_value_core.specs.Layouts.{fixed};
ghost use Rattle.amqp_value_core.specs.Outcomes.{length_field};
ghost use Rattle.amq_protocol_types.specs.parsing.Headers.{extent, raw_extent, first_of};
ghost use Rattle.amq_protocol_types.specs.parsing.Untagged.{tagged};
ghost use Rattle.amqp_in_place.specs.Problems.{known, allow_key, want_finite, are_ones, here, further, without_tag, in_payload, value_problem, values_problem, pair_problem, pairs_problem, pair_len, inside, problem_of, problem_in_table_of};
ghost use Rattle.amqp_in_place.specs.ProblemResults.{GoesOver, FindsValue, FailsAt};

use crate::read::{check_utf8, read_in_place, read_table_in_place};
use amq_protocol_types::parsing::Limits;
use amq_protocol_types::parsing::header::value_len;
use amqp_value_core::input::{SliceInput, SplitInput};
use amqp_value_core::types::AMQPType;

/// What is allowed in a value.
#[derive(Clone, Copy, Debug, PartialEq, Eq)]
pub enum Rules {
    /// What `read_in_place` reads.
    Reading,
    /// What `read_in_place` reads, and any bytes as keys.
    AnyKeys,
    /// What RabbitMQ accepts, as was found by tests: any bytes as keys, but no type tag `U`, and no
    /// Float or Double that is an infinity or a NaN.
    RabbitMq,
}

/// Something in a value that isn't allowed.
#[derive(Clone, Copy, Debug, PartialEq, Eq)]
pub struct Problem {
    /// The number of bytes before the value with the problem, or before the pair if its key is cut
    /// or isn't UTF-8.
    pub offset: usize,
    /// What it is.
    pub kind: ProblemKind,
}

/// What is wrong with a value, or with a key.
#[derive(Clone, Copy, Debug, PartialEq, Eq)]
pub enum ProblemKind {
    /// The byte isn't a type tag, or none that RabbitMQ knows.
    UnknownTag(u8),
    /// The number in a Float or a Double is an infinity or a NaN, which RabbitMQ rejects.
    NotFinite,
    /// The value, by its type tag and its length, goes past the end of its container or of the
    /// input; or there is no value, after a key or in an empty input.
    Cut,
    /// The key goes past the end of its table.
    KeyCut,
    /// The key isn't UTF-8.
    KeyNotUtf8,
    /// The container nests deeper than the limit. RabbitMQ has no such limit.
    TooDeep,
    /// The value is longer than the limit `frame`.
    TooLarge,
}

impl Problem {
    fn here(kind: ProblemKind) -> Self
        ensures { result ≡ here kind }
    {
        Problem { offset: 0, kind }
    }

    // This problem, if that many more bytes are before it.
    fn further(self, count: usize) -> Self
        requires { self.offset + count < 2 ^ 64 }
        ensures { result ≡ further count self }
    {
        Problem {
            offset: count + self.offset,
            kind: self.kind,
        }
    }

    // This problem, by its offset without the type tag.
    fn without_tag(self) -> Self
        ensures { result ≡ without_tag self }
    {
        Problem {
            offset: self.offset.saturating_sub(1),
            kind: self.kind,
        }
    }
}

/// Returns the first problem, by its offset, in the value at the start of the bytes, or `None` if
/// the rules allow the value and it is within the limits. It doesn't allocate.
///
/// A value longer than `limits.frame` is `TooLarge`, and nothing in it is looked at. A complete
/// container deeper than `limits.depth` is `TooDeep`, and it recurses no deeper. A boolean may be
/// any byte. If `read_in_place` needs more bytes, the value is `Cut`, at 0, but by
/// `Rules::RabbitMq` one with the type tag `U` is `UnknownTag`. By `Rules::Reading` there is no
/// problem if, and only if, `read_in_place` returns a value.
#[inline(always)]
pub fn first_problem(bytes: &[u8], rules: Rules, limits: Limits) -> Option<Problem>
    ensures first { result ≡ problem_of rules limits bytes.now }
    ensures read { rules ≡ Rules.Reading → (IsNone result ↔ FindsValue limits bytes.now) }
    ensures fails { rules ≡ Rules.Reading
        → IfSome result (λ p. FailsAt limits bytes.now p.offset p.kind) }
    ensures inside { IfSome result (λ p. p.offset ≤ length bytes.now) }
{
    if is_read(bytes, rules, limits) {
        return None;
    }
    search(bytes, rules, limits)
}

// The first problem, which is looked for.
#[inline(never)]
#[tactic(auto, using(std::proofs::lemmas::Grind::common_steps))]
fn search(bytes: &[u8], rules: Rules, limits: Limits) -> Option<Problem>
    ensures first { result ≡ problem_of rules limits bytes.now }
    ensures inside { IfSome result (λ p. p.offset ≤ length bytes.now) }
{
    if value_len(SliceInput::new(bytes)) > limits.frame as usize {
        return Some(Problem::here(ProblemKind::TooLarge));
    }
    value(bytes, rules, limits.depth).err()
}

// Whether the value is read, which takes half the time of looking for a problem.
#[inline(always)]
fn is_read(bytes: &[u8], rules: Rules, limits: Limits) -> bool
    ensures { result ≡ true → problem_of rules limits bytes.now ≡ None }
{
    match rules {
        Rules::Reading | Rules::AnyKeys => read_in_place(bytes, limits).is_ok(),
        Rules::RabbitMq => false,
    }
}

// Whether the table without its type tag is read.
#[inline(always)]
fn is_table_read(table: &[u8], rules: Rules, limits: Limits) -> bool
    ensures { result ≡ true → problem_in_table_of rules limits table.now ≡ None }
{
    match rules {
        Rules::Reading | Rules::AnyKeys => read_table_in_place(table, limits).is_ok(),
        Rules::RabbitMq => false,
    }
}

/// Returns the first problem in a table without its type tag, which begins with its length. It
/// doesn't allocate.
///
/// The problem is the one that `first_problem` returns for the table with its type tag. Its offset
/// counts from the length on, and is 0 for the table itself. The limit `frame` counts the type tag
/// too.
#[inline(always)]
pub fn first_problem_in_table(table: &[u8], rules: Rules, limits: Limits) -> Option<Problem>
    ensures first { result ≡ problem_in_table_of rules limits table.now }
    ensures read { rules ≡ Rules.Reading
        → (IsNone result ↔ FindsValue limits (tagged AMQPType.FieldTable table.now)) }
    ensures fails { rules ≡ Rules.Reading → IfSome result (λ p.
        FailsAt limits (tagged AMQPType.FieldTable table.now) p.offset p.kind) }
    ensures inside { IfSome result (λ p. p.offset ≤ length table.now) }
{
    if is_table_read(table, rules, limits) {
        return None;
    }
    search_table(table, rules, limits)
}

// The first problem in a table without its type tag, which is looked for.
#[inline(never)]
#[tactic(auto, using(std::proofs::lemmas::Grind::common_steps))]
fn search_table(table: &[u8], rules: Rules, limits: Limits) -> Option<Problem>
    ensures first { result ≡ problem_in_table_of rules limits table.now }
    ensures inside { IfSome result (λ p. p.offset ≤ length table.now) }
{
    let len = value_len(SplitInput::new(b"F", table));
    if len > limits.frame as usize {
        return Some(Problem::here(ProblemKind::TooLarge));
    }
    match payload(AMQPType::FieldTable, table, len, rules, limits.depth) {
        Ok(_) => None,
        Err(problem) => Some(problem.without_tag()),
    }
}

// The length of the value at the start, or the first problem in it.
#[cycle(problems)]
fn value(bytes: &[u8], rules: Rules, depth: u32) -> Result<usize, Problem>
    ensures { GoesOver (value_problem rules depth bytes.now)
        (extent bytes.now) (length bytes.now) result }
{
    let Some((tag, after)) = bytes.split_first() else {
        return Err(Problem::here(ProblemKind::Cut));
    };
    let Some(amqp_type) = known_type(rules, *tag) else {
        return Err(Problem::here(ProblemKind::UnknownTag(*tag)));
    };
    payload(
        amqp_type,
        after,
        value_len(SliceInput::new(bytes)),
        rules,
        depth,
    )
}

// The first problem in a payload of a type, or how many bytes the value has, `len` with its type tag.
#[cycle(problems)]
fn payload(
    amqp_type: AMQPType,
    bytes: &[u8],
    len: usize,
    rules: Rules,
    depth: u32,
) -> Result<usize, Problem>
    requires { len ≡ suc (raw_extent amqp_type bytes.now) }
    ensures { GoesOver (in_payload (inside rules depth) amqp_type bytes.now)
        len (suc (length bytes.now)) result }
{
    if bytes.len() < len - 1 {
        return Err(Problem::here(ProblemKind::Cut));
    }
    match inside(amqp_type, &bytes[..len - 1], rules, depth) {
        None => Ok(len),
        Some(problem) => Err(problem),
    }
}

// The first problem in a payload that is complete, with offsets from its type tag on.
#[cycle(problems)]
fn inside(amqp_type: AMQPType, bytes: &[u8], rules: Rules, depth: u32) -> Option<Problem>
    requires { first_of (fixed amqp_type) (length_field amqp_type) ≤ length bytes.now }
    ensures first { result ≡ inside rules depth amqp_type bytes.now }
    ensures inside { IfSome result (λ p. p.offset ≤ suc (length bytes.now)) }
{
    match amqp_type {
        AMQPType::Float if want_finite(rules) && !is_finite_float(bytes) => {
            Some(Problem::here(ProblemKind::NotFinite))
        }
        AMQPType::Double if want_finite(rules) && !is_finite_double(bytes) => {
            Some(Problem::here(ProblemKind::NotFinite))
        }
        AMQPType::FieldArray => {
            if depth == 0 {
                return Some(Problem::here(ProblemKind::TooDeep));
            }
            Some(values(&bytes[4..], rules, depth - 1)?.further(5))
        }
        AMQPType::FieldTable => {
            if depth == 0 {
                return Some(Problem::here(ProblemKind::TooDeep));
            }
            Some(pairs(&bytes[4..], rules, depth - 1)?.further(5))
        }
        _ => None,
    }
}

// The first problem in values one after another.
#[cycle(problems)]
fn values(body: &[u8], rules: Rules, depth: u32) -> Option<Problem>
    ensures first { result ≡ values_problem rules depth body.now }
    ensures inside { IfSome result (λ p. p.offset ≤ length body.now) }
{
    let mut at = 0;
    'values: while at < body.len() {
        match value(&body[at..], rules, depth) {
            Ok(len) => at += len,
            Err(problem) => return Some(problem.further(at)),
        }
    }
    None
}

// The first problem in pairs one after another.
#[cycle(problems)]
fn pairs(body: &[u8], rules: Rules, depth: u32) -> Option<Problem>
    ensures first { result ≡ pairs_problem rules depth body.now }
    ensures inside { IfSome result (λ p. p.offset ≤ length body.now) }
{
    let mut at = 0;
    'pairs: while at < body.len() {
        match pair(&body[at..], rules, depth) {
            Ok(len) => at += len,
            Err(problem) => return Some(problem.further(at)),
        }
    }
    None
}

// The length of the pair at the start, or the first problem in it.
#[cycle(problems)]
fn pair(bytes: &[u8], rules: Rules, depth: u32) -> Result<usize, Problem>
    ensures { GoesOver (pair_problem rules depth bytes.now)
        (pair_len bytes.now) (length bytes.now) result }
{
    let Some((count, named)) = bytes.split_first() else {
        return Err(Problem::here(ProblemKind::KeyCut));
    };
    let count = usize::from(*count);
    if named.len() < count {
        return Err(Problem::here(ProblemKind::KeyCut));
    }
    if !allow_key(rules, &named[..count]) {
        return Err(Problem::here(ProblemKind::KeyNotUtf8));
    }
    match value(&named[count..], rules, depth) {
        Ok(len) => Ok(1 + count + len),
        Err(problem) => Err(problem.further(1 + count)),
    }
}

// The type of a type tag that the rules know.
fn known_type(rules: Rules, tag: u8) -> Option<AMQPType>
    ensures { result ≡ known rules tag }
{
    if matches!(rules, Rules::RabbitMq) && tag == b'U' {
        return None;
    }
    AMQPType::from_id(char::from(tag))
}

// Whether numbers have to be finite.
fn want_finite(rules: Rules) -> bool
    ensures { result ≡ want_finite rules }
{
    matches!(rules, Rules::RabbitMq)
}

// Whether a key is allowed.
#[tactic(auto, using(crate::proofs::FirstProblems::checked_utf8))]
fn allow_key(rules: Rules, key: &[u8]) -> bool
    ensures { result ≡ allow_key rules key.now }
{
    match rules {
        Rules::Reading => check_utf8(key).is_ok(),
        Rules::AnyKeys | Rules::RabbitMq => true,
    }
}

// Whether a Float's number is finite: its exponent bits aren't all ones.
fn is_finite_float(bytes: &[u8]) -> bool
    requires { 4 ≤ length bytes.now }
    ensures { are_ones 23 8 (from_be_bytes w32 bytes.now) ≡ not result }
{
    let bits = u32::from_be_bytes([bytes[0], bytes[1], bytes[2], bytes[3]]);
    bits >> 23 & 0xff != 0xff
}

// Whether a Double's number is finite: its exponent bits aren't all ones.
fn is_finite_double(bytes: &[u8]) -> bool
    requires { 8 ≤ length bytes.now }
    ensures { are_ones 52 11 (from_be_bytes w64 bytes.now) ≡ not result }
{
    let bits = u64::from_be_bytes([
        bytes[0], bytes[1], bytes[2], bytes[3], bytes[4], bytes[5], bytes[6], bytes[7],
    ]);
    bits >> 52 & 0x7ff != 0x7ff
}
