//! `Problem` (`amqpv_problem`): where reading failed. `ReadError` has the `Fault` too, and is made
//! from the first problem that amqp_in_place finds.

ghost use Rattle.std.specs.Prelude.{◌≡◌};
ghost use Rattle.amqp_c.specs.Inputs.{fault_of, missing_of, unknown_tag, header_lack, error_of};

use crate::fault::Fault;
use amq_protocol_types::parsing::header::Header;
use amqp_in_place::ProblemKind;

/// Where reading failed: `amqpv_problem`.
#[repr(C)]
#[derive(Clone, Copy)]
pub struct Problem {
    /// The offset of the value, or of the pair if its key is the problem, or of a byte of a JSON text.
    pub offset: usize,
    /// After `Fault::More`: at least this many more bytes are needed. Otherwise 0.
    pub missing: usize,
    /// After `Fault::UnknownTag`: the byte. Otherwise 0.
    pub tag: u8,
    /// After `Fault::NotJson` and `Fault::NotAValue`: the number of the reason, one of `AMQPV_JSON_..`. Otherwise 0.
    pub reason: u8,
}

/// Why and where reading failed.
#[derive(Clone, Copy)]
pub struct ReadError {
    pub fault: Fault,
    pub problem: Problem,
}

impl ReadError {
    /// Returns what reading reports of the first problem in a value with this header.
    pub fn of(first: amqp_in_place::Problem, header: Header) -> ReadError
        ensures { result ≡ error_of first (header_lack header) }
    {
        ReadError {
            fault: fault_of(first, header),
            problem: Problem {
                offset: first.offset,
                missing: missing_of(first, header),
                tag: unknown_tag(first.kind),
                reason: 0,
            },
        }
    }
}

/// Why reading failed. A value that the bytes end before is reported as `More`.
fn fault_of(first: amqp_in_place::Problem, header: Header) -> Fault
    ensures { result ≡ fault_of first.offset first.kind (header_lack header) }
{
    match (first.offset, first.kind) {
        (0, ProblemKind::Cut) => Fault::More(lack_of(header)),
        (_, ProblemKind::Cut) => Fault::Cut,
        (_, ProblemKind::UnknownTag(_)) => Fault::UnknownTag,
        (_, ProblemKind::NotFinite) => Fault::NotFinite,
        (_, ProblemKind::KeyCut) => Fault::KeyCut,
        (_, ProblemKind::KeyNotUtf8) => Fault::KeyNotUtf8,
        (_, ProblemKind::TooDeep) => Fault::TooDeep,
        (_, ProblemKind::TooLarge) => Fault::TooLarge,
    }
}

/// How many more bytes are needed at least, if the bytes end before the value; otherwise 0.
fn missing_of(first: amqp_in_place::Problem, header: Header) -> usize
    ensures { result ≡ missing_of first.offset first.kind (header_lack header) }
{
    match (first.offset, first.kind) {
        (0, ProblemKind::Cut) => lack_of(header),
        _ => 0,
    }
}

/// How many bytes a header lacks.
fn lack_of(header: Header) -> usize
    ensures { result ≡ header_lack header }
{
    match header {
        Header::Lacks(count) => count,
        _ => 0,
    }
}

/// The byte that isn't a type tag, otherwise 0.
fn unknown_tag(kind: ProblemKind) -> u8
    ensures { result ≡ unknown_tag kind }
{
    match kind {
        ProblemKind::UnknownTag(tag) => tag,
        _ => 0,
    }
}
