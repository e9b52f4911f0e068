//! Checks of a value that is to be sent to RabbitMQ: [`first_problem`] and [`warnings`].
//!
//! RabbitMQ 3.10.8 and 4.0.5 close the connection if a field table has a type tag that they don't
//! know, a NaN or an infinity, or a length that doesn't fit. [`first_problem`] finds the first of
//! these. [`warnings`] finds what they accept, but a stream queue or a client may not.

ghost use Rattle.std.specs.Prelude.{◌≡◌, ◌≤◌, IfSome, length};
ghost use Rattle.amqp_in_place.specs.Problems.{problem_of, problem_in_table_of};
ghost use Rattle.amqp_in_place.specs.declared.problems.Rules.TheVariants.{RabbitMq};

mod warning;

pub use crate::problems::{Problem, ProblemKind};
use crate::problems::{self, Rules};
use amq_protocol_types::parsing::Limits;
pub use warning::{CLIENT_LEVELS, Warned, warnings, warnings_in_table};

/// Returns the first problem that RabbitMQ has with the value at the start of the bytes, or `None`
/// if it accepts the value and the value is within the limits: `amqp_in_place::first_problem` by
/// `Rules::RabbitMq`.
pub fn first_problem(bytes: &[u8], limits: Limits) -> Option<Problem>
    ensures first { result ≡ problem_of RabbitMq limits bytes.now }
    ensures inside { IfSome result (λ p. p.offset ≤ length bytes.now) }
{
    problems::first_problem(bytes, Rules::RabbitMq, limits)
}

/// Returns the first problem that RabbitMQ has with a table without its type tag, or `None` if it
/// accepts the table and the table is within the limits: `amqp_in_place::first_problem_in_table` by
/// `Rules::RabbitMq`.
///
/// # Examples
///
/// ```rust
/// if let Some(problem) = first_problem_in_table(headers, LIMITS) {
///     println!(rt; "publishing: {:?} at byte {}", problem.kind, problem.offset)?;
///     return Ok(());
/// }
/// ```
pub fn first_problem_in_table(table: &[u8], limits: Limits) -> Option<Problem>
    ensures first { result ≡ problem_in_table_of RabbitMq limits table.now }
    ensures inside { IfSome result (λ p. p.offset ≤ length table.now) }
{
    problems::first_problem_in_table(table, Rules::RabbitMq, limits)
}
