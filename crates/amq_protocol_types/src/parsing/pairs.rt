//! [`TableBuilder`], into which `parse_table_body` (`values.rt`) puts pairs: few are inserted into
//! a table one by one, many are collected first.

ghost use Rattle.std.specs.Prelude.{◌≡◌, ◌≤◌, IfOk, OnOk, length};
ghost use Rattle.amqp_value_core.specs.Values.{no_entries};
ghost use Rattle.amqp_value_core.specs.Maps.{insert};
ghost use Rattle.amqp_value_core.specs.View.{view};
ghost use Rattle.amqp_value_core.specs.Containers.{table_view};
ghost use Rattle.amq_protocol_types.specs.parsing.Bodies.{kept};

use super::scalars::parse_long_uint;
use amqp_value_core::input::ParsableInput;
use amqp_value_core::types::{AMQPType, FieldTable, ShortString};
use amqp_value_core::value::AMQPValue;
use std::alloc::{AllocError, Global};

// The least number of bytes of a body whose pairs may be gathered.
const LEAST_BYTES: usize = 16384;

// The least number of pairs that are worth being gathered, as many as the body would have if each
// value had the length of the first one.
const LEAST_PAIRS: usize = 512;

// The pairs of a body that have been read so far.
#[derive(Drop)]
pub(crate) enum TableBuilder {
    // few, each insert into the table as it was read
    Few(FieldTable),
    // many, gathered in the order in which they were read
    Many(Vec<(ShortString, AMQPValue)>),
}

impl TableBuilder {
    // No pairs yet of the body. Doesn't allocate.
    #[inline(always)]
    pub(crate) fn new<I: ParsableInput>(alloc: Global, body: I) -> Self
        ensures { kept result ≡ no_entries }
    {
        if may_have_many(body) {
            TableBuilder::Many(Vec::new(alloc))
        } else {
            TableBuilder::Few(FieldTable::new_in(alloc))
        }
    }

    // Keeps one pair more.
    #[inline(always)]
    pub(crate) fn push(&mut self, k: ShortString, v: AMQPValue) -> Result<(), AllocError>
        ensures { OnOk result (kept self.new ≡ insert k (view v) (kept self.old)) }
    {
        match self {
            TableBuilder::Few(table) => table.place(k, v),
            TableBuilder::Many(pairs) => {
                pairs.push((k, v))?;
                Ok(())
            }
        }
    }

    // The table of all pairs.
    #[inline(always)]
    pub(crate) fn into_table(self, alloc: Global) -> Result<FieldTable, AllocError>
        ensures { IfOk result (λ table. table_view table ≡ kept self) }
    {
        match self {
            TableBuilder::Few(table) => Ok(table),
            TableBuilder::Many(pairs) => FieldTable::from_pairs(alloc, pairs),
        }
    }
}

// Whether a body may well have many pairs. No promise hangs on it.
#[inline(always)]
fn may_have_many<I: ParsableInput>(body: I) -> bool {
    body.input_len() >= LEAST_BYTES && begins_small(body)
}

// Whether the first value of a long body takes a small part of it.
#[inline(never)]
fn begins_small<I: ParsableInput>(body: I) -> bool
    requires { LEAST_BYTES ≤ length (I.bytes body) }
{
    let id_at = 1 + usize::from(body.byte_at(0));
    match AMQPType::from_id(char::from(body.byte_at(id_at))) {
        Some(
            AMQPType::LongString
            | AMQPType::ByteArray
            | AMQPType::FieldArray
            | AMQPType::FieldTable,
        ) => match parse_long_uint(body.take_from(id_at + 1)) {
            Ok((_, len)) => len as usize <= body.input_len() / LEAST_PAIRS,
            Err(_) => false,
        },
        _ => true,
    }
}
