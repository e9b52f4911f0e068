//! `nest CALL DEPTH BYTES`: whether a call is done with these bytes, which nest deep, or why it isn't. DEPTH is the
//! limit of calls that have one. Nothing of a value is printed, since that takes stack too.

use super::words::{WIDE, bytes_of, named, number, plain};
use super::{Answer, Trouble};
use amq_protocol_types::AMQPValue;
use amq_protocol_types::generation::{WriteContext, gen_value};
use amq_protocol_types::parsing::traits::ParsableInput;
use amq_protocol_types::parsing::{ParserResult, SliceInput, SplitInput, parse_value};
use amq_protocol_types::stream::{Limits, ValueReader, parse_value_within};
use amqp_in_place::rabbitmq::warnings;
use amqp_in_place::{
    Rules, canonical_len, first_problem, is_canonical, measure_value, read_in_place,
    read_in_place_unlimited, skip_value,
};
use amqp_json::{encoding_of_json, encoding_of_json_within, from_json, json_of_encoding, to_json};
use std::alloc::Global;
use std::fmt::Debug;

/// Whether the call is done.
pub fn answer(rt: &HostRuntime, alloc: Global, call: &str, words: &[&str]) -> Answer {
    let ("nest", [call, depth, word]) = (call, words) else {
        return Err(Trouble::Unknown);
    };
    let limits = Limits {
        depth: number(*depth)?,
        ..WIDE
    };
    let bytes = bytes_of(alloc, *word)?;
    let bytes = bytes.as_slice();
    match *call {
        "parse_value" => parsed(alloc, call!(rt; parse_value(alloc, SliceInput::new(bytes)))),
        "parse_value_within" => {
            let input = SliceInput::new(bytes);
            parsed(alloc, call!(rt; parse_value_within(alloc, input, limits)))
        }
        "SplitInput" => {
            let (first, second) = bytes.split_at(bytes.len() / 2);
            let input = SplitInput::new(first, second);
            parsed(alloc, call!(rt; parse_value_within(alloc, input, limits)))
        }
        "ValueReader::next" => done(alloc, ValueReader::new(alloc, bytes, limits).next()),
        "gen_value" | "clone" | "==" | "to_json" => of_value(rt, alloc, *call, bytes),
        "encoding_of_json" => done(alloc, call!(rt; encoding_of_json(alloc, text_of(bytes)?))),
        "encoding_of_json_within" => {
            let text = text_of(bytes)?;
            done(
                alloc,
                call!(rt; encoding_of_json_within(alloc, text, limits.depth)),
            )
        }
        "from_json" => done(alloc, call!(rt; from_json(alloc, text_of(bytes)?))),
        _ => in_place(rt, alloc, *call, bytes, limits),
    }
}

/// Calls on the bytes of a value that is read in place.
fn in_place(rt: &HostRuntime, alloc: Global, call: &str, bytes: &[u8], limits: Limits) -> Answer {
    match call {
        "read_in_place" => done(alloc, call!(rt; read_in_place(bytes, limits))),
        "read_in_place_unlimited" => done(alloc, call!(rt; read_in_place_unlimited(bytes))),
        "to_owned" => match read_in_place(bytes, limits) {
            Ok((value, _)) => done(alloc, call!(rt; value.to_owned(alloc))),
            Err(error) => done(alloc, Err::<(), _>(error)),
        },
        "skip_value" => done(alloc, call!(rt; skip_value(bytes))),
        "is_canonical" => said(alloc, call!(rt; is_canonical(bytes, limits))),
        "canonical_len" => said(alloc, call!(rt; canonical_len(bytes, limits)).is_some()),
        "measure_value" => done(alloc, call!(rt; measure_value(bytes, limits))),
        "first_problem" => {
            let problem = call!(rt; first_problem(bytes, Rules::Reading, limits));
            said(alloc, problem.is_none())
        }
        "warnings" => done(
            alloc,
            call!(rt; warnings(alloc, bytes, limits, 0, u32::MAX)),
        ),
        "json_of_encoding" => done(alloc, call!(rt; json_of_encoding(alloc, bytes, limits))),
        _ => Err(Trouble::Unknown),
    }
}

/// Calls on the value that these bytes are.
fn of_value(rt: &HostRuntime, alloc: Global, call: &str, bytes: &[u8]) -> Answer {
    let Ok((_, value)) = parse_value(alloc, SliceInput::new(bytes)) else {
        return Err(Trouble::Unknown);
    };
    match call {
        "gen_value" => {
            let mut x = WriteContext::from(Vec::new(alloc));
            done(alloc, call!(rt; gen_value(&value, &mut x)))
        }
        "clone" => done(alloc, call!(rt; value.clone(alloc))),
        "to_json" => done(alloc, call!(rt; to_json(alloc, &value))),
        _ => said(alloc, value == value),
    }
}

fn parsed<I: ParsableInput>(alloc: Global, parsed: ParserResult<I, AMQPValue>) -> Answer {
    match parsed {
        Ok((_rest, _value)) => plain(alloc, "done"),
        Err(error) => named(alloc, error),
    }
}

fn done<T: Drop, E: Debug + Drop>(alloc: Global, returned: Result<T, E>) -> Answer {
    match returned {
        Ok(_) => plain(alloc, "done"),
        Err(error) => named(alloc, error),
    }
}

fn said(alloc: Global, is_done: bool) -> Answer {
    plain(alloc, if is_done { "done" } else { "refused" })
}

fn text_of(bytes: &[u8]) -> Result<&str, Trouble> {
    std::str::from_utf8(bytes).map_err(|_error| Trouble::Unknown)
}
