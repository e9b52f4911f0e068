//! Calls of `AMQPFlags`, and `parse_flags`, with a hundred thousand flags.

use super::{Done, Unmade, done};
use amq_protocol_types::flags::AMQPFlags;
use amq_protocol_types::parsing::{SliceInput, parse_flags};
use std::alloc::Global;

/// So many flags, which pack to an eighth as many bytes.
const MANY: u32 = 100_000;
/// The name of each flag.
const NAME: &str = "flag";

/// Whether the call is done.
pub fn call(alloc: Global, name: &str) -> Done {
    match name {
        "AMQPFlags::add_flag" => added(alloc),
        "AMQPFlags::get_bytes" => done(flags(alloc)?.get_bytes(alloc)),
        "AMQPFlags::from_bytes" => of_bytes(alloc),
        "AMQPFlags::clone" => done(flags(alloc)?.clone(alloc)),
        "parse_flags" => parsed(alloc),
        _ => Err(Unmade::Unknown),
    }
}

/// Many flags.
pub fn flags(alloc: Global) -> Result<AMQPFlags, Unmade> {
    let mut flags = AMQPFlags::new_in(alloc);
    for _ in 0..MANY {
        flags.add_flag(String::from_str(alloc, NAME)?, true)?;
    }
    Ok(flags)
}

fn added(alloc: Global) -> Done {
    let mut flags = AMQPFlags::new_in(alloc);
    for _ in 0..MANY {
        let name = String::from_str(alloc, NAME)?;
        if flags.add_flag(name, true).is_err() {
            return Ok(false);
        }
    }
    Ok(true)
}

fn of_bytes(alloc: Global) -> Done {
    let names = vec![in alloc; NAME; MANY as usize]?;
    let bytes = vec![in alloc; 0xff_u8; MANY as usize / 8]?;
    let input = SliceInput::new(bytes.as_slice());
    done(AMQPFlags::from_bytes(alloc, names.as_slice(), input))
}

fn parsed(alloc: Global) -> Done {
    let names = vec![in alloc; NAME; MANY as usize]?;
    let bytes = vec![in alloc; 0xff_u8; MANY as usize / 8]?;
    let input = SliceInput::new(bytes.as_slice());
    done(parse_flags(alloc, input, names.as_slice()))
}
