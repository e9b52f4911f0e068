//! Calls of `LongString` and `ByteArray` with a mebibyte, and of `ShortString` with 255 bytes,
//! which is the most that it may have.

use super::inputs::{MUCH, SHORT, bytes, text};
use super::{Done, Unmade, done};
use amq_protocol_types::{ByteArray, LongString, ShortString};
use std::alloc::Global;

/// Whether the call is done.
pub fn call(alloc: Global, name: &str) -> Done {
    match name {
        "ShortString::try_copy" => copied_short(alloc),
        "ShortString::clone" => cloned_short(alloc),
        "LongString::from_text" => of_text(alloc),
        "LongString::from_slice" => done(LongString::from_slice(alloc, bytes(alloc)?.as_slice())),
        "LongString::clone" => cloned_long(alloc),
        "ByteArray::from_slice" => done(ByteArray::from_slice(alloc, bytes(alloc)?.as_slice())),
        "ByteArray::clone" => cloned_array(alloc),
        _ => Err(Unmade::Unknown),
    }
}

fn copied_short(alloc: Global) -> Done {
    let text = text(alloc, SHORT)?;
    done(ShortString::try_copy(alloc, text.as_str()))
}

fn cloned_short(alloc: Global) -> Done {
    match ShortString::try_new(text(alloc, SHORT)?) {
        Ok(string) => done(string.clone(alloc)),
        Err(_) => Err(Unmade::NoInput),
    }
}

fn of_text(alloc: Global) -> Done {
    let text = text(alloc, MUCH)?;
    done(LongString::from_text(alloc, text.as_str()))
}

fn cloned_long(alloc: Global) -> Done {
    let string = LongString::from(bytes(alloc)?);
    done(string.clone(alloc))
}

fn cloned_array(alloc: Global) -> Done {
    let array = ByteArray::from(bytes(alloc)?);
    done(array.clone(alloc))
}
