//! Requests on arrays and tables: `push ARRAY VALUE`, `insert TABLE KEY VALUE`,
//! `place TABLE KEY VALUE`, `get TABLE KEY`, `contains_key TABLE KEY` and `walk TABLE`; and on how
//! they are made: `from_values VALUES`, `from_map ENTRIES`, `from_pairs ENTRIES` and
//! `from_entries ENTRIES`, an entry being `KEY:VALUE`.

use super::strings::not_copied;
use super::values::{Word, made, short_string, value_of};
use super::words::{ended, ok, plain, shown, text_of};
use super::{Answer, Trouble};
use amq_protocol_types::{AMQPValue, FieldArray, FieldTable, ShortString};
use std::alloc::Global;
use std::collections::BTreeMap;

/// What a call of arrays and tables answers.
pub fn answer(rt: &HostRuntime, alloc: Global, call: &str, words: &[&str]) -> Answer {
    match (call, words) {
        ("push", [array, value]) => {
            push(
                rt,
                alloc,
                value_of(alloc, *array)?,
                value_of(alloc, *value)?,
            )
        }
        ("insert", [table, key, value]) => insert(rt, alloc, *table, *key, *value),
        ("place", [table, key, value]) => place(rt, alloc, *table, *key, *value),
        ("get", [table, key]) => get(rt, alloc, *table, *key),
        ("contains_key", [table, key]) => contains_key(rt, alloc, *table, *key),
        ("walk", [table]) => walk(alloc, &table_of(alloc, *table)?),
        ("from_values", values) => from_values(alloc, values),
        ("from_map", entries) => from_map(alloc, entries),
        ("from_pairs", entries) => from_pairs(rt, alloc, entries),
        ("from_entries", entries) => from_entries(rt, alloc, entries),
        _ => Err(Trouble::Unknown),
    }
}

fn push(rt: &HostRuntime, alloc: Global, array: AMQPValue, value: AMQPValue) -> Answer {
    let AMQPValue::FieldArray(mut array) = array else {
        return Err(Trouble::Unknown);
    };
    let pushed = call!(rt; array.push(value));
    ended(alloc, pushed, array.word(alloc)?.as_str())
}

fn insert(rt: &HostRuntime, alloc: Global, table: &str, key: &str, value: &str) -> Answer {
    let mut table = table_of(alloc, table)?;
    let (key, value) = (short_string(alloc, key)?, value_of(alloc, value)?);
    let inserted = match call!(rt; table.insert(key, value)) {
        Ok(same) => Ok(same.word(alloc)?),
        Err(error) => Err(error),
    };
    let text = table.word(alloc)?;
    match inserted {
        Ok(same) if same.as_str() == text.as_str() => ok(alloc, text.as_str()),
        Ok(other) => Ok(format!(in alloc; "ok {text} and {other} returned")?),
        Err(error) => ended(alloc, Err(error), text.as_str()),
    }
}

fn place(rt: &HostRuntime, alloc: Global, table: &str, key: &str, value: &str) -> Answer {
    let mut table = table_of(alloc, table)?;
    let (key, value) = (short_string(alloc, key)?, value_of(alloc, value)?);
    let placed = call!(rt; table.place(key, value));
    ended(alloc, placed, table.word(alloc)?.as_str())
}

fn get(rt: &HostRuntime, alloc: Global, table: &str, key: &str) -> Answer {
    let (table, key) = (table_of(alloc, table)?, text_of(alloc, key)?);
    match call!(rt; table.get(key.as_str())) {
        Some(value) => value.word(alloc),
        None => plain(alloc, "None"),
    }
}

fn contains_key(rt: &HostRuntime, alloc: Global, table: &str, key: &str) -> Answer {
    let (table, key) = (table_of(alloc, table)?, text_of(alloc, key)?);
    shown(alloc, call!(rt; table.contains_key(key.as_str())))
}

fn from_values(alloc: Global, values: &[&str]) -> Answer {
    let mut items = Vec::new(alloc);
    for value in values {
        items.push(value_of(alloc, *value)?)?;
    }
    FieldArray::from(items).word(alloc)
}

fn from_map(alloc: Global, words: &[&str]) -> Answer {
    let mut map: BTreeMap<ShortString, AMQPValue> = BTreeMap::new(alloc);
    for word in words {
        let (key, value) = pair_of(alloc, *word)?;
        drop(map.insert(key, value)?);
    }
    FieldTable::from(map).word(alloc)
}

fn from_pairs(rt: &HostRuntime, alloc: Global, words: &[&str]) -> Answer {
    let mut pairs = Vec::new(alloc);
    for word in words {
        pairs.push(pair_of(alloc, *word)?)?;
    }
    made(alloc, call!(rt; FieldTable::from_pairs(alloc, pairs)))
}

/// What `from_entries` makes of an array of entries.
fn from_entries(rt: &HostRuntime, alloc: Global, words: &[&str]) -> Answer {
    match words {
        [] => of_entries::<0>(rt, alloc, []),
        [a] => of_entries(rt, alloc, [entry_of(alloc, *a)?]),
        [a, b] => of_entries(rt, alloc, [entry_of(alloc, *a)?, entry_of(alloc, *b)?]),
        [a, b, c] => {
            let (a, b, c) = (
                entry_of(alloc, *a)?,
                entry_of(alloc, *b)?,
                entry_of(alloc, *c)?,
            );
            of_entries(rt, alloc, [a, b, c])
        }
        _ => Err(Trouble::Unknown),
    }
}

fn of_entries<const N: usize>(
    rt: &HostRuntime,
    alloc: Global,
    entries: [(String, AMQPValue); N],
) -> Answer {
    match call!(rt; FieldTable::from_entries(alloc, entries)) {
        Ok(table) => ok(alloc, table.word(alloc)?.as_str()),
        Err(error) => not_copied(alloc, error),
    }
}

/// The key and the value of an entry.
fn entry_of(alloc: Global, word: &str) -> Result<(String, AMQPValue), Trouble> {
    match word.split_once(':') {
        Some((key, value)) => Ok((text_of(alloc, key)?, value_of(alloc, value)?)),
        None => Err(Trouble::Unknown),
    }
}

fn pair_of(alloc: Global, word: &str) -> Result<(ShortString, AMQPValue), Trouble> {
    match word.split_once(':') {
        Some((key, value)) => Ok((short_string(alloc, key)?, value_of(alloc, value)?)),
        None => Err(Trouble::Unknown),
    }
}

fn table_of(alloc: Global, word: &str) -> Result<FieldTable, Trouble> {
    match value_of(alloc, word)? {
        AMQPValue::FieldTable(table) => Ok(table),
        _ => Err(Trouble::Unknown),
    }
}

/// The entries in order, the keys from the back, and the number that the map has.
fn walk(alloc: Global, table: &FieldTable) -> Answer {
    let mut text = String::new(alloc);
    for (key, value) in table {
        let (key, value) = (key.word(alloc)?, value.word(alloc)?);
        write!(text, "{key}:{value} ")?;
    }
    text.push_str("back")?;
    for (key, _value) in table.inner().iter().rev() {
        write!(text, " {}", key.word(alloc)?)?;
    }
    write!(text, " len {}", table.inner().len())?;
    Ok(text)
}
