//! Figures as JSON.
use crate::VERSION;
use crate::commit::Commit;
use crate::figures::{Named, StoreFigures, connection_figures, reply_figures};
use gate_base::Tally;
use gate_limits::Counts;
use serde_json::{Map, Value};
use std::alloc::{AllocError, Global};

/// An object's members, by their names.
type Members = Map<String, Value>;

/// The version, the commit where it is known, and the figures as JSON: the time so far, connections, bytes that are kept, received and sent, replies of each status, and each store.
/// `Err` only where memory is refused.
pub fn status_text(
    alloc: Global,
    commit: Option<&Commit>,
    counts: &Counts,
    tally: &Tally,
    stores: &[StoreFigures],
) -> Result<String, AllocError> {
    let mut members = Map::new(alloc);
    put_build(alloc, &mut members, commit)?;
    put_number(alloc, &mut members, "uptime_seconds", counts.seconds)?;
    put_number(alloc, &mut members, "kept", counts.kept)?;
    put_number(alloc, &mut members, "received", counts.bytes_in)?;
    put_number(alloc, &mut members, "sent", counts.bytes_out)?;
    put_parts(alloc, &mut members, counts, tally)?;
    put(alloc, &mut members, "stores", stores_json(alloc, stores)?)?;
    Value::Object(members).to_string(alloc)
}

/// Puts the program's version, and its commit where that is known.
fn put_build(
    alloc: Global,
    members: &mut Members,
    commit: Option<&Commit>,
) -> Result<(), AllocError> {
    put(alloc, members, "version", text_json(alloc, VERSION)?)?;
    match commit {
        Some(commit) => put(alloc, members, "commit", text_json(alloc, commit.as_str())?),
        None => Ok(()),
    }
}

/// A text.
fn text_json(alloc: Global, text: &str) -> Result<Value, AllocError> {
    Ok(Value::String(String::from_str(alloc, text)?))
}

/// Puts the figures of connections and of replies.
fn put_parts(
    alloc: Global,
    members: &mut Members,
    counts: &Counts,
    tally: &Tally,
) -> Result<(), AllocError> {
    let connections = numbers_json(alloc, connection_figures(counts).as_slice())?;
    put(alloc, members, "connections", connections)?;
    let replies = numbers_json(alloc, reply_figures(tally).as_slice())?;
    put(alloc, members, "replies", replies)
}

/// The figures of each store, in the order of the servers.
fn stores_json(alloc: Global, stores: &[StoreFigures]) -> Result<Value, AllocError> {
    let mut rows = Vec::with_capacity(alloc, stores.len())?;
    for store in stores {
        rows.push(store_json(alloc, store)?)?;
    }
    Ok(Value::Array(rows))
}

/// The figures of a store.
fn store_json(alloc: Global, store: &StoreFigures) -> Result<Value, AllocError> {
    let mut members = Map::new(alloc);
    put_number(alloc, &mut members, "room", store.room)?;
    put_number(alloc, &mut members, "held", store.held)?;
    put_number(alloc, &mut members, "failures", store.failures)?;
    Ok(Value::Object(members))
}

/// An object of numbers.
fn numbers_json(alloc: Global, numbers: &[Named]) -> Result<Value, AllocError> {
    let mut members = Map::new(alloc);
    for number in numbers {
        put_number(alloc, &mut members, number.name, number.value)?;
    }
    Ok(Value::Object(members))
}

/// Puts a number under a name.
fn put_number(
    alloc: Global,
    members: &mut Members,
    name: &str,
    number: u64,
) -> Result<(), AllocError> {
    put(alloc, members, name, Value::from(number))
}

/// Puts a value under a name.
fn put(alloc: Global, members: &mut Members, name: &str, value: Value) -> Result<(), AllocError> {
    let name = String::from_str(alloc, name)?;
    match members.insert(name, value) {
        Ok(_) => Ok(()),
        Err(error) => Err(AllocError::from(error)),
    }
}
