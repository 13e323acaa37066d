//! The keys of a query that count.
ghost use Rattle.std.specs.Prelude.{◌≡◌, codes, IfOk, OnOk, if◌then◌else◌, Some, None};
ghost use Rattle.std.specs.Str.{bytes_eq};
ghost use Rattle.web_request.specs.Queries.{pairs, first_of_key, first_of_both, query_of, value_in};

use crate::target::{cut_at_question, origin_of};
use form_urlencoded::parse;
use octets::Text;
use std::alloc::{AllocError, Global};

/// The first value of each key that counts.
#[derive(Drop)]
pub struct Query {
    /// What is asked for.
    pub t: Option<Text>,
    /// The form of the answer to a check.
    pub output: Option<Text>,
    /// Whether a check verifies the shares.
    pub verify: Option<Text>,
}

/// The first value of each key that counts. Other keys are ignored.
pub fn read_query(alloc: Global, query: &[u8]) -> Result<Query, AllocError>
    ensures { IfOk result (λ read. read ≡ query_of query.now) }
{
    let mut read = Query {
        t: None,
        output: None,
        verify: None,
    };
    for pair in parse(alloc, query) {
        let (key, value) = pair?;
        keep_pair(alloc, &mut read, key.as_str(), value.as_str())?;
    }
    Ok(read)
}

/// Keeps the value where its key counts and none was kept before.
fn keep_pair(alloc: Global, read: &mut Query, key: &str, value: &str) -> Result<(), AllocError>
    ensures t { OnOk result (read.new.t ≡ first_of_both read.old.t
        (if bytes_eq key.now (codes "t") then Some value.now else None)) }
    ensures output { OnOk result (read.new.output ≡ first_of_both read.old.output
        (if bytes_eq key.now (codes "output") then Some value.now else None)) }
    ensures verify { OnOk result (read.new.verify ≡ first_of_both read.old.verify
        (if bytes_eq key.now (codes "verify") then Some value.now else None)) }
{
    keep_first(alloc, &mut read.t, key == "t", value)?;
    keep_first(alloc, &mut read.output, key == "output", value)?;
    keep_first(alloc, &mut read.verify, key == "verify", value)
}

/// Keeps the value where its key is the one and none was kept before.
fn keep_first(
    alloc: Global,
    kept: &mut Option<Text>,
    is_key: bool,
    value: &str,
) -> Result<(), AllocError>
    ensures { OnOk result (kept.new ≡ first_of_both kept.old (if is_key then Some value.now else None)) }
{
    if is_key && kept.is_none() {
        *kept = Some(Text::from_string(String::from_str(alloc, value)?));
    }
    Ok(())
}

/// The first value of a key in the query of a target, as a text (URL Standard, section 5), `None` where it has none.
#[tactic(auto, unfolding(crate::specs::Queries::value_in))]
pub fn value_in(alloc: Global, target: &[u8], key: &str) -> Result<Option<Text>, AllocError>
    ensures { IfOk result (λ value. value ≡ value_in target.now key.now) }
{
    let Some(origin) = origin_of(target) else {
        return Ok(None);
    };
    let (_, query) = cut_at_question(origin);
    first_value(alloc, query, key)
}

/// The first value of a key in a query.
fn first_value(alloc: Global, query: &[u8], key: &str) -> Result<Option<Text>, AllocError>
    ensures { IfOk result (λ value. value ≡ first_of_key key.now (pairs query.now)) }
{
    for pair in parse(alloc, query) {
        let (name, value) = pair?;
        if name.as_str() == key {
            let copy = String::from_str(alloc, value.as_str())?;
            return Ok(Some(Text::from_string(copy)));
        }
    }
    Ok(None)
}
