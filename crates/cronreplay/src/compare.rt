//! Comparing two patterns.

use croner::{Cron, CronPattern};
use croner_rows::{Job, Result, hash_of, member, shown, switch, text};
use serde_json::Value;
use std::alloc::Global;

/// The order of two patterns, and whether they are equal; or `"hash"` where they are equal but their hashes differ.
pub fn compare(alloc: Global, question: &Value) -> Result<Value> {
    let a = pattern_of(alloc, member(question, "a")?)?;
    let b = pattern_of(alloc, member(question, "b")?)?;
    comparison(alloc, &a, &b)
}

fn comparison(alloc: Global, a: &CronPattern, b: &CronPattern) -> Result<Value> {
    let equal = *a == *b;
    if equal && hash_of(a) != hash_of(b) {
        return shown::text(alloc, "hash");
    }
    let order = shown::ordering(a.cmp(b));
    let answer = format!(in alloc; "{{\"cmp\":\"{order}\",\"eq\":{equal}}}");
    shown::object(alloc, answer)
}

// The pattern of a text, parsed or only made with it.
fn pattern_of(alloc: Global, side: &Value) -> Result<CronPattern> {
    if switch(side, "unparsed")? {
        return Ok(CronPattern::new(alloc, text(side, "text")?)?);
    }
    let Cron { pattern } = Job::read(alloc, side)?.into_cron();
    Ok(pattern)
}
