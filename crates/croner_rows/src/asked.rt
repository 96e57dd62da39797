//! Calls of a field, of a pattern, of a time and of jobs, by the names of the operations.

use crate::comparisons::{of_iterators, of_jobs};
use crate::field_calls::call_of_field;
use crate::pattern_calls::call_of_pattern;
use crate::texts::{describe, from_json, parse, unparsed_text};
use crate::times::{add, matching, resolve};
use crate::{Caller, Result};
use serde_json::Value;

/// What the calls of an operation answer. What was lent to them is added to `after`, as it is afterwards.
pub fn ask(caller: Caller<'_>, question: &Value, op: &str, after: &mut String) -> Result<Value> {
    match op {
        "component_call" => call_of_field(caller, question, after),
        "parse" => parse(caller, question),
        "unparsed" => unparsed_text(caller, question),
        "from_json" => from_json(caller, question, after),
        "describe" => describe(caller, question, after),
        "match" => matching(caller, question, after),
        "resolve" => resolve(caller, question, after),
        "add" => add(caller, question, after),
        "job_compare" => of_jobs(caller, question),
        "iterator_compare" => of_iterators(caller, question),
        op => call_of_pattern(caller, question, op, after),
    }
}
