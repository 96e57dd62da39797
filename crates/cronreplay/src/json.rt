//! Jobs as JSON: how they are printed, and whether they are read back.

use croner::Cron;
use croner_rows::{Caller, Fault, Job, Result, member, shown};
use serde_json::Value;
use std::alloc::Global;

/// The JSON of the job that a JSON value reads as.
pub fn json_again(alloc: Global, question: &Value) -> Result<Value> {
    let job = Job::new(Cron::from_json(alloc, member(question, "value")?)?);
    Ok(job.cron.to_json()?)
}

/// A job's JSON as it is printed, and whether the parser of the question reads an equal job with the same text from its
/// text; and the job afterwards.
pub fn reread(caller: Caller<'_>, question: &Value, after: &mut String) -> Result<Value> {
    let job = Job::read(caller.alloc, question)?;
    caller.begin();
    let json = job.cron.to_json();
    caller.end();
    shown::add_job(caller.alloc, &job.cron, after)?;
    printed_and_read(caller.alloc, question, &job.cron, &json?)
}

fn printed_and_read(alloc: Global, question: &Value, cron: &Cron, json: &Value) -> Result<Value> {
    let json = Value::String(json.to_string(alloc)?);
    let again = is_read_again(alloc, question, cron)?;
    let answer = format!(in alloc; "{{\"json\":{json},\"again\":{again}}}");
    shown::object(alloc, answer)
}

// A text that is refused is not read again.
fn is_read_again(alloc: Global, question: &Value, cron: &Cron) -> Result<bool> {
    match Job::of_text(alloc, question, cron.as_str()) {
        Ok(again) => Ok(again.cron == *cron && again.cron.as_str() == cron.as_str()),
        Err(Fault::Refused(_)) => Ok(false),
        Err(fault) => Err(fault),
    }
}
