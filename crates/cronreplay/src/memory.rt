//! Cases of calls that ask for memory, for the script `memory` at the top, which has the requests refused.

use crate::question::make_calls;
use croner::errors::CronError;
use croner_rows::shown::{bare, json, refusal};
use croner_rows::{Caller, Fault, Result};
use serde_json::Value;
use std::alloc::Global;

/// Answers each line of standard input, which is a question. It prepares, makes the calls between marks on standard error, and
/// prints two lines. The first is what the calls answered. The second is what they were lent, as it is afterwards, or what an
/// iterator gives when asked again.
pub fn answer_cases(rt: &HostRuntime) -> Result<bool> {
    for line in rt.lines(rt.alloc()) {
        let line = line?;
        answer_case(rt, line.as_str())?;
    }
    Ok(true)
}

fn answer_case(rt: &HostRuntime, line: &str) -> Result<()> {
    let case = json(rt.alloc(), line.as_bytes())?;
    let mut after = String::new(rt.alloc());
    let answer = make_calls(Caller::new(rt).with_marks(), &case, &mut after);
    let answer = text_of_answer(rt.alloc(), answer)?;
    println!(rt; "{answer}")?;
    println!(rt; "{after}")?;
    Ok(())
}

// An answer as a text, or the name of the refusal.
fn text_of_answer(alloc: Global, answer: Result<Value>) -> Result<String> {
    match answer {
        Ok(answer) => bare(alloc, answer),
        Err(Fault::Refused(error)) => Ok(String::from_str(alloc, refusal(&error))?),
        Err(Fault::OutOfMemory) => Ok(String::from_str(alloc, refusal(&CronError::OutOfMemory))?),
        Err(fault) => Err(fault),
    }
}
