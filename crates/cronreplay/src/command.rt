//! Calls of the program `cronrun`.

use crate::writer::Failing;
use croner_rows::{Result, list, shown, word};
use cronrun_command::run;
use serde_json::Value;
use std::alloc::{AllocError, Global};

/// What `cronrun` answers to words: its status, and what its writers take.
pub fn cronrun(alloc: Global, question: &Value) -> Result<Value> {
    let words = words(alloc, list(question, "words")?)?;
    let mut out = Failing::new(alloc, question.get("out"))?;
    let mut err = Failing::new(alloc, question.get("err"))?;
    let status = run(alloc, words.as_slice(), &mut out, &mut err);
    answer(alloc, status, out.taken.as_slice(), err.taken.as_slice())
}

fn answer(alloc: Global, status: u8, out: &[u8], err: &[u8]) -> Result<Value> {
    let (out, err) = (written_value(alloc, out)?, written_value(alloc, err)?);
    let answer = format!(in alloc; "{{\"status\":{status},\"stdout\":{out},\"stderr\":{err}}}");
    shown::object(alloc, answer)
}

fn words(alloc: Global, items: &[Value]) -> Result<Vec<String>> {
    let mut words = Vec::new(alloc);
    for item in items {
        words.push(String::from_str(alloc, word(item)?)?)?;
    }
    Ok(words)
}

fn written_value(alloc: Global, bytes: &[u8]) -> Result<Value, AllocError> {
    Ok(Value::String(String::from_utf8_lossy(alloc, bytes)?))
}
