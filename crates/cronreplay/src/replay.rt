//! The replay: the question of each line is answered, and its answer held against the wanted one.

use crate::question::make_calls;
use croner::errors::CronError;
use croner_rows::{Caller, Fault, Result, member, shown};
use serde_json::Value;
use std::alloc::Global;
use std::io;
use std::io::{BufRead, BufReader, Write};

/// How many lines there were, how many of them differ or are malformed, and how many ask for an unknown operation.
#[derive(Clone, Copy, Default)]
pub struct Counts {
    pub lines: u64,
    pub differing: u64,
    pub unsupported: u64,
}

/// Answers each line of standard input, and prints those that differ and those that are malformed.
pub fn replay_lines<W: Write>(caller: Caller<'_>, out: &mut W) -> Result<Counts> {
    let mut input = BufReader::new(caller.alloc, caller.rt.stdin())?;
    let mut counts = Counts::default();
    let mut line = Vec::new(caller.alloc);
    for _ in 0..u64::MAX {
        line.clear();
        if input.read_until(b'\n', &mut line)? == 0 {
            break;
        }
        counts.lines = counts.lines.saturating_add(1);
        judge(caller, out, line.as_slice(), &mut counts)?;
    }
    Ok(counts)
}

// Counts a line, and prints it where it differs or is malformed.
fn judge<W: Write>(
    caller: Caller<'_>,
    out: &mut W,
    line: &[u8],
    counts: &mut Counts,
) -> Result<()> {
    match difference(caller, line) {
        Ok(None) => Ok(()),
        Ok(Some(text)) => Ok(print(out, counts, text.as_str())?),
        Err(Fault::Malformed) => Ok(print(out, counts, "malformed")?),
        Err(Fault::Unsupported) => {
            counts.unsupported = counts.unsupported.saturating_add(1);
            Ok(())
        }
        Err(fault) => Err(fault),
    }
}

fn print<W: Write>(out: &mut W, counts: &mut Counts, text: &str) -> io::Result<()> {
    counts.differing = counts.differing.saturating_add(1);
    let number = counts.lines;
    writeln!(out, "line {number}: {text}")
}

// The answer of a line and the wanted one, where they differ.
fn difference(caller: Caller<'_>, line: &[u8]) -> Result<Option<String>> {
    let question = shown::json(caller.alloc, line)?;
    let want = member(&question, "want")?;
    let got = answer(caller, &question)?;
    if is_wanted(&got, want) {
        return Ok(None);
    }
    Ok(Some(format!(in caller.alloc; "got {got}, want {want}")?))
}

// The answer of a question; if the library refuses it, the refusal.
fn answer(caller: Caller<'_>, question: &Value) -> Result<Value> {
    match make_calls(caller, question, &mut String::new(caller.alloc)) {
        Err(Fault::Refused(error)) => refusal_wanted(caller.alloc, question, &error),
        answered => answered,
    }
}

// Whether an answer is the wanted one. A `stderr` that is wanted with a space at its end says only how it begins.
fn is_wanted(got: &Value, want: &Value) -> bool {
    match (stderr(got), stderr(want)) {
        (Some(text), Some(start)) if start.ends_with(' ') => {
            text.starts_with(start) && is_same(got, want, "status") && is_same(got, want, "stdout")
        }
        _ => *got == *want,
    }
}

// A refusal as the question wants it: the name of its variant, or, if the member `message` is `"whole"`, the message. If that
// member is a number of bytes, it is the name if the message has no more bytes, or else how many it has.
fn refusal_wanted(alloc: Global, question: &Value, error: &CronError) -> Result<Value> {
    match question.get("message") {
        None => shown::refusal_value(alloc, error),
        Some(form) => message_or_length(alloc, form.as_u64(), error),
    }
}

fn message_or_length(alloc: Global, most: Option<u64>, error: &CronError) -> Result<Value> {
    let message = error.to_string(alloc)?;
    let bytes = message.len() as u64;
    match most {
        None => Ok(Value::String(message)),
        Some(most) if bytes <= most => shown::refusal_value(alloc, error),
        Some(_) => Ok(Value::from(bytes)),
    }
}

fn stderr(answer: &Value) -> Option<&str> {
    answer.get("stderr")?.as_str()
}

fn is_same(got: &Value, want: &Value, name: &str) -> bool {
    match (got.get(name), want.get(name)) {
        (Some(got), Some(want)) => *got == *want,
        _ => false,
    }
}
