//! Why a text is refused: the message of `parse` and the fault of `explain`, and what the message suggests.

use crate::values::values;
use croner::errors::CronError;
use croner::parser::{FaultKind, PatternFault};
use croner_rows::{Caller, Fault, Job, Result, read_parser, shown, text};
use serde_json::Value;
use std::alloc::Global;

/// The place of the fault in bytes, and the message of a refused text; `"accepted"` where neither `explain` nor `parse` refuses it.
pub fn explain(caller: Caller<'_>, question: &Value) -> Result<Value> {
    let (parser, text) = (read_parser(question)?, text(question, "text")?);
    let alloc = caller.alloc;
    caller.begin();
    let explained = parser.explain(alloc, text);
    caller.end();
    match (explained?, Job::of_text(alloc, question, text)) {
        (Some(fault), Err(Fault::Refused(error))) => told_message(alloc, &fault, &error),
        (None, Ok(_)) => shown::text(alloc, "accepted"),
        (Some(_), Ok(_)) => shown::text(alloc, "refused by explain alone"),
        (None, Err(Fault::Refused(_))) => shown::text(alloc, "refused by parse alone"),
        (_, Err(fault)) => Err(fault),
    }
}

// The message of `parse`, if its error is of the fault's kind and it contains what the fault says.
fn told_message(alloc: Global, fault: &PatternFault, error: &CronError) -> Result<Value> {
    if !is_kind(error, fault.kind) {
        return shown::text(alloc, "of another kind");
    }
    let (said, message) = (fault.to_string(alloc)?, error.to_string(alloc)?);
    if fault.kind != FaultKind::EmptyPattern && !message.contains(said.as_str()) {
        return Ok(Value::String(said));
    }
    let (start, end, message) = (fault.start, fault.end, Value::String(message));
    let answer = format!(in alloc; "{{\"start\":{start},\"end\":{end},\"message\":{message}}}");
    shown::object(alloc, answer)
}

fn is_kind(error: &CronError, kind: FaultKind) -> bool {
    match error {
        CronError::EmptyPattern => kind == FaultKind::EmptyPattern,
        CronError::InvalidPattern(_) => kind == FaultKind::InvalidPattern,
        CronError::IllegalCharacters(_) => kind == FaultKind::IllegalCharacters,
        CronError::ComponentError(_) => kind == FaultKind::ComponentError,
        _ => false,
    }
}

/// What is suggested for a refused text, and the values of a field with it in the fault's place; null where nothing is suggested.
pub fn suggest(alloc: Global, question: &Value) -> Result<Value> {
    let text = text(question, "text")?;
    let Some(fault) = read_parser(question)?.explain(alloc, text)? else {
        return shown::text(alloc, "accepted");
    };
    let said = fault.to_string(alloc)?;
    match suggestion_in(said.as_str()) {
        None => Ok(Value::Null),
        Some(suggestion) => followed_suggestion(alloc, question, &fault, suggestion),
    }
}

// What stands between `write ` and the end of its clause.
fn suggestion_in(said: &str) -> Option<&str> {
    let (_, rest) = said.split_once(": write ")?;
    let rest = rest.strip_suffix('.').unwrap_or(rest);
    match rest.split_once(", or let") {
        Some((suggestion, _)) => Some(suggestion),
        None => Some(rest),
    }
}

fn followed_suggestion(
    alloc: Global,
    question: &Value,
    fault: &PatternFault,
    suggestion: &str,
) -> Result<Value> {
    let text = text(question, "text")?;
    let front = text.get(..fault.start).ok_or(Fault::Malformed)?;
    let rest = text.get(fault.end..).ok_or(Fault::Malformed)?;
    let mended = format!(in alloc; "{front}{suggestion}{rest}")?;
    let job = Job::of_text(alloc, question, mended.as_str())?;
    let values = values(alloc, question, job)?;
    let suggestion = shown::text(alloc, suggestion)?;
    let answer = format!(in alloc; "{{\"suggestion\":{suggestion},\"values\":{values}}}");
    shown::object(alloc, answer)
}
