//! Texts and JSON values that are read, and descriptions.

use crate::{Caller, Fault, Job, Result, member, read_parser, shown, text, whole_text};
use croner::describe::lang::swedish::Swedish;
use croner::{Cron, CronPattern};
use croner_backends::{OwnYears, TwelveHours};
use serde_json::Value;
use std::alloc::Global;

/// The job that the text of a question is read as.
pub fn parse(caller: Caller<'_>, question: &Value) -> Result<Value> {
    let (parser, text) = (read_parser(question)?, whole_text(caller.alloc, question)?);
    caller.begin();
    let read = parser.parse(caller.alloc, text.as_str());
    caller.end();
    held_by(caller.alloc, &Job::new(read?))
}

// What a job that was read holds.
fn held_by(alloc: Global, job: &Job) -> Result<Value> {
    let text = shown::job(alloc, &job.cron)?;
    shown::json(alloc, text.as_bytes())
}

/// The job that the JSON value of a question is read as, and the value afterwards.
pub fn from_json(caller: Caller<'_>, question: &Value, after: &mut String) -> Result<Value> {
    let value = member(question, "value")?;
    caller.begin();
    let read = Cron::from_json(caller.alloc, value);
    caller.end();
    write!(after, "{value}")?;
    held_by(caller.alloc, &Job::new(read?))
}

/// The text of a pattern that is made with it, but not parsed.
pub fn unparsed_text(caller: Caller<'_>, question: &Value) -> Result<Value> {
    let text = text(question, "text")?;
    caller.begin();
    let made = CronPattern::new(caller.alloc, text);
    caller.end();
    let job = Job::new(Cron { pattern: made? });
    shown::text(caller.alloc, job.cron.as_str())
}

fn description_of(cron: &Cron, language: &str) -> Result<String> {
    match language {
        "english" => Ok(cron.describe()?),
        "swedish" => Ok(cron.describe_lang(Swedish)?),
        "twelve_hours" => Ok(cron.describe_lang(TwelveHours)?),
        "own_years" => Ok(cron.describe_lang(OwnYears)?),
        _ => Err(Fault::Malformed),
    }
}

/// The description of a job in a language, and the job afterwards.
pub fn describe(caller: Caller<'_>, question: &Value, after: &mut String) -> Result<Value> {
    let language = text(question, "language")?;
    let job = Job::read(caller.alloc, question)?;
    caller.begin();
    let text = description_of(&job.cron, language);
    caller.end();
    shown::add_job(caller.alloc, &job.cron, after)?;
    Ok(Value::String(text?))
}
