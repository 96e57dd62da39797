//! Summaries of jobs: their texts, and their data.

use croner::errors::CronError;
use croner_rows::{Caller, Fault, Job, Result, shown, text};
use croner_summary::{Summary, SummaryLanguage};
use serde_json::Value;
use std::alloc::{AllocError, Global};

/// The texts of the summary of a job in both languages, and whether they leave nothing out.
pub fn summary(alloc: Global, question: &Value) -> Result<Value> {
    let summary = summary_of(alloc, question)?;
    let english = text_in(alloc, &summary, &SummaryLanguage::English)?;
    let swedish = text_in(alloc, &summary, &SummaryLanguage::Swedish)?;
    let whole = summary.is_whole(alloc, &SummaryLanguage::English)?;
    let answer = format!(in alloc;
        "{{\"english\":{english},\"swedish\":{swedish},\"whole\":{whole}}}"
    );
    shown::object(alloc, answer)
}

fn summary_of(alloc: Global, question: &Value) -> Result<Summary> {
    let job = Job::read(alloc, question)?;
    Ok(Summary::of(alloc, &job.cron)?)
}

fn text_in(
    alloc: Global,
    summary: &Summary,
    language: &SummaryLanguage,
) -> Result<Value, CronError> {
    Ok(Value::String(summary.text(alloc, language)?))
}

/// The summary of a job, as data, and the job afterwards.
pub fn data(caller: Caller<'_>, question: &Value, after: &mut String) -> Result<Value> {
    let job = Job::read(caller.alloc, question)?;
    caller.begin();
    let summary = Summary::of(caller.alloc, &job.cron);
    caller.end();
    shown::add_job(caller.alloc, &job.cron, after)?;
    let mut text = String::new(caller.alloc);
    add_data(&summary?, &mut text)?;
    Ok(Value::String(text))
}

fn add_data(summary: &Summary, text: &mut String) -> Result<(), AllocError> {
    write!(text, "{summary:?}")
}

/// What a call of a summary answers: its text in a language, that it is shown with, or whether the text in a language leaves nothing
/// out; and the summary afterwards.
pub fn call_of_summary(
    caller: Caller<'_>,
    question: &Value,
    call: &str,
    after: &mut String,
) -> Result<Value> {
    let summary = summary_of(caller.alloc, question)?;
    let answer = match call {
        "text" => told(caller, &summary, &language_of(question)?),
        "display" => displayed(caller, &summary),
        "is_whole" => is_told_whole(caller, &summary, &language_of(question)?),
        _ => Err(Fault::Unsupported),
    };
    add_data(&summary, after)?;
    answer
}

fn language_of(question: &Value) -> Result<SummaryLanguage> {
    match text(question, "language")? {
        "english" => Ok(SummaryLanguage::English),
        "swedish" => Ok(SummaryLanguage::Swedish),
        _ => Err(Fault::Malformed),
    }
}

fn told(caller: Caller<'_>, summary: &Summary, language: &SummaryLanguage) -> Result<Value> {
    caller.begin();
    let text = text_in(caller.alloc, summary, language);
    caller.end();
    Ok(text?)
}

fn displayed(caller: Caller<'_>, summary: &Summary) -> Result<Value> {
    caller.begin();
    let text = format!(in caller.alloc; "{summary}");
    caller.end();
    Ok(Value::String(text?))
}

fn is_told_whole(
    caller: Caller<'_>,
    summary: &Summary,
    language: &SummaryLanguage,
) -> Result<Value> {
    caller.begin();
    let is_whole = summary.is_whole(caller.alloc, language);
    caller.end();
    Ok(Value::Bool(is_whole?))
}
