//! Parsers, questions about what was read, and new fields.

use croner::Cron;
use croner::errors::CronError;
use croner::parser::CronParser;
use croner_rows::{
    Caller, Job, Result, are_alike, civil_value, member, new_component, read_parser, shown,
};
use jiff::civil::DateTime;
use serde_json::Value;

/// A new field.
pub fn new_field(caller: Caller<'_>, question: &Value) -> Result<Value> {
    let new = member(question, "new")?;
    caller.begin();
    let field = new_component(caller.alloc, new);
    caller.end();
    let field = field?;
    let text = shown::field(caller.alloc, &field);
    drop(field);
    shown::json(caller.alloc, text?.as_bytes())
}

/// A parser built from settings: how it compares with a new one.
pub fn parser(caller: Caller<'_>, question: &Value) -> Result<Value> {
    caller.begin();
    let built = read_parser(question);
    let new = CronParser::new();
    caller.end();
    shown::text(caller.alloc, shown::ordering(built?.cmp(&new)))
}

/// Questions about a job and a date and time that take no memory: whether the job names it, the kind of job, whether the fields
/// have their shapes, and the three flags. Also whether the pattern is equal to itself, has the same hash and has the job's
/// text. Then both day fields must match.
pub fn questions(caller: Caller<'_>, question: &Value, after: &mut String) -> Result<Value> {
    let at = civil_value(question, "at")?;
    let mut job = Job::read(caller.alloc, question)?;
    let answer = match_answer(caller, &job.cron, &at);
    caller.begin();
    job.cron.pattern.set_flags(false, false, true);
    caller.end();
    shown::add_job(caller.alloc, &job.cron, after)?;
    answer
}

fn match_answer(caller: Caller<'_>, cron: &Cron, at: &DateTime) -> Result<Value> {
    let pattern = &cron.pattern;
    caller.begin();
    let matching = is_true(&cron.is_time_matching(at));
    let kind = shown::job_type(cron.determine_job_type());
    let shapes = pattern.has_field_shapes();
    let (day, weekday) = (pattern.is_dom_wildcard(), pattern.is_dow_wildcard());
    let and = pattern.matches_dom_and_dow();
    let same = are_alike(pattern, pattern) && cron.as_str() == pattern.as_str();
    caller.end();
    let text = format!(in caller.alloc;
        "[{matching},\"{kind}\",{shapes},{day},{weekday},{and},{same}]"
    );
    shown::object(caller.alloc, text)
}

fn is_true(answer: &Result<bool, CronError>) -> bool {
    matches!(answer, Ok(true))
}
