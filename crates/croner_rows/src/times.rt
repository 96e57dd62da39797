//! Calls of a time: whether a job names it, which instants show a second, and the instant a number of seconds later.

use crate::{
    Caller, Job, Moment, OverTime, Result, civil, civil_value, number_at, over_time, shown,
};
use croner::time::{CivilDateTime, Resolution};
use serde_json::Value;
use std::alloc::Global;

// Whether a job names a time.
#[derive(Clone, Copy)]
struct Naming<'j>(&'j Job);

impl<'j> OverTime for Naming<'j> {
    fn answer<T: Moment>(&self, caller: Caller<'_>, time: T, after: &mut String) -> Result<Value> {
        caller.begin();
        let answer = self.0.cron.is_time_matching(&time);
        caller.end();
        add_time_and_job(caller.alloc, &time, self.0, after)?;
        Ok(Value::Bool(answer?))
    }
}

/// Adds a time and a job to a text.
pub fn add_time_and_job<T: Moment>(
    alloc: Global,
    time: &T,
    job: &Job,
    text: &mut String,
) -> Result<()> {
    add_time(alloc, time, text)?;
    text.push_str(" ")?;
    shown::add_job(alloc, &job.cron, text)
}

/// Adds a time to a text, without quotes.
pub fn add_time<T: Moment>(alloc: Global, time: &T, text: &mut String) -> Result<()> {
    let time = shown::bare(alloc, time.shown(alloc)?)?;
    Ok(text.push_str(time.as_str())?)
}

/// Whether a job names the start of a question, or, if there is none, its date and time `at` in civil time.
pub fn matching(caller: Caller<'_>, question: &Value, after: &mut String) -> Result<Value> {
    let job = Job::read(caller.alloc, question)?;
    match question.get("at") {
        None => over_time(caller, question, &Naming(&job), after),
        Some(_) => Naming(&job).answer(caller, civil_value(question, "at")?, after),
    }
}

// A date and time that is resolved on the clock of a time.
#[derive(Clone, Copy)]
struct Resolving(CivilDateTime);

impl OverTime for Resolving {
    fn answer<T: Moment>(&self, caller: Caller<'_>, time: T, after: &mut String) -> Result<Value> {
        caller.begin();
        let found = time.resolve_civil(caller.alloc, self.0);
        caller.end();
        add_time(caller.alloc, &time, after)?;
        instants(caller.alloc, &found?)
    }
}

/// The instants that a date and time names, ascending.
pub fn instants<T: Moment>(alloc: Global, found: &Resolution<T>) -> Result<Value> {
    let mut instants = Vec::new(alloc);
    match found {
        Resolution::Gap => {}
        Resolution::Single(instant) => instants.push(instant.shown(alloc)?)?,
        Resolution::Ambiguous(earlier, later) => {
            instants.push(earlier.shown(alloc)?)?;
            instants.push(later.shown(alloc)?)?;
        }
    }
    Ok(Value::Array(instants))
}

/// The instants of a date and time, and the start of the question afterwards.
pub fn resolve(caller: Caller<'_>, question: &Value, after: &mut String) -> Result<Value> {
    let at = civil(question, "at")?;
    over_time(caller, question, &Resolving(at), after)
}

// A time so many seconds on.
#[derive(Clone, Copy)]
struct Adding(i64);

impl OverTime for Adding {
    fn answer<T: Moment>(&self, caller: Caller<'_>, time: T, after: &mut String) -> Result<Value> {
        caller.begin();
        let sum = time.checked_add_seconds(caller.alloc, self.0);
        caller.end();
        add_time(caller.alloc, &time, after)?;
        match sum? {
            Some(time) => time.shown(caller.alloc),
            None => Ok(Value::Null),
        }
    }
}

/// The instant a number of seconds later, or null, and the start of the question afterwards.
pub fn add(caller: Caller<'_>, question: &Value, after: &mut String) -> Result<Value> {
    let seconds = number_at(question, "seconds")?;
    over_time(caller, question, &Adding(seconds), after)
}
