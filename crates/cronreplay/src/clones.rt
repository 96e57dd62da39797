//! Copies of each type that holds memory.

use crate::searches::job_texts;
use croner::crontable::CronTable;
use croner::errors::CronError;
use croner::time::Resolution;
use croner::{Cron, CronComponent, CronPattern};
use croner_rows::{
    Caller, Fault, How, Job, Moment, OverTime, Result, Runs, Subject, Table, add_time, instants,
    over_time, read_field, shown, text,
};
use serde_json::Value;
use std::alloc::{AllocError, Global};

// What is copied, and shown as a text.
trait Shown: Clone + Drop {
    fn text(&self, alloc: Global) -> Result<String>;
}

impl Shown for CronComponent {
    fn text(&self, alloc: Global) -> Result<String> {
        shown::field(alloc, self)
    }
}

impl Shown for CronPattern {
    fn text(&self, alloc: Global) -> Result<String> {
        shown::pattern(alloc, self)
    }
}

impl Shown for Cron {
    fn text(&self, alloc: Global) -> Result<String> {
        shown::job(alloc, self)
    }
}

impl Shown for CronTable {
    fn text(&self, alloc: Global) -> Result<String> {
        Ok(job_texts(alloc, self, self.len())?.to_string(alloc)?)
    }
}

// Its message.
impl Shown for CronError {
    fn text(&self, alloc: Global) -> Result<String> {
        Ok(self.to_string(alloc)?)
    }
}

impl<T: Moment> Shown for Resolution<T> {
    fn text(&self, alloc: Global) -> Result<String> {
        let instants = instants(alloc, self)?;
        Ok(instants.to_string(alloc)?)
    }
}

fn copy_original<S: Shown>(caller: Caller<'_>, original: &S, after: &mut String) -> Result<Value> {
    caller.begin();
    let copy: Result<S, AllocError> = original.clone();
    caller.end();
    let text = original.text(caller.alloc)?;
    after.push_str(text.as_str())?;
    shown_copy(caller.alloc, copy?)
}

fn shown_copy<S: Shown>(alloc: Global, copy: S) -> Result<Value> {
    let text = copy.text(alloc);
    drop(copy);
    Ok(Value::String(text?))
}

/// A copy, and afterwards what was copied. The kind is what follows `clone_of_` in the operation.
pub fn clone_of(
    caller: Caller<'_>,
    question: &Value,
    kind: &str,
    after: &mut String,
) -> Result<Value> {
    match kind {
        "field" => copy_original(caller, &read_field(caller.alloc, question)?, after),
        "table" => copy_original(caller, &Table::read(caller.alloc, question)?.jobs, after),
        "error" => error_clone(caller, question, after),
        "time" => over_time(caller, question, &CopyOfTime, after),
        "resolution" => over_time(caller, question, &CopyOfResolution, after),
        kind => clone_of_job(caller, question, kind, after),
    }
}

fn clone_of_job(
    caller: Caller<'_>,
    question: &Value,
    kind: &str,
    after: &mut String,
) -> Result<Value> {
    let job = Job::read(caller.alloc, question)?;
    match kind {
        "job" => copy_original(caller, &job.cron, after),
        "pattern" => copy_original(caller, &job.cron.pattern, after),
        "iterator" => over_time(caller, question, &CopyOfIterator(&job), after),
        _ => Err(Fault::Unsupported),
    }
}

// A copy of the refusal of a text: its message.
fn error_clone(caller: Caller<'_>, question: &Value, after: &mut String) -> Result<Value> {
    match Job::of_text(caller.alloc, question, text(question, "text")?) {
        Err(Fault::Refused(error)) => copy_original(caller, &error, after),
        Err(fault) => Err(fault),
        Ok(_) => Err(Fault::Malformed),
    }
}

// A time that is copied.
#[derive(Clone, Copy)]
struct CopyOfTime;

impl OverTime for CopyOfTime {
    fn answer<T: Moment>(&self, caller: Caller<'_>, time: T, after: &mut String) -> Result<Value> {
        caller.begin();
        let copy: Result<T, AllocError> = time.clone();
        caller.end();
        add_time(caller.alloc, &time, after)?;
        copy?.shown(caller.alloc)
    }
}

// The instants of what a time shows, which are copied.
#[derive(Clone, Copy)]
struct CopyOfResolution;

impl OverTime for CopyOfResolution {
    fn answer<T: Moment>(&self, caller: Caller<'_>, time: T, after: &mut String) -> Result<Value> {
        let shown = time.resolve_civil(caller.alloc, time.to_civil())?;
        copy_original(caller, &shown, after)
    }
}

// An iterator over a job's runs, copied after its first call: the fault and the next item of each.
#[derive(Clone, Copy)]
struct CopyOfIterator<'j>(&'j Job);

impl<'j> OverTime for CopyOfIterator<'j> {
    fn answer<T: Moment>(&self, caller: Caller<'_>, start: T, after: &mut String) -> Result<Value> {
        let mut runs = Runs::new(Subject::Job(self.0), start, How::After)?;
        let _ = runs.next();
        caller.begin();
        let copy = runs.copied();
        caller.end();
        add_fault_and_item(caller.alloc, &mut runs, after)?;
        let mut text = String::new(caller.alloc);
        add_fault_and_item(caller.alloc, &mut copy?, &mut text)?;
        Ok(Value::String(text))
    }
}

// Adds the fault that an iterator keeps, and the item that it gives then.
fn add_fault_and_item<T: Moment>(
    alloc: Global,
    runs: &mut Runs<'_, T>,
    text: &mut String,
) -> Result<()> {
    let fault = runs.fault_name();
    let item = runs.item(alloc)?;
    Ok(write!(text, "{fault} {item}")?)
}
