//! The laws whose calls take memory, each once with enough of it.

use croner::CronIterator;
use croner::describe::lang::english::English;
use croner::laws::equality::equal_and_described;
use croner::laws::listing::{items_in_order, next_runs, there_and_back};
use croner::laws::rereading::read_twice;
use croner::time::Direction;
use croner::time::table::TableTime;
use croner_backends::laws::listings::{next_boxed_runs, next_narrow_runs};
use croner_backends::laws::searches::{nearest_boxed_run, nearest_narrow_run};
use croner_backends::{BoxedTime, NarrowTime};
use croner_rows::shown::times;
use croner_rows::{
    Caller, Fault, How, Job, Moment, Result, Runs, Subject, civil_value, member, narrow_time,
    number_at, read_parser, shown, table_of, text,
};
use jiff::civil::DateTime;
use serde_json::Value;
use std::alloc::Global;

/// How many calls a law of iterators makes.
const CALLS: u32 = 3;

/// What the law of a question gives.
pub fn law(caller: Caller<'_>, question: &Value) -> Result<Value> {
    let alloc = caller.alloc;
    match text(question, "law")? {
        "read_twice" => texts_read(alloc, question),
        "equal_and_described" => descriptions(alloc, question),
        name => law_of_job(caller, question, name, &Job::read(alloc, question)?),
    }
}

// The text that a job keeps, and that of the job read from it.
fn texts_read(alloc: Global, question: &Value) -> Result<Value> {
    let (first, second) = read_twice(&read_parser(question)?, alloc, text(question, "text")?)?;
    let (first, second) = (Job::new(first), Job::new(second));
    let first = shown::text(alloc, first.cron.as_str())?;
    let second = shown::text(alloc, second.cron.as_str())?;
    shown::pair(alloc, first, second)
}

// Whether two jobs are equal, and the description of each.
fn descriptions(alloc: Global, question: &Value) -> Result<Value> {
    let a = Job::read(alloc, member(question, "a")?)?;
    let b = Job::read(alloc, member(question, "b")?)?;
    let (equal, a, b) = equal_and_described(alloc, &a.cron, &b.cron, &English)?;
    let (a, b) = (Value::String(a), Value::String(b));
    let answer = format!(in alloc; "{{\"eq\":{equal},\"a\":{a},\"b\":{b}}}");
    shown::object(alloc, answer)
}

fn law_of_job(caller: Caller<'_>, question: &Value, name: &str, job: &Job) -> Result<Value> {
    let alloc = caller.alloc;
    match name {
        "next_runs" => runs(alloc, job, civil_value(question, "start")?),
        "items_in_order" => order(alloc, job, civil_value(question, "start")?),
        "there_and_back" => next_and_back(alloc, job, &civil_value(question, "start")?),
        _ => over_backend(caller, question, name, job),
    }
}

// The runs after a start, and whether they are all.
fn runs(alloc: Global, job: &Job, start: DateTime) -> Result<Value> {
    let mut runs = Runs::new(Subject::Job(job), start, How::After)?;
    let (runs, is_over) = next_runs(alloc, iterator(&mut runs)?, CALLS)?;
    let runs = times(alloc, runs.as_slice())?;
    shown::pair(alloc, runs, Value::Bool(is_over))
}

// The runs before a start, and how each compares with the one before it.
fn order(alloc: Global, job: &Job, start: DateTime) -> Result<Value> {
    let mut runs = Runs::new(Subject::Job(job), start, How::Before)?;
    let (runs, orders) = items_in_order(alloc, iterator(&mut runs)?, CALLS)?;
    let runs = times(alloc, runs.as_slice())?;
    let mut shown = Vec::new(alloc);
    for order in orders {
        shown.push(shown::text(alloc, shown::ordering(order))?)?;
    }
    shown::pair(alloc, runs, Value::Array(shown))
}

// The next run after a run, and the one before that.
fn next_and_back(alloc: Global, job: &Job, run: &DateTime) -> Result<Value> {
    let (there, back) = there_and_back(&job.cron, run)?;
    times(alloc, [there, back?].as_slice())
}

fn iterator<'r, T: Moment>(runs: &'r mut Runs<'_, T>) -> Result<&'r mut CronIterator<T>> {
    match runs {
        Runs::OfJob(runs) => Ok(runs),
        Runs::OfTable(_) => Err(Fault::Malformed),
    }
}

// The run before a start, and the runs after it, over a backend of the tests.
fn over_backend(caller: Caller<'_>, question: &Value, name: &str, job: &Job) -> Result<Value> {
    let (alloc, zone) = (caller.alloc, member(question, "zone")?);
    let table = table_of(caller, zone)?;
    let start = TableTime::new(&table, number_at(question, "start")?)?;
    match name {
        "boxed" => boxed(alloc, job, BoxedTime::new(alloc, start)?),
        "narrow" => narrow(alloc, job, narrow_time(start, member(zone, "held")?)?),
        _ => Err(Fault::Malformed),
    }
}

fn boxed(alloc: Global, job: &Job, start: BoxedTime<'_>) -> Result<Value> {
    let previous = nearest_boxed_run(&job.cron, &start, false, Direction::Backward)?;
    let previous = previous.shown(alloc)?;
    let mut runs = Runs::new(Subject::Job(job), start, How::After)?;
    let (runs, _) = next_boxed_runs(alloc, iterator(&mut runs)?, CALLS)?;
    let runs = times(alloc, runs.as_slice())?;
    shown::pair(alloc, previous, runs)
}

fn narrow(alloc: Global, job: &Job, start: NarrowTime<'_>) -> Result<Value> {
    let previous = nearest_narrow_run(&job.cron, &start, false, Direction::Backward)?;
    let previous = previous.shown(alloc)?;
    let mut runs = Runs::new(Subject::Job(job), start, How::After)?;
    let (runs, _) = next_narrow_runs(alloc, iterator(&mut runs)?, CALLS)?;
    let runs = times(alloc, runs.as_slice())?;
    shown::pair(alloc, previous, runs)
}
