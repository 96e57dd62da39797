//! Searches and iterators over a backend that holds only the instants between two bounds, as the bounds are moved.

use croner::errors::CronError;
use croner::time::table::TableTime;
use croner_backends::NarrowTime;
use croner_rows::{
    Caller, How, Job, Result, Run, Runs, Subject, list, member, narrow_time, number_at, shown,
    switch, table_of,
};
use serde_json::Value;
use std::alloc::Global;

/// The answer for each two bounds; if the question says `once`, each answer once.
pub fn as_bounds_move(caller: Caller<'_>, question: &Value) -> Result<Value> {
    let job = Job::read(caller.alloc, question)?;
    let table = table_of(caller, member(question, "zone")?)?;
    let start = TableTime::new(&table, number_at(question, "start")?)?;
    answers_between(caller.alloc, question, Subject::Job(&job), start)
}

fn answers_between(
    alloc: Global,
    question: &Value,
    subject: Subject<'_>,
    start: TableTime<'_>,
) -> Result<Value> {
    let (how, once) = (How::read(question)?, switch(question, "once")?);
    let mut answers = Vec::new(alloc);
    for held in list(question, "bounds")? {
        let answer = answer_between(alloc, subject, how, narrow_time(start, held)?)?;
        if !once || !answers.contains(&answer) {
            answers.push(answer)?;
        }
    }
    Ok(Value::Array(answers))
}

// A search's answer if an iterator gives the same, or else both. An iterator that keeps a fault gives it again.
fn answer_between(
    alloc: Global,
    subject: Subject<'_>,
    how: How,
    start: NarrowTime<'_>,
) -> Result<Value> {
    let (direction, inclusive) = how.search();
    let found = found_value(alloc, subject.run_from(&start, inclusive, direction))?;
    let mut runs = Runs::new(subject, start, how)?;
    let given = given_value(alloc, &mut runs)?;
    let again = runs.fault().is_none() || runs.item(alloc)? == given;
    if given == found && again {
        return Ok(found);
    }
    shown::pair(alloc, found, given)
}

fn found_value(alloc: Global, found: Result<Run<NarrowTime<'_>>, CronError>) -> Result<Value> {
    match found {
        Ok(run) => run.shown(alloc),
        Err(error) => shown::refusal_value(alloc, &error),
    }
}

// The answer of a call. No item without a fault is the limit.
fn given_value(alloc: Global, runs: &mut Runs<'_, NarrowTime<'_>>) -> Result<Value> {
    match runs.item(alloc)? {
        Value::Null => shown::refusal_value(alloc, &CronError::TimeSearchLimitExceeded),
        answer => Ok(answer),
    }
}
