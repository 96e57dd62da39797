//! When Debian's cron starts a line of a crontab, on the clock of a table.

use croner::time::Direction;
use croner::time::table::{ClockTable, TableTime};
use croner_rows::{
    Caller, Fault, Result, direction, member, number, number_at, shown, table_of, text,
};
use crontab::line::{Dialect, Entry, Job, entry_of};
use crontab_runs::{CrontabJob, Start, StartsEnd, next_starts_until};
use serde_json::Value;
use std::alloc::Global;

/// When cron starts the line of a question, on the clock of its member `zone`.
pub fn starts(caller: Caller<'_>, question: &Value) -> Result<Value> {
    let table = table_of(caller, member(question, "zone")?)?;
    starts_on(caller.alloc, question, &table)
}

fn starts_on(alloc: Global, question: &Value, table: &ClockTable) -> Result<Value> {
    let line = text(question, "line")?;
    let job = job_in_text(alloc, line)?;
    starts_of(alloc, question, table, &job)
}

// The job of a line of a user's crontab.
fn job_in_text(alloc: Global, line: &str) -> Result<CrontabJob> {
    let Entry::Job(line) = entry_of(alloc, Dialect::User, line.as_bytes())? else {
        return Err(Fault::Malformed);
    };
    job_of_line(alloc, &line)
}

fn job_of_line(alloc: Global, line: &Job<'_>) -> Result<CrontabJob> {
    CrontabJob::of_line(alloc, line)?.ok_or(Fault::Malformed)
}

// The starts after a second or up to it, or with `until` a listing up to there.
fn starts_of(
    alloc: Global,
    question: &Value,
    table: &ClockTable,
    job: &CrontabJob,
) -> Result<Value> {
    let start = TableTime::new(table, number_at(question, "start")?)?;
    let most: u32 = number_at(question, "count")?;
    match question.get("until") {
        Some(until) => listing(alloc, job, start, number(until)?, most),
        None => nearest_starts(alloc, job, start, direction(question)?, most),
    }
}

// At most so many starts, nearest first. Where none is left, null is the last.
fn nearest_starts(
    alloc: Global,
    job: &CrontabJob,
    from: TableTime<'_>,
    direction: Direction,
    most: u32,
) -> Result<Value> {
    let mut at = from;
    let mut found = Vec::new(alloc);
    for _ in 0..most {
        let Some(start) = nearest_start(job, &at, direction) else {
            found.push(Value::Null)?;
            break;
        };
        found.push(shown_start(alloc, start)?)?;
        at = TableTime::new(at.table(), second_after(start, direction))?;
    }
    Ok(Value::Array(found))
}

// The first start after a time, or the last up to it.
fn nearest_start(job: &CrontabJob, at: &TableTime<'_>, direction: Direction) -> Option<Start> {
    match direction {
        Direction::Forward => job.next_after(at),
        Direction::Backward => job.last_until(at),
    }
}

// The second from which a search goes on after a start.
fn second_after(start: Start, direction: Direction) -> i64 {
    match direction {
        Direction::Forward => start.second,
        Direction::Backward => start.second.saturating_sub(1),
    }
}

// The starts of a listing, and how it ended.
fn listing(
    alloc: Global,
    job: &CrontabJob,
    after: TableTime<'_>,
    until: i64,
    most: u32,
) -> Result<Value> {
    let (starts, end) = next_starts_until(alloc, job, after, Some(until), most)?;
    let mut found = Vec::new(alloc);
    for start in starts {
        found.push(shown_start(alloc, start)?)?;
    }
    shown::pair(alloc, Value::Array(found), shown_end(alloc, end)?)
}

fn shown_end(alloc: Global, end: StartsEnd) -> Result<Value> {
    match end {
        StartsEnd::Full => shown::text(alloc, "Full"),
        StartsEnd::Over => shown::text(alloc, "Over"),
        StartsEnd::Past(start) => shown_start(alloc, start),
    }
}

// Its second, and how many times the job is started there.
fn shown_start(alloc: Global, start: Start) -> Result<Value> {
    shown::pair(alloc, Value::from(start.second), Value::from(start.count))
}
