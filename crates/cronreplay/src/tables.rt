//! Tables of patterns: what they hold, how they change, and listings that are resumed.

use crate::searches::job_texts;
use croner::Cron;
use croner::crontable::{CronTable, CronTableIterator};
use croner::errors::CronError;
use croner::laws::crontable::{next_table_runs, resume_table_after};
use croner::time::Direction;
use croner_rows::{
    Caller, Fault, Job, Moment, Result, Run, Runs, Table, civil_value, number_at, shown,
};
use jiff::civil::DateTime;
use serde_json::Value;
use std::alloc::Global;

/// How many jobs a table has, and how many bytes their texts have in total; whether it is empty, and whether a new one is; the text of
/// the job at a place, or null; and whether an iterator over it has a fault from the beginning.
pub fn place(caller: Caller<'_>, question: &Value) -> Result<Value> {
    let table = Table::read(caller.alloc, question)?;
    held_at(caller, &table.jobs, number_at(question, "place")?)
}

fn held_at(caller: Caller<'_>, table: &CronTable, place: usize) -> Result<Value> {
    caller.begin();
    let is_new_empty = CronTable::new(caller.alloc).is_empty();
    let (count, is_empty, job) = (table.len(), table.is_empty(), table.get(place));
    let (bytes, faults) = (bytes_of(table), has_faults(table));
    caller.end();
    let text = match job {
        Some(job) => shown::text(caller.alloc, job.as_str())?,
        None => Value::Null,
    };
    let answer = format!(in caller.alloc;
        "{{\"count\":{count},\"bytes\":{bytes},\"is_empty\":{is_empty},\"is_new_empty\":{is_new_empty},\"text\":{text},\"faults\":{faults}}}"
    );
    shown::object(caller.alloc, answer)
}

fn bytes_of(table: &CronTable) -> usize {
    let mut bytes: usize = 0;
    for job in table.iter() {
        bytes = bytes.saturating_add(job.as_str().len());
    }
    bytes
}

fn has_faults(table: &CronTable) -> bool {
    let start = DateTime::MIN;
    let after = has_fault(&table.iter_after(start));
    let before = has_fault(&table.iter_before(start));
    let from = has_fault(&table.iter_from(start, Direction::Backward));
    after || before || from
}

fn has_fault<T: Moment>(runs: &CronTableIterator<'_, T>) -> bool {
    runs.fault().is_some()
}

/// One more job in a table, that of `text`. Afterwards the texts of the jobs that were there before, and whether there are as many jobs
/// as the answer says.
pub fn push(caller: Caller<'_>, question: &Value, after: &mut String) -> Result<Value> {
    let mut table = Table::read(caller.alloc, question)?;
    let job = Job::read(caller.alloc, question)?.into_cron();
    push_to(caller, &mut table.jobs, job, after)
}

fn push_to(
    caller: Caller<'_>,
    table: &mut CronTable,
    job: Cron,
    after: &mut String,
) -> Result<Value> {
    let before = table.len();
    caller.begin();
    let place = table.push(job);
    caller.end();
    let more = table.len() - before.min(table.len());
    let is_told = more == usize::from(place.is_ok());
    let texts = job_texts(caller.alloc, table, before)?;
    write!(after, "{texts} {is_told}")?;
    Ok(Value::from(place?))
}

/// The text of the job that a change returns, those of the jobs then in the table, in order, and the places of the next run
/// after a start.
pub fn change(caller: Caller<'_>, question: &Value) -> Result<Value> {
    let mut table = Table::read(caller.alloc, question)?;
    let out = table.change(caller, question)?;
    changed(caller.alloc, question, &table.jobs, &out)
}

fn changed(alloc: Global, question: &Value, table: &CronTable, out: &Option<Job>) -> Result<Value> {
    let (out, jobs) = (job_text(alloc, out)?, job_texts(alloc, table, table.len())?);
    let next = next_places(alloc, question, table)?;
    let answer = format!(in alloc; "{{\"out\":{out},\"jobs\":{jobs},\"next\":{next}}}");
    shown::object(alloc, answer)
}

fn job_text(alloc: Global, job: &Option<Job>) -> Result<Value> {
    match job {
        None => Ok(Value::Null),
        Some(job) => shown::text(alloc, job.cron.as_str()),
    }
}

fn next_places(alloc: Global, question: &Value, table: &CronTable) -> Result<Value> {
    let start = civil_value(question, "start")?;
    match table.find_next_occurrence(&start, false) {
        Ok((_, places)) => shown::numbers(alloc, places.as_slice()),
        Err(CronError::OutOfMemory) => Err(Fault::OutOfMemory),
        Err(_) => Ok(Value::Null),
    }
}

/// The first two items of a listing, whether it is over, and the next item of one that is resumed from the second.
pub fn items_taken_up(alloc: Global, question: &Value) -> Result<Value> {
    let read = Table::read(alloc, question)?;
    taken_up(alloc, question, &read.jobs)
}

fn taken_up(alloc: Global, question: &Value, table: &CronTable) -> Result<Value> {
    let table = table.clone()?;
    let start = civil_value(question, "start")?;
    let mut runs = table.iter_after(start).clone()?;
    let (items, is_over) = next_table_runs(alloc, &mut runs, 2)?;
    let Some((last, _)) = items.last() else {
        return Err(Fault::Malformed);
    };
    let next = Runs::OfTable(resume_table_after(&table, *last, Direction::Forward)).next();
    let mut shown = Vec::new(alloc);
    for run in items {
        shown.push(Run::of_table(run).shown(alloc)?)?;
    }
    shown.push(Value::Bool(is_over))?;
    if let Some(run) = next {
        shown.push(run.shown(alloc)?)?;
    }
    Ok(Value::Array(shown))
}
