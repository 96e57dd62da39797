//! Iterators: their making and their items.

use croner::CronIterator;
use croner::time::Direction;
use croner_rows::{
    Caller, Fault, How, Job, Moment, OverTime, Result, Runs, Subject, civil_value, number_at,
    over_time, switch,
};
use serde_json::Value;

/// How often an iterator is asked.
#[derive(Clone, Copy)]
struct Counts {
    /// Before the items that are wanted.
    before: u32,
    /// For these items, each call between marks.
    wanted: u32,
    /// After them.
    after: u32,
}

impl Counts {
    // The counts of a question; only that of the wanted items has to be there.
    fn read(question: &Value) -> Result<Counts> {
        Ok(Counts {
            before: count_or_none(question, "before")?,
            wanted: number_at(question, "count")?,
            after: count_or_none(question, "after")?,
        })
    }
}

fn count_or_none(question: &Value, name: &str) -> Result<u32> {
    match question.get(name) {
        None => Ok(0),
        Some(_) => number_at(question, name),
    }
}

// The items of an iterator over the runs of a subject; with `copied` those of its copy.
#[derive(Clone, Copy)]
struct Listing<'j> {
    subject: Subject<'j>,
    how: How,
    counts: Counts,
    copied: bool,
}

// The iterator is made between marks, and again with memory if that was refused.
impl<'j> OverTime for Listing<'j> {
    fn answer<T: Moment>(&self, caller: Caller<'_>, start: T, after: &mut String) -> Result<Value> {
        let again = start.clone()?;
        caller.begin();
        let made = Runs::new(self.subject, start, self.how);
        caller.end();
        match made {
            Ok(mut runs) => self.items(caller, &mut runs, after),
            Err(_) => {
                let mut runs = Runs::new(self.subject, again, self.how)?;
                let _ = self.items(caller, &mut runs, after)?;
                Err(Fault::OutOfMemory)
            }
        }
    }
}

impl<'j> Listing<'j> {
    fn items<T: Moment>(
        &self,
        caller: Caller<'_>,
        runs: &mut Runs<'j, T>,
        after: &mut String,
    ) -> Result<Value> {
        if self.copied {
            return items(caller, &mut runs.copied()?, self.counts, after);
        }
        items(caller, runs, self.counts, after)
    }
}

// The items of an iterator, or lack of memory if one of its calls lacked it; afterwards all items, those after
// them, and the fault.
fn items<T: Moment>(
    caller: Caller<'_>,
    runs: &mut Runs<'_, T>,
    counts: Counts,
    after: &mut String,
) -> Result<Value> {
    for _ in 0..counts.before {
        let _ = runs.next();
    }
    let mut lacked = false;
    let items = next_items(caller, runs, counts.wanted, &mut lacked)?;
    let later = next_items(caller.without_marks(), runs, counts.after, &mut false)?;
    let fault = runs.fault_name();
    write!(after, "{items} {later} {fault}")?;
    if lacked {
        return Err(Fault::OutOfMemory);
    }
    Ok(items)
}

/// The answers of a number of calls of `next`, and whether one lacked memory.
pub fn next_items<T: Moment>(
    caller: Caller<'_>,
    runs: &mut Runs<'_, T>,
    count: u32,
    lacked: &mut bool,
) -> Result<Value> {
    let mut items = Vec::new(caller.alloc);
    for _ in 0..count {
        items.push(next_item(caller, runs, lacked)?)?;
    }
    Ok(Value::Array(items))
}

// One call between marks: its answer. If it lacks memory, that is noted, and the next call has memory.
fn next_item<T: Moment>(
    caller: Caller<'_>,
    runs: &mut Runs<'_, T>,
    lacked: &mut bool,
) -> Result<Value> {
    caller.begin();
    let run = runs.next();
    caller.end();
    if runs.lacks_memory() {
        *lacked = true;
        return runs.item(caller.alloc);
    }
    runs.shown(caller.alloc, run)
}

/// The items of an iterator over the runs of a subject from the start of a question.
pub fn items_from_start(
    caller: Caller<'_>,
    question: &Value,
    subject: Subject<'_>,
    after: &mut String,
) -> Result<Value> {
    let listing = Listing {
        subject,
        how: How::read(question)?,
        counts: Counts::read(question)?,
        copied: switch(question, "copied")?,
    };
    over_time(caller, question, &listing, after)
}

/// The items of an iterator that takes over its job, which takes no memory in civil time.
pub fn items_of_taken_job(
    caller: Caller<'_>,
    question: &Value,
    after: &mut String,
) -> Result<Value> {
    let (start, counts) = (civil_value(question, "start")?, Counts::read(question)?);
    let cron = Job::read(caller.alloc, question)?.into_cron();
    caller.begin();
    let iterator = CronIterator::new(cron, start, false, Direction::Forward);
    caller.end();
    items(caller, &mut Runs::OfJob(iterator), counts, after)
}
