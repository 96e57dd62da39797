//! Schedulers: calls in turn, over clocks of one kind.

use crate::{Caller, Fault, FlakyJob, Result, items, number, number_at, parts, shown, word};
use croner::Clocked;
use croner_scheduler::{
    AddError, Again, Due, Latest, NotAdded, NotReplaced, Refusal, Replaced, Resume, Scheduler,
    Skip, Stop, Waiting, pause_until,
};
use serde_json::Value;
use std::alloc::{AllocError, Global};
use std::mem;

/// What the calls of a scheduler refer to by index: patterns, and a time on each clock.
#[derive(Drop)]
pub struct Named<'q, T: Clocked> {
    pub patterns: &'q [Value],
    pub clocks: &'q [T],
}

impl<'q, T: Clocked> Named<'q, T> {
    // The job of a pattern.
    fn job(&self, alloc: Global, place: &Value) -> Result<FlakyJob> {
        let place: usize = number(place)?;
        let pattern = self.patterns.get(place).ok_or(Fault::Malformed)?;
        FlakyJob::read(alloc, pattern)
    }

    // The time at a second of a clock, if it has that second.
    fn position(&self, place: &Value, second: &Value) -> Result<Option<T>> {
        let place: usize = number(place)?;
        let clock = self.clocks.get(place).ok_or(Fault::Malformed)?;
        Ok(clock.at_second(number(second)?))
    }
}

/// The scheduler of a question before its calls: without jobs, with the member `first_id`, or 0, as its first id.
pub fn new_scheduler<T: Clocked>(
    alloc: Global,
    question: &Value,
) -> Result<Scheduler<FlakyJob, T>> {
    match question.get("first_id") {
        None => Ok(Scheduler::new(alloc)),
        Some(first) => {
            let first = first.as_u64().ok_or(Fault::Malformed)?;
            Ok(Scheduler::with_first_id(alloc, first))
        }
    }
}

/// The answers of calls of a scheduler in turn.
pub fn call_in_turn<T: Clocked>(
    caller: Caller<'_>,
    scheduler: &mut Scheduler<FlakyJob, T>,
    named: &Named<'_, T>,
    calls: &[Value],
) -> Result<Value> {
    let mut answers = Vec::new(caller.alloc);
    for call in calls {
        answers.push(call_scheduler(caller, scheduler, named, call)?)?;
    }
    Ok(Value::Array(answers))
}

/// The answer of a call of a scheduler. The call is a list of its name and its arguments.
pub fn call_scheduler<T: Clocked>(
    caller: Caller<'_>,
    scheduler: &mut Scheduler<FlakyJob, T>,
    named: &Named<'_, T>,
    call: &Value,
) -> Result<Value> {
    let name = items(call)?.first().ok_or(Fault::Malformed)?;
    match word(name)? {
        "add" => add(caller, scheduler, named, call, false),
        "add_from" => add(caller, scheduler, named, call, true),
        "replace" => replace(caller, scheduler, named, call),
        "replace_job" => replace_job(caller, scheduler, named, call),
        "remove" => remove(caller, scheduler, call),
        "into_jobs" => into_jobs(caller, scheduler),
        "skip_to" => skip_to(caller, scheduler, call),
        "skip_all_to" => skip_all_to(caller, scheduler, call),
        "ask_again" => ask_again(caller, scheduler, call),
        "pause" => pause(caller, scheduler, call),
        "resume" => resume(caller, scheduler, call),
        "take_due" => take_due(caller, scheduler, call),
        "take_latest_due" => take_latest_due(caller, scheduler, call),
        "pause_until" => seconds_to_sleep(scheduler, call),
        name => view(caller, scheduler, name),
    }
}

// What is asked of a scheduler that doesn't change it.
fn view<T: Clocked>(
    caller: Caller<'_>,
    scheduler: &Scheduler<FlakyJob, T>,
    name: &str,
) -> Result<Value> {
    match name {
        "next_wake_up" => Ok(next_wake_up(caller, scheduler)),
        "standings" => standings(caller.alloc, scheduler),
        "stopped" => stopped_jobs(caller, scheduler),
        "stopped_len" => Ok(Value::from(scheduler.stopped_len())),
        _ => Err(Fault::Unsupported),
    }
}

// A job whose runs after a second are left, or with `starts` those from it on.
fn add<T: Clocked>(
    caller: Caller<'_>,
    scheduler: &mut Scheduler<FlakyJob, T>,
    named: &Named<'_, T>,
    call: &Value,
    starts: bool,
) -> Result<Value> {
    let [_, job, clock, second] = parts::<4>(call)?;
    let Some(position) = named.position(clock, second)? else {
        return answer_without_second(caller.alloc);
    };
    let job = named.job(caller.alloc, job)?;
    caller.begin();
    let added = if starts {
        scheduler.add_from(job, position)
    } else {
        scheduler.add(job, position)
    };
    caller.end();
    match added {
        Ok(added) => with_stop_mark(caller.alloc, Value::from(added.id), added.is_stopped),
        Err(refused) => job_not_added(caller.alloc, refused),
    }
}

fn replace<T: Clocked>(
    caller: Caller<'_>,
    scheduler: &mut Scheduler<FlakyJob, T>,
    named: &Named<'_, T>,
    call: &Value,
) -> Result<Value> {
    let [_, id, job, clock, second] = parts::<5>(call)?;
    let id = id_of(id)?;
    let Some(position) = named.position(clock, second)? else {
        return answer_without_second(caller.alloc);
    };
    let job = named.job(caller.alloc, job)?;
    caller.begin();
    let replaced = scheduler.replace(id, job, position);
    caller.end();
    match replaced {
        Ok(out) => job_put_in_place(caller.alloc, out),
        Err(refused) => job_not_added(caller.alloc, refused),
    }
}

// A job in the place of another, at its position.
fn replace_job<T: Clocked>(
    caller: Caller<'_>,
    scheduler: &mut Scheduler<FlakyJob, T>,
    named: &Named<'_, T>,
    call: &Value,
) -> Result<Value> {
    let [_, id, job] = parts::<3>(call)?;
    let id = id_of(id)?;
    let job = named.job(caller.alloc, job)?;
    caller.begin();
    let replaced = scheduler.replace_job(id, job);
    caller.end();
    match replaced {
        Ok(out) => job_put_in_place(caller.alloc, out),
        Err(refused) => job_not_replaced(caller.alloc, refused),
    }
}

// The jobs of a scheduler that is taken apart. An empty one with the same next id stays.
fn into_jobs<T: Clocked>(
    caller: Caller<'_>,
    scheduler: &mut Scheduler<FlakyJob, T>,
) -> Result<Value> {
    let empty = Scheduler::with_first_id(caller.alloc, scheduler.next_id());
    let taken = mem::replace(scheduler, empty);
    caller.begin();
    let left = taken.into_jobs();
    caller.end();
    let mut jobs = Vec::new(caller.alloc);
    for (id, (job, position)) in left {
        let given = job_given_back(caller.alloc, &job, &position)?;
        jobs.push(shown::pair(caller.alloc, Value::from(id), given)?)?;
    }
    Ok(Value::Array(jobs))
}

// How many seconds a program sleeps, at most so many.
fn seconds_to_sleep<T: Clocked>(scheduler: &Scheduler<FlakyJob, T>, call: &Value) -> Result<Value> {
    let [_, now, most] = parts::<3>(call)?;
    let most = most.as_u64().ok_or(Fault::Malformed)?;
    let now = number(now)?;
    Ok(Value::from(pause_until(now, scheduler.next_wake_up(), most)))
}

fn remove<T: Clocked>(
    caller: Caller<'_>,
    scheduler: &mut Scheduler<FlakyJob, T>,
    call: &Value,
) -> Result<Value> {
    let [_, id] = parts::<2>(call)?;
    let id = id_of(id)?;
    caller.begin();
    let out = scheduler.remove(id);
    caller.end();
    match out {
        Some((job, position)) => job_given_back(caller.alloc, &job, &position),
        None => Ok(Value::Null),
    }
}

fn skip_to<T: Clocked>(
    caller: Caller<'_>,
    scheduler: &mut Scheduler<FlakyJob, T>,
    call: &Value,
) -> Result<Value> {
    let [_, id, now] = parts::<3>(call)?;
    let (id, now) = (id_of(id)?, number(now)?);
    caller.begin();
    let skipped = scheduler.skip_to(id, now);
    caller.end();
    shown_skip(caller.alloc, skipped?)
}

fn skip_all_to<T: Clocked>(
    caller: Caller<'_>,
    scheduler: &mut Scheduler<FlakyJob, T>,
    call: &Value,
) -> Result<Value> {
    let [_, now] = parts::<2>(call)?;
    let now = number(now)?;
    caller.begin();
    let skipped = scheduler.skip_all_to(now);
    caller.end();
    Ok(Value::from(skipped?))
}

fn ask_again<T: Clocked>(
    caller: Caller<'_>,
    scheduler: &mut Scheduler<FlakyJob, T>,
    call: &Value,
) -> Result<Value> {
    let [_, id] = parts::<2>(call)?;
    let id = id_of(id)?;
    caller.begin();
    let asked = scheduler.ask_again(id);
    caller.end();
    shown::text(caller.alloc, again_name(asked?))
}

// Whether there is such a job, which is paused from then on.
fn pause<T: Clocked>(
    caller: Caller<'_>,
    scheduler: &mut Scheduler<FlakyJob, T>,
    call: &Value,
) -> Result<Value> {
    let [_, id] = parts::<2>(call)?;
    let id = id_of(id)?;
    caller.begin();
    let is_there = scheduler.pause(id);
    caller.end();
    Ok(Value::from(is_there))
}

fn resume<T: Clocked>(
    caller: Caller<'_>,
    scheduler: &mut Scheduler<FlakyJob, T>,
    call: &Value,
) -> Result<Value> {
    let [_, id, from] = parts::<3>(call)?;
    let (id, from) = (id_of(id)?, number(from)?);
    caller.begin();
    let resumed = scheduler.resume(id, from);
    caller.end();
    shown_resume(caller.alloc, resumed?)
}

// At most so many runs, up to the first call that gives none.
fn take_due<T: Clocked>(
    caller: Caller<'_>,
    scheduler: &mut Scheduler<FlakyJob, T>,
    call: &Value,
) -> Result<Value> {
    let [_, now, most] = parts::<3>(call)?;
    let (now, most): (i64, u32) = (number(now)?, number(most)?);
    let mut given = Vec::new(caller.alloc);
    for _ in 0..most {
        let Some(due) = next_due(caller, scheduler, now)? else {
            break;
        };
        given.push(shown_due(caller.alloc, due)?)?;
    }
    Ok(Value::Array(given))
}

fn next_due<T: Clocked>(
    caller: Caller<'_>,
    scheduler: &mut Scheduler<FlakyJob, T>,
    now: i64,
) -> Result<Option<Due>, AllocError> {
    caller.begin();
    let due = scheduler.take_due(now);
    caller.end();
    due
}

fn take_latest_due<T: Clocked>(
    caller: Caller<'_>,
    scheduler: &mut Scheduler<FlakyJob, T>,
    call: &Value,
) -> Result<Value> {
    let [_, id, now] = parts::<3>(call)?;
    let (id, now) = (id_of(id)?, number(now)?);
    caller.begin();
    let latest = scheduler.take_latest_due(id, now);
    caller.end();
    shown_latest(caller.alloc, latest?)
}

// The second of a run, or why there is none.
fn shown_latest(alloc: Global, latest: Latest) -> Result<Value> {
    match latest {
        Latest::Given { second, is_stopped } => with_stop_mark(
            alloc,
            Value::from(second),
            is_stopped,
        ),
        Latest::NothingDue => shown::text(alloc, "NothingDue"),
        Latest::NoJob => shown::text(alloc, "NoJob"),
        Latest::NotHeld => shown::text(alloc, "NotHeld"),
        Latest::Refused(refusal) => shown::text(alloc, refusal_name(refusal)),
    }
}

fn next_wake_up<T: Clocked>(caller: Caller<'_>, scheduler: &Scheduler<FlakyJob, T>) -> Value {
    caller.begin();
    let second = scheduler.next_wake_up();
    caller.end();
    match second {
        Some(second) => Value::from(second),
        None => Value::Null,
    }
}

/// Each job of a scheduler in the order of the ids: its id, the second of its position, and that of its next run. Instead of the last it
/// is null if no run is left, or why the job is stopped.
pub fn standings<T: Clocked>(alloc: Global, scheduler: &Scheduler<FlakyJob, T>) -> Result<Value> {
    let mut standings = Vec::new(alloc);
    for (id, waiting) in scheduler.iter() {
        standings.push(standing(alloc, id, waiting)?)?;
    }
    Ok(Value::Array(standings))
}

fn standing<T: Clocked>(alloc: Global, id: u64, waiting: &Waiting<FlakyJob, T>) -> Result<Value> {
    let next = what_comes_next(alloc, waiting)?;
    let mut standing = Vec::new(alloc);
    standing.push(Value::from(id))?;
    standing.push(Value::from(waiting.position().second()))?;
    standing.push(next)?;
    Ok(Value::Array(standing))
}

fn what_comes_next<T: Clocked>(alloc: Global, waiting: &Waiting<FlakyJob, T>) -> Result<Value> {
    match (waiting.next_second(), waiting.stop()) {
        (Some(second), _) => Ok(Value::from(second)),
        (None, Some(stop)) => shown_stop(alloc, stop),
        (None, None) => Ok(Value::Null),
    }
}

fn refusal_name(refusal: Refusal) -> &'static str {
    match refusal {
        Refusal::InvalidDate => "InvalidDate",
        Refusal::InvalidTime => "InvalidTime",
    }
}

fn shown_stop(alloc: Global, stop: &Stop) -> Result<Value> {
    match stop {
        Stop::Refused(refusal) => shown::text(alloc, refusal_name(*refusal)),
        Stop::NotLater => shown::text(alloc, "NotLater"),
        Stop::Paused => shown::text(alloc, "Paused"),
    }
}

// Each job of a scheduler that is stopped, in the order of the ids: its id, and why.
fn stopped_jobs<T: Clocked>(
    caller: Caller<'_>,
    scheduler: &Scheduler<FlakyJob, T>,
) -> Result<Value> {
    caller.begin();
    let left = scheduler.stopped();
    caller.end();
    let mut stopped = Vec::new(caller.alloc);
    for (id, stop) in left {
        let why = shown_stop(caller.alloc, stop)?;
        stopped.push(shown::pair(caller.alloc, Value::from(id), why)?)?;
    }
    Ok(Value::Array(stopped))
}

// A job that is given back, as its text, and its position.
fn job_given_back<T: Clocked>(alloc: Global, job: &FlakyJob, position: &T) -> Result<Value> {
    let text = shown::text(alloc, job.as_str())?;
    shown::pair(alloc, text, Value::from(position.second()))
}

fn job_put_in_place<T: Clocked>(alloc: Global, out: Replaced<FlakyJob, T>) -> Result<Value> {
    let given = job_given_back(alloc, &out.job, &out.position)?;
    with_stop_mark(alloc, given, out.is_stopped)
}

fn shown_due(alloc: Global, due: Due) -> Result<Value> {
    let run = shown::pair(alloc, Value::from(due.id), Value::from(due.second))?;
    with_stop_mark(alloc, run, due.is_stopped)
}

// An answer; and where it tells that its job is stopped, that beside it.
fn with_stop_mark(alloc: Global, answer: Value, is_stopped: bool) -> Result<Value> {
    if is_stopped {
        let stopped = shown::text(alloc, "stopped")?;
        shown::pair(alloc, answer, stopped)
    } else {
        Ok(answer)
    }
}

// Why a job isn't added, and the job and its position as they were handed back.
fn job_not_added<T: Clocked>(alloc: Global, refused: NotAdded<FlakyJob, T>) -> Result<Value> {
    let error = shown::text(alloc, error_name(&refused.error)?)?;
    let given = job_given_back(alloc, &refused.job, &refused.position)?;
    shown::pair(alloc, error, given)
}

// The same of a job that isn't put in another's place.
fn job_not_replaced(alloc: Global, refused: NotReplaced<FlakyJob>) -> Result<Value> {
    let error = shown::text(alloc, error_name(&refused.error)?)?;
    shown::pair(alloc, error, shown::text(alloc, refused.job.as_str())?)
}

fn error_name(error: &AddError) -> Result<&'static str> {
    match error {
        AddError::OutOfMemory => Err(Fault::OutOfMemory),
        AddError::NoIdLeft => Ok("NoIdLeft"),
        AddError::SecondBeforeNotHeld => Ok("SecondBeforeNotHeld"),
        AddError::NoJob => Ok("NoJob"),
    }
}

// The answer where a call names a second that its clock doesn't have.
fn answer_without_second(alloc: Global) -> Result<Value> {
    shown::text(alloc, "no such second")
}

fn shown_skip(alloc: Global, skip: Skip) -> Result<Value> {
    let (name, is_stopped) = match skip {
        Skip::Moved { is_stopped } => ("Moved", is_stopped),
        Skip::AlreadyThere => ("AlreadyThere", false),
        Skip::NoJob => ("NoJob", false),
        Skip::Paused => ("Paused", false),
        Skip::NotHeld => ("NotHeld", false),
    };
    with_stop_mark(alloc, shown::text(alloc, name)?, is_stopped)
}

fn shown_resume(alloc: Global, resume: Resume) -> Result<Value> {
    let (name, is_stopped) = match resume {
        Resume::GoesOn { is_stopped } => ("GoesOn", is_stopped),
        Resume::NotPaused => ("NotPaused", false),
        Resume::NoJob => ("NoJob", false),
        Resume::NotHeld => ("NotHeld", false),
    };
    with_stop_mark(alloc, shown::text(alloc, name)?, is_stopped)
}

fn again_name(again: Again) -> &'static str {
    match again {
        Again::GoesOn => "GoesOn",
        Again::StillStopped => "StillStopped",
        Again::NotStopped => "NotStopped",
    }
}

fn id_of(id: &Value) -> Result<u64> {
    id.as_u64().ok_or(Fault::Malformed)
}
