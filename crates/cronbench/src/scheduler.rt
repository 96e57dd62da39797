//! Many jobs in a scheduler: the time of a wake-up, of adding a job, and of removing one.

use crate::answers::Answers;
use crate::forms::SchedulerJob;
use crate::watch::Watch;
use croner::Recurring;
use croner::errors::CronError;
use croner::time::table::TableTime;
use croner_scheduler::{AddError, Scheduler};
use std::alloc::{AllocError, Global};

/// What is measured.
#[derive(Clone, Copy)]
pub enum Call {
    /// A wake-up at which 4 in 100 jobs run.
    WakeMany,
    /// A wake-up at which one job runs.
    WakeOne,
    /// Adding a job.
    Add,
    /// Removing a job.
    Remove,
}

/// How many calls are made, and how many wake-ups at which 4 in 100 jobs run: as many as an hour has.
const CALLS: u32 = 64;

const WAKE_UPS: u32 = 25;

/// How many seconds a week has.
const WEEK: u32 = 604_800;

/// How many minutes apart the times of day of two added jobs are.
const MINUTES_APART: u32 = 22;

type Jobs<'t, J> = Scheduler<J, TableTime<'t>>;

/// Makes the calls on a number of jobs that were added at a start. The answer of a wake-up is the sum of the ids of the jobs that ran,
/// each times its second, modulo 2^64. That of another call is the second of the next wake-up.
pub fn pass<'t, J: SchedulerJob + Recurring<TableTime<'t>>>(
    alloc: Global,
    call: Call,
    jobs: u32,
    start: TableTime<'t>,
    watch: &mut Watch<'_>,
) -> Result<Answers, CronError> {
    let mut scheduler: Jobs<'t, J> = scheduler_of(alloc, call, jobs, start)?;
    match call {
        Call::WakeMany => wake(&mut scheduler, WAKE_UPS, watch),
        Call::WakeOne => wake(&mut scheduler, CALLS, watch),
        Call::Add => add(alloc, &mut scheduler, start, watch),
        Call::Remove => remove(&mut scheduler, jobs / CALLS, watch),
    }
}

/// A scheduler of so many jobs, as a call of its wants them, added at a start.
pub fn scheduler_of<'t, J: SchedulerJob + Recurring<TableTime<'t>>>(
    alloc: Global,
    call: Call,
    jobs: u32,
    start: TableTime<'t>,
) -> Result<Jobs<'t, J>, CronError> {
    let mut scheduler = Scheduler::new(alloc);
    let apart = WEEK.checked_div(jobs).unwrap_or(0);
    for job in 0..jobs {
        let text = match call {
            Call::WakeMany => hourly(alloc, job)?,
            Call::WakeOne | Call::Add | Call::Remove => weekly(alloc, job.saturating_mul(apart))?,
        };
        keep(&mut scheduler, J::read(alloc, text.as_str())?, start)?;
    }
    Ok(scheduler)
}

// A job that runs at one of the 25 even minutes below 50 of each hour.
fn hourly(alloc: Global, job: u32) -> Result<String, AllocError> {
    format!(in alloc; "{} * * * *", job % WAKE_UPS * 2)
}

// A job that runs at a second of the week, which begins on Monday.
fn weekly(alloc: Global, second: u32) -> Result<String, AllocError> {
    let (minute, hour, day) = (second / 60 % 60, second / 3600 % 24, second / 86400 + 1);
    format!(in alloc; "{} {minute} {hour} * * {}", second % 60, day % 7)
}

// A job that comes, and runs at a minute of the day.
fn daily<J: SchedulerJob>(alloc: Global, job: u32) -> Result<J, CronError> {
    let minute = job.saturating_mul(MINUTES_APART);
    let text = format!(in alloc; "{} {} * * *", minute % 60, minute / 60)?;
    J::read(alloc, text.as_str())
}

fn keep<'t, J: SchedulerJob + Recurring<TableTime<'t>>>(
    scheduler: &mut Jobs<'t, J>,
    job: J,
    start: TableTime<'t>,
) -> Result<(), CronError> {
    match scheduler.add(job, start) {
        Ok(_) => Ok(()),
        Err(refused) => Err(error_of(AddError::from(refused))),
    }
}

fn error_of(error: AddError) -> CronError {
    match error {
        AddError::OutOfMemory => CronError::OutOfMemory,
        AddError::NoIdLeft | AddError::SecondBeforeNotHeld | AddError::NoJob => {
            CronError::InvalidTime
        }
    }
}

fn wake<'t, J: Recurring<TableTime<'t>>>(
    scheduler: &mut Jobs<'t, J>,
    wake_ups: u32,
    watch: &mut Watch<'_>,
) -> Result<Answers, CronError> {
    let mut answers = Answers::default();
    watch.restart();
    for _ in 0..wake_ups {
        if let Some(now) = scheduler.next_wake_up() {
            answers.add(take_all(scheduler, now)?);
        }
    }
    watch.stop();
    Ok(answers)
}

// Takes all that is due, and gives the sum of it.
fn take_all<'t, J: Recurring<TableTime<'t>>>(
    scheduler: &mut Jobs<'t, J>,
    now: i64,
) -> Result<i64, AllocError> {
    let mut sum: i64 = 0;
    for _ in 0..u64::MAX {
        match scheduler.take_due(now)? {
            Some(due) => {
                let id = i64::try_from(due.id).unwrap_or(i64::MAX);
                sum = sum.wrapping_add(due.second.wrapping_mul(id));
            }
            None => break,
        }
    }
    Ok(sum)
}

fn add<'t, J: SchedulerJob + Recurring<TableTime<'t>>>(
    alloc: Global,
    scheduler: &mut Jobs<'t, J>,
    start: TableTime<'t>,
    watch: &mut Watch<'_>,
) -> Result<Answers, CronError> {
    let mut jobs = Vec::new(alloc);
    for job in 0..CALLS {
        jobs.push(daily::<J>(alloc, job)?)?;
    }
    let mut answers = Answers::default();
    watch.restart();
    for job in jobs {
        keep(scheduler, job, start)?;
        answers.add(scheduler.next_wake_up().unwrap_or(0));
    }
    watch.stop();
    Ok(answers)
}

fn remove<'t, J: SchedulerJob + Recurring<TableTime<'t>>>(
    scheduler: &mut Jobs<'t, J>,
    apart: u32,
    watch: &mut Watch<'_>,
) -> Result<Answers, CronError> {
    let mut answers = Answers::default();
    watch.restart();
    for job in 0..CALLS {
        scheduler.remove(u64::from(job.saturating_mul(apart)));
        answers.add(scheduler.next_wake_up().unwrap_or(0));
    }
    watch.stop();
    Ok(answers)
}
