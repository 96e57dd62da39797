//! A scheduler of many jobs, for the script `tools/robfig_turns`, which has their memory counted.

use crate::forms::{JobForm, SchedulerJob};
use crate::scheduler::{Call, scheduler_of};
use crate::starts::BEFORE_MONDAY;
use croner::errors::CronError;
use croner::time::table::{ClockTable, TableTime};
use croner::{CompactCron, Cron, Recurring};
use croner_rows::Result;
use std::alloc::Global;

/// Adds so many jobs of a form to a scheduler, which run 4 in 100 at a time, in UTC, and shows the second of its first wake-up.
pub fn keep_jobs(rt: &HostRuntime, form: JobForm, jobs: u32) -> Result<bool> {
    let utc = ClockTable::new(0, Vec::new(rt.alloc()))?;
    let start = TableTime::new(&utc, BEFORE_MONDAY)?;
    let second = match form {
        JobForm::Whole => first_wake_up::<Cron>(rt.alloc(), jobs, start)?,
        JobForm::Compact => first_wake_up::<CompactCron>(rt.alloc(), jobs, start)?,
    };
    println!(rt; "{jobs} jobs, first wake-up: {second}")?;
    Ok(true)
}

// The second of the first wake-up of so many jobs; 0 where there is none.
fn first_wake_up<'t, J: SchedulerJob + Recurring<TableTime<'t>>>(
    alloc: Global,
    jobs: u32,
    start: TableTime<'t>,
) -> Result<i64, CronError> {
    let scheduler = scheduler_of::<J>(alloc, Call::WakeMany, jobs, start)?;
    Ok(scheduler.next_wake_up().unwrap_or(0))
}
