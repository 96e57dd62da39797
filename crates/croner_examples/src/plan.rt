//! Four kinds of jobs for one scheduler.
use croner::errors::CronError;
use croner::time::table::TableTime;
use croner::{Cron, Recurring};
use croner_jobs::{Interval, OnDates};
use crontab_runs::CrontabJob;

/// When a job runs.
#[derive(Drop)]
pub enum Plan {
    /// By a pattern.
    ByPattern(Cron),
    /// When Debian's cron starts a line of a crontab.
    AsCron(CrontabJob),
    /// By a pattern, but not on some dates.
    OnWorkdays(OnDates<Cron>),
    /// At regular intervals.
    AtIntervals(Interval),
}

impl<'t> Recurring<TableTime<'t>> for Plan {
    ghost use Rattle.croner_examples.specs.Plans.{plan_runs};

    ghost runs = { plan_runs };

    fn next_after(&self, after: &TableTime<'t>) -> Result<TableTime<'t>, CronError> {
        match self {
            Plan::ByPattern(cron) => cron.next_after(after),
            Plan::AsCron(job) => Recurring::next_after(job, after),
            Plan::OnWorkdays(workdays) => workdays.next_after(after),
            Plan::AtIntervals(interval) => interval.next_after(after),
        }
    }

    fn last_until(&self, until: &TableTime<'t>) -> Result<TableTime<'t>, CronError> {
        match self {
            Plan::ByPattern(cron) => cron.last_until(until),
            Plan::AsCron(job) => Recurring::last_until(job, until),
            Plan::OnWorkdays(workdays) => workdays.last_until(until),
            Plan::AtIntervals(interval) => interval.last_until(until),
        }
    }
}
