//! A job of a crontab as something that recurs on the clocks of tables.
ghost use Rattle.std.specs.Prelude.{IfOk, IfErr};
ghost use Rattle.croner_base.specs.TableZone.{table_moment};
ghost use Rattle.crontab_runs.specs.Private.Times.{HasNoTime, IsTimeOf};

use crate::job::{CrontabJob, Start};
use croner::errors::CronError;
use croner::time::table::TableTime;
use croner::{Clocked, Recurring};

/// Its runs are the seconds at which cron starts it, each once, however many times it is started then.
impl<'t> Recurring<TableTime<'t>> for CrontabJob {
    ghost use Rattle.crontab_runs.specs.Starts.{Starts};
    ghost use Rattle.crontab_runs.specs.Views.{cron_job_of};

    ghost runs = { λ job. Starts (cron_job_of job) };

    fn next_after(&self, after: &TableTime<'t>) -> Result<TableTime<'t>, CronError> {
        time_of(after, CrontabJob::next_after(self, after))
    }

    fn last_until(&self, until: &TableTime<'t>) -> Result<TableTime<'t>, CronError> {
        time_of(until, CrontabJob::last_until(self, until))
    }
}

// The time of a start, on the clock of a time.
fn time_of<'t>(time: &TableTime<'t>, start: Option<Start>) -> Result<TableTime<'t>, CronError>
    ensures found { IfOk result (IsTimeOf (table_moment time.now).zone start) }
    ensures refused { IfErr result (HasNoTime (table_moment time.now).zone start) }
{
    match start {
        Some(start) => match time.at_second(start.second) {
            Some(time) => Ok(time),
            None => Err(CronError::InvalidTime),
        },
        None => Err(CronError::TimeSearchLimitExceeded),
    }
}
