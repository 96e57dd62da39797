//! The plan of jobs.
ghost use Rattle.std.specs.Prelude.{◌≡◌, ◌≤◌, ◌^◌, ◌↔◌, ◌++◌, IsTrue, IfErr, IfOk, OnOk, length};
ghost use Rattle.croner_base.specs.TableZone.{table_zone};
ghost use Rattle.cronplan_jobs.specs.Jobs.{IsOver, IsPlanOf};
ghost use Rattle.cronplan_jobs.specs.Listed.{IsNotListed, IsServed};
ghost use Rattle.cronplan_jobs.specs.Private.Gathered.{AddsJob, Names, Shows};

use crate::listing::{Schedule, starts_in};
use croner::errors::CronError;
use croner::time::table::ClockTable;
use cronplan::{Frequent, JobStart, Plan, Span, count_of, earlier_of, is_frequent};
use std::alloc::{AllocError, Global};

// What was gathered from the jobs so far.
#[derive(Drop)]
struct Gathering {
    // The starts of those that are shown.
    shown: Vec<JobStart>,
    // Those that are too frequent.
    frequent: Vec<Frequent>,
    // The second up to which no start of the shown jobs is left out.
    end: i64,
}

/// The plan of jobs in a span, on the clock of a table: the starts of the jobs that are shown, and the jobs that aren't. A job isn't shown
/// if it has more than `most_a_day` starts on some day that the clock shows. If `most_a_day` is `None`, each job is shown.
///
/// A job's place is its index among the jobs. If there are more starts than a plan keeps, the plan ends earlier than the span: with the
/// first start too many, of one job or of all together.
///
/// The error is `OutOfMemory`. From a span on at whose begin the clock shows a year before -9997 or after 9997 it can also be `InvalidTime`
/// or `InvalidDate`: the clock refuses a second or a date of a search.
///
/// ```
/// let span = Span::new(1_806_188_400, 1_806_793_200); // a week from 2027-03-28T00:00:00 in Paris
/// let (plan, frequent) = plan_of(alloc, &jobs, &paris, span, Some(12))?;
/// ```
pub fn plan_of(
    alloc: Global,
    jobs: &[Schedule],
    table: &ClockTable,
    span: Span,
    most_a_day: Option<u64>,
) -> Result<(Plan, Vec<Frequent>), CronError>
    ensures plan { IfOk result (λ r. IsPlanOf (table_zone table.now) span most_a_day jobs.now r.0.starts.items r.0.span r.1.items) }
    ensures err { IfErr result IsNotListed }
    ensures memory { IsServed (table_zone table.now) span → IfErr result (λ e. e ≡ CronError.OutOfMemory) }
{
    let mut gathering = Gathering {
        shown: Vec::new(alloc),
        frequent: Vec::new(alloc),
        end: span.end,
    };
    for place in 0..jobs.len() {
        add_job(
            alloc,
            &mut gathering,
            &jobs[place],
            table,
            span,
            most_a_day,
            place,
        )?;
    }
    let Gathering {
        shown,
        frequent,
        end,
    } = gathering;
    let first = span.first;
    Ok((Plan::of_starts(Span { first, end }, shown), frequent))
}

// Shows the job at a place, or names it.
fn add_job(
    alloc: Global,
    gathering: &mut Gathering,
    schedule: &Schedule,
    table: &ClockTable,
    span: Span,
    most_a_day: Option<u64>,
    place: usize,
) -> Result<(), CronError>
    ensures adds { OnOk result (AddsJob (table_zone table.now) span most_a_day place schedule.now gathering.old gathering.new) }
    ensures err { IfErr result IsNotListed }
    ensures memory { IsServed (table_zone table.now) span → IfErr result (λ e. e ≡ CronError.OutOfMemory) }
{
    let (starts, end) = starts_in(alloc, schedule, table, span, place)?;
    if is_over(alloc, starts.as_slice(), most_a_day)? {
        name_job(gathering, place, starts.as_slice())?;
        return Ok(());
    }
    show_starts(gathering, starts.as_slice(), end)?;
    Ok(())
}

// Names the job at a place, which has these starts.
fn name_job(gathering: &mut Gathering, place: usize, starts: &[JobStart]) -> Result<(), AllocError>
    requires { length starts.now ≤ 2 ^ 31 }
    ensures { OnOk result (Names place starts.now gathering.old gathering.new) }
{
    gathering.frequent.push(Frequent {
        job: place,
        starts: count_of(starts),
    })?;
    Ok(())
}

// Shows these starts of a job, of which none before `end` is left out.
fn show_starts(gathering: &mut Gathering, starts: &[JobStart], end: i64) -> Result<(), AllocError>
    ensures { OnOk result (Shows starts.now end gathering.old gathering.new) }
{
    gathering.shown.extend_from_slice(starts)?;
    gathering.end = earlier_of(gathering.end, Some(end));
    Ok(())
}

// Whether some day has more than `most_a_day` of these starts; never, if that is `None`.
fn is_over(alloc: Global, starts: &[JobStart], most_a_day: Option<u64>) -> Result<bool, AllocError>
    requires { length starts.now ≤ 2 ^ 31 }
    ensures { IfOk result (λ b. IsTrue b ↔ IsOver most_a_day starts.now) }
{
    match most_a_day {
        Some(most) => is_frequent(alloc, starts, most),
        None => Ok(false),
    }
}
