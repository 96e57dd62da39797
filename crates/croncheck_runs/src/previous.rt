//! The runs of a pattern up to a start, the latest first, or what cron has started of a crontab's job.
ghost use Rattle.std.specs.Prelude.{◌≡◌, ℤ, pos, ◌+ℤ◌, ◌≤ℤ◌, List, option_map, IfOk, IfErr};
ghost use Rattle.std.specs.List.{All, Contains};
ghost use Rattle.jiff_tz.specs.declared.timezone.TimeZone.{TimeZone};
ghost use Rattle.croner_base.specs.declared.time.Direction.{Direction};
ghost use Rattle.croner_base.specs.TableZone.{table_zone, table_moment};
ghost use Rattle.croner_base.specs.ZonedZone.{zoned_zone};
ghost use Rattle.croner_pattern.specs.Meaning.{Meaning};
ghost use Rattle.croner.specs.iterator.Listing.{standing_of, IsLeft, BeginsRest, GaveAll};
ghost use Rattle.croner.specs.laws.Zones.{IsOnClockOf, in_zone, margin};
ghost use Rattle.croner.specs.search.Limit.{InSpan};
ghost use Rattle.croner.specs.Views.{job_of};
ghost use Rattle.crontab_runs.specs.Views.{cron_job_of};
ghost use Rattle.croncheck_runs.specs.Previous.{ends_at, runs_up_to, starts_up_to, GaveFrom, IsListedBefore, AreBefore};
ghost use Rattle.croncheck_runs.specs.Private.EndsBefore.{end_of_years, end_of_starts, EndsBefore};

use crate::past::PastClock;
use crate::runs::{End, Runner, Runs, failed_end, runs_at, runs_once};
use croner::errors::CronError;
use croner::laws::listing::{ListingEnd, next_runs_until};
use croner::laws::zones::listing_of_a_window;
use croner::time::table::TableTime;
use croner::{Cron, CronIterator, Direction};
use crontab_runs::{CrontabJob, StartsEnd, last_starts_until};
use std::alloc::Global;

/// What is asked of the runs up to a start.
#[derive(Clone, Copy)]
pub struct Previous<'t> {
    /// The start. A run at the start itself counts.
    pub start: TableTime<'t>,
    /// From this second on the clock of the start is the zone's, in seconds since 1970-01-01T00:00:00 UTC. No run before it is listed.
    pub from: i64,
    /// The clock is followed back to the beginning of year 1.
    pub is_whole: bool,
    /// How many runs are listed at most.
    pub count: u32,
}

/// The last runs of a pattern up to a start, if they are asked for: the latest first, and none left out down to the last one listed. A run
/// at the start itself counts, so that each run is either one up to a start or one after it.
///
/// It takes memory for as many runs as are asked for. The only error is `OutOfMemory`. A search that is refused ends the listing, with
/// `End::Failed`.
pub fn previous_runs_of<'t>(
    alloc: Global,
    asked: Option<Previous<'t>>,
    job: &Cron,
) -> Result<Option<Runs<'t>>, CronError>
    ensures listed { IfOk result (AreBefore asked.entry Runner.Croner (job_of job.now)) }
    ensures err { IfErr result (λ e. e ≡ CronError.OutOfMemory) }
{
    match asked {
        Some(asked) => {
            let runs = runs_before(alloc, job, asked)?;
            Ok(Some(runs))
        }
        None => Ok(None),
    }
}

/// What cron has started of a crontab's job up to a start, if that is asked for, listed as `previous_runs_of` lists runs. The only error is
/// `OutOfMemory`.
pub fn previous_starts_of<'t>(
    alloc: Global,
    asked: Option<Previous<'t>>,
    job: &CrontabJob,
) -> Result<Option<Runs<'t>>, CronError>
    ensures listed { IfOk result (AreBefore asked.entry (Runner.Cron job.now.is_starred) (job_of job.now.cron)) }
    ensures err { IfErr result (λ e. e ≡ CronError.OutOfMemory) }
{
    match asked {
        Some(asked) => {
            let runs = starts_before(alloc, job, asked)?;
            Ok(Some(runs))
        }
        None => Ok(None),
    }
}

// The runs of a pattern.
fn runs_before<'t>(alloc: Global, job: &Cron, asked: Previous<'t>) -> Result<Runs<'t>, CronError>
    ensures listed { IfOk result (IsListedBefore (runs_up_to (job_of job.now) asked.entry.start) asked.entry) }
    ensures err { IfErr result (λ e. e ≡ CronError.OutOfMemory) }
{
    let mut iterator = job.iter_from(asked.start, Direction::Backward)?;
    runs_back(alloc, &mut iterator, asked)
}

// The runs that an iterator gives which is new at a start, and goes back.
fn runs_back<'t>(
    alloc: Global,
    iterator: &mut CronIterator<TableTime<'t>>,
    asked: Previous<'t>,
) -> Result<Runs<'t>, CronError>
    ensures listed { (m : Meaning) → standing_of table_moment iterator.old ≡ ends_at m asked.entry.start
        → IfOk result (IsListedBefore (runs_up_to m asked.entry.start) asked.entry) }
    ensures err { IfErr result (λ e. e ≡ CronError.OutOfMemory) }
{
    let (times, ending) = next_runs_until(alloc, iterator, Some(asked.from), asked.count)?;
    let items = runs_once(alloc, times.as_slice())?;
    let end = end_before(asked.is_whole, ending, iterator.fault())?;
    Ok(Runs { items, end })
}

// What cron has started of a job.
fn starts_before<'t>(
    alloc: Global,
    job: &CrontabJob,
    asked: Previous<'t>,
) -> Result<Runs<'t>, CronError>
    ensures listed { IfOk result (IsListedBefore (starts_up_to (cron_job_of job.now) asked.entry.start) asked.entry) }
    ensures err { IfErr result (λ e. e ≡ CronError.OutOfMemory) }
{
    let (starts, ending) = last_starts_until(
        alloc,
        job,
        asked.start,
        Some(asked.from),
        asked.count,
    )?;
    let items = runs_at(alloc, job, asked.start, starts.as_slice())?;
    let end = end_of_starts(asked.is_whole, ending);
    Ok(Runs { items, end })
}

// How a listing ends, by how its search ended and the fault that this left. The only error is lack of memory in the search.
fn end_before(
    is_whole: bool,
    ending: ListingEnd,
    fault: Option<&CronError>,
) -> Result<End, CronError>
    ensures ends { IfOk result (EndsBefore is_whole ending (option_map (λ e. e.now) fault.entry)) }
    ensures err { IfErr result (λ e. e ≡ CronError.OutOfMemory) }
{
    match ending {
        ListingEnd::Full => Ok(End::More),
        ListingEnd::Past(_) => Ok(End::Window),
        ListingEnd::Over => Ok(end_of_years(is_whole)),
        ListingEnd::Refused => failed_end(fault),
    }
}

// How a listing of starts ends, by how its search ended.
fn end_of_starts(is_whole: bool, ending: StartsEnd) -> End
    ensures { result ≡ end_of_starts is_whole ending }
{
    match ending {
        StartsEnd::Full => End::More,
        StartsEnd::Past(_) => End::Window,
        StartsEnd::Over => end_of_years(is_whole),
    }
}

// How a listing ends with the years that are searched.
fn end_of_years(is_whole: bool) -> End
    ensures { result ≡ end_of_years is_whole }
{
    if is_whole { End::Over } else { End::Window }
}

/// What is listed on the clock up to a start is listed in the zone itself, as far as the clock is followed.
///
/// For every pattern, from a start well in the window, and with the margin after the window's first second:
///
/// - items that begin the listing on the clock, none before that margin, begin that of the zone;
/// - where none is left out on the clock from a second on that lies no earlier, none of the zone's runs is;
/// - where the items are all that is left on the clock in the years that are searched, each run of the zone that lies no earlier, and in
///   these years, is among them.
pub fn previous_runs_are_the_zones(clock: &PastClock)
    ensures begins { (zone : TimeZone) (first last : ℤ) (m : Meaning) (start : TableTime) →
        IsOnClockOf zone first last (table_zone clock.now.table) (table_moment start) → (items : List ℤ) → BeginsRest (ends_at m start) items →
        All (λ i. (first +ℤ pos margin) ≤ℤ i) items → BeginsRest (in_zone (zoned_zone zone) (ends_at m start)) items }
    ensures from { (zone : TimeZone) (first last : ℤ) (m : Meaning) (start : TableTime) →
        IsOnClockOf zone first last (table_zone clock.now.table) (table_moment start) → (items : List ℤ) (from : ℤ) → (first +ℤ pos margin) ≤ℤ from →
        GaveFrom (IsLeft (ends_at m start)) from items → GaveFrom (IsLeft (in_zone (zoned_zone zone) (ends_at m start))) from items }
    ensures all { (zone : TimeZone) (first last : ℤ) (m : Meaning) (start : TableTime) →
        IsOnClockOf zone first last (table_zone clock.now.table) (table_moment start) → (items : List ℤ) (i : ℤ) → (first +ℤ pos margin) ≤ℤ i →
        GaveAll (ends_at m start) items → IsLeft (in_zone (zoned_zone zone) (ends_at m start)) i →
        InSpan Direction.Backward (zoned_zone zone).reads i → Contains items i }
{
    listing_of_a_window(clock.table());
}
