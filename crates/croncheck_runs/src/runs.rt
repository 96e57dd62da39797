//! The runs of a pattern from a start on; or, of a crontab's job, the seconds at which cron starts it.
ghost use Rattle.std.specs.Prelude.{◌≡◌, ℤ, List, Option, IfOk, IfErr, ◌≤ℤ◌, map, option_map, true};
ghost use Rattle.std.specs.List.{All, Contains};
ghost use Rattle.jiff_tz.specs.declared.timezone.TimeZone.{TimeZone};
ghost use Rattle.croner_base.specs.Table.{is_table_second};
ghost use Rattle.croner_base.specs.TableZone.{table_zone, table_moment};
ghost use Rattle.croner_base.specs.ZonedZone.{zoned_zone};
ghost use Rattle.croner_pattern.specs.Meaning.{Meaning};
ghost use Rattle.croner_base.specs.declared.time.Direction.{Direction};
ghost use Rattle.croner.specs.iterator.Listing.{IsLeft, BeginsRest, GaveAll, standing_of};
ghost use Rattle.croner.specs.laws.Zones.{IsOnClockOf, in_zone};
ghost use Rattle.croner.specs.search.Limit.{InSpan};
ghost use Rattle.croner.specs.Views.{job_of};
ghost use Rattle.crontab_runs.specs.Views.{cron_job_of};
ghost use Rattle.croncheck_runs.specs.Private.Ends.{earlier_of, bound, limit, full_end, end_before, end_of_years, end_of_starts, EndsBy, IsFailedBy};
ghost use Rattle.croncheck_runs.specs.Private.Listed.{once, run_seen, seen_on, TellsMadeUp};
ghost use Rattle.croncheck_runs.specs.Clock.{last_second};
ghost use Rattle.croncheck_runs.specs.Runs.{is_over, is_at_end_of_window, starts, runs_listed, starts_listed, IsListed, GaveUntil};

use crate::clock::Clock;
use croner::errors::CronError;
use croner::laws::listing::{ListingEnd, next_runs_until};
use croner::laws::zones::listing_of_a_window;
use croner::time::table::TableTime;
use croner::{Cron, CronIterator};
use crontab_runs::{CrontabJob, Start, StartsEnd, next_starts_until};
use std::alloc::{AllocError, Global};

/// The most runs that are listed up to a second.
pub const MOST_RUNS: u32 = 100_000;

/// What runs a line.
#[derive(Clone, Copy, Drop)]
pub enum Runner {
    /// Croner: the line is a pattern.
    Croner,
    /// Debian's cron: the line is a job of a crontab.
    Cron {
        /// The job is starred, which decides what cron does with it where the clock changes.
        is_starred: bool,
    },
}

/// A run of a pattern, or the starts of a crontab's job by cron at one second.
#[derive(Clone, Copy)]
pub struct Run<'t> {
    /// When it is, on the clock of the listing's start.
    pub time: TableTime<'t>,
    /// How many times the job is started then: once, unless cron makes up for minutes that the clock has skipped.
    pub count: u32,
    /// The wall second with which the first of these minutes begins. `None` if cron makes up for none, as at each run of a pattern.
    pub made_up: Option<i64>,
}

/// Which runs are listed.
#[derive(Clone, Copy, Drop)]
pub enum Listing {
    /// This many runs, the nearest ones.
    Count(u32),
    /// All runs up to this second, one at the second itself too; in seconds since 1970-01-01T00:00:00 UTC.
    Until(i64),
}

/// How a listing ends.
pub enum End {
    /// As many runs as were asked for were listed; if none was asked for, a run is left. Or all runs up to a second were listed, and a run
    /// is left after it.
    More,
    /// No run is left in the years that are searched: each run in these years was listed.
    Over,
    /// `MOST_RUNS` runs were listed, which is the most, and more may come up to the second.
    Cut,
    /// The clock's window ends: each run in it that lies in the years that are searched was listed, and more may come after the window.
    Window,
    /// A search was refused, and not because the years that are searched end.
    Failed(CronError),
}

// By hand, so that a function that lets one go calls this one: its proof doesn't go through the fields at each exit.
impl Drop for End {
    fn drop(self) {
        match self {
            End::More => {}
            End::Over => {}
            End::Cut => {}
            End::Window => {}
            End::Failed(_) => {}
        }
    }
}

impl End {
    /// Whether nothing is left in the years that are searched.
    pub fn is_over(&self) -> bool
        ensures { result ≡ is_over self.now }
    {
        match self {
            End::Over => true,
            End::More | End::Cut | End::Window | End::Failed(_) => false,
        }
    }

    /// Whether the listing ends because the clock's window does.
    pub fn is_at_end_of_window(&self) -> bool
        ensures { result ≡ is_at_end_of_window self.now }
    {
        match self {
            End::Window => true,
            End::More | End::Over | End::Cut | End::Failed(_) => false,
        }
    }
}

/// The runs of a listing, the nearest first.
#[derive(Drop)]
pub struct Runs<'t> {
    /// The runs, on the clock of the start.
    pub items: Vec<Run<'t>>,
    /// What is left after them.
    pub end: End,
}

/// The runs of a pattern after a start: so many, or all up to a second. A run at the start itself doesn't count. If the window of the
/// start's clock ends with the second `last`, no run after it is listed.
///
/// It takes memory for as many runs as are asked for, or for `MOST_RUNS` if all up to a second are. The only error is `OutOfMemory`. A
/// search that is refused ends the listing, with `End::Failed`.
pub fn runs_of<'t>(
    alloc: Global,
    job: &Cron,
    start: TableTime<'t>,
    last: Option<i64>,
    listing: Listing,
) -> Result<Runs<'t>, CronError>
    ensures listed { IfOk result (IsListed (runs_listed (job_of job.now) start.entry) last listing) }
    ensures err { IfErr result (λ e. e ≡ CronError.OutOfMemory) }
{
    let mut iterator = job.iter_after(start)?;
    runs_from(alloc, &mut iterator, start, last, listing)
}

// The runs that an iterator gives which is new at a start.
fn runs_from<'t>(
    alloc: Global,
    iterator: &mut CronIterator<TableTime<'t>>,
    start: TableTime<'t>,
    last: Option<i64>,
    listing: Listing,
) -> Result<Runs<'t>, CronError>
    ensures listed { (m : Meaning) → standing_of table_moment iterator.old ≡ starts m start.entry → IfOk result (IsListed (runs_listed m start.entry) last listing) }
    ensures err { IfErr result (λ e. e ≡ CronError.OutOfMemory) }
{
    let until = bound_of(start.second(), last, listing);
    let most = limit_of(listing);
    let (times, ending) = next_runs_until(alloc, iterator, until, most)?;
    let items = runs_once(alloc, times.as_slice())?;
    let end = end_of(listing, last, ending, iterator.fault())?;
    Ok(Runs { items, end })
}

// Times as runs, each once.
pub(crate) fn runs_once<'t>(
    alloc: Global,
    times: &[TableTime<'t>],
) -> Result<Vec<Run<'t>>, AllocError>
    ensures { IfOk result (λ runs. runs.items ≡ map once times.now) }
{
    let mut runs = Vec::new(alloc);
    for time in times {
        runs.push(Run {
            time: *time,
            count: 1,
            made_up: None,
        })?;
    }
    Ok(runs)
}

/// What cron starts of a crontab's job after a start, listed as `runs_of` lists runs: what cron starts at the start itself doesn't count.
///
/// It takes memory for as many starts as are asked for, or for `MOST_RUNS` if all up to a second are, and besides for the runs that are
/// listed. The only error is `OutOfMemory`.
pub fn starts_of<'t>(
    alloc: Global,
    job: &CrontabJob,
    start: TableTime<'t>,
    last: Option<i64>,
    listing: Listing,
) -> Result<Runs<'t>, CronError>
    ensures listed { IfOk result (IsListed (starts_listed (cron_job_of job.now) start.entry) last listing) }
    ensures err { IfErr result (λ e. e ≡ CronError.OutOfMemory) }
{
    let until = bound_of(start.second(), last, listing);
    let most = limit_of(listing);
    let (starts, ending) = next_starts_until(alloc, job, start, until, most)?;
    let items = runs_at(alloc, job, start, starts.as_slice())?;
    let end = end_of_starts(listing, last, ending);
    Ok(Runs { items, end })
}

// Starts of a job as runs on the clock of a time.
pub(crate) fn runs_at<'t>(
    alloc: Global,
    job: &CrontabJob,
    time: TableTime<'t>,
    starts: &[Start],
) -> Result<Vec<Run<'t>>, AllocError>
    requires { All (λ s. is_table_second s.second ≡ true) starts.now }
    ensures seen { IfOk result (λ runs. map run_seen runs.items ≡ map (seen_on time.entry.table.now) starts.now) }
    ensures made_up { IfOk result (λ runs. All (TellsMadeUp (cron_job_of job.now)) runs.items) }
{
    let mut runs = Vec::new(alloc);
    for start in starts {
        runs.push(run_at(job, time, *start))?;
    }
    Ok(runs)
}

// A start of a job as a run on the clock of a time.
fn run_at<'t>(job: &CrontabJob, time: TableTime<'t>, start: Start) -> Run<'t>
    requires { is_table_second start.second ≡ true }
    ensures seen { run_seen result ≡ seen_on time.entry.table.now start }
    ensures made_up { TellsMadeUp (cron_job_of job.now) result }
{
    match TableTime::new(time.table(), start.second) {
        Ok(at) => Run {
            time: at,
            count: start.count,
            made_up: job.first_made_up(&at),
        },
        Err(_) => unreachable!(),
    }
}

// How a listing of starts ends, by how its search ended.
fn end_of_starts(listing: Listing, last: Option<i64>, ending: StartsEnd) -> End
    ensures { result ≡ end_of_starts listing last ending }
{
    match ending {
        StartsEnd::Full => full_end(listing),
        StartsEnd::Past(start) => end_before(start.second, last),
        StartsEnd::Over => end_of_years(last),
    }
}

// The last second of the search, if it has one. If no run is asked for, that is the start: then the next run ends the search, and is left.
pub(crate) fn bound_of(start: i64, last: Option<i64>, listing: Listing) -> Option<i64>
    ensures { result ≡ bound start last listing }
{
    match listing {
        Listing::Count(0) => Some(start),
        Listing::Count(_) => last,
        Listing::Until(until) => Some(earlier_of(until, last)),
    }
}

// The earlier of two seconds, of which the second one may be none.
fn earlier_of(until: i64, last: Option<i64>) -> i64
    ensures { result ≡ earlier_of until last }
{
    match last {
        Some(last) if last < until => last,
        _ => until,
    }
}

// The most runs that are searched.
pub(crate) fn limit_of(listing: Listing) -> u32
    ensures { result ≡ limit listing }
{
    match listing {
        Listing::Count(0) => 1,
        Listing::Count(count) => count,
        Listing::Until(_) => MOST_RUNS,
    }
}

// How a listing ends, by how its search ended and the fault that this left. The only error is lack of memory in the search.
pub(crate) fn end_of(
    listing: Listing,
    last: Option<i64>,
    ending: ListingEnd,
    fault: Option<&CronError>,
) -> Result<End, CronError>
    ensures ends { IfOk result (EndsBy listing last ending (option_map (λ e. e.now) fault.entry)) }
    ensures err { IfErr result (λ e. e ≡ CronError.OutOfMemory) }
{
    match ending {
        ListingEnd::Full => Ok(full_end(listing)),
        ListingEnd::Past(run) => Ok(end_before(run, last)),
        ListingEnd::Over => Ok(end_of_years(last)),
        ListingEnd::Refused => failed_end(fault),
    }
}

// How a listing ends that has as many runs as are searched at most.
fn full_end(listing: Listing) -> End
    ensures { result ≡ full_end listing }
{
    match listing {
        Listing::Count(_) => End::More,
        Listing::Until(_) => End::Cut,
    }
}

// How a listing ends whose next run is this one.
fn end_before(run: i64, last: Option<i64>) -> End
    ensures { result ≡ end_before run last }
{
    match last {
        Some(last) if last < run => End::Window,
        _ => End::More,
    }
}

// How a listing ends that reaches the end of the years that are searched: more may come after the end of a window.
fn end_of_years(last: Option<i64>) -> End
    ensures { result ≡ end_of_years last }
{
    match last {
        Some(_) => End::Window,
        None => End::Over,
    }
}

// How a listing ends with a search that was refused, and left this fault.
pub(crate) fn failed_end(fault: Option<&CronError>) -> Result<End, CronError>
    ensures ends { IfOk result (IsFailedBy (option_map (λ e. e.now) fault.entry)) }
    ensures err { IfErr result (λ e. e ≡ CronError.OutOfMemory) }
{
    match fault {
        None | Some(CronError::OutOfMemory) => Err(CronError::OutOfMemory),
        Some(fault) => {
            let fault = fault.clone()?;
            Ok(End::Failed(fault))
        }
    }
}

/// What is listed on the clock of a zone is listed in the zone itself, as far as it lies in the clock's window.
///
/// For every pattern, from a start well in the window:
///
/// - items that begin the listing on the clock, none after the window's last second, begin that of the zone;
/// - where none is left out on the clock up to a second of the window, none of the zone's runs is;
/// - where the items are all that is left on the clock in the years that are searched, each run of the zone that lies in the window and in
///   these years is among them;
/// - no run on a clock lies after the last second of a window that has no stop.
pub fn runs_are_the_zones(clock: &Clock)
    ensures begins { (zone : TimeZone) (first last : ℤ) (m : Meaning) (start : TableTime) →
        IsOnClockOf zone first last (table_zone clock.now.table) (table_moment start) → (items : List ℤ) → BeginsRest (starts m start) items →
        All (λ i. i ≤ℤ last) items → BeginsRest (in_zone (zoned_zone zone) (starts m start)) items }
    ensures until { (zone : TimeZone) (first last : ℤ) (m : Meaning) (start : TableTime) →
        IsOnClockOf zone first last (table_zone clock.now.table) (table_moment start) → (items : List ℤ) (until : ℤ) → until ≤ℤ last →
        GaveUntil (IsLeft (starts m start)) until items → GaveUntil (IsLeft (in_zone (zoned_zone zone) (starts m start))) until items }
    ensures all { (zone : TimeZone) (first last : ℤ) (m : Meaning) (start : TableTime) →
        IsOnClockOf zone first last (table_zone clock.now.table) (table_moment start) → (items : List ℤ) (i : ℤ) → i ≤ℤ last →
        GaveAll (starts m start) items → IsLeft (in_zone (zoned_zone zone) (starts m start)) i →
        InSpan Direction.Forward (zoned_zone zone).reads i → Contains items i }
    ensures within { (m : Meaning) (start : TableTime) (i : ℤ) → IsLeft (starts m start) i → i ≤ℤ last_second }
{
    listing_of_a_window(clock.table());
}
