//! The starts of a job after a time, or backward from it, the nearest first, and a listing of them up to a second.
ghost use Rattle.std.specs.Prelude.{◌≡◌, ◌<◌, ◌↔◌, ◌-ℤ◌, pos, IfOk, IfSome, IsTrue, MatchOption, true, vec_len, vec_capacity};
ghost use Rattle.croner_base.specs.Table.{is_table_second};
ghost use Rattle.croner_base.specs.TableZone.{table_moment};
ghost use Rattle.croner_base.specs.declared.time.Direction.{Direction};
ghost use Rattle.croner.specs.laws.Until.{ComesBy};
ghost use Rattle.crontab_runs.specs.Listing.{onward_from, Steps, ListsStartsIn, ListsStarts};
ghost use Rattle.crontab_runs.specs.Private.Listings.{TakesUntil};
ghost use Rattle.crontab_runs.specs.Searches.{IsStartFound, NoStartLeft};
ghost use Rattle.crontab_runs.specs.Views.{cron_job_of};

use crate::job::{CrontabJob, Start};
use croner::Direction;
use croner::time::table::TableTime;
use std::alloc::{AllocError, Global};

/// The starts of a job in a direction, each once and none left out: those after a time, in order; or those up to and including a time, the
/// latest first.
///
/// Where `next` gives `None`, no start is left in the searched years. These end when the clock first shows year 5000, and begin when it
/// last shows year 1.
#[derive(Debug, Clone, Copy)]
pub struct StartIterator<'j, 't> {
    job: &'j CrontabJob,
    position: TableTime<'t>,
    direction: Direction,
}

impl<'j, 't> StartIterator<'j, 't> {
    /// The starts of a job after a time. No search is made before the first call of `next`.
    ///
    /// ```
    /// let job = CrontabJob { cron: Cron::from_str(alloc, "30 2 * * *")?, is_starred: false };
    /// let mut starts = StartIterator::new(&job, TableTime::new(&paris, 1_806_188_400)?); // 2027-03-28T00:00:00
    /// let first = starts.next(); // Some: the second 1806195600, once
    /// let second = starts.next(); // Some: the second 1806280200, once
    /// ```
    pub fn new(job: &'j CrontabJob, after: TableTime<'t>) -> StartIterator<'j, 't>
        ensures job { result.job.now ≡ job.now }
        ensures position { result.position ≡ after.entry }
        ensures direction { result.direction ≡ Direction.Forward }
    {
        StartIterator {
            job,
            position: after,
            direction: Direction::Forward,
        }
    }

    /// The starts of a job up to and including a time, the latest first. No search is made before the first call of `next`.
    ///
    /// ```
    /// let job = CrontabJob { cron: Cron::from_str(alloc, "30 2 * * *")?, is_starred: false };
    /// let mut starts = StartIterator::backward(&job, TableTime::new(&paris, 1_806_195_600)?); // 2027-03-28T03:00:00
    /// let first = starts.next(); // Some: the second 1806195600, once
    /// let second = starts.next(); // Some: the second 1806111000, once
    /// ```
    pub fn backward(job: &'j CrontabJob, until: TableTime<'t>) -> StartIterator<'j, 't>
        ensures job { result.job.now ≡ job.now }
        ensures position { result.position ≡ until.entry }
        ensures direction { result.direction ≡ Direction.Backward }
    {
        StartIterator {
            job,
            position: until,
            direction: Direction::Backward,
        }
    }

    // The nearest start.
    fn nearest_start(&self) -> Option<Start>
        ensures found { MatchOption result
            (NoStartLeft self.now.direction (cron_job_of self.now.job.now) (table_moment self.now.position))
            (IsStartFound self.now.direction (cron_job_of self.now.job.now) (table_moment self.now.position)) }
        ensures held { IfSome result (λ s. is_table_second (onward_from self.now.direction s.second) ≡ true) }
    {
        match self.direction {
            Direction::Forward => self.job.next_after(&self.position),
            Direction::Backward => self.job.last_until(&self.position),
        }
    }
}

impl<'j, 't> Iterator for StartIterator<'j, 't> {
    type Item = Start;

    ghost next_gives = { Steps };

    fn next(&mut self) -> Option<Start> {
        match self.nearest_start() {
            Some(start) => {
                let second = onward_from(self.direction, start.second);
                self.position = time_at(&self.position, second);
                Some(start)
            }
            None => None,
        }
    }
}

// From where a search goes on past a start: forward it leaves that second out, backward it includes the one before.
fn onward_from(direction: Direction, second: i64) -> i64
    requires { is_table_second second ≡ true }
    ensures { result ≡ onward_from direction second }
{
    match direction {
        Direction::Forward => second,
        Direction::Backward => second - 1,
    }
}

// Another second on the same clock.
fn time_at<'t>(time: &TableTime<'t>, second: i64) -> TableTime<'t>
    requires { is_table_second second ≡ true }
    ensures second { result.second ≡ second }
    ensures table { result.table.now ≡ time.now.table.now }
{
    match TableTime::new(time.table(), second) {
        Ok(at) => at,
        Err(_) => unreachable!(),
    }
}

/// How a listing of starts up to a second ended.
#[derive(Debug, Clone, Copy, PartialEq, Eq, Hash)]
pub enum StartsEnd {
    /// The listing has `most` starts. No search was made past the last of them.
    Full,
    /// The next start in the listing's direction lies past the second. It is this one.
    Past(Start),
    /// No start is left in the searched years.
    Over,
}

/// The first starts of a job after a time, and how the listing ended: at most `most`, and up to and including the second `until`
/// if one is given. The second is counted from 1970-01-01T00:00:00 UTC.
///
/// The starts are in order, with none left out up to the last, and each has the number of times that cron starts the job then. One search
/// is made for each, until there are `most`, a start lies past the second, or none is left.
///
/// The only error is lack of memory for `most` starts, which is reserved first.
///
/// ```
/// let job = CrontabJob { cron: Cron::from_str(alloc, "30 2 * * *")?, is_starred: false };
/// let midnight = TableTime::new(&paris, 1_806_188_400)?; // 2027-03-28T00:00:00
/// let (starts, end) = next_starts_until(alloc, &job, midnight, Some(1_806_274_800), 10)?; // one start, and Past: that of 2027-03-29
/// ```
pub fn next_starts_until(
    alloc: Global,
    job: &CrontabJob,
    after: TableTime<'_>,
    until: Option<i64>,
    most: u32,
) -> Result<(Vec<Start>, StartsEnd), AllocError>
    ensures { IfOk result (λ r. ListsStarts (cron_job_of job.now) (table_moment after.entry) until most r.0.items r.1) }
{
    starts_until(alloc, StartIterator::new(job, after), until, most)
}

/// The last starts of a job up to and including a time, the latest first, and how the listing ended: at most `most`, and back to and
/// including the second `until` if one is given. The second is counted from 1970-01-01T00:00:00 UTC.
///
/// They go back in order, with none left out down to the last, and each has the number of times that cron starts the job then. So a start
/// is either one of these or one of [`next_starts_until`] after the same time, never both. Searches are made as there.
///
/// The only error is lack of memory for `most` starts, which is reserved first.
///
/// ```
/// let job = CrontabJob { cron: Cron::from_str(alloc, "30 2 * * *")?, is_starred: false };
/// let noon = TableTime::new(&paris, 1_806_228_000)?; // 2027-03-28T12:00:00
/// let (starts, end) = last_starts_until(alloc, &job, noon, None, 2)?; // the seconds 1806195600 and 1806111000, and Full
/// ```
pub fn last_starts_until(
    alloc: Global,
    job: &CrontabJob,
    time: TableTime<'_>,
    until: Option<i64>,
    most: u32,
) -> Result<(Vec<Start>, StartsEnd), AllocError>
    ensures { IfOk result (λ r. ListsStartsIn Direction.Backward (cron_job_of job.now) (table_moment time.entry) until most r.0.items r.1) }
{
    starts_until(alloc, StartIterator::backward(job, time), until, most)
}

// The first starts of an iterator in its direction: at most `most`, and up to a second.
fn starts_until(
    alloc: Global,
    iterator: StartIterator<'_, '_>,
    until: Option<i64>,
    most: u32,
) -> Result<(Vec<Start>, StartsEnd), AllocError>
    ensures { IfOk result (λ r. ListsStartsIn iterator.entry.direction (cron_job_of iterator.entry.job.now) (table_moment iterator.entry.position)
        until most r.0.items r.1) }
{
    let mut starts = Vec::with_capacity(alloc, most as usize)?;
    let mut left = iterator;
    for _call in 0..most {
        if let Some(end) = take_next_until(&mut left, &mut starts, until) {
            return Ok((starts, end));
        }
    }
    Ok((starts, StartsEnd::Full))
}

// Appends the next start to the others unless it lies past the second; or returns how the listing ends.
fn take_next_until(
    left: &mut StartIterator<'_, '_>,
    starts: &mut Vec<Start>,
    until: Option<i64>,
) -> Option<StartsEnd>
    requires room { vec_len starts.old < vec_capacity starts.old }
    ensures takes { TakesUntil until left.old left.new starts.old.items starts.new.items result }
    ensures room { vec_capacity starts.new ≡ vec_capacity starts.old }
{
    let direction = left.direction;
    match left.next() {
        Some(start) => {
            if !comes_by(direction, until, start.second) {
                return Some(StartsEnd::Past(start));
            }
            starts.push_reserved(start);
            None
        }
        None => Some(StartsEnd::Over),
    }
}

// Whether a second comes no later in a direction than another, if there is another.
fn comes_by(direction: Direction, until: Option<i64>, second: i64) -> bool
    ensures { IsTrue result ↔ ComesBy direction until second }
{
    match (until, direction) {
        (None, _) => true,
        (Some(until), Direction::Forward) => second <= until,
        (Some(until), Direction::Backward) => until <= second,
    }
}
