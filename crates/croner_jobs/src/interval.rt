//! A job at regular intervals.
ghost use Rattle.std.specs.Prelude.{◌≡◌, ◌<◌, ◌≤ℤ◌, ◌-ℤ◌, pos, Some, MatchOption};
ghost use Rattle.croner_base.specs.declared.time.Direction.{Direction};
ghost use Rattle.croner_jobs.specs.Served.{IsIn, first_served, last_served};

use crate::clock::NearUtc;
use crate::seek::{Seek, run_at};
use crate::window::search_served;
use croner::errors::CronError;
use croner::{Direction, Recurring};

/// A job that runs at a first second, and from then on every so many seconds, whatever the clock shows.
///
/// ```
/// let every_90_minutes = Interval::new(1_712_030_400, 5_400); // Some: 2024-04-02T04:00:00Z, 05:30:00Z, ..
/// ```
#[derive(Debug, Clone, Copy)]
pub struct Interval {
    first: i64,
    seconds: u32,
    pub ghost positive: { 0 < seconds },
}

impl Interval {
    ghost use Rattle.croner_jobs.specs.Private.Multiples.{IsSince, IsMultiple};

    /// From a first second on, in seconds since 1970-01-01T00:00:00 UTC, every `seconds` seconds. `None` where that is 0.
    pub fn new(first: i64, seconds: u32) -> Option<Interval>
        ensures { MatchOption result (seconds ≡ 0) (λ it. (it.first ≡ first) × (it.seconds ≡ seconds)) }
    {
        if seconds == 0 {
            return None;
        }
        Some(Interval { first, seconds })
    }

    /// The first second.
    pub fn first(self) -> i64
        ensures { result ≡ self.first }
    {
        self.first
    }

    /// How many seconds lie between two runs: 1 or more.
    pub fn seconds(self) -> u32
        ensures value { result ≡ self.seconds }
        ensures positive { 0 < result }
    {
        self.seconds
    }

    // The nearest of its seconds from a second; `None` where none counts.
    fn multiple_from(self, direction: Direction, second: i64) -> Option<i64>
        requires { IsIn (first_served -ℤ pos 1) last_served second }
        ensures { IsMultiple direction self.first self.seconds second result }
    {
        match direction {
            Direction::Forward => Some(self.next_after_second(second)),
            Direction::Backward => self.last_until_second(second),
        }
    }

    // The first of its seconds after a second.
    fn next_after_second(self, second: i64) -> i64
        requires { IsIn (first_served -ℤ pos 1) last_served second }
        ensures { IsMultiple Direction.Forward self.first self.seconds second (Some result) }
    {
        if second < self.first {
            return self.first;
        }
        second + (i64::from(self.seconds) - self.passed(second))
    }

    // The last of its seconds up to a second; `None` before the first.
    fn last_until_second(self, second: i64) -> Option<i64>
        requires { IsIn (first_served -ℤ pos 1) last_served second }
        ensures { IsMultiple Direction.Backward self.first self.seconds second result }
    {
        if second < self.first {
            return None;
        }
        Some(second - self.passed(second))
    }

    // How many seconds a second is after the last of the interval's seconds up to it.
    fn passed(self, second: i64) -> i64
        requires { self.first ≤ℤ second }
        ensures { IsSince self.first self.seconds second result }
    {
        (second.abs_diff(self.first) % u64::from(self.seconds)) as i64
    }
}

impl<T: NearUtc> Seek<T> for Interval {
    ghost use Rattle.croner_jobs.specs.Private.Multiples.{multiples};

    ghost sought = { λ it. multiples it.first it.seconds };

    fn seek(&self, direction: Direction, start: &T, second: i64) -> Result<Option<T>, CronError> {
        match self.multiple_from(direction, second) {
            Some(found) => run_at(start, found),
            None => Ok(None),
        }
    }
}

impl<T: NearUtc> Recurring<T> for Interval {
    ghost use Rattle.croner_jobs.specs.Runs.{interval_runs};

    ghost runs = { λ it. interval_runs it.first it.seconds };

    fn next_after(&self, after: &T) -> Result<T, CronError> {
        search_served(self, Direction::Forward, after)
    }

    fn last_until(&self, until: &T) -> Result<T, CronError> {
        search_served(self, Direction::Backward, until)
    }
}
