//! The minutes that a pattern names. Minutes are counted from 1970-01-01T00:00 on the wall clock.
ghost use Rattle.std.specs.Prelude.{◌≡◌, ◌↔◌, IsTrue, ◌+ℤ◌, ◌*ℤ◌, ◌<ℤ◌, ◌≤ℤ◌, pos, neg_ℤ, MatchOption};
ghost use Rattle.croner_pattern.specs.Directions.{Reaches};
ghost use Rattle.croner_pattern.specs.Meaning.{Meaning};
ghost use Rattle.croner_base.specs.Calm.{IsSearched};
ghost use Rattle.croner_base.specs.Civil.{wall_second};
ghost use Rattle.croner.specs.Views.{job_of};
ghost use Rattle.croner.specs.search.Limit.{IsWithin};
ghost use Rattle.crontab_runs.specs.Starts.{minute_of as minute_at};
ghost use Rattle.crontab_runs.specs.Private.Nearest.{IsBeyond, IsSearchStart, NoneNamed, IsNearestNamed};
ghost use Rattle.crontab_runs.specs.Private.Nearest.{first_past};

use croner::{CivilDateTime, Cron, Direction};
use croner_base::limits::{FIRST_SEARCHED_SECOND, LAST_SEARCHED_SECOND, SECONDS_PER_DAY};
use croner_pattern::cursor::next_scheduled;

pub(crate) const SECONDS_PER_MINUTE: i64 = 60;

/// The seconds from the first second of a minute to its last.
pub(crate) const SECONDS_TO_LAST: i64 = SECONDS_PER_MINUTE - 1;

/// The first minute of the years that a pattern can name.
const FIRST_MINUTE: i64 = FIRST_SEARCHED_SECOND / SECONDS_PER_MINUTE;

/// The last one.
const LAST_MINUTE: i64 = (LAST_SEARCHED_SECOND + 1) / SECONDS_PER_MINUTE - 1;

/// The minute in which a wall second lies.
pub(crate) fn minute_of(wall: i64) -> i64
    ensures { result ≡ minute_at wall }
{
    wall.div_euclid(SECONDS_PER_MINUTE)
}

/// The seconds of the years 1 and 5000.
const SECONDS_PER_YEAR: i64 = 365 * SECONDS_PER_DAY as i64;

/// The first wall second of year 2, and that of year 5000. Between them a search leaves nothing out.
const FIRST_WITHIN: i64 = FIRST_SEARCHED_SECOND + SECONDS_PER_YEAR;

const FIRST_BEYOND: i64 = LAST_SEARCHED_SECOND + 1 - SECONDS_PER_YEAR;

/// Whether a wall second lies before year 5000 (forward) or after year 1 (backward).
pub(crate) fn is_within(wall: i64, direction: Direction) -> bool
    ensures { IsTrue result ↔ IsWithin direction wall }
{
    match direction {
        Direction::Forward => wall < FIRST_BEYOND,
        Direction::Backward => wall >= FIRST_WITHIN,
    }
}

// The date and time of a wall second of the years that a pattern can name.
fn civil_of(wall: i64) -> CivilDateTime
    requires { IsSearched wall }
    ensures { wall_second result ≡ wall }
{
    match CivilDateTime::of_wall_second(wall) {
        Some(civil) => civil,
        None => unreachable!(),
    }
}

// The wall second from which the civil search for a named minute starts, given the minute from which on: that minute's first second
// forward, its last backward. `None` past the years that a pattern can name.

fn search_start(from: i64, direction: Direction) -> Option<i64>
    ensures { MatchOption result (IsBeyond direction from) (IsSearchStart direction from) }
{
    match direction {
        Direction::Forward => {
            if from > LAST_MINUTE {
                return None;
            }
            Some(from.max(FIRST_MINUTE) * SECONDS_PER_MINUTE)
        }
        Direction::Backward => {
            if from < FIRST_MINUTE {
                return None;
            }
            Some(from.min(LAST_MINUTE) * SECONDS_PER_MINUTE + SECONDS_TO_LAST)
        }
    }
}

/// The nearest minute that a job names, from one on, itself included. `None` where none is left before year 5000 (forward) or after year
/// 1 (backward).
pub(crate) fn nearest_named(cron: &Cron, from: i64, direction: Direction) -> Option<i64>
    ensures { MatchOption result (NoneNamed direction (job_of cron.now) from) (IsNearestNamed direction (job_of cron.now) from) }
{
    let Some(second) = search_start(from, direction) else {
        return None;
    };
    match next_scheduled(&cron.pattern, civil_of(second), direction) {
        Some(found) => Some(minute_of(found.wall_second())),
        None => None,
    }
}

/// No pattern names a minute this far from 1970.
const FAR_MINUTES: i64 = 2_000_000_000;

// Whether a minute is another one, or comes after it in a direction.
fn reaches(direction: Direction, from: i64, minute: i64) -> bool
    ensures { IsTrue result ↔ Reaches direction from minute }
{
    match direction {
        Direction::Forward => from <= minute,
        Direction::Backward => minute <= from,
    }
}

// The first minute past the searched years.
fn first_past(direction: Direction) -> i64
    ensures { result ≡ first_past direction }
{
    match direction {
        Direction::Forward => FIRST_BEYOND / SECONDS_PER_MINUTE,
        Direction::Backward => FIRST_WITHIN / SECONDS_PER_MINUTE - 1,
    }
}

/// What a search knows of a job's minutes: the nearest one that it names, from a minute on, itself included. `None` where none is left
/// before year 5000 (forward) or after year 1 (backward).
#[derive(Clone, Copy)]
pub(crate) struct NearestMinute {
    pub(crate) direction: Direction,
    pub(crate) from: i64,
    pub(crate) nearest: Option<i64>,
}

impl NearestMinute {
    ghost use Rattle.crontab_runs.specs.Private.Known.{IsKnown, Serves, AreAllFrom, far_minutes};

    /// What is known before any search: no job names a minute beyond all years.
    pub(crate) fn before_any_search(direction: Direction) -> NearestMinute
        ensures direction { result.direction ≡ direction }
        ensures known { (m : Meaning) → IsKnown m result }
    {
        let from = match direction {
            Direction::Forward => FAR_MINUTES,
            Direction::Backward => -FAR_MINUTES,
        };
        NearestMinute {
            direction,
            from,
            nearest: None,
        }
    }

    // Whether what is known also holds from another minute on.
    fn serves(&self, from: i64) -> bool
        ensures { IsTrue result → Serves self.now from }
    {
        if !reaches(self.direction, self.from, from) {
            return false;
        }
        match self.nearest {
            Some(minute) => reaches(self.direction, from, minute),
            None => true,
        }
    }

    /// The nearest named minute from another one on. It is searched for where it isn't known.
    pub(crate) fn nearest_from(&self, cron: &Cron, from: i64) -> Option<i64>
        requires { IsKnown (job_of cron.now) self.now }
        ensures { MatchOption result (NoneNamed self.now.direction (job_of cron.now) from) (IsNearestNamed self.now.direction (job_of cron.now) from) }
    {
        if self.serves(from) {
            self.nearest
        } else {
            nearest_named(cron, from, self.direction)
        }
    }

    /// What is known from another minute on.
    pub(crate) fn known_from(&self, cron: &Cron, from: i64) -> NearestMinute
        requires { IsKnown (job_of cron.now) self.now }
        ensures direction { result.direction ≡ self.now.direction }
        ensures from { result.from ≡ from }
        ensures known { IsKnown (job_of cron.now) result }
    {
        NearestMinute {
            direction: self.direction,
            from,
            nearest: self.nearest_from(cron, from),
        }
    }

    /// The first minute that the job may name from `from` on: the nearest named one, or the first past the searched years.
    pub(crate) fn first(&self, cron: &Cron) -> i64
        requires { IsKnown (job_of cron.now) self.now }
        ensures all { AreAllFrom self.now.direction (job_of cron.now) self.now.from result }
        ensures low { neg_ℤ (pos far_minutes) ≤ℤ result }
        ensures high { result ≤ℤ pos far_minutes }
    {
        match self.nearest {
            Some(minute) => minute,
            None => first_past(self.direction),
        }
    }
}
