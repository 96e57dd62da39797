//! The search for a start in a stretch of the clock.
ghost use Rattle.std.specs.Prelude.{◌≡◌, ◌↔◌, IsTrue, MatchOption, ℤ, pos, neg_ℤ, ◌+ℤ◌, ◌-ℤ◌, ◌<ℤ◌, ◌≤ℤ◌};
ghost use Rattle.croner_pattern.specs.Directions.{Reaches};
ghost use Rattle.croner.specs.search.Limit.{IsWithin};
ghost use Rattle.crontab_runs.specs.Private.Stretches.{far};

use crate::job::{CrontabJob, Start};
use crate::minutes::{NearestMinute, SECONDS_PER_MINUTE, SECONDS_TO_LAST, is_within, minute_of};
use crate::stretch::Stretch;
use croner::Direction;

/// A search in a stretch, from one of its seconds on, itself included.
#[derive(Clone, Copy)]
pub(crate) struct StretchSearch<'p, 't> {
    pub(crate) job: &'p CrontabJob,
    pub(crate) stretch: Stretch<'t>,
    pub(crate) from: i64,
    pub(crate) direction: Direction,
    pub ghost low: { stretch.begin ≤ℤ from },
    pub ghost high: { from <ℤ stretch.end },
}

impl<'p, 't> StretchSearch<'p, 't> {
    ghost use Rattle.crontab_runs.specs.Private.Found.{least_in, AfterBegin, Within, NoneOf, IsFoundOf, NoneAtBegin, IsFoundAtBegin, NoneAtBeginWithin, IsFoundAtBeginWithin, IsNearestFrom, KnowsOf};
    ghost use Rattle.crontab_runs.specs.Private.Parts.{least_minute, minute_from as first_minute};

    // The least minute that begins after the first second of the stretch, and for which the job may be started.
    fn least_minute(&self) -> i64
        ensures { result ≡ least_in self.now }
    {
        let first = minute_of(self.stretch.begin + self.stretch.offset) + 1;
        if self.job.is_starred {
            first
        } else {
            first.max(minute_of(self.stretch.before) + 1)
        }
    }

    // The minute from which the search for a named one starts.
    fn minute_from(&self) -> i64
        ensures { result ≡ first_minute self.now.direction (self.now.from +ℤ self.now.stretch.offset) (least_in self.now) }
    {
        let wall = self.from + self.stretch.offset;
        match self.direction {
            Direction::Forward => minute_of(wall + SECONDS_TO_LAST).max(self.least_minute()),
            Direction::Backward => minute_of(wall),
        }
    }

    /// The minute from which a search in the stretch starts: forward from its first second, the least for which anything can be started.
    pub(crate) fn first_minute(&self) -> i64 {
        match self.direction {
            Direction::Forward => {
                if self.reaches_begin() {
                    self.stretch.least_after_begin()
                } else {
                    self.minute_from()
                }
            }
            Direction::Backward => self.minute_from(),
        }
    }

    // The nearest start after the first second of the stretch: there cron starts a job for one minute at a time.
    fn start_after_begin(&self, known: &NearestMinute) -> Option<Start>
        requires { KnowsOf self.now known.now }
        ensures { MatchOption result (NoneOf self.now (AfterBegin self.now)) (IsFoundOf self.now (AfterBegin self.now)) }
    {
        match known.nearest_from(&self.job.cron, self.minute_from()) {
            Some(minute) => self.start_for(minute),
            None => None,
        }
    }

    // The start for the nearest named minute, if it lies in the stretch.
    fn start_for(&self, minute: i64) -> Option<Start>
        requires { IsNearestFrom self.now minute }
        ensures { MatchOption result (NoneOf self.now (AfterBegin self.now)) (IsFoundOf self.now (AfterBegin self.now)) }
    {
        let second = minute * SECONDS_PER_MINUTE - self.stretch.offset;
        if minute < self.least_minute() {
            return None;
        }
        if second >= self.stretch.end {
            return None;
        }
        Some(Start { second, count: 1 })
    }

    // Whether the search reaches the first second of the stretch: forward, only if it starts there.
    fn reaches_begin(&self) -> bool
        ensures { IsTrue result ↔ Reaches self.now.direction self.now.from self.now.stretch.begin }
    {
        match self.direction {
            Direction::Forward => self.from <= self.stretch.begin,
            Direction::Backward => true,
        }
    }

    // The start at the first second of the stretch.
    fn start_at_begin(&self, known: &NearestMinute) -> Option<Start>
        requires { KnowsOf self.now known.now }
        ensures { MatchOption result (NoneAtBegin self.now) (IsFoundAtBegin self.now) }
    {
        if !self.reaches_begin() {
            return None;
        }
        let count = self.job.count_at_begin(known, &self.stretch);
        if count == 0 {
            return None;
        }
        Some(Start {
            second: self.stretch.begin,
            count,
        })
    }

    // The same where it lies in the searched years.
    fn start_at_begin_within(&self, known: &NearestMinute) -> Option<Start>
        requires { KnowsOf self.now known.now }
        ensures { MatchOption result (NoneAtBeginWithin self.now) (IsFoundAtBeginWithin self.now) }
    {
        if is_within(self.stretch.begin + self.stretch.offset, self.direction) {
            self.start_at_begin(known)
        } else {
            None
        }
    }

    /// The nearest start in the stretch. `None` where none is left before year 5000 (forward) or after year 1 (backward).
    pub(crate) fn nearest_start(&self, known: &NearestMinute) -> Option<Start>
        requires { KnowsOf self.now known.now }
        ensures { MatchOption result (NoneOf self.now (Within self.now)) (IsFoundOf self.now (Within self.now)) }
    {
        match self.direction {
            Direction::Forward => match self.start_at_begin(known) {
                Some(start) => Some(start),
                None => self.start_after_begin(known),
            },
            Direction::Backward => match self.start_after_begin(known) {
                Some(start) => Some(start),
                None => self.start_at_begin_within(known),
            },
        }
    }
}
