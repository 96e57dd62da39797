//! The nearest run of a schedule in a zone.
mod distance;
pub(crate) mod fold;
mod gap;
pub(crate) mod instant;
mod pattern;
mod schedule;
mod walk;
pub(crate) mod wall;

ghost use Rattle.std.specs.Prelude.{◌≡◌, ◌↔◌, true, IsTrue, IfOk, IfErr, Err, None};
ghost use Rattle.croner_base.specs.declared.errors.CronError.TheVariants.{TimeSearchLimitExceeded};
ghost use Rattle.croner_base.specs.Civil.{wall_second};
ghost use Rattle.croner_base.specs.Zone.{reading};
ghost use Rattle.croner.specs.search.Limit.{IsWithin};
ghost use Rattle.croner.specs.search.Runs.{job_in};
ghost use Rattle.croner.specs.search.Searches.{IsFound, IsRefused};
ghost use Rattle.croner.specs.Private.search.Walk.{IsWalkRefused, HasWalked, IsWalked};
ghost use Rattle.croner.specs.Private.search.Halves.{CountsBoth, HasOtherHalf, IsHalfRefused};
ghost use Rattle.croner.specs.Private.search.Sought.{start_of, sought, IsAnswerOf, IsRefusalOf};

use crate::search::fold::{is_on_first_half, other_edge};
use crate::search::instant::{instant_on, opposite_way, precedes};
use crate::search::wall::is_within;
use croner_base::errors::CronError;
use croner_base::time::{CivilDateTime, CronDateTime, Direction};
pub(crate) use schedule::Schedule;
use std::alloc::Global;

/// A search for the nearest run of a schedule.
#[derive(Drop)]
pub(crate) struct Search<'s, T, S> {
    alloc: Global,
    schedule: &'s S,
    /// The time that it starts at.
    start: &'s T,
    /// What the start reads.
    shown: CivilDateTime,
    /// Whether the start itself counts.
    inclusive: bool,
    direction: Direction,
}

impl<'s, T: CronDateTime, S: Schedule> Search<'s, T, S> {
    // Whether the other half of a repeated range counts too: not so for a fixed-time job forward.
    fn counts_both(&self) -> bool
        requires { S.shaped self.now.schedule.now }
        ensures { IsTrue result ↔ CountsBoth self.now.direction (S.timetable self.now.schedule.now).fixed_time }
    {
        match self.direction {
            Direction::Forward => !self.schedule.is_fixed_time(),
            Direction::Backward => true,
        }
    }

    // The nearest instant of the other half, where the start is on the half that comes first; `None` where it is on no such half.
    // `TimeSearchLimitExceeded` where a day on is still on the start's half, which no calm zone has.
    fn other_half(&self) -> Result<Option<T>, CronError>
        requires { wall_second self.now.shown ≡ reading (start_of T.moment self.now) }
        ensures value { IfOk result (HasOtherHalf T.moment self.now.direction (start_of T.moment self.now)) }
        ensures err { IfErr result (IsHalfRefused T.can_lack_memory (start_of T.moment self.now)) }
    {
        if !is_on_first_half(self.alloc, self.start, self.shown, self.direction)? {
            return Ok(None);
        }
        match other_edge(self.alloc, self.start, self.direction)? {
            Some(edge) => Ok(Some(edge)),
            None => Err(CronError::TimeSearchLimitExceeded),
        }
    }

    // The walk over the other half, from its edge on.
    fn walk_from(&self, edge: &T) -> Result<Option<T>, CronError>
        requires { S.shaped self.now.schedule.now }
        ensures value { IfOk result (HasWalked T.moment self.now.direction true
            (job_in (T.moment edge.now).zone (S.timetable self.now.schedule.now)) (T.moment edge.now)) }
        ensures err { IfErr result (IsWalkRefused T.can_lack_memory self.now.direction true (S.timetable self.now.schedule.now) (T.moment edge.now)) }
    {
        let across = Search {
            alloc: self.alloc,
            schedule: self.schedule,
            start: edge,
            shown: edge.to_civil(),
            inclusive: true,
            direction: self.direction,
        };
        across.walk()
    }

    // The nearer of the first walk's answer and that of the other half, where the start is on the half that comes first.
    fn nearer_half(&self, first: T) -> Result<T, CronError>
        requires shaped { S.shaped self.now.schedule.now }
        requires shown { wall_second self.now.shown ≡ reading (start_of T.moment self.now) }
        requires walked { IsWalked T.moment self.now.direction self.now.inclusive (sought T.moment S.timetable self.now) (start_of T.moment self.now) first }
        ensures found { IfOk result (IsAnswerOf T.moment S.timetable self.now) }
        ensures refused { IfErr result (IsRefusalOf T.moment S.timetable T.can_lack_memory self.now) }
    {
        if !self.counts_both() {
            return Ok(first);
        }
        let Some(edge) = self.other_half()? else {
            return Ok(first);
        };
        if precedes(&first, &edge, self.direction) {
            return Ok(first);
        }
        let Some(second) = self.walk_from(&edge)? else {
            return Err(CronError::TimeSearchLimitExceeded);
        };
        if precedes(&second, &first, self.direction) {
            Ok(second)
        } else {
            Ok(first)
        }
    }

    // After the first walk's limit: the walk over the other half, where the start is on the half that comes first. From a start
    // outside the span nothing more is asked: no instant from there on lies in it.
    fn after_limit(&self) -> Result<T, CronError>
        requires shaped { S.shaped self.now.schedule.now }
        requires shown { wall_second self.now.shown ≡ reading (start_of T.moment self.now) }
        requires out { HasWalked T.moment self.now.direction self.now.inclusive (sought T.moment S.timetable self.now) (start_of T.moment self.now) None }
        ensures found { IfOk result (IsAnswerOf T.moment S.timetable self.now) }
        ensures refused { IfErr result (IsRefusalOf T.moment S.timetable T.can_lack_memory self.now) }
        ensures past { ¬ (IsWithin self.now.direction (reading (start_of T.moment self.now))) → result ≡ Err TimeSearchLimitExceeded }
    {
        if !self.counts_both() {
            return Err(CronError::TimeSearchLimitExceeded);
        }
        if !is_within(self.shown, self.direction) {
            return Err(CronError::TimeSearchLimitExceeded);
        }
        let Some(edge) = self.other_half()? else {
            return Err(CronError::TimeSearchLimitExceeded);
        };
        let own_last = instant_on(self.alloc, &edge, 1, opposite_way(self.direction))?;
        if !is_within(own_last.to_civil(), self.direction) {
            return Err(CronError::TimeSearchLimitExceeded);
        }
        let Some(run) = self.walk_from(&edge)? else {
            return Err(CronError::TimeSearchLimitExceeded);
        };
        Ok(run)
    }
}

/// The nearest run from the start in the direction, the start included where the search is inclusive. The error is
/// `TimeSearchLimitExceeded` where no run is found in the searched years; or the backend's own, unchanged, where it doesn't
/// hold a moment that is asked for, or lacks memory.
#[inline(always)]
pub(crate) fn find<T: CronDateTime, S: Schedule>(
    alloc: Global,
    schedule: &S,
    start: &T,
    inclusive: bool,
    direction: Direction,
) -> Result<T, CronError>
    requires { S.shaped schedule.now }
    ensures found { IfOk result (λ t. IsFound direction inclusive (S.timetable schedule.now) (T.moment start.now) (T.moment t)) }
    ensures refused { IfErr result (IsRefused T.can_lack_memory direction inclusive (S.timetable schedule.now) (T.moment start.now)) }
{
    find_with_reading(
        alloc,
        schedule,
        start,
        start.to_civil(),
        inclusive,
        direction,
    )
}

/// The same for a caller that has read the start: `shown` is what it reads.
#[inline(always)]
pub(crate) fn find_with_reading<T: CronDateTime, S: Schedule>(
    alloc: Global,
    schedule: &S,
    start: &T,
    shown: CivilDateTime,
    inclusive: bool,
    direction: Direction,
) -> Result<T, CronError>
    requires shaped { S.shaped schedule.now }
    requires shown { wall_second shown ≡ reading (T.moment start.now) }
    ensures found { IfOk result (λ t. IsFound direction inclusive (S.timetable schedule.now) (T.moment start.now) (T.moment t)) }
    ensures refused { IfErr result (IsRefused T.can_lack_memory direction inclusive (S.timetable schedule.now) (T.moment start.now)) }
{
    let search = Search {
        alloc,
        schedule,
        start,
        shown,
        inclusive,
        direction,
    };
    match search.walk()? {
        Some(first) => search.nearer_half(first),
        None => search.after_limit(),
    }
}
