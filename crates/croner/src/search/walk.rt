//! One walk along the wall clock: from scheduled second to scheduled second, up to the first at which the job runs.
ghost use Rattle.std.specs.Prelude.{◌≡◌, ◌⊎◌, ◌↔◌, IsTrue, IfOk, IfErr, MatchOption, Some};
ghost use Rattle.croner_base.specs.declared.time.value.Resolution.TheVariants.{Ambiguous, Gap};
ghost use Rattle.croner_base.specs.Zone.{IsResolved, reading};
ghost use Rattle.croner.specs.Private.search.Wall.{IsLastYear};
ghost use Rattle.croner_base.specs.Calm.{IsCalm, IsSearched};
ghost use Rattle.croner_base.specs.Civil.{wall_second};
ghost use Rattle.croner.specs.search.Runs.{Precedes, Ahead};
ghost use Rattle.croner.specs.Private.search.Gaps.{GoesPast};
ghost use Rattle.croner.specs.Private.search.Held.{HoldsYears, IsBackendError};
ghost use Rattle.croner.specs.Private.search.Walk.{CannotMove, HasWalked, IsWalkRefused, walk_start, NearerOf, ChosenOf, IsOneOf};
ghost use Rattle.croner.specs.Private.search.Sought.{start_of, sought, HasComeTo, PassesTo};

use super::{Schedule, Search};
use crate::search::instant::{instant_on, precedes};
use crate::search::wall::one_second_on;
use croner_base::errors::CronError;
use croner_base::time::{CivilDateTime, CronDateTime, Direction, Resolution};
use std::cmp::Ordering;

/// The most scheduled seconds that a walk looks at: the seconds of a leap year.
const PASS_LIMIT: u32 = 31_622_400;

/// At every so many passes the walk of an interval job that is in a gap goes across it in one step. A job that has fewer
/// seconds in a gap of an hour passes them one by one, which is quicker.
const PASSES_TO_CROSSING: u32 = 16;

/// What one pass of a walk comes to.
#[derive(Drop)]
pub(crate) enum Passed<T> {
    Answer(T),
    GoOn(CivilDateTime),
    Limit,
}

impl<'s, T: CronDateTime, S: Schedule> Search<'s, T, S> {
    // Whether an instant comes before the start in the direction by a second or more: a start with a fraction keeps its own
    // second in play.
    #[tactic(auto, using(std::proofs::lemmas::Int::ints))]
    fn is_before_start(&self, instant: &T) -> Result<bool, CronError>
        ensures value { (start_of T.moment self.now).fraction ≡ 0 → (T.moment instant.now).fraction ≡ 0
            → IfOk result (λ b. IsTrue b
            ↔ Precedes self.now.direction (T.moment instant.now).instant (start_of T.moment self.now).instant) }
        ensures err { IfErr result (IsBackendError T.can_lack_memory (CannotMove self.now.direction (T.moment instant.now))) }
    {
        let second_on = instant_on(self.alloc, instant, 1, self.direction)?;
        Ok(!precedes(self.start, &second_on, self.direction))
    }

    // Whether an instant lies ahead of the start, or is it in an inclusive search.
    fn lies_ahead(&self, instant: &T) -> bool
        ensures { (start_of T.moment self.now).fraction ≡ 0 → (T.moment instant.now).fraction ≡ 0
            → IsTrue result
            ↔ Ahead self.now.direction self.now.inclusive (start_of T.moment self.now).instant (T.moment instant.now).instant }
    {
        match self.start.cmp_instant(instant) {
            Ordering::Less => self.direction == Direction::Forward,
            Ordering::Equal => self.inclusive,
            Ordering::Greater => self.direction == Direction::Backward,
        }
    }

    // The nearer of two that is not before the start, or else the other.
    fn nearer_of(&self, near: T, far: T) -> Result<Option<T>, CronError>
        ensures value { (start_of T.moment self.now).fraction ≡ 0 → (T.moment near).fraction ≡ 0 → (T.moment far).fraction ≡ 0
            → IfOk result (NearerOf T.moment self.now.direction (start_of T.moment self.now).instant near far) }
        ensures one { IfOk result (IsOneOf near far) }
        ensures err { IfErr result (IsBackendError T.can_lack_memory
            (CannotMove self.now.direction (T.moment near) ⊎ CannotMove self.now.direction (T.moment far))) }
    {
        if !self.is_before_start(&near)? {
            return Ok(Some(near));
        }
        if !self.is_before_start(&far)? {
            return Ok(Some(far));
        }
        Ok(None)
    }

    // The one of a second's two instants that the job takes, where it is not before the start.
    fn choose(&self, earlier: T, later: T) -> Result<Option<T>, CronError>
        requires { S.shaped self.now.schedule.now }
        ensures value { (start_of T.moment self.now).fraction ≡ 0 → (T.moment earlier).fraction ≡ 0 → (T.moment later).fraction ≡ 0
            → IfOk result (ChosenOf T.moment (S.timetable self.now.schedule.now).fixed_time self.now.direction (start_of T.moment self.now).instant earlier later) }
        ensures one { IfOk result (IsOneOf earlier later) }
        ensures err { IfErr result (IsBackendError T.can_lack_memory
            (CannotMove self.now.direction (T.moment earlier) ⊎ CannotMove self.now.direction (T.moment later))) }
    {
        if self.schedule.is_fixed_time() {
            if self.is_before_start(&earlier)? {
                return Ok(None);
            }
            return Ok(Some(earlier));
        }
        match self.direction {
            Direction::Forward => self.nearer_of(earlier, later),
            Direction::Backward => self.nearer_of(later, earlier),
        }
    }

    // The pass at a scheduled second that two instants show.
    fn pass_two(&self, found: CivilDateTime, earlier: T, later: T) -> Result<Passed<T>, CronError>
        requires shaped { S.shaped self.now.schedule.now }
        requires resolved { IsResolved T.moment (start_of T.moment self.now).zone found (Ambiguous earlier later) }
        requires scheduled { (S.timetable self.now.schedule.now).scheduled (wall_second found) }
        requires walking { HasComeTo T.moment S.timetable self.now (wall_second found) }
        ensures value { IfOk result (PassesTo T.moment S.timetable self.now (wall_second found)) }
        ensures err { IfErr result (IsBackendError T.can_lack_memory
            (IsCalm (start_of T.moment self.now).zone → ¬ (HoldsYears (start_of T.moment self.now).zone))) }
    {
        match self.choose(earlier, later)? {
            Some(answer) => Ok(Passed::Answer(answer)),
            None => match one_second_on(found, self.direction) {
                Some(next) => Ok(Passed::GoOn(next)),
                None => unreachable!(),
            },
        }
    }

    // Where the walk of an interval job goes on from a second in a gap, at which it does not run: at the next second, and at
    // every so many passes across the gap, where that can be told.
    fn past_gap(&self, skipped: CivilDateTime, passed: u32) -> CivilDateTime
        requires in_gap { (start_of T.moment self.now).zone.resolves skipped ≡ Some Gap }
        requires searched { IsSearched (wall_second skipped) }
        ensures { GoesPast self.now.direction (start_of T.moment self.now).zone (wall_second skipped) (wall_second result) }
    {
        if passed % PASSES_TO_CROSSING == PASSES_TO_CROSSING - 1 {
            if let Some(side) = self.across_gap(skipped) {
                return side;
            }
        }
        match one_second_on(skipped, self.direction) {
            Some(next) => next,
            None => unreachable!(),
        }
    }

    // The pass at a scheduled second that lies in a gap, after so many other passes.
    fn pass_gap(&self, skipped: CivilDateTime, passed: u32) -> Result<Passed<T>, CronError>
        requires shaped { S.shaped self.now.schedule.now }
        requires in_gap { (start_of T.moment self.now).zone.resolves skipped ≡ Some Gap }
        requires scheduled { (S.timetable self.now.schedule.now).scheduled (wall_second skipped) }
        requires walking { HasComeTo T.moment S.timetable self.now (wall_second skipped) }
        ensures value { IfOk result (PassesTo T.moment S.timetable self.now (wall_second skipped)) }
        ensures err { IfErr result (IsBackendError T.can_lack_memory
            (IsCalm (start_of T.moment self.now).zone → ¬ (HoldsYears (start_of T.moment self.now).zone))) }
    {
        if !self.schedule.is_fixed_time() {
            return Ok(Passed::GoOn(self.past_gap(skipped, passed)));
        }
        let Some((end, carried)) = self.gap_end(skipped)? else {
            return Ok(Passed::Limit);
        };
        if self.schedule.matches_date(end) && self.lies_ahead(&carried) {
            return Ok(Passed::Answer(carried));
        }
        match self.direction {
            Direction::Forward => Ok(Passed::GoOn(end)),
            Direction::Backward => match self.gap_front(skipped)? {
                Some(front) => Ok(Passed::GoOn(front)),
                None => Ok(Passed::Limit),
            },
        }
    }

    // One pass of the walk, at a scheduled second that it has come to after so many other passes.
    fn pass(&self, found: CivilDateTime, passed: u32) -> Result<Passed<T>, CronError>
        requires shaped { S.shaped self.now.schedule.now }
        requires scheduled { (S.timetable self.now.schedule.now).scheduled (wall_second found) }
        requires walking { HasComeTo T.moment S.timetable self.now (wall_second found) }
        ensures value { IfOk result (PassesTo T.moment S.timetable self.now (wall_second found)) }
        ensures err { IfErr result (IsBackendError T.can_lack_memory
            (IsCalm (start_of T.moment self.now).zone → ¬ (HoldsYears (start_of T.moment self.now).zone))) }
    {
        match self.start.resolve_civil(self.alloc, found)? {
            Resolution::Single(only) => Ok(Passed::Answer(only)),
            Resolution::Ambiguous(earlier, later) => self.pass_two(found, earlier, later),
            Resolution::Gap => self.pass_gap(found, passed),
        }
    }

    // Where the walk begins, from what the start shows.
    #[inline(always)]
    fn first_second(&self) -> Option<CivilDateTime>
        ensures { MatchOption result (IsLastYear self.now.direction self.now.shown.date.year)
            (λ wall. wall_second wall ≡ walk_start self.now.direction self.now.inclusive (wall_second self.now.shown)) }
    {
        if self.inclusive {
            Some(self.shown)
        } else {
            one_second_on(self.shown, self.direction)
        }
    }

    /// The nearest run that a walk along the wall clock from the start meets, over one half of each repeated range; `None` where it
    /// meets none in the years that are searched. Where nothing is scheduled ahead, the backend isn't asked.
    #[inline(always)]
    pub(super) fn walk(&self) -> Result<Option<T>, CronError>
        requires shaped { S.shaped self.now.schedule.now }
        requires shown { wall_second self.now.shown ≡ reading (start_of T.moment self.now) }
        ensures value { IfOk result (HasWalked T.moment self.now.direction self.now.inclusive (sought T.moment S.timetable self.now) (start_of T.moment self.now)) }
        ensures err { IfErr result (IsWalkRefused T.can_lack_memory self.now.direction self.now.inclusive (S.timetable self.now.schedule.now) (start_of T.moment self.now)) }
    {
        let Some(mut wall) = self.first_second() else {
            return Ok(None);
        };
        for passed in 0..PASS_LIMIT {
            let Some(found) = self.schedule.next_scheduled(wall, self.direction) else {
                return Ok(None);
            };
            match self.pass(found, passed)? {
                Passed::Answer(answer) => return Ok(Some(answer)),
                Passed::GoOn(next) => wall = next,
                Passed::Limit => return Ok(None),
            }
        }
        Ok(None)
    }
}
