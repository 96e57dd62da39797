//! The two sides of a gap of the wall clock.
ghost use Rattle.std.specs.Prelude.{◌≡◌, ◌⊎◌, ◌+◌, ◌-◌, ◌*◌, ◌<◌, ◌≤◌, IfOk, IfErr, IfSome, MatchOption, Some};
ghost use Rattle.croner_base.specs.declared.time.value.Resolution.TheVariants.{Gap};
ghost use Rattle.croner_base.specs.Calm.{IsSearched};
ghost use Rattle.croner_base.specs.Civil.{wall_second};
ghost use Rattle.croner_base.specs.Limits.{gap_limit};
ghost use Rattle.croner.specs.Private.search.Held.{HoldsYears, IsBackendError};
ghost use Rattle.croner.specs.Private.search.Gaps.{CrossesGap, HasGapSide, IsAround, IsBeyond, IsSkipped};
ghost use Rattle.croner.specs.Private.search.Halves.{offset_from};
ghost use Rattle.croner.specs.Private.search.Walk.{HasGapEnd, HasGapFront};
ghost use Rattle.croner.specs.Private.search.Sought.{start_of};

use super::{Schedule, Search};
use crate::search::distance::seconds_on;
use crate::search::wall::is_within;
use croner_base::errors::CronError;
use croner_base::limits::GAP_LIMIT_SECONDS;
use croner_base::time::{CivilDateTime, CronDateTime, Direction, Resolution};
use std::alloc::Global;

/// How far from a second in a gap the gap's end and its front are looked for, in seconds.
const GAP_SEARCH_SECONDS: u32 = GAP_LIMIT_SECONDS;

/// What the backend answers for a second outside the gap: the second, with the first instant that shows it, or why it
/// does not resolve it.
type Beyond<T> = Result<(CivilDateTime, T), CronError>;

/// A second in the gap and one outside it, given by how far they lie from the skipped second, and the backend's answer for
/// the one outside.
#[derive(Drop)]
struct Around<T> {
    inside: u32,
    outside: u32,
    answer: Beyond<T>,
}

/// A search for a side of a gap.
#[derive(Drop)]
struct SideSearch<'s, T> {
    alloc: Global,
    /// A time of the zone.
    time: &'s T,
    /// The second in the gap that it starts at.
    skipped: CivilDateTime,
    direction: Direction,
}

impl<'s, T: CronDateTime, S: Schedule> Search<'s, T, S> {
    /// The first instant after the gap in which a second lies, with what the clock shows there; `None` where the gap reaches
    /// further than the search.
    pub(super) fn gap_end(
        &self,
        skipped: CivilDateTime,
    ) -> Result<Option<(CivilDateTime, T)>, CronError>
        requires in_gap { (start_of T.moment self.now).zone.resolves skipped ≡ Some Gap }
        requires searched { IsSearched (wall_second skipped) }
        ensures value { IfOk result (HasGapEnd T.moment (start_of T.moment self.now).zone (wall_second skipped)) }
        ensures err { IfErr result (IsBackendError T.can_lack_memory (¬ (HoldsYears (start_of T.moment self.now).zone))) }
    {
        self.gap_side(skipped, Direction::Forward)
    }

    /// The last second before the gap in which a second lies; `None` where the gap reaches further than the search.
    pub(super) fn gap_front(
        &self,
        skipped: CivilDateTime,
    ) -> Result<Option<CivilDateTime>, CronError>
        requires in_gap { (start_of T.moment self.now).zone.resolves skipped ≡ Some Gap }
        requires searched { IsSearched (wall_second skipped) }
        ensures value { IfOk result (HasGapFront (start_of T.moment self.now).zone (wall_second skipped)) }
        ensures err { IfErr result (IsBackendError T.can_lack_memory (¬ (HoldsYears (start_of T.moment self.now).zone))) }
    {
        let side = self.gap_side(skipped, Direction::Backward)?;
        let Some((front, _)) = side else {
            return Ok(None);
        };
        Ok(Some(front))
    }

    /// The nearest second outside the gap in which a second lies, if both lie in the years of which no run is left out: before
    /// year 5000 (forward) or after year 1 (backward). `None` where they don't, where the gap reaches further than the search, and
    /// where the backend refuses a second that has to be asked for: the caller then goes on second by second.
    pub(super) fn across_gap(&self, skipped: CivilDateTime) -> Option<CivilDateTime>
        requires in_gap { (start_of T.moment self.now).zone.resolves skipped ≡ Some Gap }
        requires searched { IsSearched (wall_second skipped) }
        ensures { IfSome result (λ side. CrossesGap self.now.direction (start_of T.moment self.now).zone (wall_second skipped) (wall_second side)) }
    {
        if !is_within(skipped, self.direction) {
            return None;
        }
        match self.gap_side(skipped, self.direction) {
            Ok(Some((side, _))) => {
                if is_within(side, self.direction) {
                    Some(side)
                } else {
                    None
                }
            }
            Ok(None) => None,
            Err(_) => None,
        }
    }

    // The nearest second outside the gap in a direction, with the first instant that shows it; `None` where the gap reaches further
    // than the search.
    fn gap_side(
        &self,
        skipped: CivilDateTime,
        direction: Direction,
    ) -> Result<Option<(CivilDateTime, T)>, CronError>
        requires in_gap { (start_of T.moment self.now).zone.resolves skipped ≡ Some Gap }
        requires searched { IsSearched (wall_second skipped) }
        ensures value { IfOk result (HasGapSide T.moment direction gap_limit (start_of T.moment self.now).zone (wall_second skipped)) }
        ensures err { IfErr result (IsBackendError T.can_lack_memory (¬ (HoldsYears (start_of T.moment self.now).zone))) }
    {
        let search = SideSearch {
            alloc: self.alloc,
            time: self.start,
            skipped,
            direction,
        };
        search.side(GAP_SEARCH_SECONDS)
    }
}

impl<'s, T: CronDateTime> SideSearch<'s, T> {
    // The nearest second outside the gap in the direction, with the first instant that shows it: by bisection between the
    // last second of the doubling that lies in the gap and the first that does not. `None` where the second at the limit does.
    fn side(&self, limit: u32) -> Result<Option<(CivilDateTime, T)>, CronError>
        requires in_gap { (T.moment self.now.time.now).zone.resolves self.now.skipped ≡ Some Gap }
        requires searched { IsSearched (wall_second self.now.skipped) }
        requires near { limit ≤ gap_limit }
        ensures value { IfOk result (HasGapSide T.moment self.now.direction limit (T.moment self.now.time.now).zone (wall_second self.now.skipped)) }
        ensures err { IfErr result (IsBackendError T.can_lack_memory (¬ (HoldsYears (T.moment self.now.time.now).zone))) }
    {
        let Some(mut around) = self.first_beyond(limit) else {
            return Ok(None);
        };
        while around.outside - around.inside > 1 {
            around = self.halve(around);
        }
        let side = around.answer?;
        Ok(Some(side))
    }

    // By doubling the distance from the skipped second: the last that lies in the gap and the first that does not; `None` where
    // the second at the limit does.
    fn first_beyond(&self, limit: u32) -> Option<Around<T>>
        requires in_gap { (T.moment self.now.time.now).zone.resolves self.now.skipped ≡ Some Gap }
        requires searched { IsSearched (wall_second self.now.skipped) }
        requires near { limit ≤ gap_limit }
        ensures { MatchOption result
            (IsSkipped (T.moment self.now.time.now).zone (offset_from self.now.direction (wall_second self.now.skipped) limit))
            (IsAround T.moment T.can_lack_memory self.now.direction (T.moment self.now.time.now).zone (wall_second self.now.skipped)) }
    {
        let mut inside: u32 = 0;
        while inside < limit {
            let outside = double(inside, limit);
            match self.probe_beyond(outside) {
                Some(answer) => {
                    return Some(Around {
                        inside,
                        outside,
                        answer,
                    });
                }
                None => inside = outside,
            }
        }
        None
    }

    // The same with half the seconds between the two.
    fn halve(&self, around: Around<T>) -> Around<T>
        requires searched { IsSearched (wall_second self.now.skipped) }
        requires wide { around.inside + 1 < around.outside }
        requires around { IsAround T.moment T.can_lack_memory self.now.direction (T.moment self.now.time.now).zone (wall_second self.now.skipped) around }
        ensures around { IsAround T.moment T.can_lack_memory self.now.direction (T.moment self.now.time.now).zone (wall_second self.now.skipped) result }
        ensures nearer { result.outside - result.inside < around.outside - around.inside }
    {
        let middle = around.inside + (around.outside - around.inside) / 2;
        match self.probe_beyond(middle) {
            Some(answer) => Around {
                inside: around.inside,
                outside: middle,
                answer,
            },
            None => Around {
                inside: middle,
                ..around
            },
        }
    }

    // What the backend answers for the second so many seconds on; `None` where that lies in a gap too.
    fn probe_beyond(&self, seconds: u32) -> Option<Beyond<T>>
        requires searched { IsSearched (wall_second self.now.skipped) }
        requires near { seconds ≤ gap_limit }
        ensures { MatchOption result
            (IsSkipped (T.moment self.now.time.now).zone (offset_from self.now.direction (wall_second self.now.skipped) seconds))
            (IsBeyond T.moment T.can_lack_memory (T.moment self.now.time.now).zone (offset_from self.now.direction (wall_second self.now.skipped) seconds)) }
    {
        let Some(wall) = seconds_on(self.skipped, seconds, self.direction) else {
            unreachable!()
        };
        match self.time.resolve_civil(self.alloc, wall) {
            Ok(Resolution::Single(only)) => Some(Ok((wall, only))),
            Ok(Resolution::Ambiguous(earlier, _)) => Some(Ok((wall, earlier))),
            Ok(Resolution::Gap) => None,
            Err(error) => Some(Err(error)),
        }
    }
}

// Twice as far and a second, at most at the limit.
fn double(seconds: u32, limit: u32) -> u32
    requires { seconds < limit }
    ensures farther { seconds < result }
    ensures near { result ≤ limit }
    ensures twice { (result ≡ 2 * seconds + 1) ⊎ ((result ≡ limit) × (limit ≤ 2 * seconds + 1)) }
{
    if seconds < limit / 2 {
        2 * seconds + 1
    } else {
        limit
    }
}
