//! A pattern as a schedule.
ghost use Rattle.std.specs.Prelude.{◌≡◌, true};
ghost use Rattle.croner_pattern.specs.Meaning.{meaning_of};
ghost use Rattle.croner_pattern.specs.Shapes.{has_field_shapes};

use crate::search::Schedule;
use croner_base::time::{CivilDateTime, Direction};
use croner_pattern::cursor;
use croner_pattern::pattern::CronPattern;

impl Schedule for CronPattern {
    ghost use Rattle.croner.specs.search.PatternJob.{timetable_of};
    ghost use Rattle.croner_pattern.specs.SearchedYears.{scheduled_searched};

    ghost shaped = { λ p. has_field_shapes (meaning_of p) ≡ true };

    ghost timetable = { λ p. timetable_of (meaning_of p) };

    #[inline(always)]
    fn next_scheduled(&self, from: CivilDateTime, direction: Direction) -> Option<CivilDateTime> {
        cursor::next_scheduled(self, from, direction)
    }

    fn matches_date(&self, civil: CivilDateTime) -> bool {
        cursor::matches_date(self, civil.date())
    }

    #[inline(always)]
    fn is_fixed_time(&self) -> bool {
        CronPattern::is_fixed_time(self)
    }

    ghost in_years = { λ p h w is. scheduled_searched (meaning_of p) w is };
}
