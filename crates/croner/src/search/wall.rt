//! Moves of one second on the wall clock, and the years that are searched.
ghost use Rattle.std.specs.Prelude.{◌≡◌, ◌↔◌, MatchOption, IsTrue};
ghost use Rattle.croner_base.specs.Civil.{wall_second};
ghost use Rattle.croner.specs.Private.search.Wall.{IsLastYear};
ghost use Rattle.croner.specs.Private.search.Walk.{one_on};
ghost use Rattle.croner.specs.search.Limit.{IsWithin};

use croner_base::time::{CivilDateTime, Direction, YEAR_LOWER_LIMIT, YEAR_UPPER_LIMIT};
use croner_base::wall::{second_after, second_before};

/// The next second in the direction; `None` where the year would leave `i32`.
#[inline(always)]
pub(crate) fn one_second_on(civil: CivilDateTime, direction: Direction) -> Option<CivilDateTime>
    ensures { MatchOption result (IsLastYear direction civil.date.year)
        (λ moved. wall_second moved ≡ one_on direction (wall_second civil)) }
{
    match direction {
        Direction::Forward => second_after(civil),
        Direction::Backward => second_before(civil),
    }
}

/// Whether the year lies before 5000 forward, after 1 backward.
#[tactic(auto, using(crate::proofs::zone::WallYears::wall_years))]
pub(crate) fn is_within(civil: CivilDateTime, direction: Direction) -> bool
    ensures { IsTrue result ↔ IsWithin direction (wall_second civil) }
{
    match direction {
        Direction::Forward => civil.year() < YEAR_UPPER_LIMIT,
        Direction::Backward => civil.year() > YEAR_LOWER_LIMIT,
    }
}
