//! What a search asks of a schedule.
ghost use Rattle.std.specs.Prelude.{◌≡◌, ◌↔◌, ℤ, IsTrue, MatchOption};

use croner_base::time::{CivilDateTime, Direction};

/// A schedule of wall seconds, for any zone.
pub(crate) trait Schedule {
    ghost use Rattle.croner_base.specs.Civil.{wall_second};
    ghost use Rattle.croner_base.specs.Calm.{IsSearched};
    ghost use Rattle.croner.specs.search.Runs.{Timetable};
    ghost use Rattle.croner.specs.Private.search.Schedule.{NextScheduled, NoneScheduled};

    /// What has to hold of the schedule before it is asked.
    ghost shaped: { Self → Type 0 };

    /// When it asks for runs, in whatever zone.
    ghost timetable: { Self → Timetable };

    /// The nearest scheduled second from `from` on, itself included. `None` means that none is left before year 5000
    /// (forward) or after year 1 (backward; for a fixed-time job also on the last day of year 1).
    fn next_scheduled(&self, from: CivilDateTime, direction: Direction) -> Option<CivilDateTime>
        requires { shaped self.now }
        ensures { MatchOption result
            (NoneScheduled direction (timetable self.now).fixed_time (timetable self.now).scheduled (wall_second from))
            (λ w. NextScheduled direction (timetable self.now).scheduled (wall_second from) (wall_second w)) };

    /// Whether the date matches.
    fn matches_date(&self, civil: CivilDateTime) -> bool
        requires { shaped self.now }
        ensures { IsTrue result ↔ (timetable self.now).date_matches (wall_second civil) };

    /// Whether it is a fixed-time job's.
    fn is_fixed_time(&self) -> bool
        requires { shaped self.now }
        ensures { result ≡ (timetable self.now).fixed_time };

    /// A scheduled second lies in the years 1 to 5000.
    ghost in_years: { (a : Self) → shaped a → (w : ℤ) → (timetable a).scheduled w → IsSearched w };
}
