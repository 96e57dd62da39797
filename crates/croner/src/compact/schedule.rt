//! A compact job as a schedule, and its searches.
ghost use Rattle.std.specs.Prelude.{◌≡◌, true, IfOk, IfErr};
ghost use Rattle.croner_pattern.specs.Shapes.{has_field_shapes};
ghost use Rattle.croner.specs.compact.Compact.{compact_meaning};
ghost use Rattle.croner.specs.search.PatternJob.{timetable_of};
ghost use Rattle.croner.specs.search.Searches.{IsFound, IsRefused};

use crate::compact::CompactCron;
use crate::search::Schedule;
use crate::{Recurring, search};
use croner_base::errors::CronError;
use croner_base::time::{CivilDateTime, Clocked, CronDateTime, Direction};
use croner_pattern::cursor;

impl Schedule for CompactCron {
    ghost use Rattle.croner_pattern.specs.SearchedYears.{scheduled_searched};

    ghost shaped = { λ c. has_field_shapes (compact_meaning c) ≡ true };

    ghost timetable = { λ c. timetable_of (compact_meaning c) };

    fn next_scheduled(&self, from: CivilDateTime, direction: Direction) -> Option<CivilDateTime> {
        cursor::next_scheduled(self, from, direction)
    }

    fn matches_date(&self, civil: CivilDateTime) -> bool {
        cursor::matches_date(self, civil.date())
    }

    fn is_fixed_time(&self) -> bool {
        CompactCron::is_fixed_time(self)
    }

    ghost in_years = { λ c h w is. scheduled_searched (compact_meaning c) w is };
}

impl CompactCron {
    /// The next run after a time, or from it on where the search is inclusive: as
    /// [`Cron::find_next_occurrence`](crate::Cron::find_next_occurrence) of the job of which it was made, with the same errors.
    ///
    /// ```
    /// let job = CompactCron::of(alloc, &Cron::from_str(alloc, "30 9,17 * * MON")?)?;
    /// let monday = DateTime::new(2024, 7, 1, 9, 30, 0, 0)?;
    /// let next = job.find_next_occurrence(&monday, false)?; // 2024-07-01T17:30:00
    /// ```
    pub fn find_next_occurrence<T: CronDateTime>(
        &self,
        start: &T,
        inclusive: bool,
    ) -> Result<T, CronError>
        ensures found { IfOk result (λ t. IsFound Direction.Forward inclusive (timetable_of (compact_meaning self.now)) (T.moment start.now) (T.moment t)) }
        ensures refused { IfErr result (IsRefused T.can_lack_memory Direction.Forward inclusive (timetable_of (compact_meaning self.now)) (T.moment start.now)) }
    {
        self.find_occurrence(start, inclusive, Direction::Forward)
    }

    /// The previous run before a time, or from it back where the search is inclusive: as
    /// [`Cron::find_previous_occurrence`](crate::Cron::find_previous_occurrence) of the job of which it was made, with the same
    /// errors.
    ///
    /// ```
    /// let job = CompactCron::of(alloc, &Cron::from_str(alloc, "30 9,17 * * MON")?)?;
    /// let monday = DateTime::new(2024, 7, 1, 9, 30, 0, 0)?;
    /// let previous = job.find_previous_occurrence(&monday, false)?; // 2024-06-24T17:30:00
    /// ```
    pub fn find_previous_occurrence<T: CronDateTime>(
        &self,
        start: &T,
        inclusive: bool,
    ) -> Result<T, CronError>
        ensures found { IfOk result (λ t. IsFound Direction.Backward inclusive (timetable_of (compact_meaning self.now)) (T.moment start.now) (T.moment t)) }
        ensures refused { IfErr result (IsRefused T.can_lack_memory Direction.Backward inclusive (timetable_of (compact_meaning self.now)) (T.moment start.now)) }
    {
        self.find_occurrence(start, inclusive, Direction::Backward)
    }

    // The nearest run in a direction.
    #[tactic(auto, using(crate::proofs::compact::Shaped::compact_shaped))]
    fn find_occurrence<T: CronDateTime>(
        &self,
        start: &T,
        inclusive: bool,
        direction: Direction,
    ) -> Result<T, CronError>
        ensures found { IfOk result (λ t. IsFound direction inclusive (timetable_of (compact_meaning self.now)) (T.moment start.now) (T.moment t)) }
        ensures refused { IfErr result (IsRefused T.can_lack_memory direction inclusive (timetable_of (compact_meaning self.now)) (T.moment start.now)) }
    {
        search::find(self.alloc, self, start, inclusive, direction)
    }
}

impl<T: Clocked> Recurring<T> for CompactCron {
    ghost use Rattle.croner.specs.Recurring.{runs_of};

    ghost runs = { λ c. runs_of (compact_meaning c) };

    fn next_after(&self, after: &T) -> Result<T, CronError> {
        self.find_next_occurrence(after, false)
    }

    fn last_until(&self, until: &T) -> Result<T, CronError> {
        self.find_previous_occurrence(until, true)
    }
}
