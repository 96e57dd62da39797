//! The searches of a job: its next and its previous run.
ghost use Rattle.std.specs.Prelude.{◌≡◌, true, false, IfOk, IfErr};
ghost use Rattle.croner_base.specs.Civil.{wall_second};
ghost use Rattle.croner_base.specs.Zone.{reading};
ghost use Rattle.croner.specs.iterator.Listing.{standing_of, new_standing};
ghost use Rattle.croner.specs.search.PatternJob.{timetable_of};
ghost use Rattle.croner.specs.search.Searches.{IsFound, IsRefused};
ghost use Rattle.croner.specs.Views.{job_of};

use crate::iterator::CronIterator;
use crate::{Cron, search};
use croner_base::errors::CronError;
use croner_base::time::{CivilDateTime, CronDateTime, Direction};

impl Cron {
    /// The next run after a time, or from it on if the search is inclusive, in the time's zone.
    ///
    /// An interval job runs at each instant at which the clock shows a scheduled second, in both halves of a repeated range. A
    /// fixed-time job ([`JobType`](crate::JobType) says which jobs are of this kind) runs only at the earlier instant of a
    /// repeated second; its run in a gap is carried to the gap's end, if the date there matches. A run that is only carried to
    /// the start itself isn't given.
    ///
    /// In a calm zone ([`CronDateTime`] says when a zone is calm) and from a whole second the answer is the nearest run, over
    /// any backend. In every zone and from every start, with a fraction of a second or not, it is a whole second in the
    /// start's zone. At an interval job's answer the clock shows a scheduled second.
    ///
    /// Errors:
    /// - `TimeSearchLimitExceeded`: in a calm zone and from a whole second no run is left in the searched years, which end when
    ///   the zone's clock first shows year 5000. Later runs may be found or not, even if the clock is put back to year 4999.
    ///   From a start past these years, which reads year 5000 or later with nothing scheduled ahead, this is always the answer,
    ///   and so it is from every start from year 5001 on.
    /// - `InvalidDate` or `InvalidTime`, by the backend: it doesn't hold a moment that the search needs, and a run may be left.
    ///   Neither occurs in a calm zone from a whole second if the years 0 to 5001 and two days around the start are held.
    /// - `OutOfMemory`, only over a backend that can lack memory.
    ///
    /// A search changes nothing.
    ///
    /// ```
    /// let job = Cron::from_str(alloc, "30 9,17 * * MON")?;
    /// let monday = DateTime::new(2024, 7, 1, 9, 30, 0, 0)?;
    /// let next = job.find_next_occurrence(&monday, false)?; // 2024-07-01T17:30:00
    /// let same = job.find_next_occurrence(&monday, true)?; // 2024-07-01T09:30:00
    /// ```
    pub fn find_next_occurrence<T: CronDateTime>(
        &self,
        start: &T,
        inclusive: bool,
    ) -> Result<T, CronError>
        ensures found { IfOk result (λ t. IsFound Direction.Forward inclusive (timetable_of (job_of self.now)) (T.moment start.now) (T.moment t)) }
        ensures refused { IfErr result (IsRefused T.can_lack_memory Direction.Forward inclusive (timetable_of (job_of self.now)) (T.moment start.now)) }
    {
        self.find_occurrence(start, inclusive, Direction::Forward)
    }

    /// The previous run before a time, or from it back if the search is inclusive, in the time's zone: as
    /// [`find_next_occurrence`](Self::find_next_occurrence), in the other direction. Here a run that is only carried to the start
    /// counts, if the search is inclusive. The searched years begin when the zone's clock last shows year 1. From a start that
    /// reads year 1 or earlier with nothing scheduled before it the answer is always `TimeSearchLimitExceeded`, and so it is from
    /// every start of year 0 or earlier.
    ///
    /// ```
    /// let job = Cron::from_str(alloc, "30 9,17 * * MON")?;
    /// let monday = DateTime::new(2024, 7, 1, 9, 30, 0, 0)?;
    /// let previous = job.find_previous_occurrence(&monday, false)?; // 2024-06-24T17:30:00
    /// ```
    pub fn find_previous_occurrence<T: CronDateTime>(
        &self,
        start: &T,
        inclusive: bool,
    ) -> Result<T, CronError>
        ensures found { IfOk result (λ t. IsFound Direction.Backward inclusive (timetable_of (job_of self.now)) (T.moment start.now) (T.moment t)) }
        ensures refused { IfErr result (IsRefused T.can_lack_memory Direction.Backward inclusive (timetable_of (job_of self.now)) (T.moment start.now)) }
    {
        self.find_occurrence(start, inclusive, Direction::Backward)
    }

    // The nearest run in a direction.
    pub(crate) fn find_occurrence<T: CronDateTime>(
        &self,
        start: &T,
        inclusive: bool,
        direction: Direction,
    ) -> Result<T, CronError>
        ensures found { IfOk result (λ t. IsFound direction inclusive (timetable_of (job_of self.now)) (T.moment start.now) (T.moment t)) }
        ensures refused { IfErr result (IsRefused T.can_lack_memory direction inclusive (timetable_of (job_of self.now)) (T.moment start.now)) }
    {
        let alloc = self.pattern.allocator();
        search::find(alloc, &self.pattern, start, inclusive, direction)
    }

    // The same for a caller that has read the start's clock: `shown` is what it reads.
    pub(crate) fn find_occurrence_with_reading<T: CronDateTime>(
        &self,
        start: &T,
        shown: CivilDateTime,
        inclusive: bool,
        direction: Direction,
    ) -> Result<T, CronError>
        requires { wall_second shown ≡ reading (T.moment start.now) }
        ensures found { IfOk result (λ t. IsFound direction inclusive (timetable_of (job_of self.now)) (T.moment start.now) (T.moment t)) }
        ensures refused { IfErr result (IsRefused T.can_lack_memory direction inclusive (timetable_of (job_of self.now)) (T.moment start.now)) }
    {
        let alloc = self.pattern.allocator();
        search::find_with_reading(alloc, &self.pattern, start, shown, inclusive, direction)
    }

    /// The runs from a start in a direction. The start counts as in an inclusive search. The pattern is copied for the iterator.
    /// The only error is `OutOfMemory`; the start is then dropped.
    ///
    /// ```
    /// let job = Cron::from_str(alloc, "*/20 9 * * *")?;
    /// let start = DateTime::new(2024, 3, 1, 9, 20, 0, 0)?;
    /// let mut runs = job.iter_from(start, Direction::Backward)?;
    /// let first = runs.next(); // 2024-03-01T09:20:00
    /// let second = runs.next(); // 2024-03-01T09:00:00
    /// let third = runs.next(); // 2024-02-29T09:40:00
    /// ```
    pub fn iter_from<T: CronDateTime>(
        &self,
        start: T,
        direction: Direction,
    ) -> Result<CronIterator<T>, CronError>
        ensures ok { IfOk result (λ it. standing_of T.moment it ≡ new_standing (job_of self.now) (T.moment start) true direction) }
        ensures err { IfErr result (λ e. e ≡ CronError.OutOfMemory) }
    {
        self.iter(start, true, direction)
    }

    /// The runs after a start, forward, without the start. Errors as for [`iter_from`](Self::iter_from).
    ///
    /// ```
    /// let job = Cron::from_str(alloc, "0 0 29 2 *")?;
    /// let mut runs = job.iter_after(DateTime::new(2096, 2, 29, 0, 0, 0, 0)?)?;
    /// let next = runs.next(); // 2104-02-29T00:00:00
    /// ```
    pub fn iter_after<T: CronDateTime>(&self, start: T) -> Result<CronIterator<T>, CronError>
        ensures ok { IfOk result (λ it. standing_of T.moment it ≡ new_standing (job_of self.now) (T.moment start) false Direction.Forward) }
        ensures err { IfErr result (λ e. e ≡ CronError.OutOfMemory) }
    {
        self.iter(start, false, Direction::Forward)
    }

    /// The runs before a start, backward, without the start. Errors as for [`iter_from`](Self::iter_from).
    ///
    /// ```
    /// let job = Cron::from_str(alloc, "0 0 29 2 *")?;
    /// let mut runs = job.iter_before(DateTime::new(2104, 2, 29, 0, 0, 0, 0)?)?;
    /// let previous = runs.next(); // 2096-02-29T00:00:00
    /// ```
    pub fn iter_before<T: CronDateTime>(&self, start: T) -> Result<CronIterator<T>, CronError>
        ensures ok { IfOk result (λ it. standing_of T.moment it ≡ new_standing (job_of self.now) (T.moment start) false Direction.Backward) }
        ensures err { IfErr result (λ e. e ≡ CronError.OutOfMemory) }
    {
        self.iter(start, false, Direction::Backward)
    }

    fn iter<T: CronDateTime>(
        &self,
        start: T,
        inclusive: bool,
        direction: Direction,
    ) -> Result<CronIterator<T>, CronError>
        ensures ok { IfOk result (λ it. standing_of T.moment it ≡ new_standing (job_of self.now) (T.moment start) inclusive direction) }
        ensures err { IfErr result (λ e. e ≡ CronError.OutOfMemory) }
    {
        let cron = self.clone()?;
        Ok(CronIterator::new(cron, start, inclusive, direction))
    }
}
