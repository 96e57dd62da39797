//! Many jobs at once: the next instant at which any of them runs, and which of them run then.
ghost use Rattle.std.specs.Prelude.{◌≡◌, true};
ghost use Rattle.croner.specs.Views.{job_of};

mod asked;
mod due;
mod iterator;
mod kept;
mod nearest;

use crate::Cron;
use croner_base::errors::CronError;
use croner_base::time::{CronDateTime, Direction};
pub use iterator::CronTableIterator;
use nearest::Met;
use std::alloc::{AllocError, Global};
use std::{mem, slice};

/// A list of jobs that is searched as one.
///
/// A job's place is its index, from 0. A table may have equal jobs, each at its own place. The table keeps the allocator given
/// to its constructor.
///
/// Of the calls that change it only `push` takes memory; `replace`, `remove` and `clear` take none, and keep the memory that there is.
#[derive(Debug, Drop)]
pub struct CronTable {
    jobs: Vec<Cron>,
    alloc: Global,
}

impl CronTable {
    ghost use Rattle.std.specs.Prelude.{◌↔◌, ◌<◌, ◌≤◌, ◌++◌, ◌∷◌, [], Err, false, length, map, slice_get, slice_set, option_map, Some, IfSome, IfNone, IfOk, IfErr, IsTrue, vec_len, vec_capacity};
    ghost use Rattle.std.specs.List.{remove};
    ghost use Rattle.std.specs.Slice.Iter.{iter_rest};
    ghost use Rattle.croner_base.specs.declared.errors.CronError.TheVariants.{TimeSearchLimitExceeded};
    ghost use Rattle.croner.specs.crontable.Tables.{patterns_of, IsTableFound, IsTableRefused};
    ghost use Rattle.croner.specs.crontable.TableListing.{table_standing_of, new_table_standing};
    ghost use Rattle.croner.specs.Private.crontable.Met.{met_of, new_met};
    ghost use Rattle.croner.specs.Private.crontable.Room.{IsRefusedInRoom};

    /// A table without jobs. Takes no memory.
    ///
    /// ```
    /// let table = CronTable::new(alloc);
    /// let start = DateTime::new(2024, 6, 30, 9, 30, 0, 0)?;
    /// let refused = table.find_next_occurrence(&start, false); // TimeSearchLimitExceeded: there is no job
    /// ```
    pub fn new(alloc: Global) -> CronTable
        ensures { patterns_of result ≡ [] }
    {
        CronTable {
            jobs: Vec::new(alloc),
            alloc,
        }
    }

    /// Appends a job, and returns its place.
    ///
    /// The only error is `OutOfMemory`: the table is then unchanged, and the job is dropped.
    ///
    /// ```
    /// let mut table = CronTable::new(alloc);
    /// let mondays = table.push(Cron::from_str(alloc, "0 0 * * MON")?)?; // 0
    /// let months = table.push(Cron::from_str(alloc, "0 0 1 * *")?)?; // 1
    /// ```
    pub fn push(&mut self, job: Cron) -> Result<usize, CronError>
        ensures place { IfOk result (λ place. place ≡ length (patterns_of self.old)) }
        ensures appended { IfOk result (λ place. patterns_of self.new ≡ patterns_of self.old ++ job_of job ∷ []) }
        ensures kept { IfErr result (λ e. patterns_of self.new ≡ patterns_of self.old) }
        ensures err { IfErr result (λ e. e ≡ CronError.OutOfMemory) }
    {
        let place = self.jobs.len();
        self.jobs.reserve(1)?;
        self.jobs.push_reserved(job);
        Ok(place)
    }

    /// Replaces the job at a place, and returns the old one. `None` where there is no such place: the table is then
    /// unchanged, and the new job is dropped.
    ///
    /// All other jobs keep their places. Takes no memory, and the same time however many jobs there are.
    ///
    /// ```
    /// let mut table = CronTable::new(alloc);
    /// table.push(Cron::from_str(alloc, "0 0 * * MON")?)?;
    /// let old = table.replace(0, Cron::from_str(alloc, "0 0 * * TUE")?); // the job of Mondays
    /// let none = table.replace(1, Cron::from_str(alloc, "0 0 * * SUN")?); // None: there is no place 1
    /// ```
    #[tactic(auto, using(crate::proofs::crontable::TableChanges::changed_tables))]
    pub fn replace(&mut self, place: usize, job: Cron) -> Option<Cron>
        ensures old { option_map job_of result ≡ slice_get (patterns_of self.old) place }
        ensures replaced { IfSome result (λ old. patterns_of self.new ≡ slice_set (patterns_of self.old) place (job_of job)) }
        ensures kept { IfNone result (patterns_of self.new ≡ patterns_of self.old) }
    {
        if place < self.jobs.len() {
            Some(mem::replace(&mut self.jobs[place], job))
        } else {
            None
        }
    }

    /// Removes a job from the table, and returns it. `None` where there is no such place: the table is then unchanged.
    ///
    /// The jobs after it move up by one place; those before it stay. Takes no memory; its time grows with the number of jobs
    /// after the place.
    ///
    /// ```
    /// let mut table = CronTable::new(alloc);
    /// table.push(Cron::from_str(alloc, "0 0 * * MON")?)?;
    /// table.push(Cron::from_str(alloc, "0 0 1 * *")?)?;
    /// let mondays = table.remove(0); // the job of Mondays; the other one stands at place 0 now
    /// let none = table.remove(1); // None: there is no place 1 any more
    /// ```
    #[tactic(auto, using(crate::proofs::crontable::TableChanges::changed_tables))]
    pub fn remove(&mut self, place: usize) -> Option<Cron>
        ensures old { option_map job_of result ≡ slice_get (patterns_of self.old) place }
        ensures removed { IfSome result (λ old. patterns_of self.new ≡ remove (patterns_of self.old) place) }
        ensures kept { IfNone result (patterns_of self.new ≡ patterns_of self.old) }
    {
        if place < self.jobs.len() {
            Some(self.jobs.remove(place))
        } else {
            None
        }
    }

    /// Drops all jobs. Takes no memory; its time grows with the number of jobs.
    ///
    /// ```
    /// table.clear();
    /// let place = table.push(Cron::from_str(alloc, "0 0 * * MON")?)?; // 0
    /// ```
    pub fn clear(&mut self)
        ensures { patterns_of self.new ≡ [] }
    {
        self.jobs.clear();
    }

    /// The jobs, in the order of their places. Takes no memory; the iterator borrows the table.
    ///
    /// ```
    /// for job in table.iter() {
    ///     println!(rt; "{}", job.as_str())?;
    /// }
    /// ```
    pub fn iter(&self) -> slice::Iter<'_, Cron>
        ensures { map job_of (iter_rest result) ≡ patterns_of self.now }
    {
        self.jobs.iter()
    }

    /// How many jobs there are.
    ///
    /// ```
    /// let mut table = CronTable::new(alloc);
    /// table.push(Cron::from_str(alloc, "0 0 * * MON")?)?;
    /// let jobs = table.len(); // 1
    /// ```
    pub fn len(&self) -> usize
        ensures { result ≡ length (patterns_of self.now) }
    {
        self.jobs.len()
    }

    /// Whether there is no job.
    ///
    /// ```
    /// let is_empty = CronTable::new(alloc).is_empty(); // true
    /// ```
    pub fn is_empty(&self) -> bool
        ensures { IsTrue result ↔ (patterns_of self.now ≡ []) }
    {
        self.jobs.is_empty()
    }

    /// The job at a place; `None` where there is none.
    ///
    /// ```
    /// let mut table = CronTable::new(alloc);
    /// table.push(Cron::from_str(alloc, "0 0 * * MON")?)?;
    /// let mondays = table.get(0); // the job of Mondays
    /// let none = table.get(1); // None: there is no place 1
    /// ```
    pub fn get(&self, place: usize) -> Option<&Cron>
        ensures job { option_map (λ job. job_of job.now) result ≡ slice_get (patterns_of self.now) place }
    {
        if place < self.jobs.len() {
            Some(self.job_at(place))
        } else {
            None
        }
    }

    // The job at a place that there is.
    fn job_at(&self, place: usize) -> &Cron
        requires { place < length (patterns_of self.now) }
        ensures stands { slice_get (patterns_of self.now) place ≡ Some (job_of result.now) }
    {
        &self.jobs[place]
    }

    /// The next run of any job after a time, or from it on if the search is inclusive, in the time's zone, and the places of
    /// all jobs that run then, ascending.
    ///
    /// [`Cron::find_next_occurrence`](crate::Cron::find_next_occurrence) says which instants are runs of a job, and which of
    /// them count; [`CronDateTime`] says when a zone is calm. In a calm zone and from a whole second, over any backend, the
    /// answer is the nearest instant at which a run of some job counts, with exactly the places of the jobs whose runs count
    /// then. In every zone and from every start it is a whole second in the start's zone, with at least one place.
    ///
    /// Errors:
    /// - `TimeSearchLimitExceeded`: in a calm zone and from a whole second no run of any job is left in the searched years, which
    ///   end when the zone's clock first shows year 5000. If one job's search gives this error, a run of another job past the
    ///   searched years isn't given, since an unseen run might be nearer. A table without jobs always gives this error.
    /// - `OutOfMemory`: there is no memory for the places, which is taken first, or the backend lacks memory.
    /// - `InvalidDate` or `InvalidTime`, by the backend: it doesn't hold a moment that the search needs. Neither occurs in a calm
    ///   zone from a whole second if the years 0 to 5001 and two days around the start are held.
    ///
    /// Of several errors other than `TimeSearchLimitExceeded`, that of the job with the lowest place is returned. A search
    /// changes nothing.
    ///
    /// ```
    /// let mut table = CronTable::new(alloc);
    /// table.push(Cron::from_str(alloc, "0 0 * * MON")?)?; // place 0
    /// table.push(Cron::from_str(alloc, "0 0 1 * *")?)?; // place 1
    /// let start = DateTime::new(2024, 6, 30, 9, 30, 0, 0)?;
    /// let (run, places) = table.find_next_occurrence(&start, false)?; // 2024-07-01T00:00:00, [0, 1]
    /// ```
    pub fn find_next_occurrence<T: CronDateTime>(
        &self,
        start: &T,
        inclusive: bool,
    ) -> Result<(T, Vec<usize>), CronError>
        ensures found { IfOk result (λ r. IsTableFound Direction.Forward inclusive (patterns_of self.now) (T.moment start.now) (T.moment r.0) r.1.items) }
        ensures refused { IfErr result (IsTableRefused Direction.Forward inclusive (patterns_of self.now) (T.moment start.now)) }
        ensures none { patterns_of self.now ≡ [] → result ≡ Err TimeSearchLimitExceeded }
    {
        self.find_occurrence(start, inclusive, Direction::Forward)
    }

    /// The previous run of any job before a time, or from it back if the search is inclusive: as
    /// [`find_next_occurrence`](Self::find_next_occurrence), in the other direction. The searched years begin when the zone's clock
    /// last shows year 1.
    ///
    /// ```
    /// let mut table = CronTable::new(alloc);
    /// table.push(Cron::from_str(alloc, "0 0 * * MON")?)?; // place 0
    /// table.push(Cron::from_str(alloc, "0 0 1 * *")?)?; // place 1
    /// let start = DateTime::new(2024, 6, 30, 9, 30, 0, 0)?;
    /// let (run, places) = table.find_previous_occurrence(&start, true)?; // 2024-06-24T00:00:00, [0]
    /// ```
    pub fn find_previous_occurrence<T: CronDateTime>(
        &self,
        start: &T,
        inclusive: bool,
    ) -> Result<(T, Vec<usize>), CronError>
        ensures found { IfOk result (λ r. IsTableFound Direction.Backward inclusive (patterns_of self.now) (T.moment start.now) (T.moment r.0) r.1.items) }
        ensures refused { IfErr result (IsTableRefused Direction.Backward inclusive (patterns_of self.now) (T.moment start.now)) }
        ensures none { patterns_of self.now ≡ [] → result ≡ Err TimeSearchLimitExceeded }
    {
        self.find_occurrence(start, inclusive, Direction::Backward)
    }

    // The nearest run in a direction. A table without jobs has none, and takes no memory.
    fn find_occurrence<T: CronDateTime>(
        &self,
        start: &T,
        inclusive: bool,
        direction: Direction,
    ) -> Result<(T, Vec<usize>), CronError>
        ensures found { IfOk result (λ r. IsTableFound direction inclusive (patterns_of self.now) (T.moment start.now) (T.moment r.0) r.1.items) }
        ensures refused { IfErr result (IsTableRefused direction inclusive (patterns_of self.now) (T.moment start.now)) }
        ensures none { patterns_of self.now ≡ [] → result ≡ Err TimeSearchLimitExceeded }
    {
        if self.jobs.is_empty() {
            return Err(CronError::TimeSearchLimitExceeded);
        }
        self.search_jobs(start, inclusive, direction)
    }

    // Takes memory for as many places as there are jobs, and searches. Only this can lack memory if the backend can't.
    #[tactic(auto, using(crate::proofs::crontable::TableSearch::room_refusals))]
    fn search_jobs<T: CronDateTime>(
        &self,
        start: &T,
        inclusive: bool,
        direction: Direction,
    ) -> Result<(T, Vec<usize>), CronError>
        ensures found { IfOk result (λ r. IsTableFound direction inclusive (patterns_of self.now) (T.moment start.now) (T.moment r.0) r.1.items) }
        ensures refused { IfErr result (IsTableRefused direction inclusive (patterns_of self.now) (T.moment start.now)) }
    {
        let Ok(met) = Met::new(self.alloc, self.jobs.len()) else {
            return Err(CronError::OutOfMemory);
        };
        self.search_in_room(met, start, inclusive, direction)
    }

    // Searches each job in turn, from a start that is read once, and keeps the nearest answers in the memory taken for them.
    fn search_in_room<T: CronDateTime>(
        &self,
        mut met: Met<T>,
        start: &T,
        inclusive: bool,
        direction: Direction,
    ) -> Result<(T, Vec<usize>), CronError>
        requires begun { met_of met ≡ new_met }
        requires empty { vec_len met.places ≡ 0 }
        requires room { vec_len self.now.jobs ≤ vec_capacity met.places }
        ensures found { IfOk result (λ r. IsTableFound direction inclusive (patterns_of self.now) (T.moment start.now) (T.moment r.0) r.1.items) }
        ensures refused { IfErr result (IsRefusedInRoom T.can_lack_memory direction inclusive (patterns_of self.now) (T.moment start.now)) }
    {
        let shown = start.to_civil();
        for place in 0..self.jobs.len() {
            let answer = self
                .job_at(place)
                .find_occurrence_with_reading(start, shown, inclusive, direction);
            met.take(place, answer, direction)?;
        }
        met.decide(self.alloc, direction)
    }

    /// The runs of all jobs from a start in a direction, each instant with the places of the jobs that run then. The start
    /// counts as in an inclusive search. Takes no memory; the iterator borrows the table.
    ///
    /// ```
    /// let start = DateTime::new(2024, 7, 1, 0, 0, 0, 0)?;
    /// let mut runs = table.iter_from(start, Direction::Forward);
    /// let first = runs.next(); // 2024-07-01T00:00:00, [0, 1]
    /// let second = runs.next(); // 2024-07-08T00:00:00, [0]
    /// ```
    pub fn iter_from<T: CronDateTime>(
        &self,
        start: T,
        direction: Direction,
    ) -> CronTableIterator<'_, T>
        ensures { table_standing_of T.moment result ≡ new_table_standing (patterns_of self.now) (T.moment start) true direction }
    {
        CronTableIterator::new(self, start, true, direction)
    }

    /// The runs of all jobs after a start, forward, without the start. Takes no memory.
    ///
    /// ```
    /// let mut runs = table.iter_after(DateTime::new(2024, 7, 1, 0, 0, 0, 0)?);
    /// let next = runs.next(); // 2024-07-08T00:00:00, [0]
    /// ```
    pub fn iter_after<T: CronDateTime>(&self, start: T) -> CronTableIterator<'_, T>
        ensures { table_standing_of T.moment result ≡ new_table_standing (patterns_of self.now) (T.moment start) false Direction.Forward }
    {
        CronTableIterator::new(self, start, false, Direction::Forward)
    }

    /// The runs of all jobs before a start, backward, without the start. Takes no memory.
    ///
    /// ```
    /// let mut runs = table.iter_before(DateTime::new(2024, 7, 1, 0, 0, 0, 0)?);
    /// let previous = runs.next(); // 2024-06-24T00:00:00, [0]
    /// ```
    pub fn iter_before<T: CronDateTime>(&self, start: T) -> CronTableIterator<'_, T>
        ensures { table_standing_of T.moment result ≡ new_table_standing (patterns_of self.now) (T.moment start) false Direction.Backward }
    {
        CronTableIterator::new(self, start, false, Direction::Backward)
    }
}

/// A copy has the same jobs at the same places. The only error is lack of memory.
impl Clone for CronTable {
    ghost use Rattle.croner.specs.crontable.Tables.{patterns_of};

    ghost is_clone = { λ original copy. patterns_of copy ≡ patterns_of original };

    fn clone(&self) -> Result<CronTable, AllocError> {
        Ok(CronTable {
            jobs: self.jobs.clone()?,
            alloc: self.alloc,
        })
    }
}
