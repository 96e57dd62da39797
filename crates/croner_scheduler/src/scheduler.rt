//! The scheduler.
ghost use Rattle.std.proofs.Props.{props};
ghost use Rattle.std.specs.Prelude.{◌≡◌, ◌≤◌, ℕ, is_some, IfSome};
ghost use Rattle.std.specs.BinaryHeap.{heap_items};
ghost use Rattle.std.specs.Ordering.{nat_cmp};
ghost use Rattle.croner_scheduler.specs.Ids.{job_of};
ghost use Rattle.croner_scheduler.specs.Private.Turns.{AreTurnsOf};
ghost use Rattle.croner_scheduler.specs.Kept.{Fits, StopsAt, stop_of};
ghost use Rattle.croner_scheduler.specs.Private.Latest.{CanGive, IsLastGiven};
ghost use Rattle.croner_scheduler.specs.Private.Steps.{is_awaited_at, CanStand, IsRunOf};

use crate::add::{not_added, not_added_for_memory, not_replaced, not_replaced_for_memory};
use crate::iter::Iter;
use crate::jobs::Jobs;
use crate::latest::{Last, last_of};
use crate::turns::{
    Due, Turn, Turns, await_next, due_of, first_turn, make_room, reserve, room, settle,
};
use crate::waiting::{Next, Waiting, next_of, second_before, whole_second};
use crate::{
    AddError, Added, Again, IntoJobs, Latest, NotAdded, NotReplaced, Replaced, Resume, Skip, Stop,
    Stops,
};
use croner::{Clocked, Recurring};
use std::alloc::{AllocError, Global};
use std::collections::BinaryHeap;

/// Jobs under ids, each with a position: the moment up to which its runs are done.
///
/// It has no clock of its own, starts nothing and waits for nothing. A program asks [`next_wake_up`](Scheduler::next_wake_up) when to wake
/// up, and then takes the due runs one by one, until none is due. Each run taken becomes its job's position, so this ends. Clocks, crashes
/// and restarts are up to the program: it passes the time, and may save the positions ([`iter`](Scheduler::iter)) to add its jobs again
/// there.
///
/// In a calm zone ([`CronDateTime`](croner::CronDateTime) says when a zone is calm) the runs of a job after its position are given in
/// order, each once, up to the end of the searched years. None is left out but those that [`skip_to`](Scheduler::skip_to),
/// [`skip_all_to`](Scheduler::skip_all_to), [`resume`](Scheduler::resume) or [`take_latest_due`](Scheduler::take_latest_due) passes over. After
/// [`replace`](Scheduler::replace) they are those of the new job after its position. `laws` states this for every list of calls. In a zone that isn't calm the run given is the one that the search found,
/// later than the position. A job in such a zone doesn't affect the others. A job is *stopped* ([`Waiting::stop`]) if its backend refuses
/// the search, or the search finds a run that isn't later than the position, or while it is paused ([`pause`](Scheduler::pause)). The call
/// at which a search stops it says so,
/// [`stopped`](Scheduler::stopped) lists such jobs, and [`ask_again`](Scheduler::ask_again) searches again. A job without a run left in the
/// searched years stays, and gives nothing.
///
/// Seconds are those of [`Clocked::second`]: since 1970-01-01T00:00:00 UTC, or in civil time since that date and time.
///
/// ```
/// let mut scheduler = Scheduler::new(alloc);
/// let start = DateTime::new(2024, 7, 1, 9, 0, 0, 0)?;
/// let id = scheduler.add(Cron::from_str(alloc, "30 9 * * *")?, start)?.id; // 0
/// let wake_up = scheduler.next_wake_up(); // Some(1719826200): 09:30
/// let due = scheduler.take_due(1_719_826_200)?; // Some: the job 0, at that second
/// let none = scheduler.take_due(1_719_826_200)?; // None
/// ```
pub struct Scheduler<J: Recurring<T>, T: Clocked> {
    jobs: Jobs<J, T>,
    turns: Turns,
    ghost turns_of: { AreTurnsOf (job_of jobs) (heap_items turns) } by { Prim.hlevel props },
    ghost fits: { (id : ℕ) → ∥ IfSome (job_of jobs id) (Fits J.runs T.moment) ∥₁ },
}

// By hand, so that a function that drops one calls this one: its proof doesn't go through the fields at each exit.
impl<J: Recurring<T> + Drop, T: Clocked> Drop for Scheduler<J, T> {
    fn drop(self) {
        let Scheduler { jobs: _, turns: _ } = self;
    }
}

impl<J: Recurring<T>, T: Clocked> Scheduler<J, T> {
    ghost use Rattle.std.specs.Prelude.{length, ◌<◌, ◌+◌, ◌-◌, ◌^◌, ◌↔◌, IsTrue, IsFalse, IsSome, IfOk, IfErr, OnOk, OnErr, true, option_map, if◌then◌else◌};
    ghost use Rattle.std.specs.Option.{IsSomeAnd, option_and_then};
    ghost use Rattle.std.specs.BTreeMap.{is_at};
    ghost use Rattle.std.specs.List.Sorted.{IsStrictlySortedBy};
    ghost use Rattle.std.specs.Map.{lookup, keys_of};
    ghost use Rattle.croner_scheduler.specs.Room.{CanLack};
    ghost use Rattle.croner_scheduler.specs.Views.{capacity_of, turn_capacity_of, stop_count_of, held_of, KeepsRoom};
    ghost use Rattle.croner_scheduler.specs.Awaited.{AwaitsFirst, TakesAwaited, WakesFirst, IsSomeDue};
    ghost use Rattle.croner_scheduler.specs.Kept.{standing_of};
    ghost use Rattle.croner_scheduler.specs.declared.add.AddError.TheVariants.{OutOfMemory};
    ghost use Rattle.croner_scheduler.specs.Calls.{IsSame, IsNearest, IsWakeUp, MovesTo, turn_of, TakesDue, TakesLatest, LatestTellsStop, IsToTake, SkipsTo, SkipTellsStop, IsToMove, SkipsAll, SkipsBelow, TellsSkipped, is_behind, AsksAgain, is_asked, AgainTellsStop, Pauses, Resumes, ResumeTellsStop, IsToResume, TellsStop, IsAdded, IsHandedBack, IsAddRefused, IsAddFromRefused, second_before, IsGivenBack, IsPutRefused, Replaces, ReplacesJob, IsRemoved};

    /// A scheduler without jobs. The first id is 0.
    pub fn new(alloc: Global) -> Scheduler<J, T>
        ensures jobs { (id : ℕ) → (held_of T.moment result).jobs id ≡ None }
        ensures count { (held_of T.moment result).count ≡ 0 }
        ensures next_id { (held_of T.moment result).next_id ≡ 0 }
    {
        Scheduler::with_first_id(alloc, 0)
    }

    /// A scheduler without jobs, with its first id: so that ids given before a restart aren't used again. The id
    /// 18446744073709551615 (2^64 - 1) is never given.
    pub fn with_first_id(alloc: Global, first_id: u64) -> Scheduler<J, T>
        ensures jobs { (id : ℕ) → (held_of T.moment result).jobs id ≡ None }
        ensures count { (held_of T.moment result).count ≡ 0 }
        ensures next_id { (held_of T.moment result).next_id ≡ first_id }
    {
        Scheduler {
            jobs: Jobs::new(alloc, first_id),
            turns: BinaryHeap::new(alloc),
        }
    }

    /// For how many jobs, in all, there is room. Until there are so many, [`add`](Scheduler::add) lacks no memory but what its search takes.
    /// Only `remove` lowers the number: the room of a job that has gone is used again where there is no other.
    pub fn capacity(&self) -> usize
        ensures { result ≡ capacity_of self.now }
    {
        let jobs = self.jobs.len();
        jobs + self.jobs.room().min(room(&self.turns, jobs))
    }

    /// Takes room for so many more jobs, for a program that knows how many it will add: their places then take no memory that isn't needed,
    /// and none when they are added. Without it room for a sixteenth more is taken at a time. Nothing else changes. After lack of memory
    /// there is as much room as before, or some more. Where there is room for more than so many, memory isn't lacking.
    ///
    /// After it no call lacks memory while there are at most so many more jobs, if the positions are `DateTime`, `Zoned` or `TableTime`, whose
    /// searches take none. Only `add` and `add_from` may lack it again once a job was removed.
    pub fn reserve(&mut self, additional: usize) -> Result<(), AllocError>
        ensures same { IsSame (held_of T.moment self.old) (held_of T.moment self.new) }
        ensures no_less { KeepsRoom self.old self.new }
        ensures taken { OnOk result ((held_of T.moment self.new).count + additional ≤ capacity_of self.new) }
        ensures turns { OnOk result ((held_of T.moment self.new).count + additional < turn_capacity_of self.new) }
        ensures full { OnErr result (capacity_of self.old ≤ (held_of T.moment self.old).count + additional) }
    {
        self.jobs.reserve(additional)?;
        reserve(&mut self.turns, self.jobs.len().saturating_add(additional))
    }

    /// How many jobs there are, including those that are stopped or have no run left.
    pub fn len(&self) -> usize
        ensures { result ≡ (held_of T.moment self.now).count }
    {
        self.jobs.len()
    }

    /// Whether there is no job.
    pub fn is_empty(&self) -> bool
        ensures { IsTrue result ↔ ((held_of T.moment self.now).count ≡ 0) }
    {
        self.jobs.len() == 0
    }

    /// The id of the job that is added next: no job has it or a higher one. Where it is 18446744073709551615 (2^64 - 1), no more jobs can
    /// be added.
    pub fn next_id(&self) -> u64
        ensures next_id { result ≡ (held_of T.moment self.now).next_id }
        ensures unused { (id : ℕ) → result ≤ id → (held_of T.moment self.now).jobs id ≡ None }
    {
        self.jobs.next_id()
    }

    /// The job with an id, and its position.
    pub fn get(&self, id: u64) -> Option<&Waiting<J, T>>
        ensures standing { option_map (λ w. standing_of T.moment w.now) result ≡ (held_of T.moment self.now).jobs id }
        ensures fits { IfSome result (λ w. ∥ Fits J.runs T.moment w.now ∥₁) }
    {
        self.jobs.get(id)
    }

    /// The second of the earliest next run ([`Waiting::next_second`]) of all jobs: when to call [`take_due`](Scheduler::take_due) next. `None`
    /// exactly where no job has a next run. It makes no search.
    pub fn next_wake_up(&self) -> Option<i64>
        ensures wake_up { IsWakeUp J.runs (held_of T.moment self.now) result }
        ensures awaited { WakesFirst (held_of T.moment self.now) result }
    {
        match self.nearest_turn() {
            Some(turn) => Some(turn.second),
            None => None,
        }
    }

    /// The earliest next run ([`Waiting::next_second`]) of all jobs, if it is no later than `now`; it becomes its job's position. `None` where
    /// nothing is due. Of several runs at one instant that of the lowest id comes first.
    ///
    /// The call first searches for the run after it. Where memory is lacking for that search or for its result, the call fails and nothing
    /// has changed: the run is still due, and holds up those after it. Where the backend refuses that search, or it finds a run that isn't later, the due run is given
    /// and its job is stopped. [`Due::is_stopped`] says so, once; later calls are not affected.
    ///
    /// A `now` that is too late moves positions for good: what was given doesn't come again, even if the clock was wrong.
    pub fn take_due(&mut self, now: i64) -> Result<Option<Due>, AllocError>
        ensures taken { IfOk result (λ due. TakesDue J.runs now (held_of T.moment self.old) (held_of T.moment self.new) (option_map turn_of due)) }
        ensures awaited { IfOk result (λ due. TakesAwaited (held_of T.moment self.old) now (option_map turn_of due)) }
        ensures told { IfOk result (λ due. IfSome due (λ d. TellsStop (held_of T.moment self.new) d.id d.is_stopped)) }
        ensures refused { OnErr result (IsSame (held_of T.moment self.old) (held_of T.moment self.new)) }
        ensures due { OnErr result (IsSomeDue (held_of T.moment self.old) now) }
        ensures full { OnErr result (CanLack T.can_lack_memory (turn_capacity_of self.old) (held_of T.moment self.old).count) }
        ensures no_less { KeepsRoom self.old self.new }
    {
        match self.nearest_turn() {
            Some(turn) => self.give_by(turn, now),
            None => Ok(None),
        }
    }

    /// Adds a job under the next id, and returns the id, which isn't used again; the id 18446744073709551615 (2^64 - 1) is never used.
    /// Its runs after the position will be given, and none up to it. A fraction of a second is dropped.
    ///
    /// A job whose search its backend refuses is added, but stopped: [`Added::is_stopped`] says so. An error changes nothing, and hands
    /// the job and the position back; it is never `SecondBeforeNotHeld` or `NoJob`.
    pub fn add(&mut self, job: J, position: T) -> Result<Added, NotAdded<J, T>>
    where
        J: Drop,
        ensures added { IfOk result (λ added. IsAdded job (T.moment position) (held_of T.moment self.old) (held_of T.moment self.new) added.id) }
        ensures told { IfOk result (λ added. TellsStop (held_of T.moment self.new) added.id added.is_stopped) }
        ensures held { OnOk result ((T.moment position).zone.holds (T.moment position).instant ≡ true) }
        ensures refused { IfErr result (λ e. IsAddRefused (held_of T.moment self.old) e.error) }
        ensures handed_back { IfErr result (IsHandedBack job position) }
        ensures same { OnErr result (IsSame (held_of T.moment self.old) (held_of T.moment self.new)) }
        ensures full { IfErr result (λ e. e.error ≡ OutOfMemory → CanLack T.can_lack_memory (capacity_of self.old) (held_of T.moment self.old).count) }
        ensures no_less { KeepsRoom self.old self.new }
    {
        if self.has_no_id_left() {
            return Err(not_added(job, position, AddError::NoIdLeft));
        }
        let whole = whole_second(&position);
        self.add_at(job, position, whole)
    }

    /// Adds a job as [`add`](Scheduler::add) does, but its runs from the start's whole second on will be given, that second included, also
    /// a run that a gap of the clock carries there. So its position is the second before. A fraction of a second is dropped.
    ///
    /// An error changes nothing, and hands the job and the start back; it is never `NoJob`.
    pub fn add_from(&mut self, job: J, start: T) -> Result<Added, NotAdded<J, T>>
    where
        J: Drop,
        ensures added { IfOk result (λ added. IsAdded job (second_before (T.moment start)) (held_of T.moment self.old) (held_of T.moment self.new) added.id) }
        ensures told { IfOk result (λ added. TellsStop (held_of T.moment self.new) added.id added.is_stopped) }
        ensures held { OnOk result ((T.moment start).zone.holds (second_before (T.moment start)).instant ≡ true) }
        ensures refused { IfErr result (λ e. IsAddFromRefused (T.moment start) (held_of T.moment self.old) e.error) }
        ensures handed_back { IfErr result (IsHandedBack job start) }
        ensures same { OnErr result (IsSame (held_of T.moment self.old) (held_of T.moment self.new)) }
        ensures full { IfErr result (λ e. e.error ≡ OutOfMemory → CanLack T.can_lack_memory (capacity_of self.old) (held_of T.moment self.old).count) }
        ensures no_less { KeepsRoom self.old self.new }
    {
        if self.has_no_id_left() {
            return Err(not_added(job, start, AddError::NoIdLeft));
        }
        match second_before(&start) {
            Some(position) => self.add_at(job, start, position),
            None => Err(not_added(job, start, AddError::SecondBeforeNotHeld)),
        }
    }

    /// Puts a job in the place of another, under that one's id and with a position of its own, and returns the other with its position. The
    /// new job's runs after its position will be given, and none up to it. That position may be before the other job's: then seconds
    /// already given under this id may come again. A job whose search its backend refuses is put there, but stopped
    /// ([`Replaced::is_stopped`]). An error changes nothing, and hands the job and the position back; it is never `NoIdLeft` or
    /// `SecondBeforeNotHeld`.
    pub fn replace(
        &mut self,
        id: u64,
        job: J,
        position: T,
    ) -> Result<Replaced<J, T>, NotAdded<J, T>>
    where
        J: Drop,
        ensures replaced { IfOk result (λ out. Replaces T.moment id job (T.moment position) (held_of T.moment self.old) (held_of T.moment self.new) (out.job, out.position)) }
        ensures told { IfOk result (λ out. TellsStop (held_of T.moment self.new) id out.is_stopped) }
        ensures held { OnOk result ((T.moment position).zone.holds (T.moment position).instant ≡ true) }
        ensures refused { IfErr result (λ e. IsPutRefused id (held_of T.moment self.old) e.error) }
        ensures handed_back { IfErr result (IsHandedBack job position) }
        ensures same { OnErr result (IsSame (held_of T.moment self.old) (held_of T.moment self.new)) }
        ensures full { IfErr result (λ e. e.error ≡ OutOfMemory → CanLack T.can_lack_memory (turn_capacity_of self.old) (held_of T.moment self.old).count) }
        ensures no_less { KeepsRoom self.old self.new }
    {
        if self.get(id).is_none() {
            return Err(not_added(job, position, AddError::NoJob));
        }
        let whole = whole_second(&position);
        self.replace_at(id, job, position, whole)
    }

    /// Puts a job in the place of another, under that one's id and at its position, and returns the other with its position. The new job's
    /// runs after that position will be given: of `0 10 * * *` in place of a job whose position is last night, today's at 10:00 is due
    /// from then on, also where it is noon already. Where that isn't wanted, [`replace`](Scheduler::replace) takes a position of its own.
    ///
    /// A job whose search its backend refuses is put there, but stopped ([`Replaced::is_stopped`]). An error changes nothing, and hands
    /// the job back; it is never `NoIdLeft` or `SecondBeforeNotHeld`.
    pub fn replace_job(&mut self, id: u64, job: J) -> Result<Replaced<J, T>, NotReplaced<J>>
    where
        J: Drop,
        ensures replaced { IfOk result (λ out. ReplacesJob T.moment id job (held_of T.moment self.old) (held_of T.moment self.new) (out.job, out.position)) }
        ensures told { IfOk result (λ out. TellsStop (held_of T.moment self.new) id out.is_stopped) }
        ensures refused { IfErr result (λ e. IsPutRefused id (held_of T.moment self.old) e.error) }
        ensures handed_back { IfErr result (λ e. e.job ≡ job) }
        ensures same { OnErr result (IsSame (held_of T.moment self.old) (held_of T.moment self.new)) }
        ensures full { IfErr result (λ e. e.error ≡ OutOfMemory → CanLack T.can_lack_memory (turn_capacity_of self.old) (held_of T.moment self.old).count) }
        ensures no_less { KeepsRoom self.old self.new }
    {
        let Some(waiting) = self.jobs.get(id) else {
            return Err(not_replaced(job, AddError::NoJob));
        };
        let position = whole_second(&waiting.position);
        match Waiting::new(job, position) {
            Ok(other) => match self.put(id, other) {
                Ok(replaced) => Ok(replaced),
                Err(other) => Err(not_replaced_for_memory(other)),
            },
            Err(job) => Err(not_replaced(job, AddError::OutOfMemory)),
        }
    }

    /// Gives only the last of a job's runs that are due at `now`; it becomes the job's position, so the runs before it are done. This is
    /// for a time in which the program didn't run. Runs up to the position don't count. However many are due, it makes one search backward
    /// from `now`, and one for the run after the one that it gives.
    ///
    /// A job that is stopped, or has no run left, has none due. The next run is given where the search backward reaches the end of the
    /// searched years, or, in a zone that isn't calm, finds nothing between the next run and `now`. Where the search for the run after it
    /// is refused, the job is stopped, as by [`take_due`](Scheduler::take_due), and the answer says so. Each answer but `Given`, and lack
    /// of memory, changes nothing: what was due still is.
    pub fn take_latest_due(&mut self, id: u64, now: i64) -> Result<Latest, AllocError>
        ensures taken { IfOk result (TakesLatest J.runs id now (held_of T.moment self.old) (held_of T.moment self.new)) }
        ensures told { IfOk result (LatestTellsStop id (held_of T.moment self.new)) }
        ensures refused { OnErr result (IsSomeAnd ((held_of T.moment self.old).jobs id) (IsToTake now)) }
        ensures same { OnErr result (IsSame (held_of T.moment self.old) (held_of T.moment self.new)) }
        ensures full { OnErr result (CanLack T.can_lack_memory (turn_capacity_of self.old) (held_of T.moment self.old).count) }
        ensures no_less { KeepsRoom self.old self.new }
    {
        let Some(waiting) = self.jobs.get(id) else {
            return Ok(Latest::NoJob);
        };
        let Some(known) = waiting.due_second(now) else {
            return Ok(Latest::NothingDue);
        };
        let Some(until) = waiting.position.at_second(now) else {
            return Ok(Latest::NotHeld);
        };
        let last = last_of(&waiting.job, known, &until)?;
        self.give_last(id, known, last)
    }

    /// Moves the position of a job forward to `now`: its runs up to then are done, and none of them is given. This is for a time in which
    /// the program didn't run. With a `now` of a minute ago, what is less than a minute late stays due: a grace time. A position is never
    /// moved back. A later next run is kept; otherwise the job is searched again from `now`. A paused job stays where it is.
    /// Where that search is refused, the job is stopped, and the answer says so. Each answer but `Moved`, and lack of memory, changes
    /// nothing.
    pub fn skip_to(&mut self, id: u64, now: i64) -> Result<Skip, AllocError>
        ensures skipped { IfOk result (SkipsTo id now (held_of T.moment self.old) (held_of T.moment self.new)) }
        ensures told { IfOk result (SkipTellsStop id (held_of T.moment self.new)) }
        ensures refused { OnErr result (IsSomeAnd ((held_of T.moment self.old).jobs id) (IsToMove now)) }
        ensures same { OnErr result (IsSame (held_of T.moment self.old) (held_of T.moment self.new)) }
        ensures full { OnErr result (CanLack T.can_lack_memory (turn_capacity_of self.old) (held_of T.moment self.old).count) }
        ensures no_less { KeepsRoom self.old self.new }
    {
        let Some(waiting) = self.jobs.get(id) else {
            return Ok(Skip::NoJob);
        };
        if now <= waiting.position.second() {
            return Ok(Skip::AlreadyThere);
        }
        if waiting.is_paused() {
            return Ok(Skip::Paused);
        }
        match waiting.position.at_second(now) {
            Some(position) => {
                let is_stopped = if waiting.runs_after(now) {
                    self.move_before_next(id, position);
                    false
                } else {
                    self.move_to(id, position)?
                };
                Ok(Skip::Moved { is_stopped })
            }
            None => Ok(Skip::NotHeld),
        }
    }

    /// Moves the position of each job forward to `now`, as [`skip_to`](Scheduler::skip_to) does: of what was missed nothing is given. A job
    /// that stands at `now` or later stays there, and so does one whose zone doesn't hold `now`. Returns whether one of the jobs that moved is
    /// stopped.
    ///
    /// The jobs move in the order of their ids. Where memory is lacking for the search of one, those before it have moved, and it and those
    /// after it stand as they did.
    pub fn skip_all_to(&mut self, now: i64) -> Result<bool, AllocError>
        ensures skipped { OnOk result (SkipsAll now (held_of T.moment self.old) (held_of T.moment self.new)) }
        ensures told { IfOk result (TellsSkipped now (held_of T.moment self.old) (held_of T.moment self.new)) }
        ensures refused { OnErr result ((n : ℕ) × SkipsBelow n now (held_of T.moment self.old) (held_of T.moment self.new)
            × IsSomeAnd ((held_of T.moment self.old).jobs n) (IsToMove now)) }
        ensures full { OnErr result (CanLack T.can_lack_memory (turn_capacity_of self.old) (held_of T.moment self.old).count) }
        ensures no_less { KeepsRoom self.old self.new }
    {
        let next_id = self.jobs.next_id();
        let mut has_stopped = false;
        let mut from = 0;
        while let Some(id) = self.jobs.id_from(from) {
            let skip = self.skip_to(id, now)?;
            has_stopped = skip.is_stopped_or(has_stopped);
            prove!(id < next_id);
            from = id + 1;
        }
        Ok(has_stopped)
    }

    /// Pauses a job: it stays under its id, where it stands, and gives nothing until it is resumed ([`resume`](Scheduler::resume)), whatever
    /// else is called. It is stopped meanwhile ([`Stop::Paused`](crate::Stop::Paused)), no longer for another reason. Returns whether there
    /// is such a job. It makes no search and takes no memory.
    ///
    /// `remove`, `replace` and `replace_job` end a pause: the job that is put in the place of a paused one isn't paused.
    pub fn pause(&mut self, id: u64) -> bool
        ensures paused { Pauses id (held_of T.moment self.old) (held_of T.moment self.new) result }
        ensures no_less { KeepsRoom self.old self.new }
    {
        let is_there = self.jobs.get(id).is_some();
        self.jobs.renew(id, Next::Stopped(Stop::Paused));
        settle(&mut self.turns, &self.jobs);
        is_there
    }

    /// Ends the pause of a job: from then on its runs after `from` are given, or those after its position, if that is later. Runs
    /// up to there are passed over: with the time of the call as `from`, those of the pause. With a `from` no later than the position,
    /// they are all given.
    ///
    /// Where the search is refused, the job is stopped, and the answer says so. Each answer but `GoesOn`, and lack of memory, changes
    /// nothing.
    pub fn resume(&mut self, id: u64, from: i64) -> Result<Resume, AllocError>
        ensures resumed { IfOk result (Resumes id from (held_of T.moment self.old) (held_of T.moment self.new)) }
        ensures told { IfOk result (ResumeTellsStop id (held_of T.moment self.new)) }
        ensures refused { OnErr result (IsSomeAnd ((held_of T.moment self.old).jobs id) (IsToResume from)) }
        ensures same { OnErr result (IsSame (held_of T.moment self.old) (held_of T.moment self.new)) }
        ensures full { OnErr result (CanLack T.can_lack_memory (turn_capacity_of self.old) (held_of T.moment self.old).count) }
        ensures no_less { KeepsRoom self.old self.new }
    {
        let Some(waiting) = self.jobs.get(id) else {
            return Ok(Resume::NoJob);
        };
        if !waiting.is_paused() {
            return Ok(Resume::NotPaused);
        }
        let second = waiting.position.second().max(from);
        match waiting.position.at_second(second) {
            Some(position) => {
                let is_stopped = self.move_to(id, position)?;
                Ok(Resume::GoesOn { is_stopped })
            }
            None => Ok(Resume::NotHeld),
        }
    }

    /// Searches again after the position of a job that a search stopped, and returns the result. A job that is paused stays so. Lack of
    /// memory changes nothing.
    pub fn ask_again(&mut self, id: u64) -> Result<Again, AllocError>
        ensures asked { IfOk result (λ again. AsksAgain id (held_of T.moment self.old) (held_of T.moment self.new) (is_asked again)) }
        ensures told { IfOk result (AgainTellsStop id (held_of T.moment self.new)) }
        ensures refused { OnErr result (IsSomeAnd ((held_of T.moment self.old).jobs id) (λ s. IsSome s.stop)) }
        ensures same { OnErr result (IsSame (held_of T.moment self.old) (held_of T.moment self.new)) }
        ensures full { OnErr result (CanLack T.can_lack_memory (turn_capacity_of self.old) (held_of T.moment self.old).count) }
        ensures no_less { KeepsRoom self.old self.new }
    {
        let Some(waiting) = self.jobs.get(id) else {
            return Ok(Again::NotStopped);
        };
        if !waiting.is_stopped() {
            return Ok(Again::NotStopped);
        }
        if waiting.is_paused() {
            return Ok(Again::NotStopped);
        }
        let next = next_of(&waiting.job, &waiting.position)?;
        make_room(&mut self.turns, &self.jobs)?;
        self.jobs.renew(id, next);
        await_next(&mut self.turns, &self.jobs, next, id);
        Ok(next.again_result())
    }

    /// The jobs with their ids, in the order of the ids. Takes no memory; the iterator borrows the scheduler.
    pub fn iter(&self) -> Iter<'_, J, T>
        ensures jobs { (id : ℕ) → option_map (standing_of T.moment) (lookup (is_at (nat_cmp id)) result) ≡ (held_of T.moment self.now).jobs id }
        ensures count { length result ≡ (held_of T.moment self.now).count }
        ensures ordered { IsStrictlySortedBy nat_cmp (keys_of result) }
    {
        self.jobs.iter()
    }

    /// The ids of the stopped jobs, in order, each with the reason ([`Waiting::stop`]). Takes no memory; the iterator borrows the
    /// scheduler, and goes over all of its jobs.
    pub fn stopped(&self) -> Stops<'_, J, T>
        ensures stops { (id : ℕ) → lookup (is_at (nat_cmp id)) result ≡ option_and_then (λ s. s.stop) ((held_of T.moment self.now).jobs id) }
        ensures ordered { IsStrictlySortedBy nat_cmp (keys_of result) }
        ensures count { length result ≡ stop_count_of self.now }
    {
        Stops {
            jobs: self.jobs.iter(),
        }
    }

    /// How many jobs are stopped: as many as [`stopped`](Scheduler::stopped) lists. It is known at once, however many jobs there are.
    pub fn stopped_len(&self) -> usize
        ensures { result ≡ stop_count_of self.now }
    {
        self.jobs.stopped()
    }

    /// Removes a job, and returns it with its position, so that it can be added again; `None` where no job has the id. It takes no
    /// memory, and the id isn't used again. The room of the job is kept for jobs that are added later.
    pub fn remove(&mut self, id: u64) -> Option<(J, T)>
        ensures given { IsGivenBack T.moment ((held_of T.moment self.old).jobs id) result }
        ensures removed { IsRemoved id (held_of T.moment self.old) (held_of T.moment self.new) }
        ensures count { (held_of T.moment self.new).count + (if is_some result then 1 else 0) ≡ (held_of T.moment self.old).count }
        ensures room { capacity_of self.old ≤ capacity_of self.new + 1 }
        ensures turns { turn_capacity_of self.old ≤ turn_capacity_of self.new }
    {
        let removed = self.jobs.remove(id);
        settle(&mut self.turns, &self.jobs);
        match removed {
            Some(waiting) => Some(waiting.into_parts()),
            None => None,
        }
    }

    /// Takes the scheduler apart: its jobs with their positions, by their ids, in the order of the ids. Added again at these positions they
    /// go on as they would have. It takes no memory.
    pub fn into_jobs(self) -> IntoJobs<J, T>
    where
        J: Drop,
        ensures jobs { (id : ℕ) → IsGivenBack T.moment ((held_of T.moment self).jobs id) (lookup (is_at (nat_cmp id)) result) }
        ensures count { length result ≡ (held_of T.moment self).count }
        ensures ordered { IsStrictlySortedBy nat_cmp (keys_of result) }
    {
        let Scheduler { jobs, turns: _ } = self;
        jobs.into_jobs()
    }

    // Whether no id is left for another job.
    fn has_no_id_left(&self) -> bool
        ensures none { IsTrue result → (held_of T.moment self.now).next_id ≡ 2 ^ 64 - 1 }
        ensures left { IsFalse result → (held_of T.moment self.now).next_id < 2 ^ 64 - 1 }
    {
        self.jobs.next_id() == u64::MAX
    }

    // The nearest run that is left.
    fn nearest_turn(&self) -> Option<Turn>
        ensures nearest { IsNearest J.runs (held_of T.moment self.now) result }
        ensures turn { IfSome result (λ turn. is_awaited_at turn.second (job_of self.now.jobs turn.id) ≡ true) }
        ensures awaited { AwaitsFirst (held_of T.moment self.now) result }
    {
        first_turn(&self.turns)
    }

    // Gives the nearest run, if it is no later than now.
    fn give_by(&mut self, turn: Turn, now: i64) -> Result<Option<Due>, AllocError>
        requires nearest { IsNearest J.runs (held_of T.moment self.old) (Some turn) }
        requires turn { is_awaited_at turn.second (job_of self.old.jobs turn.id) ≡ true }
        requires awaited { AwaitsFirst (held_of T.moment self.old) (Some turn) }
        ensures taken { IfOk result (λ due. TakesDue J.runs now (held_of T.moment self.old) (held_of T.moment self.new) (option_map turn_of due)) }
        ensures awaited { IfOk result (λ due. TakesAwaited (held_of T.moment self.old) now (option_map turn_of due)) }
        ensures told { IfOk result (λ due. IfSome due (λ d. TellsStop (held_of T.moment self.new) d.id d.is_stopped)) }
        ensures refused { OnErr result (IsSame (held_of T.moment self.old) (held_of T.moment self.new)) }
        ensures due { OnErr result (IsSomeDue (held_of T.moment self.old) now) }
        ensures full { OnErr result (CanLack T.can_lack_memory (turn_capacity_of self.old) (held_of T.moment self.old).count) }
        ensures no_less { KeepsRoom self.old self.new }
    {
        if turn.second > now {
            return Ok(None);
        }
        let is_stopped = self.give(turn)?;
        Ok(Some(due_of(turn, is_stopped)))
    }

    // Gives the run of a turn, which becomes its job's position. Returns whether the job is stopped.
    fn give(&mut self, turn: Turn) -> Result<bool, AllocError>
        requires { is_awaited_at turn.second (job_of self.old.jobs turn.id) ≡ true }
        ensures given { OnOk result (MovesTo (held_of T.moment self.old) turn.id turn.second (held_of T.moment self.new)) }
        ensures told { IfOk result (TellsStop (held_of T.moment self.new) turn.id) }
        ensures refused { OnErr result (IsSame (held_of T.moment self.old) (held_of T.moment self.new)) }
        ensures full { OnErr result (CanLack T.can_lack_memory (turn_capacity_of self.old) (held_of T.moment self.old).count) }
        ensures no_less { KeepsRoom self.old self.new }
    {
        match self.run_of(turn) {
            Some(time) => self.move_to(turn.id, time),
            None => Ok(false),
        }
    }

    // The time of the run of a turn. There is one: the zone of the job holds its second.
    fn run_of(&self, turn: Turn) -> Option<T>
        requires { is_awaited_at turn.second (job_of self.now.jobs turn.id) ≡ true }
        ensures { IsRunOf T.moment (held_of T.moment self.now) turn result }
    {
        let waiting = self.jobs.get(turn.id)?;
        waiting.position.at_second(turn.second)
    }

    // Gives the last due run of a job: the one that its search found, or its next run.
    fn give_last(&mut self, id: u64, known: i64, last: Last<T>) -> Result<Latest, AllocError>
        requires turn { is_awaited_at known (job_of self.old.jobs id) ≡ true }
        requires can { IsSomeAnd ((held_of T.moment self.old).jobs id) (CanGive T.moment last) }
        ensures given { IfOk result (IsLastGiven T.moment (held_of T.moment self.old) id known last (held_of T.moment self.new)) }
        ensures told { IfOk result (LatestTellsStop id (held_of T.moment self.new)) }
        ensures same { OnErr result (IsSame (held_of T.moment self.old) (held_of T.moment self.new)) }
        ensures full { OnErr result (CanLack T.can_lack_memory (turn_capacity_of self.old) (held_of T.moment self.old).count) }
        ensures no_less { KeepsRoom self.old self.new }
    {
        match last {
            Last::Later(run) => {
                let second = run.second();
                let is_stopped = self.move_to(id, run)?;
                Ok(Latest::Given { second, is_stopped })
            }
            Last::Known => {
                let is_stopped = self.give(Turn { id, second: known })?;
                Ok(Latest::Given {
                    second: known,
                    is_stopped,
                })
            }
            Last::Refused(refusal) => Ok(Latest::Refused(refusal)),
        }
    }

    // Puts another job in the place of one, at a position; `given` is the position that the caller passed.
    fn replace_at(
        &mut self,
        id: u64,
        job: J,
        given: T,
        position: T,
    ) -> Result<Replaced<J, T>, NotAdded<J, T>>
    where
        J: Drop,
        requires there { IsSome ((held_of T.moment self.old).jobs id) }
        requires whole { (T.moment position).fraction ≡ 0 }
        ensures replaced { IfOk result (λ out. Replaces T.moment id job (T.moment position) (held_of T.moment self.old) (held_of T.moment self.new) (out.job, out.position)) }
        ensures told { IfOk result (λ out. TellsStop (held_of T.moment self.new) id out.is_stopped) }
        ensures refused { IfErr result (λ e. e.error ≡ OutOfMemory) }
        ensures handed_back { IfErr result (IsHandedBack job given) }
        ensures same { OnErr result (IsSame (held_of T.moment self.old) (held_of T.moment self.new)) }
        ensures full { OnErr result (CanLack T.can_lack_memory (turn_capacity_of self.old) (held_of T.moment self.old).count) }
        ensures no_less { KeepsRoom self.old self.new }
    {
        match Waiting::new(job, position) {
            Ok(waiting) => match self.put(id, waiting) {
                Ok(replaced) => Ok(replaced),
                Err(waiting) => Err(not_added_for_memory(waiting, given)),
            },
            Err(job) => Err(not_added(job, given, AddError::OutOfMemory)),
        }
    }

    // Puts another job in the place of one, or gives it back for lack of memory.
    fn put(&mut self, id: u64, other: Waiting<J, T>) -> Result<Replaced<J, T>, Waiting<J, T>>
    where
        J: Drop,
        requires there { IsSome ((held_of T.moment self.old).jobs id) }
        requires fits { Fits J.runs T.moment other }
        requires stop { IfSome (stop_of other.next) (StopsAt (T.moment other.position)) }
        ensures replaced { IfOk result (λ out. Replaces T.moment id other.job (T.moment other.position) (held_of T.moment self.old) (held_of T.moment self.new) (out.job, out.position)) }
        ensures told { IfOk result (λ out. TellsStop (held_of T.moment self.new) id out.is_stopped) }
        ensures returned { IfErr result (λ returned. returned ≡ other) }
        ensures same { OnErr result (IsSame (held_of T.moment self.old) (held_of T.moment self.new)) }
        ensures full { OnErr result (turn_capacity_of self.old ≤ (held_of T.moment self.old).count) }
        ensures no_less { KeepsRoom self.old self.new }
    {
        let Ok(()) = make_room(&mut self.turns, &self.jobs) else {
            return Err(other);
        };
        let next = other.next;
        match self.jobs.exchange(id, other) {
            Ok((job, position)) => {
                await_next(&mut self.turns, &self.jobs, next, id);
                Ok(Replaced {
                    job,
                    position,
                    is_stopped: next.is_stopped(),
                })
            }
            Err(other) => Err(other),
        }
    }

    // Moves a job to another position before its next run.
    fn move_before_next(&mut self, id: u64, position: T)
        requires whole { (T.moment position).fraction ≡ 0 }
        requires can { IfSome (job_of self.old.jobs id) (CanStand T.moment position) }
        ensures moved { MovesTo (held_of T.moment self.old) id (T.moment position).instant (held_of T.moment self.new) }
        ensures kept { IfSome ((held_of T.moment self.old).jobs id) (λ s.
            IsSomeAnd ((held_of T.moment self.new).jobs id) (λ s'. (s'.next ≡ s.next) × (s'.stop ≡ None))) }
        ensures no_less { KeepsRoom self.old self.new }
    {
        self.jobs.move_before_next(id, position);
    }

    // Moves a job to another position. Returns whether it is stopped.
    fn move_to(&mut self, id: u64, position: T) -> Result<bool, AllocError>
        requires { (T.moment position).fraction ≡ 0 }
        ensures told { IfOk result (λ is_stopped. IfSome ((held_of T.moment self.old).jobs id) (λ _. TellsStop (held_of T.moment self.new) id is_stopped)) }
        ensures moved { OnOk result (IfSome ((held_of T.moment self.old).jobs id) (λ s. (T.moment position).zone ≡ s.position.zone
            → MovesTo (held_of T.moment self.old) id (T.moment position).instant (held_of T.moment self.new))) }
        ensures same { OnErr result (IsSame (held_of T.moment self.old) (held_of T.moment self.new)) }
        ensures full { OnErr result (CanLack T.can_lack_memory (turn_capacity_of self.old) (held_of T.moment self.old).count) }
        ensures no_less { KeepsRoom self.old self.new }
    {
        let Some(waiting) = self.jobs.get(id) else {
            return Ok(false);
        };
        let next = next_of(&waiting.job, &position)?;
        make_room(&mut self.turns, &self.jobs)?;
        self.jobs.move_to(id, position, next);
        await_next(&mut self.turns, &self.jobs, next, id);
        Ok(next.is_stopped())
    }

    // Adds a job at a position; `given` is the position that the caller passed.
    fn add_at(&mut self, job: J, given: T, position: T) -> Result<Added, NotAdded<J, T>>
    where
        J: Drop,
        requires room { (held_of T.moment self.old).next_id < 2 ^ 64 - 1 }
        requires whole { (T.moment position).fraction ≡ 0 }
        ensures added { IfOk result (λ added. IsAdded job (T.moment position) (held_of T.moment self.old) (held_of T.moment self.new) added.id) }
        ensures told { IfOk result (λ added. TellsStop (held_of T.moment self.new) added.id added.is_stopped) }
        ensures refused { IfErr result (λ e. e.error ≡ OutOfMemory) }
        ensures handed_back { IfErr result (IsHandedBack job given) }
        ensures same { OnErr result (IsSame (held_of T.moment self.old) (held_of T.moment self.new)) }
        ensures full { OnErr result (CanLack T.can_lack_memory (capacity_of self.old) (held_of T.moment self.old).count) }
        ensures no_less { KeepsRoom self.old self.new }
    {
        match Waiting::new(job, position) {
            Ok(waiting) => match self.keep(waiting) {
                Ok(added) => Ok(added),
                Err(waiting) => Err(not_added_for_memory(waiting, given)),
            },
            Err(job) => Err(not_added(job, given, AddError::OutOfMemory)),
        }
    }

    // Keeps a job under the next id, or gives it back for lack of memory, which isn't asked for where there is room.
    fn keep(&mut self, waiting: Waiting<J, T>) -> Result<Added, Waiting<J, T>>
    where
        J: Drop,
        requires fits { Fits J.runs T.moment waiting }
        requires stop { IfSome (stop_of waiting.next) (StopsAt (T.moment waiting.position)) }
        requires room { self.old.jobs.next_id < 2 ^ 64 - 1 }
        ensures added { IfOk result (λ added. IsAdded waiting.job (T.moment waiting.position) (held_of T.moment self.old) (held_of T.moment self.new) added.id) }
        ensures told { IfOk result (λ added. TellsStop (held_of T.moment self.new) added.id added.is_stopped) }
        ensures returned { IfErr result (λ returned. returned ≡ waiting) }
        ensures same { OnErr result (IsSame (held_of T.moment self.old) (held_of T.moment self.new)) }
        ensures full { OnErr result (capacity_of self.old ≤ (held_of T.moment self.old).count) }
        ensures no_less { KeepsRoom self.old self.new }
    {
        let Ok(()) = make_room(&mut self.turns, &self.jobs) else {
            return Err(waiting);
        };
        let next = waiting.next;
        match self.jobs.add(waiting) {
            Ok(id) => {
                await_next(&mut self.turns, &self.jobs, next, id);
                Ok(Added {
                    id,
                    is_stopped: next.is_stopped(),
                })
            }
            Err(returned) => Err(returned),
        }
    }
}
