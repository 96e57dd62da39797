//! What an iterator over a table keeps of its jobs' searches from one item to the next.
ghost use Rattle.std.specs.Prelude.{◌≡◌, ◌⊎◌, ◌<◌, ◌≤◌, ◌+◌, true, false, [], ◌∷◌, IsPermutation, vec_len, vec_capacity, IfOk, IfErr, OnOk, IfSome, OnSome, IfNone, Some, None, IsTrue, slice_index_or, ℕ};
ghost use Rattle.std.specs.BinaryHeap.{IsHeap, heap_items, heap_len};
ghost use Rattle.std.specs.List.{All, sum_by};
ghost use Rattle.std.proofs.Props.{props};
ghost use Rattle.croner_base.specs.Civil.{wall_second};
ghost use Rattle.croner_base.specs.Zone.{reading, nanos_of};
ghost use Rattle.croner.specs.crontable.Tables.{patterns_of, IsTableRefused};
ghost use Rattle.croner.specs.Private.crontable.Dues.{due_cmp};
ghost use Rattle.croner.specs.Private.crontable.Kept.{AreKept, WaitedBefore, IsPopped, IsApart, is_place};
ghost use Rattle.croner.specs.Private.crontable.Met.{DecidesRefusal};
ghost use Rattle.croner.specs.search.Limit.{InSpan};
ghost use Rattle.croner.specs.search.Premises.{StartsCalm};

use super::CronTable;
use super::due::Due;
use super::nearest::Met;
use croner_base::errors::CronError;
use croner_base::time::{CivilDateTime, CronDateTime, Direction};
use std::alloc::Global;
use std::collections::BinaryHeap;

/// The runs that the searches found, the nearest first, and the places of the jobs that wait to be searched. Also the run
/// that was taken, until the item made of it and of these places is given; and whether a search reached the limit: its job
/// has no run left, and isn't searched again. Before `begin` nothing is kept.
#[derive(Debug, Drop)]
pub(super) struct Kept<T: CronDateTime> {
    pub(super) dues: BinaryHeap<Due<T>, Global>,
    pub(super) waiting: Vec<usize>,
    pub(super) found: Option<T>,
    pub(super) is_begun: bool,
    pub(super) is_limited: bool,
    ghost ordered: { IsHeap (due_cmp T.moment) (heap_items dues) } by { Prim.hlevel props },
}

impl<T: CronDateTime> Kept<T> {
    /// Nothing; takes no memory.
    pub(super) fn new(alloc: Global) -> Kept<T>
        ensures { result.is_begun ≡ false }
    {
        Kept {
            dues: BinaryHeap::new(alloc),
            waiting: Vec::new(alloc),
            found: None,
            is_begun: false,
            is_limited: false,
        }
    }

    /// Drops what is kept unless it is to stay; after that all jobs are to be searched.
    pub(super) fn let_go_unless(&mut self, stays: bool)
        ensures stays { stays ≡ true → self.new ≡ self.old }
        ensures nothing { stays ≡ false → self.new.is_begun ≡ false }
    {
        if !stays {
            self.is_begun = false;
        }
    }

    /// Where nothing is kept, makes so many jobs wait, with no run held, and with room for their runs and places. The only error is
    /// `OutOfMemory`; then nothing is kept.
    pub(super) fn begin(&mut self, alloc: Global, jobs: usize) -> Result<(), CronError>
        ensures kept { self.old.is_begun ≡ true → self.new ≡ self.old }
        ensures begun { OnOk result (self.new.is_begun ≡ true) }
        ensures none { self.old.is_begun ≡ false → OnOk result (heap_items self.new.dues ≡ []) }
        ensures below { self.old.is_begun ≡ false → OnOk result (All (λ k. k < jobs) self.new.waiting.items) }
        ensures once { self.old.is_begun ≡ false → OnOk result ((k : ℕ) → k < jobs → sum_by (is_place k) self.new.waiting.items ≡ 1) }
        ensures other { self.old.is_begun ≡ false → OnOk result ((k : ℕ) → jobs ≤ k → sum_by (is_place k) self.new.waiting.items ≡ 0) }
        ensures unheld { self.old.is_begun ≡ false → OnOk result (self.new.found ≡ None) }
        ensures refused { IfErr result (λ e. (e ≡ CronError.OutOfMemory) × (self.new.is_begun ≡ false)) }
    {
        if self.is_begun {
            return Ok(());
        }
        self.found = None;
        self.dues.clear();
        if self.dues.reserve(jobs).is_err() {
            return Err(CronError::OutOfMemory);
        }
        let places = all_places(alloc, jobs)?;
        self.waiting = places;
        self.is_limited = false;
        self.is_begun = true;
        Ok(())
    }

    // Keeps a run; the only error is `OutOfMemory`, and then nothing has changed.
    fn keep(&mut self, due: Due<T>) -> Result<(), CronError>
        ensures kept { OnOk result (IsPermutation (due ∷ heap_items self.old.dues) (heap_items self.new.dues)) }
        ensures err { IfErr result (λ e. (e ≡ CronError.OutOfMemory) × (heap_items self.new.dues ≡ heap_items self.old.dues)) }
        ensures waiting { self.new.waiting ≡ self.old.waiting }
        ensures held { self.new.found ≡ self.old.found }
        ensures begun { self.new.is_begun ≡ self.old.is_begun }
        ensures limited { self.new.is_limited ≡ self.old.is_limited }
    {
        self.dues.push(due)?;
        Ok(())
    }

    /// Searches the last of the waiting jobs from a position, whose reading is `shown`. A run that it finds is kept, and the job no
    /// longer waits; a job whose search fails by anything but the limit goes on waiting.
    pub(super) fn ask(
        &mut self,
        table: &CronTable,
        position: &T,
        shown: CivilDateTime,
        inclusive: bool,
        direction: Direction,
    ) -> Result<(), CronError>
        requires some { 0 < vec_len self.old.waiting }
        requires reads { wall_second shown ≡ reading (T.moment position.now) }
        requires kept { AreKept T.moment (patterns_of table.now) direction inclusive (T.moment position.now) (heap_items self.old.dues) self.old.waiting.items self.old.is_limited }
        ensures kept { AreKept T.moment (patterns_of table.now) direction inclusive (T.moment position.now) (heap_items self.new.dues) self.new.waiting.items self.new.is_limited }
        ensures held { self.new.found ≡ self.old.found }
        ensures begun { self.new.is_begun ≡ self.old.is_begun }
        ensures waited { WaitedBefore self.old.waiting.items self.new.waiting.items }
        ensures fewer { OnOk result (vec_len self.new.waiting + 1 ≡ vec_len self.old.waiting) }
        ensures refused { IfErr result (IsTableRefused direction inclusive (patterns_of table.now) (T.moment position.now)) }
    {
        let place = self.waiting[self.waiting.len() - 1];
        let answer = table
            .job_at(place)
            .find_occurrence_with_reading(position, shown, inclusive, direction);
        match answer {
            Ok(run) => {
                let due = Due {
                    run,
                    place,
                    direction,
                };
                self.keep(due)?;
                self.waiting.pop();
                Ok(())
            }
            Err(CronError::TimeSearchLimitExceeded) => {
                self.waiting.pop();
                self.is_limited = true;
                Ok(())
            }
            Err(refused) => Err(refused),
        }
    }

    /// Searches all waiting jobs, as `ask` does, until one search fails.
    pub(super) fn ask_all(
        &mut self,
        table: &CronTable,
        position: &T,
        inclusive: bool,
        direction: Direction,
    ) -> Result<(), CronError>
        requires kept { AreKept T.moment (patterns_of table.now) direction inclusive (T.moment position.now) (heap_items self.old.dues) self.old.waiting.items self.old.is_limited }
        ensures kept { AreKept T.moment (patterns_of table.now) direction inclusive (T.moment position.now) (heap_items self.new.dues) self.new.waiting.items self.new.is_limited }
        ensures held { self.new.found ≡ self.old.found }
        ensures begun { self.new.is_begun ≡ self.old.is_begun }
        ensures waited { WaitedBefore self.old.waiting.items self.new.waiting.items }
        ensures none { OnOk result (vec_len self.new.waiting ≡ 0) }
        ensures refused { IfErr result (IsTableRefused direction inclusive (patterns_of table.now) (T.moment position.now)) }
    {
        let shown = position.to_civil();
        'asked: while !self.waiting.is_empty() {
            self.ask(table, position, shown, inclusive, direction)?;
        }
        Ok(())
    }

    /// Takes the first of the runs, if there is one; its place waits from then on.
    pub(super) fn pop(&mut self) -> Option<T>
        requires room { vec_len self.old.waiting + heap_len self.old.dues ≤ vec_capacity self.old.waiting }
        ensures room { vec_len self.new.waiting + heap_len self.new.dues ≤ vec_capacity self.new.waiting }
        ensures popped { IfSome result (IsPopped T.moment (heap_items self.old.dues) (heap_items self.new.dues) self.old.waiting.items self.new.waiting.items) }
        ensures fewer { OnSome result (heap_len self.new.dues + 1 ≡ heap_len self.old.dues) }
        ensures none { IfNone result (heap_len self.old.dues ≡ 0) }
        ensures same { IfNone result ((heap_items self.new.dues ≡ heap_items self.old.dues) × (self.new.waiting ≡ self.old.waiting)) }
        ensures held { self.new.found ≡ self.old.found }
        ensures begun { self.new.is_begun ≡ self.old.is_begun }
        ensures limited { self.new.is_limited ≡ self.old.is_limited }
    {
        match self.dues.pop() {
            Some(due) => {
                self.waiting.push_reserved(due.place);
                Some(due.run)
            }
            None => None,
        }
    }

    /// Whether the first of the runs is at the instant of one that was taken.
    pub(super) fn is_tied(&self, run: &T) -> bool
        ensures some { IsTrue result → 0 < heap_len self.now.dues }
        ensures tied { IsTrue result → (due : Due T) → nanos_of (T.moment (slice_index_or (heap_items self.now.dues) 0 due).run) ≡ nanos_of (T.moment run.now) }
        ensures apart { result ≡ false → 0 < heap_len self.now.dues → IsApart T.moment (heap_items self.now.dues) run.now }
    {
        match self.dues.peek() {
            Some(due) => due.run.cmp_instant(run).is_eq(),
            None => false,
        }
    }

    /// The item of a run that was taken: a copy with the places that wait, or the limit, as `decide` has it. Nothing changes.
    pub(super) fn item(
        &self,
        run: &T,
        alloc: Global,
        direction: Direction,
    ) -> Result<(T, Vec<usize>), CronError>
        ensures copied { IfOk result (λ item. T.moment item.0 ≡ T.moment run.now) }
        ensures places { IfOk result (λ item. item.1.items ≡ self.now.waiting.items) }
        ensures inside { IfOk result (λ item. self.now.is_limited ≡ true → StartsCalm (T.moment run.now)
            → InSpan direction (T.moment run.now).zone.reads (T.moment run.now).instant) }
        ensures refused { IfErr result (λ e. (e ≡ CronError.OutOfMemory) ⊎ DecidesRefusal T.moment T.can_lack_memory direction (Some run.now) self.now.is_limited e) }
    {
        let Ok(copy) = run.clone() else {
            return Err(CronError::OutOfMemory);
        };
        let places: Result<_, _> = self.waiting.clone();
        let Ok(places) = places else {
            return Err(CronError::OutOfMemory);
        };
        Met::of_run(copy, places, self.is_limited).decide(alloc, direction)
    }
}

// The places of so many jobs, from the last to the first; the only error is `OutOfMemory`.
fn all_places(alloc: Global, jobs: usize) -> Result<Vec<usize>, CronError>
    ensures below { IfOk result (λ places. All (λ k. k < jobs) places.items) }
    ensures once { IfOk result (λ places. (k : ℕ) → k < jobs → sum_by (is_place k) places.items ≡ 1) }
    ensures other { IfOk result (λ places. (k : ℕ) → jobs ≤ k → sum_by (is_place k) places.items ≡ 0) }
    ensures err { IfErr result (λ e. e ≡ CronError.OutOfMemory) }
{
    let Ok(mut places) = Vec::with_capacity(alloc, jobs) else {
        return Err(CronError::OutOfMemory);
    };
    for place in 0..jobs {
        places.push_reserved(place);
    }
    places.reverse();
    Ok(places)
}
