//! Iterators over the runs of a table.
ghost use Rattle.std.specs.Prelude.{◌≡◌, ◌&&◌, true, false, Some, None, IsTrue};
ghost use Rattle.std.specs.BinaryHeap.{heap_items};
ghost use Rattle.croner_base.specs.declared.time.Direction.{Direction};
ghost use Rattle.croner.specs.crontable.Tables.{patterns_of};
ghost use Rattle.croner.specs.iterator.Faults.{is_kept};
ghost use Rattle.croner.specs.Private.crontable.Kept.{AreKept, IsHeld};

use super::CronTable;
use super::asked::search;
use super::kept::Kept;
use crate::iterator::{copy_of_fault, fault_of};
use crate::search::wall::is_within;
use croner_base::errors::CronError;
use croner_base::time::{CronDateTime, Direction};
use std::alloc::AllocError;

/// The runs of a table's jobs from a start, in one direction: instants at which some job runs, each with the places of all jobs
/// that run then, ascending.
///
/// It borrows the table. Each item's instant is the position from which the next search starts. A call of `next` without an item
/// leaves the iterator where it is, so a later call can go on; `fault` then says why, unless the searched years have ended. In a
/// calm zone ([`CronDateTime`] says when a zone is calm) and from a whole second the items are these instants in order, each
/// once, with none left out between them, over any backend. No item and no fault then means that no run of any job is left in the
/// searched years ([`CronTable::find_next_occurrence`] says which these are).
#[derive(Debug, Drop)]
pub struct CronTableIterator<'t, T: CronDateTime> {
    table: &'t CronTable,
    position: T,
    is_first: bool,
    inclusive: bool,
    direction: Direction,
    kept: Kept<T>,
    fault: Option<CronError>,
    ghost kept_fault: { IsTrue (is_kept fault) },
    ghost whole: { is_first ≡ false → (T.moment position).fraction ≡ 0 },
    ghost known: { kept.is_begun ≡ true
        → AreKept T.moment (patterns_of table.now) direction (is_first && inclusive) (T.moment position) (heap_items kept.dues) kept.waiting.items kept.is_limited },
    ghost held: { kept.is_begun ≡ true → (run : T) → kept.found ≡ Some run
        → IsHeld T.moment (patterns_of table.now) direction (is_first && inclusive) (T.moment position) run (heap_items kept.dues) kept.waiting.items },
}

impl<'t, T: CronDateTime> CronTableIterator<'t, T> {
    ghost use Rattle.std.specs.Prelude.{[], IfOk, OnOk, IfErr, option_map};
    ghost use Rattle.croner_base.specs.Zone.{reading};
    ghost use Rattle.croner.specs.search.Limit.{IsWithin};
    ghost use Rattle.croner.specs.crontable.TableListing.{table_standing_of, new_table_standing, counts_table_position, table_moved};
    ghost use Rattle.croner.specs.crontable.Tables.{IsTableFound, IsTableRefused};
    ghost use Rattle.croner.specs.Private.crontable.Kept.{LeadsTo, LieAhead};

    // An iterator from a start, which is an item itself if the iterator is inclusive and some job runs then.
    pub(crate) fn new(
        table: &'t CronTable,
        start: T,
        inclusive: bool,
        direction: Direction,
    ) -> CronTableIterator<'t, T>
        ensures { table_standing_of T.moment result ≡ new_table_standing (patterns_of table.now) (T.moment start) inclusive direction }
    {
        CronTableIterator {
            table,
            position: start,
            is_first: true,
            inclusive,
            direction,
            kept: Kept::new(table.alloc),
            fault: None,
        }
    }

    /// The error, other than `TimeSearchLimitExceeded`, that ended the last call of `next`. `None` where that call gave an item
    /// or ended in `TimeSearchLimitExceeded`, and before the first call.
    ///
    /// ```
    /// let mut table = CronTable::new(alloc);
    /// table.push(Cron::from_str(alloc, "0 0 0 1 1 * 2024")?)?;
    /// let mut runs = table.iter_after(DateTime::new(2024, 1, 1, 0, 0, 0, 0)?);
    /// let none = runs.next(); // None: no run of any job is left
    /// let fault = runs.fault(); // None
    /// ```
    pub fn fault(&self) -> Option<&CronError>
        ensures { option_map (λ e. e.now) result ≡ (table_standing_of T.moment self.now).fault }
    {
        self.fault.as_ref()
    }

    // The direction in which it goes.
    pub(crate) fn direction(&self) -> Direction
        ensures { result ≡ (table_standing_of T.moment self.now).direction }
    {
        self.direction
    }

    // Whether the next search counts the position.
    fn counts_position(&self) -> bool
        ensures { result ≡ counts_table_position (table_standing_of T.moment self.now) }
    {
        self.is_first && self.inclusive
    }

    // The answer of the next search: a run, and its item. What is kept of the jobs remains true, and a run that was taken is held
    // until its item is given.
    fn find(&mut self) -> Result<(T, (T, Vec<usize>)), CronError>
        ensures same { table_standing_of T.moment self.new ≡ table_standing_of T.moment self.old }
        ensures found { IfOk result (λ r. IsTableFound self.old.direction (counts_table_position (table_standing_of T.moment self.old))
            (patterns_of self.old.table.now) (T.moment self.old.position) (T.moment r.0) r.1.1.items) }
        ensures copied { IfOk result (λ r. T.moment r.1.0 ≡ T.moment r.0) }
        ensures refused { IfErr result (IsTableRefused self.old.direction (counts_table_position (table_standing_of T.moment self.old))
            (patterns_of self.old.table.now) (T.moment self.old.position)) }
        ensures none { IfErr result (λ e. patterns_of self.old.table.now ≡ [] → e ≡ CronError.TimeSearchLimitExceeded) }
        ensures ahead { IfOk result (λ r. LieAhead T.moment self.new.direction (T.moment r.0) (heap_items self.new.kept.dues)) }
        ensures given { OnOk result (self.new.kept.found ≡ None) }
    {
        if self.table.is_empty() {
            return Err(CronError::TimeSearchLimitExceeded);
        }
        self.kept.begin(self.table.alloc, self.table.len())?;
        let inclusive = self.counts_position();
        search(
            self.table,
            &mut self.kept,
            &self.position,
            inclusive,
            self.direction,
        )
    }

    // Whether what is kept remains true from an item on: not after a start, which may have a fraction, nor where the item is
    // outside the searched years.
    fn keeps_over(&self, item: &T) -> bool
        ensures moved { IsTrue result → self.now.is_first ≡ false }
        ensures within { IsTrue result → IsWithin self.now.direction (reading (T.moment item.now)) }
    {
        !self.is_first && is_within(item.to_civil(), self.direction)
    }

    // Makes the run that was found the position.
    fn step_to(&mut self, run: T)
        requires leads { LeadsTo self.old.direction (T.moment self.old.position) (T.moment run) }
        requires ahead { LieAhead T.moment self.old.direction (T.moment run) (heap_items self.old.kept.dues) }
        requires given { self.old.kept.found ≡ None }
        ensures { table_standing_of T.moment self.new ≡ table_moved (table_standing_of T.moment self.old) (T.moment run) }
    {
        let keeps = self.keeps_over(&run);
        self.kept.let_go_unless(keeps);
        self.position = run;
        self.is_first = false;
        self.fault = None;
    }
}

/// A copy has the same position over the same table, and gives the same runs from there; its first search is of all jobs. The
/// only error is lack of memory.
impl<'t, T: CronDateTime> Clone for CronTableIterator<'t, T> {
    ghost use Rattle.croner.specs.crontable.TableListing.{table_standing_of};

    ghost is_clone = { λ original copy. table_standing_of T.moment copy ≡ table_standing_of T.moment original };

    fn clone(&self) -> Result<CronTableIterator<'t, T>, AllocError> {
        Ok(CronTableIterator {
            table: self.table,
            position: self.position.clone()?,
            is_first: self.is_first,
            inclusive: self.inclusive,
            direction: self.direction,
            kept: Kept::new(self.table.alloc),
            fault: copy_of_fault(&self.fault),
        })
    }
}

impl<'t, T: CronDateTime> Iterator for CronTableIterator<'t, T> {
    type Item = (T, Vec<usize>);

    ghost use Rattle.croner.specs.crontable.TableListing.{TableSteps};

    ghost next_gives = { TableSteps T.moment };

    fn next(&mut self) -> Option<(T, Vec<usize>)> {
        match self.find() {
            Ok((run, item)) => {
                self.step_to(run);
                Some(item)
            }
            Err(refusal) => {
                self.fault = fault_of(refusal);
                None
            }
        }
    }
}
