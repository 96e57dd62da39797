//! Laws of iterators over tables of patterns.
//!
//! [`CronDateTime`] says when a zone is calm.
ghost use Rattle.std.specs.Prelude.{◌≡◌, ◌≤◌, ◌<◌, ◌+◌, ◌↔◌, ℕ, ℤ, true, false, IfOk, IfErr, IsTrue, length, vec_len, vec_capacity};
ghost use Rattle.croner_base.specs.TableZone.{table_moment};
ghost use Rattle.croner.specs.iterator.Faults.{IsMemoryAlone};
ghost use Rattle.croner.specs.laws.Until.{ListsTableUntil};
ghost use Rattle.croner.specs.Private.Until.{TakesTableUntil};
ghost use Rattle.croner.specs.search.Premises.{StartsCalm, IsSearchable};
ghost use Rattle.croner.specs.crontable.Tables.{patterns_of};
ghost use Rattle.croner.specs.crontable.TableListing.{TableStanding, table_standing_of, new_table_standing, table_moved, IsLeftAt};
ghost use Rattle.croner.specs.crontable.TableItems.{BeginsTableRest, GaveTable, GaveAllTable, table_items, TakesTable, TakesTableInTurn};

use crate::crontable::{CronTable, CronTableIterator};
use crate::laws::listing::{ListingEnd, comes_by};
use croner_base::errors::CronError;
use croner_base::time::table::TableTime;
use croner_base::time::{CronDateTime, Direction};
use std::alloc::Global;

/// The items of `calls` calls of `next`, of which some may give none; and whether nothing is left, which is so if the last
/// call gave no item and kept no fault.
///
/// Exactly that many calls are made, one after the other. In a calm zone and from a whole second, over any backend, the items
/// are the first that the iterator had yet to give, strictly in order in its direction. Each has exactly the places of the jobs
/// whose runs count at its instant. The iterator goes on with the rest; if nothing is left, there is no rest in the searched
/// years. If the backend holds what a search from the iterator's position needs, it also holds what one from its new position
/// needs. The only fault after any number of calls is then lack of memory; an item's places take memory over any backend. The
/// only error is `OutOfMemory`, since memory for as many items as there are calls is taken first; the iterator is then
/// unchanged.
pub fn next_table_runs<T: CronDateTime>(
    alloc: Global,
    iterator: &mut CronTableIterator<'_, T>,
    calls: u32,
) -> Result<(Vec<(T, Vec<usize>)>, bool), CronError>
    ensures listing { StartsCalm (table_standing_of T.moment iterator.old).position →
        IfOk result (λ r. BeginsTableRest (table_standing_of T.moment iterator.old) (table_items T.moment r.0.items)) }
    ensures rest { StartsCalm (table_standing_of T.moment iterator.old).position →
        IfOk result (λ r. GaveTable (table_standing_of T.moment iterator.old) (table_standing_of T.moment iterator.new) (table_items T.moment r.0.items)) }
    ensures all { StartsCalm (table_standing_of T.moment iterator.old).position →
        IfOk result (λ r. IsTrue r.1 → GaveAllTable (table_standing_of T.moment iterator.old) (table_items T.moment r.0.items)) }
    ensures searchable { IsSearchable (table_standing_of T.moment iterator.old).position →
        IsSearchable (table_standing_of T.moment iterator.new).position }
    ensures fault { IsSearchable (table_standing_of T.moment iterator.old).position → 0 < calls →
        IfOk result (λ r. IsMemoryAlone true (table_standing_of T.moment iterator.new).fault) }
    ensures called { IfOk result (λ r. TakesTableInTurn T.moment calls iterator.old iterator.new r.0.items r.1) }
    ensures most { IfOk result (λ r. length r.0.items ≤ calls) }
    ensures kept { IfErr result (λ e. table_standing_of T.moment iterator.new ≡ table_standing_of T.moment iterator.old) }
    ensures err { IfErr result (λ e. e ≡ CronError.OutOfMemory) }
{
    let Ok(mut runs) = Vec::with_capacity(alloc, calls as usize) else {
        return Err(CronError::OutOfMemory);
    };
    let mut is_over = false;
    for _call in 0..calls {
        is_over = take_next(iterator, &mut runs);
    }
    Ok((runs, is_over))
}

/// The next items of an iterator: at most `most`, and none past the second `until` in its direction, if one is given; and how the
/// listing ended. The iterator is on the clock of a table of offsets, which is calm. The second is counted from
/// 1970-01-01T00:00:00 UTC.
///
/// It is as [`next_runs_until`](crate::laws::listing::next_runs_until) for one pattern, each item with exactly the places that count
/// at its instant. Here, however, a search also fails if there is no memory for an item's places. A run past the second was taken
/// from the iterator, which goes on past it; an iterator [`resume_table_after`] from the last item gives it again.
///
/// The only error is `OutOfMemory`, since memory for `most` items is taken first; the iterator is then unchanged.
pub fn next_table_runs_until<'t>(
    alloc: Global,
    iterator: &mut CronTableIterator<'_, TableTime<'t>>,
    until: Option<i64>,
    most: u32,
) -> Result<(Vec<(TableTime<'t>, Vec<usize>)>, ListingEnd), CronError>
    ensures lists { IfOk result
        (λ r. ListsTableUntil (table_standing_of table_moment iterator.old) (table_standing_of table_moment iterator.new) until most r.0.items r.1) }
    ensures kept { IfErr result (λ e. table_standing_of table_moment iterator.new ≡ table_standing_of table_moment iterator.old) }
    ensures err { IfErr result (λ e. e ≡ CronError.OutOfMemory) }
{
    let Ok(mut runs) = Vec::with_capacity(alloc, most as usize) else {
        return Err(CronError::OutOfMemory);
    };
    for _call in 0..most {
        if let Some(end) = take_next_until(iterator, &mut runs, until) {
            return Ok((runs, end));
        }
    }
    Ok((runs, ListingEnd::Full))
}

/// An iterator that goes on from an item, without giving it again.
///
/// Whichever iterator over the same patterns and in the same direction gave the item, both have the same runs yet to give, each
/// with the same places. So a listing can be resumed from any item that was kept.
pub fn resume_table_after<T: CronDateTime>(
    table: &CronTable,
    item: T,
    direction: Direction,
) -> CronTableIterator<'_, T>
    ensures stands { table_standing_of T.moment result ≡ new_table_standing (patterns_of table.now) (T.moment item) false direction }
    ensures same_rest { (s : TableStanding) → s.patterns ≡ patterns_of table.now → s.direction ≡ direction → (k : ℕ) (i : ℤ) →
        IsLeftAt (table_moved s (T.moment item)) k i ↔ IsLeftAt (new_table_standing (patterns_of table.now) (T.moment item) false direction) k i }
{
    CronTableIterator::new(table, item, false, direction)
}

// Appends the item of one call to the others, or returns whether nothing is left.
fn take_next<T: CronDateTime>(
    iterator: &mut CronTableIterator<'_, T>,
    runs: &mut Vec<(T, Vec<usize>)>,
) -> bool
    requires room { vec_len runs.old < vec_capacity runs.old }
    ensures takes { TakesTable T.moment iterator.old iterator.new runs.old.items runs.new.items result }
    ensures longer { vec_len runs.new ≤ vec_len runs.old + 1 }
    ensures room { vec_capacity runs.new ≡ vec_capacity runs.old }
{
    match iterator.next() {
        Some(run) => {
            runs.push_reserved(run);
            false
        }
        None => iterator.fault().is_none(),
    }
}

// Appends the item of one call to the others unless it lies past the second; or returns how the listing ends.
fn take_next_until<'t>(
    iterator: &mut CronTableIterator<'_, TableTime<'t>>,
    runs: &mut Vec<(TableTime<'t>, Vec<usize>)>,
    until: Option<i64>,
) -> Option<ListingEnd>
    requires room { vec_len runs.old < vec_capacity runs.old }
    ensures takes { TakesTableUntil until (table_standing_of table_moment iterator.old) (table_standing_of table_moment iterator.new)
        runs.old.items runs.new.items result }
    ensures room { vec_capacity runs.new ≡ vec_capacity runs.old }
{
    let direction = iterator.direction();
    match iterator.next() {
        Some(item) => {
            let second = item.0.second();
            if !comes_by(direction, until, second) {
                return Some(ListingEnd::Past(second));
            }
            runs.push_reserved(item);
            None
        }
        None if iterator.fault().is_none() => Some(ListingEnd::Over),
        None => Some(ListingEnd::Refused),
    }
}
