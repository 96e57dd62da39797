//! Laws of iterators, and of successive searches.
//!
//! [`CronDateTime`] says when a zone is calm.
ghost use Rattle.std.specs.Prelude.{◌≡◌, ◌≤◌, ◌<◌, ◌+◌, ◌↔◌, ◌⊎◌, ℤ, Bool, false, [], IfOk, IfErr, IsTrue, length, vec_len, vec_capacity};
ghost use Rattle.croner_base.specs.TableZone.{table_moment};
ghost use Rattle.std.specs.List.{All, AllPairs};
ghost use Rattle.croner_pattern.specs.Meaning.{meaning_of};
ghost use Rattle.croner.specs.iterator.Faults.{IsMemoryAlone};
ghost use Rattle.croner.specs.iterator.Listing.{Standing, standing_of, new_standing, moved, instants, IsLeft, BeginsRest, Gave, GaveAll, Takes, TakesInTurn};
ghost use Rattle.croner.specs.laws.Neighbours.{AreCompared, IsWholeIn, onward};
ghost use Rattle.croner.specs.laws.Until.{ComesBy, ListsUntil};
ghost use Rattle.croner.specs.Private.Until.{TakesUntil};
ghost use Rattle.croner.specs.search.Runs.{Precedes};
ghost use Rattle.croner.specs.search.PatternJob.{timetable_of};
ghost use Rattle.croner.specs.search.Premises.{IsSearchable, StartsCalm};
ghost use Rattle.croner.specs.search.Searches.{IsFound, IsRefused, IsReturnable};
ghost use Rattle.croner.specs.Views.{job_of};

use crate::Cron;
use crate::iterator::CronIterator;
use croner_base::errors::CronError;
use croner_base::time::table::TableTime;
use croner_base::time::{CronDateTime, Direction};
use std::alloc::Global;
use std::cmp::Ordering;

/// How a listing up to a second ended.
#[derive(Debug, Clone, Copy, Drop)]
pub enum ListingEnd {
    /// The listing has `most` items. No call was made after the last of them.
    Full,
    /// The run after the items lies past the second, at this one. The iterator has given it, and goes on past it.
    Past(i64),
    /// No run is left in the searched years.
    Over,
    /// A search failed, other than by the end of the searched years; the iterator keeps the error.
    Refused,
}

/// The items of `calls` calls of `next`, of which some may give none; and whether nothing is left, which is so if the last call
/// gave no item and kept no fault.
///
/// Exactly that many calls are made, one after the other. In a calm zone and from a whole second, over any backend, the items are
/// the first that the iterator had yet to give, strictly in order in its direction. The iterator goes on with the rest; if nothing
/// is left, there is no rest in the searched years. If the backend also holds what the search from the start needs, it holds what
/// each later search needs. The only fault after any number of calls is then lack of memory; if the backend can't lack memory
/// either, there is an item for each call, or the items are all that is left. In every zone an item is a whole second in the
/// start's zone. The only error is `OutOfMemory`, since memory for as many items as there are calls is taken first; the iterator
/// is then unchanged.
pub fn next_runs<T: CronDateTime>(
    alloc: Global,
    iterator: &mut CronIterator<T>,
    calls: u32,
) -> Result<(Vec<T>, bool), CronError>
    ensures listing { StartsCalm (standing_of T.moment iterator.old).position →
        IfOk result (λ r. BeginsRest (standing_of T.moment iterator.old) (instants T.moment r.0.items)) }
    ensures rest { StartsCalm (standing_of T.moment iterator.old).position →
        IfOk result (λ r. Gave (standing_of T.moment iterator.old) (standing_of T.moment iterator.new) (instants T.moment r.0.items)) }
    ensures all { StartsCalm (standing_of T.moment iterator.old).position →
        IfOk result (λ r. IsTrue r.1 → GaveAll (standing_of T.moment iterator.old) (instants T.moment r.0.items)) }
    ensures counted { IsSearchable (standing_of T.moment iterator.old).position → T.can_lack_memory ≡ false →
        IfOk result (λ r. (length r.0.items ≡ calls) ⊎ GaveAll (standing_of T.moment iterator.old) (instants T.moment r.0.items)) }
    ensures searchable { IsSearchable (standing_of T.moment iterator.old).position →
        IfOk result (λ r. IsSearchable (standing_of T.moment iterator.new).position) }
    ensures fault { IsSearchable (standing_of T.moment iterator.old).position → 0 < calls →
        IfOk result (λ r. IsMemoryAlone T.can_lack_memory (standing_of T.moment iterator.new).fault) }
    ensures called { IfOk result (λ r. TakesInTurn T.moment T.can_lack_memory calls iterator.old iterator.new r.0.items r.1) }
    ensures whole { IfOk result (λ r. All (λ t. IsWholeIn (standing_of T.moment iterator.old).position.zone (T.moment t)) r.0.items) }
    ensures most { IfOk result (λ r. length r.0.items ≤ calls) }
    ensures kept { IfErr result (λ e. standing_of T.moment iterator.new ≡ standing_of T.moment iterator.old) }
    ensures err { IfErr result (λ e. e ≡ CronError.OutOfMemory) }
{
    let Ok(mut runs) = Vec::with_capacity(alloc, calls as usize) else {
        return Err(CronError::OutOfMemory);
    };
    let mut is_over = false;
    for _call in 0..calls {
        is_over = take_next(iterator, &mut runs);
    }
    Ok((runs, is_over))
}

/// The next items of an iterator: at most `most`, and none past the second `until` in its direction, if one is given; and how the
/// listing ended. The iterator is on the clock of a table, which is calm. The second is counted from 1970-01-01T00:00:00 UTC.
///
/// The items are the first that the iterator had yet to give, and each is a whole second. Calls are made until there are `most`
/// items, a run lies past the second, or a call gives none. So either none is left out up to the second, or there are `most`, or a
/// search failed. No search fails if the table's clock holds what a search from the position needs. A run past the second was
/// taken from the iterator, which goes on past it; an iterator [`resume_after`] from the last item gives it again.
///
/// The only error is `OutOfMemory`, since memory for `most` items is taken first; the iterator is then unchanged.
pub fn next_runs_until<'t>(
    alloc: Global,
    iterator: &mut CronIterator<TableTime<'t>>,
    until: Option<i64>,
    most: u32,
) -> Result<(Vec<TableTime<'t>>, ListingEnd), CronError>
    ensures lists { IfOk result (λ r. ListsUntil (standing_of table_moment iterator.old) (standing_of table_moment iterator.new) until most r.0.items r.1) }
    ensures kept { IfErr result (λ e. standing_of table_moment iterator.new ≡ standing_of table_moment iterator.old) }
    ensures err { IfErr result (λ e. e ≡ CronError.OutOfMemory) }
{
    let Ok(mut runs) = Vec::with_capacity(alloc, most as usize) else {
        return Err(CronError::OutOfMemory);
    };
    for _call in 0..most {
        if let Some(end) = take_next_until(iterator, &mut runs, until) {
            return Ok((runs, end));
        }
    }
    Ok((runs, ListingEnd::Full))
}

/// An iterator that goes on from an item, without giving it again.
///
/// Whichever iterator for the same pattern and in the same direction gave the item, both have the same runs yet to give. So a
/// listing can be resumed from any item that was kept.
pub fn resume_after<T: CronDateTime>(cron: Cron, item: T, direction: Direction) -> CronIterator<T>
    ensures stands { standing_of T.moment result ≡ new_standing (meaning_of cron.pattern) (T.moment item) false direction }
    ensures same_rest { (s : Standing) → s.pattern ≡ meaning_of cron.pattern → s.direction ≡ direction → (i : ℤ) →
        IsLeft (moved s (T.moment item)) i ↔ IsLeft (new_standing (meaning_of cron.pattern) (T.moment item) false direction) i }
{
    CronIterator::new(cron, item, false, direction)
}

/// The items of `calls` calls of `next`, and how each compares with the one before it, by `cmp_instant`.
///
/// In a calm zone and from a whole second each item of a forward iterator is strictly later than the one before it; of a backward
/// one, strictly earlier. That is so of the instants, and in the order of the values themselves. There are as many as in
/// [`next_runs`], and a fault is kept for the same reasons. The only error is `OutOfMemory`, since memory for both lists is taken
/// first; the iterator is then unchanged.
pub fn items_in_order<T: CronDateTime>(
    alloc: Global,
    iterator: &mut CronIterator<T>,
    calls: u32,
) -> Result<(Vec<T>, Vec<Ordering>), CronError>
    ensures given { StartsCalm (standing_of T.moment iterator.old).position →
        IfOk result (λ r. Gave (standing_of T.moment iterator.old) (standing_of T.moment iterator.new) (instants T.moment r.0.items)) }
    ensures counted { IsSearchable (standing_of T.moment iterator.old).position → T.can_lack_memory ≡ false →
        IfOk result (λ r. (length r.0.items ≡ calls) ⊎ GaveAll (standing_of T.moment iterator.old) (instants T.moment r.0.items)) }
    ensures searchable { IsSearchable (standing_of T.moment iterator.old).position →
        IfOk result (λ r. IsSearchable (standing_of T.moment iterator.new).position) }
    ensures fault { IsSearchable (standing_of T.moment iterator.old).position → 0 < calls →
        IfOk result (λ r. IsMemoryAlone T.can_lack_memory (standing_of T.moment iterator.new).fault) }
    ensures called { IfOk result
        (λ r. (mark : Bool) × TakesInTurn T.moment T.can_lack_memory calls iterator.old iterator.new r.0.items mark) }
    ensures ordered { StartsCalm (standing_of T.moment iterator.old).position → IfOk result (λ r.
        AllPairs (Precedes (standing_of T.moment iterator.old).direction) (instants T.moment r.0.items)) }
    ensures compared { IfOk result (λ r. AreCompared T.moment r.0.items r.1.items) }
    ensures strict { StartsCalm (standing_of T.moment iterator.old).position → IfOk result (λ r.
        All (λ o. o ≡ onward (standing_of T.moment iterator.old).direction) r.1.items) }
    ensures kept { IfErr result (λ e. standing_of T.moment iterator.new ≡ standing_of T.moment iterator.old) }
    ensures err { IfErr result (λ e. e ≡ CronError.OutOfMemory) }
{
    let Ok(mut orders) = Vec::with_capacity(alloc, calls as usize) else {
        return Err(CronError::OutOfMemory);
    };
    let (items, _) = next_runs(alloc, iterator, calls)?;
    compare(items.as_slice(), &mut orders);
    Ok((items, orders))
}

// How each item compares with the one before it.
fn compare<T: CronDateTime>(items: &[T], orders: &mut Vec<Ordering>)
    requires empty { orders.old.items ≡ [] }
    requires room { length items.now ≤ vec_capacity orders.old }
    ensures { AreCompared T.moment items.now orders.new.items }
{
    for k in 1..items.len() {
        orders.push_reserved(items[k].cmp_instant(&items[k - 1]));
    }
}

/// The next run after a run, and the way back: the previous run before that one.
///
/// In a calm zone, from a run of year 3 or later, over any backend, the way back finds that run: the same instant in the same
/// zone. The way back never fails by `TimeSearchLimitExceeded`, even if the next run is in year 5000. If the backend also holds
/// what a search from the run needs, it fails only by `OutOfMemory`, over a backend that can lack memory. An error in place of
/// the pair is that of the search for the next run.
pub fn there_and_back<T: CronDateTime>(
    job: &Cron,
    run: &T,
) -> Result<(T, Result<T, CronError>), CronError>
    ensures there { IfOk result (λ r. IsFound Direction.Forward false (timetable_of (job_of job.now)) (T.moment run.now) (T.moment r.0)) }
    ensures refused { IfErr result (IsRefused T.can_lack_memory Direction.Forward false (timetable_of (job_of job.now)) (T.moment run.now)) }
    ensures back { IfOk result (λ r. IfOk r.1 (λ b. IsFound Direction.Backward false (timetable_of (job_of job.now)) (T.moment r.0) (T.moment b))) }
    ensures lost { IfOk result (λ r. IfErr r.1 (IsRefused T.can_lack_memory Direction.Backward false (timetable_of (job_of job.now)) (T.moment r.0))) }
    ensures same { IsReturnable (job_of job.now) (T.moment run.now) →
        IfOk result (λ r. IfOk r.1 (λ b. T.moment b ≡ T.moment run.now)) }
    ensures no_limit { IsReturnable (job_of job.now) (T.moment run.now) →
        IfOk result (λ r. IfErr r.1 (λ e. ¬ (e ≡ CronError.TimeSearchLimitExceeded))) }
    ensures held { IsReturnable (job_of job.now) (T.moment run.now) → IsSearchable (T.moment run.now) →
        IfOk result (λ r. IfErr r.1 (λ e. (e ≡ CronError.OutOfMemory) × IsTrue T.can_lack_memory)) }
{
    let next = job.find_next_occurrence(run, false)?;
    let back = job.find_previous_occurrence(&next, false);
    Ok((next, back))
}

// Appends the item of one call to the others, or returns whether nothing is left.
fn take_next<T: CronDateTime>(iterator: &mut CronIterator<T>, runs: &mut Vec<T>) -> bool
    requires room { vec_len runs.old < vec_capacity runs.old }
    ensures takes { Takes T.moment T.can_lack_memory iterator.old iterator.new runs.old.items runs.new.items result }
    ensures longer { vec_len runs.new ≤ vec_len runs.old + 1 }
    ensures room { vec_capacity runs.new ≡ vec_capacity runs.old }
{
    match iterator.next() {
        Some(run) => {
            runs.push_reserved(run);
            false
        }
        None => iterator.fault().is_none(),
    }
}

// Appends the item of one call to the others unless it lies past the second; or returns how the listing ends.
fn take_next_until<'t>(
    iterator: &mut CronIterator<TableTime<'t>>,
    runs: &mut Vec<TableTime<'t>>,
    until: Option<i64>,
) -> Option<ListingEnd>
    requires room { vec_len runs.old < vec_capacity runs.old }
    ensures takes { TakesUntil until (standing_of table_moment iterator.old) (standing_of table_moment iterator.new) runs.old.items runs.new.items result }
    ensures room { vec_capacity runs.new ≡ vec_capacity runs.old }
{
    let direction = iterator.direction();
    match iterator.next() {
        Some(run) => {
            let second = run.second();
            if !comes_by(direction, until, second) {
                return Some(ListingEnd::Past(second));
            }
            runs.push_reserved(run);
            None
        }
        None if iterator.fault().is_none() => Some(ListingEnd::Over),
        None => Some(ListingEnd::Refused),
    }
}

// Whether an instant comes no later in a direction than a second, if there is one.
pub(crate) fn comes_by(direction: Direction, until: Option<i64>, instant: i64) -> bool
    ensures { IsTrue result ↔ ComesBy direction until instant }
{
    match (until, direction) {
        (None, _) => true,
        (Some(until), Direction::Forward) => instant <= until,
        (Some(until), Direction::Backward) => until <= instant,
    }
}
