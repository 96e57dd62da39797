//! Iterators over the two backends: their items are the first runs on the clocks of their tables.
ghost use Rattle.std.specs.Prelude.{◌≡◌, ◌≤◌, ◌<◌, ◌⊎◌, None, true, false, IsTrue, IfOk, IfErr, length};
ghost use Rattle.std.specs.List.{All};
ghost use Rattle.croner.specs.iterator.Faults.{IsMemoryAlone};
ghost use Rattle.croner.specs.iterator.Listing.{standing_of, instants, BeginsRest, Gave, GaveAll, TakesInTurn};
ghost use Rattle.croner.specs.laws.Neighbours.{IsWholeIn};
ghost use Rattle.croner.specs.search.Premises.{IsSearchable};
ghost use Rattle.croner_backends.specs.BoxedMoment.{boxed_moment};
ghost use Rattle.croner_backends.specs.NarrowMoment.{narrow_moment};

use crate::{BoxedTime, NarrowTime};
use croner::CronIterator;
use croner::errors::CronError;
use croner::laws::listing::next_runs;
use std::alloc::Global;

/// The items of up to `calls` calls of `next` over the backend that takes memory, however much there is, and whether the last call
/// said that nothing is left. The items are the first that the iterator had yet to give, and it goes on with the rest; if nothing is
/// said to be left, they are all of it. Each is a whole second on the clock of the table. If what the search from the start needs is
/// held, the only fault is lack of memory. The only error is `OutOfMemory`, since memory for the items is taken first; the iterator
/// is then unchanged.
pub fn next_boxed_runs<'t>(
    alloc: Global,
    iterator: &mut CronIterator<BoxedTime<'t>>,
    calls: u32,
) -> Result<(Vec<BoxedTime<'t>>, bool), CronError>
    ensures listing { IfOk result (λ r. BeginsRest (standing_of boxed_moment iterator.old) (instants boxed_moment r.0.items)) }
    ensures rest { IfOk result
        (λ r. Gave (standing_of boxed_moment iterator.old) (standing_of boxed_moment iterator.new) (instants boxed_moment r.0.items)) }
    ensures all { IfOk result (λ r. IsTrue r.1 → GaveAll (standing_of boxed_moment iterator.old) (instants boxed_moment r.0.items)) }
    ensures searchable { IsSearchable (standing_of boxed_moment iterator.old).position →
        IfOk result (λ r. IsSearchable (standing_of boxed_moment iterator.new).position) }
    ensures fault { IsSearchable (standing_of boxed_moment iterator.old).position → 0 < calls →
        IfOk result (λ r. IsMemoryAlone true (standing_of boxed_moment iterator.new).fault) }
    ensures called { IfOk result (λ r. TakesInTurn boxed_moment true calls iterator.old iterator.new r.0.items r.1) }
    ensures whole { IfOk result (λ r. All (λ t. IsWholeIn (standing_of boxed_moment iterator.old).position.zone (boxed_moment t)) r.0.items) }
    ensures most { IfOk result (λ r. length r.0.items ≤ calls) }
    ensures kept { IfErr result (λ e. standing_of boxed_moment iterator.new ≡ standing_of boxed_moment iterator.old) }
    ensures err { IfErr result (λ e. e ≡ CronError.OutOfMemory) }
{
    next_runs(alloc, iterator, calls)
}

/// The same over the backend that holds little, whatever it holds. If it holds what the search from the start needs, there is an
/// item for each call, or the items are all that is left, and there is no fault.
pub fn next_narrow_runs<'t>(
    alloc: Global,
    iterator: &mut CronIterator<NarrowTime<'t>>,
    calls: u32,
) -> Result<(Vec<NarrowTime<'t>>, bool), CronError>
    ensures listing { IfOk result (λ r. BeginsRest (standing_of narrow_moment iterator.old) (instants narrow_moment r.0.items)) }
    ensures rest { IfOk result
        (λ r. Gave (standing_of narrow_moment iterator.old) (standing_of narrow_moment iterator.new) (instants narrow_moment r.0.items)) }
    ensures all { IfOk result (λ r. IsTrue r.1 → GaveAll (standing_of narrow_moment iterator.old) (instants narrow_moment r.0.items)) }
    ensures counted { IsSearchable (standing_of narrow_moment iterator.old).position →
        IfOk result (λ r. (length r.0.items ≡ calls) ⊎ GaveAll (standing_of narrow_moment iterator.old) (instants narrow_moment r.0.items)) }
    ensures searchable { IsSearchable (standing_of narrow_moment iterator.old).position →
        IfOk result (λ r. IsSearchable (standing_of narrow_moment iterator.new).position) }
    ensures fault { IsSearchable (standing_of narrow_moment iterator.old).position → 0 < calls →
        IfOk result (λ r. (standing_of narrow_moment iterator.new).fault ≡ None) }
    ensures called { IfOk result (λ r. TakesInTurn narrow_moment false calls iterator.old iterator.new r.0.items r.1) }
    ensures whole { IfOk result (λ r. All (λ t. IsWholeIn (standing_of narrow_moment iterator.old).position.zone (narrow_moment t)) r.0.items) }
    ensures most { IfOk result (λ r. length r.0.items ≤ calls) }
    ensures kept { IfErr result (λ e. standing_of narrow_moment iterator.new ≡ standing_of narrow_moment iterator.old) }
    ensures err { IfErr result (λ e. e ≡ CronError.OutOfMemory) }
{
    next_runs(alloc, iterator, calls)
}
