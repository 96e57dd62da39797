//! The search of a table's jobs from an iterator's position. Only the jobs that wait are searched.
ghost use Rattle.std.specs.Prelude.{◌≡◌, Ok, Some, None, IfOk, OnOk, IfErr, IfSome};
ghost use Rattle.std.specs.BinaryHeap.{heap_items};
ghost use Rattle.croner.specs.crontable.Tables.{patterns_of, IsTableFound, IsTableRefused};
ghost use Rattle.croner.specs.Private.crontable.Kept.{AreKept, IsHeld, WaitedBefore, LieAhead};

use super::CronTable;
use super::kept::Kept;
use croner_base::errors::CronError;
use croner_base::time::{CronDateTime, Direction};

/// The nearest run of all jobs from the position, and its item: a copy with its places, as a search of the table finds it. All
/// jobs that run then wait from then on, and the other kept runs are ahead of it. Where the item can't be made, the run is
/// held: the next search then searches no job, and answers with this run.
pub(super) fn search<T: CronDateTime>(
    table: &CronTable,
    kept: &mut Kept<T>,
    position: &T,
    inclusive: bool,
    direction: Direction,
) -> Result<(T, (T, Vec<usize>)), CronError>
    requires kept { AreKept T.moment (patterns_of table.now) direction inclusive (T.moment position.now) (heap_items kept.old.dues) kept.old.waiting.items kept.old.is_limited }
    requires held { IfSome kept.old.found (λ run. IsHeld T.moment (patterns_of table.now) direction inclusive (T.moment position.now) run (heap_items kept.old.dues) kept.old.waiting.items) }
    ensures kept { AreKept T.moment (patterns_of table.now) direction inclusive (T.moment position.now) (heap_items kept.new.dues) kept.new.waiting.items kept.new.is_limited }
    ensures held { IfSome kept.new.found (λ run. IsHeld T.moment (patterns_of table.now) direction inclusive (T.moment position.now) run (heap_items kept.new.dues) kept.new.waiting.items) }
    ensures begun { kept.new.is_begun ≡ kept.old.is_begun }
    ensures given { OnOk result (kept.new.found ≡ None) }
    ensures ahead { IfOk result (λ r. LieAhead T.moment direction (T.moment r.0) (heap_items kept.new.dues)) }
    ensures found { IfOk result (λ r. IsTableFound direction inclusive (patterns_of table.now) (T.moment position.now) (T.moment r.0) r.1.1.items) }
    ensures copied { IfOk result (λ r. T.moment r.1.0 ≡ T.moment r.0) }
    ensures refused { IfErr result (IsTableRefused direction inclusive (patterns_of table.now) (T.moment position.now)) }
    ensures again { IfOk result (λ r. IfSome kept.old.found (λ run. (r.0 ≡ run) × (r.1.1.items ≡ kept.old.waiting.items))) }
    ensures stays { IfErr result (λ e. IfSome kept.old.found (λ run. (kept.new.found ≡ Some run) × (kept.new.waiting.items ≡ kept.old.waiting.items))) }
    ensures waited { IfErr result (λ e. kept.new.found ≡ None → WaitedBefore kept.old.waiting.items kept.new.waiting.items) }
{
    let run = nearest(table, kept, position, inclusive, direction)?;
    match kept.item(&run, table.alloc, direction) {
        Ok(item) => {
            kept.waiting.reverse();
            Ok((run, item))
        }
        Err(refused) => {
            kept.found = Some(run);
            Err(refused)
        }
    }
}

// The held run, or else the nearest run of the jobs from the position. From then on the places that wait are those of this run.
fn nearest<T: CronDateTime>(
    table: &CronTable,
    kept: &mut Kept<T>,
    position: &T,
    inclusive: bool,
    direction: Direction,
) -> Result<T, CronError>
    requires kept { AreKept T.moment (patterns_of table.now) direction inclusive (T.moment position.now) (heap_items kept.old.dues) kept.old.waiting.items kept.old.is_limited }
    requires held { IfSome kept.old.found (λ run. IsHeld T.moment (patterns_of table.now) direction inclusive (T.moment position.now) run (heap_items kept.old.dues) kept.old.waiting.items) }
    ensures kept { AreKept T.moment (patterns_of table.now) direction inclusive (T.moment position.now) (heap_items kept.new.dues) kept.new.waiting.items kept.new.is_limited }
    ensures held { IfOk result (λ run. IsHeld T.moment (patterns_of table.now) direction inclusive (T.moment position.now) run (heap_items kept.new.dues) kept.new.waiting.items) }
    ensures taken { kept.new.found ≡ None }
    ensures begun { kept.new.is_begun ≡ kept.old.is_begun }
    ensures again { IfSome kept.old.found (λ run. (result ≡ Ok run) × (kept.new.waiting.items ≡ kept.old.waiting.items)) }
    ensures waited { IfErr result (λ e. WaitedBefore kept.old.waiting.items kept.new.waiting.items) }
    ensures refused { IfErr result (IsTableRefused direction inclusive (patterns_of table.now) (T.moment position.now)) }
{
    match kept.found.take() {
        Some(run) => Ok(run),
        None => take_nearest(table, kept, position, inclusive, direction),
    }
}

// Takes the nearest run of the jobs from the position, after the jobs that wait have been searched. From then on its places wait.
fn take_nearest<T: CronDateTime>(
    table: &CronTable,
    kept: &mut Kept<T>,
    position: &T,
    inclusive: bool,
    direction: Direction,
) -> Result<T, CronError>
    requires { AreKept T.moment (patterns_of table.now) direction inclusive (T.moment position.now) (heap_items kept.old.dues) kept.old.waiting.items kept.old.is_limited }
    ensures kept { AreKept T.moment (patterns_of table.now) direction inclusive (T.moment position.now) (heap_items kept.new.dues) kept.new.waiting.items kept.new.is_limited }
    ensures held { IfOk result (λ run. IsHeld T.moment (patterns_of table.now) direction inclusive (T.moment position.now) run (heap_items kept.new.dues) kept.new.waiting.items) }
    ensures same { kept.new.found ≡ kept.old.found }
    ensures begun { kept.new.is_begun ≡ kept.old.is_begun }
    ensures waited { IfErr result (λ e. WaitedBefore kept.old.waiting.items kept.new.waiting.items) }
    ensures refused { IfErr result (IsTableRefused direction inclusive (patterns_of table.now) (T.moment position.now)) }
{
    kept.ask_all(table, position, inclusive, direction)?;
    if kept.waiting.reserve(kept.dues.len()).is_err() {
        return Err(CronError::OutOfMemory);
    }
    let run = match kept.pop() {
        Some(run) => run,
        None => return Err(CronError::TimeSearchLimitExceeded),
    };
    'tied: while kept.is_tied(&run) {
        kept.pop();
    }
    Ok(run)
}
