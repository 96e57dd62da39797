//! The starts of a plan, and the changes of its clock, each with what is shown then.
ghost use Rattle.std.specs.Prelude.{◌≡◌, [], ◌∷◌, ◌++◌, List, IfOk, OnOk};
ghost use Rattle.croner_base.specs.TableZone.{table_zone};
ghost use Rattle.cronplan.specs.declared.changes.ClockChange.{ClockChange};
ghost use Rattle.cronplan.specs.declared.start.JobStart.{JobStart};
ghost use Rattle.cronplan_page.specs.Timed.{IsTimedChange, AreTimedStarts, AreTimedChanges};

use croner_base::time::table::ClockTable;
use cronplan::{ClockChange, JobStart};
use cronplan_forms::{ClockTime, ShownTime, View};
use std::alloc::{AllocError, Global};

/// A start.
#[derive(Clone, Copy)]
pub struct TimedStart {
    pub start: JobStart,
    /// What the clocks show then.
    pub time: ShownTime,
}

/// A change of the clock.
#[derive(Clone, Copy)]
pub struct TimedChange {
    pub change: ClockChange,
    /// What it shows the second before, and at the change.
    pub before: ClockTime,
    pub shown: ClockTime,
}

/// Starts on the clocks of a view. The only error is lack of memory.
pub(crate) fn timed_starts(
    alloc: Global,
    view: View<'_>,
    starts: &[JobStart],
) -> Result<Vec<TimedStart>, AllocError>
    ensures { IfOk result (λ timed. AreTimedStarts view.entry starts.now timed.items) }
{
    let mut timed = Vec::new(alloc);
    for start in starts {
        push_start(&mut timed, view, *start)?;
    }
    Ok(timed)
}

fn push_start(
    timed: &mut Vec<TimedStart>,
    view: View<'_>,
    start: JobStart,
) -> Result<(), AllocError>
    ensures { (starts : List JobStart) → AreTimedStarts view.entry starts timed.old.items
        → OnOk result (AreTimedStarts view.entry (starts ++ start ∷ []) timed.new.items) }
{
    let time = ShownTime::at(view, start.second);
    timed.push(TimedStart { start, time })?;
    Ok(())
}

/// Changes of the clock of a table. The only error is lack of memory.
pub(crate) fn timed_changes(
    alloc: Global,
    table: &ClockTable,
    changes: &[ClockChange],
) -> Result<Vec<TimedChange>, AllocError>
    ensures { IfOk result (λ timed. AreTimedChanges (table_zone table.now) changes.now timed.items) }
{
    let mut timed = Vec::new(alloc);
    for change in changes {
        push_change(&mut timed, table, *change)?;
    }
    Ok(timed)
}

fn push_change(
    timed: &mut Vec<TimedChange>,
    table: &ClockTable,
    change: ClockChange,
) -> Result<(), AllocError>
    ensures { (changes : List ClockChange) → AreTimedChanges (table_zone table.now) changes timed.old.items
        → OnOk result (AreTimedChanges (table_zone table.now) (changes ++ change ∷ []) timed.new.items) }
{
    timed.push(timed_change(table, change))?;
    Ok(())
}

// A change of the clock of a table.
fn timed_change(table: &ClockTable, change: ClockChange) -> TimedChange
    ensures change { result.change ≡ change }
    ensures timed { IsTimedChange (table_zone table.now) result }
{
    TimedChange {
        change,
        before: ClockTime::shown_at(table, change.second.saturating_sub(1)),
        shown: ClockTime::shown_at(table, change.second),
    }
}
