//! A plan on another clock.
ghost use Rattle.std.specs.Prelude.{◌≡◌, IfOk};
ghost use Rattle.std.specs.List.{All};
ghost use Rattle.croner_base.specs.TableZone.{table_zone};
ghost use Rattle.cronplan.specs.OtherClock.{shown_on, all_shown_on, IsOnClock};

use crate::plan::Plan;
use crate::start::{JobStart, wall_of};
use croner_base::time::table::{ClockTable, TableTime};
use std::alloc::{AllocError, Global};

impl Plan {
    /// The same plan on the clock of another table: the same starts at the same seconds, with the dates and hours that this clock shows.
    ///
    /// The only error is lack of memory.
    pub fn on_clock(&self, alloc: Global, table: &ClockTable) -> Result<Plan, AllocError>
        ensures { IfOk result (IsOnClock (table_zone table.now) self.now) }
    {
        let mut starts = shown_starts(alloc, self.starts.as_slice(), table)?;
        starts.sort_unstable();
        Ok(Plan {
            span: self.span,
            starts,
        })
    }
}

/// Starts with what the clock of a table shows then. The only error is lack of memory.
pub(crate) fn shown_starts(
    alloc: Global,
    starts: &[JobStart],
    table: &ClockTable,
) -> Result<Vec<JobStart>, AllocError>
    ensures { IfOk result (λ shown. shown.items ≡ all_shown_on (table_zone table.now) starts.now) }
{
    let mut shown = Vec::new(alloc);
    for start in starts {
        shown.push(shown_on(table, *start))?;
    }
    Ok(shown)
}

// A start with what the clock of a table shows then, if the table has its second.
fn shown_on(table: &ClockTable, start: JobStart) -> JobStart
    ensures { result ≡ shown_on (table_zone table.now) start }
{
    match TableTime::new(table, start.second) {
        Ok(time) => JobStart {
            wall: wall_of(&time),
            ..start
        },
        Err(_) => start,
    }
}
