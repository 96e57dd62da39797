//! The clock that a caller owns.
ghost use Rattle.std.specs.Prelude.{◌≡◌, IfOk, MatchResult, true, false};
ghost use Rattle.croner_c.specs.Clocks as Spec;
ghost use Rattle.croner_c.specs.declared.status.Reason.TheVariants as reasons;

use crate::status::Reason;
use croner_base::time::table::{ClockTable, TableTime};
use std::alloc::{AllocError, Global};

/// A change of a clock: from this second on it is so many seconds ahead of UTC.
#[repr(C)]
#[derive(Drop, Clone, Copy)]
pub struct Change {
    pub second: i64,
    pub ahead: i32,
    /// 0.
    pub reserved: i32,
}

/// A clock, and the window for which it is right.
#[repr(C)]
#[derive(Drop)]
pub struct Clock<'c> {
    /// The bytes of this struct.
    pub size: usize,
    /// The first second of the window.
    pub first: i64,
    /// The last one.
    pub last: i64,
    pub changes: &'c [Change],
    /// How many seconds the clock is ahead of UTC before its first change.
    pub ahead: i32,
    /// 0.
    pub reserved: i32,
}

/// The bytes of a `Clock`.
const CLOCK_SIZE: usize = 48;

/// -9996-01-01T00:00:00 UTC, in seconds since 1970-01-01T00:00:00 UTC: the first second that a window can have.
const FIRST_SECOND: i64 = -377_610_508_800;

/// 9996-12-31T23:59:59 UTC: the last one.
const LAST_SECOND: i64 = 253_307_692_799;

/// Whether two seconds are the first and the last of a window.
pub(crate) fn is_window(first: i64, last: i64) -> bool
    ensures { result ≡ Spec.is_window first last }
{
    FIRST_SECOND <= first && first <= last && last <= LAST_SECOND
}

impl Clock<'_> {
    /// Whether the members have values that a call accepts.
    pub(crate) fn is_accepted(&self) -> bool
        ensures { result ≡ Spec.is_accepted self.now }
    {
        self.size == CLOCK_SIZE && self.reserved == 0 && is_window(self.first, self.last)
    }

    /// Whether a second lies in the window.
    pub(crate) fn has(&self, second: i64) -> bool
        ensures { result ≡ Spec.has self.now second }
    {
        self.first <= second && second <= self.last
    }

    /// A second, if it lies in the window.
    pub(crate) fn within(&self, second: i64) -> Result<i64, Reason>
        ensures { MatchResult result (λ i. (i ≡ second) × (Spec.has self.now second ≡ true)) (λ r. (r ≡ reasons.Outside) × (Spec.has self.now second ≡ false)) }
    {
        if self.has(second) {
            Ok(second)
        } else {
            Err(Reason::Outside)
        }
    }

    /// The clock as a table, if it is calm.
    pub(crate) fn table(&self, alloc: Global) -> Result<ClockTable, Reason>
        ensures { Spec.IsTable self.now result }
    {
        match rows_of(alloc, self.changes) {
            Ok(changes) => self.table_of(changes),
            Err(_) => Err(Reason::OutOfMemory),
        }
    }

    /// The table of the clock's changes, if it is calm.
    fn table_of(&self, changes: Vec<(i64, i32)>) -> Result<ClockTable, Reason>
        requires { changes.items ≡ Spec.rows_of self.now.changes.now }
        ensures { Spec.IsTable self.now result }
    {
        match ClockTable::new(self.ahead, changes) {
            Ok(table) => Ok(table),
            Err(_) => Err(Reason::NotCalm),
        }
    }

    /// A second of the window on the clock's table.
    pub(crate) fn time<'t>(
        &self,
        table: &'t ClockTable,
        second: i64,
    ) -> Result<TableTime<'t>, Reason>
        requires accepted { Spec.is_accepted self.now ≡ true }
        requires table { Spec.IsTableOf self.now table.now }
        ensures { MatchResult result (λ t. (t.second ≡ second) × Spec.IsTimeOn self.now t) (λ r. (r ≡ reasons.Outside) × (Spec.has self.now second ≡ false)) }
    {
        match self.within(second) {
            Ok(second) => self.time_within(table, second),
            Err(_) => Err(Reason::Outside),
        }
    }

    /// A second that lies in the window.
    fn time_within<'t>(&self, table: &'t ClockTable, second: i64) -> Result<TableTime<'t>, Reason>
        requires accepted { Spec.is_accepted self.now ≡ true }
        requires within { Spec.has self.now second ≡ true }
        ensures { MatchResult result (λ t. (t.second ≡ second) × (t.table.now ≡ table.now)) (λ r. ⊥) }
    {
        match TableTime::new(table, second) {
            Ok(time) => Ok(time),
            Err(_) => Err(Reason::Outside),
        }
    }
}

/// The changes as a table has them.
fn rows_of(alloc: Global, changes: &[Change]) -> Result<Vec<(i64, i32)>, AllocError>
    ensures { IfOk result (λ v. v.items ≡ Spec.rows_of changes.now) }
{
    changes
        .iter()
        .map(
            |change: &Change| -> (i64, i32)
                ensures { result ≡ Spec.row_of change.now }
            { (change.second, change.ahead) },
        )
        .collect(alloc)
}
