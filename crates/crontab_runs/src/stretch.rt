//! The stretches of the clock of a table in which it doesn't change.
ghost use Rattle.std.specs.Prelude.{◌≡◌, ◌≤◌, ◌≤ℤ◌, ◌<ℤ◌, pos, neg_ℤ, length, int_le};
ghost use Rattle.croner_base.specs.TableZone.{table_zone};
ghost use Rattle.croner_base.specs.Private.TableSteps.{offset_past};
ghost use Rattle.crontab_runs.specs.Private.Stretches.{far, begin_of as first_second, end_of as second_after, offset_before as earlier_offset, IsStretch};
ghost use Rattle.crontab_runs.specs.Private.Parts.{least_after_begin};

use crate::minutes::minute_of;
use croner::time::table::ClockTable;

/// No table has an instant this many seconds from 1970.
const FAR_SECONDS: i64 = 1_000_000_000_000;

/// A stretch of a table's clock in which it doesn't change: between two changes, or before or after all of them.
#[derive(Clone, Copy)]
pub(crate) struct Stretch<'t> {
    pub(crate) table: &'t ClockTable,
    /// Its first second, at which the clock changes; for the first stretch, a second before all instants.
    pub(crate) begin: i64,
    /// The second after its last.
    pub(crate) end: i64,
    /// How many seconds the clock is ahead of UTC in it.
    pub(crate) offset: i64,
    /// The wall second that the clock shows right before it.
    pub(crate) before: i64,
    pub ghost fits: { IsStretch (table_zone table.now) begin end offset before },
}

impl<'t> Stretch<'t> {
    /// The stretch after so many changes.

    pub(crate) fn after_changes(table: &'t ClockTable, changes: usize) -> Stretch<'t>
        requires { changes ≤ length table.now.changes.items }
        ensures table { result.table.now ≡ table.now }
        ensures begin { result.begin ≡ first_second table.now.changes.items changes }
        ensures end { result.end ≡ second_after table.now.changes.items changes }
    {
        let begin = begin_of(table, changes);
        let before = begin - 1 + offset_of(table, changes.saturating_sub(1));
        Stretch {
            table,
            begin,
            end: end_of(table, changes),
            offset: offset_of(table, changes),
            before,
        }
    }

    /// The least minute for which anything can be started from its first second on.
    pub(crate) fn least_after_begin(&self) -> i64
        ensures { result ≡ least_after_begin self.now.begin self.now.offset self.now.before }
    {
        minute_of(self.begin + self.offset).min(minute_of(self.before) + 1)
    }
}

// The first second of the stretch after so many changes.
fn begin_of(table: &ClockTable, changes: usize) -> i64
    requires { changes ≤ length table.now.changes.items }
    ensures { result ≡ first_second table.now.changes.items changes }
{
    if changes == 0 {
        -FAR_SECONDS
    } else {
        table.changes()[changes - 1].0
    }
}

// The second after its last.
fn end_of(table: &ClockTable, changes: usize) -> i64
    requires { changes ≤ length table.now.changes.items }
    ensures { result ≡ second_after table.now.changes.items changes }
{
    let all = table.changes();
    if changes < all.len() {
        all[changes].0
    } else {
        FAR_SECONDS
    }
}

// The offset in force in it.
fn offset_of(table: &ClockTable, changes: usize) -> i64
    requires { changes ≤ length table.now.changes.items }
    ensures { result ≡ offset_past table.now.first_offset table.now.changes.items changes }
{
    if changes == 0 {
        table.first_offset() as i64
    } else {
        table.changes()[changes - 1].1 as i64
    }
}

/// How many changes of a clock lie at or before a second.
pub(crate) fn changes_until(table: &ClockTable, second: i64) -> usize
    requires low { neg_ℤ (pos far) ≤ℤ second }
    requires high { second <ℤ pos far }
    ensures bound { result ≤ length table.now.changes.items }
    ensures begin { first_second table.now.changes.items result ≤ℤ second }
    ensures end { second <ℤ second_after table.now.changes.items result }
{
    table.changes().partition_point(
        |change: &(i64, i32)| -> bool
            ensures { result ≡ int_le change.now.0 second }
        { change.0 <= second },
    )
}
