//! What holds for the clocks of tables, whatever a search asks of them.
ghost use Rattle.std.specs.Prelude.{◌≡◌, ◌↔◌, IsTrue, ℤ, pos, neg_ℤ, ◌+ℤ◌, ◌≤ℤ◌, []};
ghost use Rattle.std.specs.List.{All};
ghost use Rattle.croner_base.specs.Calm.{IsCalm, IsChange, IsStart, HoldsAround};
ghost use Rattle.croner_base.specs.Table.{is_calm_table, offset_limit};
ghost use Rattle.croner_base.specs.TableZone.{clock, table_zone, table_moment};
ghost use Rattle.croner_base.specs.Zone.{reading};

use crate::time::table::{ClockTable, TableTime};

/// The clock of a table is calm ([`CronDateTime`](crate::time::CronDateTime) says what that means).
pub fn table_is_calm(table: &ClockTable)
    ensures { IsCalm (table_zone table.now) }
{}

/// The clock of a table changes at the instants at which the table has a change, and nowhere else.
pub fn clock_changes_where_the_table_does(table: &ClockTable)
    ensures { (instant : ℤ) → IsChange (table_zone table.now) instant ↔ ¬ (All (λ c. ¬ (c.0 ≡ instant)) table.now.changes.items) }
{}

/// A table's clock holds all that a search needs from a second at which it shows a year from -9997 to 9997.
pub fn table_time_holds_around(start: &TableTime<'_>)
    ensures { IsStart (reading (table_moment start.now)) → HoldsAround (table_moment start.now) }
{}

/// A fixed offset of at most a day either way makes a table without changes, and its clock shows each instant with
/// that offset.
pub fn fixed_offset_is_calm(offset: i32)
    ensures calm { neg_ℤ (pos offset_limit) ≤ℤ offset → offset ≤ℤ pos offset_limit → IsTrue (is_calm_table offset []) }
    ensures reads { (i : ℤ) → (clock offset []).reads i ≡ i +ℤ offset }
{}
