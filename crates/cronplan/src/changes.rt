//! The changes of a clock in a span.
ghost use Rattle.std.specs.Prelude.{◌≡◌, ◌++◌, true, IfOk, OnOk};
ghost use Rattle.croner_base.specs.Table.{is_table_second};
ghost use Rattle.croner_base.specs.TableZone.{table_zone};
ghost use Rattle.cronplan.specs.Changes.{change_in, changes_in, skips, repeats, skips_hour, repeats_hour};

use crate::counts::hour_of;
use crate::span::Span;
use crate::start::wall_of;
use croner_base::time::table::{ClockTable, TableTime};
use std::alloc::{AllocError, Global};

/// A change of a clock: a second at which it doesn't show the time one second after what it showed the second before.
#[derive(Debug, Clone, Copy)]
pub struct ClockChange {
    /// The second, counted from 1970-01-01T00:00:00 UTC.
    pub second: i64,
    /// What the clock shows the second before: its date and time as seconds from 1970-01-01T00:00:00.
    pub before: i64,
    /// What it shows at the change, counted the same way.
    pub shown: i64,
}

/// The changes of the clock of a table that lie in a span, in order.
///
/// The only error is lack of memory.
pub(crate) fn changes_in(
    alloc: Global,
    table: &ClockTable,
    span: Span,
) -> Result<Vec<ClockChange>, AllocError>
    ensures { IfOk result (λ changes. changes.items ≡ changes_in (table_zone table.now) span table.now.changes.items) }
{
    let mut changes = Vec::new(alloc);
    for change in table.changes() {
        push_change(&mut changes, table, span, change)?;
    }
    Ok(changes)
}

// Appends a change of the table to the others, if it lies in the span.
#[tactic(auto, using(crate::proofs::SpanSeconds::span_ends))]
fn push_change(
    changes: &mut Vec<ClockChange>,
    table: &ClockTable,
    span: Span,
    change: &(i64, i32),
) -> Result<(), AllocError>
    ensures { OnOk result (changes.new.items ≡ changes.old.items ++ change_in (table_zone table.now) span change.now.0) }
{
    let second = change.0;
    if span.first <= second && second < span.end {
        changes.push(ClockChange {
            second,
            before: wall_at(table, second - 1),
            shown: wall_at(table, second),
        })?;
    }
    Ok(())
}

/// What the clock of a table shows at a second, as a wall second.
pub(crate) fn wall_at(table: &ClockTable, second: i64) -> i64
    requires { is_table_second second ≡ true }
    ensures { result ≡ (table_zone table.now).reads second }
{
    match TableTime::new(table, second) {
        Ok(time) => wall_of(&time),
        Err(_) => unreachable!(),
    }
}

/// Whether one of these changes skips the whole of an hour.
pub(crate) fn skips_hour(changes: &[ClockChange], hour: i64) -> bool
    ensures { result ≡ skips_hour hour changes.now }
{
    for change in changes {
        if skips(change, hour) {
            return true;
        }
    }
    false
}

/// Whether one of these changes shows a second of an hour twice.
pub(crate) fn repeats_hour(changes: &[ClockChange], hour: i64) -> bool
    ensures { result ≡ repeats_hour hour changes.now }
{
    for change in changes {
        if repeats(change, hour) {
            return true;
        }
    }
    false
}

// Whether the clock shows no second of an hour: the hour lies between the one it showed last and the one it shows at the change.
fn skips(change: &ClockChange, hour: i64) -> bool
    ensures { result ≡ skips hour change.now }
{
    hour_of(change.before) < hour && hour < hour_of(change.shown)
}

// Whether the clock is put back within an hour or across it.
fn repeats(change: &ClockChange, hour: i64) -> bool
    ensures { result ≡ repeats hour change.now }
{
    change.shown <= change.before && hour_of(change.shown) <= hour && hour <= hour_of(change.before)
}
