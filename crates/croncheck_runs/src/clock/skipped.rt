//! How many seconds the changes of a clock skip, in the years that a pattern can name.
ghost use Rattle.std.specs.Prelude.{◌≡◌, ◌≤◌, pos, ◌+ℤ◌, ◌-ℤ◌};
ghost use Rattle.croner_base.specs.Limits.{most_gap_seconds};
ghost use Rattle.croner_base.specs.Table as Table;

use croner::time::table::ClockTable;
use croner_base::limits::{FIRST_SEARCHED_SECOND, LAST_SEARCHED_SECOND};

/// How many seconds a clock skips at all its changes together.
pub fn skipped_in(table: &ClockTable) -> u64
    ensures value { result ≡ Table.met_gaps table.now.first_offset table.now.changes.items }
    ensures bound { result ≤ most_gap_seconds }
{
    let listed = table.changes();
    let mut offset = table.first_offset();
    let mut skipped: u64 = 0;
    for &change in listed {
        skipped += skipped_at(offset, change);
        offset = change.1;
    }
    skipped
}

/// How many seconds a clock skips at a change: until its instant the clock is `before` seconds ahead of UTC, and from then on as many as
/// stand beside the instant.
pub fn skipped_at(before: i32, change: (i64, i32)) -> u64
    ensures value { result ≡ Table.gap_at before change }
    ensures bound { result ≤ 4_294_967_295 }
{
    let (_, after) = change;
    if is_met(before, change) && before < after {
        u64::from(after.abs_diff(before))
    } else {
        0
    }
}

// Whether the clock shows a second of the years that a pattern can name at a change, or one second before it.
fn is_met(before: i32, change: (i64, i32)) -> bool
    ensures { result ≡ Table.is_met before change }
{
    let (instant, after) = change;
    is_searched(wall_at(instant, after)) || is_searched(wall_before(instant, before))
}

// The wall second of an instant on a clock that is so many seconds ahead of UTC.
fn wall_at(instant: i64, ahead: i32) -> i128
    ensures { result ≡ instant +ℤ ahead }
{
    instant as i128 + ahead as i128
}

// The wall second of the second before an instant.
fn wall_before(instant: i64, ahead: i32) -> i128
    ensures { result ≡ instant -ℤ pos 1 +ℤ ahead }
{
    instant as i128 - 1 + ahead as i128
}

fn is_searched(wall: i128) -> bool
    ensures { result ≡ Table.is_searched wall }
{
    FIRST_SEARCHED_SECOND as i128 <= wall && wall <= LAST_SEARCHED_SECOND as i128
}
