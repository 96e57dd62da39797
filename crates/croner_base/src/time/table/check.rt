//! Which first offsets and lists of changes make a calm clock.
ghost use Rattle.std.specs.Prelude.{◌≡◌, ◌↔◌, ◌≤◌, IsTrue, IsSome, IfSome, ◌≤ℤ◌};
ghost use Rattle.croner_base.specs.Table as Spec;
ghost use Rattle.croner_base.specs.Limits.{gap_limit, most_changes, most_gap_seconds};

use crate::limits::{FIRST_SEARCHED_SECOND, GAP_LIMIT_SECONDS, LAST_SEARCHED_SECOND};

/// -9999-01-01T00:00:00 UTC, in seconds since 1970-01-01T00:00:00 UTC.
const FIRST_INSTANT: i64 = -377_705_116_800;

/// 9999-12-31T23:59:59 UTC.
const LAST_INSTANT: i64 = 253_402_300_799;

/// The most seconds that a clock is ahead of UTC or behind it.
pub(crate) const OFFSET_LIMIT_SECONDS: i32 = 86_400;

/// The most seconds that a change moves the clock back.
const FOLD_LIMIT_SECONDS: i32 = 7_200;

/// Changes lie more than this many seconds apart.
const APART_SECONDS: i64 = 172_800;

/// The most changes with a reading in the years that a pattern can name.
const MOST_CHANGES: u32 = 20_000;

/// The most seconds that the clock skips at these changes in total.
const MOST_GAP_SECONDS: u32 = 20_000_000;

// Whether a first offset and changes make a calm clock.
pub(crate) fn is_calm(first_offset: i32, changes: &[(i64, i32)]) -> bool
    ensures { result ≡ Spec.is_calm_table first_offset changes.now }
{
    if !is_offset(first_offset) {
        return false;
    }
    let mut tally = Tally {
        offset: first_offset,
        earliest: FIRST_INSTANT,
        met: 0,
        gap_seconds: 0,
    };
    for &change in changes {
        match tally.tally_with(change) {
            Some(next) => tally = next,
            None => return false,
        }
    }
    true
}

// What is known of a table after some of its changes.
#[derive(Clone, Copy)]
struct Tally {
    // The offset then.
    offset: i32,
    // The least instant at which the next change may lie.
    earliest: i64,
    // How many of the changes have a reading in the years that a pattern can name,
    met: u32,
    // and how many seconds the clock skips at these.
    gap_seconds: u32,
    ghost offset_in: { IsTrue (Spec.is_offset offset) },
    ghost earliest_in: { Spec.first_instant ≤ℤ earliest },
    ghost met_in: { met ≤ most_changes },
    ghost gaps_in: { gap_seconds ≤ most_gap_seconds },
}

impl Tally {
    ghost use Rattle.croner_base.specs.Private.TableSteps.{known_after, known_by, IsNextChange};

    // The tally with one change more, or `None` where that change makes the table refused.
    fn tally_with(self, change: (i64, i32)) -> Option<Tally>
        ensures some { IsSome result ↔ IsNextChange (known_by self) change }
        ensures value { IfSome result (λ t. known_by t ≡ known_after (known_by self) change) }
    {
        let (second, offset) = change;
        if second < self.earliest || second > LAST_INSTANT {
            return None;
        }
        if !is_offset(offset) || !is_step(self.offset, offset) {
            return None;
        }
        let met = self.met + met_at(self.offset, change);
        let gap_seconds = self.gap_seconds + gap_at(self.offset, change);
        if met > MOST_CHANGES || gap_seconds > MOST_GAP_SECONDS {
            return None;
        }
        Some(Tally {
            offset,
            earliest: second + APART_SECONDS + 1,
            met,
            gap_seconds,
        })
    }
}

fn is_offset(offset: i32) -> bool
    ensures { result ≡ Spec.is_offset offset }
{
    -OFFSET_LIMIT_SECONDS <= offset && offset <= OFFSET_LIMIT_SECONDS
}

// Whether two offsets differ, and by no more than a calm clock allows.
fn is_step(before: i32, after: i32) -> bool
    requires before_in { IsTrue (Spec.is_offset before) }
    requires after_in { IsTrue (Spec.is_offset after) }
    ensures { result ≡ Spec.is_step before after }
{
    if before == after {
        return false;
    }
    let forward = after - before;
    -FOLD_LIMIT_SECONDS <= forward && forward <= GAP_LIMIT_SECONDS as i32
}

// 1 for a change with a reading in the years that a pattern can name, at its instant or one second before it.
fn met_at(before: i32, change: (i64, i32)) -> u32
    requires low { Spec.first_instant ≤ℤ change.0 }
    requires high { change.0 ≤ℤ Spec.last_instant }
    ensures value { result ≡ Spec.met_at before change }
    ensures bound { result ≤ 1 }
{
    if is_met(before, change) { 1 } else { 0 }
}

// The seconds that the clock skips at such a change.
fn gap_at(before: i32, change: (i64, i32)) -> u32
    requires low { Spec.first_instant ≤ℤ change.0 }
    requires high { change.0 ≤ℤ Spec.last_instant }
    requires step { IsTrue (Spec.is_step before change.1) }
    ensures value { result ≡ Spec.gap_at before change }
    ensures bound { result ≤ gap_limit }
{
    let (_, after) = change;
    if is_met(before, change) && before < after {
        (after - before) as u32
    } else {
        0
    }
}

fn is_met(before: i32, change: (i64, i32)) -> bool
    requires low { Spec.first_instant ≤ℤ change.0 }
    requires high { change.0 ≤ℤ Spec.last_instant }
    ensures { result ≡ Spec.is_met before change }
{
    let (second, after) = change;
    is_searched(second + after as i64) || is_searched(second - 1 + before as i64)
}

fn is_searched(wall: i64) -> bool
    ensures { result ≡ Spec.is_searched wall }
{
    FIRST_SEARCHED_SECOND <= wall && wall <= LAST_SEARCHED_SECOND
}

// Whether an instant lies in the UTC years -9999 to 9999.
pub(crate) fn is_instant(second: i64) -> bool
    ensures { result ≡ Spec.is_table_second second }
{
    FIRST_INSTANT <= second && second <= LAST_INSTANT
}
