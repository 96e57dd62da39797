//! The changes of a clock after a start.
ghost use Rattle.std.specs.Prelude.{◌≡◌, ◌↔◌, ◌++◌, ◌<ℤ◌, ◌≤ℤ◌, IsTrue, IfOk, OnOk};
ghost use Rattle.croncheck_changes.specs.Changes.{AreChangesFrom, IsWatched, first_watched, end_watched};
ghost use Rattle.croncheck_changes.specs.Private.Watched.{change_of, watched_at};

use crate::changes::Change;
use croner::time::table::TableTime;
use std::alloc::{AllocError, Global};

/// How far after a start changes are told: 372 days, since a change on a certain Sunday comes again after 364 or 371.
const WATCHED_SECONDS: i64 = 32_140_800;

/// Changes are told from this second on: 0001-01-03T00:00:00 UTC.
const FIRST_WATCHED: i64 = -62_135_424_000;

/// Changes are told before this second: 4999-12-30T00:00:00 UTC.
const END_WATCHED: i64 = 95_617_411_200;

/// The changes of a start's clock that are told: those in its table after the start, up to 372 days later, and in the years that are
/// watched. The only error is lack of memory.
pub fn changes_after(alloc: Global, start: TableTime<'_>) -> Result<Vec<Change>, AllocError>
    ensures { IfOk result (λ changes. AreChangesFrom start.entry changes.items) }
{
    let table = start.table();
    let listed = table.changes();
    let mut offset = table.first_offset();
    let mut changes = Vec::new(alloc);
    for &change in listed {
        let (instant, next) = change;
        push_watched(&mut changes, start, offset, instant, next)?;
        offset = next;
    }
    Ok(changes)
}

// Puts a change after the others, if it is told. Until its instant the clock is `offset` seconds ahead of UTC, and from it on `next`.
#[tactic(auto, using(crate::proofs::ListedChanges::one_watched))]
fn push_watched(
    changes: &mut Vec<Change>,
    start: TableTime<'_>,
    offset: i32,
    instant: i64,
    next: i32,
) -> Result<(), AllocError>
    ensures { OnOk result (changes.new.items ≡ changes.old.items ++ watched_at start.entry.second offset instant next) }
{
    if is_watched(start, instant) {
        changes.push(change_at(offset, instant, next))?;
    }
    Ok(())
}

// The change of a clock that is `offset` seconds ahead of UTC until an instant, and from it on `next`.
fn change_at(offset: i32, instant: i64, next: i32) -> Change
    requires from { first_watched ≤ℤ instant }
    requires before { instant <ℤ end_watched }
    ensures { result ≡ change_of offset instant next }
{
    Change {
        instant,
        before: instant + offset as i64,
        after: instant + next as i64,
    }
}

// Whether a change at an instant is told.
fn is_watched(start: TableTime<'_>, instant: i64) -> bool
    ensures { IsTrue result ↔ IsWatched start.entry.second instant }
{
    start.second() < instant
        && instant <= start.second() + WATCHED_SECONDS
        && FIRST_WATCHED <= instant
        && instant < END_WATCHED
}
