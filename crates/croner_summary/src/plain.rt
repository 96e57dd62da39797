//! Phrases that name exactly the plain values of a field, each once. Between one plain value and the next the pieces must name none.

ghost use Rattle.std.specs.Prelude.{◌≡◌, ◌≤◌, ◌<◌, ◌+◌, IsTrue, IfOk, IfErr};
ghost use Rattle.croner_summary.specs.Order.{IsInOrder};
ghost use Rattle.croner_summary.specs.Private.Exact.{AgreeBelow, IsExact, IsNextPlain, NamesNone, NameNone, NameOnceBelow, PassesOver, StepAgrees};

use crate::exact::{name_rightly, pieces_one_by_one};
use crate::order::rise_within;
use crate::phrase::{Phrase, Piece};
use croner_base::component::{ALL_BIT, CronComponent};
use croner_base::errors::CronError;
use std::alloc::Global;

/// Whether steps from a first value pass over each value from one on and below another.
fn passes_over(first: u16, step: u16, from: u16, end: u16) -> bool
    requires { from < end }
    ensures { IsTrue result → PassesOver first step from end }
{
    if from <= first {
        return end <= first;
    }
    if step == 0 {
        return true;
    }
    let beyond = (from - first) % step;
    beyond > 0 && end - from <= step - beyond
}

/// Whether a piece names no value from one on and below another.
fn names_none(least: u16, greatest: u16, piece: Piece, from: u16, end: u16) -> bool
    requires low { least ≤ from }
    requires order { from < end }
    ensures { IsTrue result → NamesNone least greatest piece from end }
{
    match piece {
        Piece::Every => false,
        Piece::EveryNth(step) => passes_over(least, step, from, end),
        Piece::One(only) => only < from || end <= only,
        Piece::Range(first, last) => last < from || end <= first,
        Piece::RangeNth(first, last, step) => last < from || passes_over(first, step, from, end),
    }
}

/// Whether none of the pieces names such a value.
fn name_none(least: u16, greatest: u16, pieces: &[Piece], from: u16, end: u16) -> bool
    requires low { least ≤ from }
    requires order { from < end }
    ensures { IsTrue result → NameNone least greatest pieces.now from end }
{
    for piece in pieces {
        if !names_none(least, greatest, *piece, from, end) {
            return false;
        }
    }
    true
}

/// The next plain value from one on; the value above the greatest, where there is none.
pub(crate) fn next_plain(field: &CronComponent, from: u16, greatest: u16) -> u16
    requires order { from ≤ greatest + 1 }
    requires room { greatest < 65535 }
    ensures { IsNextPlain greatest field.now from result }
{
    match field.least_from(from) {
        Some(value) if value <= greatest => value,
        _ => greatest + 1,
    }
}

/// Whether the pieces name no value before the next plain one, and name that one once.
fn step_agrees(least: u16, greatest: u16, pieces: &[Piece], from: u16, next: u16) -> bool
    requires low { least ≤ from }
    requires order { from ≤ next }
    requires room { greatest < 65535 }
    ensures { IsTrue result → StepAgrees least greatest pieces.now from next }
{
    if from < next && !name_none(least, greatest, pieces, from, next) {
        return false;
    }
    next > greatest || name_rightly(least, greatest, pieces, next, true)
}

/// Whether the pieces name exactly the plain values of a field, each once.
fn name_plain_exactly(least: u16, greatest: u16, pieces: &[Piece], field: &CronComponent) -> bool
    requires { greatest < 65534 }
    ensures exact { IsTrue result → AgreeBelow least greatest pieces.now ALL_BIT field.now (greatest + 1) }
    ensures once { IsTrue result → NameOnceBelow least greatest pieces.now (greatest + 1) }
{
    let mut from = least;
    while from <= greatest {
        let next = next_plain(field, from, greatest);
        if !step_agrees(least, greatest, pieces, from, next) {
            return false;
        }
        from = next + 1;
    }
    true
}

/// The phrase of the plain values of a field: the words that were found, if they are exact and in order, otherwise each value by
/// itself.
pub(crate) fn exact_plain_phrase(
    alloc: Global,
    least: u16,
    greatest: u16,
    field: &CronComponent,
    found: Vec<Piece>,
) -> Result<Phrase, CronError>
    requires order { least ≤ greatest }
    requires room { greatest < 65534 }
    ensures ok { IfOk result (IsExact least greatest ALL_BIT field.now) }
    ensures ordered { IfOk result (IsInOrder least greatest) }
    ensures err { IfErr result (λ e. e ≡ CronError.OutOfMemory) }
{
    if rise_within(least, greatest, &found) && name_plain_exactly(least, greatest, &found, field) {
        return Ok(Phrase { pieces: found });
    }
    let pieces = pieces_one_by_one(alloc, least, greatest, ALL_BIT, field)?;
    Ok(Phrase { pieces })
}
