//! Phrases that name exactly what a field has marked, each value once, by pieces that stand in order.

ghost use Rattle.std.specs.Prelude.{◌≡◌, ◌≤◌, ◌<◌, ◌+◌, ◌-◌, IsTrue, IfOk, IfErr};
ghost use Rattle.croner_pattern.specs.Schedule.{is_named};
ghost use Rattle.croner_summary.specs.Order.{AreInOrder, IsInOrder, times_named};
ghost use Rattle.croner_summary.specs.Says.{is_in, is_stepwise};
ghost use Rattle.croner_summary.specs.Private.Exact.{AgreeBelow, IsExact, NameOnceBelow, NamesRightly, ones_from};

use crate::order::rise_within;
use crate::phrase::{Phrase, Piece};
use crate::pieces::{MONDAY, SATURDAY, SUNDAY};
use croner_base::component::CronComponent;
use croner_base::errors::CronError;
use std::alloc::Global;

/// Whether a distance is a whole number of steps.
pub(crate) fn is_stepwise(step: u16, distance: u16) -> bool
    ensures { result ≡ is_stepwise step distance }
{
    step > 0 && distance % step == 0
}

/// Whether a piece names a value of the field.
fn is_in(least: u16, greatest: u16, piece: Piece, value: u16) -> bool
    requires low { least ≤ value }
    requires high { value ≤ greatest }
    requires room { greatest < 65535 }
    ensures { result ≡ is_in least greatest piece value }
{
    match piece {
        Piece::Every => true,
        Piece::EveryNth(step) => {
            is_stepwise(step, greatest + 1 - least) && is_stepwise(step, value - least)
        }
        Piece::One(only) => value == only,
        Piece::Range(first, last) => first <= value && value <= last,
        Piece::RangeNth(first, last, step) => {
            first <= value && value <= last && is_stepwise(step, value - first)
        }
    }
}

/// How many of the pieces name a value of the field.
fn times_named(least: u16, greatest: u16, pieces: &[Piece], value: u16) -> usize
    requires low { least ≤ value }
    requires high { value ≤ greatest }
    requires room { greatest < 65535 }
    ensures { result ≡ times_named least greatest pieces.now value }
{
    pieces
        .iter()
        .filter(|piece| is_in(least, greatest, **piece, value))
        .count()
}

/// Whether the pieces name a value once, or not at all, as it is to be.
pub(crate) fn name_rightly(
    least: u16,
    greatest: u16,
    pieces: &[Piece],
    value: u16,
    named: bool,
) -> bool
    requires low { least ≤ value }
    requires high { value ≤ greatest }
    requires room { greatest < 65535 }
    ensures { IsTrue result → NamesRightly least greatest pieces.now value named }
{
    times_named(least, greatest, pieces, value) == usize::from(named)
}

/// Whether a field has a value marked.
pub(crate) fn has(field: &CronComponent, bit: u8, value: u16) -> bool
    ensures { result ≡ is_named bit field.now value }
{
    match field.is_bit_set(value, bit) {
        Ok(marked) => marked,
        Err(_) => false,
    }
}

/// Whether the pieces name exactly the marked values of a field, each once.
fn name_exactly(least: u16, greatest: u16, pieces: &[Piece], bit: u8, field: &CronComponent) -> bool
    requires room { greatest < 65535 }
    ensures exact { IsTrue result → AgreeBelow least greatest pieces.now bit field.now (greatest + 1) }
    ensures once { IsTrue result → NameOnceBelow least greatest pieces.now (greatest + 1) }
{
    for value in least..greatest + 1 {
        if !name_rightly(least, greatest, pieces, value, has(field, bit, value)) {
            return false;
        }
    }
    true
}

/// The marked values of a field from one on, each by itself.
fn ones_from(
    alloc: Global,
    from: u16,
    greatest: u16,
    bit: u8,
    field: &CronComponent,
) -> Result<Vec<Piece>, CronError>
    requires order { from ≤ greatest + 1 }
    requires room { greatest < 65535 }
    ensures ok { IfOk result (λ pieces. pieces.items ≡ ones_from (is_named bit field.now) from ((greatest + 1) - from)) }
    ensures err { IfErr result (λ e. e ≡ CronError.OutOfMemory) }
{
    let mut pieces = Vec::new(alloc);
    for value in from..greatest + 1 {
        if has(field, bit, value) {
            pieces.push(Piece::One(value))?;
        }
    }
    Ok(pieces)
}

/// The marked weekdays, each by itself, of which Sunday comes last.
fn weekdays_one_by_one(
    alloc: Global,
    bit: u8,
    field: &CronComponent,
) -> Result<Vec<Piece>, CronError>
    ensures ok { IfOk result (λ pieces. AgreeBelow 0 6 pieces.items bit field.now 7) }
    ensures ordered { IfOk result (λ pieces. AreInOrder 0 6 pieces.items) }
    ensures err { IfErr result (λ e. e ≡ CronError.OutOfMemory) }
{
    let mut pieces = ones_from(alloc, MONDAY, SATURDAY, bit, field)?;
    if has(field, bit, SUNDAY) {
        pieces.push(Piece::One(SUNDAY))?;
    }
    Ok(pieces)
}

/// The marked values of a field, each by itself.
pub(crate) fn pieces_one_by_one(
    alloc: Global,
    least: u16,
    greatest: u16,
    bit: u8,
    field: &CronComponent,
) -> Result<Vec<Piece>, CronError>
    requires order { least ≤ greatest }
    requires room { greatest < 65535 }
    ensures ok { IfOk result (λ pieces. AgreeBelow least greatest pieces.items bit field.now (greatest + 1)) }
    ensures ordered { IfOk result (λ pieces. AreInOrder least greatest pieces.items) }
    ensures err { IfErr result (λ e. e ≡ CronError.OutOfMemory) }
{
    if least == SUNDAY && greatest == SATURDAY {
        return weekdays_one_by_one(alloc, bit, field);
    }
    ones_from(alloc, least, greatest, bit, field)
}

/// The phrase of the marked values of a field: the words that were found, if they are exact and in order, otherwise each value by
/// itself.
pub(crate) fn exact_phrase(
    alloc: Global,
    least: u16,
    greatest: u16,
    bit: u8,
    field: &CronComponent,
    found: Vec<Piece>,
) -> Result<Phrase, CronError>
    requires order { least ≤ greatest }
    requires room { greatest < 65535 }
    ensures ok { IfOk result (IsExact least greatest bit field.now) }
    ensures ordered { IfOk result (IsInOrder least greatest) }
    ensures err { IfErr result (λ e. e ≡ CronError.OutOfMemory) }
{
    if rise_within(least, greatest, &found) && name_exactly(least, greatest, &found, bit, field) {
        return Ok(Phrase { pieces: found });
    }
    let pieces = pieces_one_by_one(alloc, least, greatest, bit, field)?;
    Ok(Phrase { pieces })
}
