//! Finds pieces for some values. Whether they name exactly these, in order, is tested where they are used, so nothing relies on this
//! file.

ghost use Rattle.std.specs.Prelude.{◌≡◌, ◌≤◌, ◌<◌, ◌+◌, length, IfErr, OnErr};

use crate::exact::is_stepwise;
use crate::phrase::Piece;
use croner_base::errors::CronError;
use std::alloc::Global;

/// From this many values in a row on, they are written as a range.
const RANGE_VALUES: usize = 3;

/// From this many values at the same distance on, they are written by their step.
const STEPPED_VALUES: usize = 5;

/// How many values may be written beside each nth of the field.
const VALUES_BESIDE: usize = 3;

/// A step is written beside other values only where the field has at least this many steps.
const STEPS_WITH_OTHERS: u16 = 4;

/// Saturday, the last day of the week, with which no other field ends.
pub(crate) const SATURDAY: u16 = 6;

/// Sunday.
pub(crate) const SUNDAY: u16 = 0;

/// Monday.
pub(crate) const MONDAY: u16 = 1;

/// The distance of the first two values; 0 where there is none.
fn first_step(values: &[u16]) -> u16 {
    if values.len() < 2 {
        return 0;
    }
    values[1].saturating_sub(values[0])
}

/// Whether each value is a step greater than the one before it.
fn is_even(values: &[u16], step: u16) -> bool {
    for i in 1..values.len() {
        if values[i].saturating_sub(values[i - 1]) != step {
            return false;
        }
    }
    true
}

/// How many steps the values from the least to the greatest have; 0 where the step doesn't divide them.
fn steps_of(least: u16, greatest: u16, step: u16) -> u16
    requires { greatest < 65535 }
{
    let values = (greatest + 1).saturating_sub(least);
    if is_stepwise(step, values) {
        values / step
    } else {
        0
    }
}

/// One piece for values that lie a step apart.
fn piece_of_values(least: u16, greatest: u16, values: &[u16], step: u16) -> Option<Piece>
    requires some { 0 < length values.now }
    requires room { greatest < 65535 }
{
    let (first, last) = (values[0], values[values.len() - 1]);
    let is_whole = first == least && values.len() == usize::from(steps_of(least, greatest, step));
    match step {
        1 if is_whole => Some(Piece::Every),
        1 if values.len() >= RANGE_VALUES => Some(Piece::Range(first, last)),
        1 => None,
        _ if is_whole => Some(Piece::EveryNth(step)),
        _ if values.len() >= STEPPED_VALUES => Some(Piece::RangeNth(first, last, step)),
        _ => None,
    }
}

/// One piece for all values, if they are written as one.
fn one_piece(least: u16, greatest: u16, values: &[u16]) -> Option<Piece>
    requires { greatest < 65535 }
{
    if values.len() == 1 {
        return Some(Piece::One(values[0]));
    }
    let step = first_step(values);
    if values.is_empty() || step == 0 || !is_even(values, step) {
        return None;
    }
    piece_of_values(least, greatest, values, step)
}

/// The index of the last value in a row from one on.
fn streak_end(values: &[u16], start: usize) -> usize
    requires { start < length values.now }
    ensures from { start ≤ result }
    ensures within { result < length values.now }
{
    for i in start + 1..values.len() {
        if values[i].saturating_sub(values[i - 1]) != 1 {
            return i - 1;
        }
    }
    values.len() - 1
}

/// Appends a piece to others.
fn push_piece(pieces: &mut Vec<Piece>, piece: Piece) -> Result<(), CronError>
    ensures { IfErr result (λ e. e ≡ CronError.OutOfMemory) }
{
    Ok(pieces.push(piece)?)
}

/// Appends values in a row to others: three or more as a range.
fn push_streak(pieces: &mut Vec<Piece>, streak: &[u16]) -> Result<(), CronError>
    requires { 0 < length streak.now }
    ensures { IfErr result (λ e. e ≡ CronError.OutOfMemory) }
{
    if streak.len() >= RANGE_VALUES {
        return push_piece(pieces, Piece::Range(streak[0], streak[streak.len() - 1]));
    }
    for value in streak {
        push_piece(pieces, Piece::One(*value))?;
    }
    Ok(())
}

/// Appends values to others, those in a row as ranges.
fn push_streaks(pieces: &mut Vec<Piece>, values: &[u16]) -> Result<(), CronError>
    ensures { IfErr result (λ e. e ≡ CronError.OutOfMemory) }
{
    let mut start = 0;
    while start < values.len() {
        let end = streak_end(values, start);
        push_streak(pieces, &values[start..end + 1])?;
        start = end + 1;
    }
    Ok(())
}

/// Moves Sunday after the other weekdays, unless it begins a range.
fn put_sunday_last(weekdays: &mut Vec<Piece>) {
    if weekdays.len() < 2 {
        return;
    }
    if let Piece::One(SUNDAY) = weekdays[0] {
        weekdays[..].rotate_left(1);
    }
}

/// How many of the values are a whole number of steps from the least.
fn count_on_step(least: u16, values: &[u16], step: u16) -> usize {
    values
        .iter()
        .filter(|value| is_stepwise(step, value.saturating_sub(least)))
        .count()
}

/// The least step worth trying: the field has at most as many such steps as there are values.
fn least_step(count: u16, values: &[u16]) -> u16 {
    match u16::try_from(values.len()) {
        Ok(0) => 2,
        Ok(len) => (count / len).max(2),
        Err(_) => 2,
    }
}

/// The least step all of whose values in the field are among these, with few other values; 0 where there is none.
fn step_with_few(least: u16, greatest: u16, values: &[u16]) -> u16
    requires { greatest < 65535 }
{
    let count = (greatest + 1).saturating_sub(least);
    for step in least_step(count, values)..count / STEPS_WITH_OTHERS + 1 {
        let steps = usize::from(steps_of(least, greatest, step));
        let beside = values.len().saturating_sub(steps);
        if steps > 0 && count_on_step(least, values, step) == steps && beside <= VALUES_BESIDE {
            return step;
        }
    }
    0
}

/// The values that aren't a whole number of steps from the least.
fn values_off_step(
    alloc: Global,
    least: u16,
    values: &[u16],
    step: u16,
) -> Result<Vec<u16>, CronError>
    ensures { IfErr result (λ e. e ≡ CronError.OutOfMemory) }
{
    let mut beside = Vec::new(alloc);
    for value in values {
        if !is_stepwise(step, value.saturating_sub(least)) {
            beside.push(*value)?;
        }
    }
    Ok(beside)
}

/// The pieces of ascending values of a field: one piece if there is one; else each nth of the field and a few values, or ranges and
/// values. Among weekdays Sunday comes last.
pub(crate) fn pieces_of(
    alloc: Global,
    least: u16,
    greatest: u16,
    values: &[u16],
) -> Result<Vec<Piece>, CronError>
    requires { greatest < 65535 }
    ensures { IfErr result (λ e. e ≡ CronError.OutOfMemory) }
{
    let mut pieces = Vec::new(alloc);
    if let Some(piece) = one_piece(least, greatest, values) {
        push_piece(&mut pieces, piece)?;
        return Ok(pieces);
    }
    let step = step_with_few(least, greatest, values);
    if step == 0 {
        push_streaks(&mut pieces, values)?;
        if greatest == SATURDAY {
            put_sunday_last(&mut pieces);
        }
        return Ok(pieces);
    }
    push_piece(&mut pieces, Piece::EveryNth(step))?;
    let beside = values_off_step(alloc, least, values, step)?;
    push_streaks(&mut pieces, &beside)?;
    Ok(pieces)
}
