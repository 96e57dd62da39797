//! Clocks: civil time, tables and rules, and calls that are made over a time of any of them.

use crate::{
    Caller, Fault, Moment, Result, civil_value, list, member, number, number_at, parts, read_rule,
    switch, table_in_window,
};
use croner::time::table::{ClockTable, TableTime};
use croner_backends::{BoxedTime, NarrowTime};
use jiff::civil::DateTime;
use jiff::{Timestamp, Zoned};
use serde_json::Value;
use std::alloc::{AllocError, Global};

/// Calls that are made over a time of any clock.
pub trait OverTime {
    /// Makes the calls, and returns what they answer. What was lent to them is added to `after`, as it is afterwards.
    fn answer<T: Moment>(&self, caller: Caller<'_>, time: T, after: &mut String) -> Result<Value>;
}

/// Makes calls over the start of a question, on the clock of its member `zone`: civil time if there is none, a rule, or a table,
/// which may be that of a zone in a window. A table that is `boxed` is over the backend that takes memory for each answer, and one that is `held` over the backend that
/// holds only what lies between two instants.
pub fn over_time<C: OverTime>(
    caller: Caller<'_>,
    question: &Value,
    calls: &C,
    after: &mut String,
) -> Result<Value> {
    match question.get("zone") {
        None | Some(Value::Null) => calls.answer(caller, civil_start(question)?, after),
        Some(zone) => match (zone.get("window"), zone.get("rule")) {
            (None, Some(rule)) => calls.answer(caller, zoned_clock(rule, question)?, after),
            _ => over_table(caller, question, zone, calls, after),
        },
    }
}

fn second_and_nanosecond(parts: &[Value]) -> Result<(i64, i32)> {
    let [second, nanosecond] = parts else {
        return Err(Fault::Malformed);
    };
    Ok((number(second)?, number(nanosecond)?))
}

/// The table of a clock, or its refusal: that of a zone in its member `window`, or else of the members `first` and `changes`. It is
/// made between marks.
pub fn table_of(caller: Caller<'_>, clock: &Value) -> Result<ClockTable> {
    match clock.get("window") {
        Some(window) => table_in_window(caller, clock, window),
        None => table_of_changes(caller, clock),
    }
}

fn table_of_changes(caller: Caller<'_>, clock: &Value) -> Result<ClockTable> {
    let first = number_at(clock, "first")?;
    let changes = clock_changes(caller.alloc, clock)?;
    caller.begin();
    let table = ClockTable::new(first, changes);
    caller.end();
    Ok(table?)
}

fn over_table<C: OverTime>(
    caller: Caller<'_>,
    question: &Value,
    zone: &Value,
    calls: &C,
    after: &mut String,
) -> Result<Value> {
    let table = table_of(caller.without_marks(), zone)?;
    let start = TableTime::new(&table, start_second(question)?)?;
    if switch(zone, "boxed")? {
        return calls.answer(caller, BoxedTime::new(caller.alloc, start)?, after);
    }
    match zone.get("held") {
        None => calls.answer(caller, start, after),
        Some(held) => calls.answer(caller, narrow_time(start, held)?, after),
    }
}

/// A time over the backend that holds what lies between two instants.
pub fn narrow_time<'t>(time: TableTime<'t>, held: &Value) -> Result<NarrowTime<'t>> {
    let [low, high] = parts::<2>(held)?;
    Ok(NarrowTime::new(time, number(low)?, number(high)?)?)
}

// The start in civil time. If there is none, any value on the clock will do.
fn civil_start(question: &Value) -> Result<DateTime> {
    match question.get("start") {
        None => Ok(DateTime::MIN),
        Some(_) => civil_value(question, "start"),
    }
}

fn start_second(question: &Value) -> Result<i64> {
    match question.get("start") {
        None => Ok(0),
        Some(start) => number(start),
    }
}

fn zoned_clock(rule: &Value, question: &Value) -> Result<Zoned<'static>> {
    Ok(Zoned::new(start_instant(question)?, read_rule(rule)?))
}

// The start as a second, or as a second and a nanosecond of it.
fn start_instant(question: &Value) -> Result<Timestamp> {
    let (second, nanosecond) = match question.get("start") {
        Some(Value::Array(parts)) => second_and_nanosecond(parts.as_slice())?,
        _ => (start_second(question)?, 0),
    };
    Ok(Timestamp::new(second, nanosecond)?)
}

// The changes of a table, each its instant and its offset, or a series of them.
fn clock_changes(alloc: Global, zone: &Value) -> Result<Vec<(i64, i32)>> {
    let mut changes = Vec::new(alloc);
    for change in list(zone, "changes")? {
        if change.is_object() {
            read_series(change, &mut changes)?;
        } else {
            let [instant, offset] = parts::<2>(change)?;
            changes.push((number(instant)?, number(offset)?))?;
        }
    }
    Ok(changes)
}

fn read_series(series: &Value, changes: &mut Vec<(i64, i32)>) -> Result<()> {
    let [even, odd] = parts::<2>(member(series, "offsets")?)?;
    let (from, apart) = (number_at(series, "from")?, number_at(series, "apart")?);
    let (count, offsets) = (number_at(series, "count")?, (number(even)?, number(odd)?));
    Ok(add_series(changes, count, from, apart, offsets)?)
}

/// Adds a number of changes from an instant on, each so many seconds after the one before. Their offsets alternate between the
/// two given.
pub fn add_series(
    changes: &mut Vec<(i64, i32)>,
    count: u32,
    from: i64,
    apart: i64,
    (even, odd): (i32, i32),
) -> Result<(), AllocError> {
    let mut instant = from;
    for place in 0..count {
        let offset = if place % 2 == 0 { even } else { odd };
        changes.push((instant, offset))?;
        instant = instant.saturating_add(apart);
    }
    Ok(())
}
