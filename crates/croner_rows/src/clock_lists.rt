//! Clocks of one kind, and calls that are made over them.

use crate::{
    Caller, Fault, Result, list, member, narrow_time, number, parts, read_rule, switch, table_of,
};
use croner::Clocked;
use croner::time::table::{ClockTable, TableTime};
use croner_backends::{AskingTime, NarrowTime};
use jiff::civil::DateTime;
use jiff::{Timestamp, Zoned};
use serde_json::Value;
use std::alloc::{AllocError, Global};

/// Calls that are made over clocks of any kind.
pub trait OverClocks {
    /// Makes the calls over a time on each clock, and returns what they answer. What comes after them is added to `after`.
    fn answer<T: Clocked>(
        &self,
        caller: Caller<'_>,
        clocks: &[T],
        after: &mut String,
    ) -> Result<Value>;
}

/// Makes calls over the clocks of a question's member `zones`. All are of the kind of the first: civil time (null), a rule, or a table.
/// A table that is `asking` is over the backend that asks for memory for each answer, and one that is `held` over the backend that
/// holds only what lies between two instants.
pub fn over_clocks<C: OverClocks>(
    caller: Caller<'_>,
    question: &Value,
    calls: &C,
    after: &mut String,
) -> Result<Value> {
    let zones = list(question, "zones")?;
    match zones.first() {
        None => Err(Fault::Malformed),
        Some(Value::Null) => calls.answer(caller, &[DateTime::MIN], after),
        Some(zone) if zone.get("rule").is_some() => over_rules(caller, zones, calls, after),
        Some(zone) => {
            let tables = tables_of(caller.without_marks(), zones)?;
            let times = times_of(caller.alloc, zones, tables.as_slice())?;
            over_tables(caller, (zone, zones), times.as_slice(), calls, after)
        }
    }
}

fn over_rules<C: OverClocks>(
    caller: Caller<'_>,
    zones: &[Value],
    calls: &C,
    after: &mut String,
) -> Result<Value> {
    let mut clocks = Vec::new(caller.alloc);
    for zone in zones {
        let rule = read_rule(member(zone, "rule")?)?;
        clocks.push(Zoned::new(Timestamp::UNIX_EPOCH, rule))?;
    }
    calls.answer(caller, clocks.as_slice(), after)
}

fn over_tables<C: OverClocks>(
    caller: Caller<'_>,
    (first, zones): (&Value, &[Value]),
    times: &[TableTime<'_>],
    calls: &C,
    after: &mut String,
) -> Result<Value> {
    if switch(first, "asking")? {
        let clocks = asking_times(caller.alloc, times)?;
        return calls.answer(caller, clocks.as_slice(), after);
    }
    match first.get("held") {
        None => calls.answer(caller, times, after),
        Some(_) => {
            let clocks = narrow_times(caller.alloc, zones, times)?;
            calls.answer(caller, clocks.as_slice(), after)
        }
    }
}

fn tables_of(caller: Caller<'_>, zones: &[Value]) -> Result<Vec<ClockTable>> {
    let mut tables = Vec::new(caller.alloc);
    for zone in zones {
        tables.push(table_of(caller, zone)?)?;
    }
    Ok(tables)
}

// A second on each table: the first that is held, if that is given.
fn times_of<'t>(
    alloc: Global,
    zones: &[Value],
    tables: &'t [ClockTable],
) -> Result<Vec<TableTime<'t>>> {
    let mut times = Vec::new(alloc);
    for (zone, table) in zones.iter().zip(tables) {
        times.push(TableTime::new(table, first_held(zone)?)?)?;
    }
    Ok(times)
}

fn first_held(zone: &Value) -> Result<i64> {
    match zone.get("held") {
        None => Ok(0),
        Some(held) => {
            let [low, _] = parts::<2>(held)?;
            number(low)
        }
    }
}

fn asking_times<'t>(
    alloc: Global,
    times: &[TableTime<'t>],
) -> Result<Vec<AskingTime<'t>>, AllocError> {
    let mut clocks = Vec::new(alloc);
    for time in times {
        clocks.push(AskingTime::new(*time))?;
    }
    Ok(clocks)
}

fn narrow_times<'t>(
    alloc: Global,
    zones: &[Value],
    times: &[TableTime<'t>],
) -> Result<Vec<NarrowTime<'t>>> {
    let mut clocks = Vec::new(alloc);
    for (zone, time) in zones.iter().zip(times) {
        clocks.push(narrow_time(*time, member(zone, "held")?)?)?;
    }
    Ok(clocks)
}
