//! Zones: a file of the time zone database, a POSIX rule, or an offset that never changes; and the tables of their clocks.

use crate::{Caller, Fault, Result, member, number, parts, word};
use croner::time::table::ClockTable;
use jiff::tz::{Offset, TimeZone, Tzif};
use serde_json::Value;
use std::{fs, io};

/// What a zone was read from.
pub enum ZoneSource {
    File(Tzif),
    Plain(TimeZone<'static>),
}

// By hand, so that a function that drops a source calls this one: its proof doesn't go through a file at each exit.
impl Drop for ZoneSource {
    fn drop(self) {
        match self {
            ZoneSource::File(_) => {}
            ZoneSource::Plain(_) => {}
        }
    }
}

impl ZoneSource {
    /// The zone of a clock, which has one of the members `file`, `rule` and `offset`.
    pub fn read(rt: &HostRuntime, clock: &Value) -> Result<ZoneSource> {
        match clock.get("file") {
            Some(path) => read_file(rt, word(path)?),
            None => Ok(ZoneSource::Plain(zone_of_words(clock)?)),
        }
    }

    /// The zone.
    pub fn zone(&self) -> TimeZone<'_> {
        match self {
            ZoneSource::File(tzif) => TimeZone::tzif(tzif),
            ZoneSource::Plain(zone) => *zone,
        }
    }
}

fn read_file(rt: &HostRuntime, path: &str) -> Result<ZoneSource> {
    match fs::read(rt, path) {
        Ok(bytes) => {
            let tzif = Tzif::parse(rt.alloc(), None, bytes.as_slice())?;
            Ok(ZoneSource::File(tzif))
        }
        Err(error) if error.kind() == io::ErrorKind::OutOfMemory => Err(Fault::OutOfMemory),
        Err(_) => Err(Fault::Malformed),
    }
}

fn zone_of_words(clock: &Value) -> Result<TimeZone<'static>> {
    match clock.get("rule") {
        Some(rule) => read_rule(rule),
        None => {
            let seconds = number(member(clock, "offset")?)?;
            Ok(TimeZone::fixed(Offset::from_seconds(seconds)?))
        }
    }
}

/// The zone of a rule.
pub fn read_rule(rule: &Value) -> Result<TimeZone<'static>> {
    Ok(TimeZone::posix(word(rule)?)?)
}

/// A window, in seconds since 1970-01-01T00:00:00 UTC.
#[derive(Clone, Copy)]
pub struct Window {
    pub first: i64,
    pub last: i64,
}

impl Window {
    /// The window of two numbers.
    pub fn read(ends: &Value) -> Result<Window> {
        let [first, last] = parts::<2>(ends)?;
        let (first, last) = (number(first)?, number(last)?);
        Ok(Window { first, last })
    }
}

/// The table of a zone in the window of a clock, between marks.
pub fn table_in_window(caller: Caller<'_>, clock: &Value, window: &Value) -> Result<ClockTable> {
    let window = Window::read(window)?;
    let source = ZoneSource::read(caller.rt, clock)?;
    let zone = source.zone();
    caller.begin();
    let table = ClockTable::of_zone(caller.alloc, &zone, window.first, window.last);
    caller.end();
    Ok(table?)
}
