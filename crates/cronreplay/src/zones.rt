//! Tables of zones: what they read, and searches and listings over them beside those in the zone itself.

use crate::listings::next_items;
use crate::searches::{Search, Searched};
use croner::time::table::{ClockTable, TableTime};
use croner::time::{CronDateTime, Direction};
use croner_rows::{
    Caller, Fault, How, Job, Moment, Result, Runs, Subject, Window, ZoneSource, items, list,
    member, number, parts, shown, table_of, word,
};
use jiff::tz::TimeZone;
use jiff::{Timestamp, Zoned};
use serde_json::Value;
use std::alloc::Global;

/// From this many seconds after a window's first one on, the clock shows nothing that it showed before the window.
const MARGIN_SECONDS: i64 = 180_000;

/// What the clock of a table shows at each of a list of seconds.
pub fn readings(caller: Caller<'_>, question: &Value) -> Result<Value> {
    let table = table_of(caller, member(question, "zone")?)?;
    let mut readings = Vec::new(caller.alloc);
    for second in list(question, "seconds")? {
        readings.push(reading(caller.alloc, &table, number(second)?)?)?;
    }
    Ok(Value::Array(readings))
}

fn reading(alloc: Global, table: &ClockTable, second: i64) -> Result<Value> {
    let time = TableTime::new(table, second)?;
    Ok(Value::String(time.to_civil().to_string(alloc)?))
}

// A zone, and the table of its clock in a window.
#[derive(Clone, Copy)]
struct Clocks<'c> {
    window: Window,
    table: &'c ClockTable,
    zone: TimeZone<'c>,
}

// Whether a second lies well in a window: far enough after its first one.
fn is_well_in(window: Window, second: i64) -> bool {
    second <= window.last && second.saturating_sub(MARGIN_SECONDS) >= window.first
}

// The runs before the first that does not lie well in a window.
fn well_in(window: Window, runs: &[Value]) -> &[Value] {
    let end = runs.iter().position(|run| !is_run_well_in(window, run));
    match end {
        Some(count) => runs.get(..count).unwrap_or(runs),
        None => runs,
    }
}

fn is_run_well_in(window: Window, run: &Value) -> bool {
    match run.as_i64() {
        Some(second) => is_well_in(window, second),
        None => false,
    }
}

// How many runs were compared, and the differences.
#[derive(Drop)]
struct Tally {
    runs: u64,
    differences: String,
}

/// Asks each question of a list in both directions, over the table of a zone and in the zone. Gives how many runs of the zone
/// lie well in the window, and each difference: the place in the list, whether forward, and both lists of runs.
pub fn compare(caller: Caller<'_>, question: &Value) -> Result<Value> {
    let clock = member(question, "zone")?;
    let source = ZoneSource::read(caller.rt, clock)?;
    let tally = compare_over(caller, question, clock, source.zone())?;
    let (runs, differences) = (tally.runs, tally.differences.as_str());
    let text = format!(in caller.alloc; "{{\"runs\":{runs},\"differences\":[{differences}]}}");
    shown::object(caller.alloc, text)
}

fn compare_over(
    caller: Caller<'_>,
    question: &Value,
    clock: &Value,
    zone: TimeZone<'_>,
) -> Result<Tally> {
    let window = Window::read(member(clock, "window")?)?;
    let table = table_of(caller, clock)?;
    let clocks = Clocks {
        window,
        table: &table,
        zone,
    };
    compare_each(caller, list(question, "asked")?, clocks)
}

fn compare_each(caller: Caller<'_>, list: &[Value], clocks: Clocks<'_>) -> Result<Tally> {
    let mut tally = Tally {
        runs: 0,
        differences: String::new(caller.alloc),
    };
    for (place, asked) in list.iter().enumerate() {
        compare_one(caller, asked, clocks, place, &mut tally)?;
    }
    Ok(tally)
}

// A job, a start and what is asked: whether a search may find the start, or how many items of a listing.
#[derive(Clone, Copy)]
struct Asked<'j> {
    job: &'j Job,
    start: i64,
    kind: &'j Value,
}

fn compare_one(
    caller: Caller<'_>,
    asked: &Value,
    clocks: Clocks<'_>,
    place: usize,
    tally: &mut Tally,
) -> Result<()> {
    let [pattern, start, kind] = parts::<3>(asked)?;
    let start = number(start)?;
    if !is_well_in(clocks.window, start) {
        return Err(Fault::Malformed);
    }
    let job = Job::of_text(caller.alloc, asked, word(pattern)?)?;
    let asked = Asked {
        job: &job,
        start,
        kind,
    };
    compare_towards(caller, asked, clocks, (place, Direction::Forward), tally)?;
    compare_towards(caller, asked, clocks, (place, Direction::Backward), tally)
}

fn compare_towards(
    caller: Caller<'_>,
    asked: Asked<'_>,
    clocks: Clocks<'_>,
    (place, direction): (usize, Direction),
    tally: &mut Tally,
) -> Result<()> {
    let by_table = runs(
        caller,
        asked,
        TableTime::new(clocks.table, asked.start)?,
        direction,
    )?;
    let in_zone = Zoned::new(Timestamp::from_second(asked.start)?, clocks.zone);
    let in_zone = runs(caller, asked, in_zone, direction)?;
    let compared = well_in(clocks.window, items(&in_zone)?);
    tally.runs = tally.runs.saturating_add(compared.len() as u64);
    if *well_in(clocks.window, items(&by_table)?) != *compared {
        let is_forward = direction == Direction::Forward;
        let difference = format!(in caller.alloc; "[{place},{is_forward},{by_table},{in_zone}]")?;
        shown::add_item(&mut tally.differences, difference.as_str())?;
    }
    Ok(())
}

// The runs from a time on, nearest first; what stands for none after them is no number.
fn runs<T: Moment>(
    caller: Caller<'_>,
    asked: Asked<'_>,
    start: T,
    direction: Direction,
) -> Result<Value> {
    let subject = Subject::Job(asked.job);
    match asked.kind.as_bool() {
        Some(inclusive) => {
            let search = Search {
                direction,
                inclusive,
                count: 1,
            };
            search.runs(caller, Searched::Subject(subject), &start)
        }
        None => {
            let mut runs = Runs::new(subject, start, How::From(direction))?;
            next_items(caller, &mut runs, number(asked.kind)?, &mut false)
        }
    }
}
