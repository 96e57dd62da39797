//! What `Debug` shows, once for each type.

use croner::component::{CronComponent, NONE_BIT};
use croner::errors::CronError;
use croner::parser::{CronParser, Seconds, Year};
use croner::time::table::{ClockTable, TableTime};
use croner::time::{CivilDateTime, CronDateTime};
use croner::{Cron, Direction, JobType, TimeComponent, Weekday};
use croner_rows::{Fault, Result, text};
use serde_json::Value;
use std::alloc::Global;
use std::fmt::Debug;

/// What `Debug` shows of a value, given by name; if the question says how that begins and ends, whether it does.
pub fn debug(alloc: Global, question: &Value) -> Result<Value> {
    let shown = value(alloc, text(question, "value")?)?;
    if question.get("begin").is_none() {
        return Ok(Value::String(shown));
    }
    let (begin, end) = (text(question, "begin")?, text(question, "end")?);
    if shown.as_str().starts_with(begin) && shown.as_str().ends_with(end) {
        return Ok(Value::Bool(true));
    }
    Ok(Value::String(shown))
}

fn value(alloc: Global, name: &str) -> Result<String> {
    match name {
        "weekday" => debug_text(alloc, &Weekday::Friday),
        "direction" => debug_text(alloc, &Direction::Backward),
        "component" => debug_text(alloc, &TimeComponent::Hour),
        "job_type" => debug_text(alloc, &JobType::FixedTime),
        "seconds" => debug_text(alloc, &Seconds::Required),
        "year" => debug_text(alloc, &Year::Optional),
        "parser" => debug_text(alloc, &CronParser::new()),
        "builder" => debug_text(alloc, &CronParser::builder()),
        "empty" => debug_text(alloc, &CronError::EmptyPattern),
        _ => made_value(alloc, name),
    }
}

fn made_value(alloc: Global, name: &str) -> Result<String> {
    match name {
        "error" => copy_text(
            alloc,
            &CronError::InvalidPattern(String::from_str(alloc, "one")?),
        ),
        "civil" => debug_text(alloc, &CivilDateTime::from_ymd_hms(2024, 2, 29, 1, 2, 3)?),
        "field" => debug_text(alloc, &CronComponent::new(alloc, 0, 1, NONE_BIT, 0)?),
        "time" => time(alloc),
        "resolution" => resolution(alloc),
        "job" => copy_text(alloc, &Cron::from_str(alloc, "5 4 * * *")?),
        "pattern" => copy_text(alloc, &Cron::from_str(alloc, "5 4 * * *")?.pattern),
        _ => Err(Fault::Malformed),
    }
}

fn time(alloc: Global) -> Result<String> {
    let clock = clock(alloc, 0, (0, 7200))?;
    debug_text(alloc, &TableTime::new(&clock, 5)?)
}

fn debug_text<T: Debug>(alloc: Global, value: &T) -> Result<String> {
    Ok(format!(in alloc; "{value:?}")?)
}

// A second that a clock shows twice.
fn resolution(alloc: Global) -> Result<String> {
    let clock = clock(alloc, 7200, (0, 7199))?;
    let time = TableTime::new(&clock, 0)?;
    debug_text(alloc, &time.resolve_civil(alloc, time.to_civil())?)
}

fn clock(alloc: Global, first: i32, change: (i64, i32)) -> Result<ClockTable> {
    let mut changes = Vec::new(alloc);
    changes.push(change)?;
    Ok(ClockTable::new(first, changes)?)
}

// What is shown of a copy.
fn copy_text<T: Clone + Debug + Drop>(alloc: Global, original: &T) -> Result<String> {
    let copy: T = original.clone()?;
    let text = debug_text(alloc, &copy);
    drop(copy);
    text
}
