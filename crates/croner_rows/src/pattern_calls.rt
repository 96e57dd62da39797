//! Calls of one pattern: what its fields match.

use crate::{
    Caller, Fault, Job, Result, direction, number_at, shown, text, three_numbers, weekday, word,
};
use croner::time::TimeComponent;
use croner::{Cron, CronComponent, CronPattern};
use serde_json::Value;

/// A part of a date and time by its name.
pub fn time_component(question: &Value) -> Result<TimeComponent> {
    match text(question, "component")? {
        "second" => Ok(TimeComponent::Second),
        "minute" => Ok(TimeComponent::Minute),
        "hour" => Ok(TimeComponent::Hour),
        "day" => Ok(TimeComponent::Day),
        "month" => Ok(TimeComponent::Month),
        "year" => Ok(TimeComponent::Year),
        _ => Err(Fault::Malformed),
    }
}

// The answer of a call with members of the question as arguments; with arguments that no month has the question is malformed.
fn answer_of_call(pattern: &CronPattern, question: &Value, op: &str) -> Result<Value> {
    match op {
        "find" => found_value(pattern, question),
        "closest_weekday" => Ok(Value::Bool(is_closest(pattern, question)?)),
        "day_mask" => Ok(Value::from(mask(pattern, question)?)),
        "day_match" => Ok(Value::Bool(is_day(pattern, question)?)),
        op => Ok(Value::Bool(is_matched(pattern, question, op)?)),
    }
}

fn found_value(pattern: &CronPattern, question: &Value) -> Result<Value> {
    let (value, part) = (number_at(question, "value")?, time_component(question)?);
    let found = pattern.find_match_in_component(value, part, direction(question)?)?;
    Ok(Value::from(found))
}

fn is_closest(pattern: &CronPattern, question: &Value) -> Result<bool> {
    let (length, day): (u32, u32) = (number_at(question, "length")?, number_at(question, "day")?);
    let weekday = weekday(question, "weekday")?;
    if length < 28 || length > 31 || day < 1 || day > length {
        return Err(Fault::Malformed);
    }
    Ok(pattern.closest_weekday(length, day, weekday)?)
}

fn mask(pattern: &CronPattern, question: &Value) -> Result<u32> {
    let (length, first): (u32, _) = (number_at(question, "length")?, weekday(question, "first")?);
    if length < 28 || length > 31 {
        return Err(Fault::Malformed);
    }
    Ok(pattern.day_mask(length, first)?)
}

fn is_day(pattern: &CronPattern, question: &Value) -> Result<bool> {
    let (year, month, day) = three_numbers(question, "date")?;
    Ok(pattern.day_match(year, month, day, weekday(question, "weekday")?)?)
}

fn is_matched(pattern: &CronPattern, question: &Value, op: &str) -> Result<bool> {
    match op {
        "year_match" => Ok(pattern.year_match(number_at(question, "value")?)?),
        "month_match" => Ok(pattern.month_match(number_at(question, "value")?)?),
        "hour_match" => Ok(pattern.hour_match(number_at(question, "value")?)?),
        "minute_match" => Ok(pattern.minute_match(number_at(question, "value")?)?),
        "second_match" => Ok(pattern.second_match(number_at(question, "value")?)?),
        _ => Err(Fault::Unsupported),
    }
}

/// The field of a pattern by its name.
pub fn field_at<'p>(pattern: &'p mut CronPattern, name: &str) -> Result<&'p mut CronComponent> {
    match name {
        "seconds" => Ok(&mut pattern.seconds),
        "minutes" => Ok(&mut pattern.minutes),
        "hours" => Ok(&mut pattern.hours),
        "days" => Ok(&mut pattern.days),
        "months" => Ok(&mut pattern.months),
        "days_of_week" => Ok(&mut pattern.days_of_week),
        "years" => Ok(&mut pattern.years),
        _ => Err(Fault::Malformed),
    }
}

/// A call of the pattern of a text, with one of its fields emptied if the question names it; and what the pattern holds afterwards.
pub fn call_of_pattern(
    caller: Caller<'_>,
    question: &Value,
    op: &str,
    after: &mut String,
) -> Result<Value> {
    let Cron { mut pattern } = Job::read(caller.alloc, question)?.into_cron();
    let answer = answer_of_changed(caller, &mut pattern, question, op, after);
    drop(pattern);
    answer
}

fn answer_of_changed(
    caller: Caller<'_>,
    pattern: &mut CronPattern,
    question: &Value,
    op: &str,
    after: &mut String,
) -> Result<Value> {
    if let Some(name) = question.get("emptied") {
        *field_at(pattern, word(name)?)? = CronComponent::default(caller.alloc);
    }
    caller.begin();
    let answer = answer_of_call(pattern, question, op);
    caller.end();
    shown::add_pattern(caller.alloc, pattern, after)?;
    answer
}
