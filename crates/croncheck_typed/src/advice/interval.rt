//! Intervals, as `1h`, `every 5 minutes`, `@every 90m` and `rate(5 minutes)`.

use std::alloc::{AllocError, Global};

const MINUTES_PER_HOUR: u32 = 60;

const HOURS_PER_DAY: u32 = 24;

const MINUTES_PER_DAY: u32 = 1_440;

/// An hour and a half, in minutes.
const HOUR_AND_HALF: u32 = 90;

/// What to write in place of an interval of minutes, hours or days.
pub(super) fn advice_on_interval(alloc: Global, text: &str) -> Result<Option<String>, AllocError> {
    let text = text.to_ascii_lowercase(alloc)?;
    match minutes_in(text.as_str()) {
        Some(minutes) => Ok(Some(advice_on_minutes(alloc, minutes)?)),
        None => Ok(None),
    }
}

// How many minutes an interval has.
fn minutes_in(text: &str) -> Option<u32> {
    let mut words = length_in(text).split_whitespace();
    let (first, second) = (words.next()?, words.next());
    if words.next().is_some() {
        return None;
    }
    match second {
        Some(unit) => minutes_of(first, unit),
        None => minutes_of_word(first, text),
    }
}

// The length of an interval, without what stands around it.
fn length_in(text: &str) -> &str {
    if let Some(length) = text.strip_prefix("rate(") {
        return length.strip_suffix(')').unwrap_or(length);
    }
    if let Some(length) = text.strip_prefix("@every ") {
        return length;
    }
    text.strip_prefix("every ").unwrap_or(text)
}

// The minutes of one word: a number with its unit, or of `every` and a unit one.
fn minutes_of_word(word: &str, text: &str) -> Option<u32> {
    let unit = word.trim_start_matches(is_digit);
    let number = word.strip_suffix(unit).unwrap_or("");
    if number.is_empty() && !text.starts_with("every ") {
        return None;
    }
    minutes_of(number, unit)
}

fn is_digit(sign: char) -> bool {
    sign.is_ascii_digit()
}

// The minutes of a number of units; without a number, of one.
fn minutes_of(number: &str, unit: &str) -> Option<u32> {
    let count = if number.is_empty() {
        1
    } else {
        number.parse::<u32>().ok()?
    };
    count.checked_mul(minutes_per(unit)?)
}

fn minutes_per(unit: &str) -> Option<u32> {
    match unit {
        "m" | "min" | "mins" | "minute" | "minutes" => Some(1),
        "h" | "hr" | "hrs" | "hour" | "hours" => Some(MINUTES_PER_HOUR),
        "d" | "day" | "days" => Some(MINUTES_PER_DAY),
        _ => None,
    }
}

// What to write for an interval of so many minutes.
fn advice_on_minutes(alloc: Global, minutes: u32) -> Result<String, AllocError> {
    if minutes == MINUTES_PER_DAY {
        return String::from_str(alloc, "Write 0 0 * * * for each day");
    }
    if 0 < minutes && minutes < MINUTES_PER_HOUR && MINUTES_PER_HOUR % minutes == 0 {
        return format!(in alloc; "Write */{minutes} * * * * for this interval");
    }
    if minutes % MINUTES_PER_HOUR == 0 {
        return advice_on_hours(alloc, minutes / MINUTES_PER_HOUR);
    }
    advice_on_no_step(alloc, minutes)
}

// What to write for an interval of so many hours, which is no day.
fn advice_on_hours(alloc: Global, hours: u32) -> Result<String, AllocError> {
    if hours == 1 {
        return String::from_str(alloc, "Write 0 * * * * for each hour");
    }
    if 0 < hours && hours < HOURS_PER_DAY && HOURS_PER_DAY % hours == 0 {
        return format!(in alloc; "Write 0 */{hours} * * * for this interval");
    }
    advice_on_no_step(alloc, hours.saturating_mul(MINUTES_PER_HOUR))
}

// What to write for an interval that no step is.
fn advice_on_no_step(alloc: Global, minutes: u32) -> Result<String, AllocError> {
    let text = if minutes == HOUR_AND_HALF {
        "No single pattern starts every 90 minutes. Write two lines: 0 */3 * * * and 30 1-23/3 * * *"
    } else {
        "No single pattern has this interval: a step begins anew with each hour, day and month. Write a step that divides 60 minutes or 24 hours, such as */5 * * * * or 0 */6 * * *"
    };
    String::from_str(alloc, text)
}
