//! The calendar and tables of offsets, whose calls take no memory, and tables of zones, which take memory for their changes.

use croner::errors::CronError;
use croner::time::table::{ClockTable, TableTime};
use croner::time::{
    CivilDate, CivilDateTime, CivilTime, CronDateTime, Resolution, Weekday, day_of_year,
    days_in_month, days_in_year, is_leap_year,
};
use croner_rows::shown::{object, text};
use croner_rows::{Caller, Fault, Result, are_alike, number, number_at, table_of, three_numbers};
use serde_json::Value;
use std::alloc::Global;

const SECONDS_PER_DAY: i64 = 86_400;

// The bytes reserved for the text of a date and time.
const TEXT_BYTES: usize = 64;

/// Questions about a date: its text, whether its year is a leap year, the year's days, the month's days, and the day of the year.
/// Also whether all ways of making the date give it; or that there is no such date.
pub fn calendar(caller: Caller<'_>, question: &Value) -> Result<Value> {
    let (year, month, day) = three_numbers(question, "date")?;
    caller.begin();
    let date = CivilDate::from_ymd(year, month, day);
    let found = CivilDate::from_ymd_opt(year, month, day);
    let (leap, days) = (is_leap_year(year), days_in_year(year));
    caller.end();
    match date {
        Ok(date) => shown_date(caller, date, found, (leap, days)),
        Err(error) if found.is_none() => Err(Fault::from(error)),
        Err(_) => Err(Fault::Malformed),
    }
}

fn shown_date(
    caller: Caller<'_>,
    date: CivilDate,
    found: Option<CivilDate>,
    year: (bool, u32),
) -> Result<Value> {
    caller.begin();
    let (length, place) = (date.days_in_month(), date.day_of_year());
    let same = found == Some(date) && is_same_date(date);
    caller.end();
    let (leap, days) = year;
    let text = format!(in caller.alloc; "[\"{date}\",{leap},{days},{length},{place},{same}]");
    object(caller.alloc, text)
}

// Whether the free functions say of a date what its own say, and its parts give it again.
fn is_same_date(date: CivilDate) -> bool {
    let (year, month, day) = (date.year(), date.month(), date.day());
    let again = CivilDate::from_parts_unchecked(year, month, day);
    let length = days_in_month(year, month);
    let place = day_of_year(year, month, day);
    let is_told_alike = length == date.days_in_month() && place == date.day_of_year();
    is_told_alike && are_alike(&again, &date)
}

/// The weekday that many days from Sunday, and the one so many days later.
pub fn weekday(caller: Caller<'_>, question: &Value) -> Result<Value> {
    let (days, shift): (_, i16) = (number_at(question, "days")?, number_at(question, "shift")?);
    caller.begin();
    let weekday = Weekday::from_days_from_sunday(days);
    let later = weekday.shift(shift as i32);
    let (days, days_later) = (weekday.num_days_from_sunday(), later.num_days_from_sunday());
    let same = are_alike(&weekday, &weekday);
    caller.end();
    let text = format!(in caller.alloc; "[{days},{days_later},{same}]");
    object(caller.alloc, text)
}

/// The time of day of an hour, a minute and a second, or that there is none.
pub fn clock_face(caller: Caller<'_>, question: &Value) -> Result<Value> {
    let (hour, minute, second) = three_numbers(question, "time")?;
    caller.begin();
    let time = CivilTime::from_hms_opt(hour, minute, second);
    caller.end();
    match time {
        Some(time) => shown_time(caller, time),
        None => Ok(Value::Null),
    }
}

fn shown_time(caller: Caller<'_>, time: CivilTime) -> Result<Value> {
    caller.begin();
    let (hour, minute, second) = (time.hour(), time.minute(), time.second());
    let same = is_same_time(time);
    caller.end();
    let text = format!(in caller.alloc; "[{hour},{minute},{second},{same}]");
    object(caller.alloc, text)
}

// Whether a time of day lies in the day, and its parts give it again.
fn is_same_time(time: CivilTime) -> bool {
    let again = CivilTime::from_parts_unchecked(time.hour(), time.minute(), time.second());
    let is_in_day = CivilTime::MIDNIGHT <= time && time <= CivilTime::END_OF_DAY;
    is_in_day && are_alike(&again, &time)
}

/// The date and time of six numbers: its text, written into memory reserved before, and its numbers; or its refusal.
pub fn date_and_time(caller: Caller<'_>, question: &Value) -> Result<Value> {
    let (year, month, day) = three_numbers(question, "date")?;
    let (hour, minute, second) = three_numbers(question, "time")?;
    caller.begin();
    let civil = CivilDateTime::from_ymd_hms(year, month, day, hour, minute, second);
    let found = CivilDateTime::from_ymd_hms_opt(year, month, day, hour, minute, second);
    caller.end();
    match civil {
        Ok(civil) => shown_civil(caller, civil, found),
        Err(error) => Err(Fault::from(error)),
    }
}

fn shown_civil(
    caller: Caller<'_>,
    civil: CivilDateTime,
    found: Option<CivilDateTime>,
) -> Result<Value> {
    let mut text = String::with_capacity(caller.alloc, TEXT_BYTES)?;
    caller.begin();
    let written = write!(text, "{civil}");
    let (year, month, day) = (civil.year(), civil.month(), civil.day());
    let (hour, minute, second) = (civil.hour(), civil.minute(), civil.second());
    let same = found == Some(civil) && is_same_civil(civil);
    caller.end();
    written?;
    let text = format!(in caller.alloc;
        "[\"{text}\",{year},{month},{day},{hour},{minute},{second},{same}]"
    );
    object(caller.alloc, text)
}

// Whether the date and the time of day give the date and time again.
fn is_same_civil(civil: CivilDateTime) -> bool {
    let again = CivilDateTime::new(civil.date(), civil.time());
    are_alike(&again, &civil)
}

/// The table of a clock, and calls of a second on it, if the question has one: how many instants show what it shows, and the second
/// a day later.
pub fn clock_table(caller: Caller<'_>, question: &Value) -> Result<Value> {
    let table = table_of(caller, question)?;
    match question.get("second") {
        Some(second) => second_on(caller, &table, number(second)?),
        None => text(caller.alloc, "ok"),
    }
}

fn second_on(caller: Caller<'_>, table: &ClockTable, second: i64) -> Result<Value> {
    caller.begin();
    let time = TableTime::new(table, second);
    caller.end();
    match time {
        Ok(time) => calls_of_time(caller, &time),
        Err(_) => text(caller.alloc, "no such second"),
    }
}

fn calls_of_time(caller: Caller<'_>, time: &TableTime<'_>) -> Result<Value> {
    caller.begin();
    let copy = *time;
    let shown = time.to_civil();
    let found = time.resolve_civil(caller.alloc, shown);
    let later = time.checked_add_seconds(caller.alloc, SECONDS_PER_DAY);
    let same = time.cmp_instant(&copy).is_eq() && time.civil_weekday() == copy.civil_weekday();
    caller.end();
    let (count, second) = (count_of(&found), second_of(&later));
    told_of_time(caller.alloc, shown, count, second, same)
}

fn told_of_time(
    alloc: Global,
    shown: CivilDateTime,
    count: u32,
    second: i64,
    same: bool,
) -> Result<Value> {
    let text = format!(in alloc; "[\"{shown}\",{count},{second},{same}]");
    object(alloc, text)
}

// How many instants were found.
fn count_of(found: &Result<Resolution<TableTime<'_>>, CronError>) -> u32 {
    match found {
        Ok(Resolution::Ambiguous(_, _)) => 2,
        Ok(Resolution::Single(_)) => 1,
        Ok(Resolution::Gap) | Err(_) => 0,
    }
}

// The second of a sum, 0 where there is none.
fn second_of(sum: &Result<Option<TableTime<'_>>, CronError>) -> i64 {
    match sum {
        Ok(Some(time)) => time.second(),
        Ok(None) | Err(_) => 0,
    }
}
