//! The seconds, minutes and hours of a pattern in words.

ghost use Rattle.std.specs.Prelude.{◌≡◌, ◌&&◌, not, map, string_bytes};
ghost use Rattle.croner_pattern.specs.Description.{at_one_minute, hours_part, is_all, is_one_value, is_stepped, is_zero, minutes_part, minutes_text, parts_text, past_hours, seconds_part, stand_alone, time_parts, times_text, first_value};
ghost use Rattle.croner_pattern.specs.Private.Lists.{AddsTexts, ListsTexts};
ghost use Rattle.croner_pattern.specs.Meaning.{meaning_of};
ghost use Rattle.croner_words.specs.Writes.{Writes};

use crate::describe::fields::{
    first_value, is_all, is_one, is_one_value, is_stepped, is_zero, numbers,
};
use crate::describe::lists::{join, push_part, push_phrase};
use crate::pattern::CronPattern;
use croner_base::component::{ALL_BIT, CronComponent};
use croner_base::errors::CronError;
use croner_words::language::Language;
use std::alloc::Global;

/// Whether the pattern names each second.
fn is_each_second(pattern: &CronPattern) -> bool
    ensures { let m = meaning_of pattern.now in result ≡ (is_all m.seconds && (is_all m.minutes && is_all m.hours)) }
{
    is_all(&pattern.seconds) && is_all(&pattern.minutes) && is_all(&pattern.hours)
}

/// Whether the pattern names each minute, at its second 0.
fn is_each_minute(pattern: &CronPattern) -> bool
    ensures { let m = meaning_of pattern.now in result ≡ (is_zero m.seconds && (is_all m.minutes && is_all m.hours)) }
{
    is_zero(&pattern.seconds) && is_all(&pattern.minutes) && is_all(&pattern.hours)
}

/// Whether the pattern names every so many minutes of each hour, at second 0.
fn is_each_step_of_minutes(pattern: &CronPattern) -> bool
    ensures { let m = meaning_of pattern.now in result ≡ (is_zero m.seconds && (is_stepped m.minutes && is_all m.hours)) }
{
    is_zero(&pattern.seconds) && is_stepped(&pattern.minutes) && is_all(&pattern.hours)
}

/// Whether the pattern names one minute of the day, and not each second of it.
fn is_one_minute(pattern: &CronPattern) -> bool
    ensures { let m = meaning_of pattern.now in result
        ≡ (not (is_all m.seconds) && (is_one_value m.hours && is_one_value m.minutes)) }
{
    !is_all(&pattern.seconds) && is_one_value(&pattern.hours) && is_one_value(&pattern.minutes)
}

/// Whether the pattern names each minute of some hours, at second 0.
fn is_each_minute_of_hours(pattern: &CronPattern) -> bool
    ensures { let m = meaning_of pattern.now in result
        ≡ (is_zero m.seconds && (is_all m.minutes && not (is_all m.hours))) }
{
    is_zero(&pattern.seconds) && is_all(&pattern.minutes) && !is_all(&pattern.hours)
}

/// Whether the pattern names each second of some hours.
fn is_each_second_of_hours(pattern: &CronPattern) -> bool
    ensures { let m = meaning_of pattern.now in result
        ≡ (is_all m.seconds && (is_all m.minutes && not (is_all m.hours))) }
{
    is_all(&pattern.seconds) && is_all(&pattern.minutes) && !is_all(&pattern.hours)
}

/// The hours in which something repeats.
fn past_hours<L: Language>(
    alloc: Global,
    language: &L,
    hours: &CronComponent,
) -> Result<String, CronError>
    ensures { Writes (past_hours (L.meaning language.now) hours.now) result }
{
    if is_stepped(hours) {
        return language.every_x_hours(alloc, hours.step());
    }
    let numbers = numbers(alloc, language, hours, ALL_BIT)?;
    language.past_hour_phrase(alloc, numbers.as_str())
}

/// The seconds within one minute of the day.
fn at_one_minute<L: Language>(
    alloc: Global,
    language: &L,
    within: &CronComponent,
    hour: u16,
    minute: u16,
) -> Result<String, CronError>
    ensures { Writes (at_one_minute (L.meaning language.now) within.now hour minute) result }
{
    if is_zero(within) {
        let time = language.time_of_day(alloc, hour, minute, None)?;
        return language.at_time(alloc, time.as_str());
    }
    if is_stepped(within) {
        let time = language.time_of_day(alloc, hour, minute, None)?;
        return language.at_time_and_every_x_seconds(alloc, time.as_str(), within.step());
    }
    if is_one(within) {
        let second = first_value(within);
        let time = language.time_of_day(alloc, hour, minute, Some(second))?;
        return language.at_time(alloc, time.as_str());
    }
    let time = language.time_of_day(alloc, hour, minute, None)?;
    let numbers = numbers(alloc, language, within, ALL_BIT)?;
    language.at_time_at_second(alloc, time.as_str(), numbers.as_str())
}

/// The seconds, as a part of a time.
fn push_seconds<L: Language>(
    alloc: Global,
    parts: &mut Vec<String>,
    language: &L,
    seconds: &CronComponent,
) -> Result<(), CronError>
    ensures { AddsTexts (seconds_part (L.meaning language.now) seconds.now) parts.old parts.new result }
{
    if is_all(seconds) {
        return push_phrase(alloc, parts, language.every_second_phrase());
    }
    if is_zero(seconds) {
        return Ok(());
    }
    if is_stepped(seconds) {
        let part = language.every_x_seconds(alloc, seconds.step())?;
        return push_part(parts, part);
    }
    let numbers = numbers(alloc, language, seconds, ALL_BIT)?;
    let part = language.second_phrase(alloc, numbers.as_str())?;
    push_part(parts, part)
}

/// A list of minutes, of each hour or of some.
fn minutes_text<L: Language>(
    alloc: Global,
    language: &L,
    minutes: &CronComponent,
    each_hour: bool,
) -> Result<String, CronError>
    ensures { Writes (minutes_text (L.meaning language.now) minutes.now each_hour) result }
{
    let numbers = numbers(alloc, language, minutes, ALL_BIT)?;
    let phrase = language.minute_phrase(alloc, numbers.as_str())?;
    if each_hour {
        return language.minute_past_every_hour_phrase(alloc, phrase.as_str());
    }
    Ok(phrase)
}

/// The minutes, as a part of a time.
fn push_minutes<L: Language>(
    alloc: Global,
    parts: &mut Vec<String>,
    language: &L,
    minutes: &CronComponent,
    hours: &CronComponent,
) -> Result<(), CronError>
    ensures { AddsTexts (minutes_part (L.meaning language.now) minutes.now hours.now) parts.old parts.new result }
{
    if is_stepped(minutes) {
        let part = language.every_x_minutes(alloc, minutes.step())?;
        return push_part(parts, part);
    }
    if is_all(minutes) {
        return Ok(());
    }
    let part = minutes_text(alloc, language, minutes, is_all(hours))?;
    push_part(parts, part)
}

/// The hours, as a part of a time.
fn push_hours<L: Language>(
    alloc: Global,
    parts: &mut Vec<String>,
    language: &L,
    hours: &CronComponent,
) -> Result<(), CronError>
    ensures { AddsTexts (hours_part (L.meaning language.now) hours.now) parts.old parts.new result }
{
    if is_all(hours) {
        return Ok(());
    }
    if is_stepped(hours) {
        let part = language.every_x_hours(alloc, hours.step())?;
        return push_part(parts, part);
    }
    let numbers = numbers(alloc, language, hours, ALL_BIT)?;
    let part = language.hour_phrase(alloc, numbers.as_str())?;
    push_part(parts, part)
}

/// The parts of a time that has no form of its own.
fn time_parts<L: Language>(
    alloc: Global,
    language: &L,
    pattern: &CronPattern,
) -> Result<Vec<String>, CronError>
    ensures { ListsTexts (time_parts (L.meaning language.now) (meaning_of pattern.now)) result }
{
    let mut parts = Vec::new(alloc);
    push_seconds(alloc, &mut parts, language, &pattern.seconds)?;
    push_minutes(
        alloc,
        &mut parts,
        language,
        &pattern.minutes,
        &pattern.hours,
    )?;
    push_hours(alloc, &mut parts, language, &pattern.hours)?;
    Ok(parts)
}

/// Whether there is more than one part, and the first is each second.
fn stand_alone<L: Language>(language: &L, parts: &[String]) -> bool
    ensures { result ≡ stand_alone (L.meaning language.now) (map string_bytes parts.now) }
{
    parts.len() > 1 && parts[0].as_str() == language.every_second_phrase()
}

/// The parts of a time, put together.
fn parts_text<L: Language>(
    alloc: Global,
    language: &L,
    parts: &[String],
) -> Result<String, CronError>
    ensures { Writes (parts_text (L.meaning language.now) (map string_bytes parts.now)) result }
{
    if parts.is_empty() {
        return Ok(String::from_str(alloc, language.every_minute())?);
    }
    let text = join(alloc, parts)?;
    if stand_alone(language, parts) {
        return Ok(text);
    }
    language.at_phrase(alloc, text.as_str())
}

/// One minute of the day.
fn one_minute_text<L: Language>(
    alloc: Global,
    language: &L,
    pattern: &CronPattern,
) -> Result<String, CronError>
    ensures { let m = meaning_of pattern.now in
        Writes (at_one_minute (L.meaning language.now) m.seconds (first_value m.hours) (first_value m.minutes)) result }
{
    let hour = first_value(&pattern.hours);
    let minute = first_value(&pattern.minutes);
    at_one_minute(alloc, language, &pattern.seconds, hour, minute)
}

/// A phrase that repeats in some hours.
fn repeated_text<L: Language>(
    alloc: Global,
    language: &L,
    every: &str,
    hours: &CronComponent,
) -> Result<String, CronError>
    ensures { let w = L.meaning language.now in Writes (w.every_past_phrase every.now (past_hours w hours.now)) result }
{
    let hours = past_hours(alloc, language, hours)?;
    language.every_past_phrase(alloc, every, hours.as_str())
}

/// The time.
pub(crate) fn times_text<L: Language>(
    alloc: Global,
    language: &L,
    pattern: &CronPattern,
) -> Result<String, CronError>
    ensures { Writes (times_text (L.meaning language.now) (meaning_of pattern.now)) result }
{
    if is_each_second(pattern) {
        return Ok(String::from_str(alloc, language.every_second_phrase())?);
    }
    if is_each_minute(pattern) {
        return Ok(String::from_str(alloc, language.every_minute())?);
    }
    if is_each_step_of_minutes(pattern) {
        let minutes = language.every_x_minutes(alloc, pattern.minutes.step())?;
        return language.at_phrase(alloc, minutes.as_str());
    }
    if is_one_minute(pattern) {
        return one_minute_text(alloc, language, pattern);
    }
    if is_each_minute_of_hours(pattern) {
        return repeated_text(alloc, language, language.every_minute(), &pattern.hours);
    }
    if is_each_second_of_hours(pattern) {
        return repeated_text(
            alloc,
            language,
            language.every_second_phrase(),
            &pattern.hours,
        );
    }
    let parts = time_parts(alloc, language, pattern)?;
    parts_text(alloc, language, parts.as_slice())
}
