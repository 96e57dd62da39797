//! What the texts of fields show.
ghost use Rattle.std.specs.Prelude.{◌≡◌, IfOk, IfErr, map, option_map};
ghost use Rattle.std.specs.List.{list_any};
ghost use Rattle.croner.specs.parser.Grammar.{seven};
ghost use Rattle.croner.specs.parser.Words.{AreWords};
ghost use Rattle.crontab.specs.Line.{words_of};
ghost use Rattle.crontab.specs.List.{names_nothing};
ghost use Rattle.croncheck_warnings.specs.Warnings.{texts_of_five, fields_of_schedule, AreFieldsOfPattern, bounds_of_field, text_of_field, parts_in, turn_of, is_long_step, has_long_step, has_uneven_step, is_beyond, has_step_beyond, is_one_range, has_hours_in_range, has_range_down, has_passed_over, has_large_number, has_other_name, has_hidden_field, has_empty_item, has_empty_items, fields_seen};

use super::hidden::has_hidden_within;
use croner::errors::CronError;
use croner::parser::PatternField;
use crontab::bytes::begins_with;
use crontab::field::{FieldBounds, Names, SteppedRange};
use crontab::line::word;
use crontab::list::{is_uneven, names_nothing, parts_of};
use crontab::notes;
use std::alloc::{AllocError, Global};

/// Up to this step of the seconds or minutes a job runs at least four times in a minute or an hour.
const LONGEST_SHORT_STEP: u64 = 15;

/// The texts of the fields of a job or a pattern, as they are written. If there are no seconds, they are `0`; if there are no years, they
/// are `*`.
#[derive(Clone, Copy)]
pub struct Fields<'l> {
    pub seconds: &'l [u8],
    pub minutes: &'l [u8],
    pub hours: &'l [u8],
    pub days: &'l [u8],
    pub months: &'l [u8],
    pub weekdays: &'l [u8],
    pub years: &'l [u8],
}

/// The fields of a job's times as they are written. `None` for a nickname.
pub fn fields_of_schedule(schedule: &[u8]) -> Option<Fields<'_>>
    ensures { option_map fields_seen result ≡ fields_of_schedule schedule.now }
{
    if begins_with(schedule, b'@') {
        return None;
    }
    Some(fields_of_five(schedule))
}

// The fields of five words.
fn fields_of_five(text: &[u8]) -> Fields<'_>
    ensures { fields_seen result ≡ texts_of_five (words_of text.now) }
{
    let (minutes, rest) = word(text);
    let (hours, rest) = word(rest);
    let (days, rest) = word(rest);
    let (months, rest) = word(rest);
    let (weekdays, _) = word(rest);
    Fields {
        seconds: "0".as_bytes(),
        minutes,
        hours,
        days,
        months,
        weekdays,
        years: "*".as_bytes(),
    }
}

/// The fields of a pattern as they are written. `None` unless it has five to seven words. The only error is lack of memory.
pub fn fields_of_pattern(alloc: Global, text: &str) -> Result<Option<Fields<'_>>, AllocError>
    ensures { IfOk result (λ fields. AreFieldsOfPattern text.now (option_map fields_seen fields)) }
{
    let words = words_of(alloc, text)?;
    Ok(fields_by_count(words.as_slice()))
}

// The words of a text: its pieces between white space.
fn words_of(alloc: Global, text: &str) -> Result<Vec<&[u8]>, AllocError>
    ensures { IfOk result (λ words. AreWords text.now (map (λ w. w.now) words.items)) }
{
    let mut words = Vec::new(alloc);
    for word in text.split_whitespace() {
        words.push(word.as_bytes())?;
    }
    Ok(words)
}

// Words as fields: five have no seconds, and five or six no years.
fn fields_by_count<'l>(words: &[&'l [u8]]) -> Option<Fields<'l>>
    ensures { option_map fields_seen result ≡ seven (map (λ w. w.now) words.now) }
{
    match words {
        [minutes, hours, days, months, weekdays] => Some(Fields {
            seconds: "0".as_bytes(),
            minutes,
            hours,
            days,
            months,
            weekdays,
            years: "*".as_bytes(),
        }),
        [seconds, minutes, hours, days, months, weekdays] => Some(Fields {
            seconds,
            minutes,
            hours,
            days,
            months,
            weekdays,
            years: "*".as_bytes(),
        }),
        [seconds, minutes, hours, days, months, weekdays, years] => Some(Fields {
            seconds,
            minutes,
            hours,
            days,
            months,
            weekdays,
            years,
        }),
        _ => None,
    }
}

fn bounds(first: u64, last: u64, names: Names) -> FieldBounds
    ensures { result ≡ record { first = first; last = last; names = names } }
{
    FieldBounds { first, last, names }
}

/// The values of a field.
pub fn bounds_of_field(field: PatternField) -> FieldBounds
    ensures { result ≡ bounds_of_field field }
{
    match field {
        PatternField::Seconds | PatternField::Minutes => bounds(0, 59, Names::None),
        PatternField::Hours => bounds(0, 23, Names::None),
        PatternField::DayOfMonth => bounds(1, 31, Names::None),
        PatternField::Month => bounds(1, 12, Names::Months),
        PatternField::Weekday => bounds(0, 7, Names::Weekdays),
        PatternField::Year => bounds(1, 5_000, Names::None),
    }
}

/// How many values there are up to where a field of a time begins anew; 0 for the fields of a date.
pub fn turn_of(field: PatternField) -> u64
    ensures { result ≡ turn_of field }
{
    match field {
        PatternField::Seconds | PatternField::Minutes => 60,
        PatternField::Hours => 24,
        _ => 0,
    }
}

// Whether a step leaves at most four runs of a minute or an hour. Of hours any step counts.
fn is_long_step(field: PatternField, step: u64) -> bool
    ensures { result ≡ is_long_step field step }
{
    match field {
        PatternField::Hours => true,
        PatternField::Seconds
        | PatternField::Minutes
        | PatternField::DayOfMonth
        | PatternField::Month
        | PatternField::Weekday
        | PatternField::Year => LONGEST_SHORT_STEP < step,
    }
}

// Whether a field's first part has a step that is long for it.
fn has_long_step(field: PatternField, parts: &[SteppedRange]) -> bool
    ensures { result ≡ has_long_step field parts.now }
{
    match parts {
        [part, ..] => is_long_step(field, part.step),
        [] => false,
    }
}

/// Whether a range names its first value alone, since the next one is past its end.
pub fn is_beyond(part: &SteppedRange) -> bool
    ensures { result ≡ is_beyond part.now }
{
    1 < part.step && part.first <= part.last && part.last - part.first < part.step
}

fn any_beyond(parts: &[SteppedRange]) -> bool
    ensures { result ≡ list_any is_beyond parts.now }
{
    parts.iter().any(|part| is_beyond(part))
}

// Whether a field is several values in a row, as one range without a step.
fn is_one_range(parts: &[SteppedRange]) -> bool
    ensures { result ≡ is_one_range parts.now }
{
    match parts {
        [part] => !part.is_star && part.step == 1 && part.first < part.last,
        _ => false,
    }
}

fn any_down(parts: &[SteppedRange]) -> bool
    ensures { result ≡ list_any names_nothing parts.now }
{
    parts.iter().any(|part| names_nothing(part))
}

// Whether an item of a field's list is empty.
fn has_empty_item(field: &[u8]) -> bool
    ensures { result ≡ has_empty_item field.now }
{
    for item in field.split(|byte| *byte == b',') {
        if item.is_empty() {
            return true;
        }
    }
    false
}

impl<'l> Fields<'l> {
    /// The text of a field.
    pub fn text_of(&self, field: PatternField) -> &'l [u8]
        ensures { result.now ≡ text_of_field field (fields_seen self.now) }
    {
        match field {
            PatternField::Seconds => self.seconds,
            PatternField::Minutes => self.minutes,
            PatternField::Hours => self.hours,
            PatternField::DayOfMonth => self.days,
            PatternField::Month => self.months,
            PatternField::Weekday => self.weekdays,
            PatternField::Year => self.years,
        }
    }

    // The parts of a field as cron reads them: none where it wouldn't take the field.
    fn parts_in(&self, alloc: Global, field: PatternField) -> Result<Vec<SteppedRange>, AllocError>
        ensures { IfOk result (λ parts. parts.items ≡ parts_in field (fields_seen self.now)) }
    {
        match parts_of(alloc, bounds_of_field(field), self.text_of(field))? {
            Some(parts) => Ok(parts),
            None => Ok(Vec::new(alloc)),
        }
    }

    /// Whether this field is that of the seconds, minutes or hours and is `*/n`, where n is below 60, 60 or 24 and doesn't divide that
    /// number, and for seconds and minutes is above 15. The only error is `OutOfMemory`.
    pub fn has_uneven_step(&self, alloc: Global, field: PatternField) -> Result<bool, CronError>
        ensures ok { IfOk result (λ yes. yes ≡ has_uneven_step field (fields_seen self.now)) }
        ensures err { IfErr result (λ e. e ≡ CronError.OutOfMemory) }
    {
        let parts = self.parts_in(alloc, field)?;
        Ok(is_uneven(turn_of(field), parts.as_slice()) && has_long_step(field, parts.as_slice()))
    }

    /// Whether a step of a field leads past the end of its range. The only error is `OutOfMemory`.
    pub fn has_step_beyond(&self, alloc: Global, field: PatternField) -> Result<bool, CronError>
        ensures ok { IfOk result (λ yes. yes ≡ has_step_beyond field (fields_seen self.now)) }
        ensures err { IfErr result (λ e. e ≡ CronError.OutOfMemory) }
    {
        let parts = self.parts_in(alloc, field)?;
        Ok(any_beyond(parts.as_slice()))
    }

    /// Whether the hours are several in a row, written as one range. The only error is `OutOfMemory`.
    pub fn has_hours_in_range(&self, alloc: Global) -> Result<bool, CronError>
        ensures ok { IfOk result (λ yes. yes ≡ has_hours_in_range (fields_seen self.now)) }
        ensures err { IfErr result (λ e. e ≡ CronError.OutOfMemory) }
    {
        let parts = self.parts_in(alloc, PatternField::Hours)?;
        Ok(is_one_range(parts.as_slice()))
    }

    /// Whether a range of a field runs down. The only error is `OutOfMemory`.
    pub fn has_range_down(&self, alloc: Global, field: PatternField) -> Result<bool, CronError>
        ensures ok { IfOk result (λ yes. yes ≡ has_range_down field (fields_seen self.now)) }
        ensures err { IfErr result (λ e. e ≡ CronError.OutOfMemory) }
    {
        let parts = self.parts_in(alloc, field)?;
        Ok(any_down(parts.as_slice()))
    }

    /// Whether cron passes over bytes of a field.
    pub fn has_passed_over(&self, field: PatternField) -> bool
        ensures { result ≡ has_passed_over field (fields_seen self.now) }
    {
        notes::has_passed_over(bounds_of_field(field), self.text_of(field))
    }

    /// Whether a number of a field is 2^32 or more.
    pub fn has_large_number(&self, field: PatternField) -> bool
        ensures { result ≡ has_large_number field (fields_seen self.now) }
    {
        notes::has_large_number(bounds_of_field(field), self.text_of(field))
    }

    /// Whether a word of a field is the name of a month or of a weekday, and not a name of this field.
    pub fn has_other_name(&self, field: PatternField) -> bool
        ensures { result ≡ has_other_name field (fields_seen self.now) }
    {
        notes::has_other_name(bounds_of_field(field), self.text_of(field))
    }

    /// Whether one of the five fields of a crontab has a byte that hides others.
    pub fn has_hidden_field(&self) -> bool
        ensures { result ≡ has_hidden_field (fields_seen self.now) }
    {
        has_hidden_within(self.minutes)
            || has_hidden_within(self.hours)
            || has_hidden_within(self.days)
            || has_hidden_within(self.months)
            || has_hidden_within(self.weekdays)
    }

    /// Whether a list of one of the fields has an empty item.
    pub fn has_empty_items(&self) -> bool
        ensures { result ≡ has_empty_items (fields_seen self.now) }
    {
        has_empty_item(self.seconds)
            || has_empty_item(self.minutes)
            || has_empty_item(self.hours)
            || has_empty_item(self.days)
            || has_empty_item(self.months)
            || has_empty_item(self.weekdays)
            || has_empty_item(self.years)
    }
}
