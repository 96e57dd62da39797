//! The days of a pattern in phrases.

ghost use Rattle.std.specs.Prelude.{◌≡◌, IsTrue, IfOk, IfErr};
ghost use Rattle.croner_pattern.specs.Meaning.{meaning_of};
ghost use Rattle.croner_summary.specs.Lengths.{AreShort, IsShort};
ghost use Rattle.croner_summary.specs.Order.{AreDaysInOrder, AreMonthDaysInOrder, AreWeekdaysInOrder, IsInOrder};
ghost use Rattle.croner_summary.specs.Private.Exact.{IsExact};
ghost use Rattle.croner_summary.specs.Private.ExactDays.{IsFromEnd, AreMonthDays, AreWeekdays, AreDays, HasAllWeek};

use crate::days::{Days, FromEnd, MonthDays, Weekdays};
use crate::exact::has;
use crate::field::{marked_phrase, plain_phrase};
use crate::phrase::Phrase;
use crate::pieces::SATURDAY;
use croner_base::component::{
    ALL_BIT, CLOSEST_WEEKDAY_BIT, CronComponent, LAST_BIT, NTH_1ST_BIT, NTH_2ND_BIT, NTH_3RD_BIT,
    NTH_4TH_BIT, NTH_5TH_BIT,
};
use croner_base::errors::CronError;
use croner_pattern::pattern::CronPattern;
use std::alloc::Global;

/// The longest month, in days.
const LONGEST_MONTH: u16 = 31;

/// The day that the field counts from the end of the month.
fn from_end(days: &CronComponent) -> FromEnd
    ensures { IsFromEnd days.now result }
{
    if !days.is_feature_enabled(LAST_BIT) {
        return FromEnd::Neither;
    }
    if days.is_feature_enabled(CLOSEST_WEEKDAY_BIT) {
        FromEnd::LastWorkingDay
    } else {
        FromEnd::LastDay
    }
}

/// The days of the month that the field names.
fn month_days(alloc: Global, days: &CronComponent) -> Result<MonthDays, CronError>
    ensures ok { IfOk result (AreMonthDays days.now) }
    ensures short { IfOk result (λ month. IsShort 1 31 month.numbers) }
    ensures ordered { IfOk result AreMonthDaysInOrder }
    ensures err { IfErr result (λ e. e ≡ CronError.OutOfMemory) }
{
    let numbers = plain_phrase(alloc, 1, LONGEST_MONTH, days)?;
    let nearest = marked_phrase(alloc, 1, LONGEST_MONTH, CLOSEST_WEEKDAY_BIT, days)?;
    Ok(MonthDays {
        numbers,
        from_end: from_end(days),
        nearest,
    })
}

/// The weekdays that have a modifier.
fn weekday_phrase(alloc: Global, bit: u8, weekdays: &CronComponent) -> Result<Phrase, CronError>
    ensures ok { IfOk result (IsExact 0 6 bit weekdays.now) }
    ensures ordered { IfOk result (IsInOrder 0 6) }
    ensures err { IfErr result (λ e. e ≡ CronError.OutOfMemory) }
{
    marked_phrase(alloc, 0, SATURDAY, bit, weekdays)
}

/// The weekdays that the field names.
fn weekdays(alloc: Global, weekdays: &CronComponent) -> Result<Weekdays, CronError>
    ensures ok { IfOk result (AreWeekdays weekdays.now) }
    ensures short { IfOk result (λ week. IsShort 0 6 week.each) }
    ensures ordered { IfOk result AreWeekdaysInOrder }
    ensures err { IfErr result (λ e. e ≡ CronError.OutOfMemory) }
{
    let each = plain_phrase(alloc, 0, SATURDAY, weekdays)?;
    let first = weekday_phrase(alloc, NTH_1ST_BIT, weekdays)?;
    let second = weekday_phrase(alloc, NTH_2ND_BIT, weekdays)?;
    let third = weekday_phrase(alloc, NTH_3RD_BIT, weekdays)?;
    let fourth = weekday_phrase(alloc, NTH_4TH_BIT, weekdays)?;
    let fifth = weekday_phrase(alloc, NTH_5TH_BIT, weekdays)?;
    let last = weekday_phrase(alloc, LAST_BIT, weekdays)?;
    Ok(Weekdays {
        each,
        first,
        second,
        third,
        fourth,
        fifth,
        last,
    })
}

/// Whether the field names every weekday, each time it occurs.
fn has_all_week(weekdays: &CronComponent) -> bool
    ensures { IsTrue result → HasAllWeek weekdays.now }
{
    for weekday in 0..SATURDAY + 1 {
        if !has(weekdays, ALL_BIT, weekday) {
            return false;
        }
    }
    true
}

/// The days of both fields, where both of them are written as `*`, or neither.
fn joined_days(alloc: Global, pattern: &CronPattern) -> Result<Days, CronError>
    requires { (meaning_of pattern.now).star_day ≡ (meaning_of pattern.now).star_weekday }
    ensures ok { IfOk result (AreDays (meaning_of pattern.now)) }
    ensures short { IfOk result AreShort }
    ensures ordered { IfOk result AreDaysInOrder }
    ensures err { IfErr result (λ e. e ≡ CronError.OutOfMemory) }
{
    let month = month_days(alloc, &pattern.days)?;
    let week = weekdays(alloc, &pattern.days_of_week)?;
    if pattern.matches_dom_and_dow() && !pattern.is_dom_wildcard() {
        Ok(Days::Both(month, week))
    } else {
        Ok(Days::Either(month, week))
    }
}

/// The days that fit a pattern.
pub(crate) fn days_of(alloc: Global, pattern: &CronPattern) -> Result<Days, CronError>
    ensures ok { IfOk result (AreDays (meaning_of pattern.now)) }
    ensures short { IfOk result AreShort }
    ensures ordered { IfOk result AreDaysInOrder }
    ensures err { IfErr result (λ e. e ≡ CronError.OutOfMemory) }
{
    if pattern.is_dom_wildcard() && has_all_week(&pattern.days_of_week) {
        return Ok(Days::Every);
    }
    if pattern.is_dom_wildcard() == pattern.is_dow_wildcard() {
        return joined_days(alloc, pattern);
    }
    if pattern.is_dom_wildcard() {
        return Ok(Days::OfWeek(weekdays(alloc, &pattern.days_of_week)?));
    }
    Ok(Days::OfMonth(month_days(alloc, &pattern.days)?))
}
