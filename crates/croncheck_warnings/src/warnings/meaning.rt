//! The warnings that follow from which days, months, hours and minutes a job names, however they are written.
ghost use Rattle.std.specs.Prelude.{◌≡◌, nat_lt, IfOk, IfErr, pos};
ghost use Rattle.std.specs.List.{list_any, list_all};
ghost use Rattle.jiff_core.specs.Calendar.{days_in_month};
ghost use Rattle.croner_pattern.specs.Meaning.{meaning_of};
ghost use Rattle.croner_pattern.specs.Schedule.{is_plain};
ghost use Rattle.croner.specs.Views.{job_of as meaning_of_job};
ghost use Rattle.croncheck_warnings.specs.Warnings.{names_each_day, names_each_weekday, is_one_day_side, is_either_day, names_all_days, names_each_date, is_whole_hour, is_without, is_wanting, are_late, is_only, is_leap_day, has_short_months};

use croner::component::{ALL_BIT, CronComponent};
use croner::errors::CronError;
use croner::time::is_leap_year;
use croner::{Cron, CronPattern};

/// How many days the longest month has.
const MOST_DAYS: usize = 31;

/// How many days each month has at least.
const LEAST_DAYS: u16 = 28;

const MINUTES: usize = 60;

const HOURS: usize = 24;

const MONTHS: usize = 12;

const FEBRUARY: u16 = 2;

/// The day of February that only leap years have.
const LEAP_DAY: u16 = 29;

fn is_plain(field: &CronComponent, value: u16) -> bool
    ensures { result ≡ is_plain field.now value }
{
    match field.is_bit_set(value, ALL_BIT) {
        Ok(is_set) => is_set,
        Err(_) => false,
    }
}

fn names_each_day(job: &Cron) -> bool
    ensures { result ≡ names_each_day (meaning_of_job job.now) }
{
    job.pattern.days.count_set_values(ALL_BIT) == MOST_DAYS
}

fn names_each_weekday(job: &Cron) -> bool
    ensures { result ≡ names_each_weekday (meaning_of_job job.now) }
{
    let weekdays = &job.pattern.days_of_week;
    is_plain(weekdays, 0)
        && is_plain(weekdays, 1)
        && is_plain(weekdays, 2)
        && is_plain(weekdays, 3)
        && is_plain(weekdays, 4)
        && is_plain(weekdays, 5)
        && is_plain(weekdays, 6)
}

// Whether a day field is a star, or a day has to match both.
fn is_one_day_side(pattern: &CronPattern) -> bool
    ensures { result ≡ is_one_day_side (meaning_of pattern.now) }
{
    pattern.is_dom_wildcard() || pattern.is_dow_wildcard() || pattern.matches_dom_and_dow()
}

/// Whether neither day field is a star, a day needs to match only one, and at least one doesn't name each day.
pub fn is_either_day(job: &Cron) -> bool
    ensures { result ≡ is_either_day (meaning_of_job job.now) }
{
    !is_one_day_side(&job.pattern) && !(names_each_day(job) && names_each_weekday(job))
}

// Whether each day of the named months is named.
fn names_all_days(job: &Cron) -> bool
    ensures { result ≡ names_all_days (meaning_of_job job.now) }
{
    if is_one_day_side(&job.pattern) {
        names_each_day(job) && names_each_weekday(job)
    } else {
        names_each_day(job) || names_each_weekday(job)
    }
}

fn names_each_date(job: &Cron) -> bool
    ensures { result ≡ names_each_date (meaning_of_job job.now) }
{
    names_all_days(job) && job.pattern.months.count_set_values(ALL_BIT) == MONTHS
}

/// Whether all minutes are named, but not all hours of all dates.
pub fn is_whole_hour(job: &Cron) -> bool
    ensures { result ≡ is_whole_hour (meaning_of_job job.now) }
{
    job.pattern.minutes.count_set_values(ALL_BIT) == MINUTES
        && !(job.pattern.hours.count_set_values(ALL_BIT) == HOURS && names_each_date(job))
}

fn length(year: u16, month: u16) -> u16
    ensures { result ≡ days_in_month (pos year) month }
{
    match month {
        2 if is_leap_year(i32::from(year)) => 29,
        2 => 28,
        4 | 6 | 9 | 11 => 30,
        _ => 31,
    }
}

fn is_without(day: u16, year: u16, month: u16) -> bool
    ensures { result ≡ is_without day year month }
{
    length(year, month) < day
}

// Whether a day is missing in one of some months of a year.
fn is_wanting_in(day: u16, year: u16, months: &[u16]) -> bool
    ensures { result ≡ list_any (is_without day year) months.now }
{
    months.iter().any(|month| is_without(day, year, *month))
}

// Whether a day is missing in one of some months of one of some years.
fn is_wanting(years: &[u16], months: &[u16], day: u16) -> bool
    ensures { result ≡ is_wanting years.now months.now day }
{
    years.iter().any(|year| is_wanting_in(day, *year, months))
}

fn all_late(days: &[u16]) -> bool
    ensures { result ≡ list_all (nat_lt 28) days.now }
{
    days.iter().all(|day| LEAST_DAYS < *day)
}

// Whether one of some days is missing in one of some months of one of some years.
fn is_some_wanting(days: &[u16], years: &[u16], months: &[u16]) -> bool
    ensures { result ≡ list_any (is_wanting years.now months.now) days.now }
{
    days.iter().any(|day| is_wanting(years, months, *day))
}

// Whether each of some days is above 28, and one of them is missing in one of some months of one of some years.
fn are_late(days: &[u16], years: &[u16], months: &[u16]) -> bool
    ensures { result ≡ are_late days.now years.now months.now }
{
    all_late(days) && is_some_wanting(days, years, months)
}

fn is_only(value: u16, values: &[u16]) -> bool
    ensures { result ≡ is_only value values.now }
{
    match values {
        [named] => *named == value,
        _ => false,
    }
}

// Whether February 29 alone is named.
fn is_leap_day(days: &[u16], months: &[u16]) -> bool
    ensures { result ≡ is_leap_day days.now months.now }
{
    is_only(LEAP_DAY, days) && is_only(FEBRUARY, months)
}

/// Whether each named day is above 28, and one of them is missing in some named month of a named year; not where
/// February 29 alone is named.
///
/// The only error is `OutOfMemory`.
pub fn has_short_months(job: &Cron) -> Result<bool, CronError>
    ensures ok { IfOk result (λ yes. yes ≡ has_short_months (meaning_of_job job.now)) }
    ensures err { IfErr result (λ e. e ≡ CronError.OutOfMemory) }
{
    if job.pattern.days.has_modifiers() {
        return Ok(false);
    }
    let days = job.pattern.days.values()?;
    if !all_late(days.as_slice()) {
        return Ok(false);
    }
    let years = job.pattern.years.values()?;
    let months = job.pattern.months.values()?;
    Ok(
        are_late(days.as_slice(), years.as_slice(), months.as_slice())
            && !is_leap_day(days.as_slice(), months.as_slice()),
    )
}
