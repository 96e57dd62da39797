//! The moments that the words of a call name.
ghost use Rattle.std.specs.Prelude.{◌≡◌, ◌↔◌, ◌+ℤ◌, ℤ, pos, None, IsTrue, IfOk, IfSome};
ghost use Rattle.jiff.specs.Words.{date_text};
ghost use Rattle.jiff_core.specs.declared.civil.date.Date.{Date as Plain};
ghost use Rattle.croncheck_runs.specs.Clock.{IsHeldSecond};
ghost use Rattle.std.proofs.Common.{w64, FitsSigned};
ghost use Rattle.std.specs.Fmt.{signed_decimal};
ghost use Rattle.jiff.specs.Names.{iso_datetime_text};
ghost use Rattle.jiff.specs.ZoneView.{plain_zone};
ghost use Rattle.jiff_core.specs.Date.{epoch_day};
ghost use Rattle.jiff_core.specs.declared.Offset.{Offset};
ghost use Rattle.jiff_tz.specs.Ambiguous.{IsInstantAt, instant_of};
ghost use Rattle.croncheck_moments.specs.Moment.{IsDateAt, IsDaysAfter, IsEndOfMonth, IsEndOfSixth, IsEndOfWeek, ShowsDate, moment_text, IsNamed, IsRead, IsReadShown, IsShownAt, IsShownIn, IsSecondOf, IsLastUpTo, plan_from, start_from};

use crate::date::{first_second_of, last_before_next, last_second_of, shows_date};
use jiff::civil::{Date, DateTime};
use jiff::tz::TimeZone;
use jiff::{Error, Timestamp};
use std::alloc::{AllocError, Global};

/// How many bytes `YYYY-MM-DDTHH:MM:SS` has.
const DATETIME_LENGTH: usize = 19;

/// How many bytes `YYYY-MM-DD` has.
const DATE_LENGTH: usize = 10;

/// A moment that a word names.
#[derive(Clone, Copy, Drop)]
pub enum Moment {
    /// `now`
    Now,
    /// `@` and a second, counted from 1970-01-01T00:00:00 UTC.
    Second(i64),
    /// A date and time of a zone's clock, in whole seconds of the years 0000 to 9999.
    Civil(DateTime),
    /// A date of a zone's clock, in the same years: the seconds from where it begins to where the next date does.
    Date(Date),
}

/// The moment that a word names, which has one of the forms `now`, `@SECONDS`, `YYYY-MM-DDTHH:MM:SS` and `YYYY-MM-DD`; the second has to
/// fit 64 bits, and the date and time has to exist. `None` exactly for any other word. The only error is lack of memory.
pub fn read_moment(alloc: Global, word: &str) -> Result<Option<Moment>, AllocError>
    ensures { IfOk result (IsRead word.now) }
{
    if word == "now" {
        return Ok(Some(Moment::Now));
    }
    match read_second(alloc, word)? {
        Some(second) => Ok(Some(Moment::Second(second))),
        None => read_shown(alloc, word),
    }
}

// The moment of a word that is a date and time, or a date.
fn read_shown(alloc: Global, word: &str) -> Result<Option<Moment>, AllocError>
    ensures { IfOk result (IsReadShown word.now) }
{
    match read_civil(alloc, word)? {
        Some(civil) => Ok(Some(Moment::Civil(civil))),
        None => match read_date(alloc, word)? {
            Some(date) => Ok(Some(Moment::Date(date))),
            None => Ok(None),
        },
    }
}

// The second of a word that is `@` and a second.
fn read_second(alloc: Global, word: &str) -> Result<Option<i64>, AllocError>
    ensures found { IfOk result (λ found. IfSome found (λ second. moment_text (Moment.Second second) ≡ word.now)) }
    ensures none { IfOk result (λ found. found ≡ None → (second : ℤ) → FitsSigned w64 second → ¬ (moment_text (Moment.Second second) ≡ word.now)) }
{
    match word.strip_prefix('@') {
        Some(digits) => second_of_digits(alloc, digits),
        None => Ok(None),
    }
}

// A second as it is printed: without a plus, or zeros in front.
#[tactic(auto, using(crate::proofs::Moments::printed_seconds))]
fn second_of_digits(alloc: Global, digits: &str) -> Result<Option<i64>, AllocError>
    ensures found { IfOk result (λ found. IfSome found (λ second. signed_decimal second ≡ digits.now)) }
    ensures none { IfOk result (λ found. found ≡ None → (second : ℤ) → FitsSigned w64 second → ¬ (signed_decimal second ≡ digits.now)) }
{
    let Ok(second) = digits.parse::<i64>() else {
        return Ok(None);
    };
    let printed = format!(in alloc; "{second}")?;
    if is_same(printed.as_str(), digits) {
        Ok(Some(second))
    } else {
        Ok(None)
    }
}

// A date and time as it is printed, with no fraction and no sign.
#[tactic(auto, using(crate::proofs::Moments::printed_civils))]
fn read_civil(alloc: Global, word: &str) -> Result<Option<DateTime>, AllocError>
    ensures found { IfOk result (λ found. IfSome found (λ civil. IsNamed (Moment.Civil civil) × (iso_datetime_text civil ≡ word.now))) }
    ensures none { IfOk result (λ found. found ≡ None → (civil : DateTime) → IsNamed (Moment.Civil civil) → ¬ (iso_datetime_text civil ≡ word.now)) }
{
    if word.len() != DATETIME_LENGTH {
        return Ok(None);
    }
    let Ok(civil) = word.parse::<DateTime>() else {
        return Ok(None);
    };
    let printed = format!(in alloc; "{civil}")?;
    if is_same(printed.as_str(), word) {
        Ok(Some(civil))
    } else {
        Ok(None)
    }
}

// A date as it is printed, with no sign.
#[tactic(auto, using(crate::proofs::Moments::printed_dates))]
fn read_date(alloc: Global, word: &str) -> Result<Option<Date>, AllocError>
    ensures found { IfOk result (λ found. IfSome found (λ date. IsNamed (Moment.Date date) × (date_text date ≡ word.now))) }
    ensures none { IfOk result (λ found. found ≡ None → (date : Plain) → IsNamed (Moment.Date date) → ¬ (date_text date ≡ word.now)) }
{
    if word.len() != DATE_LENGTH {
        return Ok(None);
    }
    let Ok(date) = word.parse::<Date>() else {
        return Ok(None);
    };
    let printed = format!(in alloc; "{date}")?;
    if is_same(printed.as_str(), word) {
        Ok(Some(date))
    } else {
        Ok(None)
    }
}

fn is_same(text: &str, other: &str) -> bool
    ensures { IsTrue result ↔ (text.now ≡ other.now) }
{
    text == other
}

/// The second of a moment in a zone, counted from 1970-01-01T00:00:00 UTC; the second of `Now` is handed in. If the zone's clock shows a
/// date and time at two seconds, it is the earlier one; for a date it is the one with which the date begins.
///
/// `None` exactly if the clock shows a date and time at neither of the two instants that the zone's rules give it, or doesn't show a date
/// where that begins: the clock skips it, or no timestamp holds it.
pub fn second_of(moment: Moment, zone: &TimeZone<'_>, now: i64) -> Option<i64>
    ensures { IsSecondOf (plain_zone zone.now) now moment result }
{
    match moment {
        Moment::Now => Some(now),
        Moment::Second(second) => Some(second),
        Moment::Civil(civil) => second_shown(civil, zone),
        Moment::Date(date) => first_second_of(date, zone),
    }
}

/// The last second up to a moment in a zone: the moment's own second, or for a date the last one before the next date begins. It is counted
/// from 1970-01-01T00:00:00 UTC. `None` if the clock never shows the moment.
pub fn last_up_to(moment: Moment, zone: &TimeZone<'_>, now: i64) -> Option<i64>
    ensures { IsLastUpTo (plain_zone zone.now) now moment result }
{
    match moment {
        Moment::Now => Some(now),
        Moment::Second(second) => Some(second),
        Moment::Civil(civil) => second_shown(civil, zone),
        Moment::Date(date) => last_second_of(date, zone),
    }
}

/// The second after which runs are listed from a moment on, given the moment's own second. A run at the first second of a date counts; a
/// run at the second of another moment doesn't.
pub fn start_from(moment: Moment, second: i64) -> i64
    ensures { IsHeldSecond second → result ≡ start_from moment second }
{
    match moment {
        Moment::Now | Moment::Second(_) | Moment::Civil(_) => second,
        Moment::Date(_) => second.saturating_sub(1),
    }
}

/// The second after which a plan has starts from a moment on, given the moment's own second. A start at a date and time counts, and one at
/// the first second of a date; one at another moment doesn't, so that a plan can go on after a start.
pub fn plan_from(moment: Moment, second: i64) -> i64
    ensures { IsHeldSecond second → result ≡ plan_from moment second }
{
    match moment {
        Moment::Now | Moment::Second(_) => second,
        Moment::Civil(_) | Moment::Date(_) => second.saturating_sub(1),
    }
}

pub(crate) fn second_shown(civil: DateTime, zone: &TimeZone<'_>) -> Option<i64>
    ensures { IsShownIn (plain_zone zone.now) civil result }
{
    let found = zone.to_ambiguous_timestamp(civil);
    match second_if_shown(civil, zone, found.earlier()) {
        Some(second) => Some(second),
        None => second_if_shown(civil, zone, found.later()),
    }
}

// The second of an instant at which the zone's clock shows a date and time.
fn second_if_shown(
    civil: DateTime,
    zone: &TimeZone<'_>,
    instant: Result<Timestamp, Error>,
) -> Option<i64>
    ensures { (offset : Offset) → IsInstantAt civil offset instant → IsShownAt (plain_zone zone.now) civil (instant_of civil offset) result }
{
    match instant {
        Ok(instant) if zone.to_datetime(instant) == civil => Some(instant.as_second()),
        _ => None,
    }
}

/// The date that a zone's clock shows at a second. There is one exactly where `jiff` holds the second.
pub fn date_at(zone: &TimeZone<'_>, second: i64) -> Option<Date>
    ensures { IsDateAt (plain_zone zone.now) second result }
{
    match Timestamp::from_second(second) {
        Ok(instant) => Some(zone.to_datetime(instant).date()),
        Err(_) => None,
    }
}

/// The last second before the seventh date after the one that a zone's clock shows at a second. That is the last second of the sixth date,
/// unless the clock skips that date. `None` if `jiff` holds no such second or date, or not the seconds around the beginning of the seventh.
pub fn last_of_week(zone: &TimeZone<'_>, second: i64) -> Option<i64>
    ensures { IsEndOfWeek (plain_zone zone.now) second result }
{
    match date_at(zone, second) {
        Some(today) => end_of_sixth_after(zone, today),
        None => None,
    }
}

// The last second before the seventh date after one.
fn end_of_sixth_after(zone: &TimeZone<'_>, today: Date) -> Option<i64>
    ensures { IsEndOfSixth (plain_zone zone.now) today result }
{
    match sixth_date_after(today) {
        Some(sixth) => last_before_next(sixth, zone),
        None => None,
    }
}

// The sixth date after one, if there is one.
#[tactic(auto, using(crate::proofs::DatesAfter::dates_after))]
fn sixth_date_after(date: Date) -> Option<Date>
    ensures { IsDaysAfter date (pos 6) result }
{
    match third_date_after(date) {
        Some(third) => third_date_after(third),
        None => None,
    }
}

#[tactic(auto, using(crate::proofs::DatesAfter::dates_after))]
fn third_date_after(date: Date) -> Option<Date>
    ensures { IsDaysAfter date (pos 3) result }
{
    match date_after(date) {
        Some(next) => second_date_after(next),
        None => None,
    }
}

#[tactic(auto, using(crate::proofs::DatesAfter::dates_after))]
fn second_date_after(date: Date) -> Option<Date>
    ensures { IsDaysAfter date (pos 2) result }
{
    match date_after(date) {
        Some(next) => date_after(next),
        None => None,
    }
}

fn date_after(date: Date) -> Option<Date>
    ensures { IsDaysAfter date (pos 1) result }
{
    match date.tomorrow() {
        Ok(next) => Some(next),
        Err(_) => None,
    }
}

/// The last second of the month that a zone's clock shows at a second: the one before the next month begins, even if the clock skips the
/// month's last date. `None` if `jiff` holds no such second, or not the seconds around the beginning of the next month.
pub fn last_of_month(zone: &TimeZone<'_>, second: i64) -> Option<i64>
    ensures { IsEndOfMonth (plain_zone zone.now) second result }
{
    match date_at(zone, second) {
        Some(today) => last_before_next(today.last_of_month(), zone),
        None => None,
    }
}
