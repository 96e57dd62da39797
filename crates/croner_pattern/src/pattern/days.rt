//! Whether a day fits the two day fields of a pattern.

ghost use Rattle.std.specs.Prelude.{◌≡◌, ◌≤◌, ◌<◌, ◌==◌, ℕ, true, Ok, Err, IfOk};
ghost use Rattle.std.specs.Int.{IsInRange};
ghost use Rattle.croner_base.specs.Answers.{Finds};
ghost use Rattle.croner_base.specs.Calendar.{IsRealDate};
ghost use Rattle.croner_base.specs.Civil.{weekday_index};
ghost use Rattle.jiff_core.specs.Calendar.{days_in_month as month_days};
ghost use Rattle.croner_pattern.specs.Days.{weekday_of, occurrence, is_last_weekday, is_last_working, is_nearest, resolved_day};
ghost use Rattle.croner_pattern.specs.Meaning.{meaning_of};
ghost use Rattle.croner_pattern.specs.Questions.{first_from, first_target, last_target, near_answer, near_answers, is_named_last, last_answer, day_answer, weekday_answer, date_answer};
ghost use Rattle.croner_pattern.specs.Schedule.{bit_of_nth, are_joined, is_near_target, is_day_matching};
ghost use Rattle.croner_pattern.specs.Shapes.{has_field_shapes};

use super::{CronPattern, ask};
use croner_base::component::{
    ALL_BIT, CLOSEST_WEEKDAY_BIT, CronComponent, LAST_BIT, NTH_1ST_BIT, NTH_2ND_BIT, NTH_3RD_BIT,
    NTH_4TH_BIT, NTH_5TH_BIT,
};
use croner_base::errors::CronError;
use croner_base::limits::DAYS_PER_WEEK;
use croner_base::time::{CivilDate, Weekday, days_in_month};

pub(super) const SUNDAY: u32 = 0;

pub(super) const SATURDAY: u32 = 6;

/// The nearest working day is at most two days from its target.
const NEAREST_REACH: u32 = 2;

impl CronPattern {
    /// Whether a date's day fits: by the day of month, the weekday, or both, as the stars and the AND flag say.
    ///
    /// `weekday` is the weekday of the date; the weekdays of the month's other days are counted from it. Of the year and
    /// the month only the month's length matters.
    ///
    /// `InvalidDate` where the date doesn't exist. A field without the shape of its place refuses what it
    /// can't answer: `ComponentError`, or `OutOfMemory` where there is no memory for the message.
    ///
    /// ```
    /// let job = Cron::from_str(alloc, "0 9 * * FRI#2")?;
    /// let second = job.pattern.day_match(2024, 7, 12, Weekday::Friday)?; // true
    /// let third = job.pattern.day_match(2024, 7, 19, Weekday::Friday)?; // false
    /// ```
    pub fn day_match(
        &self,
        year: i32,
        month: u32,
        day: u32,
        weekday: Weekday,
    ) -> Result<bool, CronError>
        ensures no_date { (IsRealDate year month day → ⊥) → result ≡ Err CronError.InvalidDate }
        ensures asked { IsRealDate year month day → Finds (λ held. held)
            (date_answer (meaning_of self.now) (month_days year month) (first_from (weekday_index weekday) day) day) result }
        ensures value { IfOk result (λ held. held
            ≡ is_day_matching (meaning_of self.now) (month_days year month) (first_from (weekday_index weekday) day) day) }
        ensures shaped { has_field_shapes (meaning_of self.now) ≡ true → IsRealDate year month day → result
            ≡ Ok (is_day_matching (meaning_of self.now) (month_days year month) (first_from (weekday_index weekday) day) day) }
    {
        if CivilDate::from_ymd_opt(year, month, day).is_none() {
            return Err(CronError::InvalidDate);
        }
        let length = days_in_month(year, month);
        self.fits(length, first_from(day, weekday), day)
    }

    /// Whether this day is the nearest Monday-to-Friday day of some day that the day field marks with `W`.
    ///
    /// `month_length` is the length of the month in days and `weekday` the weekday of the day. A field without the
    /// shape of its place refuses what it can't answer: `ComponentError`, or `OutOfMemory` where there is no memory for
    /// the message.
    ///
    /// ```
    /// let job = Cron::from_str(alloc, "0 9 15W * *")?;
    /// let friday = job.pattern.closest_weekday(30, 14, Weekday::Friday)?; // true: the 15th is a Saturday
    /// let monday = job.pattern.closest_weekday(30, 17, Weekday::Monday)?; // false
    /// ```
    pub fn closest_weekday(
        &self,
        month_length: u32,
        day: u32,
        weekday: Weekday,
    ) -> Result<bool, CronError>
        requires length { IsInRange 28 31 month_length }
        requires day { IsInRange 1 month_length day }
        ensures asked { Finds (λ held. held)
            (near_answers (meaning_of self.now).days month_length (first_from (weekday_index weekday) day) day) result }
        ensures value { IfOk result (λ held. held
            ≡ is_near_target (meaning_of self.now).days month_length (first_from (weekday_index weekday) day) day) }
        ensures shaped { has_field_shapes (meaning_of self.now) ≡ true → result
            ≡ Ok (is_near_target (meaning_of self.now).days month_length (first_from (weekday_index weekday) day) day) }
    {
        is_near_target(&self.days, month_length, first_from(day, weekday), day)
    }

    pub(super) fn fits(&self, length: u32, first: u32, day: u32) -> Result<bool, CronError>
        requires length { IsInRange 28 31 length }
        requires first { first < 7 }
        requires day { IsInRange 1 length day }
        ensures { Finds (λ held. held) (date_answer (meaning_of self.now) length first day) result }
    {
        let day_fits = fits_days(&self.days, length, first, day)?;
        let weekday_fits = fits_weekdays(&self.days_of_week, length, first, day)?;
        Ok(self.joins_days(day_fits, weekday_fits))
    }

    fn joins_days(&self, day: bool, weekday: bool) -> bool
        ensures { result ≡ are_joined (meaning_of self.now).star_day (meaning_of self.now).star_weekday (meaning_of self.now).and day weekday }
    {
        if self.star_day != self.star_weekday {
            return if self.star_day { weekday } else { day };
        }
        if self.day_and_weekday && !self.star_day {
            day && weekday
        } else {
            day || weekday
        }
    }
}

/// The weekday of the first of a month, from Sunday, counted back from a day's.
fn first_from(day: u32, weekday: Weekday) -> u32
    requires { IsInRange 1 31 day }
    ensures value { result ≡ first_from (weekday_index weekday) day }
    ensures bound { result < 7 }
{
    (weekday.num_days_from_sunday() + (DAYS_PER_WEEK - 1) * (day - 1)) % DAYS_PER_WEEK
}

fn weekday_of(first: u32, day: u32) -> u32
    requires first { first < 7 }
    requires day { IsInRange 1 31 day }
    ensures value { result ≡ weekday_of first day }
    ensures bound { result < 7 }
{
    (first + (day - 1)) % DAYS_PER_WEEK
}

fn fits_days(days: &CronComponent, length: u32, first: u32, day: u32) -> Result<bool, CronError>
    requires length { IsInRange 28 31 length }
    requires first { first < 7 }
    requires day { IsInRange 1 length day }
    ensures { Finds (λ held. held) (day_answer days.now length first day) result }
{
    if ask(days, day as u16, ALL_BIT)? {
        return Ok(true);
    }
    if is_named_last(days, length, first, day) {
        return Ok(true);
    }
    is_near_target(days, length, first, day)
}

/// `L` names the month's last day; `LW`, also beside an `L`, its last Monday-to-Friday day.
fn is_named_last(days: &CronComponent, length: u32, first: u32, day: u32) -> bool
    requires length { IsInRange 28 31 length }
    requires first { first < 7 }
    requires day { IsInRange 1 length day }
    ensures { result ≡ is_named_last days.now length first day }
{
    if !days.is_feature_enabled(LAST_BIT) {
        return false;
    }
    if days.is_feature_enabled(CLOSEST_WEEKDAY_BIT) {
        is_last_working(length, first, day)
    } else {
        day == length
    }
}

fn is_last_working(length: u32, first: u32, day: u32) -> bool
    requires length { IsInRange 28 31 length }
    requires first { first < 7 }
    requires day { IsInRange 1 length day }
    ensures { result ≡ is_last_working length first day }
{
    day == last_working(length, first)
}

/// The last Monday-to-Friday day of a month.
pub(super) fn last_working(length: u32, first: u32) -> u32
    requires length { IsInRange 28 31 length }
    requires first { first < 7 }
    ensures value { (day : ℕ) → 1 ≤ day → day ≤ length → (day == result) ≡ is_last_working length first day }
    ensures bound { IsInRange 1 length result }
{
    match weekday_of(first, length) {
        SATURDAY => length - 1,
        SUNDAY => length - 2,
        _ => length,
    }
}

fn is_near_target(
    days: &CronComponent,
    length: u32,
    first: u32,
    day: u32,
) -> Result<bool, CronError>
    requires length { IsInRange 28 31 length }
    requires first { first < 7 }
    requires day { IsInRange 1 length day }
    ensures { Finds (λ held. held) (near_answers days.now length first day) result }
{
    for target in first_target(day)..=last_target(length, day) {
        if is_target(days, length, first, day, target)? {
            return Ok(true);
        }
    }
    Ok(false)
}

fn first_target(day: u32) -> u32
    requires { 1 ≤ day }
    ensures value { result ≡ first_target day }
    ensures bound { 1 ≤ result }
{
    if day > NEAREST_REACH {
        day - NEAREST_REACH
    } else {
        1
    }
}

fn last_target(length: u32, day: u32) -> u32
    requires length { length ≤ 31 }
    requires day { day ≤ length }
    ensures value { result ≡ last_target length day }
    ensures bound { result ≤ length }
{
    if day + NEAREST_REACH < length {
        day + NEAREST_REACH
    } else {
        length
    }
}

/// Whether a target is marked, and the day is its nearest Monday-to-Friday day.
fn is_target(
    days: &CronComponent,
    length: u32,
    first: u32,
    day: u32,
    target: u32,
) -> Result<bool, CronError>
    requires length { IsInRange 28 31 length }
    requires first { first < 7 }
    requires day { IsInRange 1 length day }
    requires target { IsInRange 1 length target }
    ensures { Finds (λ held. held) (near_answer days.now length first day target) result }
{
    let marked = ask(days, target as u16, CLOSEST_WEEKDAY_BIT)?;
    Ok(marked && goes_to(length, first, target, day))
}

/// Whether the nearest Monday-to-Friday day of a target is this day.
fn goes_to(length: u32, first: u32, target: u32, day: u32) -> bool
    requires length { IsInRange 28 31 length }
    requires first { first < 7 }
    requires target { IsInRange 1 length target }
    requires day { IsInRange 1 length day }
    ensures { result ≡ is_nearest length first target day }
{
    day == nearest_working_day(length, target, weekday_of(first, target))
}

/// The nearest Monday-to-Friday day of a target with this weekday. It stays in the month.
fn nearest_working_day(length: u32, target: u32, weekday: u32) -> u32
    requires length { IsInRange 28 31 length }
    requires target { IsInRange 1 length target }
    ensures value { result ≡ resolved_day length weekday target }
    ensures bound { IsInRange 1 length result }
{
    match weekday {
        SATURDAY if target > 1 => target - 1,
        SATURDAY => target + 2,
        SUNDAY if target < length => target + 1,
        SUNDAY => target - 2,
        _ => target,
    }
}

fn fits_weekdays(
    weekdays: &CronComponent,
    length: u32,
    first: u32,
    day: u32,
) -> Result<bool, CronError>
    requires length { IsInRange 28 31 length }
    requires first { first < 7 }
    requires day { IsInRange 1 length day }
    ensures { Finds (λ held. held) (weekday_answer weekdays.now length first day) result }
{
    let weekday = weekday_of(first, day) as u16;
    if ask(weekdays, weekday, occurrence_bit(day))? {
        return Ok(true);
    }
    if is_last_named(weekdays, length, first, day)? {
        return Ok(true);
    }
    ask(weekdays, weekday, ALL_BIT)
}

/// Whether the day's weekday is marked with `L`, and this is its last of the month.
fn is_last_named(
    weekdays: &CronComponent,
    length: u32,
    first: u32,
    day: u32,
) -> Result<bool, CronError>
    requires length { IsInRange 28 31 length }
    requires first { first < 7 }
    requires day { IsInRange 1 length day }
    ensures { Finds (λ held. held) (last_answer weekdays.now length first day) result }
{
    let marked = ask(weekdays, weekday_of(first, day) as u16, LAST_BIT)?;
    Ok(marked && is_last_weekday(length, day))
}

/// The bit for which of its weekday in the month a day is: the first to the fifth.
fn occurrence_bit(day: u32) -> u8
    requires { IsInRange 1 31 day }
    ensures { (first : ℕ) → first < 7 → result ≡ bit_of_nth (occurrence first day) }
{
    match (day - 1) / DAYS_PER_WEEK {
        0 => NTH_1ST_BIT,
        1 => NTH_2ND_BIT,
        2 => NTH_3RD_BIT,
        3 => NTH_4TH_BIT,
        _ => NTH_5TH_BIT,
    }
}

fn is_last_weekday(length: u32, day: u32) -> bool
    requires length { IsInRange 28 31 length }
    requires day { IsInRange 1 length day }
    ensures { (first : ℕ) → first < 7 → result ≡ is_last_weekday length first day }
{
    day + DAYS_PER_WEEK > length
}
