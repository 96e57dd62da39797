//! Whether a year, a month, an hour, a minute or a second is a plain value of its field.

ghost use Rattle.std.specs.Prelude.{◌≡◌, ◌≤◌, ◌<◌, ◌⊎◌, pos, ◌≤ℤ◌, ◌<ℤ◌, true, false, Ok, Err, unsigned_abs};
ghost use Rattle.std.specs.Int.{IsInRange};
ghost use Rattle.croner_base.specs.Answers.{Finds};
ghost use Rattle.croner_base.specs.Limits.{first_year, last_year};
ghost use Rattle.croner_pattern.specs.Meaning.{meaning_of};
ghost use Rattle.croner_pattern.specs.Questions.{asked};
ghost use Rattle.croner_pattern.specs.Schedule.{is_plain, is_year_matching};
ghost use Rattle.croner_pattern.specs.Shapes.{has_field_shapes};

use super::{CronPattern, ask};
use croner_base::component::ALL_BIT;
use croner_base::errors::CronError;
use croner_base::limits::{LAST_HOUR, LAST_MINUTE, LAST_MONTH, LAST_SECOND};
use croner_base::time::{YEAR_LOWER_LIMIT, YEAR_UPPER_LIMIT};

impl CronPattern {
    /// Whether a year is named. A year outside 1 to 5000 never is.
    ///
    /// A field without the shape of its place refuses a year that it doesn't hold: `ComponentError`, or `OutOfMemory`
    /// where there is no memory for the message. With that shape it refuses none.
    ///
    /// ```
    /// let job = Cron::from_str(alloc, "0 9 * * *")?;
    /// let inside = job.pattern.year_match(2024)?; // true
    /// let outside = job.pattern.year_match(5001)?; // false
    /// ```
    #[inline(always)]
    pub fn year_match(&self, year: i32) -> Result<bool, CronError>
        ensures outside { (year <ℤ pos first_year) ⊎ (pos last_year <ℤ year) → result ≡ Ok false }
        ensures asked { pos first_year ≤ℤ year → year ≤ℤ pos last_year →
            Finds (λ held. held) (asked ALL_BIT (meaning_of self.now).years (unsigned_abs year)) result }
        ensures shaped { has_field_shapes (meaning_of self.now) ≡ true → result ≡ Ok (is_year_matching (meaning_of self.now) year) }
    {
        if year < YEAR_LOWER_LIMIT || year > YEAR_UPPER_LIMIT {
            return Ok(false);
        }
        ask(&self.years, year as u16, ALL_BIT)
    }

    /// Whether a month is named.
    ///
    /// `InvalidDate` outside 1 to 12. A field without the shape of its place refuses a month that it doesn't hold:
    /// `ComponentError`, or `OutOfMemory` where there is no memory for the message.
    ///
    /// ```
    /// let job = Cron::from_str(alloc, "0 0 1 */3 *")?;
    /// let april = job.pattern.month_match(4)?; // true
    /// let refused = job.pattern.month_match(13); // Err(InvalidDate)
    /// ```
    pub fn month_match(&self, month: u32) -> Result<bool, CronError>
        ensures outside { (month < 1) ⊎ (12 < month) → result ≡ Err CronError.InvalidDate }
        ensures asked { IsInRange 1 12 month → Finds (λ held. held) (asked ALL_BIT (meaning_of self.now).months month) result }
        ensures shaped { has_field_shapes (meaning_of self.now) ≡ true → IsInRange 1 12 month →
            result ≡ Ok (is_plain (meaning_of self.now).months month) }
    {
        if month < 1 || month > LAST_MONTH {
            return Err(CronError::InvalidDate);
        }
        ask(&self.months, month as u16, ALL_BIT)
    }

    /// Whether an hour is named.
    ///
    /// `InvalidTime` above 23. A field without the shape of its place refuses an hour that it doesn't hold:
    /// `ComponentError`, or `OutOfMemory` where there is no memory for the message.
    ///
    /// ```
    /// let job = Cron::from_str(alloc, "0 9-17 * * *")?;
    /// let evening = job.pattern.hour_match(20)?; // false
    /// let refused = job.pattern.hour_match(24); // Err(InvalidTime)
    /// ```
    pub fn hour_match(&self, hour: u32) -> Result<bool, CronError>
        ensures outside { 23 < hour → result ≡ Err CronError.InvalidTime }
        ensures asked { hour ≤ 23 → Finds (λ held. held) (asked ALL_BIT (meaning_of self.now).hours hour) result }
        ensures shaped { has_field_shapes (meaning_of self.now) ≡ true → hour ≤ 23 →
            result ≡ Ok (is_plain (meaning_of self.now).hours hour) }
    {
        if hour > LAST_HOUR {
            return Err(CronError::InvalidTime);
        }
        ask(&self.hours, hour as u16, ALL_BIT)
    }

    /// Whether a minute is named.
    ///
    /// `InvalidTime` above 59. A field without the shape of its place refuses a minute that it doesn't hold:
    /// `ComponentError`, or `OutOfMemory` where there is no memory for the message.
    ///
    /// ```
    /// let job = Cron::from_str(alloc, "*/20 * * * *")?;
    /// let is_named = job.pattern.minute_match(40)?; // true
    /// ```
    pub fn minute_match(&self, minute: u32) -> Result<bool, CronError>
        ensures outside { 59 < minute → result ≡ Err CronError.InvalidTime }
        ensures asked { minute ≤ 59 → Finds (λ held. held) (asked ALL_BIT (meaning_of self.now).minutes minute) result }
        ensures shaped { has_field_shapes (meaning_of self.now) ≡ true → minute ≤ 59 →
            result ≡ Ok (is_plain (meaning_of self.now).minutes minute) }
    {
        if minute > LAST_MINUTE {
            return Err(CronError::InvalidTime);
        }
        ask(&self.minutes, minute as u16, ALL_BIT)
    }

    /// Whether a second is named.
    ///
    /// `InvalidTime` above 59. A field without the shape of its place refuses a second that it doesn't hold:
    /// `ComponentError`, or `OutOfMemory` where there is no memory for the message.
    ///
    /// ```
    /// let job = Cron::from_str(alloc, "30 9 * * *")?; // at second 0
    /// let is_named = job.pattern.second_match(30)?; // false
    /// ```
    pub fn second_match(&self, second: u32) -> Result<bool, CronError>
        ensures outside { 59 < second → result ≡ Err CronError.InvalidTime }
        ensures asked { second ≤ 59 → Finds (λ held. held) (asked ALL_BIT (meaning_of self.now).seconds second) result }
        ensures shaped { has_field_shapes (meaning_of self.now) ≡ true → second ≤ 59 →
            result ≡ Ok (is_plain (meaning_of self.now).seconds second) }
    {
        if second > LAST_SECOND {
            return Err(CronError::InvalidTime);
        }
        ask(&self.seconds, second as u16, ALL_BIT)
    }
}
