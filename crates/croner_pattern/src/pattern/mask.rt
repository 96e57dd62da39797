//! Which days of a month fit the two day fields of a pattern, one bit a day.

ghost use Rattle.std.specs.Prelude.{◌≡◌, ◌<◌, true, IsOk, IfOk};
ghost use Rattle.std.specs.Int.{IsInRange};
ghost use Rattle.croner_base.specs.Answers.{SucceedsIff};
ghost use Rattle.croner_base.specs.Civil.{weekday_index};
ghost use Rattle.croner_pattern.specs.Meaning.{meaning_of};
ghost use Rattle.croner_pattern.specs.Private.DayBits.{ShowsDays};
ghost use Rattle.croner_pattern.specs.Questions.{are_answered};
ghost use Rattle.croner_pattern.specs.Schedule.{IsDayMask, is_day_matching};
ghost use Rattle.croner_pattern.specs.Shapes.{has_field_shapes};

mod days;
mod month;
mod weekdays;

use super::{CronPattern, PatternWords};
use croner_base::errors::CronError;
use croner_base::time::Weekday;
use days::days_named;
pub(super) use days::marked_days;
use month::whole_month;
pub(super) use weekdays::marked_weekdays;
use weekdays::weekdays_named;

impl CronPattern {
    /// The days that fit in a month of `month_length` days whose 1st has the weekday `first`. Bit `day - 1` is set exactly
    /// where the day fits; the bits above the last day are 0.
    ///
    /// A field without the shape of its place refuses what it can't answer of one of these days, as in
    /// [`day_match`](Self::day_match): `ComponentError`, or `OutOfMemory` where there is no memory for the
    /// message.
    ///
    /// ```
    /// let job = Cron::from_str(alloc, "0 9 1,31 * *")?;
    /// let july = job.pattern.day_mask(31, Weekday::Monday)?; // 0x4000_0001
    /// let june = job.pattern.day_mask(30, Weekday::Saturday)?; // 1
    /// ```
    pub fn day_mask(&self, month_length: u32, first: Weekday) -> Result<u32, CronError>
        requires { IsInRange 28 31 month_length }
        ensures asked { SucceedsIff (are_answered (meaning_of self.now) month_length (weekday_index first)) result }
        ensures value { IfOk result (IsDayMask (meaning_of self.now) month_length (weekday_index first)) }
        ensures shaped { has_field_shapes (meaning_of self.now) ≡ true → IsOk result }
    {
        let first_index = first.num_days_from_sunday();
        if self.has_field_shapes() {
            return Ok(self.days_of_month(month_length, first_index));
        }
        let mut mask = 0;
        for place in 0..month_length {
            if self.fits(month_length, first_index, place + 1)? {
                mask |= 1 << place;
            }
        }
        Ok(mask)
    }

    /// The days that fit in a month of `length` days whose 1st has the weekday `first`, from 0 for Sunday. Bit `day - 1` is
    /// set exactly where the day fits; the bits above the last day are 0. The caller makes sure that `length` is from 28 to
    /// 31, `first` is below 7, and each field has the shape of its place; so nothing is refused here.
    ///
    /// ```
    /// let job = Cron::from_str(alloc, "0 9 * * MON")?;
    /// let mondays = job.pattern.days_of_month(31, 1); // 0x1020_4081: the days 1, 8, 15, 22 and 29
    /// ```
    pub fn days_of_month(&self, length: u32, first: u32) -> u32
        requires shapes { has_field_shapes (meaning_of self.now) ≡ true }
        requires length { IsInRange 28 31 length }
        requires first { first < 7 }
        ensures { IsDayMask (meaning_of self.now) length first result }
    {
        days_of_month(self, length, first)
    }
}

/// The same for a pattern in any form.
pub(crate) fn days_of_month<P: PatternWords>(pattern: &P, length: u32, first: u32) -> u32
    requires shapes { has_field_shapes (P.meaning pattern.now) ≡ true }
    requires length { IsInRange 28 31 length }
    requires first { first < 7 }
    ensures { IsDayMask (P.meaning pattern.now) length first result }
{
    fitting_days(pattern, length, first) & whole_month(length)
}

/// The days that fit the two day fields, as the stars and the AND flag say.
fn fitting_days<P: PatternWords>(pattern: &P, length: u32, first: u32) -> u32
    requires shapes { has_field_shapes (P.meaning pattern.now) ≡ true }
    requires length { IsInRange 28 31 length }
    requires first { first < 7 }
    ensures { ShowsDays length (is_day_matching (P.meaning pattern.now) length first) result }
{
    let star_day = pattern.is_star_day();
    let star_weekday = pattern.is_star_weekday();
    if star_day != star_weekday {
        return if star_day {
            weekdays_named(pattern, length, first)
        } else {
            days_named(pattern, length, first)
        };
    }
    let days = days_named(pattern, length, first);
    let weekdays = weekdays_named(pattern, length, first);
    if pattern.is_day_and_weekday() && !star_day {
        days & weekdays
    } else {
        days | weekdays
    }
}
