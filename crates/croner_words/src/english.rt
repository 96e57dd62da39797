//! English.

ghost use Rattle.std.specs.Prelude.{◌≡◌};
ghost use Rattle.croner_words.specs.English.{suffix as suffix_of};

use crate::english_form;
use crate::language::Language;
use croner_base::errors::CronError;
use std::alloc::Global;

/// English.
///
/// ```
/// let job = Cron::from_str(alloc, "5 9 * * MON")?;
/// let text = job.describe_lang(English)?; // At 09:05, on Monday.
/// ```
#[derive(Default, Clone, Copy)]
pub struct English;

/// The end of an ordinal from 1 to 5.
fn suffix(n: u8) -> &'static str
    ensures { result.now ≡ suffix_of n }
{
    match n {
        1 => "st",
        2 => "nd",
        3 => "rd",
        _ => "th",
    }
}

impl Language for English {
    ghost use Rattle.croner_words.specs.English.{english};

    ghost meaning = { λ _. english };

    fn every_minute(&self) -> &'static str {
        "Every minute"
    }

    fn every_second_phrase(&self) -> &'static str {
        "Every second"
    }

    fn every_x_minutes(&self, alloc: Global, step: u16) -> Result<String, CronError> {
        Ok(format!(in alloc; "every {step} minutes")?)
    }

    fn every_x_seconds(&self, alloc: Global, step: u16) -> Result<String, CronError> {
        Ok(format!(in alloc; "every {step} seconds")?)
    }

    fn every_x_hours(&self, alloc: Global, step: u16) -> Result<String, CronError> {
        Ok(format!(in alloc; "of every {step} hours")?)
    }

    fn every_minute_of_every_x_hours(&self, alloc: Global, step: u16) -> Result<String, CronError> {
        Ok(format!(in alloc; "Every minute, of every {step} hours")?)
    }

    fn at_time(&self, alloc: Global, time: &str) -> Result<String, CronError> {
        Ok(format!(in alloc; "At {time}")?)
    }

    fn at_time_and_every_x_seconds(
        &self,
        alloc: Global,
        time: &str,
        step: u16,
    ) -> Result<String, CronError> {
        Ok(format!(in alloc; "At {time}, every {step} seconds")?)
    }

    fn at_time_at_second(
        &self,
        alloc: Global,
        time: &str,
        second: &str,
    ) -> Result<String, CronError> {
        Ok(format!(in alloc; "At {time}, at second {second}")?)
    }

    fn at_phrase(&self, alloc: Global, phrase: &str) -> Result<String, CronError> {
        Ok(format!(in alloc; "At {phrase}")?)
    }

    fn on_phrase(&self, alloc: Global, phrase: &str) -> Result<String, CronError> {
        Ok(format!(in alloc; "on {phrase}")?)
    }

    fn in_phrase(&self, alloc: Global, phrase: &str) -> Result<String, CronError> {
        Ok(format!(in alloc; "in {phrase}")?)
    }

    fn second_phrase(&self, alloc: Global, s: &str) -> Result<String, CronError> {
        Ok(format!(in alloc; "second {s}")?)
    }

    fn minute_phrase(&self, alloc: Global, s: &str) -> Result<String, CronError> {
        Ok(format!(in alloc; "minute {s}")?)
    }

    fn minute_past_every_hour_phrase(&self, alloc: Global, s: &str) -> Result<String, CronError> {
        Ok(format!(in alloc; "{s} past every hour")?)
    }

    fn hour_phrase(&self, alloc: Global, s: &str) -> Result<String, CronError> {
        Ok(format!(in alloc; "of hour {s}")?)
    }

    fn year_phrase(&self, alloc: Global, s: &str) -> Result<String, CronError> {
        Ok(format!(in alloc; "year {s}")?)
    }

    fn day_phrase(&self, alloc: Global, s: &str) -> Result<String, CronError> {
        Ok(format!(in alloc; "day {s}")?)
    }

    fn the_last_day_of_the_month(&self) -> &'static str {
        "the last day of the month"
    }

    fn the_weekday_nearest_day(&self, alloc: Global, day: &str) -> Result<String, CronError> {
        Ok(format!(in alloc; "the weekday nearest day {day}")?)
    }

    fn the_last_weekday_of_the_month(&self, alloc: Global, day: &str) -> Result<String, CronError> {
        Ok(format!(in alloc; "the last {day} of the month")?)
    }

    fn the_nth_weekday_of_the_month(
        &self,
        alloc: Global,
        n: u8,
        day: &str,
    ) -> Result<String, CronError> {
        let suffix = suffix(n);
        Ok(format!(in alloc; "the {n}{suffix} {day} of the month")?)
    }

    fn dom_and_dow_if_also(&self, alloc: Global, dow: &str) -> Result<String, CronError> {
        Ok(format!(in alloc; "(if it is also {dow})")?)
    }

    fn dom_and_dow_if_also_one_of(&self, alloc: Global, dow: &str) -> Result<String, CronError> {
        Ok(format!(in alloc; "(if it is also one of: {dow})")?)
    }

    fn list_conjunction_and(&self) -> &'static str {
        "and"
    }

    fn list_conjunction_or(&self) -> &'static str {
        "or"
    }

    fn list_conjunction_and_comma(&self) -> &'static str {
        ", and"
    }

    fn day_of_week_names(&self) -> [&'static str; 7] {
        [
            "Sunday",
            "Monday",
            "Tuesday",
            "Wednesday",
            "Thursday",
            "Friday",
            "Saturday",
        ]
    }

    fn month_names(&self) -> [&'static str; 12] {
        [
            "January",
            "February",
            "March",
            "April",
            "May",
            "June",
            "July",
            "August",
            "September",
            "October",
            "November",
            "December",
        ]
    }

    fn time_of_day(
        &self,
        alloc: Global,
        hour: u16,
        minute: u16,
        second: Option<u16>,
    ) -> Result<String, CronError> {
        english_form::time_of_day(alloc, hour, minute, second)
    }

    fn every_past_phrase(
        &self,
        alloc: Global,
        every: &str,
        hours: &str,
    ) -> Result<String, CronError> {
        english_form::every_past_phrase(alloc, every, hours)
    }

    fn past_hour_phrase(&self, alloc: Global, s: &str) -> Result<String, CronError> {
        english_form::past_hour_phrase(alloc, s)
    }

    fn every_x_months(&self, alloc: Global, step: u16) -> Result<String, CronError> {
        english_form::every_x_months(alloc, step)
    }

    fn every_x_years(&self, alloc: Global, step: u16) -> Result<String, CronError> {
        self.year_phrase(alloc, english_form::every(alloc, step)?.as_str())
    }
}
