//! A language on a clock of twelve hours.

ghost use Rattle.std.specs.Prelude.{◌≡◌};
ghost use Rattle.croner_backends.specs.TwelveHours.{dial_hour, half_of_day};

use croner::describe::Language;
use croner::describe::lang::english::English;
use croner::english_form;
use croner::errors::CronError;
use std::alloc::Global;

// The hour as the clock shows it, from 1 to 12.
fn dial_hour(hour: u16) -> u16
    ensures { result ≡ dial_hour hour }
{
    match hour % 12 {
        0 => 12,
        hour => hour,
    }
}

fn half_of_day(hour: u16) -> &'static str
    ensures { result.now ≡ half_of_day hour }
{
    if hour < 12 { "AM" } else { "PM" }
}

/// English, but a time of day is on a clock of twelve hours: `02:00 PM`, `12:00:30 AM`.
#[derive(Default, Clone, Copy)]
pub struct TwelveHours;

impl Language for TwelveHours {
    ghost use Rattle.croner_backends.specs.TwelveHours.{twelve_hours};

    ghost meaning = { λ _. twelve_hours };

    fn every_minute(&self) -> &'static str {
        English.every_minute()
    }

    fn every_second_phrase(&self) -> &'static str {
        English.every_second_phrase()
    }

    fn every_x_minutes(&self, alloc: Global, step: u16) -> Result<String, CronError> {
        English.every_x_minutes(alloc, step)
    }

    fn every_x_seconds(&self, alloc: Global, step: u16) -> Result<String, CronError> {
        English.every_x_seconds(alloc, step)
    }

    fn every_x_hours(&self, alloc: Global, step: u16) -> Result<String, CronError> {
        English.every_x_hours(alloc, step)
    }

    fn every_minute_of_every_x_hours(&self, alloc: Global, step: u16) -> Result<String, CronError> {
        English.every_minute_of_every_x_hours(alloc, step)
    }

    fn at_time(&self, alloc: Global, time: &str) -> Result<String, CronError> {
        English.at_time(alloc, time)
    }

    fn at_time_and_every_x_seconds(
        &self,
        alloc: Global,
        time: &str,
        step: u16,
    ) -> Result<String, CronError> {
        English.at_time_and_every_x_seconds(alloc, time, step)
    }

    fn at_time_at_second(
        &self,
        alloc: Global,
        time: &str,
        second: &str,
    ) -> Result<String, CronError> {
        English.at_time_at_second(alloc, time, second)
    }

    fn at_phrase(&self, alloc: Global, phrase: &str) -> Result<String, CronError> {
        English.at_phrase(alloc, phrase)
    }

    fn on_phrase(&self, alloc: Global, phrase: &str) -> Result<String, CronError> {
        English.on_phrase(alloc, phrase)
    }

    fn in_phrase(&self, alloc: Global, phrase: &str) -> Result<String, CronError> {
        English.in_phrase(alloc, phrase)
    }

    fn second_phrase(&self, alloc: Global, s: &str) -> Result<String, CronError> {
        English.second_phrase(alloc, s)
    }

    fn minute_phrase(&self, alloc: Global, s: &str) -> Result<String, CronError> {
        English.minute_phrase(alloc, s)
    }

    fn minute_past_every_hour_phrase(&self, alloc: Global, s: &str) -> Result<String, CronError> {
        English.minute_past_every_hour_phrase(alloc, s)
    }

    fn hour_phrase(&self, alloc: Global, s: &str) -> Result<String, CronError> {
        English.hour_phrase(alloc, s)
    }

    fn year_phrase(&self, alloc: Global, s: &str) -> Result<String, CronError> {
        English.year_phrase(alloc, s)
    }

    fn day_phrase(&self, alloc: Global, s: &str) -> Result<String, CronError> {
        English.day_phrase(alloc, s)
    }

    fn the_last_day_of_the_month(&self) -> &'static str {
        English.the_last_day_of_the_month()
    }

    fn the_weekday_nearest_day(&self, alloc: Global, day: &str) -> Result<String, CronError> {
        English.the_weekday_nearest_day(alloc, day)
    }

    fn the_last_weekday_of_the_month(&self, alloc: Global, day: &str) -> Result<String, CronError> {
        English.the_last_weekday_of_the_month(alloc, day)
    }

    fn the_nth_weekday_of_the_month(
        &self,
        alloc: Global,
        n: u8,
        day: &str,
    ) -> Result<String, CronError> {
        English.the_nth_weekday_of_the_month(alloc, n, day)
    }

    fn dom_and_dow_if_also(&self, alloc: Global, dow: &str) -> Result<String, CronError> {
        English.dom_and_dow_if_also(alloc, dow)
    }

    fn dom_and_dow_if_also_one_of(&self, alloc: Global, dow: &str) -> Result<String, CronError> {
        English.dom_and_dow_if_also_one_of(alloc, dow)
    }

    fn list_conjunction_and(&self) -> &'static str {
        English.list_conjunction_and()
    }

    fn list_conjunction_or(&self) -> &'static str {
        English.list_conjunction_or()
    }

    fn list_conjunction_and_comma(&self) -> &'static str {
        English.list_conjunction_and_comma()
    }

    fn day_of_week_names(&self) -> [&'static str; 7] {
        English.day_of_week_names()
    }

    fn month_names(&self) -> [&'static str; 12] {
        English.month_names()
    }

    fn time_of_day(
        &self,
        alloc: Global,
        hour: u16,
        minute: u16,
        second: Option<u16>,
    ) -> Result<String, CronError> {
        let time = english_form::time_of_day(alloc, dial_hour(hour), minute, second)?;
        let half = half_of_day(hour);
        Ok(format!(in alloc; "{time} {half}")?)
    }

    fn every_past_phrase(
        &self,
        alloc: Global,
        every: &str,
        hours: &str,
    ) -> Result<String, CronError> {
        English.every_past_phrase(alloc, every, hours)
    }

    fn past_hour_phrase(&self, alloc: Global, s: &str) -> Result<String, CronError> {
        English.past_hour_phrase(alloc, s)
    }

    fn every_x_months(&self, alloc: Global, step: u16) -> Result<String, CronError> {
        English.every_x_months(alloc, step)
    }

    fn every_x_years(&self, alloc: Global, step: u16) -> Result<String, CronError> {
        English.every_x_years(alloc, step)
    }
}
