//! Swedish.

ghost use Rattle.std.specs.Prelude.{◌≡◌};
ghost use Rattle.croner_words.specs.Swedish.{ordinal as ordinal_of};

use crate::english_form;
use crate::language::Language;
use croner_base::errors::CronError;
use std::alloc::Global;

/// Swedish.
///
/// ```
/// let job = Cron::from_str(alloc, "5 9 * * MON")?;
/// let text = job.describe_lang(Swedish)?; // Klockan 09:05, på måndag.
/// ```
#[derive(Default, Clone, Copy)]
pub struct Swedish;

/// The ordinals from 1 to 5; none for other numbers.
fn ordinal(n: u8) -> &'static str
    ensures { result.now ≡ ordinal_of n }
{
    match n {
        1 => "första",
        2 => "andra",
        3 => "tredje",
        4 => "fjärde",
        5 => "femte",
        _ => "",
    }
}

impl Language for Swedish {
    ghost use Rattle.croner_words.specs.Swedish.{swedish};

    ghost meaning = { λ _. swedish };

    fn every_minute(&self) -> &'static str {
        "Varje minut"
    }

    fn every_second_phrase(&self) -> &'static str {
        "Varje sekund"
    }

    fn every_x_minutes(&self, alloc: Global, step: u16) -> Result<String, CronError> {
        Ok(format!(in alloc; "var {step}:e minut")?)
    }

    fn every_x_seconds(&self, alloc: Global, step: u16) -> Result<String, CronError> {
        Ok(format!(in alloc; "var {step}:e sekund")?)
    }

    fn every_x_hours(&self, alloc: Global, step: u16) -> Result<String, CronError> {
        Ok(format!(in alloc; "var {step}:e timme")?)
    }

    fn every_minute_of_every_x_hours(&self, alloc: Global, step: u16) -> Result<String, CronError> {
        Ok(format!(in alloc; "Varje minut, var {step}:e timme")?)
    }

    fn at_time(&self, alloc: Global, time: &str) -> Result<String, CronError> {
        Ok(format!(in alloc; "Klockan {time}")?)
    }

    fn at_time_and_every_x_seconds(
        &self,
        alloc: Global,
        time: &str,
        step: u16,
    ) -> Result<String, CronError> {
        Ok(format!(in alloc; "Klockan {time}, var {step}:e sekund")?)
    }

    fn at_time_at_second(
        &self,
        alloc: Global,
        time: &str,
        second: &str,
    ) -> Result<String, CronError> {
        Ok(format!(in alloc; "Klockan {time}, på sekund {second}")?)
    }

    fn at_phrase(&self, alloc: Global, phrase: &str) -> Result<String, CronError> {
        Ok(format!(in alloc; "Vid {phrase}")?)
    }

    fn on_phrase(&self, alloc: Global, phrase: &str) -> Result<String, CronError> {
        Ok(format!(in alloc; "på {phrase}")?)
    }

    fn in_phrase(&self, alloc: Global, phrase: &str) -> Result<String, CronError> {
        Ok(format!(in alloc; "i {phrase}")?)
    }

    fn second_phrase(&self, alloc: Global, s: &str) -> Result<String, CronError> {
        Ok(format!(in alloc; "sekund {s}")?)
    }

    fn minute_phrase(&self, alloc: Global, s: &str) -> Result<String, CronError> {
        Ok(format!(in alloc; "minut {s}")?)
    }

    fn minute_past_every_hour_phrase(&self, alloc: Global, s: &str) -> Result<String, CronError> {
        Ok(format!(in alloc; "{s} över varje heltimme")?)
    }

    fn hour_phrase(&self, alloc: Global, s: &str) -> Result<String, CronError> {
        Ok(format!(in alloc; "timme {s}")?)
    }

    fn year_phrase(&self, alloc: Global, s: &str) -> Result<String, CronError> {
        Ok(format!(in alloc; "år {s}")?)
    }

    fn day_phrase(&self, alloc: Global, s: &str) -> Result<String, CronError> {
        Ok(format!(in alloc; "dag {s}")?)
    }

    fn the_last_day_of_the_month(&self) -> &'static str {
        "sista dagen i månaden"
    }

    fn the_weekday_nearest_day(&self, alloc: Global, day: &str) -> Result<String, CronError> {
        Ok(format!(in alloc; "veckodagen närmast dag {day}")?)
    }

    fn the_last_weekday_of_the_month(&self, alloc: Global, day: &str) -> Result<String, CronError> {
        Ok(format!(in alloc; "sista {day} i månaden")?)
    }

    fn the_nth_weekday_of_the_month(
        &self,
        alloc: Global,
        n: u8,
        day: &str,
    ) -> Result<String, CronError> {
        let ordinal = ordinal(n);
        Ok(format!(in alloc; "den {ordinal} {day} i månaden")?)
    }

    fn dom_and_dow_if_also(&self, alloc: Global, dow: &str) -> Result<String, CronError> {
        Ok(format!(in alloc; "(om det också är {dow})")?)
    }

    fn dom_and_dow_if_also_one_of(&self, alloc: Global, dow: &str) -> Result<String, CronError> {
        Ok(format!(in alloc; "(om det också är en av: {dow})")?)
    }

    fn list_conjunction_and(&self) -> &'static str {
        "och"
    }

    fn list_conjunction_or(&self) -> &'static str {
        "eller"
    }

    fn list_conjunction_and_comma(&self) -> &'static str {
        "och"
    }

    fn day_of_week_names(&self) -> [&'static str; 7] {
        [
            "söndag", "måndag", "tisdag", "onsdag", "torsdag", "fredag", "lördag",
        ]
    }

    fn month_names(&self) -> [&'static str; 12] {
        [
            "januari",
            "februari",
            "mars",
            "april",
            "maj",
            "juni",
            "juli",
            "augusti",
            "september",
            "oktober",
            "november",
            "december",
        ]
    }

    fn time_of_day(
        &self,
        alloc: Global,
        hour: u16,
        minute: u16,
        second: Option<u16>,
    ) -> Result<String, CronError> {
        english_form::time_of_day(alloc, hour, minute, second)
    }

    fn every_past_phrase(
        &self,
        alloc: Global,
        every: &str,
        hours: &str,
    ) -> Result<String, CronError> {
        Ok(format!(in alloc; "{every} under {hours}")?)
    }

    fn past_hour_phrase(&self, alloc: Global, s: &str) -> Result<String, CronError> {
        Ok(format!(in alloc; "timme {s}")?)
    }

    fn every_x_months(&self, alloc: Global, step: u16) -> Result<String, CronError> {
        Ok(format!(in alloc; "var {step}:e månad")?)
    }

    fn every_x_years(&self, alloc: Global, step: u16) -> Result<String, CronError> {
        Ok(format!(in alloc; "var {step}:e år")?)
    }
}
