//! What a language has to supply, so that a pattern can be described in it.

use croner_base::errors::CronError;
use std::alloc::Global;

/// A language for descriptions.
///
/// Each function returns a text, or a piece of one. An implementation states once, as its `meaning`, the text of each
/// function for its arguments, and each function has to return that text. A function that builds a text takes the
/// allocator as its first argument, and its only error is `OutOfMemory`; the others take no memory. A language that has
/// some of its texts in the English form can call the functions of [`english_form`](crate::english_form) for these.
///
/// ```
/// // In the `impl` of a language that writes hours as English does:
/// fn past_hour_phrase(&self, alloc: Global, s: &str) -> Result<String, CronError> {
///     english_form::past_hour_phrase(alloc, s)
/// }
/// ```
pub trait Language {
    ghost use Rattle.std.specs.Prelude.{◌≡◌, map};
    ghost use Rattle.croner_words.specs.Wording.{Wording};
    ghost use Rattle.croner_words.specs.Writes.{Writes};

    /// The text of each function.
    ghost meaning: { Self → Wording };

    /// Runs at the beginning of each minute.
    ///
    /// ```
    /// let text = English.every_minute(); // Every minute
    /// ```
    fn every_minute(&self) -> &'static str
        ensures { result.now ≡ (meaning self.now).every_minute };

    /// Runs at each second.
    ///
    /// ```
    /// let text = English.every_second_phrase(); // Every second
    /// ```
    fn every_second_phrase(&self) -> &'static str
        ensures { result.now ≡ (meaning self.now).every_second_phrase };

    /// Every so many minutes.
    ///
    /// ```
    /// let text = English.every_x_minutes(alloc, 5)?; // every 5 minutes
    /// ```
    fn every_x_minutes(&self, alloc: Global, step: u16) -> Result<String, CronError>
        ensures { Writes ((meaning self.now).every_x_minutes step) result };

    /// Every so many seconds.
    ///
    /// ```
    /// let text = English.every_x_seconds(alloc, 10)?; // every 10 seconds
    /// ```
    fn every_x_seconds(&self, alloc: Global, step: u16) -> Result<String, CronError>
        ensures { Writes ((meaning self.now).every_x_seconds step) result };

    /// Every so many hours.
    ///
    /// ```
    /// let text = English.every_x_hours(alloc, 2)?; // of every 2 hours
    /// ```
    fn every_x_hours(&self, alloc: Global, step: u16) -> Result<String, CronError>
        ensures { Writes ((meaning self.now).every_x_hours step) result };

    /// Each minute of every so many hours. No description uses it.
    ///
    /// ```
    /// let text = English.every_minute_of_every_x_hours(alloc, 2)?; // Every minute, of every 2 hours
    /// ```
    fn every_minute_of_every_x_hours(&self, alloc: Global, step: u16) -> Result<String, CronError>
        ensures { Writes ((meaning self.now).every_minute_of_every_x_hours step) result };

    /// At a time of day.
    ///
    /// ```
    /// let text = English.at_time(alloc, "09:05")?; // At 09:05
    /// ```
    fn at_time(&self, alloc: Global, time: &str) -> Result<String, CronError>
        ensures { Writes ((meaning self.now).at_time time.now) result };

    /// From a time of day on, every so many seconds of its minute.
    ///
    /// ```
    /// let text = English.at_time_and_every_x_seconds(alloc, "09:05", 10)?; // At 09:05, every 10 seconds
    /// ```
    fn at_time_and_every_x_seconds(
        &self,
        alloc: Global,
        time: &str,
        step: u16,
    ) -> Result<String, CronError>
        ensures { Writes ((meaning self.now).at_time_and_every_x_seconds time.now step) result };

    /// At a time of day, at some seconds of its minute.
    ///
    /// ```
    /// let text = English.at_time_at_second(alloc, "09:05", "0 and 30")?; // At 09:05, at second 0 and 30
    /// ```
    fn at_time_at_second(
        &self,
        alloc: Global,
        time: &str,
        second: &str,
    ) -> Result<String, CronError>
        ensures { Writes ((meaning self.now).at_time_at_second time.now second.now) result };

    /// What goes before times that aren't one time of day.
    ///
    /// ```
    /// let text = English.at_phrase(alloc, "every 5 minutes")?; // At every 5 minutes
    /// ```
    fn at_phrase(&self, alloc: Global, phrase: &str) -> Result<String, CronError>
        ensures { Writes ((meaning self.now).at_phrase phrase.now) result };

    /// What goes before days.
    ///
    /// ```
    /// let text = English.on_phrase(alloc, "Monday")?; // on Monday
    /// ```
    fn on_phrase(&self, alloc: Global, phrase: &str) -> Result<String, CronError>
        ensures { Writes ((meaning self.now).on_phrase phrase.now) result };

    /// What goes before months and years.
    ///
    /// ```
    /// let text = English.in_phrase(alloc, "July")?; // in July
    /// ```
    fn in_phrase(&self, alloc: Global, phrase: &str) -> Result<String, CronError>
        ensures { Writes ((meaning self.now).in_phrase phrase.now) result };

    /// A list of seconds.
    ///
    /// ```
    /// let text = English.second_phrase(alloc, "0 and 30")?; // second 0 and 30
    /// ```
    fn second_phrase(&self, alloc: Global, s: &str) -> Result<String, CronError>
        ensures { Writes ((meaning self.now).second_phrase s.now) result };

    /// A list of minutes.
    ///
    /// ```
    /// let text = English.minute_phrase(alloc, "5-10")?; // minute 5-10
    /// ```
    fn minute_phrase(&self, alloc: Global, s: &str) -> Result<String, CronError>
        ensures { Writes ((meaning self.now).minute_phrase s.now) result };

    /// What [`minute_phrase`](Self::minute_phrase) says, in each hour.
    ///
    /// ```
    /// let text = English.minute_past_every_hour_phrase(alloc, "minute 5")?; // minute 5 past every hour
    /// ```
    fn minute_past_every_hour_phrase(&self, alloc: Global, s: &str) -> Result<String, CronError>
        ensures { Writes ((meaning self.now).minute_past_every_hour_phrase s.now) result };

    /// A list of hours.
    ///
    /// ```
    /// let text = English.hour_phrase(alloc, "9-17")?; // of hour 9-17
    /// ```
    fn hour_phrase(&self, alloc: Global, s: &str) -> Result<String, CronError>
        ensures { Writes ((meaning self.now).hour_phrase s.now) result };

    /// A list of years.
    ///
    /// ```
    /// let text = English.year_phrase(alloc, "2030")?; // year 2030
    /// ```
    fn year_phrase(&self, alloc: Global, s: &str) -> Result<String, CronError>
        ensures { Writes ((meaning self.now).year_phrase s.now) result };

    /// A list of days of the month.
    ///
    /// ```
    /// let text = English.day_phrase(alloc, "1 and 15")?; // day 1 and 15
    /// ```
    fn day_phrase(&self, alloc: Global, s: &str) -> Result<String, CronError>
        ensures { Writes ((meaning self.now).day_phrase s.now) result };

    /// The last day of the month.
    ///
    /// ```
    /// let text = English.the_last_day_of_the_month(); // the last day of the month
    /// ```
    fn the_last_day_of_the_month(&self) -> &'static str
        ensures { result.now ≡ (meaning self.now).the_last_day_of_the_month };

    /// The weekday nearest to a day of the month.
    ///
    /// ```
    /// let text = English.the_weekday_nearest_day(alloc, "15")?; // the weekday nearest day 15
    /// ```
    fn the_weekday_nearest_day(&self, alloc: Global, day: &str) -> Result<String, CronError>
        ensures { Writes ((meaning self.now).the_weekday_nearest_day day.now) result };

    /// The last of a weekday in the month, by the weekday's name.
    ///
    /// ```
    /// let text = English.the_last_weekday_of_the_month(alloc, "Friday")?; // the last Friday of the month
    /// ```
    fn the_last_weekday_of_the_month(&self, alloc: Global, day: &str) -> Result<String, CronError>
        ensures { Writes ((meaning self.now).the_last_weekday_of_the_month day.now) result };

    /// The nth of a weekday in the month, by the weekday's name.
    ///
    /// ```
    /// let text = English.the_nth_weekday_of_the_month(alloc, 2, "Friday")?; // the 2nd Friday of the month
    /// ```
    fn the_nth_weekday_of_the_month(
        &self,
        alloc: Global,
        n: u8,
        day: &str,
    ) -> Result<String, CronError>
        ensures { Writes ((meaning self.now).the_nth_weekday_of_the_month n day.now) result };

    /// That a day must also be such a weekday.
    ///
    /// ```
    /// let text = English.dom_and_dow_if_also(alloc, "Friday")?; // (if it is also Friday)
    /// ```
    fn dom_and_dow_if_also(&self, alloc: Global, dow: &str) -> Result<String, CronError>
        ensures { Writes ((meaning self.now).dom_and_dow_if_also dow.now) result };

    /// That a day must also be one of several weekdays.
    ///
    /// ```
    /// let days = "Monday and the last Friday of the month";
    /// let text = English.dom_and_dow_if_also_one_of(alloc, days)?;
    /// // (if it is also one of: Monday and the last Friday of the month)
    /// ```
    fn dom_and_dow_if_also_one_of(&self, alloc: Global, dow: &str) -> Result<String, CronError>
        ensures { Writes ((meaning self.now).dom_and_dow_if_also_one_of dow.now) result };

    /// The word before the last item of a list.
    ///
    /// ```
    /// let text = English.list_conjunction_and(); // and
    /// ```
    fn list_conjunction_and(&self) -> &'static str
        ensures { result.now ≡ (meaning self.now).list_conjunction_and };

    /// The word between days of the month and weekdays, where either is enough.
    ///
    /// ```
    /// let text = English.list_conjunction_or(); // or
    /// ```
    fn list_conjunction_or(&self) -> &'static str
        ensures { result.now ≡ (meaning self.now).list_conjunction_or };

    /// The word before the last item of a list, with a comma in a language that writes one there. No description uses it.
    ///
    /// ```
    /// let text = English.list_conjunction_and_comma(); // , and
    /// ```
    fn list_conjunction_and_comma(&self) -> &'static str
        ensures { result.now ≡ (meaning self.now).list_conjunction_and_comma };

    /// The names of the weekdays, from Sunday on.
    ///
    /// ```
    /// let sunday = English.day_of_week_names()[0]; // Sunday
    /// ```
    fn day_of_week_names(&self) -> [&'static str; 7]
        ensures { map (λ name. name.now) result ≡ (meaning self.now).day_of_week_names };

    /// The names of the months, from January on.
    ///
    /// ```
    /// let january = English.month_names()[0]; // January
    /// ```
    fn month_names(&self) -> [&'static str; 12]
        ensures { map (λ name. name.now) result ≡ (meaning self.now).month_names };

    /// A time of day: hour, minute and, where one is given, second.
    ///
    /// ```
    /// let text = English.time_of_day(alloc, 9, 5, Some(30))?; // 09:05:30
    /// ```
    fn time_of_day(
        &self,
        alloc: Global,
        hour: u16,
        minute: u16,
        second: Option<u16>,
    ) -> Result<String, CronError>
        ensures { Writes ((meaning self.now).time_of_day hour minute second) result };

    /// Something that repeats, and the hours in which it does.
    ///
    /// ```
    /// let text = English.every_past_phrase(alloc, "Every minute", "hour 9-17")?; // Every minute past hour 9-17
    /// ```
    fn every_past_phrase(
        &self,
        alloc: Global,
        every: &str,
        hours: &str,
    ) -> Result<String, CronError>
        ensures { Writes ((meaning self.now).every_past_phrase every.now hours.now) result };

    /// A list of hours, as [`every_past_phrase`](Self::every_past_phrase) takes it.
    ///
    /// ```
    /// let text = English.past_hour_phrase(alloc, "9-17")?; // hour 9-17
    /// ```
    fn past_hour_phrase(&self, alloc: Global, s: &str) -> Result<String, CronError>
        ensures { Writes ((meaning self.now).past_hour_phrase s.now) result };

    /// Every so many months.
    ///
    /// ```
    /// let text = English.every_x_months(alloc, 2)?; // every 2 months
    /// ```
    fn every_x_months(&self, alloc: Global, step: u16) -> Result<String, CronError>
        ensures { Writes ((meaning self.now).every_x_months step) result };

    /// Every so many years.
    ///
    /// ```
    /// let text = English.every_x_years(alloc, 2)?; // year every 2
    /// ```
    fn every_x_years(&self, alloc: Global, step: u16) -> Result<String, CronError>
        ensures { Writes ((meaning self.now).every_x_years step) result };
}
