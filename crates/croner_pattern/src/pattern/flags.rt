//! The flags of a pattern: how its two day fields are joined.

ghost use Rattle.std.specs.Prelude.{◌≡◌};
ghost use Rattle.croner_pattern.specs.Meaning.{meaning_of};

use super::CronPattern;

impl CronPattern {
    /// Whether the day of month is written as `*`.
    ///
    /// ```
    /// let job = Cron::from_str(alloc, "0 9 * * MON")?;
    /// let every_day = job.pattern.is_dom_wildcard(); // true
    /// ```
    pub fn is_dom_wildcard(&self) -> bool
        ensures { result ≡ (meaning_of self.now).star_day }
    {
        self.star_day
    }

    /// Whether the weekday is written as `*`.
    ///
    /// ```
    /// let job = Cron::from_str(alloc, "0 9 * * MON")?;
    /// let every_weekday = job.pattern.is_dow_wildcard(); // false
    /// ```
    pub fn is_dow_wildcard(&self) -> bool
        ensures { result ≡ (meaning_of self.now).star_weekday }
    {
        self.star_weekday
    }

    /// Whether a day has to match both the day of month and the weekday, if neither is written as `*`.
    ///
    /// ```
    /// let parser = CronParser::builder().dom_and_dow(true).build();
    /// let both = parser.parse(alloc, "0 9 1 * MON")?.pattern.matches_dom_and_dow(); // true
    /// ```
    pub fn matches_dom_and_dow(&self) -> bool
        ensures { result ≡ (meaning_of self.now).and }
    {
        self.day_and_weekday
    }
}
