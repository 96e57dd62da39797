//! A job: a cron pattern, and the times at which it runs.

ghost use Rattle.std.specs.Prelude.{◌≡◌, ◌↔◌, ◌&&◌, true, Ok, IsTrue, IsOk, IfOk, if◌then◌else◌};
ghost use Rattle.croner_pattern.specs.Meaning.{meaning_of};
ghost use Rattle.croner_pattern.specs.Shapes.{has_field_shapes};

use crate::parser::CronParser;
use croner_base::errors::CronError;
use croner_base::time::{CivilDate, CivilDateTime, CronDateTime, Weekday};
use croner_pattern::pattern::CronPattern;
use std::alloc::{AllocError, Global};
use std::fmt;

/// How a job behaves where the clock changes.
///
/// A clock that is put forward skips a range of seconds (a gap), and one that is put back shows a range twice.
#[derive(Debug, Drop, PartialEq, Eq)]
pub enum JobType {
    /// It runs at one time of day: seconds, minutes and hours each name exactly one value, with step 1 and without a star.
    /// Where the clock shows that second twice, it runs once, at the earlier instant. Where the clock skips the second, it runs
    /// at the first instant after the skipped range, if the date that the clock shows then matches.
    FixedTime,
    /// Any other job. It runs at each instant at which the clock shows a scheduled second: twice where the clock shows it
    /// twice, and not at all where the clock skips it.
    IntervalWildcard,
}

/// A cron job: the pattern of its times. Jobs are compared and hashed as their patterns are, not by their texts.
///
/// Each field of its pattern has the shape of its place: its bounds, modifiers and offset. That is an invariant of the type.
/// The parser gives such a pattern. A `Cron` can be made of another pattern only if its
/// [`has_field_shapes`](CronPattern::has_field_shapes) is true, and code that writes to `pattern` has to keep it so.
#[derive(Debug, Drop, PartialEq, Eq, PartialOrd, Ord, Hash)]
pub struct Cron {
    /// The fields, the flags and the text.
    pub pattern: CronPattern,
    ghost shaped: { has_field_shapes (meaning_of pattern) ≡ true },
}

impl Cron {
    ghost use Rattle.jiff_core.specs.Calendar.{days_in_month};
    ghost use Rattle.croner_base.specs.Civil.{weekday_index, weekday_of_date};
    ghost use Rattle.croner_base.specs.Zone.{reading};
    ghost use Rattle.croner_pattern.specs.Schedule.{is_date_matching, is_day_matching, is_plain, first_weekday, is_fixed_time, IsScheduled};
    ghost use Rattle.croner.specs.parser.Gives.{Gives};
    ghost use Rattle.croner.specs.parser.Grammar.{outcome};
    ghost use Rattle.croner.specs.parser.Settings.{default_settings};
    ghost use Rattle.croner.specs.Views.{job_of};

    /// Reads a pattern with the default settings; see [`CronParser::parse`] for the errors.
    ///
    /// ```
    /// let job = Cron::from_str(alloc, "30 9 * * MON-FRI")?;
    /// let monday = DateTime::new(2024, 7, 1, 9, 30, 0, 0)?;
    /// let is_run = job.is_time_matching(&monday)?; // true
    /// ```
    pub fn from_str(alloc: Global, text: &str) -> Result<Cron, CronError>
        ensures { Gives job_of result (outcome default_settings text.now) }
    {
        CronParser::new().parse(alloc, text)
    }

    /// The text of the pattern: in capitals, trimmed, with nicknames and names replaced by numbers.
    ///
    /// ```
    /// let job = Cron::from_str(alloc, "@weekly")?;
    /// let text = job.as_str(); // 0 0 * * 0
    /// ```
    pub fn as_str(&self) -> &str
        ensures { result.now ≡ (job_of self.now).text }
    {
        self.pattern.as_str()
    }

    /// Whether the clock of a time's zone shows a scheduled second at that time. The fraction of a second is dropped.
    /// True in both halves of a repeated range, and false at a run that is only carried across a gap.
    ///
    /// The answer is always `Ok`.
    ///
    /// ```
    /// let job = Cron::from_str(alloc, "30 9 * * MON-FRI")?;
    /// let sunday = DateTime::new(2024, 6, 30, 9, 30, 0, 0)?;
    /// let is_run = job.is_time_matching(&sunday)?; // false
    /// ```
    pub fn is_time_matching<T: CronDateTime>(&self, time: &T) -> Result<bool, CronError>
        ensures ok { IsOk result }
        ensures value { IfOk result (λ held. IsTrue held ↔ IsScheduled (job_of self.now) (reading (T.moment time.now))) }
    {
        let civil = time.to_civil();
        if self.matches_time(civil)? {
            // The weekday takes longer than all before it, and most times are ruled out by then.
            return self.matches_date(civil.date(), time.civil_weekday());
        }
        Ok(false)
    }

    /// Whether the second, the minute and the hour are named.
    fn matches_time(&self, civil: CivilDateTime) -> Result<bool, CronError>
        ensures { result ≡ Ok (is_plain (job_of self.now).seconds civil.time.second
            && (is_plain (job_of self.now).minutes civil.time.minute && is_plain (job_of self.now).hours civil.time.hour)) }
    {
        if !self.pattern.second_match(civil.second())? {
            return Ok(false);
        }
        if !self.pattern.minute_match(civil.minute())? {
            return Ok(false);
        }
        self.pattern.hour_match(civil.hour())
    }

    /// Whether a date is named. The weekday is that of the date.
    fn matches_date(&self, date: CivilDate, weekday: Weekday) -> Result<bool, CronError>
        requires { weekday_index weekday ≡ weekday_of_date date }
        ensures { result ≡ Ok (is_date_matching (job_of self.now) date) }
    {
        if !self.pattern.year_match(date.year())? {
            return Ok(false);
        }
        if !self.pattern.month_match(date.month())? {
            return Ok(false);
        }
        self.matches_day(date, weekday)
    }

    /// Whether the day of a date is named. The weekday is that of the date.
    fn matches_day(&self, date: CivilDate, weekday: Weekday) -> Result<bool, CronError>
        requires { weekday_index weekday ≡ weekday_of_date date }
        ensures { result ≡ Ok (is_day_matching (job_of self.now) (days_in_month date.year date.month) (first_weekday date.year date.month) date.day) }
    {
        self.pattern
            .day_match(date.year(), date.month(), date.day(), weekday)
    }

    /// Which kind of job it is.
    ///
    /// ```
    /// let daily = Cron::from_str(alloc, "30 9 * * *")?.determine_job_type(); // JobType::FixedTime
    /// let hourly = Cron::from_str(alloc, "30 * * * *")?.determine_job_type(); // JobType::IntervalWildcard
    /// ```
    pub fn determine_job_type(&self) -> JobType
        ensures { result ≡ (if is_fixed_time (job_of self.now) then JobType.FixedTime else JobType.IntervalWildcard) }
    {
        if self.pattern.is_fixed_time() {
            JobType::FixedTime
        } else {
            JobType::IntervalWildcard
        }
    }
}

/// A copy has the same pattern. The only error is lack of memory.
impl Clone for Cron {
    ghost use Rattle.croner.specs.Views.{job_of};

    ghost is_clone = { λ original copy. job_of copy ≡ job_of original };

    #[inline(always)]
    fn clone(&self) -> Result<Cron, AllocError> {
        Ok(Cron {
            pattern: self.pattern.clone()?,
        })
    }
}

impl fmt::Display for Cron {
    ghost use Rattle.std.specs.Prelude.{Some};
    ghost use Rattle.croner.specs.Views.{job_of};

    ghost output = { λ c. Some ((job_of c).text) };

    fn fmt<W: fmt::Write>(&self, f: &mut fmt::Formatter<W>) -> fmt::Result {
        let text = self.as_str();
        write!(f, "{text}")
    }
}
