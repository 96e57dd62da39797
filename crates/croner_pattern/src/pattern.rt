//! A pattern: its seven fields, and the dates and times that they name.

ghost use Rattle.std.specs.Prelude.{◌≡◌, true, Some, IfOk, IfErr, if◌then◌else◌};
ghost use Rattle.croner_base.specs.Answers.{Finds, IsFieldError, SucceedsIff};
ghost use Rattle.croner_base.specs.Field.{empty_field, new_shape};
ghost use Rattle.croner_pattern.specs.Meaning.{meaning_of};
ghost use Rattle.croner_pattern.specs.Questions.{asked, clock_field, can_find, FindsMember, IsNearestMember};
ghost use Rattle.croner_pattern.specs.Schedule.{is_single, is_fixed_time};
ghost use Rattle.croner_pattern.specs.Private.Clones.{has_fields_of_one_word};
ghost use Rattle.croner_pattern.specs.Shapes.{has_field_shapes, is_like, new_meaning, weekday_shape};

mod compare;
mod days;
mod flags;
mod mask;
mod matching;
mod text;
mod words;

use croner_base::component::{
    ALL_BIT, CLOSEST_WEEKDAY_BIT, CronComponent, LAST_BIT, NONE_BIT, NTH_ALL,
};
use croner_base::errors::CronError;
use croner_base::limits::{LAST_HOUR, LAST_MINUTE, LAST_MONTH, LAST_SECOND};
use croner_base::time::{Direction, TimeComponent, YEAR_LOWER_LIMIT, YEAR_UPPER_LIMIT};
pub(crate) use mask::days_of_month;
use std::alloc::{AllocError, Global};
use std::fmt;
use text::Text;
pub use words::{PatternWords, Unit};

/// The longest month, in days.
const LONGEST_MONTH: u16 = 31;

/// Sunday a second time: 0 is Sunday too.
const LAST_WEEKDAY: u16 = 7;

/// A cron pattern: seven fields, and how its two day fields are joined.
///
/// A date and time is scheduled where its second, minute, hour, month and year are plain values of their fields and its day
/// fits the two day fields. The pattern keeps the allocator given to its constructor.
///
/// ```
/// let job = Cron::from_str(alloc, "30 9,17 * * MON-FRI")?;
/// let hours = job.pattern.hours.values()?; // [9, 17]
/// let weekdays = job.pattern.days_of_week.values()?; // [1, 2, 3, 4, 5]
/// ```
#[derive(Debug, Drop)]
pub struct CronPattern {
    /// Seconds, 0 to 59.
    pub seconds: CronComponent,
    /// Minutes, 0 to 59.
    pub minutes: CronComponent,
    /// Hours, 0 to 23.
    pub hours: CronComponent,
    /// Days of the month, 1 to 31.
    pub days: CronComponent,
    /// Months, 1 to 12.
    pub months: CronComponent,
    /// Weekdays, 0 for Sunday to 6 for Saturday. The field also has a value 7, which no day matches and which a description
    /// calls Sunday. Of all that a parser reads, only a lone `*` or `?` in Quartz mode leaves 7 marked. The field's own
    /// `parse` marks it wherever a text names 7: as `*`, for example, or, except in Quartz mode, as `7`.
    pub days_of_week: CronComponent,
    /// Years, 1 to 5000.
    pub years: CronComponent,
    text: Text,
    star_day: bool,
    star_weekday: bool,
    day_and_weekday: bool,
    alloc: Global,
}

impl CronPattern {
    /// A pattern that keeps the text, unread, and names nothing yet: each field is empty and has the shape of its
    /// place, and the flags are false.
    ///
    /// The only error is `OutOfMemory`.
    ///
    /// ```
    /// let mut pattern = CronPattern::new(alloc, "each day at 9")?;
    /// pattern.seconds.parse("0")?;
    /// pattern.minutes.parse("0")?;
    /// pattern.hours.parse("9")?;
    /// pattern.days.parse("*")?;
    /// pattern.months.parse("*")?;
    /// pattern.days_of_week.parse("*")?;
    /// pattern.years.parse("*")?;
    /// pattern.set_flags(true, true, false);
    /// ```
    pub fn new(alloc: Global, text: &str) -> Result<Self, CronError>
        ensures ok { IfOk result (λ p. meaning_of p ≡ new_meaning text.now) }
        ensures shapes { IfOk result (λ p. has_field_shapes (meaning_of p) ≡ true) }
        ensures err { IfErr result (λ e. e ≡ CronError.OutOfMemory) }
    {
        Self::new_in_mode(alloc, text, false)
    }

    /// As [`new`](Self::new), with the weekdays numbered as a mode has them: in Quartz mode 1 is subtracted from each
    /// number in a text of weekdays, so Sunday is 1. The parser makes its patterns with it.
    ///
    /// The only error is `OutOfMemory`.
    ///
    /// ```
    /// let mut pattern = CronPattern::new_in_mode(alloc, "on Mondays", true)?;
    /// pattern.days_of_week.parse("2")?;
    /// let weekdays = pattern.days_of_week.values()?; // [1]
    /// ```
    pub fn new_in_mode(alloc: Global, text: &str, quartz: bool) -> Result<Self, CronError>
        ensures ok { IfOk result (λ p. meaning_of p
            ≡ record (new_meaning text.now) { days_of_week = empty_field (weekday_shape (if quartz then 1 else 0)) }) }
        ensures shapes { IfOk result (λ p. has_field_shapes (meaning_of p) ≡ true) }
        ensures err { IfErr result (λ e. e ≡ CronError.OutOfMemory) }
    {
        let day_features = LAST_BIT | CLOSEST_WEEKDAY_BIT;
        let weekday_features = LAST_BIT | NTH_ALL;
        let (first_year, last_year) = (YEAR_LOWER_LIMIT as u16, YEAR_UPPER_LIMIT as u16);
        Ok(CronPattern {
            seconds: CronComponent::new(alloc, 0, LAST_SECOND as u16, NONE_BIT, 0)?,
            minutes: CronComponent::new(alloc, 0, LAST_MINUTE as u16, NONE_BIT, 0)?,
            hours: CronComponent::new(alloc, 0, LAST_HOUR as u16, NONE_BIT, 0)?,
            days: CronComponent::new(alloc, 1, LONGEST_MONTH, day_features, 0)?,
            months: CronComponent::new(alloc, 1, LAST_MONTH as u16, NONE_BIT, 0)?,
            days_of_week: CronComponent::new(
                alloc,
                0,
                LAST_WEEKDAY,
                weekday_features,
                weekday_offset(quartz),
            )?,
            years: CronComponent::new(alloc, first_year, last_year, NONE_BIT, 0)?,
            text: Text::new(alloc, text)?,
            star_day: false,
            star_weekday: false,
            day_and_weekday: false,
            alloc,
        })
    }

    /// Whether each field has the shape of its place: its bounds, supported modifiers and input offset. The offset of
    /// the weekdays may be 0 or 1. Every pattern from [`new`](Self::new) and from a parser has these shapes.
    ///
    /// ```
    /// let pattern = CronPattern::new(alloc, "by hand")?;
    /// if pattern.has_field_shapes() {
    ///     let job = Cron { pattern };
    /// }
    /// ```
    pub fn has_field_shapes(&self) -> bool
        ensures { result ≡ has_field_shapes (meaning_of self.now) }
    {
        let (first_year, last_year) = (YEAR_LOWER_LIMIT as u16, YEAR_UPPER_LIMIT as u16);
        is_like(&self.seconds, 0, LAST_SECOND as u16, NONE_BIT, 0)
            && is_like(&self.minutes, 0, LAST_MINUTE as u16, NONE_BIT, 0)
            && is_like(&self.hours, 0, LAST_HOUR as u16, NONE_BIT, 0)
            && is_like(&self.days, 1, LONGEST_MONTH, CLOSEST_WEEKDAY_BIT, 0)
            && is_like(&self.months, 1, LAST_MONTH as u16, NONE_BIT, 0)
            && (is_like(&self.days_of_week, 0, LAST_WEEKDAY, NTH_ALL, 0)
                || is_like(&self.days_of_week, 0, LAST_WEEKDAY, NTH_ALL, 1))
            && is_like(&self.years, first_year, last_year, NONE_BIT, 0)
    }

    /// Sets the three flags, and nothing else: whether the day of month and the weekday are written as `*`, and whether a
    /// day has to match both of them.
    ///
    /// ```
    /// // The first of a month, where it is a Monday.
    /// let mut job = Cron::from_str(alloc, "0 9 1 * MON")?;
    /// job.pattern.set_flags(false, false, true);
    /// ```
    pub fn set_flags(&mut self, star_day: bool, star_weekday: bool, and: bool)
        ensures { meaning_of self.new
            ≡ record (meaning_of self.old) { star_day = star_day; star_weekday = star_weekday; and = and } }
    {
        self.star_day = star_day;
        self.star_weekday = star_weekday;
        self.day_and_weekday = and;
    }

    /// The text of the pattern: the one handed to [`new`](Self::new).
    ///
    /// ```
    /// let pattern = CronPattern::new(alloc, "by hand")?;
    /// let text = pattern.as_str(); // by hand
    /// ```
    pub fn as_str(&self) -> &str
        ensures { result.now ≡ (meaning_of self.now).text }
    {
        self.text.as_str()
    }

    /// The allocator that the pattern's constructor was given.
    pub fn allocator(&self) -> Global
        ensures { result ≡ self.now.alloc }
    {
        self.alloc
    }

    /// Whether seconds, minutes and hours each name exactly one value, with step 1 and without a `*`. Such a pattern runs
    /// at one time of day.
    ///
    /// ```
    /// let daily = Cron::from_str(alloc, "30 9 * * *")?.pattern.is_fixed_time(); // true
    /// let hourly = Cron::from_str(alloc, "30 * * * *")?.pattern.is_fixed_time(); // false
    /// ```
    #[tactic(auto, using(crate::proofs::days::JoinedTests::and_false))]
    pub fn is_fixed_time(&self) -> bool
        ensures { result ≡ is_fixed_time (meaning_of self.now) }
    {
        // Most patterns that run more than once a day show it in their hours.
        is_single(&self.hours) && is_single(&self.minutes) && is_single(&self.seconds)
    }

    /// The least plain value of the seconds, minutes or hours from `value` on (forward), or the greatest up to it
    /// (backward); `None` where there is none.
    ///
    /// `ComponentError` for any other component, and for a value above the field's maximum. A field without the shape of
    /// its place also refuses a forward search from below its minimum, and any search if its maximum is 0.
    /// `OutOfMemory` where there is no memory for the message.
    ///
    /// ```
    /// let job = Cron::from_str(alloc, "*/20 9 * * *")?;
    /// let (minute, forward) = (TimeComponent::Minute, Direction::Forward);
    /// let next = job.pattern.find_match_in_component(21, minute, forward)?; // Some(40)
    /// let none = job.pattern.find_match_in_component(41, minute, forward)?; // None
    /// ```
    pub fn find_match_in_component(
        &self,
        value: u32,
        component_type: TimeComponent,
        direction: Direction,
    ) -> Result<Option<u32>, CronError>
        ensures answer { SucceedsIff (can_find direction (clock_field (meaning_of self.now) component_type) value) result }
        ensures value { IfOk result (FindsMember direction (clock_field (meaning_of self.now) component_type) value) }
    {
        let field = match component_type {
            TimeComponent::Second => &self.seconds,
            TimeComponent::Minute => &self.minutes,
            TimeComponent::Hour => &self.hours,
            _ => return Err(self.refusal("Only seconds, minutes and hours can be searched.")),
        };
        if value > u32::from(field.max()) {
            return Err(self.refusal("The value to search from is above the field's maximum."));
        }
        let value = value as u16;
        let asked = match direction {
            Direction::Forward => value,
            Direction::Backward => field.max(),
        };
        field.is_bit_set(asked, ALL_BIT)?;
        Ok(nearest_member(field, value, direction).map(u32::from))
    }

    // Whether each field but the years is of one word, as in every pattern whose fields have the shapes of their places.
    #[inline(always)]
    fn has_fields_of_one_word(&self) -> bool
        ensures { result ≡ has_fields_of_one_word (meaning_of self.now) }
    {
        self.seconds.is_of_one_word()
            && self.minutes.is_of_one_word()
            && self.hours.is_of_one_word()
            && self.days.is_of_one_word()
            && self.months.is_of_one_word()
            && self.days_of_week.is_of_one_word()
    }

    // A clone, given the two parts that take memory. The rest is copied in one go, field by field.
    #[inline(always)]
    fn clone_around(&self, years: CronComponent, text: Text) -> Self
        requires { has_fields_of_one_word (meaning_of self.now) ≡ true }
        ensures { meaning_of result ≡ record (meaning_of self.now) { years = years; text = text } }
    {
        CronPattern {
            seconds: self.seconds.clone_in_place(),
            minutes: self.minutes.clone_in_place(),
            hours: self.hours.clone_in_place(),
            days: self.days.clone_in_place(),
            months: self.months.clone_in_place(),
            days_of_week: self.days_of_week.clone_in_place(),
            years,
            text,
            star_day: self.star_day,
            star_weekday: self.star_weekday,
            day_and_weekday: self.day_and_weekday,
            alloc: self.alloc,
        }
    }

    fn refusal(&self, message: &str) -> CronError
        ensures { IsFieldError result }
    {
        match String::from_str(self.alloc, message) {
            Ok(message) => CronError::ComponentError(message),
            Err(_) => CronError::OutOfMemory,
        }
    }
}

/// What is subtracted from the number of a weekday.
fn weekday_offset(quartz: bool) -> u16
    ensures { result ≡ (if quartz then 1 else 0) }
{
    if quartz { 1 } else { 0 }
}

/// Whether a field has these bounds, modifiers and offset. Plain values and `LAST_BIT` are supported everywhere.
fn is_like(field: &CronComponent, min: u16, max: u16, features: u8, offset: u16) -> bool
    ensures { result ≡ is_like field.now.shape (new_shape min max features offset) }
{
    field.min() == min
        && field.max() == max
        && field.features() == features | ALL_BIT | LAST_BIT
        && field.input_offset() == offset
}

/// The least plain value of a field from a value on (forward), or the greatest up to it (backward).
#[inline(always)]
pub fn nearest_member(field: &CronComponent, value: u16, direction: Direction) -> Option<u16>
    ensures { IsNearestMember direction field.now value result }
{
    match direction {
        Direction::Forward => field.least_from(value),
        Direction::Backward => field.greatest_to(value),
    }
}

/// Whether a value has one of the modifiers, if the field can answer that.
#[inline(always)]
fn ask(field: &CronComponent, value: u16, bit: u8) -> Result<bool, CronError>
    ensures { Finds (λ held. held) (asked bit field.now value) result }
{
    field.is_bit_set(value, bit)
}

/// Whether a field names exactly one value, with step 1 and without a `*`.
#[inline(always)]
fn is_single(field: &CronComponent) -> bool
    ensures { result ≡ is_single field.now }
{
    field.step() == 1 && !field.from_wildcard() && field.count_set_values(ALL_BIT) == 1
}

impl Clone for CronPattern {
    ghost is_clone = { λ original copy. meaning_of copy ≡ meaning_of original };

    // What takes memory comes first, so that no copied field has to be set aside meanwhile. Not inlined, since a caller
    // that contains it would join both paths, and set each field aside for that.
    #[inline(never)]
    fn clone(&self) -> Result<CronPattern, AllocError> {
        if self.has_fields_of_one_word() {
            let text = self.text.copy(self.alloc)?;
            let years = self.years.clone()?;
            return Ok(self.clone_around(years, text));
        }
        Ok(CronPattern {
            seconds: self.seconds.clone()?,
            minutes: self.minutes.clone()?,
            hours: self.hours.clone()?,
            days: self.days.clone()?,
            months: self.months.clone()?,
            days_of_week: self.days_of_week.clone()?,
            years: self.years.clone()?,
            text: self.text.copy(self.alloc)?,
            star_day: self.star_day,
            star_weekday: self.star_weekday,
            day_and_weekday: self.day_and_weekday,
            alloc: self.alloc,
        })
    }
}

impl fmt::Display for CronPattern {
    ghost output = { λ p. Some ((meaning_of p).text) };

    fn fmt<W: fmt::Write>(&self, f: &mut fmt::Formatter<W>) -> fmt::Result {
        let text = self.text.as_str();
        write!(f, "{text}")
    }
}
