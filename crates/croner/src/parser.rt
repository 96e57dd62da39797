//! Reading a cron pattern: the settings of a parser, and its call `parse`.

ghost use Rattle.std.specs.Prelude.{◌≡◌};

mod characters;
mod counts;
mod escapes;
mod explain;
mod fault;
mod fields;
mod messages;
mod part;
mod pieces;
mod place;
mod prepare;
mod read;
mod second_reading;
mod settle;
mod split;
mod stop;

use crate::job::Cron;
use croner_base::errors::CronError;
use croner_pattern::pattern::CronPattern;
pub use explain::ParseOutcome;
pub use fault::{
    Expected, ExpectedCharacter, ExpectedDay, ExpectedNickname, ExpectedStar, ExpectedStep,
    ExpectedText, ExpectedValue, FaultKind, FieldValues, FieldsHint, Hint, PatternFault,
    PatternField, SignHint, Suggestion, TextHint, ValueNames,
};
use std::alloc::Global;
use std::marker::Model;
use stop::Stop;

/// Whether a pattern has a field for seconds.
#[derive(Debug, Clone, Copy, Default, PartialEq, Eq, PartialOrd, Ord)]
pub enum Seconds {
    /// The field may be left out, and is then `0`.
    #[default]
    Optional,
    /// The field is required.
    Required,
    /// The field is not allowed; it is `0`.
    Disallowed,
}

impl Seconds {
    ghost use Rattle.croner.specs.parser.Settings.{seconds_optional, seconds_required, seconds_disallowed};

    /// Whether the field may be written or left out.
    pub fn is_optional(&self) -> bool
        ensures { result ≡ seconds_optional self.now }
    {
        match self {
            Seconds::Optional => true,
            Seconds::Required | Seconds::Disallowed => false,
        }
    }

    /// Whether the field is required.
    pub fn is_required(&self) -> bool
        ensures { result ≡ seconds_required self.now }
    {
        match self {
            Seconds::Required => true,
            Seconds::Optional | Seconds::Disallowed => false,
        }
    }

    /// Whether the field is not allowed.
    pub fn is_disallowed(&self) -> bool
        ensures { result ≡ seconds_disallowed self.now }
    {
        match self {
            Seconds::Disallowed => true,
            Seconds::Optional | Seconds::Required => false,
        }
    }
}

/// Whether a pattern has a field for the year.
#[derive(Debug, Clone, Copy, Default, PartialEq, Eq, PartialOrd, Ord)]
pub enum Year {
    /// The field may be left out, and is then `*`.
    #[default]
    Optional,
    /// The field is required.
    Required,
    /// The field is not allowed; it is `*`.
    Disallowed,
}

impl Year {
    ghost use Rattle.croner.specs.parser.Settings.{year_optional, year_required, year_disallowed};

    /// Whether the field may be written or left out.
    pub fn is_optional(&self) -> bool
        ensures { result ≡ year_optional self.now }
    {
        match self {
            Year::Optional => true,
            Year::Required | Year::Disallowed => false,
        }
    }

    /// Whether the field is required.
    pub fn is_required(&self) -> bool
        ensures { result ≡ year_required self.now }
    {
        match self {
            Year::Required => true,
            Year::Optional | Year::Disallowed => false,
        }
    }

    /// Whether the field is not allowed.
    pub fn is_disallowed(&self) -> bool
        ensures { result ≡ year_disallowed self.now }
    {
        match self {
            Year::Disallowed => true,
            Year::Optional | Year::Required => false,
        }
    }
}

/// A reader of cron patterns. [`CronParser::builder`] makes one with settings of your own.
#[derive(Debug, Clone, Copy, Default, PartialEq, Eq, PartialOrd, Ord)]
pub struct CronParser {
    seconds: Seconds,
    year: Year,
    dom_and_dow: bool,
    alternative_weekdays: bool,
    sloppy_ranges: bool,
}

impl Model for CronParser {
    ghost use Rattle.croner.specs.parser.Settings.{Settings};

    ghost Value = { Settings };

    ghost view = { λ p. record { seconds_field = p.seconds; year_field = p.year; both_days = p.dom_and_dow; quartz = p.alternative_weekdays; sloppy = p.sloppy_ranges } };

    ghost inverse = { λ s. record { seconds = s.seconds_field; year = s.year_field; dom_and_dow = s.both_days; alternative_weekdays = s.quartz; sloppy_ranges = s.sloppy } };
}

impl CronParser {
    ghost use Rattle.croner_pattern.specs.Meaning.{meaning_of};
    ghost use Rattle.croner.specs.parser.Settings.{default_settings};
    ghost use Rattle.croner.specs.parser.Gives.{Gives};
    ghost use Rattle.croner.specs.Private.parser.Steps.{Reads};
    ghost use Rattle.croner.specs.parser.Grammar.{outcome};
    ghost use Rattle.croner.specs.Views.{job_of};

    /// A parser with the default settings: seconds and year are optional, and `dom_and_dow`, `alternative_weekdays` and
    /// `sloppy_ranges` are off.
    ///
    /// ```
    /// let parser = CronParser::new();
    /// let job = parser.parse(alloc, "*/10 9-17 * * MON-FRI")?; // the text that is kept: */10 9-17 * * 1-5
    /// ```
    pub fn new() -> Self
        ensures { result ≡ default_settings }
    {
        CronParser::default()
    }

    /// Reads a pattern.
    ///
    /// The text is put into capitals (ASCII letters only) and trimmed; nicknames and names are replaced; the fields are
    /// counted, checked for illegal characters, and read. The pattern keeps the text with numbers for names.
    ///
    /// The first fault is the answer. It is `EmptyPattern` for a text of only white space, and `InvalidPattern` for
    /// a count of fields that the settings don't accept. It is `IllegalCharacters` for a character that is not legal
    /// in its field, and `ComponentError` for a field that can't be read. `OutOfMemory` where memory runs out.
    ///
    /// ```
    /// let parser = CronParser::builder().seconds(Seconds::Required).build();
    /// let job = parser.parse(alloc, "0 30 9 * * MON-FRI")?; // the text that is kept: 0 30 9 * * 1-5
    /// ```
    pub fn parse(&self, alloc: Global, pattern: &str) -> Result<Cron, CronError>
        ensures { Gives job_of result (outcome self.now pattern.now) }
    {
        match self.parse_text(alloc, pattern) {
            Ok(pattern) => Ok(Cron { pattern }),
            Err(Stop::Refused(cause)) => Err(self.error_of(alloc, pattern, cause)),
            Err(Stop::OutOfMemory) => Err(CronError::OutOfMemory),
        }
    }

    /// Reads a text: prepares it, splits it into fields, and settles and reads these.
    fn parse_text(&self, alloc: Global, given: &str) -> Result<CronPattern, Stop>
        ensures { Reads meaning_of result (outcome self.now given.now) }
    {
        let prepared = self.prepare(alloc, given)?;
        let text = prepared.as_str();
        let written = self.split(alloc, text)?;
        let settled = self.settle(alloc, written)?;
        self.read(alloc, text, settled.fields(written), settled.and)
    }

    /// A builder with the default settings.
    ///
    /// ```
    /// // Seven fields with Quartz weekdays, in which both day fields have to match.
    /// let parser = CronParser::builder()
    ///     .seconds(Seconds::Required)
    ///     .year(Year::Required)
    ///     .alternative_weekdays(true)
    ///     .dom_and_dow(true)
    ///     .build();
    /// ```
    pub fn builder() -> CronParserBuilder
        ensures { result ≡ default_settings }
    {
        CronParserBuilder::default()
    }
}

/// The settings of a parser, chosen one by one. The last choice of each counts; what isn't chosen has its default.
#[derive(Debug, Clone, Copy, Default)]
pub struct CronParserBuilder {
    parser: CronParser,
}

impl Model for CronParserBuilder {
    ghost use Rattle.croner.specs.parser.Settings.{Settings};

    ghost Value = { Settings };

    ghost view = { λ b. b.parser };

    ghost inverse = { λ s. record { parser = s } };
}

impl CronParserBuilder {
    /// Whether patterns have a field for seconds.
    ///
    /// ```
    /// let parser = CronParser::builder().seconds(Seconds::Required).build();
    /// let refused = parser.parse(alloc, "30 9 * * *"); // InvalidPattern: the seconds are missing
    /// ```
    pub fn seconds(self, seconds: Seconds) -> Self
        ensures { result ≡ record self { seconds_field = seconds } }
    {
        let mut parser = self.parser;
        parser.seconds = seconds;
        CronParserBuilder { parser }
    }

    /// Whether patterns have a field for the year.
    ///
    /// ```
    /// let parser = CronParser::builder().year(Year::Disallowed).build();
    /// let refused = parser.parse(alloc, "0 30 9 * * * 2024"); // InvalidPattern: there is a year
    /// ```
    pub fn year(self, year: Year) -> Self
        ensures { result ≡ record self { year_field = year } }
    {
        let mut parser = self.parser;
        parser.year = year;
        CronParserBuilder { parser }
    }

    /// Whether a day has to fit both the day of month and the weekday, if neither is `*`.
    ///
    /// ```
    /// let parser = CronParser::builder().dom_and_dow(true).build();
    /// let job = parser.parse(alloc, "0 0 13 * FRI")?; // each Friday the 13th
    /// ```
    pub fn dom_and_dow(self, dom_and_dow: bool) -> Self
        ensures { result ≡ record self { both_days = dom_and_dow } }
    {
        let mut parser = self.parser;
        parser.dom_and_dow = dom_and_dow;
        CronParserBuilder { parser }
    }

    /// Whether weekdays are counted as in Quartz: from 1 for Sunday to 7 for Saturday.
    ///
    /// ```
    /// let parser = CronParser::builder().alternative_weekdays(true).build();
    /// let job = parser.parse(alloc, "0 0 * * 2")?; // each Monday
    /// ```
    pub fn alternative_weekdays(self, alternative_weekdays: bool) -> Self
        ensures { result ≡ record self { quartz = alternative_weekdays } }
    {
        let mut parser = self.parser;
        parser.alternative_weekdays = alternative_weekdays;
        CronParserBuilder { parser }
    }

    /// Whether a step may follow a number, as in `5/10`, or nothing, as in `/10`.
    ///
    /// ```
    /// let parser = CronParser::builder().sloppy_ranges(true).build();
    /// let job = parser.parse(alloc, "5/20 * * * *")?; // at minutes 5, 25 and 45
    /// ```
    pub fn sloppy_ranges(self, sloppy_ranges: bool) -> Self
        ensures { result ≡ record self { sloppy = sloppy_ranges } }
    {
        let mut parser = self.parser;
        parser.sloppy_ranges = sloppy_ranges;
        CronParserBuilder { parser }
    }

    /// The parser with the chosen settings.
    ///
    /// ```
    /// let parser = CronParser::builder().build(); // equal to CronParser::new()
    /// ```
    pub fn build(self) -> CronParser
        ensures { result ≡ self }
    {
        self.parser
    }
}
