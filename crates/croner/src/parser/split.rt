//! The second step: a text is split at white space into the texts of the seven fields.

ghost use Rattle.std.specs.Prelude.{◌≡◌, map, option_map, IfOk};
ghost use Rattle.croner.specs.parser.Grammar.{seven};
ghost use Rattle.croner.specs.parser.Words.{words};
ghost use Rattle.croner.specs.Private.parser.Steps.{Splits};
ghost use Rattle.croner.specs.Views.{texts_of};

use super::fields::FieldTexts;
use super::stop::{Cause, Stop};
use super::{CronParser, Seconds, Year};
use std::alloc::{AllocError, Global};

/// The words as fields: with five words the seconds are `0`, and with five or six the year is `*`.
pub fn seven<'t>(words: &[&'t str]) -> Option<FieldTexts<'t>>
    ensures { option_map texts_of result ≡ seven (map (λ w. w.now) words.now) }
{
    match words {
        [minutes, hours, days, months, days_of_week] => Some(FieldTexts {
            seconds: "0",
            minutes,
            hours,
            days,
            months,
            days_of_week,
            years: "*",
        }),
        [seconds, minutes, hours, days, months, days_of_week] => Some(FieldTexts {
            seconds,
            minutes,
            hours,
            days,
            months,
            days_of_week,
            years: "*",
        }),
        [seconds, minutes, hours, days, months, days_of_week, years] => Some(FieldTexts {
            seconds,
            minutes,
            hours,
            days,
            months,
            days_of_week,
            years,
        }),
        _ => None,
    }
}

/// The words of a text: its pieces between white space.
pub fn words(alloc: Global, text: &str) -> Result<Vec<&str>, AllocError>
    ensures { IfOk result (λ v. map (λ w. w.now) v.items ≡ words text.now) }
{
    let mut words = Vec::with_capacity(alloc, 7)?;
    for word in text.split_whitespace() {
        words.push(word)?;
    }
    Ok(words)
}

impl CronParser {
    ghost use Rattle.croner.specs.parser.Settings.{accepts_count};
    ghost use Rattle.croner.specs.parser.Grammar.{fields_of};

    /// The fields of a text whose names are replaced.
    pub(super) fn split<'t>(&self, alloc: Global, text: &'t str) -> Result<FieldTexts<'t>, Stop>
        ensures { Splits self.now text.now result }
    {
        let words = words(alloc, text)?;
        match self.fields_of(words.as_slice()) {
            Some(fields) => Ok(fields),
            None => Err(Stop::Refused(Cause::Invalid)),
        }
    }

    /// The words as fields, if the settings accept that many.
    pub(super) fn fields_of<'t>(&self, words: &[&'t str]) -> Option<FieldTexts<'t>>
        ensures { option_map texts_of result ≡ fields_of self.now (map (λ w. w.now) words.now) }
    {
        if self.accepts_count(words.len()) {
            seven(words)
        } else {
            None
        }
    }

    /// Whether a text may have so many fields.
    pub(super) fn accepts_count(&self, count: usize) -> bool
        ensures { result ≡ accepts_count self.now.seconds_field self.now.year_field count }
    {
        match (self.seconds, self.year) {
            (Seconds::Optional, Year::Optional) => count == 5 || count == 6 || count == 7,
            (Seconds::Optional, Year::Required) => count == 7,
            (Seconds::Optional, Year::Disallowed) => count == 5 || count == 6,
            (Seconds::Required, Year::Optional) => count == 6 || count == 7,
            (Seconds::Required, Year::Required) => count == 7,
            (Seconds::Required, Year::Disallowed) => count == 6,
            (Seconds::Disallowed, Year::Required) => false,
            (Seconds::Disallowed, Year::Optional | Year::Disallowed) => count == 5,
        }
    }
}
