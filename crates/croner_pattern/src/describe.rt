//! The description of a pattern in words.

ghost use Rattle.std.specs.Prelude.{◌∷◌, [], string_bytes};
ghost use Rattle.std.specs.List.{filter};
ghost use Rattle.croner_pattern.specs.Description.{day_text, description, is_some_text, month_text, sentence, times_text, years_text};
ghost use Rattle.croner_pattern.specs.Private.Lists.{AddsTexts, ListsTexts};
ghost use Rattle.croner_pattern.specs.Meaning.{meaning_of};
ghost use Rattle.croner_words.specs.English.{english};
ghost use Rattle.croner_words.specs.Writes.{Writes};

mod dates;
mod days;
mod fields;
mod lists;
mod times;

use crate::pattern::CronPattern;
use croner_base::errors::CronError;
pub use croner_words::english::English;
pub use croner_words::language::Language;
use std::alloc::Global;

/// The languages.
pub mod lang {
    pub use croner_words::{english, swedish};
}

/// Describes a pattern in a language: when it runs, on which days, in which months and years, as one sentence.
///
/// The pattern's fields, its flags and the language's texts determine the sentence exactly. The only error is
/// `OutOfMemory`.
///
/// ```
/// let job = Cron::from_str(alloc, "0 0 L * *")?;
/// let text = describe(alloc, &job.pattern, &English)?; // At 00:00, on the last day of the month.
/// ```
pub fn describe<L: Language>(
    alloc: Global,
    pattern: &CronPattern,
    language: &L,
) -> Result<String, CronError>
    ensures { Writes (description (L.meaning language.now) (meaning_of pattern.now)) result }
{
    let parts = texts(alloc, pattern, language)?;
    let text = lists::join(alloc, parts.as_slice())?;
    sentence(alloc, text.as_str())
}

/// The texts of the time, the days, the months and the years, without empty ones.
fn texts<L: Language>(
    alloc: Global,
    pattern: &CronPattern,
    language: &L,
) -> Result<Vec<String>, CronError>
    ensures { let w = L.meaning language.now in let m = meaning_of pattern.now in
        ListsTexts (filter is_some_text (times_text w m ∷ day_text w m ∷ month_text w m.months ∷ years_text w m.years ∷ [])) result }
{
    let mut parts = Vec::new(alloc);
    push_text(&mut parts, times::times_text(alloc, language, pattern)?)?;
    push_text(&mut parts, days::day_text(alloc, language, pattern)?)?;
    push_text(
        &mut parts,
        dates::month_text(alloc, language, &pattern.months)?,
    )?;
    push_text(
        &mut parts,
        dates::years_text(alloc, language, &pattern.years)?,
    )?;
    Ok(parts)
}

/// Appends a text to others, unless it is empty.
fn push_text(parts: &mut Vec<String>, text: String) -> Result<(), CronError>
    ensures { AddsTexts (filter is_some_text (string_bytes text ∷ [])) parts.old parts.new result }
{
    if text.is_empty() {
        return Ok(());
    }
    lists::push_part(parts, text)
}

/// The text with a full stop, and with its first letter as a capital if it is an ASCII letter. An empty text stays empty.
fn sentence(alloc: Global, text: &str) -> Result<String, CronError>
    ensures { Writes (sentence text.now) result }
{
    let mut sentence = String::with_capacity(alloc, text.len() + 1)?;
    let mut chars = text.chars();
    let Some(first) = chars.next() else {
        return Ok(sentence);
    };
    sentence.push(first.to_ascii_uppercase())?;
    sentence.push_str(chars.as_str())?;
    sentence.push_str(".")?;
    Ok(sentence)
}

impl CronPattern {
    /// The description in English. The only error is `OutOfMemory`.
    ///
    /// ```
    /// let job = Cron::from_str(alloc, "*/5 * * * *")?;
    /// let text = job.pattern.describe()?; // At every 5 minutes.
    /// ```
    pub fn describe(&self) -> Result<String, CronError>
        ensures { Writes (description english (meaning_of self.now)) result }
    {
        self.describe_lang(English)
    }

    /// The description in a language. The only error is `OutOfMemory`.
    ///
    /// ```
    /// let job = Cron::from_str(alloc, "5 9 * * MON")?;
    /// let text = job.pattern.describe_lang(Swedish)?; // Klockan 09:05, på måndag.
    /// ```
    pub fn describe_lang<L: Language + Drop>(&self, language: L) -> Result<String, CronError>
        ensures { Writes (description (L.meaning language) (meaning_of self.now)) result }
    {
        describe(self.allocator(), self, &language)
    }
}
