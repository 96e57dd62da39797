//! The months and the years of a pattern in words.

ghost use Rattle.croner_pattern.specs.Description.{month_names, month_text, plain_values, years_text};
ghost use Rattle.croner_words.specs.Writes.{Writes};

use crate::describe::fields::{is_all, numbers};
use crate::describe::lists::name_list;
use croner_base::component::{ALL_BIT, CronComponent};
use croner_base::errors::CronError;
use croner_words::language::Language;
use std::alloc::Global;

/// The value of the first month.
const JANUARY: u16 = 1;

/// The names of the plain months.
fn month_names<L: Language>(
    alloc: Global,
    language: &L,
    months: &CronComponent,
) -> Result<String, CronError>
    ensures { Writes (month_names (L.meaning language.now) (plain_values months.now)) result }
{
    let values = months.values()?;
    let names = language.month_names();
    name_list(
        alloc,
        language.list_conjunction_and(),
        &names,
        JANUARY,
        values.as_slice(),
    )
}

/// The months.
pub(crate) fn month_text<L: Language>(
    alloc: Global,
    language: &L,
    months: &CronComponent,
) -> Result<String, CronError>
    ensures { Writes (month_text (L.meaning language.now) months.now) result }
{
    if is_all(months) {
        return Ok(String::new(alloc));
    }
    if months.step() > 1 {
        let every = language.every_x_months(alloc, months.step())?;
        return language.in_phrase(alloc, every.as_str());
    }
    let names = month_names(alloc, language, months)?;
    language.in_phrase(alloc, names.as_str())
}

/// The years.
pub(crate) fn years_text<L: Language>(
    alloc: Global,
    language: &L,
    years: &CronComponent,
) -> Result<String, CronError>
    ensures { Writes (years_text (L.meaning language.now) years.now) result }
{
    if is_all(years) {
        return Ok(String::new(alloc));
    }
    if years.step() > 1 {
        let every = language.every_x_years(alloc, years.step())?;
        return language.in_phrase(alloc, every.as_str());
    }
    let numbers = numbers(alloc, language, years, ALL_BIT)?;
    let phrase = language.year_phrase(alloc, numbers.as_str())?;
    language.in_phrase(alloc, phrase.as_str())
}
