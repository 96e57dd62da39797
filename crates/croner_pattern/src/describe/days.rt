//! The days of a pattern in words.

ghost use Rattle.std.specs.Prelude.{◌≡◌, ◌++◌, codes};
ghost use Rattle.croner_base.specs.Field.{nearest_bit, marked_values};
ghost use Rattle.croner_pattern.specs.Description.{day_parts, day_text, days_text, if_also, last_weekdays, nth_weekdays, plain_values, plain_weekdays, texts, weekday_names, weekday_parts, where_any, numbers};
ghost use Rattle.croner_pattern.specs.Private.Lists.{AddsTexts, ListsTexts};
ghost use Rattle.croner_pattern.specs.Meaning.{meaning_of};
ghost use Rattle.croner_pattern.specs.Schedule.{bit_of_nth};
ghost use Rattle.croner_words.specs.Writes.{Writes};

use crate::describe::fields::numbers;
use crate::describe::lists::{name_list, push_part, push_phrase, text_list};
use crate::pattern::CronPattern;
use croner_base::component::{
    ALL_BIT, CLOSEST_WEEKDAY_BIT, CronComponent, LAST_BIT, NTH_1ST_BIT, NTH_2ND_BIT, NTH_3RD_BIT,
    NTH_4TH_BIT, NTH_5TH_BIT,
};
use croner_base::errors::CronError;
use croner_words::language::Language;
use std::alloc::Global;

/// The plain days of the month, if there are any.
fn push_plain_days<L: Language>(
    alloc: Global,
    parts: &mut Vec<String>,
    language: &L,
    days: &CronComponent,
) -> Result<(), CronError>
    ensures { let w = L.meaning language.now in
        AddsTexts (where_any (plain_values days.now) (w.day_phrase (numbers w (plain_values days.now)))) parts.old parts.new result }
{
    if days.count_set_values(ALL_BIT) == 0 {
        return Ok(());
    }
    let numbers = numbers(alloc, language, days, ALL_BIT)?;
    let part = language.day_phrase(alloc, numbers.as_str())?;
    push_part(parts, part)
}

/// The days of which the nearest weekday is meant, if there are any.
fn push_nearest_weekdays<L: Language>(
    alloc: Global,
    parts: &mut Vec<String>,
    language: &L,
    days: &CronComponent,
) -> Result<(), CronError>
    ensures { let w = L.meaning language.now in let near = marked_values nearest_bit days.now in
        AddsTexts (where_any near (w.the_weekday_nearest_day (numbers w near))) parts.old parts.new result }
{
    if days.count_set_values(CLOSEST_WEEKDAY_BIT) == 0 {
        return Ok(());
    }
    let numbers = numbers(alloc, language, days, CLOSEST_WEEKDAY_BIT)?;
    let part = language.the_weekday_nearest_day(alloc, numbers.as_str())?;
    push_part(parts, part)
}

/// The parts of the days of the month.
fn day_parts<L: Language>(
    alloc: Global,
    language: &L,
    days: &CronComponent,
) -> Result<Vec<String>, CronError>
    ensures { ListsTexts (day_parts (L.meaning language.now) days.now) result }
{
    let mut parts = Vec::new(alloc);
    push_plain_days(alloc, &mut parts, language, days)?;
    if days.is_feature_enabled(LAST_BIT) {
        push_phrase(alloc, &mut parts, language.the_last_day_of_the_month())?;
    }
    push_nearest_weekdays(alloc, &mut parts, language, days)?;
    Ok(parts)
}

/// The days of the month.
fn days_text<L: Language>(
    alloc: Global,
    language: &L,
    days: &CronComponent,
) -> Result<String, CronError>
    ensures { Writes (days_text (L.meaning language.now) days.now) result }
{
    let parts = day_parts(alloc, language, days)?;
    text_list(alloc, language.list_conjunction_and(), parts.as_slice())
}

/// The names of the weekdays that have a modifier.
fn weekday_names<L: Language>(
    alloc: Global,
    language: &L,
    weekdays: &CronComponent,
    bit: u8,
) -> Result<String, CronError>
    ensures { Writes (weekday_names (L.meaning language.now) (marked_values bit weekdays.now)) result }
{
    let values = weekdays.get_set_values(bit)?;
    let names = language.day_of_week_names();
    name_list(
        alloc,
        language.list_conjunction_and(),
        &names,
        0,
        values.as_slice(),
    )
}

/// The weekdays that are the last of the month, if there are any.
fn push_last_weekdays<L: Language>(
    alloc: Global,
    parts: &mut Vec<String>,
    language: &L,
    weekdays: &CronComponent,
) -> Result<(), CronError>
    ensures { AddsTexts (last_weekdays (L.meaning language.now) weekdays.now) parts.old parts.new result }
{
    if weekdays.count_set_values(LAST_BIT) == 0 {
        return Ok(());
    }
    let names = weekday_names(alloc, language, weekdays, LAST_BIT)?;
    let part = language.the_last_weekday_of_the_month(alloc, names.as_str())?;
    push_part(parts, part)
}

/// The weekdays that are the nth of the month, if there are any.
fn push_nth_weekdays<L: Language>(
    alloc: Global,
    parts: &mut Vec<String>,
    language: &L,
    weekdays: &CronComponent,
    n: u8,
    bit: u8,
) -> Result<(), CronError>
    requires { bit ≡ bit_of_nth n }
    ensures { AddsTexts (nth_weekdays (L.meaning language.now) weekdays.now n) parts.old parts.new result }
{
    if weekdays.count_set_values(bit) == 0 {
        return Ok(());
    }
    let names = weekday_names(alloc, language, weekdays, bit)?;
    let part = language.the_nth_weekday_of_the_month(alloc, n, names.as_str())?;
    push_part(parts, part)
}

/// The names of the plain weekdays, if there are any.
fn push_plain_weekdays<L: Language>(
    alloc: Global,
    parts: &mut Vec<String>,
    language: &L,
    weekdays: &CronComponent,
) -> Result<(), CronError>
    ensures { AddsTexts (plain_weekdays (L.meaning language.now) weekdays.now) parts.old parts.new result }
{
    if weekdays.count_set_values(ALL_BIT) == 0 {
        return Ok(());
    }
    let part = weekday_names(alloc, language, weekdays, ALL_BIT)?;
    push_part(parts, part)
}

/// The parts of the weekdays.
fn weekday_parts<L: Language>(
    alloc: Global,
    language: &L,
    weekdays: &CronComponent,
) -> Result<Vec<String>, CronError>
    ensures { ListsTexts (weekday_parts (L.meaning language.now) weekdays.now) result }
{
    let mut parts = Vec::new(alloc);
    push_last_weekdays(alloc, &mut parts, language, weekdays)?;
    push_nth_weekdays(alloc, &mut parts, language, weekdays, 1, NTH_1ST_BIT)?;
    push_nth_weekdays(alloc, &mut parts, language, weekdays, 2, NTH_2ND_BIT)?;
    push_nth_weekdays(alloc, &mut parts, language, weekdays, 3, NTH_3RD_BIT)?;
    push_nth_weekdays(alloc, &mut parts, language, weekdays, 4, NTH_4TH_BIT)?;
    push_nth_weekdays(alloc, &mut parts, language, weekdays, 5, NTH_5TH_BIT)?;
    push_plain_weekdays(alloc, &mut parts, language, weekdays)?;
    Ok(parts)
}

/// The weekdays.
fn weekdays_text<L: Language>(
    alloc: Global,
    language: &L,
    weekdays: &CronComponent,
) -> Result<String, CronError>
    ensures { let w = L.meaning language.now in Writes (texts w (weekday_parts w weekdays.now)) result }
{
    let parts = weekday_parts(alloc, language, weekdays)?;
    text_list(alloc, language.list_conjunction_and(), parts.as_slice())
}

/// That a day must also be such a weekday.
fn if_also<L: Language>(
    alloc: Global,
    language: &L,
    weekdays: &CronComponent,
) -> Result<String, CronError>
    ensures { let w = L.meaning language.now in Writes (if_also w (weekday_parts w weekdays.now)) result }
{
    let parts = weekday_parts(alloc, language, weekdays)?;
    let text = text_list(alloc, language.list_conjunction_and(), parts.as_slice())?;
    if parts.len() > 1 {
        return language.dom_and_dow_if_also_one_of(alloc, text.as_str());
    }
    language.dom_and_dow_if_also(alloc, text.as_str())
}

/// Days of the month that must also be such weekdays.
fn days_and_weekdays<L: Language>(
    alloc: Global,
    language: &L,
    pattern: &CronPattern,
) -> Result<String, CronError>
    ensures { let w = L.meaning language.now in let m = meaning_of pattern.now in
        Writes (w.on_phrase (days_text w m.days) ++ (codes " " ++ if_also w (weekday_parts w m.days_of_week))) result }
{
    let days = days_text(alloc, language, &pattern.days)?;
    let on_days = language.on_phrase(alloc, days.as_str())?;
    let also = if_also(alloc, language, &pattern.days_of_week)?;
    Ok(format!(in alloc; "{on_days} {also}")?)
}

/// Days of the month, or weekdays.
fn days_or_weekdays<L: Language>(
    alloc: Global,
    language: &L,
    pattern: &CronPattern,
) -> Result<String, CronError>
    ensures { let w = L.meaning language.now in let m = meaning_of pattern.now in
        Writes (w.on_phrase (days_text w m.days)
        ++ (codes " " ++ (w.list_conjunction_or ++ (codes " " ++ texts w (weekday_parts w m.days_of_week))))) result }
{
    let days = days_text(alloc, language, &pattern.days)?;
    let on_days = language.on_phrase(alloc, days.as_str())?;
    let weekdays = weekdays_text(alloc, language, &pattern.days_of_week)?;
    let or = language.list_conjunction_or();
    Ok(format!(in alloc; "{on_days} {or} {weekdays}")?)
}

/// The days, by the flags for the two stars and for how the two fields are joined.
pub(crate) fn day_text<L: Language>(
    alloc: Global,
    language: &L,
    pattern: &CronPattern,
) -> Result<String, CronError>
    ensures { Writes (day_text (L.meaning language.now) (meaning_of pattern.now)) result }
{
    let (star_day, star_weekday) = (pattern.is_dom_wildcard(), pattern.is_dow_wildcard());
    if star_day {
        if star_weekday {
            return Ok(String::new(alloc));
        }
        let weekdays = weekdays_text(alloc, language, &pattern.days_of_week)?;
        return language.on_phrase(alloc, weekdays.as_str());
    }
    if star_weekday {
        let days = days_text(alloc, language, &pattern.days)?;
        return language.on_phrase(alloc, days.as_str());
    }
    if pattern.matches_dom_and_dow() {
        return days_and_weekdays(alloc, language, pattern);
    }
    days_or_weekdays(alloc, language, pattern)
}
