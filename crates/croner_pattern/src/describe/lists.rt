//! Lists in words: of texts, of names and of numbers.

ghost use Rattle.std.specs.Prelude.{true, ◌≡◌, ◌+◌, ◌-◌, ◌<◌, ◌≤◌, ◌∷◌, ◌++◌, [], codes, decimal, length, map, string_bytes};
ghost use Rattle.croner_pattern.specs.Description.{cyclic_name};
ghost use Rattle.croner_pattern.specs.Lists.{joined, number_list, text_list};
ghost use Rattle.croner_pattern.specs.Private.Lists.{AddsTexts, Appends, comma, goes_on, separator, WritesStreak, EndsStreak};
ghost use Rattle.croner_words.specs.Writes.{Writes};

use croner_base::errors::CronError;
use std::alloc::Global;

/// How far apart the first and the last of a range are at least: three values in a row are one.
const RANGE_DISTANCE: u16 = 2;

/// The bytes that most lists fit in. They are reserved at once.
const LIST_ROOM: usize = 64;

/// Writes what goes before an item, at its place from 0.
fn push_separator(
    text: &mut String,
    and: &str,
    place: usize,
    is_last: bool,
) -> Result<(), CronError>
    ensures { Appends (separator and.now place is_last) text.old text.new result }
{
    if place == 0 {
        return Ok(());
    }
    if !is_last {
        return Ok(text.push_str(", ")?);
    }
    if place == 1 {
        return Ok(write!(text, " {and} ")?);
    }
    Ok(write!(text, ", {and} ")?)
}

/// Writes an item after its separator.
fn push_item(
    text: &mut String,
    and: &str,
    place: usize,
    is_last: bool,
    item: &str,
) -> Result<(), CronError>
    ensures { Appends (separator and.now place is_last ++ item.now) text.old text.new result }
{
    push_separator(text, and, place, is_last)?;
    Ok(text.push_str(item)?)
}

/// The items as a list with the language's word before the last.
pub(crate) fn text_list(alloc: Global, and: &str, items: &[String]) -> Result<String, CronError>
    ensures { Writes (text_list and.now (map string_bytes items.now)) result }
{
    let mut text = String::with_capacity(alloc, LIST_ROOM)?;
    for (place, item) in items.iter().enumerate() {
        push_item(
            &mut text,
            and,
            place,
            place + 1 == items.len(),
            item.as_str(),
        )?;
    }
    Ok(text)
}

/// Writes an item after a comma, if it isn't the first.
fn push_joined(text: &mut String, place: usize, item: &str) -> Result<(), CronError>
    ensures { Appends (comma place true ++ item.now) text.old text.new result }
{
    if place > 0 {
        text.push_str(", ")?;
    }
    Ok(text.push_str(item)?)
}

/// The items with a comma between each two of them.
pub(crate) fn join(alloc: Global, items: &[String]) -> Result<String, CronError>
    ensures { Writes (joined (codes ", ") (map string_bytes items.now)) result }
{
    let mut text = String::with_capacity(alloc, LIST_ROOM)?;
    for (place, item) in items.iter().enumerate() {
        push_joined(&mut text, place, item.as_str())?;
    }
    Ok(text)
}

/// Appends a text to others.
pub(crate) fn push_part(parts: &mut Vec<String>, part: String) -> Result<(), CronError>
    ensures { AddsTexts (string_bytes part ∷ []) parts.old parts.new result }
{
    Ok(parts.push(part)?)
}

/// Appends a language's own text to others.
pub(crate) fn push_phrase(
    alloc: Global,
    parts: &mut Vec<String>,
    phrase: &str,
) -> Result<(), CronError>
    ensures { AddsTexts (phrase.now ∷ []) parts.old parts.new result }
{
    let part = String::from_str(alloc, phrase)?;
    push_part(parts, part)
}

/// The name at a place. After the last name the first comes again.
fn cyclic_name<'n>(names: &[&'n str], place: usize) -> &'n str
    requires { 0 < length names.now }
    ensures { result.now ≡ cyclic_name (map (λ name. name.now) names.now) place }
{
    names[place % names.len()]
}

/// The names of values as a list. The first name is that of the value `first`.
pub(crate) fn name_list(
    alloc: Global,
    and: &str,
    names: &[&str],
    first: u16,
    values: &[u16],
) -> Result<String, CronError>
    requires { 0 < length names.now }
    ensures { Writes (text_list and.now
        (map (λ value. cyclic_name (map (λ name. name.now) names.now) (value - first)) values.now)) result }
{
    let mut text = String::with_capacity(alloc, LIST_ROOM)?;
    for (place, value) in values.iter().enumerate() {
        let name = cyclic_name(names, usize::from(value.saturating_sub(first)));
        push_item(&mut text, and, place, place + 1 == values.len(), name)?;
    }
    Ok(text)
}

/// Whether the value after an index is the next number.
fn goes_on(values: &[u16], end: usize) -> bool
    requires { end < length values.now }
    ensures { result ≡ goes_on values.now end }
{
    end + 1 < values.len() && usize::from(values[end + 1]) == usize::from(values[end]) + 1
}

/// The index of the last value of the streak that begins at an index.
fn streak_end(values: &[u16], start: usize) -> usize
    requires { start < length values.now }
    ensures { EndsStreak values.now start result }
{
    let mut end = start;
    while goes_on(values, end) {
        end += 1;
    }
    end
}

/// Writes a number as an item of its own.
fn push_number(
    text: &mut String,
    and: &str,
    place: usize,
    is_last: bool,
    number: u16,
) -> Result<(), CronError>
    ensures { Appends (separator and.now place is_last ++ decimal number) text.old text.new result }
{
    push_separator(text, and, place, is_last)?;
    Ok(write!(text, "{number}")?)
}

/// Writes a range as one item.
fn push_range(
    text: &mut String,
    and: &str,
    place: usize,
    is_last: bool,
    first: u16,
    last: u16,
) -> Result<(), CronError>
    ensures { Appends (separator and.now place is_last ++ (decimal first ++ (codes "-" ++ decimal last))) text.old text.new result }
{
    push_separator(text, and, place, is_last)?;
    Ok(write!(text, "{first}-{last}")?)
}

/// Writes a streak of values from the first to the last: a range, or one or two numbers. Returns how many items there are then.
fn push_streak(
    text: &mut String,
    and: &str,
    place: usize,
    is_last: bool,
    first: u16,
    last: u16,
) -> Result<usize, CronError>
    requires ordered { first ≤ last }
    requires fits { place + (last - first) < usize.MAX }
    ensures { WritesStreak and.now place is_last first last text.old text.new result }
{
    if last - first >= RANGE_DISTANCE {
        push_range(text, and, place, is_last, first, last)?;
        return Ok(place + 1);
    }
    if first == last {
        push_number(text, and, place, is_last, first)?;
        return Ok(place + 1);
    }
    push_number(text, and, place, false, first)?;
    push_number(text, and, place + 1, is_last, last)?;
    Ok(place + 2)
}

/// Ascending values as a list in which three or more in a row are a range.
pub(crate) fn number_list(alloc: Global, and: &str, values: &[u16]) -> Result<String, CronError>
    ensures { Writes (number_list and.now values.now) result }
{
    let mut text = String::with_capacity(alloc, LIST_ROOM)?;
    let mut place = 0;
    let mut start = 0;
    while start < values.len() {
        let end = streak_end(values, start);
        let is_last = end + 1 == values.len();
        place = push_streak(&mut text, and, place, is_last, values[start], values[end])?;
        start = end + 1;
    }
    Ok(text)
}
