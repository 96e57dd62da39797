//! The days of months as grids of text, 78 columns wide: a row a week, from Monday on.
ghost use Rattle.std.specs.Prelude.{◌≡◌, ◌++◌, ◌+◌, ◌-◌, ◌<◌, ◌^◌, ◌∷◌, [], length, take, IfOk, OnOk, string_bytes, slice_get};
ghost use Rattle.std.specs.List.{flat_map};
ghost use Rattle.std.specs.Str.{chars};
ghost use Rattle.croner_base.specs.Excerpt.{is_control, ends_a_line};
ghost use Rattle.cronplan_forms.specs.Months.{character_text, cut_text, fill, date_cell, title_cell, title_cell_of, left_cell, date_cell_of, day_cell, marked_cell, marked_date, places_before, cell_of, has_line_of, place_cell, has_line, barred_cell, cells_text, is_used, line_text, lines_text, rule_text, week_text, week_count, weeks_text, weekdays_text, head_text, daily_line, daily_lines, headed_lines, daily_text, month_text};

mod number;
mod of_plan;
mod titles;

pub use of_plan::months_text;
use std::alloc::{AllocError, Global};

/// A title on a date.
#[derive(Clone, Copy)]
pub struct Titled<'m> {
    /// The date, counted from 1970-01-01.
    pub date: i64,
    pub title: &'m str,
}

/// A day of a month.
#[derive(Clone, Copy)]
pub struct MonthDay<'m> {
    /// The titles of what starts on it, but for what starts on every day. The first three are shown, and how many more there are.
    pub titles: &'m [Titled<'m>],
    /// Whether it is a date of the plan. A day that isn't has a mark after its number.
    pub is_in_plan: bool,
}

/// What starts on every day.
#[derive(Clone, Copy)]
pub struct Daily<'m> {
    pub title: &'m str,
    /// Its times in words.
    pub words: &'m str,
}

/// What a grid shows.
#[derive(Clone, Copy)]
pub struct Month<'m> {
    /// The month and its year, as `March 2027`. It is written unchanged.
    pub name: &'m str,
    /// The weekday of its first day, from 0 for Monday to 6 for Sunday; another number is taken modulo 7.
    pub first_weekday: usize,
    /// Its days, from the first on.
    pub days: &'m [MonthDay<'m>],
}

/// The days of a week.
const WEEK: usize = 7;

/// The characters of a cell.
const CELL: usize = 10;

/// The titles of a day that are shown.
const TITLES: usize = 3;

/// The lines of a week: the dates, the titles, and how many are left.
const LINES: usize = 5;

/// The line that tells how many titles are left.
const LEFT_LINE: usize = 4;

/// The most characters of the title of what starts on every day, and of its times in words.
const DAILY_TITLE: usize = 24;

const DAILY_WORDS: usize = 50;

/// The grid: the month's name, the names of the weekdays, and for each week its dates, and below each date the titles of what starts on it. A line
/// on which no day of the week has something is left out.
///
/// A text that is too long is cut between two characters, and a `~` stands in place of the last character for which there is room; each
/// character counts as one column. A character that a terminal acts on, or that ends a line, is shown as a `?`. The only error is lack of
/// memory.
pub(crate) fn month_text(alloc: Global, month: Month<'_>) -> Result<String, AllocError>
    ensures { IfOk result (λ t. string_bytes t ≡ month_text month.entry) }
{
    let mut text = String::new(alloc);
    push_month(&mut text, month)?;
    Ok(text)
}

// Appends a grid to a text.
#[tactic(auto, unfolding(crate::specs::Months::month_text))]
fn push_month(text: &mut String, month: Month<'_>) -> Result<(), AllocError>
    ensures { OnOk result (string_bytes text.new ≡ string_bytes text.old ++ month_text month.entry) }
{
    push_head(text, month)?;
    push_weeks(text, month)
}

#[tactic(auto, unfolding(crate::specs::Months::head_text))]
fn push_head(text: &mut String, month: Month<'_>) -> Result<(), AllocError>
    ensures { OnOk result (string_bytes text.new ≡ string_bytes text.old ++ head_text month.entry) }
{
    text.push_str(month.name)?;
    text.push_str("\n")?;
    push_rule(text)?;
    push_weekdays(text)?;
    push_rule(text)
}

#[tactic(auto, unfolding(crate::specs::Months::rule_text))]
fn push_rule(text: &mut String) -> Result<(), AllocError>
    ensures { OnOk result (string_bytes text.new ≡ string_bytes text.old ++ rule_text) }
{
    text.push_str(
        "+----------+----------+----------+----------+----------+----------+----------+\n",
    )
}

#[tactic(auto, unfolding(crate::specs::Months::weekdays_text))]
fn push_weekdays(text: &mut String) -> Result<(), AllocError>
    ensures { OnOk result (string_bytes text.new ≡ string_bytes text.old ++ weekdays_text) }
{
    text.push_str(
        "|Mon       |Tue       |Wed       |Thu       |Fri       |Sat       |Sun       |\n",
    )
}

// Appends the weeks of a month to a text.
#[tactic(auto, unfolding(crate::specs::Months::weeks_text))]
fn push_weeks(text: &mut String, month: Month<'_>) -> Result<(), AllocError>
    ensures { OnOk result (string_bytes text.new ≡ string_bytes text.old ++ weeks_text month.entry) }
{
    for week in 0..week_count(month) {
        push_week(text, month, WEEK * week)?;
    }
    Ok(())
}

// How many weeks have a day of a month.
fn week_count(month: Month<'_>) -> usize
    ensures { result ≡ week_count month.entry }
{
    (places_before(month) + month.days.len() + WEEK - 1) / WEEK
}

// How many places of the first week come before the first day.
fn places_before(month: Month<'_>) -> usize
    ensures { result ≡ places_before month.entry }
{
    month.first_weekday % WEEK
}

// Appends the week that begins at a place to a text.
#[tactic(auto, unfolding(crate::specs::Months::week_text))]
fn push_week(text: &mut String, month: Month<'_>, monday: usize) -> Result<(), AllocError>
    requires { monday < 2 ^ 63 }
    ensures { OnOk result (string_bytes text.new ≡ string_bytes text.old ++ week_text month.entry monday) }
{
    push_lines(text, month, monday)?;
    push_rule(text)
}

#[tactic(auto, unfolding(crate::specs::Months::lines_text))]
fn push_lines(text: &mut String, month: Month<'_>, monday: usize) -> Result<(), AllocError>
    requires { monday < 2 ^ 63 }
    ensures { OnOk result (string_bytes text.new ≡ string_bytes text.old ++ lines_text month.entry monday) }
{
    for line in 0..LINES {
        push_line(text, month, monday, line)?;
    }
    Ok(())
}

// Appends a line of a week to a text, if a day has anything on it.
#[tactic(auto, unfolding(crate::specs::Months::line_text))]
fn push_line(
    text: &mut String,
    month: Month<'_>,
    monday: usize,
    line: usize,
) -> Result<(), AllocError>
    requires { monday < 2 ^ 63 }
    ensures { OnOk result (string_bytes text.new ≡ string_bytes text.old ++ line_text month.entry monday line) }
{
    if is_used(month, monday, line) {
        push_cells(text, month, monday, line)?;
        text.push_str("|\n")?;
    }
    Ok(())
}

// Whether a day of a week has something on a line.
fn is_used(month: Month<'_>, monday: usize, line: usize) -> bool
    requires { monday < 2 ^ 63 }
    ensures { result ≡ is_used month.entry monday line }
{
    for column in 0..WEEK {
        if has_line(month, monday + column, line) {
            return true;
        }
    }
    false
}

// Whether the day at a place has something on a line.
#[tactic(auto, unfolding(crate::specs::Months::has_line))]
fn has_line(month: Month<'_>, place: usize, line: usize) -> bool
    ensures { result ≡ has_line month.entry place line }
{
    let before = places_before(month);
    if place < before {
        return false;
    }
    day_has_line(month.days, place - before, line)
}

// Whether the day with a number, from 0, has something on a line.
fn day_has_line(days: &[MonthDay<'_>], day: usize, line: usize) -> bool
    ensures { result ≡ has_line_of (slice_get days.now day) line }
{
    if day < days.len() {
        return line <= days[day].titles.len();
    }
    false
}

// Appends the cells of a line of a week to a text.
#[tactic(auto, unfolding(crate::specs::Months::cells_text))]
fn push_cells(
    text: &mut String,
    month: Month<'_>,
    monday: usize,
    line: usize,
) -> Result<(), AllocError>
    requires { monday < 2 ^ 63 }
    ensures { OnOk result (string_bytes text.new ≡ string_bytes text.old ++ cells_text month.entry monday line) }
{
    for column in 0..WEEK {
        push_barred(text, month, monday + column, line)?;
    }
    Ok(())
}

fn push_barred(
    text: &mut String,
    month: Month<'_>,
    place: usize,
    line: usize,
) -> Result<(), AllocError>
    ensures { OnOk result (string_bytes text.new ≡ string_bytes text.old ++ barred_cell month.entry place line) }
{
    text.push_str("|")?;
    push_place(text, month, place, line)
}

// Appends to a text what the day at a place has on a line.
#[tactic(auto, unfolding(crate::specs::Months::place_cell))]
fn push_place(
    text: &mut String,
    month: Month<'_>,
    place: usize,
    line: usize,
) -> Result<(), AllocError>
    ensures { OnOk result (string_bytes text.new ≡ string_bytes text.old ++ place_cell month.entry place line) }
{
    let before = places_before(month);
    if place < before {
        return push_fill(text, 0);
    }
    push_day(text, month.days, place - before, line)
}

// Appends to a text what the day with a number, from 0, has on a line.
fn push_day(
    text: &mut String,
    days: &[MonthDay<'_>],
    day: usize,
    line: usize,
) -> Result<(), AllocError>
    ensures { OnOk result (string_bytes text.new ≡ string_bytes text.old ++ cell_of (slice_get days.now day) (day + 1) line) }
{
    if day < days.len() {
        return push_day_line(text, days[day], day + 1, line);
    }
    push_fill(text, 0)
}

// Puts what a day has on a line after a text.
#[tactic(auto, unfolding(crate::specs::Months::day_cell))]
fn push_day_line(
    text: &mut String,
    day: MonthDay<'_>,
    date: usize,
    line: usize,
) -> Result<(), AllocError>
    ensures { OnOk result (string_bytes text.new ≡ string_bytes text.old ++ day_cell day.entry date line) }
{
    if line == 0 {
        return push_date_of(text, date, day.is_in_plan);
    }
    if line == LEFT_LINE {
        return push_left(text, day.titles.len());
    }
    push_title_at(text, day.titles, line - 1)
}

// Puts a date after a text, with a mark where it isn't one of the plan.
fn push_date_of(text: &mut String, date: usize, is_in_plan: bool) -> Result<(), AllocError>
    ensures { OnOk result (string_bytes text.new ≡ string_bytes text.old ++ date_cell_of is_in_plan date) }
{
    if is_in_plan {
        return push_date(text, date);
    }
    push_marked(text, date)
}

#[tactic(auto, unfolding(crate::specs::Months::marked_cell))]
fn push_marked(text: &mut String, date: usize) -> Result<(), AllocError>
    ensures { OnOk result (string_bytes text.new ≡ string_bytes text.old ++ marked_cell date) }
{
    let used = push_mark(text, date)?;
    push_fill(text, used)
}

// Puts a date and its mark after a text, and answers how many characters these are.
#[tactic(auto, unfolding(crate::specs::Months::marked_date))]
fn push_mark(text: &mut String, date: usize) -> Result<usize, AllocError>
    ensures value { OnOk result (string_bytes text.new ≡ string_bytes text.old ++ marked_date date) }
    ensures count { IfOk result (λ n. n ≡ length (marked_date date)) }
{
    let before = text.len();
    write!(text, "{date} -")?;
    Ok(text.len() - before)
}

fn push_date(text: &mut String, date: usize) -> Result<(), AllocError>
    ensures { OnOk result (string_bytes text.new ≡ string_bytes text.old ++ date_cell date) }
{
    write!(text, "{date:<10}")
}

// Appends to a text how many of so many titles are left, if there are more than are shown.
fn push_left(text: &mut String, count: usize) -> Result<(), AllocError>
    ensures { OnOk result (string_bytes text.new ≡ string_bytes text.old ++ left_cell count) }
{
    if count <= TITLES {
        return push_fill(text, 0);
    }
    let left = count - TITLES;
    write!(text, "+{left:<9}")
}

fn push_title_at(text: &mut String, titles: &[Titled<'_>], place: usize) -> Result<(), AllocError>
    ensures { OnOk result (string_bytes text.new ≡ string_bytes text.old ++ title_cell_of (slice_get titles.now place)) }
{
    if place < titles.len() {
        return push_title(text, titles[place].title);
    }
    push_fill(text, 0)
}

#[tactic(auto, unfolding(crate::specs::Months::title_cell))]
fn push_title(text: &mut String, title: &str) -> Result<(), AllocError>
    ensures { OnOk result (string_bytes text.new ≡ string_bytes text.old ++ title_cell title.now) }
{
    push_cut(text, title, CELL)?;
    push_fill(text, character_count(title))
}

// Fills a cell that has so many characters with spaces.
#[tactic(auto, unfolding(crate::specs::Months::fill))]
fn push_fill(text: &mut String, used: usize) -> Result<(), AllocError>
    ensures { OnOk result (string_bytes text.new ≡ string_bytes text.old ++ fill used) }
{
    for _space in 0..CELL.saturating_sub(used) {
        text.push(' ')?;
    }
    Ok(())
}

// Appends a text to another, cut where it has more than so many characters.
#[tactic(auto, using(crate::proofs::MonthParts::cut_whole, crate::proofs::MonthParts::cut_short))]
fn push_cut(text: &mut String, title: &str, most: usize) -> Result<(), AllocError>
    requires { 0 < most }
    ensures { OnOk result (string_bytes text.new ≡ string_bytes text.old ++ cut_text most title.now) }
{
    if character_count(title) <= most {
        return push_first(text, title, most);
    }
    push_first(text, title, most - 1)?;
    text.push_str("~")?;
    Ok(())
}

fn character_count(text: &str) -> usize
    ensures { result ≡ length (chars text.now) }
{
    text.chars().count()
}

// Appends the first characters of a text, at most `most`, to another.
fn push_first(text: &mut String, title: &str, most: usize) -> Result<(), AllocError>
    ensures { OnOk result (string_bytes text.new ≡ string_bytes text.old ++ flat_map character_text (take most (chars title.now))) }
{
    let mut left = most;
    for c in title.chars() {
        left = push_if_left(text, c, left)?;
    }
    Ok(())
}

// Appends a character to a text, unless `left` is 0. Returns how many are left then.
fn push_if_left(text: &mut String, c: char, left: usize) -> Result<usize, AllocError>
    ensures value { OnOk result (string_bytes text.new ≡ string_bytes text.old ++ flat_map character_text (take left (c ∷ []))) }
    ensures left { IfOk result (λ n. n ≡ left - 1) }
{
    if left == 0 {
        return Ok(0);
    }
    push_character(text, c)?;
    Ok(left - 1)
}

fn push_character(text: &mut String, c: char) -> Result<(), AllocError>
    ensures { OnOk result (string_bytes text.new ≡ string_bytes text.old ++ character_text c) }
{
    if is_control(c) || ends_a_line(c) {
        return text.push_str("?");
    }
    text.push(c)
}

// Whether a terminal may act on a character.
fn is_control(c: char) -> bool
    ensures { result ≡ is_control c }
{
    c <= '\u{1f}' || '\u{7f}' <= c && c <= '\u{9f}'
}

fn ends_a_line(c: char) -> bool
    ensures { result ≡ ends_a_line c }
{
    '\u{2028}' <= c && c <= '\u{2029}'
}

/// Puts what starts on every day after a text, if something does.
#[tactic(auto, unfolding(crate::specs::Months::daily_text))]
fn push_daily(text: &mut String, daily: &[Daily<'_>]) -> Result<(), AllocError>
    ensures { OnOk result (string_bytes text.new ≡ string_bytes text.old ++ daily_text daily.now) }
{
    if daily.is_empty() {
        return Ok(());
    }
    push_headed(text, daily)
}

#[tactic(auto, unfolding(crate::specs::Months::headed_lines))]
fn push_headed(text: &mut String, daily: &[Daily<'_>]) -> Result<(), AllocError>
    ensures { OnOk result (string_bytes text.new ≡ string_bytes text.old ++ headed_lines daily.now) }
{
    text.push_str("Every day:\n")?;
    push_daily_lines(text, daily)
}

#[tactic(auto, using(crate::proofs::MonthParts::daily_step), unfolding(crate::specs::Months::daily_lines))]
fn push_daily_lines(text: &mut String, daily: &[Daily<'_>]) -> Result<(), AllocError>
    ensures { OnOk result (string_bytes text.new ≡ string_bytes text.old ++ daily_lines daily.now) }
{
    for one in daily {
        push_daily_line(text, *one)?;
    }
    Ok(())
}

#[tactic(auto, unfolding(crate::specs::Months::daily_line))]
fn push_daily_line(text: &mut String, daily: Daily<'_>) -> Result<(), AllocError>
    ensures { OnOk result (string_bytes text.new ≡ string_bytes text.old ++ daily_line daily.entry) }
{
    text.push_str("  ")?;
    push_cut(text, daily.title, DAILY_TITLE)?;
    text.push_str(": ")?;
    push_cut(text, daily.words, DAILY_WORDS)?;
    text.push_str("\n")
}
