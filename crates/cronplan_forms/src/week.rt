//! The dates of a plan as a picture of text, 80 columns wide: a row a day, a cell an hour.
ghost use Rattle.std.specs.Prelude.{◌≡◌, ◌++◌, ◌<◌, IfOk, OnOk, string_bytes, codes, map};
ghost use Rattle.std.specs.List.{All, list_any};
ghost use Rattle.cronplan_forms.specs.Clocks.{second_of_day};
ghost use Rattle.cronplan_forms.specs.Weeks.{block_of, digit_of, step_sign, sign_of, cells_text, moment_text, fullest_text, has_outside, has_skipped, outside_line, skipped_line, total_text, row_text, rows_text, head_text, legend_of, legend_text, steps_text, step_text, picture_text, week_text, IsNamedDay, IsPlanWeek, PlanWeek};

mod changes;

use crate::answers::{LEAST_LONGEST, push_longest, told_windows, window_runs};
use crate::clock::{TimeOfDay, second_of_day};
use crate::date_name::DateName;
use crate::view::View;
use changes::{push_changes, shown_changes};
use cronplan::{Day, HourCell, Moment};
use std::alloc::{AllocError, Global};

/// The signs that a terminal can show.
#[derive(Debug, Clone, Copy)]
pub enum Signs {
    /// A dot, and blocks of eight heights.
    Blocks,
    /// A dot, and digits from 1 to 8.
    Digits,
}

/// A date of a plan, and what it is called.
#[derive(Clone, Copy)]
pub struct WeekDay<'w> {
    pub name: DateName,
    pub day: &'w Day,
}

/// The least starts in an hour of each of the steps.
const STEPS: [u64; 9] = [0, 1, 2, 4, 8, 16, 32, 64, 128];

/// The picture of a plan: a row a date, and what the signs mean. Below it stand a line for each change of the clock, and the longest
/// windows of an hour or more in which nothing starts, as `quiet_text` tells them, in five lines at most.
///
/// A sign stands for the number of starts in an hour, in doubling steps. An hour that the clock skips is an `x`, and an hour that the plan
/// doesn't have is a dash. The only error is lack of memory.
pub fn week_text(alloc: Global, view: View<'_>, signs: Signs) -> Result<String, AllocError>
    ensures { IfOk result (λ t. (week : PlanWeek) × IsPlanWeek view.entry.table.now view.entry.plan.now week × (string_bytes t ≡ week_text signs view.entry week)) }
{
    let days = view.plan.days(alloc, view.table)?;
    let rows = named_days(alloc, days.days.as_slice())?;
    let changes = shown_changes(alloc, view.plan, days.changes.as_slice())?;
    let windows = told_windows(alloc, view, LEAST_LONGEST)?;
    let runs = window_runs(alloc, windows.as_slice())?;
    let mut text = String::new(alloc);
    push_picture(&mut text, rows.as_slice(), signs)?;
    push_changes(&mut text, view, changes.as_slice())?;
    push_longest(&mut text, runs.as_slice(), view.shows_all())?;
    Ok(text)
}

/// Dates, with what they are called. The only error is lack of memory.
pub fn named_days<'w>(alloc: Global, days: &'w [Day]) -> Result<Vec<WeekDay<'w>>, AllocError>
    ensures days { IfOk result (λ named. map (λ d. d.day.now) named.items ≡ days.now) }
    ensures names { IfOk result (λ named. All IsNamedDay named.items) }
{
    let mut named = Vec::new(alloc);
    for day in days {
        named.push(named_day(day))?;
    }
    Ok(named)
}

fn named_day(day: &Day) -> WeekDay<'_>
    ensures day { result.day.now ≡ day.now }
    ensures name { IsNamedDay result }
{
    WeekDay {
        name: DateName::of(day.date),
        day,
    }
}

// Appends the rows of a picture to a text, and what the signs mean.
#[tactic(auto, unfolding(crate::specs::Weeks::picture_text))]
fn push_picture(text: &mut String, days: &[WeekDay<'_>], signs: Signs) -> Result<(), AllocError>
    ensures { OnOk result (string_bytes text.new ≡ string_bytes text.old ++ picture_text signs days.now) }
{
    push_head(text)?;
    push_rows(text, days, signs)?;
    push_legend_of(text, days, signs)
}

#[tactic(auto, unfolding(crate::specs::Weeks::head_text))]
fn push_head(text: &mut String) -> Result<(), AllocError>
    ensures { OnOk result (string_bytes text.new ≡ string_bytes text.old ++ head_text) }
{
    text.push_str("            0     3     6     9     12    15    18    21    starts, fullest\n")
}

#[tactic(auto, using(crate::proofs::WeekParts::rows_step), unfolding(crate::specs::Weeks::rows_text))]
fn push_rows(text: &mut String, days: &[WeekDay<'_>], signs: Signs) -> Result<(), AllocError>
    ensures { OnOk result (string_bytes text.new ≡ string_bytes text.old ++ rows_text signs days.now) }
{
    for day in days {
        push_row(text, *day, signs)?;
    }
    Ok(())
}

// Appends a date to a text: its name, its hours, how many starts it has, and its fullest moment.
#[tactic(auto, unfolding(crate::specs::Weeks::row_text))]
fn push_row(text: &mut String, day: WeekDay<'_>, signs: Signs) -> Result<(), AllocError>
    ensures { OnOk result (string_bytes text.new ≡ string_bytes text.old ++ row_text signs day.entry) }
{
    let name = day.name;
    write!(text, "{name}  ")?;
    push_cells(text, day.day.hours.as_slice(), signs)?;
    push_total(text, day.day.starts, day.day.fullest)
}

// Appends to a text how many starts a date has, and its fullest moment, and ends the line.
#[tactic(auto, unfolding(crate::specs::Weeks::total_text))]
fn push_total(text: &mut String, starts: u64, fullest: Option<Moment>) -> Result<(), AllocError>
    ensures { OnOk result (string_bytes text.new ≡ string_bytes text.old ++ total_text starts fullest) }
{
    write!(text, "{starts}")?;
    push_fullest(text, fullest)?;
    text.push_str("\n")
}

#[tactic(auto, using(crate::proofs::WeekParts::cells_step), unfolding(crate::specs::Weeks::cells_text))]
fn push_cells(text: &mut String, cells: &[HourCell], signs: Signs) -> Result<(), AllocError>
    ensures { OnOk result (string_bytes text.new ≡ string_bytes text.old ++ cells_text signs cells.now) }
{
    for cell in cells {
        let sign = sign_of(*cell, signs);
        write!(text, "{sign} ")?;
    }
    Ok(())
}

// The sign of an hour.
fn sign_of(cell: HourCell, signs: Signs) -> &'static str
    ensures { result.now ≡ sign_of signs cell }
{
    if cell.skipped {
        return "x";
    }
    if cell.outside {
        return "-";
    }
    step_sign(cell.starts, signs)
}

// The sign of so many starts.
fn step_sign(starts: u64, signs: Signs) -> &'static str
    ensures { result.now ≡ step_sign signs starts }
{
    match signs {
        Signs::Blocks => block_of(starts),
        Signs::Digits => digit_of(starts),
    }
}

fn block_of(starts: u64) -> &'static str
    ensures { result.now ≡ block_of starts }
{
    if starts == 0 {
        "·"
    } else if starts < 2 {
        "▁"
    } else if starts < 4 {
        "▂"
    } else if starts < 8 {
        "▃"
    } else if starts < 16 {
        "▄"
    } else if starts < 32 {
        "▅"
    } else if starts < 64 {
        "▆"
    } else if starts < 128 {
        "▇"
    } else {
        "█"
    }
}

fn digit_of(starts: u64) -> &'static str
    ensures { result.now ≡ digit_of starts }
{
    if starts == 0 {
        "."
    } else if starts < 2 {
        "1"
    } else if starts < 4 {
        "2"
    } else if starts < 8 {
        "3"
    } else if starts < 16 {
        "4"
    } else if starts < 32 {
        "5"
    } else if starts < 64 {
        "6"
    } else if starts < 128 {
        "7"
    } else {
        "8"
    }
}

// Appends the fullest moment of a date to a text, if it has one.
fn push_fullest(text: &mut String, fullest: Option<Moment>) -> Result<(), AllocError>
    ensures { OnOk result (string_bytes text.new ≡ string_bytes text.old ++ fullest_text fullest) }
{
    match fullest {
        Some(moment) => push_moment(text, moment),
        None => Ok(()),
    }
}

#[tactic(auto, unfolding(crate::specs::Weeks::moment_text))]
fn push_moment(text: &mut String, moment: Moment) -> Result<(), AllocError>
    ensures { OnOk result (string_bytes text.new ≡ string_bytes text.old ++ moment_text moment) }
{
    let starts = moment.starts;
    let time = TimeOfDay {
        second: time_of(moment),
    };
    write!(text, ", {starts} at {time}")
}

// The second of the day of a moment.
fn time_of(moment: Moment) -> u64
    ensures { result ≡ second_of_day moment.wall }
{
    second_of_day(moment.wall)
}

// Appends to a text what the signs of these dates mean.
fn push_legend_of(text: &mut String, days: &[WeekDay<'_>], signs: Signs) -> Result<(), AllocError>
    ensures { OnOk result (string_bytes text.new ≡ string_bytes text.old ++ legend_of signs days.now) }
{
    push_legend(text, signs, any_skipped(days), any_outside(days))
}

// Appends to a text what the signs mean, where these two stand too.
#[tactic(auto, unfolding(crate::specs::Weeks::legend_text))]
fn push_legend(
    text: &mut String,
    signs: Signs,
    skipped: bool,
    outside: bool,
) -> Result<(), AllocError>
    ensures { OnOk result (string_bytes text.new ≡ string_bytes text.old ++ legend_text signs skipped outside) }
{
    push_steps(text, &STEPS, signs)?;
    text.push_str("starts in an hour, or more\n")?;
    push_marks(text, skipped, outside)
}

// Appends to a text what the signs mean that aren't numbers of starts, where they stand.
fn push_marks(text: &mut String, skipped: bool, outside: bool) -> Result<(), AllocError>
    ensures { OnOk result (string_bytes text.new ≡ string_bytes text.old ++ (skipped_line skipped ++ outside_line outside)) }
{
    text.push_str(skipped_line(skipped))?;
    text.push_str(outside_line(outside))
}

// What the sign of an hour that the clock skips means, where there is one.
fn skipped_line(has_one: bool) -> &'static str
    ensures { result.now ≡ skipped_line has_one }
{
    if has_one {
        "x: the clock skips the hour\n"
    } else {
        ""
    }
}

// What the sign of an hour that the plan doesn't have means, where there is one.
fn outside_line(has_one: bool) -> &'static str
    ensures { result.now ≡ outside_line has_one }
{
    if has_one { "-: not in the plan\n" } else { "" }
}

fn any_skipped(days: &[WeekDay<'_>]) -> bool
    ensures { result ≡ list_any has_skipped days.now }
{
    days.iter().any(|day| has_skipped(day))
}

fn any_outside(days: &[WeekDay<'_>]) -> bool
    ensures { result ≡ list_any has_outside days.now }
{
    days.iter().any(|day| has_outside(day))
}

// Whether an hour of a date is one that the clock skips.
fn has_skipped(day: &WeekDay<'_>) -> bool
    ensures { result ≡ has_skipped day.now }
{
    day.day.hours.iter().any(|cell| is_skipped(cell))
}

// Whether an hour of a date is one that the plan doesn't have.
fn has_outside(day: &WeekDay<'_>) -> bool
    ensures { result ≡ has_outside day.now }
{
    day.day.hours.iter().any(|cell| is_outside(cell))
}

fn is_skipped(cell: &HourCell) -> bool
    ensures { result ≡ cell.now.skipped }
{
    cell.skipped
}

fn is_outside(cell: &HourCell) -> bool
    ensures { result ≡ cell.now.outside }
{
    cell.outside
}

#[tactic(auto, using(crate::proofs::WeekParts::steps_step), unfolding(crate::specs::Weeks::steps_text))]
fn push_steps(text: &mut String, steps: &[u64], signs: Signs) -> Result<(), AllocError>
    ensures { OnOk result (string_bytes text.new ≡ string_bytes text.old ++ steps_text signs steps.now) }
{
    for least in steps {
        let sign = step_sign(*least, signs);
        write!(text, "{sign}={least}  ")?;
    }
    Ok(())
}
