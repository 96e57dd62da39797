//! The days of a plan as a table: a row a day, a cell an hour.
ghost use Rattle.std.specs.Prelude.{◌≡◌, ◌++◌, OnOk, string_bytes};
ghost use Rattle.cronplan_forms.specs.Clocks.{second_of_day};
ghost use Rattle.cronplan_page.specs.Weeks.{step_of, count_text, class_of, cell_text, cells_text, hour_text, fullest_of, fullest_cell, day_cells, row_text, rows_text, week_text};

use crate::markup::push_number;
use crate::pieces::{Piece, push_piece};
use crate::words::push_date_name;
use cronplan::{Day, HourCell, Moment};
use cronplan_forms::WeekDay;
use std::alloc::AllocError;

const SECONDS_PER_DAY: i64 = 86_400;

/// Appends the table of some days to the text of a page, and what its signs mean. The only error is lack of memory; the text's end is then
/// unspecified.
#[tactic(auto, unfolding(crate::specs::Weeks::week_text))]
pub(crate) fn push_week(out: &mut String, days: &[WeekDay<'_>]) -> Result<(), AllocError>
    ensures { OnOk result (string_bytes out.new ≡ string_bytes out.old ++ week_text days.now) }
{
    push_piece(out, Piece::WeekHeading)?;
    push_piece(out, Piece::WeekTable)?;
    push_rows(out, days)?;
    push_piece(out, Piece::TableEnd)?;
    push_piece(out, Piece::WeekKey)
}

#[tactic(auto, using(crate::proofs::Steps::rows_step), unfolding(crate::specs::Weeks::rows_text))]
fn push_rows(out: &mut String, days: &[WeekDay<'_>]) -> Result<(), AllocError>
    ensures { OnOk result (string_bytes out.new ≡ string_bytes out.old ++ rows_text days.now) }
{
    for day in days {
        push_row(out, *day)?;
    }
    Ok(())
}

#[tactic(auto, unfolding(crate::specs::Weeks::row_text))]
fn push_row(out: &mut String, day: WeekDay<'_>) -> Result<(), AllocError>
    ensures { OnOk result (string_bytes out.new ≡ string_bytes out.old ++ row_text day.entry) }
{
    push_piece(out, Piece::Row)?;
    push_date_name(out, day.name)?;
    push_piece(out, Piece::RowName)?;
    push_day_cells(out, day.day)
}

// Appends the cells of a day after its name.
#[tactic(auto, unfolding(crate::specs::Weeks::day_cells))]
fn push_day_cells(out: &mut String, day: &Day) -> Result<(), AllocError>
    ensures { OnOk result (string_bytes out.new ≡ string_bytes out.old ++ day_cells day.now) }
{
    push_cells(out, day.hours.as_slice())?;
    push_number(out, day.starts)?;
    push_fullest_cell(out, day.fullest)?;
    push_piece(out, Piece::RowEnd)
}

#[tactic(auto, using(crate::proofs::Steps::cells_step), unfolding(crate::specs::Weeks::cells_text))]
fn push_cells(out: &mut String, cells: &[HourCell]) -> Result<(), AllocError>
    ensures { OnOk result (string_bytes out.new ≡ string_bytes out.old ++ cells_text cells.now) }
{
    for cell in cells {
        push_cell(out, *cell)?;
    }
    Ok(())
}

fn push_cell(out: &mut String, cell: HourCell) -> Result<(), AllocError>
    ensures { OnOk result (string_bytes out.new ≡ string_bytes out.old ++ cell_text cell) }
{
    if cell.skipped {
        return push_piece(out, Piece::SkippedCell);
    }
    if cell.outside {
        return push_piece(out, Piece::OutsideCell);
    }
    push_count(out, class_of(cell.repeated), cell.starts)
}

// The class of an hour, which differs if the clock shows it twice.
fn class_of(repeated: bool) -> &'static str
    ensures { result.now ≡ class_of repeated }
{
    if repeated { "t " } else { "" }
}

// Appends the count of an hour to a text: nothing where it is 0.
#[tactic(auto, unfolding(crate::specs::Weeks::count_text))]
fn push_count(out: &mut String, class: &str, starts: u64) -> Result<(), AllocError>
    ensures { OnOk result (string_bytes out.new ≡ string_bytes out.old ++ count_text class.now starts) }
{
    if starts == 0 {
        return write!(out, "<td class=\"{class}s0\"></td>");
    }
    let step = step_of(starts);
    write!(out, "<td class=\"{class}s{step}\">{starts}</td>")
}

// How dark an hour is, in doubling steps from 0 to 8.
fn step_of(starts: u64) -> u8
    ensures { result ≡ step_of starts }
{
    match starts {
        0 => 0,
        1 => 1,
        2..=3 => 2,
        4..=7 => 3,
        8..=15 => 4,
        16..=31 => 5,
        32..=63 => 6,
        64..=127 => 7,
        _ => 8,
    }
}

#[tactic(auto, unfolding(crate::specs::Weeks::fullest_cell))]
fn push_fullest_cell(out: &mut String, fullest: Option<Moment>) -> Result<(), AllocError>
    ensures { OnOk result (string_bytes out.new ≡ string_bytes out.old ++ fullest_cell fullest) }
{
    push_piece(out, Piece::Cell)?;
    push_fullest(out, fullest)?;
    push_piece(out, Piece::CellEnd)
}

// Appends the fullest moment of a day to a text, if it has one.
fn push_fullest(out: &mut String, fullest: Option<Moment>) -> Result<(), AllocError>
    ensures { OnOk result (string_bytes out.new ≡ string_bytes out.old ++ fullest_of fullest) }
{
    match fullest {
        Some(moment) => {
            let starts = moment.starts;
            write!(out, "{starts} at ")?;
            push_hour(out, second_of_day(moment.wall))
        }
        None => Ok(()),
    }
}

// Appends the hour and the minute of a second of the day to a text, as `02:30`.
fn push_hour(out: &mut String, second: u64) -> Result<(), AllocError>
    ensures { OnOk result (string_bytes out.new ≡ string_bytes out.old ++ hour_text second) }
{
    let (hour, minute) = (second / 3_600, second / 60 % 60);
    write!(out, "{hour:02}:{minute:02}")
}

// The second of the day of a wall second, from 0 to 86,399.
fn second_of_day(wall: i64) -> u64
    ensures { result ≡ second_of_day wall }
{
    wall.rem_euclid(SECONDS_PER_DAY) as u64
}
