//! Texts of patterns that are made up, of each form that a field can have.

use crate::draws::Draws;
use croner_rows::Result;
use std::alloc::Global;

const NICKNAMES: [&str; 6] = [
    "@yearly",
    "@annually",
    "@monthly",
    "@weekly",
    "@daily",
    "@hourly",
];

const DAYS: [&str; 14] = [
    "L", "LW", "1W", "15W", "31W", "L,1W", "LW,13", "?", "29-31", "1,15", "31", "L", "1-7", "28W",
];

const MONTHS: [&str; 10] = [
    "2",
    "FEB",
    "JAN-MAR",
    "*/3",
    "DEC",
    "1,12",
    "2/5",
    "APR,JUN,SEP,NOV",
    "11-12",
    "2",
];

const WEEKDAYS: [&str; 20] = [
    "MON-FRI",
    "5#5",
    "1#1",
    "MON#2",
    "SUN#3",
    "2#4",
    "0#5",
    "1L",
    "5L",
    "FRI#L",
    "MON#5,TUE#1",
    "?",
    "7",
    "0",
    "SAT,SUN",
    "+FRI",
    "+1#5",
    "+MON-WED",
    "1#2,1#4",
    "*/2",
];

const YEARS: [&str; 22] = [
    "2024",
    "2024-2030",
    "1-5000/4",
    "*/2",
    "2024,2026",
    "1",
    "5000",
    "1,5000",
    "2027-2028",
    "1-4",
    "4997-5000",
    "1999,2001-2003,2040",
    "*/400",
    "2000-2099",
    "1-5000",
    "4999",
    "2-4999",
    "1,3",
    "2024/4",
    "*/5000",
    "2100",
    "1900-2100/7",
];

/// Which values a field can have.
#[derive(Clone, Copy)]
struct Bounds {
    first: u32,
    last: u32,
}

const SIXTY: Bounds = Bounds { first: 0, last: 59 };

const HOURS: Bounds = Bounds { first: 0, last: 23 };

const MONTH_DAYS: Bounds = Bounds { first: 1, last: 31 };

const MONTH_NUMBERS: Bounds = Bounds { first: 1, last: 12 };

const WEEK: Bounds = Bounds { first: 0, last: 7 };

/// Adds a pattern to a text: a nickname, or five to seven fields.
pub fn add_pattern(alloc: Global, draws: &mut Draws, text: &mut String) -> Result<()> {
    if draws.is_one_in(24) {
        text.push_str(draws.word(NICKNAMES.as_slice()))?;
        return Ok(());
    }
    let has_seconds = !draws.is_one_in(3);
    if has_seconds {
        add_time_field(alloc, draws, text, SIXTY)?;
        text.push_str(" ")?;
    }
    add_time_field(alloc, draws, text, SIXTY)?;
    text.push_str(" ")?;
    add_time_field(alloc, draws, text, HOURS)?;
    text.push_str(" ")?;
    add_date(alloc, draws, text)?;
    if has_seconds && draws.is_one_in(3) {
        text.push_str(" ")?;
        text.push_str(draws.word(YEARS.as_slice()))?;
    }
    Ok(())
}

fn add_date(alloc: Global, draws: &mut Draws, text: &mut String) -> Result<()> {
    add_field_or_word(alloc, draws, text, MONTH_DAYS, DAYS.as_slice())?;
    text.push_str(" ")?;
    add_field_or_word(alloc, draws, text, MONTH_NUMBERS, MONTHS.as_slice())?;
    text.push_str(" ")?;
    add_field_or_word(alloc, draws, text, WEEK, WEEKDAYS.as_slice())
}

// A star in one of two cases, else one of the words, or a field.
fn add_field_or_word(
    alloc: Global,
    draws: &mut Draws,
    text: &mut String,
    bounds: Bounds,
    words: &[&str],
) -> Result<()> {
    match draws.below(4) {
        0 | 1 => text.push_str("*")?,
        2 => text.push_str(draws.word(words))?,
        _ => add_parts(alloc, draws, text, bounds)?,
    }
    Ok(())
}

// A single value in one of three cases.
fn add_time_field(
    alloc: Global,
    draws: &mut Draws,
    text: &mut String,
    bounds: Bounds,
) -> Result<()> {
    if draws.is_one_in(3) {
        add_number(alloc, text, draws.between(bounds.first, bounds.last))
    } else {
        add_parts(alloc, draws, text, bounds)
    }
}

// A part; in one of three cases one or two more.
fn add_parts(alloc: Global, draws: &mut Draws, text: &mut String, bounds: Bounds) -> Result<()> {
    add_part(alloc, draws, text, bounds)?;
    for _ in 0..draws.below(6).saturating_sub(3) {
        text.push_str(",")?;
        add_part(alloc, draws, text, bounds)?;
    }
    Ok(())
}

fn add_part(alloc: Global, draws: &mut Draws, text: &mut String, bounds: Bounds) -> Result<()> {
    let form = draws.below(6);
    let first = draws.between(bounds.first, bounds.last);
    match form {
        0 => text.push_str("*")?,
        1 => {
            text.push_str("*/")?;
            add_number(alloc, text, draws.between(1, bounds.last))?;
        }
        2 => add_number(alloc, text, first)?,
        _ => add_range(alloc, draws, text, first, bounds)?,
    }
    Ok(())
}

// A range, in one of three cases with a step, and in one without its end, which sloppy ranges take.
fn add_range(
    alloc: Global,
    draws: &mut Draws,
    text: &mut String,
    first: u32,
    bounds: Bounds,
) -> Result<()> {
    add_number(alloc, text, first)?;
    let form = draws.below(6);
    if form != 0 {
        text.push_str("-")?;
        add_number(alloc, text, draws.between(first, bounds.last))?;
    }
    if form < 3 {
        text.push_str("/")?;
        add_number(alloc, text, draws.between(1, 12))?;
    }
    Ok(())
}

fn add_number(alloc: Global, text: &mut String, number: u32) -> Result<()> {
    let digits = format!(in alloc; "{number}")?;
    text.push_str(digits.as_str())?;
    Ok(())
}
