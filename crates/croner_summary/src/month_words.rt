//! Months and years in words.

ghost use Rattle.std.specs.Prelude.{◌≡◌, ◌<◌, ◌++◌, length, IsSome};
ghost use Rattle.croner_summary.specs.Private.Appended.{Appends};
ghost use Rattle.croner_summary.specs.Words.{list_text, term_text};
ghost use Rattle.croner_summary.specs.MonthWords.{listed_months, listed_years, months_case, months_text, stepped, stepped_all, stepped_span, years_case, years_text};

use crate::language::{Style, SummaryLanguage, Term, TimeUnit};
use crate::phrase::Piece;
use crate::words::{
    Kind, head_step, is_year, least_of, only_piece, write_list, write_nth, write_span, write_term,
    write_text, write_unit_name, write_value,
};
use croner_base::errors::CronError;

/// Writes every nth unit, before the first of them.
#[tactic(auto, unfolding(crate::specs::MonthWords::stepped))]
fn write_stepped(
    text: &mut String,
    language: SummaryLanguage,
    unit: TimeUnit,
    kind: Kind,
    n: u16,
) -> Result<(), CronError>
    ensures { Appends (stepped language unit kind n) text.old text.new result }
{
    write_nth(text, language, is_year(kind), n)?;
    write_unit_name(text, language, unit)?;
    write_term(text, language, Term::From)
}

/// Writes every nth unit from the least value on.
#[tactic(auto, unfolding(crate::specs::MonthWords::stepped_all))]
fn write_stepped_all(
    text: &mut String,
    language: SummaryLanguage,
    unit: TimeUnit,
    kind: Kind,
    n: u16,
) -> Result<(), CronError>
    ensures { Appends (stepped_all language unit kind n) text.old text.new result }
{
    write_stepped(text, language, unit, kind, n)?;
    write_value(text, language, kind, least_of(kind))
}

/// Writes every nth unit from one value to another.
#[tactic(auto, unfolding(crate::specs::MonthWords::stepped_span))]
fn write_stepped_span(
    text: &mut String,
    language: SummaryLanguage,
    unit: TimeUnit,
    kind: Kind,
    first: u16,
    last: u16,
    n: u16,
) -> Result<(), CronError>
    ensures { Appends (stepped_span language unit kind first last n) text.old text.new result }
{
    write_stepped(text, language, unit, kind, n)?;
    write_span(text, language, kind, first, last)
}

/// Writes a list of months.
fn write_month_list(text: &mut String, style: Style, pieces: &[Piece]) -> Result<(), CronError>
    ensures { Appends (term_text style.language Term.InMonths ++ list_text style Kind.Month pieces.now) text.old text.new result }
{
    write_term(text, style.language, Term::InMonths)?;
    write_list(text, style, Kind::Month, pieces)
}

/// Writes a list of months, which may begin with a step.
#[tactic(auto, unfolding(crate::specs::MonthWords::listed_months))]
fn write_listed_months(
    text: &mut String,
    style: Style,
    pieces: &[Piece],
    head: Option<u16>,
) -> Result<(), CronError>
    requires { IsSome head → 0 < length pieces.now }
    ensures { Appends (listed_months style pieces.now head) text.old text.new result }
{
    match head {
        None => write_month_list(text, style, pieces),
        Some(n) => {
            write_term(text, style.language, Term::InMonths)?;
            write_stepped_all(text, style.language, TimeUnit::Month, Kind::Month, n)?;
            write_term(text, style.language, Term::AndInMonths)?;
            write_list(text, style, Kind::Month, &pieces[1..])
        }
    }
}

/// Writes months by their one piece, unless each month is named.
#[tactic(auto, unfolding(crate::specs::MonthWords::months_case))]
fn write_months_case(
    text: &mut String,
    style: Style,
    pieces: &[Piece],
    one: Option<Piece>,
) -> Result<(), CronError>
    ensures { Appends (months_case style pieces.now one) text.old text.new result }
{
    let language = style.language;
    match one {
        Some(Piece::Every) => Ok(()),
        Some(Piece::EveryNth(n)) => {
            write_term(text, language, Term::InMonths)?;
            write_stepped_all(text, language, TimeUnit::Month, Kind::Month, n)
        }
        Some(Piece::RangeNth(first, last, n)) => {
            write_term(text, language, Term::InMonths)?;
            write_stepped_span(text, language, TimeUnit::Month, Kind::Month, first, last, n)
        }
        Some(Piece::One(_)) => write_month_list(text, style, pieces),
        Some(Piece::Range(first, last)) => {
            write_text(text, ", ")?;
            write_span(text, language, Kind::Month, first, last)
        }
        None => write_listed_months(text, style, pieces, head_step(pieces)),
    }
}

/// Writes months, unless each month is named.
#[tactic(auto, unfolding(crate::specs::MonthWords::months_text))]
pub(crate) fn write_months(
    text: &mut String,
    style: Style,
    pieces: &[Piece],
) -> Result<(), CronError>
    ensures { Appends (months_text style pieces.now) text.old text.new result }
{
    write_months_case(text, style, pieces, only_piece(pieces))
}

/// Writes a list of years.
fn write_year_list(text: &mut String, style: Style, pieces: &[Piece]) -> Result<(), CronError>
    ensures { Appends (term_text style.language Term.InYears ++ list_text style Kind.Year pieces.now) text.old text.new result }
{
    write_term(text, style.language, Term::InYears)?;
    write_list(text, style, Kind::Year, pieces)
}

/// Writes a list of years, which may begin with a step.
#[tactic(auto, unfolding(crate::specs::MonthWords::listed_years))]
fn write_listed_years(
    text: &mut String,
    style: Style,
    pieces: &[Piece],
    head: Option<u16>,
) -> Result<(), CronError>
    requires { IsSome head → 0 < length pieces.now }
    ensures { Appends (listed_years style pieces.now head) text.old text.new result }
{
    match head {
        None => write_year_list(text, style, pieces),
        Some(n) => {
            write_term(text, style.language, Term::InNthYears)?;
            write_stepped_all(text, style.language, TimeUnit::Year, Kind::Year, n)?;
            write_term(text, style.language, Term::AndInYears)?;
            write_list(text, style, Kind::Year, &pieces[1..])
        }
    }
}

/// Writes years by their one piece, unless each year is named.
#[tactic(auto, unfolding(crate::specs::MonthWords::years_case))]
fn write_years_case(
    text: &mut String,
    style: Style,
    pieces: &[Piece],
    one: Option<Piece>,
) -> Result<(), CronError>
    ensures { Appends (years_case style pieces.now one) text.old text.new result }
{
    let language = style.language;
    match one {
        Some(Piece::Every) => Ok(()),
        Some(Piece::EveryNth(n)) => {
            write_term(text, language, Term::InNthYears)?;
            write_stepped_all(text, language, TimeUnit::Year, Kind::Year, n)
        }
        Some(Piece::RangeNth(first, last, n)) => {
            write_term(text, language, Term::InNthYears)?;
            write_stepped_span(text, language, TimeUnit::Year, Kind::Year, first, last, n)
        }
        Some(Piece::One(_)) => write_year_list(text, style, pieces),
        Some(Piece::Range(first, last)) => {
            write_text(text, ",")?;
            write_term(text, language, Term::From)?;
            write_span(text, language, Kind::Year, first, last)
        }
        None => write_listed_years(text, style, pieces, head_step(pieces)),
    }
}

/// Writes years, unless each year is named.
#[tactic(auto, unfolding(crate::specs::MonthWords::years_text))]
pub(crate) fn write_years(
    text: &mut String,
    style: Style,
    pieces: &[Piece],
) -> Result<(), CronError>
    ensures { Appends (years_text style pieces.now) text.old text.new result }
{
    write_years_case(text, style, pieces, only_piece(pieces))
}
