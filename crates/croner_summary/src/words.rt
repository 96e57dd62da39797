//! Values, pieces and lists in words.

ghost use Rattle.std.specs.Prelude.{◌≡◌, ◌<◌, ◌++◌, true, decimal, length, IsSome};
ghost use Rattle.croner_summary.specs.Words.{clock_text, every_text, head_step, headed_text, is_year, least_of, left_text, list_text, month_name, nth_text, ordinal, ordinal_end, piece_text, second_text, separator, only_piece, sole_text, span_text, step_text, term_text, two_places, unit_name, unit_text, units_text, value_text, weekday_name, whole_step};
ghost use Rattle.croner_summary.specs.Private.Appended.{Appends, BeginsList};

use crate::english::{
    english_month, english_ordinal_end, english_term, english_unit, english_weekday,
    write_english_every, write_english_nth,
};
use crate::language::{Style, SummaryLanguage, Term, TimeUnit};
use crate::phrase::Piece;
use crate::swedish::{
    swedish_month, swedish_ordinal_end, swedish_term, swedish_unit, swedish_weekday,
    write_swedish_every, write_swedish_nth,
};
use croner_base::errors::CronError;

/// How values are written.
#[derive(Debug, Clone, Copy)]
pub enum Kind {
    /// As numbers from 0.
    Number,
    /// As numbers from 1.
    Year,
    /// As ordinals: 1st.
    Ordinal,
    /// By the names of weekdays.
    Weekday,
    /// By the names of weekdays after an ordinal, as in `the first Monday`.
    NthWeekday,
    /// By the names of weekdays to which other days are limited.
    OnlyWeekday,
    /// By the names of months.
    Month,
    /// As hours, at a minute and a second: 09:30.
    HourAt(u16, u16),
    /// As minutes of an hour, at a second: 09:30.
    MinuteOf(u16, u16),
}

/// A term.
#[tactic(auto, unfolding(crate::specs::Words::term_text))]
fn term_of(language: SummaryLanguage, term: Term) -> &'static str
    ensures { result.now ≡ term_text language term }
{
    match language {
        SummaryLanguage::English => english_term(term),
        SummaryLanguage::Swedish => swedish_term(term),
    }
}

/// The name of a unit.
#[tactic(auto, unfolding(crate::specs::Words::unit_name))]
fn unit_name(language: SummaryLanguage, unit: TimeUnit) -> &'static str
    ensures { result.now ≡ unit_name language unit }
{
    match language {
        SummaryLanguage::English => english_unit(unit),
        SummaryLanguage::Swedish => swedish_unit(unit),
    }
}

/// The end of an ordinal.
#[tactic(auto, unfolding(crate::specs::Words::ordinal_end))]
fn ordinal_end(language: SummaryLanguage, n: u16) -> &'static str
    ensures { result.now ≡ ordinal_end language n }
{
    match language {
        SummaryLanguage::English => english_ordinal_end(n),
        SummaryLanguage::Swedish => swedish_ordinal_end(n),
    }
}

/// The name of a weekday.
#[tactic(auto, unfolding(crate::specs::Words::weekday_name))]
fn weekday_name(language: SummaryLanguage, weekday: u16) -> &'static str
    ensures { result.now ≡ weekday_name language weekday }
{
    match language {
        SummaryLanguage::English => english_weekday(weekday),
        SummaryLanguage::Swedish => swedish_weekday(weekday),
    }
}

/// The name of a month.
#[tactic(auto, unfolding(crate::specs::Words::month_name))]
fn month_name(language: SummaryLanguage, month: u16) -> &'static str
    ensures { result.now ≡ month_name language month }
{
    match language {
        SummaryLanguage::English => english_month(month),
        SummaryLanguage::Swedish => swedish_month(month),
    }
}

/// Writes every so many units.
#[tactic(auto, unfolding(crate::specs::Words::every_text))]
pub(crate) fn write_every(
    text: &mut String,
    language: SummaryLanguage,
    n: u16,
    unit: TimeUnit,
) -> Result<(), CronError>
    ensures { Appends (every_text language n unit) text.old text.new result }
{
    match language {
        SummaryLanguage::English => write_english_every(text, n, unit),
        SummaryLanguage::Swedish => write_swedish_every(text, n, unit),
    }
}

/// Writes every nth, before what it is, which may be a year.
#[tactic(auto, unfolding(crate::specs::Words::nth_text))]
pub(crate) fn write_nth(
    text: &mut String,
    language: SummaryLanguage,
    is_year: bool,
    n: u16,
) -> Result<(), CronError>
    ensures { Appends (nth_text language is_year n) text.old text.new result }
{
    match language {
        SummaryLanguage::English => write_english_nth(text, n),
        SummaryLanguage::Swedish => write_swedish_nth(text, false, is_year, n),
    }
}

/// Appends a text to another.
pub(crate) fn write_text(text: &mut String, more: &str) -> Result<(), CronError>
    ensures { Appends more.now text.old text.new result }
{
    Ok(text.push_str(more)?)
}

/// Writes a term.
pub(crate) fn write_term(
    text: &mut String,
    language: SummaryLanguage,
    term: Term,
) -> Result<(), CronError>
    ensures { Appends (term_text language term) text.old text.new result }
{
    write_text(text, term_of(language, term))
}

/// Writes a number.
pub(crate) fn write_number(text: &mut String, n: u16) -> Result<(), CronError>
    ensures { Appends (decimal n) text.old text.new result }
{
    Ok(write!(text, "{n}")?)
}

/// Writes an ordinal.
#[tactic(auto, unfolding(crate::specs::Words::ordinal))]
pub(crate) fn write_ordinal(
    text: &mut String,
    language: SummaryLanguage,
    n: u16,
) -> Result<(), CronError>
    ensures { Appends (ordinal language n) text.old text.new result }
{
    let end = ordinal_end(language, n);
    Ok(write!(text, "{n}{end}")?)
}

/// Writes a number in two places.
#[tactic(auto, unfolding(crate::specs::Words::two_places))]
fn write_two(text: &mut String, n: u16) -> Result<(), CronError>
    ensures { Appends (two_places n) text.old text.new result }
{
    if n < 10 {
        return Ok(write!(text, "0{n}")?);
    }
    write_number(text, n)
}

/// Writes the seconds of a time of day, where they aren't 0.
#[tactic(auto, unfolding(crate::specs::Words::second_text))]
fn write_second(text: &mut String, second: u16) -> Result<(), CronError>
    ensures { Appends (second_text second) text.old text.new result }
{
    if second == 0 {
        return Ok(());
    }
    write_text(text, ":")?;
    write_two(text, second)
}

/// Writes a time of day.
#[tactic(auto, unfolding(crate::specs::Words::clock_text))]
pub(crate) fn write_clock(
    text: &mut String,
    hour: u16,
    minute: u16,
    second: u16,
) -> Result<(), CronError>
    ensures { Appends (clock_text hour minute second) text.old text.new result }
{
    write_two(text, hour)?;
    write_text(text, ":")?;
    write_two(text, minute)?;
    write_second(text, second)
}

/// Writes a weekday with an end.
fn write_weekday(
    text: &mut String,
    language: SummaryLanguage,
    weekday: u16,
    end: Term,
) -> Result<(), CronError>
    ensures { Appends (weekday_name language weekday ++ term_text language end) text.old text.new result }
{
    write_text(text, weekday_name(language, weekday))?;
    write_term(text, language, end)
}

/// Writes a value.
pub(crate) fn write_value(
    text: &mut String,
    language: SummaryLanguage,
    kind: Kind,
    value: u16,
) -> Result<(), CronError>
    ensures { Appends (value_text language kind value) text.old text.new result }
{
    match kind {
        Kind::Number => write_number(text, value),
        Kind::Year => write_number(text, value),
        Kind::Ordinal => write_ordinal(text, language, value),
        Kind::Weekday => write_text(text, weekday_name(language, value)),
        Kind::NthWeekday => write_weekday(text, language, value, Term::NthEnd),
        Kind::OnlyWeekday => write_weekday(text, language, value, Term::OnlyEnd),
        Kind::Month => write_text(text, month_name(language, value)),
        Kind::HourAt(minute, second) => write_clock(text, value, minute, second),
        Kind::MinuteOf(hour, second) => write_clock(text, hour, value, second),
    }
}

/// The least value of a kind.
pub(crate) fn least_of(kind: Kind) -> u16
    ensures { result ≡ least_of kind }
{
    match kind {
        Kind::Number => 0,
        Kind::Year => 1,
        Kind::Ordinal => 1,
        Kind::Weekday => 0,
        Kind::NthWeekday => 0,
        Kind::OnlyWeekday => 0,
        Kind::Month => 1,
        Kind::HourAt(_, _) => 0,
        Kind::MinuteOf(_, _) => 0,
    }
}

/// Whether the values are years.
pub(crate) fn is_year(kind: Kind) -> bool
    ensures { result ≡ is_year kind }
{
    match kind {
        Kind::Number => false,
        Kind::Year => true,
        Kind::Ordinal => false,
        Kind::Weekday => false,
        Kind::NthWeekday => false,
        Kind::OnlyWeekday => false,
        Kind::Month => false,
        Kind::HourAt(_, _) => false,
        Kind::MinuteOf(_, _) => false,
    }
}

/// Writes from which value to which.
#[tactic(auto, unfolding(crate::specs::Words::span_text))]
pub(crate) fn write_span(
    text: &mut String,
    language: SummaryLanguage,
    kind: Kind,
    first: u16,
    last: u16,
) -> Result<(), CronError>
    ensures { Appends (span_text language kind first last) text.old text.new result }
{
    write_value(text, language, kind, first)?;
    write_term(text, language, Term::To)?;
    write_value(text, language, kind, last)
}

/// Writes a step of a list, before its first value.
fn write_nth_from(
    text: &mut String,
    language: SummaryLanguage,
    kind: Kind,
    n: u16,
) -> Result<(), CronError>
    ensures { Appends (nth_text language (is_year kind) n ++ term_text language Term.FromValue) text.old text.new result }
{
    write_nth(text, language, is_year(kind), n)?;
    write_term(text, language, Term::FromValue)
}

/// Writes a piece of a list.
fn write_piece(
    text: &mut String,
    language: SummaryLanguage,
    kind: Kind,
    piece: Piece,
) -> Result<(), CronError>
    ensures { Appends (piece_text language kind piece) text.old text.new result }
{
    match piece {
        Piece::Every => write_term(text, language, Term::EachOne),
        Piece::EveryNth(n) => {
            write_nth_from(text, language, kind, n)?;
            write_value(text, language, kind, least_of(kind))
        }
        Piece::One(value) => write_value(text, language, kind, value),
        Piece::Range(first, last) => write_span(text, language, kind, first, last),
        Piece::RangeNth(first, last, n) => {
            write_nth_from(text, language, kind, n)?;
            write_span(text, language, kind, first, last)
        }
    }
}

/// Writes what goes before an item of a list.
fn write_separator(
    text: &mut String,
    language: SummaryLanguage,
    place: usize,
    is_last: bool,
) -> Result<(), CronError>
    ensures { Appends (separator language place is_last) text.old text.new result }
{
    if place == 0 {
        return Ok(());
    }
    if is_last {
        return write_term(text, language, Term::And);
    }
    write_text(text, ", ")
}

/// Writes an item of a list with what goes before it.
fn write_item(
    text: &mut String,
    language: SummaryLanguage,
    kind: Kind,
    place: usize,
    is_last: bool,
    piece: Piece,
) -> Result<(), CronError>
    ensures { Appends (separator language place is_last ++ piece_text language kind piece) text.old text.new result }
{
    write_separator(text, language, place, is_last)?;
    write_piece(text, language, kind, piece)
}

/// Writes the first pieces of a list that has so many items.
fn write_items(
    text: &mut String,
    language: SummaryLanguage,
    kind: Kind,
    pieces: &[Piece],
    count: usize,
) -> Result<(), CronError>
    requires { length pieces.now < usize.MAX }
    ensures { BeginsList language kind pieces.now count text.old text.new result }
{
    for (place, piece) in pieces.iter().enumerate() {
        write_item(text, language, kind, place, place + 1 == count, *piece)?;
    }
    Ok(())
}

/// Writes how many items of a list are left.
fn write_left(
    text: &mut String,
    language: SummaryLanguage,
    place: usize,
    left: usize,
) -> Result<(), CronError>
    ensures { Appends (separator language place true ++ left_text language left) text.old text.new result }
{
    write_separator(text, language, place, true)?;
    let more = term_of(language, Term::More);
    Ok(write!(text, "{left}{more}")?)
}

/// Writes pieces as a list.
#[tactic(auto, unfolding(crate::specs::Words::list_text))]
pub(crate) fn write_list(
    text: &mut String,
    style: Style,
    kind: Kind,
    pieces: &[Piece],
) -> Result<(), CronError>
    ensures { Appends (list_text style kind pieces.now) text.old text.new result }
{
    let most = usize::from(style.most);
    if pieces.len() <= most {
        return write_items(text, style.language, kind, pieces, pieces.len());
    }
    let left = pieces.len() - most;
    write_items(text, style.language, kind, &pieces[..most], most + 1)?;
    write_left(text, style.language, most, left)
}

/// The one piece of a phrase, where there is one.
pub(crate) fn only_piece(pieces: &[Piece]) -> Option<Piece>
    ensures { result ≡ only_piece pieces.now }
{
    if pieces.len() == 1 {
        Some(pieces[0])
    } else {
        None
    }
}

/// The step that a list of more than one piece begins with.
pub(crate) fn head_step(pieces: &[Piece]) -> Option<u16>
    ensures value { result ≡ head_step pieces.now }
    ensures some { IsSome result → 0 < length pieces.now }
{
    if pieces.len() < 2 {
        return None;
    }
    match pieces[0] {
        Piece::EveryNth(n) => Some(n),
        _ => None,
    }
}

/// Writes the name of a unit.
pub(crate) fn write_unit_name(
    text: &mut String,
    language: SummaryLanguage,
    unit: TimeUnit,
) -> Result<(), CronError>
    ensures { Appends (unit_name language unit) text.old text.new result }
{
    write_text(text, unit_name(language, unit))
}

/// Writes a step of a unit, before its first value.
#[tactic(auto, unfolding(crate::specs::Words::step_text))]
fn write_step(
    text: &mut String,
    language: SummaryLanguage,
    unit: TimeUnit,
    n: u16,
) -> Result<(), CronError>
    ensures { Appends (step_text language unit n) text.old text.new result }
{
    write_nth(text, language, false, n)?;
    write_unit_name(text, language, unit)?;
    write_term(text, language, Term::From)
}

/// Writes a step of a unit from its least value on.
#[tactic(auto, unfolding(crate::specs::Words::whole_step))]
fn write_whole_step(
    text: &mut String,
    language: SummaryLanguage,
    unit: TimeUnit,
    n: u16,
) -> Result<(), CronError>
    ensures { Appends (whole_step language unit n) text.old text.new result }
{
    write_step(text, language, unit, n)?;
    write_number(text, 0)
}

/// Writes a unit before several numbers.
#[tactic(auto, unfolding(crate::specs::Words::units_text))]
fn write_units(
    text: &mut String,
    language: SummaryLanguage,
    unit: TimeUnit,
) -> Result<(), CronError>
    ensures { Appends (units_text language unit) text.old text.new result }
{
    write_unit_name(text, language, unit)?;
    write_term(text, language, Term::Plural)?;
    write_text(text, " ")
}

/// Writes one piece of a unit, or the list.
#[tactic(auto, unfolding(crate::specs::Words::sole_text))]
fn write_sole(
    text: &mut String,
    style: Style,
    unit: TimeUnit,
    pieces: &[Piece],
    one: Option<Piece>,
) -> Result<(), CronError>
    ensures { Appends (sole_text style unit pieces.now one) text.old text.new result }
{
    let language = style.language;
    match one {
        Some(Piece::Every) => {
            write_term(text, language, Term::Each)?;
            write_unit_name(text, language, unit)
        }
        Some(Piece::EveryNth(n)) => write_whole_step(text, language, unit, n),
        Some(Piece::One(value)) => {
            write_unit_name(text, language, unit)?;
            write_text(text, " ")?;
            write_number(text, value)
        }
        Some(Piece::Range(first, last)) => {
            write_units(text, language, unit)?;
            write_span(text, language, Kind::Number, first, last)
        }
        Some(Piece::RangeNth(first, last, n)) => {
            write_step(text, language, unit, n)?;
            write_span(text, language, Kind::Number, first, last)
        }
        None => {
            write_units(text, language, unit)?;
            write_list(text, style, Kind::Number, pieces)
        }
    }
}

/// Writes pieces of a unit, of which the first may be a step.
#[tactic(auto, unfolding(crate::specs::Words::headed_text))]
fn write_headed(
    text: &mut String,
    style: Style,
    unit: TimeUnit,
    pieces: &[Piece],
    head: Option<u16>,
) -> Result<(), CronError>
    requires { IsSome head → 0 < length pieces.now }
    ensures { Appends (headed_text style unit pieces.now head) text.old text.new result }
{
    match head {
        None => write_sole(text, style, unit, pieces, only_piece(pieces)),
        Some(n) => {
            write_whole_step(text, style.language, unit, n)?;
            write_term(text, style.language, Term::And)?;
            let others = &pieces[1..];
            write_sole(text, style, unit, others, only_piece(others))
        }
    }
}

/// Writes pieces of a unit whose values are numbers from 0.
#[tactic(auto, unfolding(crate::specs::Words::unit_text))]
pub(crate) fn write_unit(
    text: &mut String,
    style: Style,
    unit: TimeUnit,
    pieces: &[Piece],
) -> Result<(), CronError>
    ensures { Appends (unit_text style unit pieces.now) text.old text.new result }
{
    write_headed(text, style, unit, pieces, head_step(pieces))
}
