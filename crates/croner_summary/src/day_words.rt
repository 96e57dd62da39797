//! Days in words.

ghost use Rattle.std.specs.Prelude.{◌≡◌, ◌++◌, false, codes};
ghost use Rattle.std.specs.List.{list_any};
ghost use Rattle.croner_summary.specs.Private.Appended.{Appends};
ghost use Rattle.croner_summary.specs.Words.{list_text, term_text};
ghost use Rattle.croner_summary.specs.DayWords.{after_numbers_text, between_days, both_text, dated_weekday, days_text, each_term, each_weekday, from_end_text, from_fifth, from_first, from_fourth, from_second, from_third, has_month_parts, has_nth, has_parts, has_range, has_week_parts, having_text, is_all, is_counted, is_dated_weekday, is_first_day, is_late, is_range, is_some, late_text, month_days_text, names_month_day, named_weekdays, names_weekday, near_days, nearest, nearest_text, nth_day, nth_names, nth_on_text, nth_part, nth_weekdays, numbered, numbers_text, of_week_text, on_text, only_text, weekday_names, weekday_part, weekdays_text};

use crate::days::{Days, FromEnd, MonthDays, Weekdays};
use crate::language::{Style, SummaryLanguage, Term, TimeUnit};
use crate::phrase::{Phrase, Piece};
use crate::pieces::{SATURDAY, SUNDAY};
use crate::time_words::{are_ones, is_sole, value_of};
use crate::words::{
    Kind, only_piece, write_list, write_nth, write_ordinal, write_span, write_term, write_text,
    write_unit_name, write_value,
};
use croner_base::errors::CronError;

/// The days of the shortest month.
const SHORTEST_MONTH: u16 = 28;

/// Whether a phrase names something.
#[tactic(auto, unfolding(crate::specs::DayWords::is_some))]
pub(crate) fn is_some(phrase: &Phrase) -> bool
    ensures { result ≡ is_some phrase.now }
{
    0 < phrase.pieces.len()
}

/// Writes what goes before a part of the days.
fn write_on(text: &mut String, language: SummaryLanguage, told: bool) -> Result<(), CronError>
    ensures { Appends (on_text language told) text.old text.new result }
{
    write_term(text, language, if told { Term::AndOn } else { Term::On })
}

/// Whether it is a range.
fn is_range(one: Option<Piece>) -> bool
    ensures { result ≡ is_range one }
{
    match one {
        Some(Piece::Range(_, _)) => true,
        _ => false,
    }
}

/// Whether it is each value.
fn is_all(one: Option<Piece>) -> bool
    ensures { result ≡ is_all one }
{
    match one {
        Some(Piece::Every) => true,
        _ => false,
    }
}

/// Writes weekdays after a term; all seven as days.
#[tactic(auto, unfolding(crate::specs::DayWords::named_weekdays))]
fn write_named(
    text: &mut String,
    style: Style,
    kind: Kind,
    before: Term,
    pieces: &[Piece],
) -> Result<(), CronError>
    ensures { Appends (named_weekdays style kind before pieces.now) text.old text.new result }
{
    if is_all(only_piece(pieces)) {
        write_term(text, style.language, Term::Each)?;
        return write_unit_name(text, style.language, TimeUnit::Day);
    }
    write_term(text, style.language, before)?;
    write_list(text, style, kind, pieces)
}

/// Writes the weekdays of a phrase after a term, if there are any.
#[tactic(auto, unfolding(crate::specs::DayWords::weekday_part))]
fn write_weekday_part(
    text: &mut String,
    style: Style,
    kind: Kind,
    before: Term,
    told: bool,
    phrase: &Phrase,
) -> Result<(), CronError>
    ensures { Appends (weekday_part style kind before told phrase.now) text.old text.new result }
{
    if !is_some(phrase) {
        return Ok(());
    }
    write_on(text, style.language, told)?;
    write_named(text, style, kind, before, &phrase.pieces)
}

/// What goes before weekdays that are meant each time they occur.
fn each_term(one: Option<Piece>) -> Term
    ensures { result ≡ each_term one }
{
    if is_range(one) {
        Term::EachFrom
    } else {
        Term::Each
    }
}

/// Writes what goes before nth weekdays.
fn write_nth_on(
    text: &mut String,
    language: SummaryLanguage,
    told: bool,
    listed: bool,
) -> Result<(), CronError>
    ensures { Appends (nth_on_text language told listed) text.old text.new result }
{
    if listed {
        return write_term(text, language, Term::And);
    }
    write_on(text, language, told)
}

/// Writes weekdays by their names.
#[tactic(auto, unfolding(crate::specs::DayWords::weekday_names))]
fn write_weekday_names(text: &mut String, style: Style, pieces: &[Piece]) -> Result<(), CronError>
    ensures { Appends (weekday_names style pieces.now) text.old text.new result }
{
    if is_all(only_piece(pieces)) {
        return write_span(text, style.language, Kind::Weekday, SUNDAY, SATURDAY);
    }
    write_list(text, style, Kind::Weekday, pieces)
}

/// Writes weekdays of which some are in a row, one by one.
#[tactic(auto, unfolding(crate::specs::DayWords::each_weekday))]
fn write_each_weekday(text: &mut String, style: Style, pieces: &[Piece]) -> Result<(), CronError>
    ensures { Appends (each_weekday style pieces.now) text.old text.new result }
{
    write_term(text, style.language, Term::OfEachWeekday)?;
    write_weekday_names(text, style, pieces)?;
    write_text(text, ",")
}

/// Writes the names of weekdays of which one a month is meant.
#[tactic(auto, unfolding(crate::specs::DayWords::nth_names))]
fn write_nth_names(text: &mut String, style: Style, pieces: &[Piece]) -> Result<(), CronError>
    ensures { Appends (nth_names style pieces.now) text.old text.new result }
{
    if are_ones(pieces) {
        return write_list(text, style, Kind::NthWeekday, pieces);
    }
    write_each_weekday(text, style, pieces)
}

/// Writes nth weekdays of a phrase, if there are any.
#[tactic(auto, unfolding(crate::specs::DayWords::nth_part))]
fn write_nth_part(
    text: &mut String,
    style: Style,
    before: Term,
    told: bool,
    listed: bool,
    phrase: &Phrase,
) -> Result<(), CronError>
    ensures { Appends (nth_part style before told listed phrase.now) text.old text.new result }
{
    if !is_some(phrase) {
        return Ok(());
    }
    write_nth_on(text, style.language, told, listed)?;
    write_term(text, style.language, before)?;
    write_nth_names(text, style, &phrase.pieces)
}

/// Writes the fifth weekdays and the last.
#[tactic(auto, unfolding(crate::specs::DayWords::from_fifth))]
fn write_from_fifth(
    text: &mut String,
    style: Style,
    told: bool,
    listed: bool,
    week: &Weekdays,
) -> Result<(), CronError>
    ensures { Appends (from_fifth style told listed week.now) text.old text.new result }
{
    write_nth_part(text, style, Term::FifthTime, told, listed, &week.fifth)?;
    let listed = listed || is_some(&week.fifth);
    write_nth_part(text, style, Term::LastTime, told, listed, &week.last)
}

/// Writes the fourth weekdays and those that follow: the fifth and the last.
#[tactic(auto, unfolding(crate::specs::DayWords::from_fourth))]
fn write_from_fourth(
    text: &mut String,
    style: Style,
    told: bool,
    listed: bool,
    week: &Weekdays,
) -> Result<(), CronError>
    ensures { Appends (from_fourth style told listed week.now) text.old text.new result }
{
    write_nth_part(text, style, Term::FourthTime, told, listed, &week.fourth)?;
    write_from_fifth(text, style, told, listed || is_some(&week.fourth), week)
}

/// Writes the third weekdays and those that follow.
#[tactic(auto, unfolding(crate::specs::DayWords::from_third))]
fn write_from_third(
    text: &mut String,
    style: Style,
    told: bool,
    listed: bool,
    week: &Weekdays,
) -> Result<(), CronError>
    ensures { Appends (from_third style told listed week.now) text.old text.new result }
{
    write_nth_part(text, style, Term::ThirdTime, told, listed, &week.third)?;
    write_from_fourth(text, style, told, listed || is_some(&week.third), week)
}

/// Writes the second weekdays and those that follow.
#[tactic(auto, unfolding(crate::specs::DayWords::from_second))]
fn write_from_second(
    text: &mut String,
    style: Style,
    told: bool,
    listed: bool,
    week: &Weekdays,
) -> Result<(), CronError>
    ensures { Appends (from_second style told listed week.now) text.old text.new result }
{
    write_nth_part(text, style, Term::SecondTime, told, listed, &week.second)?;
    write_from_third(text, style, told, listed || is_some(&week.second), week)
}

/// Writes the first weekdays and those that follow.
#[tactic(auto, unfolding(crate::specs::DayWords::from_first))]
fn write_from_first(
    text: &mut String,
    style: Style,
    told: bool,
    week: &Weekdays,
) -> Result<(), CronError>
    ensures { Appends (from_first style told week.now) text.old text.new result }
{
    write_nth_part(text, style, Term::FirstTime, told, false, &week.first)?;
    write_from_second(text, style, told, is_some(&week.first), week)
}

/// Whether a weekday is named as the nth or the last of a month.
#[tactic(auto, unfolding(crate::specs::DayWords::has_nth))]
fn has_nth(week: &Weekdays) -> bool
    ensures { result ≡ has_nth week.now }
{
    is_some(&week.first)
        || is_some(&week.second)
        || is_some(&week.third)
        || is_some(&week.fourth)
        || is_some(&week.fifth)
        || is_some(&week.last)
}

/// Writes the nth and the last weekdays of the month, if there are any.
#[tactic(auto, unfolding(crate::specs::DayWords::nth_weekdays))]
fn write_nth_weekdays(
    text: &mut String,
    style: Style,
    told: bool,
    week: &Weekdays,
) -> Result<(), CronError>
    ensures { Appends (nth_weekdays style told week.now) text.old text.new result }
{
    if !has_nth(week) {
        return Ok(());
    }
    write_from_first(text, style, told, week)?;
    write_term(text, style.language, Term::OfTheMonth)
}

/// Writes weekdays.
#[tactic(auto, unfolding(crate::specs::DayWords::weekdays_text))]
fn write_weekdays(
    text: &mut String,
    style: Style,
    told: bool,
    week: &Weekdays,
) -> Result<(), CronError>
    ensures { Appends (weekdays_text style told week.now) text.old text.new result }
{
    let before = each_term(only_piece(&week.each.pieces));
    write_weekday_part(text, style, Kind::Weekday, before, told, &week.each)?;
    write_nth_weekdays(text, style, told || is_some(&week.each), week)
}

/// Writes the weekdays to which other days are limited.
#[tactic(auto, unfolding(crate::specs::DayWords::only_text))]
fn write_only(text: &mut String, style: Style, week: &Weekdays) -> Result<(), CronError>
    ensures { Appends (only_text style week.now) text.old text.new result }
{
    write_term(text, style.language, Term::ButOnly)?;
    write_weekday_part(
        text,
        style,
        Kind::OnlyWeekday,
        Term::OnlyEach,
        false,
        &week.each,
    )?;
    write_nth_weekdays(text, style, is_some(&week.each), week)
}

/// Whether a weekday is named.
#[tactic(auto, unfolding(crate::specs::DayWords::names_weekday))]
pub(crate) fn names_weekday(week: &Weekdays) -> bool
    ensures { result ≡ names_weekday week.now }
{
    is_some(&week.each) || has_nth(week)
}

/// Whether some of the weekdays are a range.
#[tactic(auto, unfolding(crate::specs::DayWords::has_range))]
fn has_range(pieces: &[Piece]) -> bool
    ensures { result ≡ has_range pieces.now }
{
    pieces.iter().any(|piece| is_range(Some(*piece)))
}

/// Writes weekdays, where no days of the month are named.
#[tactic(auto, unfolding(crate::specs::DayWords::of_week_text))]
fn write_of_week(text: &mut String, style: Style, week: &Weekdays) -> Result<(), CronError>
    ensures { Appends (of_week_text style week.now) text.old text.new result }
{
    if has_range(&week.each.pieces) && !has_nth(week) {
        write_text(text, ", ")?;
        return write_list(text, style, Kind::Weekday, &week.each.pieces);
    }
    write_weekdays(text, style, false, week)
}

/// Writes from which day of the month to which.
#[tactic(auto, unfolding(crate::specs::DayWords::between_days))]
fn write_between(
    text: &mut String,
    language: SummaryLanguage,
    first: u16,
    last: u16,
) -> Result<(), CronError>
    ensures { Appends (between_days language first last) text.old text.new result }
{
    write_term(text, language, Term::FromThe)?;
    write_ordinal(text, language, first)?;
    write_term(text, language, Term::ToThe)?;
    write_ordinal(text, language, last)
}

/// Writes a list of days of the month.
fn write_day_list(text: &mut String, style: Style, pieces: &[Piece]) -> Result<(), CronError>
    ensures { Appends (term_text style.language Term.The ++ list_text style Kind.Ordinal pieces.now) text.old text.new result }
{
    write_term(text, style.language, Term::The)?;
    write_list(text, style, Kind::Ordinal, pieces)
}

/// Writes every nth day.
#[tactic(auto, unfolding(crate::specs::DayWords::nth_day))]
fn write_nth_day(text: &mut String, language: SummaryLanguage, n: u16) -> Result<(), CronError>
    ensures { Appends (nth_day language n) text.old text.new result }
{
    write_nth(text, language, false, n)?;
    write_unit_name(text, language, TimeUnit::Day)
}

/// Writes days by number.
#[tactic(auto, unfolding(crate::specs::DayWords::numbered))]
fn write_numbered(
    text: &mut String,
    style: Style,
    pieces: &[Piece],
    one: Option<Piece>,
) -> Result<(), CronError>
    ensures { Appends (numbered style pieces.now one) text.old text.new result }
{
    let language = style.language;
    match one {
        Some(Piece::Every) => {
            write_term(text, language, Term::Each)?;
            write_unit_name(text, language, TimeUnit::Day)
        }
        Some(Piece::EveryNth(n)) => {
            write_nth_day(text, language, n)?;
            write_term(text, language, Term::FromThe)?;
            write_ordinal(text, language, 1)
        }
        Some(Piece::RangeNth(first, last, n)) => {
            write_nth_day(text, language, n)?;
            write_between(text, language, first, last)
        }
        Some(Piece::One(_)) => write_day_list(text, style, pieces),
        Some(Piece::Range(_, _)) => write_day_list(text, style, pieces),
        None => write_day_list(text, style, pieces),
    }
}

/// Writes the days that a phrase names by number, if there are any.
#[tactic(auto, unfolding(crate::specs::DayWords::numbers_text))]
fn write_numbers(text: &mut String, style: Style, phrase: &Phrase) -> Result<(), CronError>
    ensures { Appends (numbers_text style phrase.now) text.old text.new result }
{
    if !is_some(phrase) {
        return Ok(());
    }
    write_term(text, style.language, Term::On)?;
    write_numbered(text, style, &phrase.pieces, only_piece(&phrase.pieces))
}

/// Writes the day from the end.
#[tactic(auto, unfolding(crate::specs::DayWords::from_end_text))]
fn write_from_end(
    text: &mut String,
    language: SummaryLanguage,
    told: bool,
    from_end: FromEnd,
) -> Result<(), CronError>
    ensures { Appends (from_end_text language told from_end) text.old text.new result }
{
    match from_end {
        FromEnd::Neither => Ok(()),
        FromEnd::LastDay => {
            write_on(text, language, told)?;
            write_term(text, language, Term::TheLastDay)
        }
        FromEnd::LastWorkingDay => {
            write_on(text, language, told)?;
            write_term(text, language, Term::TheLastWorkingDay)
        }
    }
}

/// Whether some month lacks a named day. All days, or each nth of them, mean those that a month has.
fn is_late(piece: Piece) -> bool
    ensures { result ≡ is_late piece }
{
    match piece {
        Piece::Every => false,
        Piece::EveryNth(_) => false,
        Piece::One(day) => SHORTEST_MONTH < day,
        Piece::Range(_, last) => SHORTEST_MONTH < last,
        Piece::RangeNth(_, last, _) => SHORTEST_MONTH < last,
    }
}

/// Whether some month lacks one of the days.
fn has_late(pieces: &[Piece]) -> bool
    ensures { result ≡ list_any is_late pieces.now }
{
    pieces.iter().any(|piece| is_late(*piece))
}

/// Writes that only some months have the day.
#[tactic(auto, unfolding(crate::specs::DayWords::having_text))]
fn write_having(
    text: &mut String,
    language: SummaryLanguage,
    one: Option<Piece>,
) -> Result<(), CronError>
    ensures { Appends (having_text language one) text.old text.new result }
{
    match one {
        Some(Piece::One(day)) => {
            write_term(text, language, Term::HavingOne)?;
            write_ordinal(text, language, day)?;
            write_term(text, language, Term::HavingOneEnd)
        }
        _ => write_term(text, language, Term::HavingDays),
    }
}

/// Writes that only some months have the days, if that is so.
#[tactic(auto, unfolding(crate::specs::DayWords::late_text))]
fn write_late(
    text: &mut String,
    language: SummaryLanguage,
    pieces: &[Piece],
) -> Result<(), CronError>
    ensures { Appends (late_text language pieces.now) text.old text.new result }
{
    if !has_late(pieces) {
        return Ok(());
    }
    write_having(text, language, only_piece(pieces))
}

/// Writes the weekdays nearest to days by number.
#[tactic(auto, unfolding(crate::specs::DayWords::near_days))]
fn write_near_days(text: &mut String, style: Style, pieces: &[Piece]) -> Result<(), CronError>
    ensures { Appends (near_days style pieces.now) text.old text.new result }
{
    write_term(text, style.language, Term::Nearest)?;
    write_numbered(text, style, pieces, only_piece(pieces))?;
    write_late(text, style.language, pieces)
}

/// Whether it is the 1st alone.
#[tactic(auto, unfolding(crate::specs::DayWords::is_first_day))]
fn is_first_day(one: Option<Piece>) -> bool
    ensures { result ≡ is_first_day one }
{
    is_sole(one) && value_of(one) == 1
}

/// Writes the weekdays nearest to some days.
#[tactic(auto, unfolding(crate::specs::DayWords::nearest))]
fn write_nearest(text: &mut String, style: Style, pieces: &[Piece]) -> Result<(), CronError>
    ensures { Appends (nearest style pieces.now) text.old text.new result }
{
    if is_first_day(only_piece(pieces)) {
        return write_term(text, style.language, Term::TheFirstWorkingDay);
    }
    write_near_days(text, style, pieces)
}

/// Writes the weekdays nearest to the days of a phrase, if it has any.
#[tactic(auto, unfolding(crate::specs::DayWords::nearest_text))]
fn write_nearest_part(
    text: &mut String,
    style: Style,
    told: bool,
    phrase: &Phrase,
) -> Result<(), CronError>
    ensures { Appends (nearest_text style told phrase.now) text.old text.new result }
{
    if !is_some(phrase) {
        return Ok(());
    }
    write_on(text, style.language, told)?;
    write_nearest(text, style, &phrase.pieces)
}

/// Whether a day is counted from the end.
fn is_counted(from_end: FromEnd) -> bool
    ensures { result ≡ is_counted from_end }
{
    match from_end {
        FromEnd::Neither => false,
        FromEnd::LastDay => true,
        FromEnd::LastWorkingDay => true,
    }
}

/// Writes the days of the month that follow those by number.
#[tactic(auto, unfolding(crate::specs::DayWords::after_numbers_text))]
fn write_after_numbers(
    text: &mut String,
    style: Style,
    told: bool,
    month: &MonthDays,
) -> Result<(), CronError>
    ensures { Appends (after_numbers_text style told month.now) text.old text.new result }
{
    write_from_end(text, style.language, told, month.from_end)?;
    write_nearest_part(
        text,
        style,
        told || is_counted(month.from_end),
        &month.nearest,
    )
}

/// Writes days of the month.
#[tactic(auto, unfolding(crate::specs::DayWords::month_days_text))]
fn write_month_days(text: &mut String, style: Style, month: &MonthDays) -> Result<(), CronError>
    ensures { Appends (month_days_text style month.now) text.old text.new result }
{
    write_numbers(text, style, &month.numbers)?;
    write_after_numbers(text, style, is_some(&month.numbers), month)
}

/// Whether a day of the month is named.
#[tactic(auto, unfolding(crate::specs::DayWords::names_month_day))]
pub(crate) fn names_month_day(month: &MonthDays) -> bool
    ensures { result ≡ names_month_day month.now }
{
    is_some(&month.numbers) || is_counted(month.from_end) || is_some(&month.nearest)
}

/// Whether days of the month are written in two parts or more.
#[tactic(auto, unfolding(crate::specs::DayWords::has_month_parts))]
fn has_month_parts(month: &MonthDays) -> bool
    ensures { result ≡ has_month_parts month.now }
{
    let is_counted = is_counted(month.from_end);
    let is_near = is_some(&month.nearest);
    is_some(&month.numbers) && (is_counted || is_near) || is_counted && is_near
}

/// Whether weekdays are written in two parts.
#[tactic(auto, unfolding(crate::specs::DayWords::has_week_parts))]
fn has_week_parts(week: &Weekdays) -> bool
    ensures { result ≡ has_week_parts week.now }
{
    is_some(&week.each) && has_nth(week)
}

/// Whether days are written in parts with `Term::AndOn` between.
#[tactic(auto, unfolding(crate::specs::DayWords::has_parts))]
pub(crate) fn has_parts(days: &Days) -> bool
    ensures { result ≡ has_parts days.now }
{
    match days {
        Days::Every => false,
        Days::OfMonth(month) => has_month_parts(month),
        Days::OfWeek(week) => has_week_parts(week),
        Days::Either(month, week) => {
            names_month_day(month) && names_weekday(week)
                || has_month_parts(month)
                || has_week_parts(week)
        }
        Days::Both(month, week) => has_month_parts(month) || has_week_parts(week),
    }
}

/// Whether exactly one day of the month and one weekday are named.
#[tactic(auto, unfolding(crate::specs::DayWords::is_dated_weekday))]
fn is_dated_weekday(month: &MonthDays, week: &Weekdays) -> bool
    ensures { result ≡ is_dated_weekday month.now week.now }
{
    is_sole(only_piece(&month.numbers.pieces))
        && !(is_counted(month.from_end) || is_some(&month.nearest))
        && is_sole(only_piece(&week.each.pieces))
        && !has_nth(week)
}

/// Writes a weekday of a date.
#[tactic(auto, unfolding(crate::specs::DayWords::dated_weekday))]
fn write_dated_weekday(
    text: &mut String,
    language: SummaryLanguage,
    weekday: u16,
    day: u16,
) -> Result<(), CronError>
    ensures { Appends (dated_weekday language weekday day) text.old text.new result }
{
    write_term(text, language, Term::On)?;
    write_value(text, language, Kind::Weekday, weekday)?;
    write_term(text, language, Term::DatedThe)?;
    write_ordinal(text, language, day)
}

/// Writes days that are named in both ways.
#[tactic(auto, unfolding(crate::specs::DayWords::both_text))]
fn write_both(
    text: &mut String,
    style: Style,
    month: &MonthDays,
    week: &Weekdays,
) -> Result<(), CronError>
    ensures { Appends (both_text style month.now week.now) text.old text.new result }
{
    if is_dated_weekday(month, week) {
        let weekday = value_of(only_piece(&week.each.pieces));
        let day = value_of(only_piece(&month.numbers.pieces));
        return write_dated_weekday(text, style.language, weekday, day);
    }
    write_month_days(text, style, month)?;
    write_only(text, style, week)
}

/// Writes days that are named in one of the two ways.
fn write_either(
    text: &mut String,
    style: Style,
    month: &MonthDays,
    week: &Weekdays,
) -> Result<(), CronError>
    ensures { Appends (month_days_text style month.now ++ weekdays_text style (names_month_day month.now) week.now) text.old text.new result }
{
    write_month_days(text, style, month)?;
    write_weekdays(text, style, names_month_day(month), week)
}

/// Writes days.
#[tactic(auto, unfolding(crate::specs::DayWords::days_text))]
pub(crate) fn write_days(text: &mut String, style: Style, days: &Days) -> Result<(), CronError>
    ensures { Appends (days_text style days.now) text.old text.new result }
{
    match days {
        Days::Every => Ok(()),
        Days::OfMonth(month) => write_month_days(text, style, month),
        Days::OfWeek(week) => write_of_week(text, style, week),
        Days::Either(month, week) => write_either(text, style, month, week),
        Days::Both(month, week) => write_both(text, style, month, week),
    }
}
