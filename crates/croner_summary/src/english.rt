//! English.

ghost use Rattle.std.specs.Prelude.{◌≡◌};
ghost use Rattle.croner_summary.specs.English.{english_every, english_month, english_nth, english_ordinal_end, english_term, english_unit, english_units, english_weekday};
ghost use Rattle.croner_summary.specs.Private.Appended.{Appends};

use crate::language::{Term, TimeUnit};
use croner_base::errors::CronError;

/// A term.
pub(crate) fn english_term(term: Term) -> &'static str
    ensures { result.now ≡ english_term term }
{
    match term {
        Term::To => " to ",
        Term::And => " and ",
        Term::More => " more",
        Term::EachOne => "each",
        Term::FromValue => "from ",
        Term::Each => "each ",
        Term::EachFrom => "each day from ",
        Term::Plural => "s",
        Term::From => " from ",
        Term::AtTime => "At ",
        Term::At => "At ",
        Term::AndAt => ", and at ",
        Term::Of => " of ",
        Term::FromTime => " from ",
        Term::FromMinute => " from minute ",
        Term::AtSecond => ", at second ",
        Term::On => " on ",
        Term::AndOn => " and on ",
        Term::The => "the ",
        Term::FromThe => " from the ",
        Term::ToThe => " to the ",
        Term::DatedThe => " the ",
        Term::ButOnly => ", but only",
        Term::OnlyEach => "",
        Term::OnlyEnd => "s",
        Term::NthEnd => "",
        Term::FirstTime => "the first ",
        Term::SecondTime => "the second ",
        Term::ThirdTime => "the third ",
        Term::FourthTime => "the fourth ",
        Term::FifthTime => "the fifth ",
        Term::LastTime => "the last ",
        Term::OfEachWeekday => "of each weekday, ",
        Term::OfTheMonth => " of the month",
        Term::TheLastDay => "the last day of the month",
        Term::TheLastWorkingDay => "the last weekday (Monday to Friday) of the month",
        Term::TheFirstWorkingDay => "the first weekday (Monday to Friday) of the month",
        Term::Nearest => "the weekday (Monday to Friday) nearest ",
        Term::HavingOne => " (in months that have a ",
        Term::HavingOneEnd => ")",
        Term::HavingDays => " (in months that have the day)",
        Term::InMonths => " in ",
        Term::AndInMonths => " and in ",
        Term::InNthYears => ", in ",
        Term::InYears => ", in ",
        Term::AndInYears => " and in ",
        Term::NoSecond => "Never: no second is named",
        Term::NoMinute => "Never: no minute is named",
        Term::NoHour => "Never: no hour is named",
        Term::NoMonth => "Never: no month is named",
        Term::NoYear => "Never: no year is named",
        Term::NoMonthDay => "Never: no day of the month is named",
        Term::NoWeekday => "Never: no weekday is named",
        Term::NoDay => "Never: no day is named",
    }
}

/// The name of a unit.
pub(crate) fn english_unit(unit: TimeUnit) -> &'static str
    ensures { result.now ≡ english_unit unit }
{
    match unit {
        TimeUnit::Second => "second",
        TimeUnit::Minute => "minute",
        TimeUnit::Hour => "hour",
        TimeUnit::Day => "day",
        TimeUnit::Month => "month",
        TimeUnit::Year => "year",
    }
}

/// The end of an ordinal.
pub(crate) fn english_ordinal_end(n: u16) -> &'static str
    ensures { result.now ≡ english_ordinal_end n }
{
    if n / 10 % 10 == 1 {
        return "th";
    }
    match n % 10 {
        1 => "st",
        2 => "nd",
        3 => "rd",
        _ => "th",
    }
}

/// The name of a weekday.
pub(crate) fn english_weekday(weekday: u16) -> &'static str
    ensures { result.now ≡ english_weekday weekday }
{
    match weekday {
        0 => "Sunday",
        1 => "Monday",
        2 => "Tuesday",
        3 => "Wednesday",
        4 => "Thursday",
        5 => "Friday",
        _ => "Saturday",
    }
}

/// The name of a month.
pub(crate) fn english_month(month: u16) -> &'static str
    ensures { result.now ≡ english_month month }
{
    match month {
        1 => "January",
        2 => "February",
        3 => "March",
        4 => "April",
        5 => "May",
        6 => "June",
        7 => "July",
        8 => "August",
        9 => "September",
        10 => "October",
        11 => "November",
        _ => "December",
    }
}

/// Writes so many units.
#[tactic(auto, unfolding(crate::specs::English::english_units))]
fn write_english_units(text: &mut String, n: u16, unit: TimeUnit) -> Result<(), CronError>
    ensures { Appends (english_units n unit) text.old text.new result }
{
    let name = english_unit(unit);
    if n == 1 {
        return Ok(text.push_str(name)?);
    }
    Ok(write!(text, "{n} {name}s")?)
}

/// Writes every so many units.
#[tactic(auto, unfolding(crate::specs::English::english_every))]
pub(crate) fn write_english_every(
    text: &mut String,
    n: u16,
    unit: TimeUnit,
) -> Result<(), CronError>
    ensures { Appends (english_every n unit) text.old text.new result }
{
    text.push_str("Every ")?;
    write_english_units(text, n, unit)
}

/// Writes every nth, before what it is.
#[tactic(auto, unfolding(crate::specs::English::english_nth))]
pub(crate) fn write_english_nth(text: &mut String, n: u16) -> Result<(), CronError>
    ensures { Appends (english_nth n) text.old text.new result }
{
    let end = english_ordinal_end(n);
    Ok(write!(text, "every {n}{end} ")?)
}
