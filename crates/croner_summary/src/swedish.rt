//! Swedish.

ghost use Rattle.std.specs.Prelude.{◌≡◌};
ghost use Rattle.croner_summary.specs.Swedish.{is_year_unit, swedish_every, swedish_month, swedish_nth, swedish_number, swedish_ordinal_end, swedish_step, swedish_term, swedish_unit, swedish_weekday};
ghost use Rattle.croner_summary.specs.Private.Appended.{Appends};

use crate::language::{Term, TimeUnit};
use croner_base::errors::CronError;

/// A term.
pub(crate) fn swedish_term(term: Term) -> &'static str
    ensures { result.now ≡ swedish_term term }
{
    match term {
        Term::To => " till ",
        Term::And => " och ",
        Term::More => " till",
        Term::EachOne => "varje",
        Term::FromValue => "från ",
        Term::Each => "varje ",
        Term::EachFrom => "varje dag från ",
        Term::Plural => "",
        Term::From => " från ",
        Term::AtTime => "Kl. ",
        Term::At => "Vid ",
        Term::AndAt => ", och vid ",
        Term::Of => " i ",
        Term::FromTime => " från kl. ",
        Term::FromMinute => " från minut ",
        Term::AtSecond => ", vid sekund ",
        Term::On => " ",
        Term::AndOn => " och ",
        Term::The => "den ",
        Term::FromThe => " från den ",
        Term::ToThe => " till den ",
        Term::DatedThe => " den ",
        Term::ButOnly => ", men bara",
        Term::OnlyEach => "på ",
        Term::OnlyEnd => "ar",
        Term::NthEnd => "en",
        Term::FirstTime => "den första ",
        Term::SecondTime => "den andra ",
        Term::ThirdTime => "den tredje ",
        Term::FourthTime => "den fjärde ",
        Term::FifthTime => "den femte ",
        Term::LastTime => "den sista ",
        Term::OfEachWeekday => "av varje veckodag, ",
        Term::OfTheMonth => " i månaden",
        Term::TheLastDay => "den sista dagen i månaden",
        Term::TheLastWorkingDay => "den sista vardagen (måndag till fredag) i månaden",
        Term::TheFirstWorkingDay => "den första vardagen (måndag till fredag) i månaden",
        Term::Nearest => "vardagen (måndag till fredag) närmast ",
        Term::HavingOne => " (i månader som har en ",
        Term::HavingOneEnd => " dag)",
        Term::HavingDays => " (i månader som har dagen)",
        Term::InMonths => " i ",
        Term::AndInMonths => " och i ",
        Term::InNthYears => ", ",
        Term::InYears => ", år ",
        Term::AndInYears => " och år ",
        Term::NoSecond => "Aldrig: ingen sekund är angiven",
        Term::NoMinute => "Aldrig: ingen minut är angiven",
        Term::NoHour => "Aldrig: ingen timme är angiven",
        Term::NoMonth => "Aldrig: ingen månad är angiven",
        Term::NoYear => "Aldrig: inget år är angivet",
        Term::NoMonthDay => "Aldrig: ingen dag i månaden är angiven",
        Term::NoWeekday => "Aldrig: ingen veckodag är angiven",
        Term::NoDay => "Aldrig: ingen dag är angiven",
    }
}

/// The name of a unit.
pub(crate) fn swedish_unit(unit: TimeUnit) -> &'static str
    ensures { result.now ≡ swedish_unit unit }
{
    match unit {
        TimeUnit::Second => "sekund",
        TimeUnit::Minute => "minut",
        TimeUnit::Hour => "timme",
        TimeUnit::Day => "dag",
        TimeUnit::Month => "månad",
        TimeUnit::Year => "år",
    }
}

/// The end of an ordinal.
pub(crate) fn swedish_ordinal_end(n: u16) -> &'static str
    ensures { result.now ≡ swedish_ordinal_end n }
{
    if n / 10 % 10 == 1 {
        return ":e";
    }
    if n % 10 == 1 || n % 10 == 2 {
        return ":a";
    }
    ":e"
}

/// The name of a weekday.
pub(crate) fn swedish_weekday(weekday: u16) -> &'static str
    ensures { result.now ≡ swedish_weekday weekday }
{
    match weekday {
        0 => "söndag",
        1 => "måndag",
        2 => "tisdag",
        3 => "onsdag",
        4 => "torsdag",
        5 => "fredag",
        _ => "lördag",
    }
}

/// The name of a month.
pub(crate) fn swedish_month(month: u16) -> &'static str
    ensures { result.now ≡ swedish_month month }
{
    match month {
        1 => "januari",
        2 => "februari",
        3 => "mars",
        4 => "april",
        5 => "maj",
        6 => "juni",
        7 => "juli",
        8 => "augusti",
        9 => "september",
        10 => "oktober",
        11 => "november",
        _ => "december",
    }
}

/// What a step begins with.
fn swedish_step(is_head: bool, is_year: bool, n: u16) -> &'static str
    ensures { result.now ≡ swedish_step is_head is_year n }
{
    match n {
        1 if is_head => "Varje ",
        1 => "varje ",
        2 if is_year => "vartannat ",
        2 if is_head => "Varannan ",
        2 => "varannan ",
        _ if is_year => "vart ",
        _ if is_head => "Var ",
        _ => "var ",
    }
}

/// Writes the number of a step, from 3 on.
#[tactic(auto, unfolding(crate::specs::Swedish::swedish_number))]
fn write_swedish_number(text: &mut String, n: u16) -> Result<(), CronError>
    ensures { Appends (swedish_number n) text.old text.new result }
{
    if n == 1 || n == 2 {
        return Ok(());
    }
    let end = swedish_ordinal_end(n);
    Ok(write!(text, "{n}{end} ")?)
}

/// Writes every nth, before what it is.
#[tactic(auto, unfolding(crate::specs::Swedish::swedish_nth))]
pub(crate) fn write_swedish_nth(
    text: &mut String,
    is_head: bool,
    is_year: bool,
    n: u16,
) -> Result<(), CronError>
    ensures { Appends (swedish_nth is_head is_year n) text.old text.new result }
{
    text.push_str(swedish_step(is_head, is_year, n))?;
    write_swedish_number(text, n)
}

/// Whether it is the unit of years, which has the other gender.
fn is_year_unit(unit: TimeUnit) -> bool
    ensures { result ≡ is_year_unit unit }
{
    match unit {
        TimeUnit::Year => true,
        _ => false,
    }
}

/// Writes every so many units.
#[tactic(auto, unfolding(crate::specs::Swedish::swedish_every))]
pub(crate) fn write_swedish_every(
    text: &mut String,
    n: u16,
    unit: TimeUnit,
) -> Result<(), CronError>
    ensures { Appends (swedish_every n unit) text.old text.new result }
{
    write_swedish_nth(text, true, is_year_unit(unit), n)?;
    Ok(text.push_str(swedish_unit(unit))?)
}
