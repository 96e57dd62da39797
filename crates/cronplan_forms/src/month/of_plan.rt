//! The months of a plan.
ghost use Rattle.std.specs.Prelude.{◌≡◌, ◌++◌, ◌||◌, IfOk, List, OnOk, string_bytes};
ghost use Rattle.cronplan.specs.Days.{dates_between};
ghost use Rattle.cronplan_forms.specs.declared.date_name.DateName.{DateName};
ghost use Rattle.cronplan_forms.specs.declared.month.Daily.{Daily};
ghost use Rattle.cronplan_forms.specs.declared.month.Month.{Month};
ghost use Rattle.cronplan_forms.specs.Apart.{set_apart};
ghost use Rattle.cronplan_forms.specs.DateNames.{IsDateName};
ghost use Rattle.cronplan_forms.specs.Months.{has_marks, mark_text, month_text, months_text};
ghost use Rattle.cronplan_forms.specs.PlanMonths.{AreMonthDays, ArePlanMonths, IsMonthDay, days_of, first_of, month_of};
ghost use Rattle.cronplan_forms.specs.Private.DatedTitles.{AreByDate};
ghost use Rattle.cronplan_forms.specs.Private.Grids.{AddsMonth, HasMonths};

use super::number::MonthNumber;
use super::titles::{daily_of, titles_by_date, titles_of, titles_on};
use super::{Month, MonthDay, Titled, month_text, push_daily};
use crate::apart::push_apart;
use crate::date_name::DateName;
use crate::view::View;
use cronplan::DateRange;
use std::alloc::{AllocError, Global};

// Titles in order of their dates, and the dates of the plan that has them.
#[derive(Clone, Copy)]
struct Told<'m> {
    dates: DateRange,
    titles: &'m [Titled<'m>],
    ghost order: { AreByDate titles.now },
}

// Grids, and whether a day of them isn't in the plan.
#[derive(Drop)]
struct Grids {
    text: String,
    is_marked: bool,
}

/// The months of a plan, a grid for each that has a date of it on the view's clock, with an empty line between two.
///
/// A date has the titles of the jobs that start on it, each job once, in the order of their first starts there: the first three, and how
/// many more there are. A job that starts on every date that lies wholly in the plan, if there are two such dates or more, stands once
/// below the last grid, with its times in words; such jobs stand in the order of their first starts. A day of a month that isn't a date of
/// the plan has a mark, which a line below the grids explains. A start whose job the view doesn't have is left out.
///
/// The only error is lack of memory.
pub fn months_text(alloc: Global, view: View<'_>) -> Result<String, AllocError>
    ensures { IfOk result (λ t. (months : List Month) × (daily : List Daily) × ArePlanMonths view.entry months daily × (string_bytes t ≡ months_text months daily)) }
{
    let jobs = view.plan.job_dates(alloc, view.table)?;
    let titles = titles_of(alloc, view.jobs, jobs.rarer.as_slice())?;
    let titles = titles_by_date(titles)?;
    let daily = daily_of(alloc, view.jobs, jobs.daily.as_slice())?;
    let told = Told {
        dates: jobs.dates,
        titles: titles.as_slice(),
    };
    let grids = grids_of(alloc, told)?;
    let mut text = grids.text;
    push_mark(&mut text, grids.is_marked)?;
    push_daily(&mut text, daily.as_slice())?;
    Ok(text)
}

// Puts after a text what the mark of a day means, where it stands.
fn push_mark(text: &mut String, is_marked: bool) -> Result<(), AllocError>
    ensures { OnOk result (string_bytes text.new ≡ string_bytes text.old ++ mark_text is_marked) }
{
    if is_marked {
        return text.push_str("-: not in the plan\n");
    }
    Ok(())
}

// The grids of the months of a plan.
fn grids_of(alloc: Global, told: Told<'_>) -> Result<Grids, AllocError>
    ensures { IfOk result (λ grids. (first : DateName) × (last : DateName) × IsDateName told.entry.dates.first first × IsDateName told.entry.dates.last last × HasMonths told.entry.dates told.entry.titles.now (month_of first.civil) (dates_between (month_of first.civil) (month_of last.civil)) grids) }
{
    let first = DateName::of(told.dates.first);
    let last = DateName::of(told.dates.last);
    let grids = grids_between(alloc, told, MonthNumber::of(first), MonthNumber::of(last))?;
    Ok(grids)
}

// The grids from one month to another.
fn grids_between(
    alloc: Global,
    told: Told<'_>,
    first: MonthNumber,
    last: MonthNumber,
) -> Result<Grids, AllocError>
    ensures { IfOk result (HasMonths told.entry.dates told.entry.titles.now first.number (dates_between first.number last.number)) }
{
    let mut grids = Grids {
        text: String::new(alloc),
        is_marked: false,
    };
    for place in 0..first.months_until(last) {
        push_grid(alloc, &mut grids, told, first.months_later(place))?;
    }
    Ok(grids)
}

// Puts the grid of a month below the others.
fn push_grid(
    alloc: Global,
    grids: &mut Grids,
    told: Told<'_>,
    month: MonthNumber,
) -> Result<(), AllocError>
    ensures { OnOk result (AddsMonth told.entry.dates told.entry.titles.now month.number grids.old grids.new) }
{
    let name = format!(in alloc; "{month}")?;
    let days = days_of(alloc, told, month)?;
    let shown = Month {
        name: name.as_str(),
        first_weekday: month.first_weekday(),
        days: days.as_slice(),
    };
    add_grid(alloc, grids, shown)?;
    Ok(())
}

// Puts a grid below the others.
fn add_grid(alloc: Global, grids: &mut Grids, month: Month<'_>) -> Result<(), AllocError>
    ensures text { OnOk result (string_bytes grids.new.text ≡ set_apart (string_bytes grids.old.text) (month_text month.entry)) }
    ensures mark { OnOk result (grids.new.is_marked ≡ (grids.old.is_marked || has_marks month.entry)) }
{
    let grid = month_text(alloc, month)?;
    let is_marked = has_marks(month);
    grids.is_marked = grids.is_marked || is_marked;
    push_apart(&mut grids.text, grid.as_str())
}

// Whether a day of a month isn't in the plan.
fn has_marks(month: Month<'_>) -> bool
    ensures { result ≡ has_marks month.entry }
{
    month.days.iter().any(|day| !day.is_in_plan)
}

// The days of a month.
fn days_of<'m>(
    alloc: Global,
    told: Told<'m>,
    month: MonthNumber,
) -> Result<Vec<MonthDay<'m>>, AllocError>
    ensures { IfOk result (λ days. AreMonthDays told.entry.dates told.entry.titles.now (first_of month.number) (days_of month.number) days.items) }
{
    let first = month.first_date();
    let mut days = Vec::new(alloc);
    for place in 0..month.days() {
        days.push(day_on(told, first + i64::from(place)))?;
    }
    Ok(days)
}

// A day.
fn day_on(told: Told<'_>, date: i64) -> MonthDay<'_>
    ensures { IsMonthDay told.entry.dates told.entry.titles.now date result }
{
    MonthDay {
        titles: titles_on(told.titles, date),
        is_in_plan: told.dates.has(date),
    }
}
