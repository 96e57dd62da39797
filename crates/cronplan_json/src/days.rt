//! The dates of a plan, hour by hour, and its starts by the hour of the day.
ghost use Rattle.std.specs.Prelude.{◌≡◌, IfOk, List, ℕ, map};
ghost use Rattle.serde_json.specs.Data.{array};
ghost use Rattle.serde_json.specs.View.{view, items_of};
ghost use Rattle.cronplan_forms.specs.Answers.{AreHourCounts};
ghost use Rattle.cronplan_json.specs.Objects.{counts, date_data, hour_data, day_object};
ghost use Rattle.cronplan_json.specs.PlanJson.{AreShownDays};

use crate::members::put_count;
use crate::numbers::numbers_value;
use croner_base::time::CivilDateTime;
use croner_base::time::table::ClockTable;
use cronplan::{HourCell, Plan};
use cronplan_forms::{WeekDay, hour_counts, named_days};
use serde_json::{Map, Value, put};
use std::alloc::{AllocError, Global};

/// An object for each date of a plan. The only error is lack of memory.
pub(crate) fn days_value(
    alloc: Global,
    plan: &Plan,
    table: &ClockTable,
) -> Result<Value, AllocError>
    ensures { IfOk result (λ v. (shown : List WeekDay) × AreShownDays table.now plan.now shown × (view v ≡ array (items_of (map day_object shown)))) }
{
    let days = plan.days(alloc, table)?;
    let named = named_days(alloc, days.days.as_slice())?;
    let items = day_items(alloc, named.as_slice())?;
    Ok(Value::Array(items))
}

fn day_items(alloc: Global, days: &[WeekDay<'_>]) -> Result<Vec<Value>, AllocError>
    ensures { IfOk result (λ items. map view items.items ≡ map day_object days.now) }
{
    let mut items = Vec::new(alloc);
    for day in days {
        items.push(day_object(alloc, *day)?)?;
    }
    Ok(items)
}

fn day_object(alloc: Global, day: WeekDay<'_>) -> Result<Value, AllocError>
    ensures { IfOk result (λ v. view v ≡ day_object day.entry) }
{
    let mut members = Map::new(alloc);
    let date = date_value(alloc, day.name.civil)?;
    put(&mut members, alloc, "date", date)?;
    let hours = cells_value(alloc, day.day.hours.as_slice())?;
    put(&mut members, alloc, "hours", hours)?;
    put_count(alloc, &mut members, "starts", day.day.starts)?;
    Ok(Value::Object(members))
}

// The text of a date; null for one that the calendar doesn't have.
fn date_value(alloc: Global, begin: Option<CivilDateTime>) -> Result<Value, AllocError>
    ensures { IfOk result (λ v. view v ≡ date_data begin) }
{
    match begin {
        Some(begin) => {
            let date = begin.date();
            Ok(Value::String(format!(in alloc; "{date}")?))
        }
        None => Ok(Value::Null),
    }
}

// How many starts there are in each of these hours; null for one that the clock skips.
fn cells_value(alloc: Global, cells: &[HourCell]) -> Result<Value, AllocError>
    ensures { IfOk result (λ v. view v ≡ array (items_of (map hour_data cells.now))) }
{
    let items = cell_items(alloc, cells)?;
    Ok(Value::Array(items))
}

fn cell_items(alloc: Global, cells: &[HourCell]) -> Result<Vec<Value>, AllocError>
    ensures { IfOk result (λ items. map view items.items ≡ map hour_data cells.now) }
{
    let mut items = Vec::new(alloc);
    for cell in cells {
        items.push(hour_value(*cell))?;
    }
    Ok(items)
}

fn hour_value(cell: HourCell) -> Value
    ensures { view result ≡ hour_data cell }
{
    if cell.skipped || cell.outside {
        Value::Null
    } else {
        Value::from(cell.starts)
    }
}

/// How many starts of a plan come in each hour of the day, on all its dates together. The only error is lack of memory.
pub(crate) fn hours_value(alloc: Global, plan: &Plan) -> Result<Value, AllocError>
    ensures { IfOk result (λ v. (hours : List ℕ) × AreHourCounts plan.now.starts.items hours × (view v ≡ counts hours)) }
{
    let hours = hour_counts(alloc, plan)?;
    numbers_value(alloc, hours.as_slice())
}
