//! The long windows of a plan in which nothing starts.
ghost use Rattle.std.specs.Prelude.{◌≡◌, IfOk, List, map};
ghost use Rattle.serde_json.specs.Data.{array};
ghost use Rattle.serde_json.specs.View.{view as data_of, items_of};
ghost use Rattle.cronplan_json.specs.Objects.{window_object};
ghost use Rattle.cronplan_json.specs.PlanJson.{AreQuietOf};

use crate::instants::put_instant;
use crate::members::{put_count, put_flag};
use cronplan_forms::{TimedWindow, View, is_at_edge, timed_windows};
use serde_json::{Map, Value};
use std::alloc::{AllocError, Global};

/// The seconds of the shortest window that is told.
pub const QUIET_SECONDS: u64 = 3_600;

/// An object for each window of a plan in which nothing starts for at least `QUIET_SECONDS`, the longest first. The only error is lack
/// of memory.
pub(crate) fn quiet_value(alloc: Global, view: View<'_>) -> Result<Value, AllocError>
    ensures { IfOk result (λ v. (timed : List TimedWindow) × AreQuietOf view.entry timed × (data_of v ≡ array (items_of (map window_object timed)))) }
{
    let windows = view.plan.quiet_windows(alloc, QUIET_SECONDS)?;
    let timed = timed_windows(alloc, view, windows.as_slice())?;
    let items = window_items(alloc, timed.as_slice())?;
    Ok(Value::Array(items))
}

fn window_items(alloc: Global, windows: &[TimedWindow]) -> Result<Vec<Value>, AllocError>
    ensures { IfOk result (λ items. map data_of items.items ≡ map window_object windows.now) }
{
    let mut items = Vec::new(alloc);
    for window in windows {
        items.push(window_object(alloc, window)?)?;
    }
    Ok(items)
}

fn window_object(alloc: Global, window: &TimedWindow) -> Result<Value, AllocError>
    ensures { IfOk result (λ v. data_of v ≡ window_object window.now) }
{
    let mut members = Map::new(alloc);
    put_instant(alloc, &mut members, "from", &window.from)?;
    put_flag(alloc, &mut members, "open", is_at_edge(&window.window))?;
    put_count(alloc, &mut members, "seconds", window.window.seconds())?;
    put_instant(alloc, &mut members, "to", &window.until)?;
    Ok(Value::Object(members))
}
