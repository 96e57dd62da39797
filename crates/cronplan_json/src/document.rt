//! The whole object.
ghost use Rattle.std.specs.Prelude.{◌≡◌, IfOk, OnOk, codes, string_bytes};
ghost use Rattle.serde_json.specs.View.{members_view, view as data_of};
ghost use Rattle.cronplan_json.specs.Objects.{with_optional};
ghost use Rattle.cronplan_json.specs.PlanJson.{other_zone, view_members, IsPlanData, IsPlanJson};

use crate::days::{days_value, hours_value};
use crate::instants::put_instant;
use crate::jobs::jobs_value;
use crate::members::{put_count, put_flag, put_text};
use crate::moments::moments_value;
use crate::quiet::quiet_value;
use crate::texts::texts_value;
use cronplan_forms::{OtherClock, ShownTime, View};
use serde_json::{Map, Value, put};
use std::alloc::{AllocError, Global};

/// The version of the form of this object.
pub const VERSION: u32 = 1;

/// A plan as one object of JSON, without blanks or a line feed: its span, its jobs but for their commands, its moments with the jobs that start
/// then, the windows of at least an hour in which nothing starts, its dates hour by hour, and its starts by the hour of the day.
///
/// A moment names its jobs by their places among the jobs. Of a job that starts too often to be shown, only the count of its starts is
/// told; of one whose whole file cron ignores, that it does. `read_first` are the lines that are to be read first, as they are. If a second
/// zone is shown, each second also has what that zone's clock shows then, or null if that clock isn't followed. The only error is lack of
/// memory.
pub fn plan_json(alloc: Global, view: View<'_>, read_first: &[&str]) -> Result<String, AllocError>
    ensures { IfOk result (λ t. IsPlanJson view.entry read_first.now (string_bytes t)) }
{
    let object = plan_object(alloc, view, read_first)?;
    let text = object.to_string(alloc)?;
    Ok(text)
}

fn plan_object(alloc: Global, view: View<'_>, read_first: &[&str]) -> Result<Value, AllocError>
    ensures { IfOk result (λ v. IsPlanData view.entry read_first.now (data_of v)) }
{
    let (plan, table) = (view.plan, view.table);
    let first = ShownTime::at(view, plan.span.first);
    let end = ShownTime::at(view, plan.span.end);
    let mut members = own_members(alloc, view, read_first, &first, &end)?;
    let days = days_value(alloc, plan, table)?;
    put(&mut members, alloc, "days", days)?;
    let hours = hours_value(alloc, plan)?;
    put(&mut members, alloc, "hours", hours)?;
    let moments = moments_value(alloc, view)?;
    put(&mut members, alloc, "moments", moments)?;
    let quiet = quiet_value(alloc, view)?;
    put(&mut members, alloc, "quiet", quiet)?;
    put_zone(alloc, &mut members, view.other)?;
    Ok(Value::Object(members))
}

// The members of a view but for its lists, given the lines that are to be read first and the seconds at which its span begins and ends.
fn own_members(
    alloc: Global,
    view: View<'_>,
    read_first: &[&str],
    first: &ShownTime,
    end: &ShownTime,
) -> Result<Map<String, Value>, AllocError>
    ensures { IfOk result (λ members. members_view members.entries ≡ view_members view.entry read_first.now first.now end.now) }
{
    let mut members = Map::new(alloc);
    put_flag(alloc, &mut members, "cut", view.is_cut)?;
    put_instant(alloc, &mut members, "from", first)?;
    let jobs = jobs_value(alloc, view)?;
    put(&mut members, alloc, "jobs", jobs)?;
    put_text(alloc, &mut members, "kind", "plan")?;
    let lines = texts_value(alloc, read_first)?;
    put(&mut members, alloc, "read_first", lines)?;
    put_instant(alloc, &mut members, "to", end)?;
    put_count(alloc, &mut members, "version", u64::from(VERSION))?;
    put_text(alloc, &mut members, "zone", view.zone)?;
    Ok(members)
}

// Puts what the second zone is called among members, if one is shown.
fn put_zone(
    alloc: Global,
    members: &mut Map<String, Value>,
    other: Option<OtherClock<'_>>,
) -> Result<(), AllocError>
    ensures { OnOk result (members_view members.new.entries ≡ with_optional (codes "shown_zone") (other_zone other.entry) (members_view members.old.entries)) }
{
    match other {
        Some(other) => put_text(alloc, members, "shown_zone", other.zone),
        None => Ok(()),
    }
}
