//! The clock of a second zone beside that of a plan.
ghost use Rattle.std.specs.Prelude.{◌≡◌, List, IfOk, option_copied, string_bytes};
ghost use Rattle.croncheck_planner.specs.declared.planner.Planned.{Planned};
ghost use Rattle.croncheck_planner.specs.PlanAnswers.{IsViewOf, jobs_planned, jobs_told};
ghost use Rattle.croncheck_planner.specs.PlanFiles.{IsOtherClockIn, IsOtherTable};

use crate::plan::Found;
use crate::plan::answers::{followed_in, view_of};
use crate::planner::ClockNames;
use croncheck_reading::progress::Terms;
use croncheck_report::shared::Shared;
use croner::errors::CronError;
use croner::time::table::ClockTable;
use cronplan::Span;
use cronplan_forms::{Job, OtherClock, View};
use std::alloc::Global;

/// The clock of the second zone in a span, if one is shown and its clock is calm there.
///
/// The only error is `OutOfMemory`.
pub(crate) fn other_table(
    alloc: Global,
    shared: &Shared<'_>,
    span: Span,
) -> Result<Option<ClockTable>, CronError>
    ensures { IfOk result (IsOtherTable shared.now.other_zone span) }
{
    match &shared.other_zone {
        Some(zone) => followed_in(alloc, zone, span),
        None => Ok(None),
    }
}

/// What was found of these jobs, with the names of the zones, and beside it the clock of the second
/// one, if that is shown.
pub(crate) fn view_beside<'v>(
    terms: &Terms<'v, 'v>,
    names: &'v ClockNames,
    found: &'v Found,
    table: &'v Option<ClockTable>,
    jobs: &'v [Job<'v>],
) -> View<'v>
    ensures zone { result.zone.now ≡ string_bytes names.now.zone }
    ensures jobs { result.jobs.now ≡ jobs.now }
    ensures view { (planned : List Planned) → jobs_told jobs.now ≡ jobs_planned planned → IsViewOf terms.now.settings.now planned found.now result }
    ensures other { IsOtherTable terms.now.shared.now.other_zone found.now.plan.span table.now
        → IsOtherClockIn terms.now.shared.now.other_zone (string_bytes names.now.other) found.now.plan.span result.other }
{
    View {
        other: other_clock(terms.shared, names.other.as_str(), table.as_ref()),
        ..view_of(terms, names.zone.as_str(), found, jobs)
    }
}

fn other_clock<'c>(
    shared: &Shared<'_>,
    zone: &'c str,
    table: Option<&'c ClockTable>,
) -> Option<OtherClock<'c>>
    ensures { (span : Span) → IsOtherTable shared.now.other_zone span (option_copied table.entry)
        → IsOtherClockIn shared.now.other_zone zone.now span result }
{
    match shared.other_zone {
        Some(_) => Some(OtherClock { zone, table }),
        None => None,
    }
}
