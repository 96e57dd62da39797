//! The page of a plan.
ghost use Rattle.std.specs.Prelude.{◌≡◌, IfOk, string_bytes, take};
ghost use Rattle.croner_base.specs.TableZone.{table_zone};
ghost use Rattle.cronplan.specs.Days.{AreDays};
ghost use Rattle.cronplan_page.specs.PlanPages.{most_quiet, AreLongest, AreFullestOf, IsPageText};
ghost use Rattle.cronplan_page.specs.Timed.{AreTimedStarts, AreTimedChanges};

use crate::about::About;
use crate::page::{Page, page_text};
use crate::timed::{TimedChange, TimedStart, timed_changes, timed_starts};
use cronplan::{Days, Window};
use cronplan_forms::{
    ShownTime, TimedMoment, TimedWindow, View, named_days, timed_moments, timed_windows,
};
use std::alloc::{AllocError, Global};

/// The most windows that are shown: the longest ones.
const MOST_QUIET: usize = 5;

/// The most moments that are shown: the fullest ones.
const MOST_FULLEST: usize = 5;

// What a page shows of a plan.
#[derive(Drop)]
struct Told {
    quiet: Vec<TimedWindow>,
    fullest: Vec<TimedMoment>,
    starts: Vec<TimedStart>,
    days: Days,
    changes: Vec<TimedChange>,
}

/// The page of a plan: HTML in UTF-8, without a script, which loads nothing.
///
/// It shows the longest windows in which nothing starts, the fullest moments, and how many starts each hour of each date has. It also shows
/// the changes of the clock, the starts of each job and each date, and what `about` says of each job. If a second zone is shown, what its
/// clock shows stands after each time. No text of a job can end its element early. The only error is lack of memory.
///
/// Making the page takes time that grows with the number of starts times the number of jobs and dates.
pub fn page_of(alloc: Global, view: View<'_>, about: About<'_>) -> Result<String, AllocError>
    ensures { IfOk result (λ t. IsPageText view.entry about.entry (string_bytes t)) }
{
    let told = told_of(alloc, view)?;
    let days = named_days(alloc, told.days.days.as_slice())?;
    let page = Page {
        view,
        about,
        first: ShownTime::at(view, view.plan.span.first),
        end: ShownTime::at(view, view.plan.span.end),
        quiet: told.quiet.as_slice(),
        fullest: told.fullest.as_slice(),
        starts: told.starts.as_slice(),
        days: days.as_slice(),
        changes: told.changes.as_slice(),
    };
    let text = page_text(alloc, page)?;
    Ok(text)
}

// What a page shows of the plan of a view.
fn told_of(alloc: Global, view: View<'_>) -> Result<Told, AllocError>
    ensures quiet { IfOk result (λ told. AreLongest view.entry told.quiet.items) }
    ensures fullest { IfOk result (λ told. AreFullestOf view.entry told.fullest.items) }
    ensures starts { IfOk result (λ told. AreTimedStarts view.entry view.entry.plan.now.starts.items told.starts.items) }
    ensures days { IfOk result (λ told. AreDays (table_zone view.entry.table.now) view.entry.table.now.changes.items view.entry.plan.now.span
        view.entry.plan.now.starts.items told.days.days.items told.days.changes.items) }
    ensures changes { IfOk result (λ told. AreTimedChanges (table_zone view.entry.table.now) told.days.changes.items told.changes.items) }
{
    let quiet = longest_windows(alloc, view)?;
    let fullest = fullest_of(alloc, view)?;
    let starts = timed_starts(alloc, view, view.plan.starts.as_slice())?;
    let days = view.plan.days(alloc, view.table)?;
    let changes = timed_changes(alloc, view.table, days.changes.as_slice())?;
    Ok(Told {
        quiet,
        fullest,
        starts,
        days,
        changes,
    })
}

// The longest windows of a plan, as many as are shown.
fn longest_windows(alloc: Global, view: View<'_>) -> Result<Vec<TimedWindow>, AllocError>
    ensures { IfOk result (λ quiet. AreLongest view.entry quiet.items) }
{
    let windows = view.plan.quiet_windows(alloc, 1)?;
    let quiet = timed_windows(alloc, view, first_windows(windows.as_slice()))?;
    Ok(quiet)
}

// The first of these windows, as many as are shown.
fn first_windows(windows: &[Window]) -> &[Window]
    ensures { result.now ≡ take most_quiet windows.now }
{
    if windows.len() > MOST_QUIET {
        return windows.split_at(MOST_QUIET).0;
    }
    windows
}

// The fullest moments of a plan, as many as are shown.
fn fullest_of(alloc: Global, view: View<'_>) -> Result<Vec<TimedMoment>, AllocError>
    ensures { IfOk result (λ fullest. AreFullestOf view.entry fullest.items) }
{
    let moments = view.plan.fullest_moments(alloc, MOST_FULLEST)?;
    let fullest = timed_moments(alloc, view, moments.as_slice())?;
    Ok(fullest)
}
