//! The changes of a clock below a picture.
ghost use Rattle.std.specs.Prelude.{◌≡◌, ◌++◌, IfOk, OnOk, map, string_bytes};
ghost use Rattle.std.specs.List.{All};
ghost use Rattle.cronplan_forms.specs.Weeks.{kind_text, IsShownChange, IsNamedWall, expected_wall, is_put_forward, starts_then, end_of_change, change_line, change_text, change_lines, dropped_at, dropped_line, dropped_lines, forward_text, back_text};

use crate::answers::{Starts, push_job_name};
use crate::clock::{TimeOfDay, second_of_day};
use crate::date_name::{DateName, date_of_wall};
use crate::job::Job;
use crate::view::{Dropped, View};
use cronplan::{ClockChange, Plan, Unit};
use std::alloc::{AllocError, Global};
use std::fmt;

/// A date and time that a clock shows, or would show: `Sun 28 Mar 02:00`.
#[derive(Clone, Copy)]
pub struct NamedWall {
    /// As seconds from 1970-01-01T00:00:00.
    pub wall: i64,
    pub date: DateName,
}

impl NamedWall {
    // That of a wall second.
    fn of(wall: i64) -> NamedWall
        ensures { IsNamedWall wall result }
    {
        NamedWall {
            wall,
            date: DateName::of(date_of_wall(wall)),
        }
    }
}

impl fmt::Display for NamedWall {
    ghost use Rattle.std.specs.Prelude.{Some};
    ghost use Rattle.cronplan_forms.specs.Weeks.{wall_text};

    ghost output = { λ w. Some (wall_text w) };

    fn fmt<W: fmt::Write>(&self, f: &mut fmt::Formatter<W>) -> fmt::Result {
        let date = self.date;
        let time = TimeOfDay {
            second: second_of_day(self.wall),
        };
        write!(f, "{date} {time}")
    }
}

/// A change of the clock, and what lies around it.
#[derive(Clone, Copy)]
pub struct ShownChange {
    pub change: ClockChange,
    /// What would follow what the clock showed last.
    pub expected: NamedWall,
    /// What it shows at the change.
    pub shown: NamedWall,
    /// How many starts there are at the change.
    pub starts: u64,
}

/// The changes of a clock in a plan, with the dates around them. The only error is lack of memory.
pub(crate) fn shown_changes(
    alloc: Global,
    plan: &Plan,
    changes: &[ClockChange],
) -> Result<Vec<ShownChange>, AllocError>
    ensures changes { IfOk result (λ shown. map (λ s. s.change) shown.items ≡ changes.now) }
    ensures shown { IfOk result (λ shown. All (IsShownChange plan.now.starts.items) shown.items) }
{
    let counts = plan.counts(alloc, Unit::Second)?;
    let mut shown = Vec::new(alloc);
    for change in changes {
        let starts = counts.get(&change.second).copied().unwrap_or(0);
        shown.push(shown_change(*change, starts))?;
    }
    Ok(shown)
}

fn shown_change(change: ClockChange, starts: u64) -> ShownChange
    ensures change { result.change ≡ change }
    ensures starts { result.starts ≡ starts }
    ensures expected { IsNamedWall (expected_wall result.change) result.expected }
    ensures shown { IsNamedWall result.change.shown result.shown }
{
    ShownChange {
        change,
        expected: NamedWall::of(expected_wall(change)),
        shown: NamedWall::of(change.shown),
        starts,
    }
}

// The wall second that would follow what the clock showed last.
fn expected_wall(change: ClockChange) -> i64
    ensures { result ≡ expected_wall change }
{
    change.before.saturating_add(1)
}

/// Appends a line for each of these to a text, and below it one for each job that lacks a start there. The only error is lack of memory; the
/// text's end is then unspecified.
#[tactic(auto, using(crate::proofs::WeekParts::changes_step), unfolding(crate::specs::Weeks::change_lines))]
pub(crate) fn push_changes(
    text: &mut String,
    view: View<'_>,
    changes: &[ShownChange],
) -> Result<(), AllocError>
    ensures { OnOk result (string_bytes text.new ≡ string_bytes text.old ++ change_lines view.entry changes.now) }
{
    for change in changes {
        push_lines(text, view, *change)?;
    }
    Ok(())
}

#[tactic(auto, unfolding(crate::specs::Weeks::change_text))]
fn push_lines(text: &mut String, view: View<'_>, change: ShownChange) -> Result<(), AllocError>
    ensures { OnOk result (string_bytes text.new ≡ string_bytes text.old ++ change_text view.entry change) }
{
    push_change(text, change)?;
    push_dropped(text, view.jobs, change.change, view.dropped)
}

#[tactic(auto, unfolding(crate::specs::Weeks::change_line))]
fn push_change(text: &mut String, change: ShownChange) -> Result<(), AllocError>
    ensures { OnOk result (string_bytes text.new ≡ string_bytes text.old ++ change_line change) }
{
    push_kind(text, change)?;
    push_end(text, change)
}

// The end of a change's line: how many starts there are then, where the clock is put forward.
fn push_end(text: &mut String, change: ShownChange) -> Result<(), AllocError>
    ensures { OnOk result (string_bytes text.new ≡ string_bytes text.old ++ end_of_change change) }
{
    if is_put_forward(change.change) {
        push_starts_then(text, change.starts)
    } else {
        text.push_str("\n")
    }
}

#[tactic(auto, unfolding(crate::specs::Weeks::starts_then))]
fn push_starts_then(text: &mut String, count: u64) -> Result<(), AllocError>
    ensures { OnOk result (string_bytes text.new ≡ string_bytes text.old ++ starts_then count) }
{
    let starts = Starts { count };
    write!(text, "; {starts} then\n")
}

fn push_kind(text: &mut String, change: ShownChange) -> Result<(), AllocError>
    ensures { OnOk result (string_bytes text.new ≡ string_bytes text.old ++ kind_text change) }
{
    let (expected, shown) = (change.expected, change.shown);
    if is_put_forward(change.change) {
        push_forward(text, expected, shown)
    } else {
        push_back(text, expected, shown)
    }
}

fn is_put_forward(change: ClockChange) -> bool
    ensures { result ≡ is_put_forward change }
{
    change.before < change.shown
}

#[tactic(auto, unfolding(crate::specs::Weeks::forward_text))]
fn push_forward(text: &mut String, expected: NamedWall, shown: NamedWall) -> Result<(), AllocError>
    ensures { OnOk result (string_bytes text.new ≡ string_bytes text.old ++ forward_text expected shown) }
{
    write!(text, "the clock skips {expected} to {shown}")
}

#[tactic(auto, unfolding(crate::specs::Weeks::back_text))]
fn push_back(text: &mut String, expected: NamedWall, shown: NamedWall) -> Result<(), AllocError>
    ensures { OnOk result (string_bytes text.new ≡ string_bytes text.old ++ back_text expected shown) }
{
    write!(text, "the clock shows {shown} to {expected} twice")
}

#[tactic(auto, using(crate::proofs::WeekParts::dropped_step), unfolding(crate::specs::Weeks::dropped_lines))]
fn push_dropped(
    text: &mut String,
    jobs: &[Job<'_>],
    change: ClockChange,
    dropped: &[Dropped],
) -> Result<(), AllocError>
    ensures { OnOk result (string_bytes text.new ≡ string_bytes text.old ++ dropped_lines jobs.now change dropped.now) }
{
    for job in dropped {
        push_dropped_at(text, jobs, change, *job)?;
    }
    Ok(())
}

// Appends a job to a text, if it lacks a start at this change.
fn push_dropped_at(
    text: &mut String,
    jobs: &[Job<'_>],
    change: ClockChange,
    dropped: Dropped,
) -> Result<(), AllocError>
    ensures { OnOk result (string_bytes text.new ≡ string_bytes text.old ++ dropped_at jobs.now change dropped) }
{
    if dropped.second != change.second {
        return Ok(());
    }
    push_job(text, jobs, dropped.job)
}

// Appends a line to a text for the job at a place.
#[tactic(auto, unfolding(crate::specs::Weeks::dropped_line))]
fn push_job(text: &mut String, jobs: &[Job<'_>], place: usize) -> Result<(), AllocError>
    ensures { OnOk result (string_bytes text.new ≡ string_bytes text.old ++ dropped_line jobs.now place) }
{
    text.push_str("  not made up for: ")?;
    push_job_name(text, jobs, place)?;
    text.push_str("\n")
}
