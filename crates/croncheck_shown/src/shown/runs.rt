//! The lines that tell when a job runs.
ghost use Rattle.std.specs.Prelude.{◌≡◌, ◌++◌, ℕ, List, OnOk, string_bytes};
ghost use Rattle.croncheck_shown.specs.Shown.{IsOtherClockText};

use super::often::push_often;
use super::other_clock::push_clock_of;
use super::previous::push_previous;
use super::{push_clock_in, window_end};
use crate::off::Off;
use croncheck_changes::changes::told::push_minute;
use croncheck_report::report::JobReport;
use croncheck_report::shared::Shared;
use croncheck_report::told::Told;
use croncheck_runs::runs::{End, Listing, MOST_RUNS, Run, Runs};
use std::alloc::{AllocError, Global};

// Puts after a text the lines that tell when a job runs. That it never runs is said by its warning.
pub(crate) fn push_told(
    alloc: Global,
    text: &mut String,
    shared: &Shared<'_>,
    job: &JobReport<'_, '_>,
) -> Result<(), AllocError> {
    match &job.times {
        Told::Reboot => text.push_str("\n  Runs as the machine starts."),
        Told::Nothing => Ok(()),
        Told::Runs {
            description,
            runs,
            previous,
            often,
            ..
        } => {
            text.push_str("\n  ")?;
            text.push_str(description.as_str())?;
            for run in runs.items.iter() {
                push_run(text, shared, run)?;
            }
            if !job.times.is_never() {
                push_end(alloc, text, shared, runs)?;
                push_often(text, shared, often)?;
            }
            push_previous(text, shared, previous)
        }
    }
}

// A run; the same on the clock of another zone, and how far off it is, where these are told; how many times the job is started then, where
// that is more than once; and what it makes up for.
fn push_run(text: &mut String, shared: &Shared<'_>, run: &Run<'_>) -> Result<(), AllocError> {
    push_clocks(text, shared, run)?;
    push_off(text, shared, run.time.second())?;
    push_starts(text, run)
}

// A run on a line of its own, and the same on the clock of another zone, where that is told.
pub(crate) fn push_clocks(
    text: &mut String,
    shared: &Shared<'_>,
    run: &Run<'_>,
) -> Result<(), AllocError> {
    text.push_str("\n  ")?;
    push_clock_in(shared.language, text, shared, &run.time)?;
    push_other_clock(text, shared, run.time.second())
}

// How many times a job is started at a run, where that is more than once, and what it makes up for, if it does.
pub(crate) fn push_starts(text: &mut String, run: &Run<'_>) -> Result<(), AllocError> {
    if 1 < run.count {
        let count = run.count;
        write!(text, "  {count} times")?;
    }
    push_made_up(text, run)
}

/// Appends to a text what another zone's clock shows at a second, if such a zone is to be shown and has the second: those of the years
/// -9998 to 9998 at least. The weekday is in the language of the reports. The only error is lack of memory.
pub fn push_other_clock(
    text: &mut String,
    shared: &Shared<'_>,
    second: i64,
) -> Result<(), AllocError>
    ensures { OnOk result ((said : List ℕ) × IsOtherClockText shared.now.language shared.now.other_zone second said
        × (string_bytes text.new ≡ string_bytes text.old ++ said)) }
{
    match &shared.other_zone {
        Some(zone) => push_clock_of(text, shared.language, zone, second),
        None => Ok(()),
    }
}

// Puts after a text how far off a second is, if that is to be told.
fn push_off(text: &mut String, shared: &Shared<'_>, second: i64) -> Result<(), AllocError> {
    match shared.off_from {
        Some(from) if from <= second => {
            let off = Off {
                language: shared.language,
                seconds: second.abs_diff(from),
            };
            write!(text, "  {off}")
        }
        _ => Ok(()),
    }
}

// What a start of a crontab's job makes up for, if it does.
fn push_made_up(text: &mut String, run: &Run<'_>) -> Result<(), AllocError> {
    let Some(second) = run.made_up else {
        return Ok(());
    };
    text.push_str(if 1 < run.count {
        ", first for "
    } else {
        "  for "
    })?;
    push_minute(text, second)?;
    text.push_str(", which the clock skips")
}

// What stands after the runs of a job that has some, or may have some.
fn push_end(
    alloc: Global,
    text: &mut String,
    shared: &Shared<'_>,
    runs: &Runs<'_>,
) -> Result<(), AllocError> {
    match &runs.end {
        End::Over => text.push_str("\n  no more: no run is left before year 5000"),
        End::Cut => write!(text, "\n  and more: a list ends after {MOST_RUNS} runs"),
        End::Window => {
            let said = window_end(alloc, shared)?;
            write!(text, "\n  {said}")
        }
        End::Failed(refusal) => write!(text, "\n  and more, which were not found: {refusal}"),
        End::More => match shared.listing {
            Listing::Until(_) if runs.items.is_empty() => text.push_str("\n  no run up to then"),
            _ => Ok(()),
        },
    }
}
