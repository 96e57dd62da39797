//! The runs before the start, as they are shown.

use super::runs::{push_clocks, push_starts};
use crate::ago::Ago;
use croncheck_report::shared::Shared;
use croncheck_runs::runs::{End, Run, Runs};
use std::alloc::AllocError;

// The runs up to the start, the latest first, where they are asked for, below a line that says so; and what is left before them.
pub(super) fn push_previous(
    text: &mut String,
    shared: &Shared<'_>,
    previous: &Option<Runs<'_>>,
) -> Result<(), AllocError> {
    let Some(runs) = previous else {
        return Ok(());
    };
    text.push_str("\n  Up to the start, the latest first:")?;
    for run in runs.items.iter() {
        push_run(text, shared, run)?;
    }
    push_rest(text, shared, &runs.end)
}

// A run; how long ago it was, where that is told; how many times the job was started then, and what it made up for.
fn push_run(text: &mut String, shared: &Shared<'_>, run: &Run<'_>) -> Result<(), AllocError> {
    push_clocks(text, shared, run)?;
    push_ago(text, shared, run.time.second())?;
    push_starts(text, run)
}

// Puts after a text how long ago a second was, if that is to be told.
fn push_ago(text: &mut String, shared: &Shared<'_>, second: i64) -> Result<(), AllocError> {
    match shared.off_from {
        Some(from) if second <= from => {
            let ago = Ago {
                language: shared.language,
                seconds: second.abs_diff(from),
            };
            write!(text, "  {ago}")
        }
        _ => Ok(()),
    }
}

// What is left before the runs of a listing.
fn push_rest(text: &mut String, shared: &Shared<'_>, end: &End) -> Result<(), AllocError> {
    match end {
        End::Over => text.push_str("\n  no more: no run is left after year 1"),
        End::Window => match shared.followed_from {
            Some(from) => write!(
                text,
                "\n  and maybe more: the zone's clock is followed back to @{from}"
            ),
            None => Ok(()),
        },
        End::Failed(refusal) => write!(text, "\n  and more, which were not found: {refusal}"),
        End::More | End::Cut => Ok(()),
    }
}
