//! What is told of a job at changes of the clock.

use croncheck_changes::changes::Meeting;
use croncheck_changes::changes::meetings::Met;
use croncheck_report::report::JobReport;
use std::alloc::AllocError;

// What cron makes of a crontab's job at the next changes that meet it, the nearer one first. A change that is warned of is left to its
// warning.
pub(crate) fn push_next_changes(
    text: &mut String,
    job: &JobReport<'_, '_>,
) -> Result<(), AllocError> {
    if job.command.is_none() {
        return Ok(());
    }
    let gap = meeting_without_warning(&job.meetings.gap);
    let repeated = meeting_without_warning(&job.meetings.repeated);
    match (gap, repeated) {
        (Some(gap), Some(repeated)) if repeated.change.instant < gap.change.instant => {
            push_two_changes(text, repeated, gap)
        }
        (Some(gap), Some(repeated)) => push_two_changes(text, gap, repeated),
        (Some(meeting), None) | (None, Some(meeting)) => push_one_change(text, meeting),
        (None, None) => Ok(()),
    }
}

fn meeting_without_warning(met: &Option<Met>) -> Option<Meeting> {
    match met {
        Some(met) if !met.is_warned() => Some(met.meeting),
        _ => None,
    }
}

fn push_one_change(text: &mut String, meeting: Meeting) -> Result<(), AllocError> {
    text.push_str("\n  at the next change: ")?;
    meeting.push_short(text)
}

fn push_two_changes(text: &mut String, first: Meeting, second: Meeting) -> Result<(), AllocError> {
    text.push_str("\n  at the next changes: ")?;
    first.push_short(text)?;
    text.push_str("; ")?;
    second.push_short(text)
}
