//! The events of a calendar.
ghost use Rattle.std.specs.Prelude.{◌≡◌, ◌++◌, codes, IfOk, OnOk, string_bytes};
ghost use Rattle.cronplan_forms.specs.Calendars.{property_line, text_line, moment_text, uid_text, times_text, summary_text, ignored_text, words_text, duration_line, event_begin, event_times, event_words, event_end, event_text};

use super::moment::moment_text;
use super::uid::uid_text;
use super::{Calendar, push_property, push_text};
use crate::job::Job;
use croner_base::time::CivilDateTime;
use cronplan::JobStart;
use std::alloc::{AllocError, Global};

/// A start of a job.
#[derive(Clone, Copy)]
pub struct Event<'e> {
    pub job: Job<'e>,
    pub start: JobStart,
    /// Its second as a date and a time in UTC, in the years 0 to 9999.
    pub utc: CivilDateTime,
}

/// Appends an event to the text of a calendar. The only error is lack of memory; the text's end is then unspecified.
#[tactic(auto, unfolding(crate::specs::Calendars::event_text))]
pub(crate) fn push_event(
    alloc: Global,
    text: &mut String,
    calendar: Calendar<'_>,
    event: Event<'_>,
) -> Result<(), AllocError>
    ensures { OnOk result (string_bytes text.new ≡ string_bytes text.old ++ event_text calendar.entry event.entry) }
{
    push_begin(alloc, text, event)?;
    push_times(alloc, text, calendar, event.utc)?;
    push_words(alloc, text, event)?;
    push_end(alloc, text)
}

#[tactic(auto, unfolding(crate::specs::Calendars::event_begin))]
fn push_begin(alloc: Global, text: &mut String, event: Event<'_>) -> Result<(), AllocError>
    ensures { OnOk result (string_bytes text.new ≡ string_bytes text.old ++ event_begin event.entry) }
{
    push_property(alloc, text, "BEGIN", "VEVENT")?;
    push_uid(alloc, text, event.job, event.start)
}

fn push_uid(
    alloc: Global,
    text: &mut String,
    job: Job<'_>,
    start: JobStart,
) -> Result<(), AllocError>
    ensures { OnOk result (string_bytes text.new ≡ string_bytes text.old ++ property_line (codes "UID") (uid_text job.entry start.second)) }
{
    let uid = uid_text(alloc, job, start.second)?;
    push_property(alloc, text, "UID", uid.as_str())
}

#[tactic(auto, unfolding(crate::specs::Calendars::event_times))]
fn push_times(
    alloc: Global,
    text: &mut String,
    calendar: Calendar<'_>,
    utc: CivilDateTime,
) -> Result<(), AllocError>
    ensures { OnOk result (string_bytes text.new ≡ string_bytes text.old ++ event_times calendar.entry utc) }
{
    push_moment(alloc, text, "DTSTAMP", calendar.stamp)?;
    push_moment(alloc, text, "DTSTART", utc)?;
    push_duration(alloc, text, calendar.lasts)
}

fn push_moment(
    alloc: Global,
    text: &mut String,
    name: &str,
    civil: CivilDateTime,
) -> Result<(), AllocError>
    ensures { OnOk result (string_bytes text.new ≡ string_bytes text.old ++ property_line name.now (moment_text civil)) }
{
    let moment = moment_text(alloc, civil)?;
    push_property(alloc, text, name, moment.as_str())
}

fn push_duration(alloc: Global, text: &mut String, seconds: Option<u64>) -> Result<(), AllocError>
    ensures { OnOk result (string_bytes text.new ≡ string_bytes text.old ++ duration_line seconds) }
{
    match seconds {
        Some(seconds) => {
            let duration = format!(in alloc; "PT{seconds}S")?;
            push_property(alloc, text, "DURATION", duration.as_str())
        }
        None => Ok(()),
    }
}

// What is told of an event.
#[tactic(auto, unfolding(crate::specs::Calendars::event_words))]
fn push_words(alloc: Global, text: &mut String, event: Event<'_>) -> Result<(), AllocError>
    ensures { OnOk result (string_bytes text.new ≡ string_bytes text.old ++ event_words event.entry) }
{
    push_summary(alloc, text, event)?;
    push_description(alloc, text, event.job)
}

fn push_summary(alloc: Global, text: &mut String, event: Event<'_>) -> Result<(), AllocError>
    ensures { OnOk result (string_bytes text.new ≡ string_bytes text.old ++ text_line (codes "SUMMARY") (summary_text event.entry)) }
{
    let summary = summary_text(alloc, event)?;
    push_text(alloc, text, "SUMMARY", summary.as_str())
}

fn push_description(alloc: Global, text: &mut String, job: Job<'_>) -> Result<(), AllocError>
    ensures { OnOk result (string_bytes text.new ≡ string_bytes text.old ++ text_line (codes "DESCRIPTION") (words_text job.entry)) }
{
    let words = words_text(alloc, job)?;
    push_text(alloc, text, "DESCRIPTION", words.as_str())
}

#[tactic(auto, unfolding(crate::specs::Calendars::event_end))]
fn push_end(alloc: Global, text: &mut String) -> Result<(), AllocError>
    ensures { OnOk result (string_bytes text.new ≡ string_bytes text.old ++ event_end) }
{
    push_property(alloc, text, "TRANSP", "TRANSPARENT")?;
    push_property(alloc, text, "END", "VEVENT")
}

// The title of a job, and how often it is started, unless once.
#[tactic(auto, unfolding(crate::specs::Calendars::summary_text))]
fn summary_text(alloc: Global, event: Event<'_>) -> Result<String, AllocError>
    ensures { IfOk result (λ t. string_bytes t ≡ summary_text event.entry) }
{
    let mut text = String::from_str(alloc, event.job.title)?;
    push_count(&mut text, event.start.count)?;
    Ok(text)
}

// How often a job is started at one second, unless once.
fn push_count(text: &mut String, count: u32) -> Result<(), AllocError>
    ensures { OnOk result (string_bytes text.new ≡ string_bytes text.old ++ times_text count) }
{
    if count == 1 {
        return Ok(());
    }
    write!(text, " ({count} times)")
}

// The words for a job's times, in the next line its file and line, and in a third one that cron ignores that file, if it does.
#[tactic(auto, unfolding(crate::specs::Calendars::words_text))]
fn words_text(alloc: Global, job: Job<'_>) -> Result<String, AllocError>
    ensures { IfOk result (λ t. string_bytes t ≡ words_text job.entry) }
{
    let (words, file, line) = (job.words, job.file, job.line);
    let mut text = format!(in alloc; "{words}\n{file}:{line}")?;
    push_ignored(&mut text, job.is_ignored)?;
    Ok(text)
}

// What is said if cron ignores the whole file of a job.
fn push_ignored(text: &mut String, is_ignored: bool) -> Result<(), AllocError>
    ensures { OnOk result (string_bytes text.new ≡ string_bytes text.old ++ ignored_text is_ignored) }
{
    if !is_ignored {
        return Ok(());
    }
    text.push_str("\nCron ignores this file, and doesn't start the job until the file is mended.")
}
