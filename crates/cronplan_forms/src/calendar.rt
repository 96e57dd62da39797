//! The starts of jobs as a calendar (RFC 5545).
ghost use Rattle.std.specs.Prelude.{◌≡◌, ◌++◌, codes, take, IfOk, OnOk, string_bytes};
ghost use Rattle.cronplan_forms.specs.Calendars.{property_line, text_line, most_events, cut_text, file_text, description_text, calendar_begin, calendar_names, calendar_head, events_text, calendar_text};

mod event;
mod moment;
mod of_plan;
mod uid;

use crate::content_line::push_content_line;
use crate::escapes::{Form, escape};
use croner_base::time::CivilDateTime;
pub use event::Event;
use event::push_event;
pub use of_plan::{Naming, plan_calendar};
use std::alloc::{AllocError, Global};

/// The most events of a calendar.
pub const MOST_EVENTS: usize = 2_000;

/// What a calendar says besides its events.
#[derive(Clone, Copy)]
pub struct Calendar<'c> {
    pub name: &'c str,
    /// What it leaves out, in words.
    pub left_out: &'c str,
    /// Whether cron ignores the whole file of one of its jobs.
    pub has_ignored: bool,
    /// When it is made, in UTC, in the years 0 to 9999.
    pub stamp: CivilDateTime,
    /// How long each event lasts, in seconds, if that is said.
    pub lasts: Option<u64>,
    /// How many starts the plan has.
    pub starts: usize,
}

/// The file of a calendar: its first events, at most `MOST_EVENTS`. If the plan has more starts, the description says how many.
///
/// Each line ends with a carriage return and a line feed, and is folded. No text of a job can end its property early. The only error is
/// lack of memory.
pub fn calendar_text(
    alloc: Global,
    calendar: Calendar<'_>,
    events: &[Event<'_>],
) -> Result<String, AllocError>
    ensures { IfOk result (λ t. string_bytes t ≡ calendar_text calendar.entry events.now) }
{
    let mut text = String::new(alloc);
    push_calendar(alloc, &mut text, calendar, events)?;
    Ok(text)
}

// Appends the file of a calendar to a text.
#[tactic(auto, unfolding(crate::specs::Calendars::calendar_text))]
fn push_calendar(
    alloc: Global,
    text: &mut String,
    calendar: Calendar<'_>,
    events: &[Event<'_>],
) -> Result<(), AllocError>
    ensures { OnOk result (string_bytes text.new ≡ string_bytes text.old ++ calendar_text calendar.entry events.now) }
{
    push_head(alloc, text, calendar)?;
    push_events(alloc, text, calendar, first_events(events))?;
    push_property(alloc, text, "END", "VCALENDAR")
}

// Appends some events to a text.
#[tactic(auto, using(crate::proofs::Events::events_step), unfolding(crate::specs::Calendars::events_text))]
fn push_events(
    alloc: Global,
    text: &mut String,
    calendar: Calendar<'_>,
    events: &[Event<'_>],
) -> Result<(), AllocError>
    ensures { OnOk result (string_bytes text.new ≡ string_bytes text.old ++ events_text calendar.entry events.now) }
{
    for event in events {
        push_event(alloc, text, calendar, *event)?;
    }
    Ok(())
}

// The first of some events, as many as a calendar has.
fn first_events<'s, 'e>(events: &'s [Event<'e>]) -> &'s [Event<'e>]
    ensures { result.now ≡ take most_events events.now }
{
    if events.len() > MOST_EVENTS {
        return events.split_at(MOST_EVENTS).0;
    }
    events
}

#[tactic(auto, unfolding(crate::specs::Calendars::calendar_head))]
fn push_head(alloc: Global, text: &mut String, calendar: Calendar<'_>) -> Result<(), AllocError>
    ensures { OnOk result (string_bytes text.new ≡ string_bytes text.old ++ calendar_head calendar.entry) }
{
    push_begin(alloc, text)?;
    push_names(alloc, text, calendar.name)?;
    push_left_out(alloc, text, calendar)
}

fn push_left_out(alloc: Global, text: &mut String, calendar: Calendar<'_>) -> Result<(), AllocError>
    ensures { OnOk result (string_bytes text.new ≡ string_bytes text.old ++ text_line (codes "DESCRIPTION") (description_text calendar.entry)) }
{
    let left_out = description_text(alloc, calendar)?;
    push_text(alloc, text, "DESCRIPTION", left_out.as_str())
}

#[tactic(auto, unfolding(crate::specs::Calendars::calendar_begin))]
fn push_begin(alloc: Global, text: &mut String) -> Result<(), AllocError>
    ensures { OnOk result (string_bytes text.new ≡ string_bytes text.old ++ calendar_begin) }
{
    push_property(alloc, text, "BEGIN", "VCALENDAR")?;
    push_property(alloc, text, "VERSION", "2.0")?;
    push_property(alloc, text, "PRODID", "-//croncheck//plan//EN")
}

#[tactic(auto, unfolding(crate::specs::Calendars::calendar_names))]
fn push_names(alloc: Global, text: &mut String, name: &str) -> Result<(), AllocError>
    ensures { OnOk result (string_bytes text.new ≡ string_bytes text.old ++ calendar_names name.now) }
{
    push_text(alloc, text, "NAME", name)?;
    push_text(alloc, text, "X-WR-CALNAME", name)
}

// What a calendar leaves out, and that cron ignores the files of some of its jobs, if it does.
#[tactic(auto, unfolding(crate::specs::Calendars::description_text))]
fn description_text(alloc: Global, calendar: Calendar<'_>) -> Result<String, AllocError>
    ensures { IfOk result (λ t. string_bytes t ≡ description_text calendar.entry) }
{
    let mut text = String::from_str(alloc, calendar.left_out)?;
    push_ignored(&mut text, calendar.has_ignored)?;
    push_cut(&mut text, calendar.starts)?;
    Ok(text)
}

// What is said if cron ignores the whole file of some job.
fn push_ignored(text: &mut String, has_ignored: bool) -> Result<(), AllocError>
    ensures { OnOk result (string_bytes text.new ≡ string_bytes text.old ++ file_text has_ignored) }
{
    if !has_ignored {
        return Ok(());
    }
    text.push_str(
        "cron ignores the files of some of these jobs, and starts none of those: their events say so\n",
    )
}

// What is said if a calendar doesn't have all of so many starts.
fn push_cut(text: &mut String, count: usize) -> Result<(), AllocError>
    ensures { OnOk result (string_bytes text.new ≡ string_bytes text.old ++ cut_text count) }
{
    if count <= MOST_EVENTS {
        return Ok(());
    }
    write!(text, " These are the first 2000 of {count} starts.")
}

// Appends a property of type TEXT to a text.
#[tactic(auto, unfolding(crate::specs::Calendars::text_line))]
fn push_text(alloc: Global, out: &mut String, name: &str, text: &str) -> Result<(), AllocError>
    ensures { OnOk result (string_bytes out.new ≡ string_bytes out.old ++ text_line name.now text.now) }
{
    let value = escape(alloc, text, Form::Text)?;
    push_property(alloc, out, name, value.as_str())
}

// Appends a property, with its value as it is, to a text.
#[tactic(auto, unfolding(crate::specs::Calendars::property_line))]
fn push_property(alloc: Global, out: &mut String, name: &str, value: &str) -> Result<(), AllocError>
    ensures { OnOk result (string_bytes out.new ≡ string_bytes out.old ++ property_line name.now value.now) }
{
    let line = format!(in alloc; "{name}:{value}")?;
    push_content_line(out, line.as_str())
}
