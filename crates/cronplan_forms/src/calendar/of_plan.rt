//! The calendar of a plan.
ghost use Rattle.std.specs.Prelude.{◌≡◌, ◌≤◌, IfOk, IfSome, List, [], length, map, pos, slice_get, string_bytes, take, true};
ghost use Rattle.std.specs.List.{All, count_by, list_any};
ghost use Rattle.croner_base.specs.Table.{is_table_second};
ghost use Rattle.croner_base.specs.Civil.{wall_second};
ghost use Rattle.cronplan_forms.specs.Answers.{left_out_text as what_is_left_out};
ghost use Rattle.cronplan_forms.specs.PlanCalendars.{IsEventOf, IsUtcTable, IsPlanCalendar, equal_before, is_ignored, is_same_job};
ghost use Rattle.cronplan_forms.specs.Calendars.{calendar_text, most_events};

use super::event::Event;
use super::{Calendar, MOST_EVENTS, calendar_text};
use crate::answers::left_out_text;
use crate::clock::ClockTime;
use crate::job::Job;
use crate::view::View;
use croner_base::time::CivilDateTime;
use croner_base::time::table::ClockTable;
use cronplan::JobStart;
use std::alloc::{AllocError, Global};

/// The name of a plan's calendar, and what its events have in common.
#[derive(Clone, Copy)]
pub struct Naming<'n> {
    pub name: &'n str,
    /// When it is made, in UTC, in the years 0 to 9999.
    pub stamp: CivilDateTime,
    /// How long each event lasts, in seconds, if that is said.
    pub lasts: Option<u64>,
}

/// The file of a plan's calendar: an event for each of its first starts, at most `MOST_EVENTS`. Its description says what it leaves
/// out, and both it and an event say so of a job whose file cron ignores. Each of several equal jobs has its own events.
///
/// The only error is lack of memory.
pub fn plan_calendar(
    alloc: Global,
    view: View<'_>,
    naming: Naming<'_>,
) -> Result<String, AllocError>
    ensures { IfOk result (λ t. (calendar : Calendar) × (events : List Event) × IsPlanCalendar view.entry naming.entry calendar events × (string_bytes t ≡ calendar_text calendar events)) }
{
    let left_out = left_out_text(alloc, view)?;
    let utc = utc_table(alloc)?;
    let starts = first_starts(view.plan.starts.as_slice());
    let events = events_of(alloc, &utc, view.jobs, starts)?;
    let calendar = Calendar {
        name: naming.name,
        left_out: left_out.as_str(),
        has_ignored: has_ignored(view.jobs),
        stamp: naming.stamp,
        lasts: naming.lasts,
        starts: view.plan.starts.len(),
    };
    calendar_text(alloc, calendar, events.as_slice())
}

// Whether cron ignores the whole file of one of these jobs.
fn has_ignored(jobs: &[Job<'_>]) -> bool
    ensures { result ≡ list_any is_ignored jobs.now }
{
    jobs.iter().any(|job| is_ignored(job))
}

fn is_ignored(job: &Job<'_>) -> bool
    ensures { result ≡ is_ignored job.now }
{
    job.is_ignored
}

// The first of some starts, as many as a calendar has events.
fn first_starts(starts: &[JobStart]) -> &[JobStart]
    ensures { result.now ≡ take most_events starts.now }
{
    if starts.len() > MOST_EVENTS {
        return starts.split_at(MOST_EVENTS).0;
    }
    starts
}

// The clock of UTC.
#[tactic(auto, using(crate::proofs::UtcClock::is_calm))]
fn utc_table(alloc: Global) -> Result<ClockTable, AllocError>
    ensures { IfOk result IsUtcTable }
{
    match ClockTable::new(0, Vec::new(alloc)) {
        Ok(table) => Ok(table),
        Err(_) => unreachable!(),
    }
}

// The events of starts.
fn events_of<'v>(
    alloc: Global,
    utc: &ClockTable,
    jobs: &[Job<'v>],
    starts: &[JobStart],
) -> Result<Vec<Event<'v>>, AllocError>
    requires { IsUtcTable utc.now }
    ensures starts { IfOk result (λ events. map (λ e. e.start) events.items ≡ starts.now) }
    ensures each { IfOk result (λ events. All (IsEventOf jobs.now) events.items) }
{
    let mut events = Vec::new(alloc);
    for start in starts {
        events.push(event_of(utc, jobs, *start))?;
    }
    Ok(events)
}

#[tactic(auto, using(crate::proofs::UtcClock::shows))]
fn event_of<'v>(utc: &ClockTable, jobs: &[Job<'v>], start: JobStart) -> Event<'v>
    requires { IsUtcTable utc.now }
    ensures start { result.start ≡ start }
    ensures of { IsEventOf jobs.now result }
{
    Event {
        job: job_with_number(jobs, start.job),
        start,
        utc: ClockTime::shown_at(utc, start.second).civil,
    }
}

// The job at a place, with how many equal ones come before it.
fn job_with_number<'v>(jobs: &[Job<'v>], place: usize) -> Job<'v>
    ensures { IfSome (slice_get jobs.now place) (λ job. result ≡ record job { equal = equal_before place job jobs.now }) }
{
    match jobs.get(place) {
        Some(job) => Job {
            equal: equal_before(jobs, place, job),
            ..*job
        },
        None => NO_JOB,
    }
}

// Where a place has no job.
const NO_JOB: Job<'static> = Job {
    title: "",
    words: "",
    file: "",
    line: 0,
    user: "",
    times: "",
    command: &[],
    is_ignored: false,
    equal: 0,
};

// How many of the jobs before a place are the same as one: the user, the times and the command.
fn equal_before(jobs: &[Job<'_>], place: usize, job: &Job<'_>) -> u32
    ensures { result ≡ equal_before place job.now jobs.now }
{
    let mut equal: u32 = 0;
    for k in 0..place.min(jobs.len()) {
        if is_same_job(job, &jobs[k]) {
            equal = equal.saturating_add(1);
        }
    }
    equal
}

fn is_same_job(job: &Job<'_>, other: &Job<'_>) -> bool
    ensures { result ≡ is_same_job job.now other.now }
{
    job.command == other.command && job.times == other.times && job.user == other.user
}
