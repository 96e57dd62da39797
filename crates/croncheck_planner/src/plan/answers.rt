//! What a plan answers, as it is written.
ghost use Rattle.std.specs.Prelude.{◌≡◌, List, IfErr, IfOk, OnOk, map, string_bytes};
ghost use Rattle.jiff.specs.ZoneView.{plain_zone};
ghost use Rattle.croncheck_output.specs.Output.{written_of, WritesApart};
ghost use Rattle.croncheck_planner.specs.Planner.{is_numbered};
ghost use Rattle.croncheck_planner.specs.PlanAnswers.{WritesAnswers, WritesLeftOut, WritesOwnAnswers, WritesOtherAnswers, WritesOnZone, WritesAnswersOn, WritesOnClock, AreAnswersOn, AreOwnAnswers, IsLeftOut, IsOtherView, IsClockIn, IsNoClockIn, IsFollowedIn, clock_head, unfollowed_text, IsViewOf, job_planned, job_told, jobs_planned, jobs_told};

use crate::plan::Found;
use crate::plan::dropped::dropped_of;
use crate::plan::list::{head_text, whose_text};
use crate::planner::{ClockNames, Planned, is_numbered};
use croncheck_output::output::Output;
use croncheck_reading::progress::Terms;
use croner::errors::CronError;
use croner::time::table::ClockTable;
use cronplan::{Plan, Span};
use cronplan_forms::{Dropped, Job, Questions, View, answers_text, left_out_text};
use cronplan_jobs::Schedule;
use jiff::tz::TimeZone;
use std::alloc::{AllocError, Global};
use std::io;
use std::io::{ErrorKind, Write};

/// Writes what a plan of jobs answers, given what was found of them: whose the starts are, what the plan leaves out, and under the name of
/// each zone that is shown the answers on its clock.
pub(crate) fn write_answers<W: Write>(
    terms: &Terms<'_, '_>,
    names: &ClockNames,
    schedules: &[Schedule],
    jobs: &[Planned],
    found: &Found,
    questions: Questions,
    output: &mut Output<W>,
) -> io::Result<()>
    ensures { OnOk result (WritesAnswers terms.now.settings.now terms.now.shared.now names.now schedules.now jobs.now found.now questions (written_of W.contents output.old) (written_of W.contents output.new)) }
{
    let starts = found.plan.starts.as_slice();
    output.write_apart(head_text(whose_text(schedules), starts.is_empty()))?;
    write_left_out(terms, jobs, found, output)?;
    let zone = names.zone.as_str();
    write_own_answers(terms, zone, schedules, jobs, found, questions, output)?;
    write_other_answers(terms, names.other.as_str(), jobs, found, questions, output)
}

// Writes what a plan leaves out, if it leaves something out.
fn write_left_out<W: Write>(
    terms: &Terms<'_, '_>,
    jobs: &[Planned],
    found: &Found,
    output: &mut Output<W>,
) -> io::Result<()>
    ensures { OnOk result (WritesLeftOut terms.now.settings.now jobs.now found.now (written_of W.contents output.old) (written_of W.contents output.new)) }
{
    let text = text_of_left_out(terms, jobs, found)?;
    output.write_apart(text.as_str())
}

fn text_of_left_out(
    terms: &Terms<'_, '_>,
    jobs: &[Planned],
    found: &Found,
) -> Result<String, AllocError>
    ensures { IfOk result (λ text. IsLeftOut terms.now.settings.now jobs.now found.now (string_bytes text)) }
{
    let told = jobs_of(terms.alloc, jobs)?;
    let view = view_of(terms, "", found, told.as_slice());
    left_out_text(terms.alloc, view)
}

// Writes the answers on the clock of the zone that is shown.
fn write_own_answers<W: Write>(
    terms: &Terms<'_, '_>,
    name: &str,
    schedules: &[Schedule],
    jobs: &[Planned],
    found: &Found,
    questions: Questions,
    output: &mut Output<W>,
) -> io::Result<()>
    ensures { OnOk result (WritesOwnAnswers terms.now.settings.now name.now schedules.now jobs.now found.now questions (written_of W.contents output.old) (written_of W.contents output.new)) }
{
    let text = own_answers(terms, name, schedules, jobs, found, questions)?;
    write_on_clock(terms.alloc, name, text.as_str(), output)
}

fn own_answers<'v>(
    terms: &Terms<'v, 'v>,
    name: &'v str,
    schedules: &'v [Schedule],
    jobs: &'v [Planned],
    found: &'v Found,
    questions: Questions,
) -> Result<String, AllocError>
    ensures { IfOk result (λ text. AreOwnAnswers terms.now.settings.now name.now schedules.now jobs.now found.now questions (string_bytes text)) }
{
    let told = jobs_of(terms.alloc, jobs)?;
    let dropped = dropped_of(terms.alloc, terms.settings, schedules)?;
    let view = own_view(terms, name, found, dropped.as_slice(), told.as_slice());
    answers_text(terms.alloc, view, questions)
}

// What was found of these jobs, some of which lack a start where the clock is put forward.
fn own_view<'v>(
    terms: &Terms<'v, 'v>,
    zone: &'v str,
    found: &'v Found,
    dropped: &'v [Dropped],
    jobs: &'v [Job<'v>],
) -> View<'v>
    ensures zone { result.zone.now ≡ zone.now }
    ensures dropped { result.dropped.now ≡ dropped.now }
    ensures view { (planned : List Planned) → jobs_told jobs.now ≡ jobs_planned planned → IsViewOf terms.now.settings.now planned found.now result }
{
    View {
        dropped,
        ..view_of(terms, zone, found, jobs)
    }
}

// Writes answers under the name of the zone on whose clock they are.
fn write_on_clock<W: Write>(
    alloc: Global,
    name: &str,
    text: &str,
    output: &mut Output<W>,
) -> io::Result<()>
    ensures { OnOk result (WritesOnClock name.now text.now (written_of W.contents output.old) (written_of W.contents output.new)) }
{
    let head = clock_head(alloc, name)?;
    output.write_apart(head.as_str())?;
    output.write_apart(text)
}

#[tactic(auto, unfolding(crate::specs::PlanAnswers::clock_head))]
fn clock_head(alloc: Global, name: &str) -> Result<String, AllocError>
    ensures { IfOk result (λ text. string_bytes text ≡ clock_head name.now) }
{
    format!(in alloc; "on the clock of {name}:\n")
}

// Writes the answers once more on the clock of the other zone, if one is to be shown.
fn write_other_answers<W: Write>(
    terms: &Terms<'_, '_>,
    name: &str,
    jobs: &[Planned],
    found: &Found,
    questions: Questions,
    output: &mut Output<W>,
) -> io::Result<()>
    ensures { OnOk result (WritesOtherAnswers terms.now.shared.now name.now jobs.now found.now questions (written_of W.contents output.old) (written_of W.contents output.new)) }
{
    match &terms.shared.other_zone {
        Some(zone) => write_answers_in(terms.alloc, zone, name, jobs, found, questions, output),
        None => Ok(()),
    }
}

fn write_answers_in<W: Write>(
    alloc: Global,
    zone: &TimeZone<'_>,
    name: &str,
    jobs: &[Planned],
    found: &Found,
    questions: Questions,
    output: &mut Output<W>,
) -> io::Result<()>
    ensures { OnOk result (WritesOnZone (plain_zone zone.now) name.now jobs.now found.now questions (written_of W.contents output.old) (written_of W.contents output.new)) }
{
    match clock_in(alloc, zone, found.plan.span) {
        Ok(table) => write_answers_on(alloc, &table, name, jobs, found, questions, output),
        Err(CronError::InvalidTime) => write_unfollowed(alloc, name, output),
        Err(_) => Err(io::Error::from(ErrorKind::OutOfMemory)),
    }
}

/// The clock of a zone in a span, from the second before it. `None` where it isn't calm there.
///
/// The only error is `OutOfMemory`.
pub(crate) fn followed_in(
    alloc: Global,
    zone: &TimeZone<'_>,
    span: Span,
) -> Result<Option<ClockTable>, CronError>
    ensures { IfOk result (IsFollowedIn (plain_zone zone.now) span) }
{
    match clock_in(alloc, zone, span) {
        Ok(table) => Ok(Some(table)),
        Err(CronError::InvalidTime) => Ok(None),
        Err(error) => Err(error),
    }
}

// The clock of a zone in a span, from the second before it, if it is calm there.
#[tactic(auto, using(crate::proofs::OtherClocks::before_span))]
fn clock_in(alloc: Global, zone: &TimeZone<'_>, span: Span) -> Result<ClockTable, CronError>
    ensures table { IfOk result (IsClockIn (plain_zone zone.now) span) }
    ensures err { IfErr result (IsNoClockIn (plain_zone zone.now) span) }
{
    ClockTable::of_zone(alloc, zone, span.first - 1, span.end)
}

fn write_answers_on<W: Write>(
    alloc: Global,
    table: &ClockTable,
    name: &str,
    jobs: &[Planned],
    found: &Found,
    questions: Questions,
    output: &mut Output<W>,
) -> io::Result<()>
    ensures { OnOk result (WritesAnswersOn table.now name.now jobs.now found.now questions (written_of W.contents output.old) (written_of W.contents output.new)) }
{
    let text = answers_on(alloc, table, name, jobs, found, questions)?;
    write_on_clock(alloc, name, text.as_str(), output)
}

// The answers on the clock of a table. What is left out isn't told again.
fn answers_on(
    alloc: Global,
    table: &ClockTable,
    name: &str,
    jobs: &[Planned],
    found: &Found,
    questions: Questions,
) -> Result<String, AllocError>
    ensures { IfOk result (λ text. AreAnswersOn table.now name.now jobs.now found.now questions (string_bytes text)) }
{
    let told = jobs_of(alloc, jobs)?;
    let shown = found.plan.on_clock(alloc, table)?;
    let view = other_view(&shown, found, table, name, told.as_slice());
    answers_text(alloc, view, questions)
}

// What was found, with this plan in place of its own, which is on the clock of a table.
fn other_view<'v>(
    plan: &'v Plan,
    found: &'v Found,
    table: &'v ClockTable,
    zone: &'v str,
    jobs: &'v [Job<'v>],
) -> View<'v>
    ensures view { IsOtherView table.now zone.now jobs.now plan.now found.now result }
{
    let frequent = found.frequent.as_slice();
    let is_cut = found.is_cut();
    View {
        plan,
        table,
        zone,
        jobs,
        frequent,
        is_cut,
        dropped: &[],
        other: None,
    }
}

// Writes that the other zone's clock isn't followed.
fn write_unfollowed<W: Write>(alloc: Global, name: &str, output: &mut Output<W>) -> io::Result<()>
    ensures { OnOk result (WritesApart (unfollowed_text name.now) (written_of W.contents output.old) (written_of W.contents output.new)) }
{
    let text = unfollowed_text(alloc, name)?;
    output.write_apart(text.as_str())
}

#[tactic(auto, unfolding(crate::specs::PlanAnswers::unfollowed_text))]
fn unfollowed_text(alloc: Global, name: &str) -> Result<String, AllocError>
    ensures { IfOk result (λ text. string_bytes text ≡ unfollowed_text name.now) }
{
    format!(in alloc; "the clock of {name} isn't followed in these days\n")
}

/// What was found of these jobs, as the forms of a plan take it, with this name of the zone.
pub(crate) fn view_of<'v>(
    terms: &Terms<'v, 'v>,
    zone: &'v str,
    found: &'v Found,
    jobs: &'v [Job<'v>],
) -> View<'v>
    ensures zone { result.zone.now ≡ zone.now }
    ensures jobs { result.jobs.now ≡ jobs.now }
    ensures view { (planned : List Planned) → jobs_told jobs.now ≡ jobs_planned planned → IsViewOf terms.now.settings.now planned found.now result }
{
    let table = terms.settings.changes.start.table();
    let frequent = found.frequent.as_slice();
    let is_cut = found.is_cut();
    View {
        plan: &found.plan,
        table,
        zone,
        jobs,
        frequent,
        is_cut,
        dropped: &[],
        other: None,
    }
}

/// The jobs of a plan, as its forms take them, none of them marked as one whose file cron ignores. The only error is lack of memory.
pub(crate) fn jobs_of<'p>(alloc: Global, jobs: &'p [Planned]) -> Result<Vec<Job<'p>>, AllocError>
    ensures { IfOk result (λ told. jobs_told told.items ≡ jobs_planned jobs.now) }
{
    let mut told = Vec::new(alloc);
    for job in jobs {
        told.push(job_of_planned(job))?;
    }
    Ok(told)
}

/// The same, with those marked whose files have one of these numbers: cron ignores them.
pub(crate) fn marked_jobs<'p>(
    alloc: Global,
    ignored: &[u64],
    jobs: &'p [Planned],
) -> Result<Vec<Job<'p>>, AllocError>
    ensures told { IfOk result (λ told. jobs_told told.items ≡ jobs_planned jobs.now) }
    ensures marked { IfOk result (λ told. map (λ j. j.is_ignored) told.items ≡ map (λ job. is_numbered ignored.now job.number) jobs.now) }
{
    let mut told = Vec::new(alloc);
    for job in jobs {
        told.push(marked_job(ignored, job))?;
    }
    Ok(told)
}

fn marked_job<'p>(ignored: &[u64], job: &'p Planned) -> Job<'p>
    ensures told { job_told result ≡ job_planned job.now }
    ensures marked { result.is_ignored ≡ is_numbered ignored.now job.now.number }
{
    Job {
        is_ignored: is_numbered(ignored, job.number),
        ..job_of_planned(job)
    }
}

fn job_of_planned(job: &Planned) -> Job<'_>
    ensures { job_told result ≡ job_planned job.now }
{
    Job {
        title: job.title.as_str(),
        words: job.words.as_str(),
        file: job.file.as_str(),
        line: job.line,
        user: job.user.as_str(),
        times: job.times.as_str(),
        command: job.command.as_slice(),
        is_ignored: false,
        equal: 0,
    }
}
