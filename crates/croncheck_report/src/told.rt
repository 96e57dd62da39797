//! When a job runs, as it is told.
ghost use Rattle.std.specs.Prelude.{◌≡◌, ◌↔◌, ◌&&◌, ◌≤◌, Ok, pos, int_le, IsTrue, IfOk, IfErr, string_bytes};
ghost use Rattle.croner_base.specs.Limits.{last_year};
ghost use Rattle.croner_base.specs.Zone.{reading};
ghost use Rattle.croner_base.specs.TableZone.{table_moment};
ghost use Rattle.croner_pattern.specs.Schedule.{is_year_matching};
ghost use Rattle.croner.specs.Views.{job_of as meaning_of_job};
ghost use Rattle.croncheck_report.specs.Told.{IsDescription, summary_language, NamesNoneFrom, IsPastAt, TellsMeaning, is_at_window_end, is_never, is_told_past, is_idle};

use crate::settings::{Settings, Tongue};
use croncheck_often::often::{Often, often_of_crontab, often_of_pattern};
use croncheck_runs::previous::{previous_runs_of, previous_starts_of};
use croncheck_runs::runs::{End, Runner, Runs, runs_of, starts_of};
use croner::Cron;
use croner::errors::CronError;
use croner::time::table::TableTime;
use croner::time::{CivilDateTime, CronDateTime};
use croner_summary::{Summary, SummaryLanguage};
use crontab_runs::CrontabJob;
use std::alloc::Global;

/// The years that a pattern can name.
const FIRST_YEAR: u32 = 1;

const LAST_YEAR: u32 = 5_000;

/// When a job runs.
pub enum Told<'t> {
    /// When the machine starts.
    Reboot,
    /// Never, since a field names nothing.
    Nothing,
    Runs {
        /// What its times mean, in words, as one line without a full stop: the text of its summary.
        description: String,
        /// The runs of a pattern, or what cron starts of a crontab's job.
        runs: Runs<'t>,
        /// The runs up to the start, the latest first, if they are asked for.
        previous: Option<Runs<'t>>,
        /// How often it starts, if that is asked for.
        often: Option<Often>,
        /// No year that it names is left at the start.
        is_past: bool,
    },
}

// By hand, as that of `Report`.
impl Drop for Told<'_> {
    fn drop(self) {
        match self {
            Told::Reboot => {}
            Told::Nothing => {}
            Told::Runs {
                description: _,
                runs: _,
                previous: _,
                often: _,
                is_past: _,
            } => {}
        }
    }
}

impl Told<'_> {
    /// Whether the job never runs: a field names nothing, or no run is left before year 5000. A job that runs when the machine
    /// starts does run.
    pub fn is_never(&self) -> bool
        ensures { result ≡ is_never self.now }
    {
        match self {
            Told::Runs { runs, .. } => runs.end.is_over() && runs.items.is_empty(),
            Told::Nothing => true,
            Told::Reboot => false,
        }
    }

    // No year that the job names is left at the start, and its listing doesn't end where the clock's window does.
    pub(crate) fn is_past(&self) -> bool
        ensures { result ≡ is_told_past self.now }
    {
        match self {
            Told::Runs { is_past, runs, .. } => *is_past && !runs.end.is_at_end_of_window(),
            Told::Reboot | Told::Nothing => false,
        }
    }

    // Its listing ends where the clock's window does.
    pub(crate) fn is_at_window_end(&self) -> bool
        ensures { result ≡ is_at_window_end self.now }
    {
        match self {
            Told::Runs { runs, .. } => runs.end.is_at_end_of_window(),
            Told::Reboot | Told::Nothing => false,
        }
    }
}

// The description and the runs of a pattern.
pub(crate) fn told_of<'t>(
    alloc: Global,
    settings: &Settings<'t>,
    job: &Cron,
) -> Result<Told<'t>, CronError>
    ensures told { IfOk result (TellsMeaning settings.now Runner.Croner (Ok (meaning_of_job job.now))) }
    ensures err { IfErr result (λ e. e ≡ CronError.OutOfMemory) }
{
    let description = description_of(alloc, job, settings.language)?;
    let runs = runs_of(
        alloc,
        job,
        settings.changes.start,
        settings.last(),
        settings.listing,
    )?;
    let previous = previous_runs_of(alloc, settings.previous(), job)?;
    let often = often_of_pattern(
        alloc,
        job,
        settings.changes.start,
        settings.last(),
        settings.asked_until(),
    )?;
    let is_past = is_past(job, settings.changes.start);
    Ok(Told::Runs {
        description,
        runs,
        previous,
        often,
        is_past,
    })
}

// The description of a crontab's job, and what cron starts of it.
pub(crate) fn told_of_crontab<'t>(
    alloc: Global,
    settings: &Settings<'t>,
    job: &CrontabJob,
) -> Result<Told<'t>, CronError>
    ensures told { IfOk result (TellsMeaning settings.now (Runner.Cron job.now.is_starred) (Ok (meaning_of_job job.now.cron))) }
    ensures err { IfErr result (λ e. e ≡ CronError.OutOfMemory) }
{
    let description = description_of(alloc, &job.cron, settings.language)?;
    let runs = starts_of(
        alloc,
        job,
        settings.changes.start,
        settings.last(),
        settings.listing,
    )?;
    let previous = previous_starts_of(alloc, settings.previous(), job)?;
    let often = often_of_crontab(
        alloc,
        job,
        settings.changes.start,
        settings.last(),
        settings.asked_until(),
    )?;
    let is_past = is_past(&job.cron, settings.changes.start);
    Ok(Told::Runs {
        description,
        runs,
        previous,
        often,
        is_past,
    })
}

/// What a job's times mean, in the words of a language. The only error is `OutOfMemory`.
pub fn description_of(alloc: Global, job: &Cron, language: Tongue) -> Result<String, CronError>
    ensures told { IfOk result (λ text. IsDescription language (meaning_of_job job.now) (string_bytes text)) }
    ensures err { IfErr result (λ e. e ≡ CronError.OutOfMemory) }
{
    let summary = Summary::of(alloc, job)?;
    summary.text(alloc, &summary_language(language))
}

// The language in which a summary is told.
fn summary_language(language: Tongue) -> SummaryLanguage
    ensures { result ≡ summary_language language }
{
    match language {
        Tongue::English => SummaryLanguage::English,
        Tongue::Swedish => SummaryLanguage::Swedish,
    }
}

// Whether a job names no year from that on which the clock shows at a start.
fn is_past(job: &Cron, start: TableTime<'_>) -> bool
    ensures { IsPastAt (meaning_of_job job.now) (reading (table_moment start.entry)) result }
{
    names_none_from(job, start.to_civil())
}

// Whether a job names no year from that of a date on.
fn names_none_from(job: &Cron, shown: CivilDateTime) -> bool
    ensures { IsTrue result ↔ NamesNoneFrom (meaning_of_job job.now) shown.date.year }
{
    for year in FIRST_YEAR..LAST_YEAR + 1 {
        if names_from(job, shown, year) {
            return false;
        }
    }
    true
}

// Whether a job names this year, and it comes no earlier than that of a date.
fn names_from(job: &Cron, shown: CivilDateTime, year: u32) -> bool
    requires { year ≤ last_year }
    ensures { result ≡ (int_le shown.date.year (pos year) && is_year_matching (meaning_of_job job.now) (pos year)) }
{
    shown.year() <= signed_year(year) && names(job, signed_year(year))
}

fn signed_year(year: u32) -> i32
    requires { year ≤ last_year }
    ensures { result ≡ pos year }
{
    year as i32
}

// Whether a job names a year.
fn names(job: &Cron, year: i32) -> bool
    ensures { result ≡ is_year_matching (meaning_of_job job.now) year }
{
    match job.pattern.year_match(year) {
        Ok(named) => named,
        Err(_) => false,
    }
}

// No run of a job is left.
pub(crate) fn is_idle(told: &Told<'_>) -> bool
    ensures { result ≡ is_idle told.now }
{
    told.is_never() || told.is_past()
}
