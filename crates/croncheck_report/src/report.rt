//! What is told of a line: values, and no text but the description.
ghost use Rattle.std.specs.Prelude.{◌≡◌, ◌+◌, ◌++◌, Ok, ℕ, List, length, map, min, IfOk, OnOk, IfErr, None, Some, option_map, Result};
ghost use Rattle.croner.specs.parser.Grammar.{outcome as outcome_of_text};
ghost use Rattle.croner.specs.Views.{job_of as meaning_of_job};
ghost use Rattle.crontab.specs.Content.{IsOutcome, IsOutcomeOfTimes, IsOutcomeOfPattern};
ghost use Rattle.crontab.specs.Entries.{entry_seen, job_seen, times_seen};
ghost use Rattle.croncheck_report.specs.declared.settings.Settings.{Settings as Made};
ghost use Rattle.croncheck_report.specs.Allowed.{unknown_name_in};
ghost use Rattle.croncheck_report.specs.Report.{IsReportOfJob, IsReportOfPattern, blanks_of, IsReportOfLine, IsReportOfComment, TellsChanges, subject_of, IsWarned, WarnsPattern, file_and_line, earlier_of, place_for, HasNoPlace, setting_found, is_setting_found, is_refused_elsewhere, has_job_warnings, has_warnings, notes_of_job, notes_of_refusal, taken_of, notes_of_report, refused_user, IsReportBy, why_after_open_line, report_after_line};
ghost use Rattle.croncheck_warnings.specs.Users.{users_seen, is_unknown};
ghost use Rattle.croncheck_warnings.specs.Starred.{is_starred};
ghost use Rattle.croncheck_report.specs.Told.{TellsTiming};
ghost use Rattle.croncheck_warnings.specs.Warnings.{fields_seen, subject_seen};

use crate::allowed::comment::unknown_name_in;
use crate::settings::Settings;
use crate::told::{Told, is_idle, told_of, told_of_crontab};
use croncheck_changes::changes::meetings::Meetings;
use croncheck_runs::runs::Runner;
use croncheck_warnings::effect::has_no_effect;
use croncheck_warnings::mail::names_no_address;
use croncheck_warnings::presets::{Reading, readings_of};
use croncheck_warnings::starred::is_starred;
use croncheck_warnings::users::{Users, is_unknown, user_end, user_start};
use croncheck_warnings::warnings::{
    Fields, Subject, Warning, fields_of_pattern, fields_of_schedule, has_hidden_within, warnings_of,
};
use croner::Cron;
use croner::errors::CronError;
use croner::parser::PatternFault;
use croner_presets::Preset;
use crontab::bytes::{Kind, cut};
use crontab::content::Outcome;
use crontab::line::{Entry, Fault, Job, Times};
use crontab::notes::{Note, notes_of};
use crontab::setting::is_not_expanded;
use crontab_runs::CrontabJob;
use std::alloc::{AllocError, Global};

/// What is told of a line.
pub enum Report<'l, 't> {
    /// Nothing: the line is blank or a comment.
    Silent,
    /// It is a comment that allows this name, which no warning has.
    Misnamed(&'l [u8]),
    /// It sets a variable.
    Setting {
        setting: SettingReport,
        /// The line has its line feed.
        is_fed: bool,
    },
    Job(JobReport<'l, 't>),
    Refused {
        /// The byte of the line at which the fault begins, from 0.
        start: usize,
        /// The byte after its last one.
        end: usize,
        why: Why,
    },
}

// By hand, so that a function that lets one go calls this one: its proof doesn't go through the fields at each exit.
impl Drop for Report<'_, '_> {
    fn drop(self) {
        match self {
            Report::Silent => {}
            Report::Misnamed(_) => {}
            Report::Setting {
                setting: _,
                is_fed: _,
            } => {}
            Report::Job(_) => {}
            Report::Refused {
                start: _,
                end: _,
                why: _,
            } => {}
        }
    }
}

/// What is found of a line that sets a variable.
#[derive(Clone, Copy, Drop)]
pub struct SettingReport {
    /// The variable is `CRON_TZ` or `TZ`.
    pub is_zone: bool,
    /// The variable is one by which other crons start jobs otherwise.
    pub has_no_effect: bool,
    /// The value has something that a shell would expand, and that cron takes as it stands.
    pub is_not_expanded: bool,
    /// The variable is `MAILTO`, and the value is no address to which cron sends mail.
    pub sends_no_mail: bool,
    /// The line has a byte that hides others, but for a carriage return at its end, which cron cuts off.
    pub is_hiding: bool,
}

impl SettingReport {
    /// Whether any of these is found.
    pub fn is_found(self) -> bool
        ensures { result ≡ is_setting_found self }
    {
        self.is_zone
            || self.has_no_effect
            || self.is_not_expanded
            || self.sends_no_mail
            || self.is_hiding
    }
}

/// What is told of a job or a pattern.
#[derive(Drop)]
pub struct JobReport<'l, 't> {
    /// Its times as they are written.
    pub schedule: &'l [u8],
    /// The name of its user, where the file names one.
    pub user: Option<&'l [u8]>,
    /// Its command. `None` for a pattern alone.
    pub command: Option<&'l [u8]>,
    /// Where the first job stands that is the same, if jobs are compared and there is one.
    pub same: Option<Same>,
    pub times: Told<'t>,
    /// In the order of the table in docs/CRONTAB.md.
    pub warnings: Vec<Warning>,
    /// What changes of the clock do to it.
    pub meetings: Meetings,
    /// The names of warnings that the comment above it allows in vain: no such warning is here, nor would one be in another call or at
    /// another time. Empty unless the call is strict.
    pub unneeded: Vec<&'static str>,
}

/// The place of a job.
pub struct Same {
    /// The name of its file, as it is shown.
    pub file: String,
    /// The number of its line in that file, from 1.
    pub line: u64,
}

// By hand, as that of `Report`.
impl Drop for Same {
    fn drop(self) {
        let Same { file: _, line: _ } = self;
    }
}

/// Why a line is refused.
#[derive(Drop)]
pub enum Why {
    /// Cron refuses it, or this checker does.
    Cron(Fault),
    /// As `Cron`, and the line before seems to go on in this one: the command of that line ends in a backslash.
    AfterOpenLine(Fault),
    /// The crate's parser refuses the pattern. The program of the settings' preset accepts these things in it.
    Pattern(PatternFault, Vec<Reading>),
    /// The crate's parser refuses the text that the line's times were made into.
    Crate(CronError),
    /// The pattern isn't UTF-8.
    NotText,
    /// The user is none of those that are known.
    NoUser,
}

impl Report<'_, '_> {
    /// Whether the line has a warning. A refused line has none.
    pub fn has_warnings(&self) -> bool
        ensures { result ≡ has_warnings self.now }
    {
        match self {
            Report::Setting { setting, is_fed } => setting.is_found() || !*is_fed,
            Report::Job(job) => job.has_warnings(),
            Report::Misnamed(_) => true,
            Report::Silent | Report::Refused { .. } => false,
        }
    }

    /// The notes of the line of this report. The line is given without its line feed.
    ///
    /// The only error is lack of memory.
    pub fn notes(&self, alloc: Global, line: &[u8]) -> Result<Vec<Note>, AllocError>
        ensures { IfOk result (λ found. found.items ≡ notes_of_report line.now self.now) }
    {
        match self {
            Report::Job(job) => job.notes(alloc, line),
            Report::Refused { why, .. } => why.notes(alloc, line),
            Report::Silent | Report::Misnamed(_) | Report::Setting { .. } => Ok(Vec::new(alloc)),
        }
    }
}

impl JobReport<'_, '_> {
    /// Whether the program that patterns are read for refuses this one, and that isn't allowed.
    pub fn is_refused_elsewhere(&self) -> bool
        ensures { result ≡ is_refused_elsewhere self.now }
    {
        self.warnings
            .iter()
            .any(|warning| warning.is_refusal_elsewhere())
    }

    /// Whether the job or the pattern has a warning.
    pub fn has_warnings(&self) -> bool
        ensures { result ≡ has_job_warnings self.now }
    {
        !self.warnings.is_empty()
            || self.meetings.are_warned()
            || self.same.is_some()
            || !self.unneeded.is_empty()
    }

    /// The notes of the job's line, which is given without its line feed. A pattern has none. The only error is lack of memory.
    pub fn notes(&self, alloc: Global, line: &[u8]) -> Result<Vec<Note>, AllocError>
        ensures { IfOk result (λ found. found.items ≡ notes_of_job (option_map (λ c. c.now) self.now.command) line.now) }
    {
        match self.command {
            Some(_) => notes_of(alloc, None, line),
            None => Ok(Vec::new(alloc)),
        }
    }
}

impl Why {
    /// The notes of a line that is refused for this reason. It has none unless cron refuses it. The only error is lack of memory.
    pub fn notes(&self, alloc: Global, line: &[u8]) -> Result<Vec<Note>, AllocError>
        ensures { IfOk result (λ found. found.items ≡ notes_of_refusal self.now line.now) }
    {
        match self {
            Why::Cron(fault) | Why::AfterOpenLine(fault) => notes_of(alloc, Some(*fault), line),
            Why::Pattern(_, _) | Why::Crate(_) | Why::NotText | Why::NoUser => {
                Ok(Vec::new(alloc))
            }
        }
    }

    /// What the program of a preset accepts in a pattern that the crate's parser refuses; empty for any other reason.
    pub fn readings_taken(&self) -> &[Reading]
        ensures { result.now ≡ taken_of self.now }
    {
        match self {
            Why::Pattern(_, taken) => taken.as_slice(),
            Why::Cron(_) | Why::AfterOpenLine(_) | Why::Crate(_) | Why::NotText | Why::NoUser =>
                &[],
        }
    }
}

/// The report of a line, by its entry. The line is given without its line feed; `is_fed` says whether it has one. `outcome` is what the
/// parser makes of the line's times, and `same` is the place of an earlier job that is the same, if one was found.
///
/// A job is refused exactly if its user is none of those that are known, and then the fault lies at the user's name; or if the crate's
/// parser refuses the text of its times. A pattern is refused if the parser refuses it, or if it isn't UTF-8. The place of such a refusal
/// lies after the blanks in front of the line. `same` stands in the report of a job or a pattern that is read. The only error is
/// `OutOfMemory`.
pub fn report_of_line<'l, 't>(
    alloc: Global,
    settings: &Settings<'t>,
    line: &'l [u8],
    entry: Entry<'l>,
    outcome: Outcome,
    is_fed: bool,
    same: Option<Same>,
) -> Result<Report<'l, 't>, CronError>
    ensures report { IsOutcome settings.now.parser (entry_seen entry.entry) outcome → IfOk result (IsReportOfLine is_fed settings.now line.now entry.entry) }
    ensures passed { IfOk result (λ r. earlier_of r ≡ place_for r (option_map file_and_line same)) }
    ensures err { IfErr result (λ e. e ≡ CronError.OutOfMemory) }
{
    match entry {
        Entry::Blank => Ok(Report::Silent),
        Entry::Comment => Ok(report_of_comment(line)),
        Entry::Setting { is_zone } => Ok(Report::Setting {
            setting: setting_of(is_zone, line),
            is_fed,
        }),
        Entry::Refused { fault, start, end } => Ok(Report::Refused {
            start,
            end,
            why: Why::Cron(fault),
        }),
        Entry::Job(job) => report_of_owned(alloc, settings, line, job, outcome, is_fed, same),
        Entry::Pattern(text) => report_of_pattern(
            alloc, settings, line, text, outcome, is_fed, same,
        ),
    }
}

/// If the line before seems to go on in this one (`is_open`) and cron refuses this one, puts that into the report: `Why::Cron` becomes
/// `Why::AfterOpenLine`.
pub fn put_after_open_line(is_open: bool, report: &mut Report<'_, '_>)
    ensures { report.new ≡ report_after_line is_open report.old }
{
    match report {
        Report::Refused { why, .. } if is_open => put_why_after_open_line(why),
        Report::Silent
        | Report::Misnamed(_)
        | Report::Setting { .. }
        | Report::Job(_)
        | Report::Refused { .. } => {}
    }
}

fn put_why_after_open_line(why: &mut Why)
    ensures { why.new ≡ why_after_open_line why.old }
{
    match why {
        Why::Cron(fault) => {
            let fault = *fault;
            *why = Why::AfterOpenLine(fault);
        }
        Why::AfterOpenLine(_) | Why::Pattern(_, _) | Why::Crate(_) | Why::NotText | Why::NoUser =>
            {}
    }
}

// The report of a comment: the first name in its list that no warning has, if there is one.
fn report_of_comment<'l, 't>(line: &'l [u8]) -> Report<'l, 't>
    ensures report { IsReportOfComment (unknown_name_in line.now) result }
    ensures passed { HasNoPlace result }
{
    match unknown_name_in(line) {
        Some(name) => Report::Misnamed(name),
        None => Report::Silent,
    }
}

// What is found of a line that sets a variable, which is `CRON_TZ` or `TZ` or another.
fn setting_of(is_zone: bool, line: &[u8]) -> SettingReport
    ensures { result ≡ setting_found is_zone line.now }
{
    let (_, text) = cut(line, Kind::Blank);
    SettingReport {
        is_zone,
        has_no_effect: has_no_effect(text),
        is_not_expanded: is_not_expanded(text),
        sends_no_mail: names_no_address(text),
        is_hiding: has_hidden_within(text),
    }
}

// The blanks in front of a line.
fn blanks(line: &[u8]) -> &[u8]
    ensures { length result.now ≡ blanks_of line.now }
{
    let (blanks, _) = cut(line, Kind::Blank);
    blanks
}

// The report of the job of a line, whose user may be none of those that are known.
fn report_of_owned<'l, 't>(
    alloc: Global,
    settings: &Settings<'t>,
    line: &[u8],
    job: Job<'l>,
    outcome: Outcome,
    is_fed: bool,
    same: Option<Same>,
) -> Result<Report<'l, 't>, CronError>
    ensures report { IsOutcomeOfTimes (job_seen job.entry).times outcome
        → IfOk result (IsReportBy (is_unknown (users_seen settings.now.users) (job_seen job.entry).user) is_fed settings.now line.now (job_seen job.entry)) }
    ensures passed { IfOk result (λ r. earlier_of r ≡ place_for r (option_map file_and_line same)) }
    ensures err { IfErr result (λ e. e ≡ CronError.OutOfMemory) }
{
    if is_unknown(settings.users, job.user) {
        return Ok(refused_user_report(line, &job));
    }
    report_of_job(alloc, settings, line, job, outcome, is_fed, same)
}

// The user of a job is refused.
fn refused_user_report<'l, 't>(line: &[u8], job: &Job<'_>) -> Report<'l, 't>
    ensures { result ≡ refused_user line.now (job_seen job.now) }
{
    Report::Refused {
        start: user_start(line, job.command, job.user),
        end: user_end(line, job.command),
        why: Why::NoUser,
    }
}

// The report of the job of a line; `outcome` is what the parser makes of its times.
fn report_of_job<'l, 't>(
    alloc: Global,
    settings: &Settings<'t>,
    line: &[u8],
    job: Job<'l>,
    outcome: Outcome,
    is_fed: bool,
    same: Option<Same>,
) -> Result<Report<'l, 't>, CronError>
    ensures report { IsOutcomeOfTimes (job_seen job.entry).times outcome → IfOk result (IsReportOfJob is_fed settings.now (blanks_of line.now) (job_seen job.entry)) }
    ensures passed { IfOk result (λ r. earlier_of r ≡ place_for r (option_map file_and_line same)) }
    ensures err { IfErr result (λ e. e ≡ CronError.OutOfMemory) }
{
    match outcome {
        Outcome::Job(cron) => {
            let is_starred = is_starred(job.schedule);
            let crontab_job = CrontabJob { cron, is_starred };
            report_of_parsed_job(alloc, settings, job, &crontab_job, is_fed, same)
        }
        Outcome::NoText => report_of_no_text(alloc, settings, job, is_fed, same),
        Outcome::TimesRefused(refusal) => Ok(refused_report(
            line,
            job.schedule,
            Why::Crate(refusal),
        )),
        // Only a pattern has these outcomes.
        Outcome::PatternRefused(_) | Outcome::NotUtf8 => Ok(refused_report(
            line,
            job.schedule,
            Why::NotText,
        )),
    }
}

// The report of a job with these times, as the parser reads them; whether it is starred depends on how they are written.
fn report_of_parsed_job<'l, 't>(
    alloc: Global,
    settings: &Settings<'t>,
    job: Job<'l>,
    crontab_job: &CrontabJob,
    is_fed: bool,
    same: Option<Same>,
) -> Result<Report<'l, 't>, CronError>
    ensures report { (blanks : ℕ) → IsOutcomeOfTimes (job_seen job.entry).times (Outcome.Job crontab_job.now.cron)
        → crontab_job.now.is_starred ≡ is_starred (job_seen job.entry).schedule
        → IfOk result (IsReportOfJob is_fed settings.now blanks (job_seen job.entry)) }
    ensures passed { IfOk result (λ r. earlier_of r ≡ place_for r (option_map file_and_line same)) }
    ensures err { IfErr result (λ e. e ≡ CronError.OutOfMemory) }
{
    let times = told_of_crontab(alloc, settings, crontab_job)?;
    let cron = &crontab_job.cron;
    let runner = Runner::Cron {
        is_starred: crontab_job.is_starred,
    };
    let meetings = meetings_of(settings, cron, runner, &times);
    let warnings = warnings_of_job(alloc, settings.users, &job, Some(cron), &times, is_fed)?;
    Ok(Report::Job(JobReport {
        schedule: job.schedule,
        user: job.user,
        command: Some(job.command),
        same,
        times,
        warnings,
        meetings,
        unneeded: Vec::new(alloc),
    }))
}

// The report of a job that has no text for the parser.
fn report_of_no_text<'l, 't>(
    alloc: Global,
    settings: &Settings<'t>,
    job: Job<'l>,
    is_fed: bool,
    same: Option<Same>,
) -> Result<Report<'l, 't>, CronError>
    ensures report { (blanks : ℕ) → IsOutcomeOfTimes (job_seen job.entry).times Outcome.NoText
        → IfOk result (IsReportOfJob is_fed settings.now blanks (job_seen job.entry)) }
    ensures passed { IfOk result (λ r. earlier_of r ≡ place_for r (option_map file_and_line same)) }
    ensures err { IfErr result (λ e. e ≡ CronError.OutOfMemory) }
{
    let times = times_of_no_text(&job.times);
    let warnings = warnings_of_job(alloc, settings.users, &job, None, &times, is_fed)?;
    Ok(Report::Job(JobReport {
        schedule: job.schedule,
        user: job.user,
        command: Some(job.command),
        same,
        times,
        warnings,
        meetings: Meetings::none(),
        unneeded: Vec::new(alloc),
    }))
}

// What is told of times that have no text for the parser.
fn times_of_no_text<'t>(times: &Times) -> Told<'t>
    ensures { (s : Made) → IsOutcomeOfTimes (times_seen times.now) Outcome.NoText → (schedule : List ℕ) → TellsTiming s schedule (times_seen times.now) result }
{
    match times {
        Times::Reboot => Told::Reboot,
        Times::Never | Times::Named { .. } => Told::Nothing,
    }
}

// What is told of a job at changes of the clock, given what is told of its times.
fn meetings_of(settings: &Settings<'_>, job: &Cron, runner: Runner, told: &Told<'_>) -> Meetings
    ensures { TellsChanges settings.now runner (Some (meaning_of_job job.now)) told.now result }
{
    if is_idle(told) {
        return Meetings::none();
    }
    settings.changes.meetings_of(job, runner)
}

// The warnings of a job of a crontab, of whose times the parser made this job, if they have a text.
fn warnings_of_job(
    alloc: Global,
    users: Option<Users<'_>>,
    job: &Job<'_>,
    cron: Option<&Cron>,
    told: &Told<'_>,
    is_fed: bool,
) -> Result<Vec<Warning>, CronError>
    ensures warnings { IfOk result (λ found. IsWarned is_fed (users_seen users.entry) job.now.schedule.now (option_map (λ u. u.now) job.now.user) job.now.command.now
        (option_map (λ j. meaning_of_job j.now) cron.entry) told.now found.items) }
    ensures err { IfErr result (λ e. e ≡ CronError.OutOfMemory) }
{
    let fields = fields_of_schedule(job.schedule);
    let command = Some(job.command);
    let warnings = warnings_of(
        alloc,
        &subject_of(fields, cron, users, job.user, command, true, is_fed, told),
    )?;
    Ok(warnings)
}

// What is looked at of a job or a pattern for its warnings.
fn subject_of<'s, 'j>(
    fields: Option<Fields<'s>>,
    job: Option<&'j Cron>,
    users: Option<Users<'s>>,
    user: Option<&'s [u8]>,
    command: Option<&'s [u8]>,
    is_crontab: bool,
    is_fed: bool,
    told: &Told<'_>,
) -> Subject<'s, 'j>
    ensures { subject_seen result ≡ subject_of (option_map fields_seen fields.entry) (option_map (λ j. meaning_of_job j.now) job.entry)
        (users_seen users.entry) (option_map (λ u. u.now) user.entry) (option_map (λ c. c.now) command.entry) is_crontab is_fed told.now }
{
    Subject {
        fields,
        job,
        user,
        users,
        command,
        is_crontab,
        is_fed,
        is_past: told.is_past(),
        is_never: told.is_never(),
        is_at_window_end: told.is_at_window_end(),
    }
}

// The whole of a text after the blanks of a line is refused.
fn refused_report<'l, 't>(line: &[u8], text: &[u8], why: Why) -> Report<'l, 't>
    ensures { result ≡ Report.Refused (blanks_of line.now) (blanks_of line.now + length text.now) why }
{
    let blanks = blanks(line);
    Report::Refused {
        start: blanks.len(),
        end: blanks.len() + text.len(),
        why,
    }
}

// A text after the blanks of a line is refused for a fault in it.
fn refused_pattern_report<'l, 't>(
    line: &[u8],
    text: &str,
    fault: PatternFault,
    taken: Vec<Reading>,
) -> Report<'l, 't>
    ensures { result ≡ Report.Refused (blanks_of line.now + min fault.start (length text.now)) (blanks_of line.now + min fault.end (length text.now)) (Why.Pattern fault taken) }
{
    let blanks = blanks(line);
    Report::Refused {
        start: blanks.len() + fault.start.min(text.len()),
        end: blanks.len() + fault.end.min(text.len()),
        why: Why::Pattern(fault, taken),
    }
}

// The report of the pattern of a line; `outcome` is what the parser makes of it.
fn report_of_pattern<'l, 't>(
    alloc: Global,
    settings: &Settings<'t>,
    line: &[u8],
    bytes: &'l [u8],
    outcome: Outcome,
    is_fed: bool,
    same: Option<Same>,
) -> Result<Report<'l, 't>, CronError>
    ensures report { IsOutcomeOfPattern settings.now.parser bytes.now outcome → IfOk result (IsReportOfPattern is_fed settings.now (blanks_of line.now) bytes.now) }
    ensures passed { IfOk result (λ r. earlier_of r ≡ place_for r (option_map file_and_line same)) }
    ensures err { IfErr result (λ e. e ≡ CronError.OutOfMemory) }
{
    let Ok(text) = std::str::from_utf8(bytes) else {
        return Ok(refused_report(line, bytes, Why::NotText));
    };
    match outcome {
        Outcome::Job(job) => report_of_parsed_pattern(alloc, settings, text, &job, is_fed, same),
        Outcome::PatternRefused(fault) => {
            let taken = readings_of(alloc, settings.preset, true, text)?;
            Ok(refused_pattern_report(line, text, fault, taken))
        }
        // A pattern that is UTF-8 has none of these outcomes.
        Outcome::NoText | Outcome::TimesRefused(_) | Outcome::NotUtf8 => Ok(refused_report(
            line,
            bytes,
            Why::NotText,
        )),
    }
}

// The report of a pattern that the parser takes, and makes this job of.
fn report_of_parsed_pattern<'l, 't>(
    alloc: Global,
    settings: &Settings<'t>,
    text: &'l str,
    job: &Cron,
    is_fed: bool,
    same: Option<Same>,
) -> Result<Report<'l, 't>, CronError>
    ensures report { (blanks : ℕ) → outcome_of_text settings.now.parser text.now ≡ Ok (meaning_of_job job.now)
        → IfOk result (IsReportOfPattern is_fed settings.now blanks text.now) }
    ensures passed { IfOk result (λ r. earlier_of r ≡ place_for r (option_map file_and_line same)) }
    ensures err { IfErr result (λ e. e ≡ CronError.OutOfMemory) }
{
    let times = told_of(alloc, settings, job)?;
    let meetings = meetings_of(settings, job, Runner::Croner, &times);
    let warnings = warnings_of_pattern(alloc, settings.preset, text, job, &times, is_fed)?;
    Ok(Report::Job(JobReport {
        schedule: text.as_bytes(),
        user: None,
        command: None,
        same,
        times,
        warnings,
        meetings,
        unneeded: Vec::new(alloc),
    }))
}

// The warnings of a pattern that the parser takes, those of a preset last.
fn warnings_of_pattern(
    alloc: Global,
    preset: Option<Preset>,
    text: &str,
    job: &Cron,
    told: &Told<'_>,
    is_fed: bool,
) -> Result<Vec<Warning>, CronError>
    ensures warnings { IfOk result (λ found. WarnsPattern preset is_fed text.now (Some (meaning_of_job job.now)) told.now found.items) }
    ensures err { IfErr result (λ e. e ≡ CronError.OutOfMemory) }
{
    let fields = fields_of_pattern(alloc, text)?;
    let mut warnings = warnings_of(
        alloc,
        &subject_of(fields, Some(job), None, None, None, false, is_fed, told),
    )?;
    let readings = readings_of(alloc, preset, false, text)?;
    push_readings(&mut warnings, readings.as_slice())?;
    Ok(warnings)
}

// Appends to some warnings what another program reads differently.
fn push_readings(warnings: &mut Vec<Warning>, readings: &[Reading]) -> Result<(), AllocError>
    ensures { OnOk result (warnings.new.items ≡ warnings.old.items ++ map Warning.Preset readings.now) }
{
    for reading in readings {
        warnings.push(Warning::Preset(*reading))?;
    }
    Ok(())
}
