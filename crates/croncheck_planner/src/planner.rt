//! The form of a plan: takes the jobs of all files, and after them writes their starts.
ghost use Rattle.std.specs.Prelude.{◌≡◌, ◌∷◌, ◌++◌, ℕ, List, [], None, Some, IfOk, IfErr, OnOk, map, string_bytes, option_map, unwrap_or};
ghost use Rattle.croner.specs.declared.job.Cron.{Cron as Made};
ghost use Rattle.croner.specs.Views.{job_of as meaning_of_job};
ghost use Rattle.crontab.specs.Content.{IsOutcome};
ghost use Rattle.crontab.specs.Entries.{entry_seen};
ghost use Rattle.croncheck_output.specs.Output.{Written, written_of};
ghost use Rattle.croncheck_planner.specs.Titles.{heading_seen, title_beside};
ghost use Rattle.croncheck_planner.specs.Planner.{seen, planned_seen, job_shown, schedule_of, label_text, command_after, title_shown, name_seen, name_with, beside_shown, pair_shown, with_shown, user_text, command_of, times_of, above_at, is_refused_by_user, with_job, jobs_seen, Adds, IsFoundBy, Keeps, Passes, PlansOutcome, WritesListed, WritesAnswered, WritesPassed, WritesPlan, has_jobs, ignored_after, is_numbered, with_number, planned_ending, planned_text, WritesPlanEnding};
ghost use Rattle.croncheck_output.specs.Escaped.{spaced};
ghost use Rattle.croncheck_reading.specs.Stand.{stand_of};
ghost use Rattle.croncheck_report.specs.Told.{IsDescription};

mod calendar;
mod ignored;
mod json;
pub mod page;

use crate::plan::answers::write_answers;
use crate::plan::list::{whose_text, write_list};
use crate::plan::title::{Heading, heading_of, title_beside, title_of};
use crate::plan::{Found, answered_plan, listed_plan};
pub use calendar::PlanFile;
use croncheck_output::builds::begins_command;
use croncheck_output::escaped::shown_text;
use croncheck_output::front::{COMMAND_BYTES, push_front, push_spaced};
use croncheck_output::output::Output;
use croncheck_output::user::user_shown;
use croncheck_reading::form::Form;
use croncheck_reading::progress::{Line, Progress, Terms};
use croncheck_reading::tally::{Tally, one_more};
use croncheck_report::location::Location;
use croncheck_report::report::{Report, report_of_line};
use croncheck_report::settings::Settings;
use croncheck_report::told::description_of;
use croncheck_shown::reporter::write_report;
use croncheck_warnings::starred::is_starred;
use croncheck_warnings::users::is_unknown;
use croner::Cron;
use croner::errors::CronError;
use cronplan_forms::PlanAsked;
use cronplan_jobs::Schedule;
use crontab::content::{Outcome, outcome_of};
use crontab::line::{Dialect, Entry};
use crontab_runs::CrontabJob;
use ignored::write_ignored;
use std::alloc::{AllocError, Global};
use std::io;
use std::io::{ErrorKind, Write};

/// The names of the zones on whose clocks a plan is shown.
#[derive(Drop)]
pub struct ClockNames {
    /// The name of the zone whose clock is shown.
    pub zone: String,
    /// The name of the zone whose clock is shown besides; empty if there is none.
    pub other: String,
}

/// How a job is named.
#[derive(Drop)]
pub struct Named {
    /// Its title, as it is shown.
    pub title: String,
    // Its place, the front of its title, and the front of its command if that is asked for.
    pub(crate) label: String,
}

/// What is shown of a job of a plan.
#[derive(Drop)]
pub struct Planned {
    // The number of its file among those that are read, from 1.
    pub(crate) number: u64,
    /// The number of its line in its file, from 1.
    pub line: u64,
    /// The name of its file, as it is shown.
    pub file: String,
    /// Its title, as it is shown.
    pub title: String,
    /// The name of its user, as it is shown; empty where the file names none, or a word that is no name.
    pub user: String,
    /// Its times as they are written, in the way that bytes of a file are shown.
    pub times: String,
    /// What its times mean, in words.
    pub words: String,
    /// Its command; for a pattern, the pattern.
    pub command: Vec<u8>,
    // Its place, the front of its title, and the front of its command if that is asked for.
    pub(crate) label: String,
    // How it is named instead where its file has other jobs in the plan, if that is otherwise.
    beside: Option<Named>,
}

impl Planned {
    // Names it as beside other jobs of its file.
    fn stand_beside(&mut self)
        ensures { planned_seen self.new ≡ beside_shown (planned_seen self.old) }
    {
        if let Some(beside) = self.beside.take() {
            let Named { title, label } = beside;
            self.title = title;
            self.label = label;
        }
    }
}

/// Takes the jobs of files, and writes the plan of all of them. A line whose job has no time, and a line that is refused, is told as in a
/// report.
#[derive(Drop)]
pub struct Planner {
    schedules: Vec<Schedule>,
    jobs: Vec<Planned>,
    // What stands above the next line.
    above: Heading,
    // The numbers of the files that cron ignores as a whole, each once.
    ignored: Vec<u64>,
    asked: PlanAsked,
    names: ClockNames,
}

impl Planner {
    /// A planner that has no job yet, and knows the names of the zones.
    pub fn new(alloc: Global, asked: PlanAsked, names: ClockNames) -> Planner
        ensures jobs { (result.schedules.items ≡ []) × (result.jobs.items ≡ []) }
        ensures ignored { result.ignored.items ≡ [] }
        ensures asked { result.asked ≡ asked }
        ensures names { result.names ≡ names }
    {
        Planner {
            schedules: Vec::new(alloc),
            jobs: Vec::new(alloc),
            above: Heading::none(alloc),
            ignored: Vec::new(alloc),
            asked,
            names,
        }
    }

    // Forgets what stood above the first line of a file, of which so many lines were read.
    fn begin_file(&mut self, alloc: Global, lines: u64)
        ensures above { heading_seen self.new.above ≡ above_at lines (heading_seen self.old.above) }
        ensures schedules { self.new.schedules ≡ self.old.schedules }
        ensures jobs { self.new.jobs ≡ self.old.jobs }
        ensures ignored { self.new.ignored ≡ self.old.ignored }
        ensures asked { self.new.asked ≡ self.old.asked }
        ensures names { self.new.names ≡ self.old.names }
    {
        if lines == 0 {
            self.above = Heading::none(alloc);
        }
    }

    // Takes what stands above the next line, where that isn't what stands above this one.
    fn take_heading(&mut self, heading: Option<Heading>)
        ensures above { heading_seen self.new.above ≡ unwrap_or (option_map heading_seen heading) (heading_seen self.old.above) }
        ensures schedules { self.new.schedules ≡ self.old.schedules }
        ensures jobs { self.new.jobs ≡ self.old.jobs }
        ensures ignored { self.new.ignored ≡ self.old.ignored }
        ensures asked { self.new.asked ≡ self.old.asked }
        ensures names { self.new.names ≡ self.old.names }
    {
        if let Some(heading) = heading {
            self.above = heading;
        }
    }

    // Takes the number of the file that is read, where cron ignores it as a whole for what was read of it so far.
    fn judge_file(&mut self, dialect: Dialect, progress: &Progress) -> Result<(), AllocError>
        ensures ignored { OnOk result (self.new.ignored.items ≡ ignored_after dialect (stand_of progress.now) self.old.ignored.items) }
        ensures above { self.new.above ≡ self.old.above }
        ensures schedules { self.new.schedules ≡ self.old.schedules }
        ensures jobs { self.new.jobs ≡ self.old.jobs }
        ensures asked { self.new.asked ≡ self.old.asked }
        ensures names { self.new.names ≡ self.old.names }
    {
        if progress.file.is_ignored(dialect, progress.lines) {
            add_number(&mut self.ignored, progress.files)?;
        }
        Ok(())
    }

    // Takes the job of the line at a place, in the file with this number.
    fn keep(
        &mut self,
        terms: &Terms<'_, '_>,
        number: u64,
        place: Location<'_>,
        job: Cron,
        entry: &Entry<'_>,
    ) -> io::Result<()>
        ensures keeps { OnOk result (Keeps terms.now.settings.now self.old.asked self.old.above.title.items number place.entry.file.now place.entry.line (entry_seen entry.now) job
            (jobs_seen self.old.schedules self.old.jobs) (jobs_seen self.new.schedules self.new.jobs)) }
        ensures above { self.new.above ≡ self.old.above }
        ensures ignored { self.new.ignored ≡ self.old.ignored }
        ensures asked { self.new.asked ≡ self.old.asked }
        ensures names { self.new.names ≡ self.old.names }
    {
        let above = self.above.title.as_slice();
        let planned = planned_of(terms, self.asked, number, place, above, entry, &job)?;
        self.schedules.reserve(1)?;
        push_planned(&mut self.jobs, planned)?;
        self.schedules.push_reserved(schedule_of(entry, job));
        Ok(())
    }

    // Takes the job of the line that was read last.
    fn add(
        &mut self,
        terms: &Terms<'_, '_>,
        progress: &mut Progress,
        job: Cron,
        entry: &Entry<'_>,
    ) -> io::Result<()>
        ensures adds { (written : Written) → OnOk result (Adds terms.now.settings.now self.old.asked self.old.above.title.items (entry_seen entry.now) job
            (seen self.old.schedules self.old.jobs (stand_of progress.old) written) (seen self.new.schedules self.new.jobs (stand_of progress.new) written)) }
        ensures above { self.new.above ≡ self.old.above }
        ensures ignored { self.new.ignored ≡ self.old.ignored }
        ensures asked { self.new.asked ≡ self.old.asked }
        ensures names { self.new.names ≡ self.old.names }
    {
        self.keep(terms, progress.files, progress.place(), job, entry)?;
        progress.tally = with_job(progress.tally);
        Ok(())
    }

    // Tells of the line that was read last, which has no place in the plan. `outcome` is what the parser makes of its times.
    fn pass<W: Write>(
        &self,
        terms: &Terms<'_, '_>,
        progress: &mut Progress,
        line: &[u8],
        entry: Entry<'_>,
        outcome: Outcome,
        output: &mut Output<W>,
    ) -> io::Result<()>
        ensures { IsOutcome terms.now.settings.now.parser (entry_seen entry.entry) outcome → OnOk result (Passes terms.now.settings.now self.now.asked line.now entry.entry
            (seen self.now.schedules self.now.jobs (stand_of progress.old) (written_of W.contents output.old))
            (seen self.now.schedules self.now.jobs (stand_of progress.new) (written_of W.contents output.new))) }
    {
        let Ok(report) = report_of_line(
            terms.alloc,
            terms.settings,
            line,
            entry,
            outcome,
            true,
            None,
        ) else {
            return Err(io::Error::from(ErrorKind::OutOfMemory));
        };
        progress.tally.count(&report);
        progress.file.add_report(&report);
        self.tell(terms, progress.place(), line, &report, output)
    }

    // Tells of a line that has no place in the plan: as a report does, but if a file is asked for with no more of the line than the bytes
    // at fault.
    fn tell<W: Write>(
        &self,
        terms: &Terms<'_, '_>,
        place: Location<'_>,
        line: &[u8],
        report: &Report<'_, '_>,
        output: &mut Output<W>,
    ) -> io::Result<()>
        ensures { OnOk result (WritesPassed self.now.asked.file terms.now.settings.now place.entry.file.now place.entry.line line.now report.now (written_of W.contents output.old) (written_of W.contents output.new)) }
    {
        match self.asked.file {
            Some(_) => write_ignored(terms.alloc, place, line, report, output),
            None => write_report(terms, place, line, report, output),
        }
    }

    // Plans the line that was read last, or tells of it. `outcome` is what the parser makes of its times.
    fn plan_line<W: Write>(
        &mut self,
        terms: &Terms<'_, '_>,
        progress: &mut Progress,
        line: &[u8],
        entry: Entry<'_>,
        outcome: Outcome,
        output: &mut Output<W>,
    ) -> io::Result<()>
        ensures plans { IsOutcome terms.now.settings.now.parser (entry_seen entry.entry) outcome → OnOk result (PlansOutcome terms.now.settings.now self.old.asked self.old.above.title.items line.now entry.entry outcome
            (seen self.old.schedules self.old.jobs (stand_of progress.old) (written_of W.contents output.old))
            (seen self.new.schedules self.new.jobs (stand_of progress.new) (written_of W.contents output.new))) }
        ensures above { self.new.above ≡ self.old.above }
        ensures ignored { self.new.ignored ≡ self.old.ignored }
        ensures asked { self.new.asked ≡ self.old.asked }
        ensures names { self.new.names ≡ self.old.names }
    {
        if is_refused_by_user(terms.settings, &entry) {
            return self.pass(terms, progress, line, entry, outcome, output);
        }
        match outcome {
            Outcome::Job(job) => self.add(terms, progress, job, &entry),
            Outcome::NoText
            | Outcome::TimesRefused(_)
            | Outcome::PatternRefused(_)
            | Outcome::NotUtf8 => self.pass(terms, progress, line, entry, outcome, output),
        }
    }
}

impl Planner {
    // Writes the plan, unless a file is asked for: its list, or what it answers.
    fn end_plan<W: Write>(&self, terms: &Terms<'_, '_>, output: &mut Output<W>) -> io::Result<()>
        ensures { OnOk result (WritesPlan terms.now.settings.now terms.now.shared.now self.now (written_of W.contents output.old) (written_of W.contents output.new)) }
    {
        if self.asked.file.is_some() {
            return Ok(());
        }
        if self.asked.questions.is_none() {
            return self.end_list(terms, output);
        }
        self.end_answers(terms, output)
    }

    // Writes the list of all starts.
    fn end_list<W: Write>(&self, terms: &Terms<'_, '_>, output: &mut Output<W>) -> io::Result<()>
        ensures { OnOk result (WritesListed terms.now.settings.now terms.now.shared.now self.now (written_of W.contents output.old) (written_of W.contents output.new)) }
    {
        let Ok(found) = listed_plan(
            terms.alloc,
            self.schedules.as_slice(),
            terms.settings.changes.start,
            terms.settings.last(),
            terms.settings.listing,
        ) else {
            return Err(io::Error::from(ErrorKind::OutOfMemory));
        };
        let whose = whose_text(self.schedules.as_slice());
        write_list(terms, whose, self.jobs.as_slice(), &found, output)
    }

    /// The starts of its jobs in the span that the forms of a plan are about, without the jobs that start too often.
    ///
    /// The only error is `OutOfMemory`, as that of `answered_plan`.
    pub(crate) fn found_starts(&self, terms: &Terms<'_, '_>) -> Result<Found, CronError>
        ensures { IfOk result (IsFoundBy terms.now.settings.now self.now) }
    {
        answered_plan(
            terms.alloc,
            self.schedules.as_slice(),
            terms.settings.changes.start,
            terms.settings.last(),
            terms.settings.listing,
            self.asked.most_a_day,
        )
    }

    // Writes what the plan answers.
    fn end_answers<W: Write>(&self, terms: &Terms<'_, '_>, output: &mut Output<W>) -> io::Result<()>
        ensures { OnOk result (WritesAnswered terms.now.settings.now terms.now.shared.now self.now (written_of W.contents output.old) (written_of W.contents output.new)) }
    {
        let Ok(found) = self.found_starts(terms) else {
            return Err(io::Error::from(ErrorKind::OutOfMemory));
        };
        write_answers(
            terms,
            &self.names,
            self.schedules.as_slice(),
            self.jobs.as_slice(),
            &found,
            self.asked.questions,
            output,
        )
    }
}

impl Form for Planner {
    ghost use Rattle.croncheck_planner.specs.Planner.{Plans, seen, WritesPlan, WritesPlanEnding};

    ghost takes = { λ terms old y new. Plans terms.settings.now old y new };

    ghost ends_file = { λ terms planner stand old new. WritesPlanEnding terms.settings.now planner.jobs.items stand old new };

    ghost ends = { λ terms planner old new. WritesPlan terms.settings.now terms.shared.now planner old new };

    fn take<W: Write>(
        &mut self,
        terms: &Terms<'_, '_>,
        progress: &mut Progress,
        line: Line<'_>,
        output: &mut Output<W>,
    ) -> io::Result<()> {
        let Line {
            text,
            entry,
            is_fed,
        } = line;
        self.begin_file(terms.alloc, progress.lines);
        progress.next_line(&entry, is_fed);
        let heading = heading_of(terms.alloc, &self.above, &entry, text)?;
        let outcome = outcome_of(terms.alloc, terms.settings.parser, &entry)?;
        self.plan_line(terms, progress, text, entry, outcome, output)?;
        self.take_heading(heading);
        self.judge_file(terms.settings.dialect, progress)?;
        Ok(())
    }

    fn end_file<W: Write>(
        &self,
        terms: &Terms<'_, '_>,
        progress: &Progress,
        output: &mut Output<W>,
    ) -> io::Result<()> {
        write_plan_ending(terms, self.jobs.as_slice(), progress, output)
    }

    fn end<W: Write>(&self, terms: &Terms<'_, '_>, output: &mut Output<W>) -> io::Result<()> {
        self.end_plan(terms, output)
    }
}

/// Writes what cron makes of a file as a whole, if it makes anything of it, and that its jobs are planned all the same, where these jobs
/// have some of it. The error is that of what is written to, or says that memory is lacking.
pub(crate) fn write_plan_ending<W: Write>(
    terms: &Terms<'_, '_>,
    jobs: &[Planned],
    progress: &Progress,
    output: &mut Output<W>,
) -> io::Result<()>
    ensures { OnOk result (WritesPlanEnding terms.now.settings.now jobs.now (stand_of progress.now) (written_of W.contents output.old)
        (written_of W.contents output.new)) }
{
    let ending = progress
        .file
        .ending(terms.alloc, terms.settings.dialect, progress.lines)?;
    let text = planned_ending(has_jobs(progress.files, jobs), ending)?;
    output.write_apart(text.as_str())
}

// Whether one of these jobs is of the file with this number.
fn has_jobs(number: u64, jobs: &[Planned]) -> bool
    ensures { result ≡ has_jobs number jobs.now }
{
    jobs.iter().any(|job| job.number == number)
}

fn planned_ending(has_some: bool, mut ending: String) -> Result<String, AllocError>
    ensures { IfOk result (λ text. string_bytes text ≡ planned_ending has_some (string_bytes ending)) }
{
    if !ending.is_empty() {
        push_are_planned(&mut ending, has_some)?;
    }
    Ok(ending)
}

// Appends to a text that jobs of a file are planned, where it has some.
fn push_are_planned(text: &mut String, has_some: bool) -> Result<(), AllocError>
    ensures { OnOk result (string_bytes text.new ≡ string_bytes text.old ++ planned_text has_some) }
{
    if !has_some {
        return Ok(());
    }
    text.push_str("  its jobs are in this plan, as cron would start them once that is mended\n")
}

// Puts a job behind others. The last of these and the job are named as beside others where they are of one file.
#[tactic(auto, using(crate::proofs::ShownJobs::one_more))]
fn push_planned(jobs: &mut Vec<Planned>, job: Planned) -> Result<(), AllocError>
    ensures { OnOk result (map planned_seen jobs.new.items ≡ with_shown (map planned_seen jobs.old.items) (planned_seen job)) }
{
    match jobs.pop() {
        Some(last) => push_pair(jobs, last, job),
        None => push_first(jobs, job),
    }
}

fn push_first(jobs: &mut Vec<Planned>, job: Planned) -> Result<(), AllocError>
    ensures { OnOk result (jobs.new.items ≡ jobs.old.items ++ job ∷ []) }
{
    jobs.push(job)?;
    Ok(())
}

// Puts two jobs behind others, named as beside others where they are of one file.
#[tactic(auto, using(crate::proofs::ShownJobs::two_more))]
fn push_pair(jobs: &mut Vec<Planned>, mut last: Planned, mut job: Planned) -> Result<(), AllocError>
    ensures { OnOk result (map planned_seen jobs.new.items ≡ map planned_seen jobs.old.items ++ pair_shown (planned_seen last) (planned_seen job)) }
{
    name_pair(&mut last, &mut job);
    jobs.push(last)?;
    jobs.push(job)?;
    Ok(())
}

// Names two jobs as beside others where they are of one file.
fn name_pair(last: &mut Planned, job: &mut Planned)
    ensures { planned_seen last.new ∷ planned_seen job.new ∷ [] ≡ pair_shown (planned_seen last.old) (planned_seen job.old) }
{
    if last.number == job.number {
        last.stand_beside();
        job.stand_beside();
    }
}

// Puts a number among numbers, unless it is there.
fn add_number(numbers: &mut Vec<u64>, number: u64) -> Result<(), AllocError>
    ensures { OnOk result (numbers.new.items ≡ with_number number numbers.old.items) }
{
    if !is_numbered(numbers.as_slice(), number) {
        numbers.push(number)?;
    }
    Ok(())
}

/// Whether the file with a number is one of those with these numbers.
pub(crate) fn is_numbered(numbers: &[u64], number: u64) -> bool
    ensures { result ≡ is_numbered numbers.now number }
{
    numbers.iter().any(|one| *one == number)
}

// Whether the user of an entry is none of those that are known.
fn is_refused_by_user(settings: &Settings<'_>, entry: &Entry<'_>) -> bool
    ensures { result ≡ is_refused_by_user settings.now (entry_seen entry.now) }
{
    match entry {
        Entry::Job(job) => is_unknown(settings.users, job.user),
        Entry::Blank
        | Entry::Comment
        | Entry::Setting { .. }
        | Entry::Pattern(_)
        | Entry::Refused { .. } => false,
    }
}

// The tally with one more line, which has a job.
fn with_job(tally: Tally) -> Tally
    ensures { result ≡ with_job tally }
{
    Tally {
        lines: one_more(tally.lines),
        jobs: one_more(tally.jobs),
        refused: tally.refused,
        warned: tally.warned,
        ignored: tally.ignored,
    }
}

// The job of an entry, of whose times the parser makes this: a crontab's, or a pattern.
fn schedule_of(entry: &Entry<'_>, cron: Cron) -> Schedule
    ensures { result ≡ schedule_of (entry_seen entry.now) cron }
{
    match entry {
        Entry::Job(job) => {
            let is_starred = is_starred(job.schedule);
            Schedule::Crontab(CrontabJob { cron, is_starred })
        }
        Entry::Blank
        | Entry::Comment
        | Entry::Setting { .. }
        | Entry::Pattern(_)
        | Entry::Refused { .. } => Schedule::Pattern(cron),
    }
}

// ---- what is shown of a job

// What is shown of the job of an entry at a place, in the file with this number, of whose times the parser makes this, above which this
// title stands, if there is any.
fn planned_of(
    terms: &Terms<'_, '_>,
    asked: PlanAsked,
    number: u64,
    place: Location<'_>,
    above: &[u8],
    entry: &Entry<'_>,
    job: &Cron,
) -> io::Result<Planned>
    ensures { IfOk result (λ planned. (words : List ℕ) × IsDescription terms.now.settings.now.language (meaning_of_job job.now) words
        × (planned_seen planned ≡ job_shown asked number place.entry.file.now place.entry.line above.now words (entry_seen entry.now))) }
{
    let Ok(words) = description_of(terms.alloc, job, terms.settings.language) else {
        return Err(io::Error::from(ErrorKind::OutOfMemory));
    };
    let planned = planned_in(terms.alloc, asked, number, place, above, words, entry)?;
    Ok(planned)
}

// The same, with what its times mean.
fn planned_in(
    alloc: Global,
    asked: PlanAsked,
    number: u64,
    place: Location<'_>,
    above: &[u8],
    words: String,
    entry: &Entry<'_>,
) -> Result<Planned, AllocError>
    ensures { IfOk result (λ planned. planned_seen planned ≡ job_shown asked number place.entry.file.now place.entry.line above.now (string_bytes words) (entry_seen entry.now)) }
{
    let title = title_of(place.file.as_bytes(), above, entry);
    let beside = named_beside(alloc, asked, place, above, entry)?;
    let label = label_of(alloc, asked, place, title, entry)?;
    let file = String::from_str(alloc, place.file)?;
    let title = shown_title(alloc, title)?;
    let user = shown_text(alloc, user_of(entry))?;
    let times = shown_text(alloc, times_of(entry))?;
    let command = copy_of(alloc, command_of(entry))?;
    let line = place.line;
    Ok(Planned {
        number,
        line,
        file,
        title,
        user,
        times,
        words,
        command,
        label,
        beside,
    })
}

// How the job of an entry at a place is named beside other jobs of its file, if that is otherwise.
fn named_beside(
    alloc: Global,
    asked: PlanAsked,
    place: Location<'_>,
    above: &[u8],
    entry: &Entry<'_>,
) -> Result<Option<Named>, AllocError>
    ensures { IfOk result (λ beside. option_map name_seen beside
        ≡ option_map (name_with asked place.entry.file.now place.entry.line (entry_seen entry.now)) (title_beside place.entry.file.now above.now (entry_seen entry.now))) }
{
    let Some(title) = title_beside(alloc, place.file.as_bytes(), above, entry)? else {
        return Ok(None);
    };
    let label = label_of(alloc, asked, place, title.as_slice(), entry)?;
    let title = shown_title(alloc, title.as_slice())?;
    Ok(Some(Named { title, label }))
}

// What a list shows of a job: its place, the front of its title, and of its command where that is asked for.
fn label_of(
    alloc: Global,
    asked: PlanAsked,
    place: Location<'_>,
    title: &[u8],
    entry: &Entry<'_>,
) -> Result<String, AllocError>
    ensures { IfOk result (λ label. string_bytes label ≡ label_text asked place.entry.file.now place.entry.line title.now (entry_seen entry.now)) }
{
    let (file, line) = (place.file, place.line);
    let mut label = format!(in alloc; "  {file}:{line}  ")?;
    push_front(&mut label, title, COMMAND_BYTES)?;
    if asked.has_commands {
        push_command(&mut label, title, command_of(entry))?;
    }
    Ok(label)
}

// Puts the front of a command after its title, if there is one, and it isn't the title.
fn push_command(text: &mut String, title: &[u8], command: &[u8]) -> Result<(), AllocError>
    ensures { OnOk result (string_bytes text.new ≡ string_bytes text.old ++ command_after title.now command.now) }
{
    if command.is_empty() || command == title {
        return Ok(());
    }
    text.push_str("  ")?;
    push_front(text, command, COMMAND_BYTES)
}

fn user_of<'e>(entry: &Entry<'e>) -> &'e [u8]
    ensures { result.now ≡ user_text (entry_seen entry.now) }
{
    match entry {
        Entry::Job(job) => user_shown(job.user).unwrap_or(&[]),
        Entry::Blank
        | Entry::Comment
        | Entry::Setting { .. }
        | Entry::Pattern(_)
        | Entry::Refused { .. } => &[],
    }
}

fn times_of<'e>(entry: &Entry<'e>) -> &'e [u8]
    ensures { result.now ≡ times_of (entry_seen entry.now) }
{
    match entry {
        Entry::Job(job) => job.schedule,
        Entry::Pattern(pattern) => pattern,
        Entry::Blank | Entry::Comment | Entry::Setting { .. } | Entry::Refused { .. } => &[],
    }
}

fn command_of<'e>(entry: &Entry<'e>) -> &'e [u8]
    ensures { result.now ≡ command_of (entry_seen entry.now) }
{
    match entry {
        Entry::Job(job) => job.command,
        Entry::Pattern(pattern) => pattern,
        Entry::Blank | Entry::Comment | Entry::Setting { .. } | Entry::Refused { .. } => &[],
    }
}

// A title as it is shown: in quotes where it would be taken for a command at the beginning of a line.
fn shown_title(alloc: Global, title: &[u8]) -> Result<String, AllocError>
    ensures { IfOk result (λ text. string_bytes text ≡ title_shown title.now) }
{
    if !begins_command(title) {
        return spaced_text(alloc, title);
    }
    let mut text = String::from_str(alloc, "'")?;
    push_spaced(&mut text, title)?;
    text.push_str("'")?;
    Ok(text)
}

/// Bytes as they are shown, a tab as a space. The only error is lack of memory.
pub(crate) fn spaced_text(alloc: Global, bytes: &[u8]) -> Result<String, AllocError>
    ensures { IfOk result (λ text. string_bytes text ≡ spaced bytes.now) }
{
    let mut text = String::new(alloc);
    push_spaced(&mut text, bytes)?;
    Ok(text)
}

fn copy_of(alloc: Global, bytes: &[u8]) -> Result<Vec<u8>, AllocError>
    ensures { IfOk result (λ copy. copy.items ≡ bytes.now) }
{
    let mut copy = Vec::new(alloc);
    copy.extend_from_slice(bytes)?;
    Ok(copy)
}
