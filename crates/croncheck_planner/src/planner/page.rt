//! The plan of files as a page.
ghost use Rattle.std.specs.Prelude.{◌≡◌, [], map, IfOk, OnOk, string_bytes};
ghost use Rattle.crontab.specs.Entries.{entry_seen};
ghost use Rattle.croncheck_output.specs.Output.{written_of};
ghost use Rattle.croncheck_planner.specs.PagePlans.{brief_of, is_warning, KeepsIf, line_told, lines_told, TellsLine, warning_told, warnings_in, warnings_of};
ghost use Rattle.croncheck_planner.specs.PlanFiles.{IsPage};
ghost use Rattle.croncheck_planner.specs.Planner.{job_planned, jobs_seen};

use super::ignored::write_told;
use super::{ClockNames, Planner, is_refused_by_user, spaced_text, write_plan_ending};
use crate::plan::answers::jobs_of;
use crate::plan::beside::{other_table, view_beside};
use crate::plan::title::heading_of;
use croncheck_findings::findings::{Finding, findings_of};
use croncheck_output::output::Output;
use croncheck_output::severity::Severity;
use croncheck_reading::form::Form;
use croncheck_reading::progress::{Line, Progress, Terms};
use croncheck_reading::tally::one_more;
use croncheck_report::location::Location;
use croncheck_report::report::Report;
use croncheck_report::settings::Settings;
use croncheck_runs::runs::Listing;
use croner::errors::CronError;
use cronplan_forms::PlanAsked;
use cronplan_page::{About, Line as PageLine, Warnings, page_of};
use crontab::content::{Outcome, outcome_of};
use crontab::line::Entry;
use std::alloc::{AllocError, Global};
use std::io;
use std::io::Write;

/// Takes the jobs of files for a page, with what is found of the line of each. Of a line without a job in the plan it writes its place and
/// what is wrong there, never with more of the line than the bytes at fault.
#[derive(Drop)]
pub struct PagePlanner {
    planner: Planner,
    // What is found of the line of each job.
    found: Vec<Vec<Finding>>,
}

impl PagePlanner {
    /// A planner that has no job yet, and knows the names of the zones.
    pub fn new(alloc: Global, asked: PlanAsked, names: ClockNames) -> PagePlanner
        ensures jobs { (result.planner.schedules.items ≡ []) × (result.planner.jobs.items ≡ []) }
        ensures found { result.found.items ≡ [] }
        ensures asked { result.planner.asked ≡ asked }
        ensures names { result.planner.names ≡ names }
    {
        PagePlanner {
            planner: Planner::new(alloc, asked, names),
            found: Vec::new(alloc),
        }
    }

    /// The page of the plan as `cronplan_page::page_of` makes it, with this planner's names of the zones and the warnings of each job. Of
    /// the jobs that start too often it has only the names and counts. Its title is shown as bytes of a file are. `ignored` is what the
    /// page says that cron ignores.
    ///
    /// The only error is `OutOfMemory`, as that of `answered_plan`.
    pub fn page<'p>(
        &'p self,
        terms: &'p Terms<'p, 'p>,
        title: &'p str,
        ignored: &'p [PageLine<'p>],
    ) -> Result<String, CronError>
        ensures { IfOk result (λ text. IsPage terms.now.settings.now terms.now.shared.now self.now title.now ignored.now (string_bytes text)) }
    {
        let planner = &self.planner;
        let found = planner.found_starts(terms)?;
        let told = jobs_of(terms.alloc, planner.jobs.as_slice())?;
        let lines = lines_of(terms.alloc, self.found.as_slice())?;
        let warned = warnings_of(terms.alloc, lines.as_slice())?;
        let table = other_table(terms.alloc, terms.shared, found.plan.span)?;
        let view = view_beside(terms, &planner.names, &found, &table, told.as_slice());
        let warnings = warned.as_slice();
        let title = spaced_text(terms.alloc, title.as_bytes())?;
        let about = About {
            title: title.as_str(),
            ignored,
            warnings,
        };
        let text = page_of(terms.alloc, view, about)?;
        Ok(text)
    }

    // Takes the job of a line at a place, in the file with this number, if it has one that is planned, and returns whether it has. `outcome` is what the parser makes of
    // its times.
    fn take_job(
        &mut self,
        terms: &Terms<'_, '_>,
        number: u64,
        place: Location<'_>,
        entry: &Entry<'_>,
        outcome: Outcome,
    ) -> io::Result<bool>
        ensures kept { IfOk result (KeepsIf terms.now.settings.now self.old.planner.asked self.old.planner.above.title.items number place.entry.file.now place.entry.line (entry_seen entry.now)
            (job_planned terms.now.settings.now (entry_seen entry.now) outcome) (jobs_seen self.old.planner.schedules self.old.planner.jobs) (jobs_seen self.new.planner.schedules self.new.planner.jobs)) }
        ensures above { self.new.planner.above ≡ self.old.planner.above }
        ensures asked { self.new.planner.asked ≡ self.old.planner.asked }
        ensures names { self.new.planner.names ≡ self.old.planner.names }
        ensures found { self.new.found ≡ self.old.found }
    {
        if is_refused_by_user(terms.settings, entry) {
            return Ok(false);
        }
        match outcome {
            Outcome::Job(job) => {
                self.planner.keep(terms, number, place, job, entry)?;
                Ok(true)
            }
            Outcome::NoText
            | Outcome::TimesRefused(_)
            | Outcome::PatternRefused(_)
            | Outcome::NotUtf8 => Ok(false),
        }
    }

    // Keeps what was found of a line whose job is planned; for any other line, writes it.
    fn tell<W: Write>(
        &mut self,
        terms: &Terms<'_, '_>,
        place: Location<'_>,
        is_planned: bool,
        report: &Report<'_, '_>,
        found: Vec<Finding>,
        output: &mut Output<W>,
    ) -> io::Result<()>
        ensures told { OnOk result (TellsLine place.entry.file.now place.entry.line is_planned report.now found self.old.found.items self.new.found.items
            (written_of W.contents output.old) (written_of W.contents output.new)) }
        ensures planner { self.new.planner ≡ self.old.planner }
    {
        if is_planned {
            self.found.push(found)?;
            return Ok(());
        }
        write_told(terms.alloc, place, report, found.as_slice(), output)?;
        Ok(())
    }
}

impl Form for PagePlanner {
    ghost use Rattle.std.specs.Prelude.{◌≡◌};
    ghost use Rattle.croncheck_planner.specs.PagePlans.{PlansLine};
    ghost use Rattle.croncheck_planner.specs.Planner.{WritesPlanEnding};

    ghost takes = { λ terms old y new. PlansLine terms.settings.now old y new };

    ghost ends_file = { λ terms planner stand old new. WritesPlanEnding terms.settings.now planner.planner.jobs.items stand old new };

    ghost ends = { λ terms planner old new. new ≡ old };

    fn take<W: Write>(
        &mut self,
        terms: &Terms<'_, '_>,
        progress: &mut Progress,
        line: Line<'_>,
        output: &mut Output<W>,
    ) -> io::Result<()> {
        let Line {
            text,
            entry,
            is_fed,
        } = line;
        self.planner.begin_file(terms.alloc, progress.lines);
        let heading = heading_of(terms.alloc, &self.planner.above, &entry, text)?;
        let outcome = outcome_of(terms.alloc, terms.settings.parser, &entry)?;
        let next = Location {
            file: progress.file.name(),
            line: one_more(progress.lines),
        };
        let is_planned = self.take_job(terms, progress.files, next, &entry, outcome)?;
        self.planner.take_heading(heading);
        let settings = brief_of(terms.settings);
        let brief = Terms::new(terms.alloc, &settings, terms.shared);
        let line = Line {
            text,
            entry,
            is_fed,
        };
        let report = progress.report(&brief, line)?;
        let found = findings_of(terms.alloc, text, &report)?;
        self.tell(terms, progress.place(), is_planned, &report, found, output)
    }

    fn end_file<W: Write>(
        &self,
        terms: &Terms<'_, '_>,
        progress: &Progress,
        output: &mut Output<W>,
    ) -> io::Result<()> {
        write_plan_ending(terms, self.planner.jobs.as_slice(), progress, output)
    }

    fn end<W: Write>(&self, _terms: &Terms<'_, '_>, _output: &mut Output<W>) -> io::Result<()> {
        Ok(())
    }
}

// The same settings, but with one run of each job alone: nothing is told of its runs.
fn brief_of<'t>(settings: &Settings<'t>) -> Settings<'t>
    ensures { result ≡ brief_of settings.now }
{
    Settings {
        listing: Listing::Count(1),
        previous: None,
        tells_often: false,
        ..*settings
    }
}

// ---- what to beware of

// The lines that a page has for what was found of each job.
fn lines_of<'f>(
    alloc: Global,
    found: &'f [Vec<Finding>],
) -> Result<Vec<Vec<PageLine<'f>>>, AllocError>
    ensures { IfOk result (λ all. map (λ lines. lines_told lines.items) all.items ≡ warnings_of found.now) }
{
    let mut all = Vec::new(alloc);
    for job in found {
        let lines = page_lines(alloc, job.as_slice())?;
        all.push(lines)?;
    }
    Ok(all)
}

// Those for what was found of a job: its warnings.
fn page_lines<'f>(alloc: Global, found: &'f [Finding]) -> Result<Vec<PageLine<'f>>, AllocError>
    ensures { IfOk result (λ lines. lines_told lines.items ≡ warnings_in found.now) }
{
    let mut lines = Vec::new(alloc);
    for finding in found {
        if is_warning(finding.severity) {
            lines.push(warning_line(finding))?;
        }
    }
    Ok(lines)
}

fn is_warning(severity: Severity) -> bool
    ensures { result ≡ is_warning severity }
{
    match severity {
        Severity::Warning => true,
        Severity::Error | Severity::Note => false,
    }
}

// A warning: its name, and what it says.
fn warning_line(finding: &Finding) -> PageLine<'_>
    ensures { line_told result ≡ warning_told finding.now }
{
    PageLine {
        head: finding.name,
        rest: finding.text.as_str(),
    }
}

fn warnings_of<'l>(
    alloc: Global,
    all: &'l [Vec<PageLine<'l>>],
) -> Result<Vec<Warnings<'l>>, AllocError>
    ensures { IfOk result (λ warnings. map (λ w. lines_told w.lines.now) warnings.items ≡ map (λ lines. lines_told lines.items) all.now) }
{
    let mut warnings = Vec::new(alloc);
    for lines in all {
        let lines = lines.as_slice();
        warnings.push(Warnings { lines })?;
    }
    Ok(warnings)
}
