//! What was told of lines so far, and the status of a call.
ghost use Rattle.std.specs.Prelude.{◌≡◌};
ghost use Rattle.crontab.specs.Entries.{entry_seen};
ghost use Rattle.croncheck_report.specs.FileSeen.{file_seen};
ghost use Rattle.croncheck_reading.specs.Tally.{one_more, none_counted, counted, is_first_late, is_too_many, is_line_warned, one_more_if, added, with_file, status_of};

use croncheck_report::file_seen::{FileSeen, is_late, is_refused};
use croncheck_report::report::Report;
use croncheck_warnings::warnings::is_first_too_many;
use crontab::line::{Dialect, Entry};

/// What was told of the lines so far.
#[derive(Clone, Copy, Default, Drop)]
pub struct Tally {
    /// The lines.
    pub lines: u64,
    /// The jobs and patterns that were read, and that no program refuses which they are read for.
    pub jobs: u64,
    /// The lines that are refused, also by the program that patterns are read for.
    pub refused: u64,
    /// The lines that have a warning, and the files whose name has one. A plan counts no lines here.
    pub warned: u64,
    /// The files that cron ignores as a whole.
    pub ignored: u64,
}

impl Tally {
    /// A tally in which nothing is counted yet.
    pub fn new() -> Tally
        ensures { result ≡ none_counted }
    {
        Tally {
            lines: 0,
            jobs: 0,
            refused: 0,
            warned: 0,
            ignored: 0,
        }
    }

    /// Counts one more line; also among those with a warning, if its report has one or it is the first line too many of a crontab. No
    /// count passes 2^64 - 1.
    pub fn add(&mut self, is_too_many: bool, report: &Report<'_, '_>)
        ensures { self.new ≡ added is_too_many self.old report.now }
    {
        let is_warned = is_line_warned(is_too_many, report);
        self.count(report);
        self.warned = one_more_if(is_warned, self.warned);
    }

    /// Counts one more line, and no warning. No count passes 2^64 - 1.
    pub fn count(&mut self, report: &Report<'_, '_>)
        ensures { self.new ≡ counted self.old report.now }
    {
        self.lines = one_more(self.lines);
        match report {
            Report::Job(job) if !job.is_refused_elsewhere() => self.jobs = one_more(self.jobs),
            Report::Job(_) | Report::Refused { .. } => self.refused = one_more(self.refused),
            Report::Silent | Report::Misnamed(_) | Report::Setting { .. } => {}
        }
    }

    /// Counts a file whose end was told: among the ignored ones if cron ignores it as a whole, and as a warning if it has one for its
    /// name. No count passes 2^64 - 1.
    pub fn end_file(&mut self, is_ignored: bool, is_name_warned: bool)
        ensures { self.new ≡ with_file is_ignored is_name_warned self.old }
    {
        self.ignored = one_more_if(is_ignored, self.ignored);
        self.warned = one_more_if(is_name_warned, self.warned);
    }

    /// The status of a call, if all could be read and written: 1 where a line is refused, where cron ignores a whole file, or where a
    /// line or the name of a file has a warning and the call is strict, else 0.
    pub fn status(&self, is_strict: bool) -> u8
        ensures { result ≡ status_of is_strict self.now }
    {
        if self.refused != 0 || self.ignored != 0 || is_strict && self.warned != 0 {
            1
        } else {
            0
        }
    }
}

// Whether a line is warned of, which may be the first that is too many. One that is refused has no other warning.
fn is_line_warned(is_too_many: bool, report: &Report<'_, '_>) -> bool
    ensures { result ≡ is_line_warned is_too_many report.now }
{
    report.has_warnings() && !is_refused(report) || is_too_many
}

/// Whether the line after `lines` lines of a file is the first one for which the file is too long.
pub fn is_too_many(dialect: Dialect, lines: u64, entry: &Entry<'_>, file: &FileSeen) -> bool
    ensures { result ≡ is_too_many dialect lines (entry_seen entry.now) (file_seen file.now) }
{
    match dialect {
        Dialect::User => {
            if file.is_installed() {
                is_first_late(lines, entry, file)
            } else {
                is_first_too_many(lines)
            }
        }
        Dialect::System => is_first_late(lines, entry, file),
        Dialect::Patterns => false,
    }
}

// Whether the line after `lines` lines of a file is the first job or setting after the last line at which cron itself takes one.
fn is_first_late(lines: u64, entry: &Entry<'_>, file: &FileSeen) -> bool
    ensures { result ≡ is_first_late lines (entry_seen entry.now) (file_seen file.now) }
{
    !file.has_late() && is_late(one_more(lines), entry)
}

// One more, if it counts.
fn one_more_if(counts: bool, count: u64) -> u64
    ensures { result ≡ one_more_if counts count }
{
    if counts { one_more(count) } else { count }
}

/// One more. No count passes 2^64 - 1.
pub fn one_more(count: u64) -> u64
    ensures { result ≡ one_more count }
{
    count.saturating_add(1)
}
