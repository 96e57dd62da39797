//! What was seen of the file that is read, and what cron makes of it as a whole.
ghost use Rattle.std.specs.Prelude.{◌≡◌, ◌++◌, codes, IfOk, OnOk, string_bytes};
ghost use Rattle.crontab.specs.Entries.{entry_seen};
ghost use Rattle.croncheck_report.specs.FileSeen.{file_seen, unread_of, of_passed_over, with_line, with_report, counts, is_refused, if_so, ignored, unfit_reason, is_ignored, name_text, is_misnamed_as, has_warned_name, misnamed_text, read_ending_of, reasons_of, whole_of, ending_of, is_late, is_open, has_many_lines, many_lines_text};
ghost use Rattle.croncheck_files.specs.Names.{is_installed};

use crate::report::Report;
use croncheck_files::fitness::Unfit;
use croncheck_files::folder::is_misnamed;
use croncheck_files::names::is_installed;
use croncheck_warnings::warnings::command::is_continued;
use croncheck_warnings::warnings::{are_many_lines, is_after_last};
use crontab::line::{Dialect, Entry};
use std::alloc::{AllocError, Global};

/// What is said of a crontab that cron itself reads, and that is too long.
const LATE_TEXT: &str = "a job or a setting stands after line 10003";

/// The same as a line, with the name of the warning.
const LATE_LINE: &str = "a job or a setting stands after line 10003 (many-lines)\n";

/// What was seen of the lines of a file.
#[derive(Drop)]
pub struct FileSeen {
    // Its name, as it is shown.
    name: String,
    has_refused: bool,
    // Its last line has no line feed, and is neither blank nor a comment.
    is_unfed: bool,
    // Cron passes over it for its name, so that none of its lines is read.
    is_passed_over: bool,
    // A job or a setting stands after the last line at which cron itself takes one.
    has_late: bool,
    // Why cron ignores it by what the file system says of it, if it does.
    unfit: Option<Unfit>,
    // Its last line seems to go on in the next.
    is_open: bool,
}

impl FileSeen {
    /// A file of which no line was read yet: its name as it is shown, and why cron ignores it by what the file system says of it, if it
    /// does.
    pub fn new(name: String, unfit: Option<Unfit>) -> FileSeen
        ensures { file_seen result ≡ unread_of (string_bytes name) unfit }
    {
        FileSeen {
            name,
            has_refused: false,
            is_unfed: false,
            is_passed_over: false,
            has_late: false,
            unfit,
            is_open: false,
        }
    }

    /// A file that cron passes over for its name; the name is given as it is shown.
    pub fn of_passed_over(name: String) -> FileSeen
        ensures { file_seen result ≡ of_passed_over (string_bytes name) }
    {
        FileSeen {
            name,
            has_refused: false,
            is_unfed: false,
            is_passed_over: true,
            has_late: false,
            unfit: None,
            is_open: false,
        }
    }

    /// Its name, as it is shown.
    pub fn name(&self) -> &str
        ensures { result.now ≡ string_bytes self.now.name }
    {
        self.name.as_str()
    }

    /// A line of it is refused.
    pub fn has_refused(&self) -> bool
        ensures { result ≡ self.now.has_refused }
    {
        self.has_refused
    }

    /// Its last line has no line feed, and is neither blank nor a comment.
    pub fn is_unfed(&self) -> bool
        ensures { result ≡ self.now.is_unfed }
    {
        self.is_unfed
    }

    /// A job or a setting stands after the last line at which cron itself takes one.
    pub fn has_late(&self) -> bool
        ensures { result ≡ (file_seen self.now).has_late }
    {
        self.has_late
    }

    /// By its name it is a crontab of a user that is installed: cron itself reads it, and no longer `crontab`.
    pub fn is_installed(&self) -> bool
        ensures { result ≡ is_installed (file_seen self.now).name }
    {
        is_installed(self.name.as_str())
    }

    /// Why cron ignores it by what the file system says of it, if it does.
    pub fn unfit(&self) -> Option<Unfit>
        ensures { result ≡ (file_seen self.now).unfit }
    {
        self.unfit
    }

    /// Its last line seems to go on in the next.
    pub fn is_open(&self) -> bool
        ensures { result ≡ (file_seen self.now).is_open }
    {
        self.is_open
    }

    /// Takes up one more line: its number, counted from 1, its entry, and whether a line feed ends it.
    pub fn add_line(&mut self, number: u64, entry: &Entry<'_>, is_fed: bool)
        ensures { file_seen self.new ≡ with_line number (entry_seen entry.now) is_fed (file_seen self.old) }
    {
        self.is_unfed = !is_fed && counts(entry);
        self.has_late = self.has_late || is_late(number, entry);
        self.is_open = is_open(entry);
    }

    /// Takes up the report of a line.
    pub fn add_report(&mut self, report: &Report<'_, '_>)
        ensures { file_seen self.new ≡ with_report report.now (file_seen self.old) }
    {
        if is_refused(report) {
            self.has_refused = true;
        }
    }

    /// What cron makes of the file of `lines` lines as a whole, as lines of text: that cron passes over it for its name, and, where its
    /// lines were read, a line for each reason for which cron ignores it. Empty if cron does neither, and for a file of patterns, which
    /// cron doesn't read. The only error is lack of memory.
    pub fn ending(&self, alloc: Global, dialect: Dialect, lines: u64) -> Result<String, AllocError>
        ensures { IfOk result (λ text. string_bytes text ≡ ending_of dialect lines (file_seen self.now)) }
    {
        if self.is_passed_over {
            return name_text(alloc, self.name.as_str());
        }
        self.read_ending(alloc, dialect, lines)
    }

    // The same of a file whose lines were read.
    fn read_ending(&self, alloc: Global, dialect: Dialect, lines: u64) -> Result<String, AllocError>
        ensures { IfOk result (λ text. string_bytes text ≡ read_ending_of dialect lines (file_seen self.now)) }
    {
        let whole = self.whole_text(alloc, dialect, lines)?;
        if !self.is_misnamed(dialect) {
            return Ok(whole);
        }
        let mut text = misnamed_text(alloc, self.name.as_str())?;
        text.push_str(whole.as_str())?;
        Ok(text)
    }

    // A line for each reason for which cron ignores the file of so many lines as a whole.
    fn whole_text(&self, alloc: Global, dialect: Dialect, lines: u64) -> Result<String, AllocError>
        ensures { IfOk result (λ text. string_bytes text ≡ whole_of dialect lines (file_seen self.now)) }
    {
        match dialect {
            Dialect::Patterns => Ok(String::new(alloc)),
            Dialect::User => self.reasons(alloc, Dialect::User, lines),
            Dialect::System => self.reasons(alloc, Dialect::System, lines),
        }
    }

    /// Whether the file is a crontab of the system that cron ignores for its name. Its lines were read if it was named itself.
    pub fn is_misnamed(&self, dialect: Dialect) -> bool
        ensures { result ≡ is_misnamed_as dialect (file_seen self.now) }
    {
        match dialect {
            Dialect::System => is_misnamed(self.name.as_str()),
            Dialect::User | Dialect::Patterns => false,
        }
    }

    /// Whether the file has the warning `file-name`.
    pub fn has_warned_name(&self, dialect: Dialect) -> bool
        ensures { result ≡ has_warned_name dialect (file_seen self.now) }
    {
        self.is_passed_over || self.is_misnamed(dialect)
    }

    /// Whether cron passes over the file for its name, and none of its lines was read.
    pub fn is_passed_over(&self) -> bool
        ensures { result ≡ (file_seen self.now).is_passed_over }
    {
        self.is_passed_over
    }

    /// Whether cron ignores the file of `lines` lines as a whole. Never so for a file of patterns, which cron doesn't read.
    pub fn is_ignored(&self, dialect: Dialect, lines: u64) -> bool
        ensures { result ≡ is_ignored dialect lines (file_seen self.now) }
    {
        match dialect {
            Dialect::Patterns => false,
            Dialect::User | Dialect::System => {
                self.unfit.is_some()
                    || self.has_refused
                    || self.is_unfed
                    || self.has_many_lines(dialect, lines)
            }
        }
    }

    /// Whether cron ignores the file of `lines` lines because it is too long.
    pub fn has_many_lines(&self, dialect: Dialect, lines: u64) -> bool
        ensures { result ≡ has_many_lines dialect lines (file_seen self.now) }
    {
        match dialect {
            Dialect::User => self.has_many_of_user(lines),
            Dialect::System => self.has_late,
            Dialect::Patterns => false,
        }
    }

    // Whether a user's crontab of so many lines is too long: to `crontab`, or to cron where it is installed.
    fn has_many_of_user(&self, lines: u64) -> bool
        ensures { result ≡ has_many_lines Dialect.User lines (file_seen self.now) }
    {
        if self.is_installed() {
            return self.has_late;
        }
        are_many_lines(lines)
    }

    /// What is said of the file if cron ignores it because it is too long; empty for a file of patterns.
    pub fn many_lines_text(&self, dialect: Dialect) -> &'static str
        ensures { result.now ≡ many_lines_text dialect (file_seen self.now) }
    {
        match dialect {
            Dialect::User => {
                if self.is_installed() {
                    LATE_TEXT
                } else {
                    "it has more than 10000 lines"
                }
            }
            Dialect::System => LATE_TEXT,
            Dialect::Patterns => "",
        }
    }

    // The same as a line, with the name of the warning.
    fn many_lines_line(&self, dialect: Dialect) -> &'static str
        ensures { result.now ≡ many_lines_text dialect (file_seen self.now) ++ codes " (many-lines)\n" }
    {
        match dialect {
            Dialect::User => {
                if self.is_installed() {
                    LATE_LINE
                } else {
                    "it has more than 10000 lines (many-lines)\n"
                }
            }
            Dialect::System => LATE_LINE,
            Dialect::Patterns => " (many-lines)\n",
        }
    }

    // A line for each reason for which cron ignores a crontab of so many lines.
    fn reasons(&self, alloc: Global, dialect: Dialect, lines: u64) -> Result<String, AllocError>
        ensures { IfOk result (λ text. string_bytes text ≡ reasons_of dialect lines (file_seen self.now)) }
    {
        let name = self.name.as_str();
        let has_many = self.has_many_lines(dialect, lines);
        let mut text = String::new(alloc);
        push_unfit(&mut text, name, self.unfit)?;
        push_if(&mut text, self.has_refused, name, "a line is refused\n")?;
        push_if(
            &mut text,
            self.is_unfed,
            name,
            "its last line has no line feed (no-newline)\n",
        )?;
        push_if(&mut text, has_many, name, self.many_lines_line(dialect))?;
        Ok(text)
    }
}

// What is said of a file of this name, which cron passes over.
fn name_text(alloc: Global, name: &str) -> Result<String, AllocError>
    ensures { IfOk result (λ text. string_bytes text ≡ name_text name.now) }
{
    format!(in alloc;
        "{name}: warning: file-name: cron passes over a file of this name, and no line of it is read here: write letters, digits, _ and - alone\n"
    )
}

// The same, where the lines of the file were read.
fn misnamed_text(alloc: Global, name: &str) -> Result<String, AllocError>
    ensures { IfOk result (λ text. string_bytes text ≡ misnamed_text name.now) }
{
    format!(in alloc;
        "{name}: warning: file-name: cron passes over a file of this name: write letters, digits, _ and - alone\n"
    )
}

// The line of what the file system says, if cron ignores the file for it.
fn push_unfit(text: &mut String, name: &str, unfit: Option<Unfit>) -> Result<(), AllocError>
    ensures { OnOk result (string_bytes text.new ≡ string_bytes text.old ++ unfit_reason name.now unfit) }
{
    match unfit {
        Some(unfit) => push_ignored(text, name, unfit.line()),
        None => Ok(()),
    }
}

// The line of a reason, if it holds.
fn push_if(text: &mut String, holds: bool, name: &str, reason: &str) -> Result<(), AllocError>
    ensures { OnOk result (string_bytes text.new ≡ string_bytes text.old ++ if_so holds (ignored name.now reason.now)) }
{
    if holds {
        push_ignored(text, name, reason)?;
    }
    Ok(())
}

fn push_ignored(text: &mut String, name: &str, reason: &str) -> Result<(), AllocError>
    ensures { OnOk result (string_bytes text.new ≡ string_bytes text.old ++ ignored name.now reason.now) }
{
    text.push_str(name)?;
    text.push_str(": cron ignores the whole file: ")?;
    text.push_str(reason)
}

/// Whether the report of a line is a refusal, or that of a pattern which the program refuses that patterns are read for.
pub fn is_refused(report: &Report<'_, '_>) -> bool
    ensures { result ≡ is_refused report.now }
{
    match report {
        Report::Refused { .. } => true,
        Report::Job(job) => job.is_refused_elsewhere(),
        Report::Silent | Report::Misnamed(_) | Report::Setting { .. } => false,
    }
}

/// Whether the line with this number, counted from 1, is a job or a setting after the last line at which cron itself takes one.
pub fn is_late(number: u64, entry: &Entry<'_>) -> bool
    ensures { result ≡ is_late number (entry_seen entry.now) }
{
    counts(entry) && is_after_last(number)
}

// Whether the line of an entry counts for cron where no line feed ends it.
fn counts(entry: &Entry<'_>) -> bool
    ensures { result ≡ counts (entry_seen entry.now) }
{
    match entry {
        Entry::Blank | Entry::Comment => false,
        Entry::Setting { .. } | Entry::Job(_) | Entry::Pattern(_) | Entry::Refused { .. } => true,
    }
}

// Whether the line of an entry seems to go on in the next: it is a job whose command ends in a backslash.
fn is_open(entry: &Entry<'_>) -> bool
    ensures { result ≡ is_open (entry_seen entry.now) }
{
    match entry {
        Entry::Job(job) => is_continued(job.command),
        Entry::Blank
        | Entry::Comment
        | Entry::Setting { .. }
        | Entry::Pattern(_)
        | Entry::Refused { .. } => false,
    }
}
