//! How far the reading of files has come, and what is asked of each of their lines.
ghost use Rattle.std.specs.Prelude.{◌≡◌, IfOk, string_bytes};
ghost use Rattle.crontab.specs.Entries.{entry_seen};
ghost use Rattle.croncheck_reading.specs.Progress.{Reports};
ghost use Rattle.croncheck_report.specs.Settings.{of_kind};
ghost use Rattle.croncheck_reading.specs.Sink.{StandsAtBegin, terms_of};
ghost use Rattle.croncheck_reading.specs.Stand.{stand_of, begin_of_file, begin_passed_over, at_line, line_taken};

use crate::same::Seen;
use crate::tally::{Tally, is_too_many, one_more};
use croncheck_files::fitness::Unfit;
use croncheck_report::allowed::comment::names_by;
use croncheck_report::allowed::take_away;
use croncheck_report::file_seen::FileSeen;
use croncheck_report::location::Location;
use croncheck_report::report::{Report, put_after_open_line, report_of_line};
use croncheck_report::settings::{Settings, SettingsByKind};
use croncheck_report::shared::Shared;
use crontab::content::outcome_of;
use crontab::line::{Dialect, Entry};
use std::alloc::Global;
use std::io;
use std::io::ErrorKind;

/// What is asked of each line of files, and what all answers share.
#[derive(Clone, Copy)]
pub struct Terms<'s, 't> {
    pub alloc: Global,
    pub settings: &'s Settings<'t>,
    pub shared: &'s Shared<'t>,
}

impl<'s, 't> Terms<'s, 't> {
    /// What is asked by these settings, and what all answers share.
    pub fn new(alloc: Global, settings: &'s Settings<'t>, shared: &'s Shared<'t>) -> Terms<'s, 't>
        ensures settings { result.settings.now ≡ settings.now }
        ensures shared { result.shared.now ≡ shared.now }
    {
        Terms {
            alloc,
            settings,
            shared,
        }
    }
}

/// What is asked of the lines of the files of each kind.
#[derive(Clone, Copy)]
pub struct TermsByKind<'s, 't> {
    user: Terms<'s, 't>,
    system: Terms<'s, 't>,
    patterns: Terms<'s, 't>,
}

impl<'s, 't> TermsByKind<'s, 't> {
    /// What is asked by these settings, and what all answers share.
    pub fn new(
        alloc: Global,
        settings: &'s SettingsByKind<'t>,
        shared: &'s Shared<'t>,
    ) -> TermsByKind<'s, 't>
        ensures settings { (d : Dialect) → (terms_of result d).settings.now ≡ of_kind settings.now d }
        ensures shared { (d : Dialect) → (terms_of result d).shared.now ≡ shared.now }
    {
        TermsByKind {
            user: Terms::new(alloc, settings.of(Dialect::User), shared),
            system: Terms::new(alloc, settings.of(Dialect::System), shared),
            patterns: Terms::new(alloc, settings.of(Dialect::Patterns), shared),
        }
    }

    /// What is asked of the lines of the files of a kind.
    pub fn of(&self, dialect: Dialect) -> Terms<'s, 't>
        ensures { result ≡ terms_of self.now dialect }
    {
        match dialect {
            Dialect::User => self.user,
            Dialect::System => self.system,
            Dialect::Patterns => self.patterns,
        }
    }
}

/// A line of a file.
pub struct Line<'l> {
    /// The bytes of the line, without its line feed.
    pub text: &'l [u8],
    pub entry: Entry<'l>,
    /// It has a line feed.
    pub is_fed: bool,
}

/// How far the reading of files has come.
pub struct Progress {
    pub tally: Tally,
    pub seen: Seen,
    pub file: FileSeen,
    /// The number of the file that is read, from 1.
    pub files: u64,
    /// How many of its lines were read.
    pub lines: u64,
    /// The names of the warnings that a comment allows for the next line.
    pub allowed: Vec<&'static str>,
}

// By hand, so that a function that lets one go calls this one: its proof doesn't go through the fields at each exit.
impl Drop for Progress {
    fn drop(self) {
        let Progress {
            tally: _,
            seen: _,
            file: _,
            files: _,
            lines: _,
            allowed: _,
        } = self;
    }
}

impl Progress {
    /// No file was read yet.
    pub fn new(alloc: Global) -> Progress
        ensures { StandsAtBegin (stand_of result) }
    {
        Progress {
            tally: Tally::new(),
            seen: Seen::new(alloc),
            file: FileSeen::new(String::new(alloc), None),
            files: 0,
            lines: 0,
            allowed: Vec::new(alloc),
        }
    }

    /// Begins the next file. `name` is its name as it is shown, and `unfit` is why cron ignores it by what the file system says
    /// of it, if it does.
    pub fn begin(&mut self, name: String, unfit: Option<Unfit>)
        ensures { stand_of self.new ≡ begin_of_file (string_bytes name) unfit (stand_of self.old) }
    {
        self.file = FileSeen::new(name, unfit);
        self.files = one_more(self.files);
        self.lines = 0;
        self.allowed.clear();
    }

    /// Begins the next file, which cron passes over for its name. The name is given as it is shown.
    pub fn begin_passed_over(&mut self, name: String)
        ensures { stand_of self.new ≡ begin_passed_over (string_bytes name) (stand_of self.old) }
    {
        self.file = FileSeen::of_passed_over(name);
        self.files = one_more(self.files);
        self.lines = 0;
        self.allowed.clear();
    }

    /// Comes to the next line of the file.
    pub fn next_line(&mut self, entry: &Entry<'_>, is_fed: bool)
        ensures { stand_of self.new ≡ at_line (entry_seen entry.now) is_fed (stand_of self.old) }
    {
        self.lines = one_more(self.lines);
        self.file.add_line(self.lines, entry, is_fed);
    }

    /// The place of the line that was read last.
    pub fn place(&self) -> Location<'_>
        ensures file { result.file.now ≡ string_bytes self.now.file.name }
        ensures line { result.line ≡ self.now.lines }
    {
        Location {
            file: self.file.name(),
            line: self.lines,
        }
    }

    /// The report of the next line of the file, without the warnings that the words of the call and the comment above it allow.
    /// The line is counted, and whether it has a warning. If the settings compare jobs, the report of a job says where the
    /// first job stands that is the same.
    ///
    /// The error says that memory is lacking.
    pub fn report<'l, 't>(
        &mut self,
        terms: &Terms<'_, 't>,
        line: Line<'l>,
    ) -> io::Result<Report<'l, 't>>
        ensures { IfOk result (λ report. Reports terms.now.settings.now (stand_of self.old) (line_taken line.entry) report (stand_of self.new)) }
    {
        let Line {
            text,
            entry,
            is_fed,
        } = line;
        let is_too_many = is_too_many(terms.settings.dialect, self.lines, &entry, &self.file);
        let is_open = self.file.is_open();
        self.next_line(&entry, is_fed);
        let place = Location {
            file: self.file.name(),
            line: self.lines,
        };
        let names = names_by(terms.alloc, &entry, text)?;
        let outcome = outcome_of(terms.alloc, terms.settings.parser, &entry)?;
        let same = self
            .seen
            .first_same(terms.alloc, terms.settings, &entry, &outcome, place)?;
        let Ok(mut report) = report_of_line(
            terms.alloc,
            terms.settings,
            text,
            entry,
            outcome,
            is_fed,
            same,
        ) else {
            return Err(io::Error::from(ErrorKind::OutOfMemory));
        };
        put_after_open_line(is_open, &mut report);
        let allowed = self.allowed.as_slice();
        take_away(terms.alloc, terms.settings, allowed, &mut report)?;
        if let Some(names) = names {
            self.allowed = names;
        }
        self.tally.add(is_too_many, &report);
        self.file.add_report(&report);
        Ok(report)
    }
}
