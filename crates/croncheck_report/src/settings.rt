//! The settings by which reports are made.
ghost use Rattle.std.specs.Prelude.{◌≡◌};
ghost use Rattle.croncheck_report.specs.Settings.{stop_of, window_end, asked_of, asked_until, in_dialect, of_kind};

use croncheck_changes::changes::Changes;
use croncheck_often::often::span_end;
use croncheck_output::look::Look;
use croncheck_runs::clock::stop::Stop;
use croncheck_runs::previous::Previous;
use croncheck_runs::runs::Listing;
use croncheck_warnings::users::Users;
use croner::parser::CronParser;
use croner_presets::Preset;
use crontab::line::Dialect;

/// A language of descriptions.
#[derive(Clone, Copy, Drop)]
pub enum Tongue {
    English,
    Swedish,
}

/// The settings by which reports are made.
#[derive(Clone, Copy)]
pub struct Settings<'t> {
    pub dialect: Dialect,
    /// The parser of the lines of a file of patterns.
    pub parser: CronParser,
    /// The program whose reading of patterns is told too, if one is asked for.
    pub preset: Option<Preset>,
    pub language: Tongue,
    /// The clock, the start after which runs are listed, and the changes of the clock from there on. No run is listed
    /// after the clock's window.
    pub changes: &'t Changes<'t>,
    pub listing: Listing,
    /// The start is the second at which the call is made: after each run stands how far off it is.
    pub is_from_now: bool,
    /// The question for the runs up to the start, if these are told too.
    pub previous: Option<&'t Previous<'t>>,
    /// How often a job starts is told too.
    pub tells_often: bool,
    /// The status is 1 also where a line or the name of a file has a warning.
    pub is_strict: bool,
    /// Each job is compared with those before it, for `same-job`.
    pub compares_jobs: bool,
    /// How texts are shown.
    pub look: Look,
    /// The names of warnings that the words of the call allow.
    pub allowed: &'t [&'t str],
    /// The users that are known, if any are: a job of another user is refused.
    pub users: Option<Users<'t>>,
}

impl<'t> Settings<'t> {
    /// What is asked of the runs up to the start, if these are told too.
    pub fn previous(&self) -> Option<Previous<'t>>
        ensures { result ≡ asked_of self.now }
    {
        match self.previous {
            Some(asked) => Some(*asked),
            None => None,
        }
    }

    /// The last second of the span in which the starts of a job are counted, if that is told: the one up to which runs are listed, or, if a
    /// number of runs is listed, the one seven days after the start.
    pub fn asked_until(&self) -> Option<i64>
        ensures { result ≡ asked_until self.now }
    {
        if self.tells_often {
            Some(span_end(self.changes.start.second(), self.listing))
        } else {
            None
        }
    }

    /// Where and why the window of the clock ends early, if it ends before year 5000 does.
    pub fn stop(&self) -> Option<Stop>
        ensures { result ≡ stop_of self.now }
    {
        self.changes.clock.stop()
    }

    /// The last second of that window, if it ends before year 5000 does.
    pub fn last(&self) -> Option<i64>
        ensures { result ≡ window_end self.now }
    {
        self.changes.clock.last()
    }
}

/// The settings of a call for the files of each kind, which differ in their dialect alone.
#[derive(Clone, Copy)]
pub struct SettingsByKind<'t> {
    user: Settings<'t>,
    system: Settings<'t>,
    patterns: Settings<'t>,
}

impl<'t> SettingsByKind<'t> {
    /// These settings for the files of each kind, whatever dialect they have.
    pub fn new(settings: Settings<'t>) -> SettingsByKind<'t>
        ensures { (d : Dialect) → of_kind result d ≡ in_dialect d settings.entry }
    {
        SettingsByKind {
            user: Settings {
                dialect: Dialect::User,
                ..settings
            },
            system: Settings {
                dialect: Dialect::System,
                ..settings
            },
            patterns: Settings {
                dialect: Dialect::Patterns,
                ..settings
            },
        }
    }

    /// The settings for the files of a kind.
    pub fn of(&self, dialect: Dialect) -> &Settings<'t>
        ensures { result.now ≡ of_kind self.now dialect }
    {
        match dialect {
            Dialect::User => &self.user,
            Dialect::System => &self.system,
            Dialect::Patterns => &self.patterns,
        }
    }
}
