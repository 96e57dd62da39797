//! Why a call can't be answered, or can't be answered in full.

use croncheck_runs::clock::NoClock;
use croncheck_runs::clock::stop::Stop;
use std::{fmt, io};

/// Why a call can't be answered.
#[derive(Drop)]
pub enum Problem {
    /// The words of the call can't be read.
    Words(io::Error),
    /// The zone can't be read.
    Zone(jiff::Error),
    /// The word that should be a zone isn't one: this says what is wrong with it.
    NoZone(String),
    /// The zone has no clock from the start of the call on.
    Clock(NoClock),
    /// The machine's clock can't be read.
    Now(jiff::Error),
    /// The file of the users can't be read.
    Users(io::Error),
    /// The folder of the machine that is to be checked can't be read.
    Root(io::Error),
    /// The folder of `--root` can't be read: this says which, and why.
    NoRoot(String),
    /// A folder of `--recursive` can't be listed.
    Folder(io::Error),
    /// The zone's clock never shows the date and time of `--from`.
    SkippedFrom,
    /// The zone's clock never shows the date and time of `--until`.
    SkippedUntil,
    /// `--until` is earlier than `--from`.
    UntilBeforeFrom,
    /// The reports can't be written.
    Unwritten(io::Error),
    /// The file to which a plan is to be written is one that is read.
    OutputIsRead,
    /// The file of a plan can't be written.
    Unsaved(io::Error),
    /// A file of the call couldn't be read, of which was told already; so no file of a plan is
    /// written.
    Unread,
    /// Memory was asked for and not found.
    OutOfMemory,
}

impl Problem {
    ghost use Rattle.croncheck_command.specs.Problem.{status_of_problem};
    ghost use Rattle.std.specs.Prelude.{◌≡◌};

    /// The status of the process: 2 if the zone's clock never shows the moment of `--from` or
    /// `--until`, if `--until` is earlier than `--from`, or if the file of `--output` is one that is read; else 3.
    pub fn status(&self) -> u8
        ensures { result ≡ status_of_problem self.now }
    {
        match self {
            Problem::SkippedFrom
            | Problem::SkippedUntil
            | Problem::UntilBeforeFrom
            | Problem::OutputIsRead => 2,
            Problem::Words(_)
            | Problem::Zone(_)
            | Problem::NoZone(_)
            | Problem::Clock(_)
            | Problem::Now(_)
            | Problem::Users(_)
            | Problem::Root(_)
            | Problem::NoRoot(_)
            | Problem::Folder(_)
            | Problem::Unwritten(_)
            | Problem::Unsaved(_)
            | Problem::Unread
            | Problem::OutOfMemory => 3,
        }
    }
}

impl fmt::Display for Problem {
    fn fmt<W: fmt::Write>(&self, f: &mut fmt::Formatter<W>) -> fmt::Result {
        match self {
            Problem::Words(error) => write!(f, "the words of the call: {error}"),
            Problem::Zone(error) => write!(
                f,
                "the zone: {error}; --zone takes a name of the database such as Europe/Paris, a POSIX rule such as CET-1CEST,M3.5.0,M10.5.0/3, or local: the zone that TZ names, or without TZ that of /etc/localtime"
            ),
            Problem::NoZone(text) | Problem::NoRoot(text) => f.write_str(text.as_str()),
            Problem::Clock(reason) => write_reason(f, *reason),
            Problem::Now(error) => write!(f, "the machine's clock: {error}"),
            Problem::Users(error) => write!(f, "the file of --users: {error}"),
            Problem::Root(error) => write!(f, "the crontabs below the folder of --root: {error}"),
            Problem::Folder(error) => write!(f, "a folder of --recursive: {error}"),
            Problem::SkippedFrom => {
                f.write_str("--from: the zone's clock never shows this date or time")
            }
            Problem::SkippedUntil => {
                f.write_str("--until: the zone's clock never shows this date or time")
            }
            Problem::UntilBeforeFrom => f.write_str("--until lies before --from"),
            Problem::Unwritten(error) => write!(f, "the output: {error}"),
            Problem::OutputIsRead => f.write_str(
                "--output: this call reads the file that it would replace. Write another name",
            ),
            Problem::Unsaved(error) if error.kind() == io::ErrorKind::AlreadyExists => f.write_str(
                "--output: its name with .part at the end is there already: another call is writing it, or was stopped while it wrote; in that case remove it",
            ),
            Problem::Unsaved(error) if error.kind() == io::ErrorKind::NotFound => f.write_str(
                "--output: the file isn't written: its name is empty, or has a folder that isn't there",
            ),
            Problem::Unsaved(error) => write!(f, "--output: the file isn't written: {error}"),
            Problem::Unread => f.write_str("a file isn't read, so no plan is written"),
            Problem::OutOfMemory => f.write_str("out of memory"),
        }
    }
}

// Why a zone has no clock.
fn write_reason<W: fmt::Write>(f: &mut fmt::Formatter<W>, reason: NoClock) -> fmt::Result {
    match reason {
        NoClock::Change { stop, next } => write_stop(f, stop, next),
        NoClock::Outside => f.write_str(
            "--from: this start has no clock: write one from @-377704764001, which is -9999-01-05T01:59:59Z, to @95649119999, which is 5000-12-31T23:59:59Z",
        ),
        NoClock::OutOfMemory => f.write_str("out of memory"),
    }
}

// Where a zone's clock stops, so that no runs can be listed, and from when on they can be.
fn write_stop<W: fmt::Write>(
    f: &mut fmt::Formatter<W>,
    stop: Stop,
    next: Option<i64>,
) -> fmt::Result {
    write!(f, "the zone: its clock is not followed over {stop}")?;
    match next {
        Some(next) => write!(f, "; runs are listed from --from @{next} on"),
        None => f.write_str(
            "; no later start that has a clock was found: write another --from, or another --zone",
        ),
    }
}
