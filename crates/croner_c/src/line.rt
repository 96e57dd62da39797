//! What a line of a crontab is.
ghost use Rattle.std.specs.Prelude.{◌≡◌, Bool, pos, Some, if◌then◌else◌};
ghost use Rattle.std.specs.Ordering.{int_eq};
ghost use Rattle.crontab.specs.Entries.{entry_seen, job_seen, times_seen};
ghost use Rattle.crontab.specs.Place.{NamesPlace};
ghost use Rattle.croner_c.specs.Answers.{Tells};
ghost use Rattle.croner_c.specs.Lines as Spec;

use crate::status::{OK, Reason};
use crontab::bytes::{Kind, cut};
use crontab::line::{Dialect, Entry, Fault, Job, Times, entry_of};
use std::alloc::Global;

/// A line of a crontab: its parts as bytes of the line, the first and the one after the last.
#[repr(C)]
#[derive(Drop, Clone, Copy)]
pub struct Line {
    /// The bytes of this struct.
    pub size: usize,
    pub schedule_begin: usize,
    pub schedule_end: usize,
    pub user_begin: usize,
    pub user_end: usize,
    pub command_begin: usize,
    pub command_end: usize,
    pub fault_begin: usize,
    pub fault_end: usize,
    /// What the line is.
    pub kind: i32,
    /// Why cron refuses it; else 0.
    pub fault: i32,
}

/// The bytes of a `Line`.
const LINE_SIZE: usize = 80;

/// The kind of a refused line.
const REFUSED_LINE: i32 = 6;

/// Writes what a line of a crontab is.
#[unsafe(no_mangle)]
pub extern "C" fn croner_c_crontab_line(
    alloc: Global,
    line: &[u8],
    table: u32,
    out: &mut Line,
) -> i32
    ensures { Tells (Spec.IsLine line.now table out.old.size) Spec.tell_line out.old (result, out.new) }
{
    match line_in(alloc, line, table, out.size) {
        Ok(found) => {
            *out = found;
            status_of_line(&found)
        }
        Err(reason) => reason.status(),
    }
}

/// The status of a line.
fn status_of_line(line: &Line) -> i32
    ensures { result ≡ (if int_eq line.now.kind (pos 6) then pos 1 else pos 0) }
{
    if line.kind == REFUSED_LINE {
        Reason::Refused.status()
    } else {
        OK
    }
}

/// What a line is in a crontab.
fn line_in(alloc: Global, line: &[u8], table: u32, size: usize) -> Result<Line, Reason>
    ensures { Spec.IsLine line.now table size result }
{
    match asked_line(table, size) {
        Ok(dialect) => line_of(alloc, dialect, line),
        Err(reason) => Err(reason),
    }
}

/// Whose crontab a call means, if the call is accepted.
fn asked_line(table: u32, size: usize) -> Result<Dialect, Reason>
    ensures { result ≡ Spec.asked_line table size }
{
    if size == LINE_SIZE {
        dialect_of(table)
    } else {
        Err(Reason::BadArgument)
    }
}

/// What a line is in a crontab of this dialect.
fn line_of(alloc: Global, dialect: Dialect, line: &[u8]) -> Result<Line, Reason>
    ensures { Spec.IsRow dialect line.now result }
{
    match entry_of(alloc, dialect, line) {
        Ok(entry) => Ok(line_of_entry(line, &entry)),
        Err(_) => Err(Reason::OutOfMemory),
    }
}

/// How the lines of a crontab are read, by its number.
pub(crate) fn dialect_of(table: u32) -> Result<Dialect, Reason>
    ensures { result ≡ Spec.dialect_of table }
{
    match table {
        0 => Ok(Dialect::User),
        1 => Ok(Dialect::System),
        _ => Err(Reason::BadArgument),
    }
}

/// A line without parts.
fn line_of_kind(kind: i32) -> Line
    ensures { result ≡ Spec.row_of_kind kind }
{
    Line {
        size: LINE_SIZE,
        schedule_begin: 0,
        schedule_end: 0,
        user_begin: 0,
        user_end: 0,
        command_begin: 0,
        command_end: 0,
        fault_begin: 0,
        fault_end: 0,
        kind,
        fault: 0,
    }
}

/// A line with this entry.
fn line_of_entry(line: &[u8], entry: &Entry<'_>) -> Line
    ensures { (system : Bool) → NamesPlace system line.now entry.now → result ≡ Spec.row_of system line.now (entry_seen entry.now) }
{
    match entry {
        Entry::Blank | Entry::Pattern(_) => line_of_kind(0),
        Entry::Comment => line_of_kind(1),
        Entry::Setting { .. } => line_of_kind(2),
        Entry::Job(job) => line_of_job(line, job),
        Entry::Refused { fault, start, end } => line_of_fault(*fault, *start, *end),
    }
}

/// A refused line.
fn line_of_fault(fault: Fault, start: usize, end: usize) -> Line
    ensures { result ≡ Spec.row_with_fault fault start end }
{
    let mut found = line_of_kind(REFUSED_LINE);
    found.fault_begin = start;
    found.fault_end = end;
    found.fault = number_of(fault);
    found
}

/// The number of a fault.
fn number_of(fault: Fault) -> i32
    ensures { result ≡ Spec.number_of fault }
{
    match fault {
        Fault::Nul => 1,
        Fault::Minutes => 2,
        Fault::Hours => 3,
        Fault::Days => 4,
        Fault::Months => 5,
        Fault::Weekdays => 6,
        Fault::Nickname => 7,
        Fault::User => 8,
        Fault::Command => 9,
        Fault::LongCommand => 10,
    }
}

/// The number of a job's kind, by its times.
fn number_of_times(times: &Times) -> i32
    ensures { result ≡ Spec.number_of_times (times_seen times.now) }
{
    match times {
        Times::Named { .. } => 3,
        Times::Reboot => 4,
        Times::Never => 5,
    }
}

/// A line of a job: blanks, its schedule, blanks, in a system's crontab its user and a blank, and its command.
fn line_of_job(line: &[u8], job: &Job<'_>) -> Line
    ensures { result ≡ Spec.row_of_job line.now (job_seen job.now) }
{
    let found = line_of_schedule(line, job);
    match job.user {
        Some(user) => with_user(found, user),
        None => found,
    }
}

/// A line of a job without its user.
fn line_of_schedule(line: &[u8], job: &Job<'_>) -> Line
    ensures { result ≡ Spec.row_of_schedule line.now (job_seen job.now) }
{
    let (_, text) = cut(line, Kind::Blank);
    let mut found = line_of_kind(number_of_times(&job.times));
    found.schedule_begin = line.len().saturating_sub(text.len());
    found.schedule_end = found.schedule_begin + job.schedule.len();
    found.command_begin = line.len().saturating_sub(job.command.len());
    found.command_end = line.len();
    found
}

/// A line of a job with its user, whose name and a blank stand before the command.
fn with_user(line: Line, user: &[u8]) -> Line
    ensures { result ≡ Spec.with_user line.command_begin (Some user.now) line }
{
    let mut found = line;
    found.user_end = line.command_begin.saturating_sub(1);
    found.user_begin = found.user_end.saturating_sub(user.len());
    found
}
