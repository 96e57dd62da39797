//! The text of a report.
ghost use Rattle.std.specs.Prelude.{◌≡◌, ◌≤◌, ◌<◌, ◌++◌, ℕ, List, [], length, true, false, None, Some, codes, IfOk, OnOk, string_bytes};
ghost use Rattle.jiff.specs.ZoneView.{plain_zone};
ghost use Rattle.croner_base.specs.Civil.{weekday_index};
ghost use Rattle.croncheck_shown.specs.Reported.{AreLinesFound};
ghost use Rattle.croncheck_output.specs.Front.{cut_at};
ghost use Rattle.croncheck_report.specs.Offsets.{offset_of};
ghost use Rattle.croncheck_shown.specs.Shown.{weekday_text, IsClockText, IsClockTextIn, english_weekday, swedish_weekday, is_told, place_text, IsWindowEnd};

mod below;
mod changes;
pub mod found;
mod often;
mod other_clock;
pub mod pattern;
mod previous;
pub mod runs;

use crate::shown::changes::push_next_changes;
use below::text_below;
use croncheck_findings::findings::findings_of;
use croncheck_output::front::{COMMAND_BYTES, cut_at, push_front, push_left_out, push_spaced};
use croncheck_output::look::Look;
use croncheck_report::location::Location;
use croncheck_report::report::{JobReport, Report};
use croncheck_report::settings::Tongue;
use croncheck_report::shared::{Shared, ahead_of};
use croncheck_runs::clock::stop::Stop;
use croner::time::table::TableTime;
use croner::time::{CivilDateTime, CronDateTime, Weekday};
use cronplan_forms::Ahead;
use crontab::bytes::{Kind, cut};
use runs::push_told;
use std::alloc::{AllocError, Global};
use std::fmt;
use unicode_width::UnicodeWidthStr;

/// How many bytes of a line are shown at most.
const SHOWN_BYTES: usize = 72;

/// How many of these stand in front of a fault, where the line begins before them.
const BYTES_BEFORE: usize = 24;

/// The bytes of the marks of something left out, in front of what is shown and after it.
const BOTH_LEFT_OUT: usize = 4;

/// How many bytes of a line with a fault are shown at least, however narrow the lines are.
const LEAST_SHOWN: usize = 40;

/// The text of the report of a line: whole lines, or nothing where there is nothing to tell. All that is found of the line
/// stands last.
///
/// The line is given without its line feed. The only error is lack of memory.
pub fn report_text(
    alloc: Global,
    look: Look,
    shared: &Shared<'_>,
    place: Location<'_>,
    line: &[u8],
    report: &Report<'_, '_>,
) -> Result<String, AllocError>
    ensures silent { is_told report.now ≡ false → IfOk result (λ text. string_bytes text ≡ []) }
    ensures told { is_told report.now ≡ true → IfOk result (λ text. AreLinesFound look place.entry.file.now place.entry.line line.now report.now (string_bytes text)) }
{
    if is_told(report) {
        told_text(alloc, look, shared, place, line, report)
    } else {
        Ok(String::new(alloc))
    }
}

#[tactic(auto, using(crate::proofs::Found::lines_found))]
fn told_text(
    alloc: Global,
    look: Look,
    shared: &Shared<'_>,
    place: Location<'_>,
    line: &[u8],
    report: &Report<'_, '_>,
) -> Result<String, AllocError>
    ensures { IfOk result (λ text. AreLinesFound look place.entry.file.now place.entry.line line.now report.now (string_bytes text)) }
{
    let found = findings_of(alloc, line, report)?;
    let place = text_of_place(alloc, place)?;
    let mut head = String::new(alloc);
    let column = place.as_str().width();
    push_report(alloc, look, &mut head, shared, column, line, report)?;
    let below = text_below(alloc, look, found.as_slice())?;
    format!(in alloc; "{place}{head}{below}\n")
}

// The place of a line, as its report begins.
fn text_of_place(alloc: Global, place: Location<'_>) -> Result<String, AllocError>
    ensures { IfOk result (λ text. string_bytes text ≡ place_text place.entry.file.now place.entry.line) }
{
    let (file, line) = (place.file, place.line);
    format!(in alloc; "{file}:{line}  ")
}

// Whether there is something to tell of a line.
fn is_told(report: &Report<'_, '_>) -> bool
    ensures { result ≡ is_told report.now }
{
    match report {
        Report::Silent => false,
        Report::Misnamed(_) => true,
        Report::Setting { setting, .. } => setting.is_found(),
        Report::Job(_) | Report::Refused { .. } => true,
    }
}

// Puts what is told of a line into an empty text, but for what is found of it, and without the last line feed. It stands so
// many columns to the right.
fn push_report(
    alloc: Global,
    look: Look,
    text: &mut String,
    shared: &Shared<'_>,
    column: usize,
    line: &[u8],
    report: &Report<'_, '_>,
) -> Result<(), AllocError> {
    match report {
        Report::Silent => Ok(()),
        Report::Misnamed(_) | Report::Setting { .. } => push_setting(text, line),
        Report::Job(job) => push_job(alloc, text, shared, job),
        Report::Refused { start, end, .. } => {
            push_view(text, View::of(look, column, line, *start, *end), column)
        }
    }
}

fn push_setting(text: &mut String, line: &[u8]) -> Result<(), AllocError> {
    let (_, setting) = cut(line, Kind::Blank);
    push_front(text, setting, SHOWN_BYTES)
}

// ---- a fault and its place

// What is shown of a line: the bytes in front of a fault, those at fault, and those after them.
#[derive(Clone, Copy)]
struct View<'l> {
    is_begun: bool,
    front: &'l [u8],
    piece: &'l [u8],
    rest: &'l [u8],
    is_cut: bool,
}

impl<'l> View<'l> {
    // What is shown of a line around a fault. It stands so many columns to the right.
    fn of(look: Look, column: usize, line: &'l [u8], start: usize, end: usize) -> View<'l> {
        let most = shown_bytes(look, column);
        let (front, from) = line.split_at(start.min(line.len()));
        let (piece, rest) = from.split_at(end.saturating_sub(start).min(from.len()));
        let (_, front) = cut(front, Kind::Blank);
        let front_at = front_at(front, piece, most);
        let (_, front) = front.split_at(front_at);
        let left = most.saturating_sub(front.len());
        let (piece, cut_off) = piece.split_at(cut_at(piece, left));
        let left = left.saturating_sub(piece.len());
        let left = if cut_off.is_empty() { left } else { 0 };
        let (rest, after) = rest.split_at(cut_at(rest, left));
        View {
            is_begun: 0 < front_at,
            front,
            piece,
            rest,
            is_cut: !cut_off.is_empty() || !after.is_empty(),
        }
    }
}

// How many bytes of a line with a fault are shown at most: so many that the line isn't wider than the others, and its mark stands below it.
fn shown_bytes(look: Look, column: usize) -> usize {
    match look.width {
        Some(width) => {
            let room = width.saturating_sub(column).saturating_sub(BOTH_LEFT_OUT);
            room.max(LEAST_SHOWN).min(SHOWN_BYTES)
        }
        None => SHOWN_BYTES,
    }
}

// From where on the bytes in front of a fault are shown.
fn front_at(front: &[u8], piece: &[u8], most: usize) -> usize
    ensures { result ≤ length front.now }
{
    if front.len().saturating_add(piece.len()) <= most || front.len() <= BYTES_BEFORE {
        return 0;
    }
    cut_at(front, front.len().saturating_sub(BYTES_BEFORE))
}

// Puts the line of a fault into an empty text, and below it marks at its place. The text stands so many columns to the right.
fn push_view(text: &mut String, view: View<'_>, column: usize) -> Result<(), AllocError> {
    push_left_out(text, view.is_begun)?;
    push_spaced(text, view.front)?;
    let front = text.as_str().width();
    push_spaced(text, view.piece)?;
    let marks = text.as_str().width().saturating_sub(front).max(1);
    let indent = column.saturating_add(front);
    push_spaced(text, view.rest)?;
    push_left_out(text, view.is_cut)?;
    text.push('\n')?;
    push_repeated(text, ' ', indent)?;
    push_repeated(text, '^', marks)
}

fn push_repeated(text: &mut String, c: char, count: usize) -> Result<(), AllocError> {
    for _turn in 0..count {
        text.push(c)?;
    }
    Ok(())
}

// ---- a job and its runs

fn push_job(
    alloc: Global,
    text: &mut String,
    shared: &Shared<'_>,
    job: &JobReport<'_, '_>,
) -> Result<(), AllocError> {
    push_head(text, job)?;
    push_told(alloc, text, shared, job)?;
    push_next_changes(text, job)
}

// The times of a job, its user and its command.
fn push_head(text: &mut String, job: &JobReport<'_, '_>) -> Result<(), AllocError> {
    push_front(text, job.schedule, SHOWN_BYTES)?;
    if let Some(user) = job.user {
        text.push_str("  (")?;
        push_front(text, user, COMMAND_BYTES)?;
        text.push(')')?;
    }
    if let Some(command) = job.command {
        push_command(text, command)?;
    }
    Ok(())
}

fn push_command(text: &mut String, command: &[u8]) -> Result<(), AllocError> {
    let (_, command) = cut(command, Kind::Blank);
    if command.is_empty() {
        return Ok(());
    }
    text.push_str("  ")?;
    push_front(text, command, COMMAND_BYTES)
}

/// Appends to a text what the zone's clock shows at a run, and the run's second. The weekday is in English. The only error is lack of
/// memory.
pub fn push_clock(
    text: &mut String,
    shared: &Shared<'_>,
    run: &TableTime<'_>,
) -> Result<(), AllocError>
    ensures { OnOk result ((said : List ℕ) × IsClockText (plain_zone shared.now.zone) run.now said
        × (string_bytes text.new ≡ string_bytes text.old ++ said)) }
{
    push_clock_in(Tongue::English, text, shared, run)
}

// The same, with the weekday in this language.
fn push_clock_in(
    language: Tongue,
    text: &mut String,
    shared: &Shared<'_>,
    run: &TableTime<'_>,
) -> Result<(), AllocError>
    ensures { OnOk result ((said : List ℕ) × IsClockTextIn language (plain_zone shared.now.zone) run.now said
        × (string_bytes text.new ≡ string_bytes text.old ++ said)) }
{
    let shown = ShownSecond {
        weekday: weekday_text(language, run.civil_weekday()),
        civil: run.to_civil(),
        ahead: ahead_at(shared, run),
        second: run.second(),
    };
    write!(text, "{shown}")
}

// What a zone's clock shows at a second, and the second.
#[derive(Clone, Copy)]
struct ShownSecond {
    weekday: &'static str,
    civil: CivilDateTime,
    ahead: Ahead,
    second: i64,
}

impl fmt::Display for ShownSecond {
    ghost use Rattle.std.specs.Prelude.{Some};
    ghost use Rattle.croncheck_shown.specs.Shown.{clock_text};

    ghost output = { λ s. Some (clock_text s.weekday.now s.civil s.ahead.seconds s.second) };

    fn fmt<W: fmt::Write>(&self, f: &mut fmt::Formatter<W>) -> fmt::Result {
        let (weekday, date, time) = (self.weekday, self.civil.date(), self.civil.time());
        let (ahead, second) = (self.ahead, self.second);
        write!(f, "{weekday} {date} {time} {ahead}  @{second}")
    }
}

fn weekday_text(language: Tongue, weekday: Weekday) -> &'static str
    ensures { result.now ≡ weekday_text language (weekday_index weekday) }
{
    match language {
        Tongue::English => english_weekday(weekday),
        Tongue::Swedish => swedish_weekday(weekday),
    }
}

fn english_weekday(weekday: Weekday) -> &'static str
    ensures { result.now ≡ english_weekday (weekday_index weekday) }
{
    match weekday {
        Weekday::Sunday => "Sun",
        Weekday::Monday => "Mon",
        Weekday::Tuesday => "Tue",
        Weekday::Wednesday => "Wed",
        Weekday::Thursday => "Thu",
        Weekday::Friday => "Fri",
        Weekday::Saturday => "Sat",
    }
}

fn swedish_weekday(weekday: Weekday) -> &'static str
    ensures { result.now ≡ swedish_weekday (weekday_index weekday) }
{
    match weekday {
        Weekday::Sunday => "sön",
        Weekday::Monday => "mån",
        Weekday::Tuesday => "tis",
        Weekday::Wednesday => "ons",
        Weekday::Thursday => "tor",
        Weekday::Friday => "fre",
        Weekday::Saturday => "lör",
    }
}

// How far the zone's clock is ahead of UTC at a run, as it is shown.
fn ahead_at(shared: &Shared<'_>, run: &TableTime<'_>) -> Ahead
    ensures { result.seconds ≡ offset_of (plain_zone shared.now.zone) run.now.second }
{
    Ahead {
        seconds: i64::from(ahead_of(shared, run)),
    }
}

/// What is said of a listing that ends where the clock's window does. The only error is lack of memory.
pub fn window_end(alloc: Global, shared: &Shared<'_>) -> Result<String, AllocError>
    ensures { IfOk result (λ text. IsWindowEnd shared.now.stop (string_bytes text)) }
{
    match shared.stop {
        Some(stop) => window_end_at(alloc, stop),
        None => String::from_str(
            alloc,
            "and maybe more: the zone's clock is not followed any further",
        ),
    }
}

fn window_end_at(alloc: Global, stop: Stop) -> Result<String, AllocError>
    ensures { IfOk result (λ text. (words : List ℕ)
        × (string_bytes text ≡ codes "and maybe more: the zone's clock is not followed over " ++ words)) }
{
    let words = format!(in alloc; "{stop}")?;
    format!(in alloc; "and maybe more: the zone's clock is not followed over {words}")
}
