//! The dates of a plan, hour by hour.
ghost use Rattle.std.specs.Prelude.{◌≡◌, ◌≤◌, ◌≤ℤ◌, ℤ, pos, neg_ℤ, ◌+ℤ◌, ◌*ℤ◌, ◌^◌, List, length, IfOk};
ghost use Rattle.std.specs.List.Sorted.{IsSorted};
ghost use Rattle.croner_base.specs.TableZone.{table_zone};
ghost use Rattle.cronplan.specs.Changes.{changes_in};
ghost use Rattle.cronplan.specs.Counts.{date_of, starts_at};
ghost use Rattle.cronplan.specs.Starts.{start_cmp};
ghost use Rattle.cronplan.specs.Days.{AreDays, AreShownDays, AreHours, IsDay, cell_of, fuller_moment, fullest_on, first_date, last_date, dates_between, shown_hours, shown_at_ends, widened_hours, first_with, last_with, is_outside};
ghost use Rattle.cronplan.specs.Private.CountedPlan.{IsCounted, AreRows, IsDateNumber};
ghost use Rattle.cronplan.specs.declared.start.JobStart.{JobStart};

use crate::changes::{ClockChange, changes_in, repeats_hour, skips_hour, wall_at};
use crate::counts::{Unit, counts_by, date_of, hour_of};
use crate::moments::{Moment, moments_of};
use crate::other_clock::shown_starts;
use crate::plan::Plan;
use crate::span::Span;
use crate::start::JobStart;
use croner_base::time::table::ClockTable;
use std::alloc::{AllocError, Global};
use std::collections::BTreeMap;

/// The hours of a day.
const HOURS_PER_DAY: i64 = 24;

/// An hour of a date of a clock, in a plan.
#[derive(Debug, Clone, Copy)]
pub struct HourCell {
    /// How many starts there are in it; for an hour that the clock shows twice, those of both.
    pub starts: u64,
    /// Whether the clock skips the whole of it.
    pub skipped: bool,
    /// Whether the clock shows a second of it twice.
    pub repeated: bool,
    /// Whether it lies before the first hour that the clock shows in the plan's span, or after the last: nothing is known of it.
    pub outside: bool,
}

/// A date of a clock, in a plan.
#[derive(Debug, Drop)]
pub struct Day {
    /// The date, counted from 1970-01-01.
    pub date: i64,
    /// Its 24 hours, from 0 on.
    pub hours: Vec<HourCell>,
    /// How many starts there are on it.
    pub starts: u64,
    /// The moment on it with the most starts, and of equal ones the first. `None` where it has no start.
    pub fullest: Option<Moment>,
}

/// The dates that a clock shows in a plan, and its changes there.
#[derive(Debug, Drop)]
pub struct Days {
    /// The dates in order, none left out: from the one at the first second of the span to the one at its last. If the clock is put back
    /// across midnight, a start may lie on an earlier or a later date; then they reach to that one.
    pub days: Vec<Day>,
    /// The changes of the clock in the span, in order.
    pub changes: Vec<ClockChange>,
}

// The hours that a clock shows in a span, counted from 1970-01-01T00: from the least to the greatest.
#[derive(Clone, Copy)]
struct ShownHours {
    first: i64,
    last: i64,
}

// What the cells of a plan are made of.
#[derive(Drop)]
struct Counted {
    by_hour: BTreeMap<i64, u64>,
    by_day: BTreeMap<i64, u64>,
    moments: Vec<Moment>,
    changes: Vec<ClockChange>,
    shown: ShownHours,
}

impl Plan {
    /// The dates of the plan on the clock of a table, hour by hour. Each start of the plan lies in one cell: that of the hour which this
    /// clock shows then, whatever clock the plan is on.
    ///
    /// The only error is lack of memory.
    #[tactic(auto, using(crate::proofs::OtherClocks::shown_in_order, crate::proofs::OtherClocks::shown_as_many))]
    pub fn days(&self, alloc: Global, table: &ClockTable) -> Result<Days, AllocError>
        ensures { IfOk result (λ days. AreDays (table_zone table.now) table.now.changes.items self.now.span self.now.starts.items days.days.items days.changes.items) }
    {
        let starts = shown_starts(alloc, self.starts.as_slice(), table)?;
        days_of(alloc, starts.as_slice(), self.span, table)
    }
}

// The dates of starts in a span, on the clock of a table, which shows their walls.
fn days_of(
    alloc: Global,
    starts: &[JobStart],
    span: Span,
    table: &ClockTable,
) -> Result<Days, AllocError>
    requires order { IsSorted start_cmp starts.now }
    requires few { length starts.now ≤ 2 ^ 31 }
    ensures { IfOk result (λ days. AreShownDays (table_zone table.now) table.now.changes.items span starts.now days.days.items days.changes.items) }
{
    let counted = counts_of(alloc, starts, span, table)?;
    let first = first_date(table, span, starts);
    let last = last_date(table, span, starts);
    let days = days_between(alloc, &counted, first, last)?;
    Ok(Days {
        days,
        changes: counted.changes,
    })
}

// What the cells of starts in a span are made of, on the clock of a table.
fn counts_of(
    alloc: Global,
    starts: &[JobStart],
    span: Span,
    table: &ClockTable,
) -> Result<Counted, AllocError>
    requires order { IsSorted start_cmp starts.now }
    requires few { length starts.now ≤ 2 ^ 31 }
    ensures counted { IfOk result (IsCounted starts.now) }
    ensures changes { IfOk result (λ counted. counted.changes.items ≡ changes_in (table_zone table.now) span table.now.changes.items) }
    ensures shown { IfOk result (λ counted. counted.shown ≡ shown_hours (table_zone table.now) span counted.changes.items) }
{
    let by_hour = counts_by(alloc, starts, Unit::Hour)?;
    let by_day = counts_by(alloc, starts, Unit::Day)?;
    let moments = moments_of(alloc, starts)?;
    let changes = changes_in(alloc, table, span)?;
    let shown = shown_hours(table, span, changes.as_slice());
    Ok(Counted {
        by_hour,
        by_day,
        moments,
        changes,
        shown,
    })
}

// The hours that the clock of a table shows in a span, in which it has these changes.
fn shown_hours(table: &ClockTable, span: Span, changes: &[ClockChange]) -> ShownHours
    ensures { result ≡ shown_hours (table_zone table.now) span changes.now }
{
    let mut shown = shown_at_ends(table, span);
    for change in changes {
        shown = widened_hours(span, shown, *change);
    }
    shown
}

// The hours that the clock shows at the first and the last second of a span.
fn shown_at_ends(table: &ClockTable, span: Span) -> ShownHours
    ensures { result ≡ shown_at_ends (table_zone table.now) span }
{
    ShownHours {
        first: hour_of(wall_at(table, span.first)),
        last: hour_of(wall_at(table, span.last())),
    }
}

// These hours, widened by the ones from which and to which a change in the span puts the clock.
fn widened_hours(span: Span, shown: ShownHours, change: ClockChange) -> ShownHours
    ensures { result ≡ widened_hours span shown change }
{
    ShownHours {
        first: first_with(shown, change),
        last: last_with(span, shown, change),
    }
}

// The least of these hours, and of that to which a change puts the clock.
fn first_with(shown: ShownHours, change: ClockChange) -> i64
    ensures { result ≡ first_with shown change }
{
    let hour = hour_of(change.shown);
    if hour < shown.first {
        return hour;
    }
    shown.first
}

// The greatest of these hours, and of that from which a change puts the clock, if the span has the second before it.
fn last_with(span: Span, shown: ShownHours, change: ClockChange) -> i64
    ensures { result ≡ last_with span shown change }
{
    let hour = hour_of(change.before);
    if span.first < change.second && shown.last < hour {
        return hour;
    }
    shown.last
}

/// The first date of a plan: the one that the clock shows at the first second of the span, or that of a start, if one lies before it.
pub(crate) fn first_date(table: &ClockTable, span: Span, starts: &[JobStart]) -> i64
    ensures date { result ≡ first_date (table_zone table.now) span starts.now }
    ensures bound { IsDateNumber result }
{
    let mut first = date_of(wall_at(table, span.first));
    for start in starts {
        first = first.min(date_on(start));
    }
    first
}

/// The last date of a plan: the one that the clock shows at the last second of the span, or that of a start, if one lies after it.
pub(crate) fn last_date(table: &ClockTable, span: Span, starts: &[JobStart]) -> i64
    ensures date { result ≡ last_date (table_zone table.now) span starts.now }
    ensures bound { IsDateNumber result }
{
    let mut last = date_of(wall_at(table, span.last()));
    for start in starts {
        last = last.max(date_on(start));
    }
    last
}

// The date that the clock shows at a start.
fn date_on(start: &JobStart) -> i64
    ensures date { result ≡ date_of start.now.wall }
    ensures bound { IsDateNumber result }
{
    date_of(start.wall)
}

/// How many dates there are from one to another.
pub(crate) fn date_count(first: i64, last: i64) -> u64
    requires first { IsDateNumber first }
    requires last { IsDateNumber last }
    ensures { result ≡ dates_between first last }
{
    if last < first {
        return 0;
    }
    first.abs_diff(last) + 1
}

// The dates from one to another.
fn days_between(
    alloc: Global,
    counted: &Counted,
    first: i64,
    last: i64,
) -> Result<Vec<Day>, AllocError>
    requires first { IsDateNumber first }
    requires last { IsDateNumber last }
    ensures { (starts : List JobStart) → IsCounted starts counted.now → IfOk result (λ days. AreRows starts counted.now first (dates_between first last) days.items) }
{
    let mut days = Vec::new(alloc);
    for place in 0..date_count(first, last) {
        let day = day_on(alloc, counted, first + place as i64)?;
        days.push(day)?;
    }
    Ok(days)
}

// A date.
fn day_on(alloc: Global, counted: &Counted, date: i64) -> Result<Day, AllocError>
    requires { IsDateNumber date }
    ensures { (starts : List JobStart) → IsCounted starts counted.now → IfOk result (λ day. IsDay starts counted.now.moments.items counted.now.changes.items counted.now.shown date day) }
{
    let hours = hours_on(alloc, counted, date)?;
    let starts = starts_on(counted, date);
    let fullest = fullest_on(counted.moments.as_slice(), date);
    Ok(Day {
        date,
        hours,
        starts,
        fullest,
    })
}

// How many starts there are on a date.
fn starts_on(counted: &Counted, date: i64) -> u64
    ensures { (starts : List JobStart) → IsCounted starts counted.now → result ≡ starts_at Unit.Day date starts }
{
    counted.by_day.get(&date).copied().unwrap_or(0)
}

// The hours of a date.
fn hours_on(alloc: Global, counted: &Counted, date: i64) -> Result<Vec<HourCell>, AllocError>
    requires { IsDateNumber date }
    ensures { (starts : List JobStart) → IsCounted starts counted.now → IfOk result (λ cells. AreHours starts counted.now.changes.items counted.now.shown date cells.items) }
{
    let mut cells = Vec::new(alloc);
    for hour in 0..HOURS_PER_DAY {
        cells.push(cell_at(counted, date * HOURS_PER_DAY + hour))?;
    }
    Ok(cells)
}

// An hour.
fn cell_at(counted: &Counted, hour: i64) -> HourCell
    ensures { (starts : List JobStart) → IsCounted starts counted.now → result ≡ cell_of starts counted.now.changes.items counted.now.shown hour }
{
    let changes = counted.changes.as_slice();
    HourCell {
        starts: counted.by_hour.get(&hour).copied().unwrap_or(0),
        skipped: skips_hour(changes, hour),
        repeated: repeats_hour(changes, hour),
        outside: is_outside(counted.shown, hour),
    }
}

// Whether an hour lies before or after these.
fn is_outside(shown: ShownHours, hour: i64) -> bool
    ensures { result ≡ is_outside shown hour }
{
    hour < shown.first || shown.last < hour
}

// Of moments in order, the one on a date with the most starts, and of equal ones the first.
fn fullest_on(moments: &[Moment], date: i64) -> Option<Moment>
    ensures { result ≡ fullest_on date moments.now }
{
    let mut fullest = None;
    for moment in moments {
        fullest = fuller_moment(fullest, *moment, date);
    }
    fullest
}

// A moment in place of another, if it lies on a date and has more starts.
fn fuller_moment(fullest: Option<Moment>, moment: Moment, date: i64) -> Option<Moment>
    ensures { result ≡ fuller_moment date fullest moment }
{
    if date_of(moment.wall) != date {
        return fullest;
    }
    match fullest {
        Some(other) if moment.starts <= other.starts => fullest,
        Some(_) | None => Some(moment),
    }
}
