//! Quiet windows that come again from day to day, in one line.
ghost use Rattle.std.specs.List.{All};
ghost use Rattle.std.specs.Ordering.{int_eq};
ghost use Rattle.std.specs.Prelude.{◌≡◌, ◌++◌, ◌<◌, ◌≤◌, ◌+ℤ◌, pos, suc, IfOk, OnOk, length, map, take, option_copied, string_bytes};
ghost use Rattle.croner_base.specs.TableZone.{table_zone};
ghost use Rattle.cronplan_forms.specs.WindowRuns.{AreTold, IsRun, comes_again, days_line, ends_next_day, ends_on_date, day_text, is_day_later, is_next_date, is_regular, line_to, longest_head, longest_text, most_longest, run_line, run_lines, shown_date, shown_second, some_longest, window_runs};
ghost use Rattle.cronplan_forms.specs.Private.Steps.{goes_on, run_steps};

use crate::answers::quiet::{ShownWindow, is_at_edge, push_window, shown_windows};
use crate::answers::silence::Silence;
use crate::clock::{ClockTime, second_of_day, weekday_text};
use crate::date_name::date_of_wall;
use crate::lasting::Lasting;
use crate::view::View;
use std::alloc::{AllocError, Global};
use std::cmp::Reverse;
use std::fmt;

/// The seconds of the shortest window that is told below a picture.
pub(crate) const LEAST_LONGEST: u64 = 3_600;

/// The most lines that tell of the longest windows below a picture.
const MOST_LONGEST: usize = 5;

/// Windows that come again from day to day: each is the one before it, a day later.
#[derive(Clone, Copy)]
pub struct WindowRun<'w> {
    pub windows: &'w [ShownWindow],
}

/// The windows of a plan of at least `least` seconds in which nothing starts: the longest first, of equal ones the one that begins earlier in
/// the day, then the earlier. The only error is lack of memory.
pub(crate) fn told_windows(
    alloc: Global,
    view: View<'_>,
    least: u64,
) -> Result<Vec<ShownWindow>, AllocError>
    ensures { IfOk result (λ told. AreTold (table_zone view.entry.table.now) view.entry.plan.now least told.items) }
{
    let windows = view.plan.quiet_windows(alloc, least)?;
    let mut told = shown_windows(alloc, view.table, windows.as_slice())?;
    told.sort_unstable_by_key(|shown| {
        (
            Reverse(shown.window.seconds()),
            shown_second(shown.from),
            shown.window.from.second,
        )
    });
    Ok(told)
}

/// Windows in their order, cut into runs: a new run begins with each window that isn't the one before it, a day later. The only error is
/// lack of memory.
pub(crate) fn window_runs<'w>(
    alloc: Global,
    windows: &'w [ShownWindow],
) -> Result<Vec<WindowRun<'w>>, AllocError>
    ensures value { IfOk result (λ runs. map (λ r. r.windows.now) runs.items ≡ window_runs windows.now) }
    ensures each { IfOk result (λ runs. All IsRun (map (λ r. r.windows.now) runs.items)) }
{
    let mut runs = Vec::new(alloc);
    let mut rest = windows;
    while !rest.is_empty() {
        let (first, left) = rest.split_at(run_length(rest));
        runs.push(WindowRun { windows: first })?;
        rest = left;
    }
    Ok(runs)
}

// How many windows the first run of these has.
fn run_length(windows: &[ShownWindow]) -> usize
    requires { 0 < length windows.now }
    ensures value { result ≡ suc (run_steps windows.now) }
    ensures bound { result ≤ length windows.now }
{
    let mut count = 1;
    let mut rest = windows;
    while goes_on(rest) {
        count += 1;
        rest = rest.split_at(1).1;
    }
    count
}

// Whether the second of these is the first one a day later.
fn goes_on(windows: &[ShownWindow]) -> bool
    ensures { result ≡ goes_on windows.now }
{
    match windows {
        [window, next, ..] => comes_again(window, next),
        _ => false,
    }
}

// Whether the second window is the first one a day later.
fn comes_again(window: &ShownWindow, next: &ShownWindow) -> bool
    ensures { result ≡ comes_again window.now next.now }
{
    is_regular(window)
        && is_regular(next)
        && window.window.seconds() == next.window.seconds()
        && is_day_later(window.from, next.from)
        && is_day_later(window.until, next.until)
}

// Whether a window may stand in a line with others.
fn is_regular(window: &ShownWindow) -> bool
    ensures { result ≡ is_regular window.now }
{
    !is_at_edge(&window.window)
        && window.from.ahead.seconds == window.until.ahead.seconds
        && (ends_on_date(window) || ends_next_day(window))
}

fn ends_on_date(window: &ShownWindow) -> bool
    ensures { result ≡ ends_on_date window.now }
{
    shown_date(window.until) == shown_date(window.from)
}

fn ends_next_day(window: &ShownWindow) -> bool
    ensures { result ≡ ends_next_day window.now }
{
    is_next_date(window.from, window.until)
}

// Whether the clock shows the same time on the next date, and is as far ahead of UTC.
fn is_day_later(time: ClockTime, next: ClockTime) -> bool
    ensures { result ≡ is_day_later time next }
{
    shown_second(time) == shown_second(next)
        && time.ahead.seconds == next.ahead.seconds
        && is_next_date(time, next)
}

// Whether the clock shows the next date.
fn is_next_date(time: ClockTime, next: ClockTime) -> bool
    ensures { result ≡ is_next_date time next }
{
    is_next(shown_date(time), shown_date(next))
}

// Whether the second date follows the first one.
fn is_next(date: i64, next: i64) -> bool
    ensures { result ≡ int_eq next (date +ℤ pos 1) }
{
    i128::from(next) == i128::from(date) + 1
}

// The date that a clock shows, counted from 1970-01-01.
fn shown_date(time: ClockTime) -> i64
    ensures { result ≡ shown_date time }
{
    date_of_wall(time.civil.wall_second())
}

// The second of the day that a clock shows.
fn shown_second(time: ClockTime) -> u64
    ensures { result ≡ shown_second time }
{
    second_of_day(time.civil.wall_second())
}

/// Appends a line for each of these runs to a text. The only error is lack of memory; the text's end is then unspecified.
#[tactic(auto, using(crate::proofs::RunSteps::lines_step), unfolding(crate::specs::WindowRuns::run_lines))]
pub(crate) fn push_runs(text: &mut String, runs: &[WindowRun<'_>]) -> Result<(), AllocError>
    ensures { OnOk result (string_bytes text.new ≡ string_bytes text.old ++ run_lines (map (λ r. r.windows.now) runs.now)) }
{
    for run in runs {
        push_run(text, run.windows)?;
    }
    Ok(())
}

fn push_run(text: &mut String, windows: &[ShownWindow]) -> Result<(), AllocError>
    ensures { OnOk result (string_bytes text.new ≡ string_bytes text.old ++ run_line windows.now) }
{
    match windows {
        [] => Ok(()),
        [first, others @ ..] => push_first(text, *first, others.last()),
    }
}

// Appends a line for a run, given its first window, and the last one of the others if there are some.
fn push_first(
    text: &mut String,
    first: ShownWindow,
    last: Option<&ShownWindow>,
) -> Result<(), AllocError>
    ensures { OnOk result (string_bytes text.new ≡ string_bytes text.old ++ line_to first (option_copied last.entry)) }
{
    match last {
        Some(last) => push_days(text, first, *last),
        None => push_window(text, first),
    }
}

// Appends a line for windows that are as the first one on each date up to that of the last one.
#[tactic(auto, unfolding(crate::specs::WindowRuns::days_line))]
fn push_days(text: &mut String, first: ShownWindow, last: ShownWindow) -> Result<(), AllocError>
    ensures { OnOk result (string_bytes text.new ≡ string_bytes text.old ++ days_line first last) }
{
    let (from, to) = (
        ShownDate { time: first.from },
        ShownDate { time: last.from },
    );
    let times = DayTimes { window: first };
    write!(text, "  {from} to {to}, each day {times}\n")
}

// The date that a clock shows, with its weekday.
#[derive(Clone, Copy)]
struct ShownDate {
    time: ClockTime,
}

impl fmt::Display for ShownDate {
    ghost use Rattle.std.specs.Prelude.{Some};
    ghost use Rattle.cronplan_forms.specs.WindowRuns.{shown_date_text};

    ghost output = { λ d. Some (shown_date_text d.time) };

    fn fmt<W: fmt::Write>(&self, f: &mut fmt::Formatter<W>) -> fmt::Result {
        let (weekday, date) = (weekday_text(self.time.weekday), self.time.civil.date());
        write!(f, "{weekday} {date}")
    }
}

// From when to when a window is on its date, and how long.
#[derive(Clone, Copy)]
struct DayTimes {
    window: ShownWindow,
}

impl fmt::Display for DayTimes {
    ghost use Rattle.std.specs.Prelude.{Some};
    ghost use Rattle.cronplan_forms.specs.WindowRuns.{day_times_text};

    ghost output = { λ t. Some (day_times_text t.window) };

    fn fmt<W: fmt::Write>(&self, f: &mut fmt::Formatter<W>) -> fmt::Result {
        let (from, until) = (
            self.window.from.civil.time(),
            self.window.until.civil.time(),
        );
        let day = day_text(&self.window);
        let ahead = self.window.until.ahead;
        let length = Lasting {
            seconds: self.window.window.seconds(),
        };
        write!(f, "{from} to {day}{until} {ahead}  {length}")
    }
}

// What stands before the time at which a window ends.
fn day_text(window: &ShownWindow) -> &'static str
    ensures { result.now ≡ day_text window.now }
{
    if ends_on_date(window) {
        ""
    } else {
        "next day "
    }
}

/// Appends a line for each of the first of these runs to a text, at most `MOST_LONGEST`, with a heading in front of them; nothing if there
/// is no run. The only error is lack of memory; the text's end is then unspecified.
#[tactic(auto, using(crate::proofs::RunSteps::first_lines))]
pub(crate) fn push_longest(
    text: &mut String,
    runs: &[WindowRun<'_>],
    is_whole: bool,
) -> Result<(), AllocError>
    ensures { OnOk result (string_bytes text.new ≡ string_bytes text.old ++ longest_text is_whole (take most_longest (map (λ r. r.windows.now) runs.now))) }
{
    push_headed(text, first_runs(runs), Silence { is_whole })
}

#[tactic(auto, using(crate::proofs::RunSteps::some_lines, crate::proofs::RunSteps::no_line))]
fn push_headed(
    text: &mut String,
    runs: &[WindowRun<'_>],
    silence: Silence,
) -> Result<(), AllocError>
    ensures { OnOk result (string_bytes text.new ≡ string_bytes text.old ++ longest_text silence.is_whole (map (λ r. r.windows.now) runs.now)) }
{
    if runs.is_empty() {
        return Ok(());
    }
    push_some(text, runs, silence)
}

#[tactic(auto, unfolding(crate::specs::WindowRuns::some_longest))]
fn push_some(text: &mut String, runs: &[WindowRun<'_>], silence: Silence) -> Result<(), AllocError>
    ensures { OnOk result (string_bytes text.new ≡ string_bytes text.old ++ some_longest silence.is_whole (map (λ r. r.windows.now) runs.now)) }
{
    push_head(text, silence)?;
    push_runs(text, runs)
}

#[tactic(auto, unfolding(crate::specs::WindowRuns::longest_head))]
fn push_head(text: &mut String, silence: Silence) -> Result<(), AllocError>
    ensures { OnOk result (string_bytes text.new ≡ string_bytes text.old ++ longest_head silence.is_whole) }
{
    write!(text, "longest windows in which {silence}:\n")
}

// The first of these runs, as many as are told below a picture.
fn first_runs<'r, 'w>(runs: &'r [WindowRun<'w>]) -> &'r [WindowRun<'w>]
    ensures { result.now ≡ take most_longest runs.now }
{
    if runs.len() > MOST_LONGEST {
        return runs.split_at(MOST_LONGEST).0;
    }
    runs
}
