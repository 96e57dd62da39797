//! When nothing starts.
ghost use Rattle.std.specs.Prelude.{◌≡◌, ◌++◌, IfOk, List, OnOk, map, string_bytes};
ghost use Rattle.std.specs.List.{All};
ghost use Rattle.croner_base.specs.TableZone.{table_zone};
ghost use Rattle.cronplan_forms.specs.Answers.{IsShownWindow, is_at_edge, is_edge, window_line, no_window, shows_all, some_windows, quiet_head};
ghost use Rattle.cronplan_forms.specs.WindowRuns.{AreTold, quiet_text};

use crate::answers::runs::{push_runs, told_windows, window_runs};
use crate::answers::silence::Silence;
use crate::clock::ClockTime;
use crate::lasting::Lasting;
use crate::view::View;
use croner_base::time::table::ClockTable;
use cronplan::{Bound, Window};
use std::alloc::{AllocError, Global};
use std::fmt;

/// A window of a plan, and what the clock shows at its two sides.
#[derive(Clone, Copy)]
pub struct ShownWindow {
    pub window: Window,
    pub from: ClockTime,
    pub until: ClockTime,
}

/// The windows of a plan of at least `least` seconds in which nothing starts, but for the jobs that are left out: the longest first, of equal
/// ones the one that begins earlier in the day, then the earlier. A line says from when to when a window is, and how long. If the plan begins
/// or ends with it, `or longer` follows.
///
/// Windows that come again from day to day stand in one line: at the same times of the clock on dates that follow each other, as long, and
/// as far ahead of UTC. The line says on which dates the windows begin, and if they end on the next day, it says that too. A window that
/// may be longer, or in which the clock is put forward or back, stands by itself.
///
/// The only error is lack of memory.
pub fn quiet_text(alloc: Global, view: View<'_>, least: u64) -> Result<String, AllocError>
    ensures { IfOk result (λ t. (told : List ShownWindow) × AreTold (table_zone view.entry.table.now) view.entry.plan.now least told × (string_bytes t ≡ quiet_text (shows_all view.entry) least told)) }
{
    let told = told_windows(alloc, view, least)?;
    let silence = Silence {
        is_whole: view.shows_all(),
    };
    text_of_windows(alloc, told.as_slice(), silence, least)
}

/// What the clock of a table shows at the sides of windows. The only error is lack of memory.
pub(crate) fn shown_windows(
    alloc: Global,
    table: &ClockTable,
    windows: &[Window],
) -> Result<Vec<ShownWindow>, AllocError>
    ensures windows { IfOk result (λ shown. map (λ s. s.window) shown.items ≡ windows.now) }
    ensures shown { IfOk result (λ shown. All (IsShownWindow (table_zone table.now)) shown.items) }
{
    let mut shown = Vec::new(alloc);
    for window in windows {
        shown.push(shown_window(table, *window))?;
    }
    Ok(shown)
}

fn shown_window(table: &ClockTable, window: Window) -> ShownWindow
    ensures window { result.window ≡ window }
    ensures shown { IsShownWindow (table_zone table.now) result }
{
    ShownWindow {
        window,
        from: ClockTime::shown_at(table, window.from.second),
        until: ClockTime::shown_at(table, window.until.second),
    }
}

fn text_of_windows(
    alloc: Global,
    windows: &[ShownWindow],
    silence: Silence,
    least: u64,
) -> Result<String, AllocError>
    ensures { IfOk result (λ t. string_bytes t ≡ quiet_text silence.is_whole least windows.now) }
{
    let runs = window_runs(alloc, windows)?;
    let mut text = String::new(alloc);
    push_head(&mut text, windows.is_empty(), silence, least)?;
    push_runs(&mut text, runs.as_slice())?;
    Ok(text)
}

// The line before the windows, or the one that says there is none.
fn push_head(
    text: &mut String,
    is_empty: bool,
    silence: Silence,
    least: u64,
) -> Result<(), AllocError>
    ensures { OnOk result (string_bytes text.new ≡ string_bytes text.old ++ quiet_head is_empty silence.is_whole least) }
{
    if is_empty {
        return push_none(text, silence, least);
    }
    push_some(text, silence, least)
}

#[tactic(auto, unfolding(crate::specs::Answers::no_window))]
fn push_none(text: &mut String, silence: Silence, least: u64) -> Result<(), AllocError>
    ensures { OnOk result (string_bytes text.new ≡ string_bytes text.old ++ no_window silence.is_whole least) }
{
    let length = Lasting { seconds: least };
    write!(text, "no window of {length} or longer in which {silence}\n")
}

#[tactic(auto, unfolding(crate::specs::Answers::some_windows))]
fn push_some(text: &mut String, silence: Silence, least: u64) -> Result<(), AllocError>
    ensures { OnOk result (string_bytes text.new ≡ string_bytes text.old ++ some_windows silence.is_whole least) }
{
    let length = Lasting { seconds: least };
    write!(text, "windows of {length} or longer in which {silence}:\n")
}

#[tactic(auto, unfolding(crate::specs::Answers::window_line))]
pub(crate) fn push_window(text: &mut String, window: ShownWindow) -> Result<(), AllocError>
    ensures { OnOk result (string_bytes text.new ≡ string_bytes text.old ++ window_line window) }
{
    write!(text, "  {window}\n")
}

impl fmt::Display for ShownWindow {
    ghost use Rattle.std.specs.Prelude.{Some};
    ghost use Rattle.cronplan_forms.specs.Answers.{window_text};

    ghost output = { λ w. Some (window_text w) };

    fn fmt<W: fmt::Write>(&self, f: &mut fmt::Formatter<W>) -> fmt::Result {
        let (from, until) = (self.from, self.until);
        let length = Lasting {
            seconds: self.window.seconds(),
        };
        if is_at_edge(&self.window) {
            return write!(f, "{from} to {until}  {length} or longer");
        }
        write!(f, "{from} to {until}  {length}")
    }
}

/// Whether a window may be longer than the plan has it.
pub fn is_at_edge(window: &Window) -> bool
    ensures { result ≡ is_at_edge window.now }
{
    is_edge(window.from.bound) || is_edge(window.until.bound)
}

fn is_edge(bound: Bound) -> bool
    ensures { result ≡ is_edge bound }
{
    match bound {
        Bound::Start => false,
        Bound::Span => true,
    }
}
