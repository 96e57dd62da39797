//! The windows of a span in which nothing starts.
ghost use Rattle.std.specs.Prelude.{◌≡◌, ◌≤ℤ◌, IfOk, OnOk, ◌++◌};
ghost use Rattle.std.specs.List.{All};
ghost use Rattle.std.specs.List.Sorted.{IsSorted};
ghost use Rattle.cronplan.specs.Starts.{start_cmp};
ghost use Rattle.cronplan.specs.Windows.{AreWindows, seconds_in};
ghost use Rattle.cronplan.specs.Private.Gaps.{edge_of, gaps, gap, is_long};

use crate::span::Span;
use crate::start::JobStart;
use std::alloc::{AllocError, Global};

/// What bounds a window on one side.
#[derive(Debug, Clone, Copy)]
pub enum Bound {
    /// There is a start at this second.
    Start,
    /// The span begins or ends there, so the window may be longer.
    Span,
}

/// A side of a window.
#[derive(Debug, Clone, Copy)]
pub struct Edge {
    /// The second, counted from 1970-01-01T00:00:00 UTC.
    pub second: i64,
    pub bound: Bound,
}

/// A window of a span: no start lies between its two sides. Where it begins with the span, none lies at the span's first second either.
#[derive(Debug, Clone, Copy)]
pub struct Window {
    /// Where it begins: at a start, or with the span.
    pub from: Edge,
    /// Where it ends: at the next start, or with the span.
    pub until: Edge,
}

impl Window {
    /// How many seconds it is from one side to the other. The second of the first side is counted, and that of the second side isn't.
    pub fn seconds(&self) -> u64
        ensures { result ≡ seconds_in self.now }
    {
        self.from.second.abs_diff(self.until.second)
    }
}

/// The windows of a span between these starts that have at least `least` seconds, in order.
pub(crate) fn windows_between(
    alloc: Global,
    starts: &[JobStart],
    span: Span,
    least: u64,
) -> Result<Vec<Window>, AllocError>
    requires order { IsSorted start_cmp starts.now }
    requires within { All (λ s. span.first ≤ℤ s.second) starts.now }
    ensures { IfOk result (λ windows. AreWindows starts.now span least windows.items) }
{
    let first = Edge {
        second: span.first,
        bound: Bound::Span,
    };
    let end = Edge {
        second: span.end,
        bound: Bound::Span,
    };
    gaps_between(alloc, starts, first, end, least)
}

// The windows from one side to another between these starts that have at least `least` seconds, in order.
#[tactic(auto, using(crate::proofs::GapWindows::gaps_step))]
fn gaps_between(
    alloc: Global,
    starts: &[JobStart],
    first: Edge,
    end: Edge,
    least: u64,
) -> Result<Vec<Window>, AllocError>
    ensures { IfOk result (λ windows. windows.items ≡ gaps least end first starts.now) }
{
    let mut windows = Vec::new(alloc);
    let mut from = first;
    for start in starts {
        let until = edge_of(*start);
        push_gap(&mut windows, Window { from, until }, least)?;
        from = until;
    }
    push_gap(&mut windows, Window { from, until: end }, least)?;
    Ok(windows)
}

// A start as the side of a window.
fn edge_of(start: JobStart) -> Edge
    ensures { result ≡ edge_of start }
{
    Edge {
        second: start.second,
        bound: Bound::Start,
    }
}

// Appends a window to the others, if it is long enough.
fn push_gap(windows: &mut Vec<Window>, window: Window, least: u64) -> Result<(), AllocError>
    ensures { OnOk result (windows.new.items ≡ windows.old.items ++ gap least window) }
{
    if is_long(window, least) {
        windows.push(window)?;
    }
    Ok(())
}

// Whether a window has a second at all, and at least so many.
fn is_long(window: Window, least: u64) -> bool
    ensures { result ≡ is_long least window }
{
    window.from.second < window.until.second && window.seconds() >= least
}
