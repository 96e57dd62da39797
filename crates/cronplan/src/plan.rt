//! All starts of a plan in one list, and what can be asked of it.
ghost use Rattle.std.specs.Prelude.{◌≡◌, ◌≤◌, ◌≤ℤ◌, ℤ, IfOk, length, unwrap_or};
ghost use Rattle.std.specs.List.{All};
ghost use Rattle.std.specs.List.Sorted.{IsSorted, IsSortedByKey};
ghost use Rattle.std.specs.BTreeMap.{get};
ghost use Rattle.std.specs.Ordering.{nat_cmp, int_cmp};
ghost use Rattle.cronplan.specs.Counts.{starts_at, HasNoZero};
ghost use Rattle.cronplan.specs.Moments.{AreFullest};
ghost use Rattle.cronplan.specs.Starts.{start_cmp, second_at, earlier_of, IsMerged, Merges};
ghost use Rattle.cronplan.specs.Windows.{AreWindows, longest_cmp, seconds_in};

use crate::counts::{Unit, counts_by};
use crate::moments::{Moment, moments_of};
use crate::span::Span;
use crate::start::JobStart;
use crate::windows::{Window, windows_between};
use std::alloc::{AllocError, Global};
use std::cmp::Reverse;
use std::collections::BTreeMap;

/// The most starts that a plan keeps.
pub const MOST_STARTS: usize = 100_000;

/// The starts of jobs in a span, in order of their seconds, and at one second by the places of their jobs.
///
/// Where there are more than `MOST_STARTS`, the span is cut: it ends at the second of the first start too many. So all starts in the
/// span are kept, and counts and windows are those of the shorter span.
#[derive(Debug, Drop)]
pub struct Plan {
    pub span: Span,
    pub starts: Vec<JobStart>,
    ghost order: { IsSorted start_cmp starts.items },
    ghost within: { All (λ s. span.first ≤ℤ s.second) starts.items },
    ghost few: { length starts.items ≤ 100_000 },
}

impl Plan {
    /// The plan of these starts, which may come in any order, but none of them before the span. Starts at the span's end or later are
    /// left out. If there are more than `MOST_STARTS`, the span of the plan ends earlier.
    pub fn of_starts(span: Span, starts: Vec<JobStart>) -> Plan
        requires { All (λ s. span.first ≤ℤ s.second) starts.items }
        ensures { Merges starts.items span.first span.end result.starts.items result.span }
    {
        let (starts, span) = merge(starts, span);
        Plan { span, starts }
    }

    /// How many starts there are at each second, in each hour or on each day that has one. No count is 0.
    ///
    /// The only error is lack of memory.
    pub fn counts(&self, alloc: Global, unit: Unit) -> Result<BTreeMap<i64, u64>, AllocError>
        ensures counts { IfOk result (λ m. (q : ℤ) → unwrap_or (get int_cmp m q) 0 ≡ starts_at unit q self.now.starts.items) }
        ensures no_zero { IfOk result HasNoZero }
    {
        counts_by(alloc, self.starts.as_slice(), unit)
    }

    /// The windows of the span in which nothing starts for at least `least` seconds: the longest first, and of equal ones the earlier.
    ///
    /// The only error is lack of memory.
    pub fn quiet_windows(&self, alloc: Global, least: u64) -> Result<Vec<Window>, AllocError>
        ensures windows { IfOk result (λ w. AreWindows self.now.starts.items self.now.span least w.items) }
        ensures longest { IfOk result (λ w. IsSortedByKey seconds_in (λ a b. nat_cmp b a) w.items) }
        ensures order { IfOk result (λ w. IsSorted longest_cmp w.items) }
    {
        let mut windows = windows_between(alloc, self.starts.as_slice(), self.span, least)?;
        windows.sort_unstable_by_key(|window| (Reverse(window.seconds()), window.from.second));
        Ok(windows)
    }

    /// The fullest moments of the plan, at most `most`: the one with the most starts first, and of equal ones the earlier.
    ///
    /// A moment is a second at which a job starts. If the plan has fewer than `most`, all are given. The only error is lack of memory.
    pub fn fullest_moments(&self, alloc: Global, most: usize) -> Result<Vec<Moment>, AllocError>
        ensures { IfOk result (λ moments. AreFullest self.now.starts.items most moments.items) }
    {
        let mut moments = moments_of(alloc, self.starts.as_slice())?;
        moments.sort_unstable_by_key(|moment| (Reverse(moment.starts), moment.second));
        moments.truncate(most);
        Ok(moments)
    }
}

// The starts of a span in order, and the span. It ends at the second of the first start too many, if there is one.
fn merge(mut starts: Vec<JobStart>, span: Span) -> (Vec<JobStart>, Span)
    requires { All (λ s. span.first ≤ℤ s.second) starts.items }
    ensures starts { Merges starts.items span.first span.end result.0.items result.1 }
    ensures few { length result.0.items ≤ 100_000 }
{
    starts.sort_unstable();
    let end = earlier_of(span.end, second_at(starts.as_slice(), MOST_STARTS));
    starts.truncate(MOST_STARTS);
    starts.retain(|start| start.second < end);
    let span = Span {
        first: span.first,
        end,
    };
    (starts, span)
}

/// The earlier of two seconds, or the first where there is no other.
pub fn earlier_of(end: i64, other: Option<i64>) -> i64
    ensures { result ≡ earlier_of end other }
{
    match other {
        Some(other) if other < end => other,
        _ => end,
    }
}

// The second of the start at a place.
fn second_at(starts: &[JobStart], place: usize) -> Option<i64>
    ensures { result ≡ second_at starts.now place }
{
    match starts.get(place) {
        Some(start) => Some(start.second),
        None => None,
    }
}
