//! The moments of a plan: the seconds at which jobs start.
ghost use Rattle.std.specs.Prelude.{◌≡◌, ◌<◌, ◌+◌, [], ◌∷◌, ◌++◌, ◌<ℤ◌, ◌≤ℤ◌, ◌≤◌, ◌^◌, IsTrue, IsFalse, MatchOption, IfOk, OnOk, length, take, int_le, int_lt, slice_index_or};
ghost use Rattle.std.specs.List.{All, Contains};
ghost use Rattle.std.specs.List.Sorted.{IsSorted};
ghost use Rattle.cronplan.specs.Moments.{AreMoments, at_second};
ghost use Rattle.cronplan.specs.Private.MomentsUntil.{AreMomentsUntil, IsNewGroup, moment_of};
ghost use Rattle.cronplan.specs.Starts.{start_cmp, seconds_of};

use crate::counts::count_of;
use crate::start::JobStart;
use std::alloc::{AllocError, Global};

/// A second at which jobs start.
#[derive(Debug, Clone, Copy)]
pub struct Moment {
    /// The second, counted from 1970-01-01T00:00:00 UTC.
    pub second: i64,
    /// What the clock shows at that second: its date and time as seconds from 1970-01-01T00:00:00.
    pub wall: i64,
    /// How many starts there are; a job that is started twice at that second counts twice.
    pub starts: u64,
}

/// The moments of starts that are in order: each once, the earliest first.
pub(crate) fn moments_of(alloc: Global, starts: &[JobStart]) -> Result<Vec<Moment>, AllocError>
    requires order { IsSorted start_cmp starts.now }
    requires few { length starts.now ≤ 2 ^ 31 }
    ensures { IfOk result (λ moments. AreMoments starts.now moments.items) }
{
    let mut moments = Vec::new(alloc);
    for place in 0..starts.len() {
        push_moment(&mut moments, starts, place)?;
    }
    Ok(moments)
}

// Appends the moment of the start at a place to the others, if no start before it has its second.
fn push_moment(
    moments: &mut Vec<Moment>,
    starts: &[JobStart],
    place: usize,
) -> Result<(), AllocError>
    requires order { IsSorted start_cmp starts.now }
    requires few { length starts.now ≤ 2 ^ 31 }
    requires inside { place < length starts.now }
    ensures { AreMomentsUntil place starts.now moments.old.items → OnOk result (AreMomentsUntil (place + 1) starts.now moments.new.items) }
{
    match starts_from(starts, place) {
        Some(starts_then) => push_new(moments, &starts[place], starts_then),
        None => Ok(()),
    }
}

// Appends the moment of a start, given all starts at that moment, to the others.
fn push_new(
    moments: &mut Vec<Moment>,
    start: &JobStart,
    starts_then: &[JobStart],
) -> Result<(), AllocError>
    requires { length starts_then.now ≤ 2 ^ 31 }
    ensures { OnOk result (moments.new.items ≡ moments.old.items ++ moment_of start.now starts_then.now ∷ []) }
{
    moments.push(moment_of(start, starts_then))?;
    Ok(())
}

/// The moment of a start, given all starts at that moment.
pub(crate) fn moment_of(start: &JobStart, starts_then: &[JobStart]) -> Moment
    requires { length starts_then.now ≤ 2 ^ 31 }
    ensures { result ≡ moment_of start.now starts_then.now }
{
    Moment {
        second: start.second,
        wall: start.wall,
        starts: count_of(starts_then),
    }
}

/// All starts at the second of the one at a place. `None` if an earlier one in the list has the same
/// second.
pub(crate) fn starts_from(starts: &[JobStart], place: usize) -> Option<&[JobStart]>
    requires order { IsSorted start_cmp starts.now }
    requires inside { place < length starts.now }
    ensures { (d : JobStart) → MatchOption result (Contains (seconds_of (take place starts.now)) (slice_index_or starts.now place d).second) (λ group. IsNewGroup starts.now place (slice_index_or starts.now place d).second group.now) }
{
    if is_new(starts, place) {
        Some(starts_like(starts.split_at(place).1, &starts[place]))
    } else {
        None
    }
}

// Whether no start before the one at a place has its second.
fn is_new(starts: &[JobStart], place: usize) -> bool
    requires order { IsSorted start_cmp starts.now }
    requires inside { place < length starts.now }
    ensures new { IsTrue result → (d : JobStart) → All (λ s. s.second <ℤ (slice_index_or starts.now place d).second) (take place starts.now) }
    ensures old { IsFalse result → (d : JobStart) → Contains (seconds_of (take place starts.now)) (slice_index_or starts.now place d).second }
{
    place == 0 || is_earlier(&starts[place - 1], &starts[place])
}

fn is_earlier(start: &JobStart, other: &JobStart) -> bool
    ensures { result ≡ int_lt start.now.second other.now.second }
{
    start.second < other.second
}

// Those of some starts at the second of another. They are in order, and none is earlier than that one.
fn starts_like<'s>(later: &'s [JobStart], start: &JobStart) -> &'s [JobStart]
    requires order { IsSorted start_cmp later.now }
    requires late { All (λ s. start.now.second ≤ℤ s.second) later.now }
    ensures { result.now ≡ at_second start.now.second later.now }
{
    let count = later.partition_point(
        |other: &JobStart| -> bool
            ensures { result ≡ int_le other.now.second start.entry.now.second }
        { other.second <= start.second },
    );
    later.split_at(count).0
}
