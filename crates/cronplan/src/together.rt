//! The sets of jobs that start together.
ghost use Rattle.std.specs.Prelude.{◌≡◌, ◌<◌, ◌+◌, ◌≤◌, ◌^◌, ◌++◌, true, false, not, nat_lt, IsTrue, IsFalse, MatchOption, IfOk, OnOk, length, map, take, slice_index_or};
ghost use Rattle.std.specs.List.{All, Contains};
ghost use Rattle.std.specs.List.Sorted.{IsSorted, IsSortedBy};
ghost use Rattle.cronplan.specs.Private.Meetings.{seen_of, seen_if_several, is_lower, meetings_with_jobs, jobs_in, AreMeetings, AreMeetingsUntil, AreByJobs, IsNewGroup, AreSets, AreSetsUntil};
ghost use Rattle.cronplan.specs.Private.MomentsUntil.{moment_of};
ghost use Rattle.cronplan.specs.Starts.{start_cmp};
ghost use Rattle.cronplan.specs.Together.{jobs_of, AreTogether};

use crate::moments::{Moment, moment_of, starts_from};
use crate::plan::Plan;
use crate::start::JobStart;
use std::alloc::{AllocError, Global};
use std::cmp::Reverse;

/// Jobs that start at the same moments, at which no other job of the plan starts.
#[derive(Debug, Drop)]
pub struct Together {
    /// Their places among the jobs, from 0, in rising order: two or more.
    pub jobs: Vec<usize>,
    /// At how many moments of the plan exactly these jobs start.
    pub moments: u64,
    /// The first of these moments.
    pub first: Moment,
}

// A moment at which several jobs start.
#[derive(Drop)]
struct Meeting {
    // Their places, in rising order.
    jobs: Vec<usize>,
    moment: Moment,
}

impl Plan {
    /// The sets of two or more different jobs that start together: for each moment of the plan at which several jobs start, the set of
    /// those jobs. Each set comes once, the one with the most moments first, and of equal ones the one whose first moment is earlier.
    ///
    /// A job that the plan names as too frequent is in none of them. The only error is lack of memory.
    pub fn sets_together(&self, alloc: Global) -> Result<Vec<Together>, AllocError>
        ensures { IfOk result (λ sets. AreTogether self.now.starts.items sets.items) }
    {
        let meetings = meetings_by_jobs(alloc, self.starts.as_slice())?;
        let mut sets = sets_of(alloc, meetings.as_slice())?;
        sets.sort_unstable_by_key(|set| (Reverse(set.moments), set.first.second));
        Ok(sets)
    }
}

// The moments at which several jobs start, sorted by their jobs, so that those with the same jobs are neighbours. The starts are in order.
fn meetings_by_jobs(alloc: Global, starts: &[JobStart]) -> Result<Vec<Meeting>, AllocError>
    requires order { IsSorted start_cmp starts.now }
    requires few { length starts.now ≤ 2 ^ 31 }
    ensures { IfOk result (λ meetings. AreByJobs starts.now meetings.items) }
{
    let mut meetings = meetings_of(alloc, starts)?;
    meetings.sort_by(|meeting, other| meeting.jobs.cmp(&other.jobs))?;
    Ok(meetings)
}

// The moments at which several jobs start, the earliest first. The starts are in order.
fn meetings_of(alloc: Global, starts: &[JobStart]) -> Result<Vec<Meeting>, AllocError>
    requires order { IsSorted start_cmp starts.now }
    requires few { length starts.now ≤ 2 ^ 31 }
    ensures { IfOk result (λ meetings. AreMeetings starts.now meetings.items) }
{
    let mut meetings = Vec::new(alloc);
    for place in 0..starts.len() {
        push_meeting(alloc, &mut meetings, starts, place)?;
    }
    Ok(meetings)
}

// Appends the moment of the start at a place to the others, if no start before it has its second, and several jobs start there.
fn push_meeting(
    alloc: Global,
    meetings: &mut Vec<Meeting>,
    starts: &[JobStart],
    place: usize,
) -> Result<(), AllocError>
    requires order { IsSorted start_cmp starts.now }
    requires few { length starts.now ≤ 2 ^ 31 }
    requires inside { place < length starts.now }
    ensures { AreMeetingsUntil place starts.now meetings.old.items → OnOk result (AreMeetingsUntil (place + 1) starts.now meetings.new.items) }
{
    match starts_from(starts, place) {
        Some(starts_then) => push_if_several(alloc, meetings, &starts[place], starts_then),
        None => Ok(()),
    }
}

// Appends the moment of a start, given all starts at that moment, to the others, if several jobs start there.
fn push_if_several(
    alloc: Global,
    meetings: &mut Vec<Meeting>,
    start: &JobStart,
    starts_then: &[JobStart],
) -> Result<(), AllocError>
    requires { length starts_then.now ≤ 2 ^ 31 }
    ensures { OnOk result (map seen_of meetings.new.items ≡ map seen_of meetings.old.items ++ seen_if_several (jobs_of starts_then.now) (moment_of start.now starts_then.now)) }
{
    let meeting = meeting_of(alloc, start, starts_then)?;
    if are_several(meeting.jobs.as_slice()) {
        meetings.push(meeting)?;
    }
    Ok(())
}

// The moment of a start, given all starts at that moment, with their jobs.
fn meeting_of(
    alloc: Global,
    start: &JobStart,
    starts_then: &[JobStart],
) -> Result<Meeting, AllocError>
    requires { length starts_then.now ≤ 2 ^ 31 }
    ensures jobs { IfOk result (λ meeting. meeting.jobs.items ≡ jobs_of starts_then.now) }
    ensures moment { IfOk result (λ meeting. meeting.moment ≡ moment_of start.now starts_then.now) }
{
    let jobs = jobs_of(alloc, starts_then)?;
    let moment = moment_of(start, starts_then);
    Ok(Meeting { jobs, moment })
}

fn are_several(jobs: &[usize]) -> bool
    ensures { result ≡ nat_lt 1 (length jobs.now) }
{
    jobs.len() > 1
}

// The places of the jobs of starts; neighbours with the same job give it once.
fn jobs_of(alloc: Global, starts: &[JobStart]) -> Result<Vec<usize>, AllocError>
    ensures { IfOk result (λ jobs. jobs.items ≡ jobs_of starts.now) }
{
    let mut jobs = places_of(alloc, starts)?;
    jobs.dedup();
    Ok(jobs)
}

fn places_of(alloc: Global, starts: &[JobStart]) -> Result<Vec<usize>, AllocError>
    ensures { IfOk result (λ places. places.items ≡ map (λ s. s.job) starts.now) }
{
    let mut places = Vec::new(alloc);
    for start in starts {
        places.push(start.job)?;
    }
    Ok(places)
}

// The sets of the jobs of meetings, which are sorted by their jobs.
fn sets_of(alloc: Global, meetings: &[Meeting]) -> Result<Vec<Together>, AllocError>
    requires { IsSortedBy is_lower meetings.now }
    ensures { IfOk result (λ sets. AreSets meetings.now sets.items) }
{
    let mut sets = Vec::new(alloc);
    for place in 0..meetings.len() {
        push_set(alloc, &mut sets, meetings, place)?;
    }
    Ok(sets)
}

// Appends the jobs of the meeting at a place to the others, if no meeting before it has them.
fn push_set(
    alloc: Global,
    sets: &mut Vec<Together>,
    meetings: &[Meeting],
    place: usize,
) -> Result<(), AllocError>
    requires order { IsSortedBy is_lower meetings.now }
    requires inside { place < length meetings.now }
    ensures { AreSetsUntil place meetings.now sets.old.items → OnOk result (AreSetsUntil (place + 1) meetings.now sets.new.items) }
{
    match meetings_from(meetings, place) {
        Some(group) => {
            let set = set_of(alloc, &meetings[place], group)?;
            sets.push(set)?;
            Ok(())
        }
        None => Ok(()),
    }
}

// The jobs of a meeting, which is the first of all those with them.
fn set_of(alloc: Global, meeting: &Meeting, group: &[Meeting]) -> Result<Together, AllocError>
    ensures jobs { IfOk result (λ set. set.jobs.items ≡ meeting.now.jobs.items) }
    ensures moments { IfOk result (λ set. set.moments ≡ length group.now) }
    ensures first { IfOk result (λ set. set.first ≡ meeting.now.moment) }
{
    let jobs = Vec::from_slice(alloc, meeting.jobs.as_slice())?;
    Ok(Together {
        jobs,
        moments: group.len() as u64,
        first: meeting.moment,
    })
}

// All meetings with the jobs of the one at a place. `None` where one before has them too.
fn meetings_from(meetings: &[Meeting], place: usize) -> Option<&[Meeting]>
    requires order { IsSortedBy is_lower meetings.now }
    requires inside { place < length meetings.now }
    ensures { (d : Meeting) → MatchOption result (Contains (jobs_in (take place meetings.now)) (slice_index_or meetings.now place d).jobs.items) (λ group. IsNewGroup meetings.now place (slice_index_or meetings.now place d) group.now) }
{
    if is_new(meetings, place) {
        Some(meetings_with_jobs(meetings.split_at(place).1, &meetings[place]))
    } else {
        None
    }
}

// Whether no meeting before the one at a place has its jobs.
fn is_new(meetings: &[Meeting], place: usize) -> bool
    requires order { IsSortedBy is_lower meetings.now }
    requires inside { place < length meetings.now }
    ensures new { IsTrue result → (d : Meeting) → All (λ m. is_lower m (slice_index_or meetings.now place d) ≡ true) (take place meetings.now) }
    ensures old { IsFalse result → (d : Meeting) → Contains (jobs_in (take place meetings.now)) (slice_index_or meetings.now place d).jobs.items }
{
    place == 0 || is_lower(&meetings[place - 1], &meetings[place])
}

// Whether the jobs of a meeting are lower than those of another, as lists.
fn is_lower(meeting: &Meeting, other: &Meeting) -> bool
    ensures { result ≡ is_lower meeting.now other.now }
{
    meeting.jobs.cmp(&other.jobs).is_lt()
}

// Those of some meetings that have the jobs of another. They are sorted by their jobs, and none has lower ones.
fn meetings_with_jobs<'m>(later: &'m [Meeting], meeting: &Meeting) -> &'m [Meeting]
    requires order { IsSortedBy is_lower later.now }
    requires late { All (λ m. is_lower m meeting.now ≡ false) later.now }
    ensures { result.now ≡ meetings_with_jobs meeting.now later.now }
{
    let count = later.partition_point(
        |other: &Meeting| -> bool
            ensures { result ≡ not (is_lower meeting.entry.now other.now) }
        { !is_lower(meeting, other) },
    );
    later.split_at(count).0
}
