//! The plan of the jobs of all files: the starts of these jobs that come after a given time.
ghost use Rattle.std.specs.Prelude.{◌≡◌, ◌≤◌, length, None, true, false, int_lt, IfOk};
ghost use Rattle.croner_base.specs.Table.{is_table_second};
ghost use Rattle.croner_base.specs.TableZone.{table_zone};
ghost use Rattle.croncheck_planner.specs.Plan.{first_after, end_after, IsSpanAfter, IsFound, IsFirst, IsListed, whole_end, end_up_to, is_cut, is_new, left_after, starts_within, is_more, is_enough, starts_listed, ending_of, answered_until};

pub(crate) mod answers;
pub(crate) mod beside;
pub(crate) mod dropped;
pub(crate) mod list;
pub(crate) mod program;
pub(crate) mod title;

use croncheck_often::often::span_end;
use croncheck_runs::clock::LAST_SECOND as LAST_OF_CLOCK;
use croncheck_runs::runs::Listing;
use croner::errors::CronError;
use croner::time::table::TableTime;
use cronplan::{Frequent, JobStart, LATEST_END, Plan, Span};
use cronplan_jobs::{Schedule, plan_of};
use std::alloc::Global;

/// The lengths in seconds of the spans in which a number of moments is looked for, one span after the other: an hour, a day, a week, 31
/// days, 366 days, and eight times 366 days.
const LENGTHS: [i64; 6] = [3_600, 86_400, 604_800, 2_678_400, 31_622_400, 252_979_200];

/// The starts of jobs after the start of a call.
#[derive(Drop)]
pub struct Found {
    pub plan: Plan,
    /// The span in which starts were looked for. The span of the plan ends earlier if there are more starts than a plan keeps.
    pub span: Span,
    /// The jobs that are left out of the plan, since they start too often.
    pub frequent: Vec<Frequent>,
}

impl Found {
    /// Whether it has as many starts as a plan keeps, so that more may come before the end of the span.
    pub(crate) fn is_cut(&self) -> bool
        ensures { result ≡ is_cut self.now }
    {
        self.plan.span.end < self.span.end
    }

    // Whether it has starts after its first `count` moments.
    fn is_more(&self, count: u32) -> bool
        ensures { result ≡ is_more count self.now }
    {
        count_within(self.plan.starts.as_slice(), count) < self.plan.starts.len()
    }

    // Whether it has starts after its first `count` moments, or as many starts as a plan keeps.
    fn is_enough(&self, count: u32) -> bool
        ensures { result ≡ is_enough count self.now }
    {
        self.is_more(count) || self.is_cut()
    }

    /// Those of its starts that stand in a list.
    pub(crate) fn listed_starts(&self, listing: Listing) -> &[JobStart]
        ensures { result.now ≡ starts_listed listing self.now }
    {
        let starts = self.plan.starts.as_slice();
        match listing {
            Listing::Count(count) => starts.split_at(count_within(starts, count)).0,
            Listing::Until(_) => starts,
        }
    }

    /// How a list of its starts ends. If the window of the clock ends early, `last` is its last second.
    pub(crate) fn ending(&self, listing: Listing, last: Option<i64>) -> Ending
        ensures { result ≡ ending_of listing last self.now }
    {
        match listing {
            Listing::Count(count) => {
                if self.is_more(count) {
                    Ending::More
                } else if self.is_cut() {
                    Ending::Cut
                } else {
                    Ending::Whole
                }
            }
            Listing::Until(until) => {
                if self.is_cut() {
                    Ending::Cut
                } else if until < whole_end(last) {
                    Ending::More
                } else {
                    Ending::Whole
                }
            }
        }
    }
}

/// How a list of starts ends.
#[derive(Clone, Copy, Drop)]
pub enum Ending {
    /// More may come after what was asked for.
    More,
    /// As many starts as a plan keeps were found, and more may come.
    Cut,
    /// No start is left in the clock's window, or, if that doesn't end early, in the years that are searched.
    Whole,
}

/// The starts of jobs after `start` and before `end`; one at either of these seconds isn't among them. Jobs that start more than
/// `most_a_day` times on some day of the clock are left out; if that is `None`, no job is.
///
/// The only error is `OutOfMemory`, as that of `cronplan_jobs::plan_of`.
pub fn found_before(
    alloc: Global,
    jobs: &[Schedule],
    start: TableTime<'_>,
    end: i64,
    most_a_day: Option<u64>,
) -> Result<Found, CronError>
    ensures { IfOk result (IsFound (table_zone start.entry.table.now) start.entry.second end most_a_day jobs.now) }
{
    let span = span_after(start.second(), end);
    let (plan, frequent) = plan_of(alloc, jobs, start.table(), span, most_a_day)?;
    Ok(Found {
        plan,
        span,
        frequent,
    })
}

/// The starts of jobs that answers are about: those after `start` up to the second up to which starts are listed, or, if a number of
/// moments is listed, in seven days. Jobs are left out as by `found_before`. If the window of the clock ends early, `last` is its last
/// second, and no later start is found.
///
/// The error is as that of `found_before`.
pub fn answered_plan(
    alloc: Global,
    jobs: &[Schedule],
    start: TableTime<'_>,
    last: Option<i64>,
    listing: Listing,
    most_a_day: Option<u64>,
) -> Result<Found, CronError>
    ensures { IfOk result (IsFound (table_zone start.entry.table.now) start.entry.second (answered_until start.entry.second last listing) most_a_day jobs.now) }
{
    let end = answered_until(start.second(), last, listing);
    found_before(alloc, jobs, start, end, most_a_day)
}

// The end of the span that answers are about.
fn answered_until(start: i64, last: Option<i64>, listing: Listing) -> i64
    requires { is_table_second start ≡ true }
    ensures { result ≡ answered_until start last listing }
{
    let until = span_end(start, listing);
    end_up_to(until, whole_end(last))
}

/// The starts of jobs for a list: all those after `start` up to a second; or, if a number of moments is listed, those of more moments
/// than that, if there are more. No job is left out. If the window of the clock ends early, `last` is its last second, and no later
/// start is found.
///
/// The error is as that of `found_before`.
pub fn listed_plan(
    alloc: Global,
    jobs: &[Schedule],
    start: TableTime<'_>,
    last: Option<i64>,
    listing: Listing,
) -> Result<Found, CronError>
    ensures { IfOk result (IsListed (table_zone start.entry.table.now) start.entry.second last listing jobs.now) }
{
    match listing {
        Listing::Count(count) => first_plan(alloc, jobs, start, whole_end(last), count),
        Listing::Until(until) => {
            let end = end_up_to(until, whole_end(last));
            found_before(alloc, jobs, start, end, None)
        }
    }
}

// The starts of jobs after `start` and before an end, until there are more than `count` moments.
fn first_plan(
    alloc: Global,
    jobs: &[Schedule],
    start: TableTime<'_>,
    whole: i64,
    count: u32,
) -> Result<Found, CronError>
    ensures { IfOk result (IsFirst (table_zone start.entry.table.now) start.entry.second whole count jobs.now) }
{
    for length in LENGTHS.as_slice() {
        let end = end_from(start.second(), *length, whole);
        let found = found_before(alloc, jobs, start, end, None)?;
        if found.is_enough(count) {
            return Ok(found);
        }
    }
    found_before(alloc, jobs, start, whole, None)
}

// The end of a span of `length` seconds from a start on, or that of the whole span if it is earlier.
fn end_from(start: i64, length: i64, whole: i64) -> i64
    ensures { int_lt whole result ≡ false }
{
    let end = start.saturating_add(length);
    if whole < end { whole } else { end }
}

// The end of the window of a clock: after its last second, where it ends before year 5000 does.
pub(crate) fn whole_end(last: Option<i64>) -> i64
    ensures { result ≡ whole_end last }
{
    match last {
        Some(last) if last < LAST_OF_CLOCK => last + 1,
        Some(_) | None => LAST_OF_CLOCK + 1,
    }
}

// The end of a span whose last second is `until`, or that of the whole span if it is earlier.
fn end_up_to(until: i64, whole: i64) -> i64
    ensures { result ≡ end_up_to until whole }
{
    if until < whole { until + 1 } else { whole }
}

// The span after a start up to an end.
fn span_after(start: i64, end: i64) -> Span
    requires { is_table_second start ≡ true }
    ensures { IsSpanAfter start end result }
{
    match Span::new(first_after(start), end_after(start, end)) {
        Some(span) => span,
        None => unreachable!(),
    }
}

// The second after a start.
fn first_after(start: i64) -> i64
    ensures { result ≡ first_after start }
{
    if start < LATEST_END {
        start + 1
    } else {
        LATEST_END
    }
}

// The end of the span after a start that is to end there.
fn end_after(start: i64, end: i64) -> i64
    ensures { result ≡ end_after start end }
{
    let first = first_after(start);
    if end < first {
        first
    } else if LATEST_END < end {
        LATEST_END
    } else {
        end
    }
}

// How many of some starts lie in the first moments, which are so many.
#[tactic(auto, using(crate::proofs::MomentStarts::within_step))]
fn count_within(starts: &[JobStart], count: u32) -> usize
    ensures value { result ≡ starts_within count None starts.now }
    ensures bound { result ≤ length starts.now }
{
    let mut last = None;
    let mut left = count;
    for k in 0..starts.len() {
        let begins = is_new(last, &starts[k]);
        if begins && left == 0 {
            return k;
        }
        left = left_after(left, begins);
        last = Some(starts[k].second);
    }
    starts.len()
}

// How many moments are left after a start that begins one or doesn't.
fn left_after(left: u32, begins: bool) -> u32
    ensures { result ≡ left_after left begins }
{
    if begins { left.saturating_sub(1) } else { left }
}

// Whether a start begins a moment, where this is the second of the one before, if there is one.
pub(crate) fn is_new(last: Option<i64>, start: &JobStart) -> bool
    ensures { result ≡ is_new last start.now }
{
    match last {
        Some(last) => last != start.second,
        None => true,
    }
}
