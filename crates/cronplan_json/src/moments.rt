//! The moments of a plan, the earliest first, with the jobs that start then.
ghost use Rattle.std.specs.Prelude.{◌≡◌, ◌≤ℤ◌, IfOk, List, int_le, int_lt, map};
ghost use Rattle.std.specs.List.{All};
ghost use Rattle.std.specs.List.Sorted.{IsSorted};
ghost use Rattle.serde_json.specs.Data.{array};
ghost use Rattle.serde_json.specs.View.{view as data_of, items_of, members_view};
ghost use Rattle.cronplan.specs.Moments.{AreMoments, at_second};
ghost use Rattle.cronplan.specs.Starts.{start_cmp};
ghost use Rattle.cronplan_json.specs.Objects.{count, counts_of, places_of, moment_members, moment_object, starts_object};
ghost use Rattle.cronplan_json.specs.PlanJson.{AreMomentsOf};

use crate::instants::{put_shown, put_time};
use crate::members::{put_count, put_integer};
use cronplan::{JobStart, Moment, Plan};
use cronplan_forms::{TimedMoment, View, timed_moments};
use serde_json::{Map, Value, put};
use std::alloc::{AllocError, Global};

/// An object for each moment of a plan, the earliest first. The only error is lack of memory.
pub(crate) fn moments_value(alloc: Global, view: View<'_>) -> Result<Value, AllocError>
    ensures { IfOk result (λ v. (timed : List TimedMoment) × AreMomentsOf view.entry timed × (data_of v ≡ array (items_of (map (moment_object view.entry.plan.now.starts.items) timed)))) }
{
    let moments = moments_of(alloc, view.plan)?;
    let timed = timed_moments(alloc, view, moments.as_slice())?;
    let items = moment_items(alloc, view.plan.starts.as_slice(), timed.as_slice())?;
    Ok(Value::Array(items))
}

// All moments of a plan, the earliest first.
fn moments_of(alloc: Global, plan: &Plan) -> Result<Vec<Moment>, AllocError>
    ensures { IfOk result (λ moments. AreMoments plan.now.starts.items moments.items) }
{
    let mut moments = plan.fullest_moments(alloc, usize::MAX)?;
    moments.sort_unstable_by_key(|moment| moment.second);
    Ok(moments)
}

fn moment_items(
    alloc: Global,
    starts: &[JobStart],
    moments: &[TimedMoment],
) -> Result<Vec<Value>, AllocError>
    requires { IsSorted start_cmp starts.now }
    ensures { IfOk result (λ items. map data_of items.items ≡ map (moment_object starts.now) moments.now) }
{
    let mut items = Vec::new(alloc);
    for moment in moments {
        let starts_then = starts_at(starts, moment.moment.second);
        items.push(moment_object(alloc, starts_then, moment)?)?;
    }
    Ok(items)
}

// Of starts that stand in order, those at a second.
fn starts_at(starts: &[JobStart], second: i64) -> &[JobStart]
    requires { IsSorted start_cmp starts.now }
    ensures { result.now ≡ at_second second starts.now }
{
    starts_up_to(starts_from(starts, second), second)
}

// Of starts that stand in order, those from a second on.
fn starts_from(starts: &[JobStart], second: i64) -> &[JobStart]
    requires { IsSorted start_cmp starts.now }
    ensures order { IsSorted start_cmp result.now }
    ensures late { All (λ s. second ≤ℤ s.second) result.now }
    ensures then { at_second second result.now ≡ at_second second starts.now }
{
    let count = starts.partition_point(
        |start: &JobStart| -> bool
            ensures { result ≡ int_lt start.now.second second }
        { start.second < second },
    );
    starts.split_at(count).1
}

// Of starts that stand in order, none of them before a second, those at it.
fn starts_up_to(starts: &[JobStart], second: i64) -> &[JobStart]
    requires order { IsSorted start_cmp starts.now }
    requires late { All (λ s. second ≤ℤ s.second) starts.now }
    ensures { result.now ≡ at_second second starts.now }
{
    let count = starts.partition_point(
        |start: &JobStart| -> bool
            ensures { result ≡ int_le start.now.second second }
        { start.second <= second },
    );
    starts.split_at(count).0
}

// The object of a moment, of which these are all starts.
fn moment_object(
    alloc: Global,
    starts_then: &[JobStart],
    moment: &TimedMoment,
) -> Result<Value, AllocError>
    ensures { IfOk result (λ v. data_of v ≡ starts_object starts_then.now moment.now) }
{
    let mut members = own_members(alloc, starts_then, moment)?;
    put_shown(alloc, &mut members, &moment.time.beside)?;
    Ok(Value::Object(members))
}

// Its members on the plan's own clock.
fn own_members(
    alloc: Global,
    starts_then: &[JobStart],
    moment: &TimedMoment,
) -> Result<Map<String, Value>, AllocError>
    ensures { IfOk result (λ members. members_view members.entries ≡ moment_members starts_then.now moment.now) }
{
    let mut members = Map::new(alloc);
    let counts = counts_value(alloc, starts_then)?;
    put(&mut members, alloc, "counts", counts)?;
    let places = places_value(alloc, starts_then)?;
    put(&mut members, alloc, "jobs", places)?;
    put_integer(alloc, &mut members, "offset", moment.time.own.ahead.seconds)?;
    put_integer(alloc, &mut members, "second", moment.moment.second)?;
    put_count(alloc, &mut members, "starts", moment.moment.starts)?;
    put_time(alloc, &mut members, &moment.time.own)?;
    Ok(members)
}

// How many times each job is started.
fn counts_value(alloc: Global, starts: &[JobStart]) -> Result<Value, AllocError>
    ensures { IfOk result (λ v. data_of v ≡ counts_of starts.now) }
{
    let items = count_items(alloc, starts)?;
    Ok(Value::Array(items))
}

fn count_items(alloc: Global, starts: &[JobStart]) -> Result<Vec<Value>, AllocError>
    ensures { IfOk result (λ items. map data_of items.items ≡ map (λ s. count s.count) starts.now) }
{
    let mut items = Vec::new(alloc);
    for start in starts {
        items.push(Value::from(start.count))?;
    }
    Ok(items)
}

// The places of the jobs.
fn places_value(alloc: Global, starts: &[JobStart]) -> Result<Value, AllocError>
    ensures { IfOk result (λ v. data_of v ≡ places_of starts.now) }
{
    let items = place_items(alloc, starts)?;
    Ok(Value::Array(items))
}

fn place_items(alloc: Global, starts: &[JobStart]) -> Result<Vec<Value>, AllocError>
    ensures { IfOk result (λ items. map data_of items.items ≡ map (λ s. count s.job) starts.now) }
{
    let mut items = Vec::new(alloc);
    for start in starts {
        items.push(Value::from(start.job))?;
    }
    Ok(items)
}
