//! The jobs of a plan, each with how many starts it has.
ghost use Rattle.std.specs.Prelude.{◌≡◌, ◌+◌, ◌≤◌, ◌^◌, ℕ, IfOk, OnOk, is_some, codes, length, map, unwrap_or};
ghost use Rattle.std.specs.BTreeMap.{get};
ghost use Rattle.std.specs.Ordering.{nat_cmp};
ghost use Rattle.serde_json.specs.Data.{array};
ghost use Rattle.serde_json.specs.View.{view as data_of, items_of, members_view};
ghost use Rattle.cronplan_forms.specs.Frequents.{frequent_count};
ghost use Rattle.cronplan_json.specs.Objects.{added_of, starts_of, job_starts, user_data, job_members, job_object, job_objects, with_optional};

use crate::members::{put_count, put_flag, put_text};
use cronplan::JobStart;
use cronplan_forms::{Job, View, frequent_count};
use serde_json::{Map, Value};
use std::alloc::{AllocError, Global};
use std::collections::BTreeMap;

// What is counted of a job.
#[derive(Clone, Copy)]
struct JobCount {
    starts: u64,
    is_frequent: bool,
}

/// An object for each job of a view, in their order. The only error is lack of memory.
pub(crate) fn jobs_value(alloc: Global, view: View<'_>) -> Result<Value, AllocError>
    ensures { IfOk result (λ v. data_of v ≡ array (items_of (job_objects view.entry.frequent.now view.entry.plan.now.starts.items 0 view.entry.jobs.now))) }
{
    let counts = counts_by_job(alloc, view.plan.starts.as_slice())?;
    let items = job_items(alloc, view, &counts)?;
    Ok(Value::Array(items))
}

// How many starts each job has, for the jobs that have one.
fn counts_by_job(alloc: Global, starts: &[JobStart]) -> Result<BTreeMap<usize, u64>, AllocError>
    requires { length starts.now ≤ 2 ^ 31 }
    ensures { IfOk result (λ m. (place : ℕ) → unwrap_or (get nat_cmp m place) 0 ≡ starts_of place starts.now) }
{
    let mut counts = BTreeMap::new(alloc);
    for start in starts {
        add_start(&mut counts, start)?;
    }
    Ok(counts)
}

// Counts a start with those of its job.
#[tactic(auto, using(crate::proofs::PlacedJobs::added_of_small))]
fn add_start(counts: &mut BTreeMap<usize, u64>, start: &JobStart) -> Result<(), AllocError>
    requires { (place : ℕ) → unwrap_or (get nat_cmp counts.old place) 0 ≤ 2 ^ 63 }
    ensures added { OnOk result ((place : ℕ) → unwrap_or (get nat_cmp counts.new place) 0 ≡ unwrap_or (get nat_cmp counts.old place) 0 + added_of place start.now) }
    ensures few { OnOk result ((place : ℕ) → unwrap_or (get nat_cmp counts.new place) 0 ≤ unwrap_or (get nat_cmp counts.old place) 0 + 2 ^ 32) }
{
    let had = counts.get(&start.job).copied().unwrap_or(0);
    counts.insert(start.job, had + u64::from(start.count))?;
    Ok(())
}

// An object for each job of a view, given the counts of their starts.
#[tactic(auto, using(crate::proofs::PlacedJobs::objects_step))]
fn job_items(
    alloc: Global,
    view: View<'_>,
    counts: &BTreeMap<usize, u64>,
) -> Result<Vec<Value>, AllocError>
    requires { (place : ℕ) → unwrap_or (get nat_cmp counts.now place) 0 ≡ starts_of place view.plan.now.starts.items }
    ensures { IfOk result (λ items. map data_of items.items ≡ job_objects view.entry.frequent.now view.entry.plan.now.starts.items 0 view.entry.jobs.now) }
{
    let jobs = view.jobs;
    let mut items = Vec::new(alloc);
    for place in 0..jobs.len() {
        let count = count_at(view, counts, place);
        items.push(job_object(alloc, jobs[place], count)?)?;
    }
    Ok(items)
}

// What is counted of the job at a place: if the job is left out, the count that the view has of it.
fn count_at(view: View<'_>, counts: &BTreeMap<usize, u64>, place: usize) -> JobCount
    requires { (k : ℕ) → unwrap_or (get nat_cmp counts.now k) 0 ≡ starts_of k view.plan.now.starts.items }
    ensures starts { result.starts ≡ job_starts view.entry.frequent.now view.entry.plan.now.starts.items place }
    ensures frequent { result.is_frequent ≡ is_some (frequent_count view.entry.frequent.now place) }
{
    match frequent_count(view.frequent, place) {
        Some(starts) => JobCount {
            starts,
            is_frequent: true,
        },
        None => JobCount {
            starts: counts.get(&place).copied().unwrap_or(0),
            is_frequent: false,
        },
    }
}

fn job_object(alloc: Global, job: Job<'_>, count: JobCount) -> Result<Value, AllocError>
    ensures { IfOk result (λ v. data_of v ≡ job_object job.entry count.starts count.is_frequent) }
{
    let mut members = own_members(alloc, job, count)?;
    put_user(alloc, &mut members, job.user)?;
    Ok(Value::Object(members))
}

// The members of a job without the user.
fn own_members(
    alloc: Global,
    job: Job<'_>,
    count: JobCount,
) -> Result<Map<String, Value>, AllocError>
    ensures { IfOk result (λ members. members_view members.entries ≡ job_members job.entry count.starts count.is_frequent) }
{
    let mut members = Map::new(alloc);
    put_text(alloc, &mut members, "file", job.file)?;
    put_flag(alloc, &mut members, "frequent", count.is_frequent)?;
    put_flag(alloc, &mut members, "ignored", job.is_ignored)?;
    put_count(alloc, &mut members, "line", job.line)?;
    put_count(alloc, &mut members, "starts", count.starts)?;
    put_text(alloc, &mut members, "times", job.times)?;
    put_text(alloc, &mut members, "title", job.title)?;
    put_text(alloc, &mut members, "words", job.words)?;
    Ok(members)
}

// Puts the name of a user among members, where there is one.
fn put_user(alloc: Global, members: &mut Map<String, Value>, user: &str) -> Result<(), AllocError>
    ensures { OnOk result (members_view members.new.entries ≡ with_optional (codes "user") (user_data user.now) (members_view members.old.entries)) }
{
    if user.is_empty() {
        return Ok(());
    }
    put_text(alloc, members, "user", user)
}
