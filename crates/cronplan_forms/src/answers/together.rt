//! What starts together.
ghost use Rattle.std.specs.Prelude.{◌≡◌, ◌++◌, IfOk, List, OnOk, map, string_bytes};
ghost use Rattle.std.specs.List.{All};
ghost use Rattle.croner_base.specs.TableZone.{table_zone};
ghost use Rattle.cronplan_forms.specs.Answers.{IsShownSet, IsTogetherShown, labels_of, label_at, label_text, added_name, joined, joined_after, set_line, set_lines, times_text, together_text};

use crate::answers::left_out::push_job_name;
use crate::clock::ClockTime;
use crate::job::Job;
use crate::view::View;
use croner_base::time::table::ClockTable;
use cronplan::Together;
use std::alloc::{AllocError, Global};

/// Jobs that start together, and what the clock shows at the first time.
#[derive(Clone, Copy)]
pub struct ShownSet<'s> {
    pub set: &'s Together,
    pub first: ClockTime,
}

/// The sets of jobs that start at one moment, the set with the most moments first. Each has the files, lines and titles of its jobs,
/// how many moments have exactly these jobs, and the first of them.
///
/// The only error is lack of memory.
pub fn together_text(alloc: Global, view: View<'_>) -> Result<String, AllocError>
    ensures { IfOk result (λ t. (shown : List ShownSet) × IsTogetherShown (table_zone view.entry.table.now) view.entry.plan.now shown × (string_bytes t ≡ together_text view.entry.jobs.now shown)) }
{
    let sets = view.plan.sets_together(alloc)?;
    let shown = shown_sets(alloc, view.table, sets.as_slice())?;
    text_of_sets(alloc, view.jobs, shown.as_slice())
}

// What the clock of a table shows when jobs first start together.
fn shown_sets<'s>(
    alloc: Global,
    table: &ClockTable,
    sets: &'s [Together],
) -> Result<Vec<ShownSet<'s>>, AllocError>
    ensures sets { IfOk result (λ shown. map (λ s. s.set.now) shown.items ≡ sets.now) }
    ensures shown { IfOk result (λ shown. All (IsShownSet (table_zone table.now)) shown.items) }
{
    let mut shown = Vec::new(alloc);
    for set in sets {
        shown.push(shown_set(table, set))?;
    }
    Ok(shown)
}

fn shown_set<'s>(table: &ClockTable, set: &'s Together) -> ShownSet<'s>
    ensures set { result.set.now ≡ set.now }
    ensures shown { IsShownSet (table_zone table.now) result }
{
    ShownSet {
        set,
        first: ClockTime::shown_at(table, set.first.second),
    }
}

fn text_of_sets(
    alloc: Global,
    jobs: &[Job<'_>],
    sets: &[ShownSet<'_>],
) -> Result<String, AllocError>
    ensures { IfOk result (λ t. string_bytes t ≡ together_text jobs.now sets.now) }
{
    if sets.is_empty() {
        return String::from_str(alloc, "no two jobs start together\n");
    }
    let mut text = String::from_str(alloc, "jobs that start together:\n")?;
    push_sets(&mut text, jobs, sets)?;
    Ok(text)
}

#[tactic(auto, using(crate::proofs::WeekParts::sets_step), unfolding(crate::specs::Answers::set_lines))]
fn push_sets(text: &mut String, jobs: &[Job<'_>], sets: &[ShownSet<'_>]) -> Result<(), AllocError>
    ensures { OnOk result (string_bytes text.new ≡ string_bytes text.old ++ set_lines jobs.now sets.now) }
{
    for set in sets {
        push_set(text, jobs, *set)?;
    }
    Ok(())
}

#[tactic(auto, unfolding(crate::specs::Answers::set_line))]
fn push_set(text: &mut String, jobs: &[Job<'_>], set: ShownSet<'_>) -> Result<(), AllocError>
    ensures { OnOk result (string_bytes text.new ≡ string_bytes text.old ++ set_line jobs.now set.entry) }
{
    text.push_str("  ")?;
    push_names(text, jobs, set.set.jobs.as_slice())?;
    push_times(text, set.set.moments)?;
    let first = set.first;
    write!(text, ", first {first}\n")
}

// How many moments there are.
fn push_times(text: &mut String, count: u64) -> Result<(), AllocError>
    ensures { OnOk result (string_bytes text.new ≡ string_bytes text.old ++ times_text count) }
{
    if count == 1 {
        return text.push_str("  once");
    }
    write!(text, "  {count} times")
}

// Appends what the jobs at these places are called to a text, a plus sign between two of them.
fn push_names(text: &mut String, jobs: &[Job<'_>], places: &[usize]) -> Result<(), AllocError>
    ensures { OnOk result (string_bytes text.new ≡ string_bytes text.old ++ joined jobs.now places.now) }
{
    match places.split_first() {
        Some((first, others)) => {
            push_job_name(text, jobs, *first)?;
            push_others(text, jobs, others)
        }
        None => Ok(()),
    }
}

#[tactic(auto, using(crate::proofs::WeekParts::names_step), unfolding(crate::specs::Answers::joined_after))]
fn push_others(text: &mut String, jobs: &[Job<'_>], places: &[usize]) -> Result<(), AllocError>
    ensures { OnOk result (string_bytes text.new ≡ string_bytes text.old ++ joined_after jobs.now places.now) }
{
    for place in places {
        push_added(text, jobs, *place)?;
    }
    Ok(())
}

#[tactic(auto, unfolding(crate::specs::Answers::added_name))]
fn push_added(text: &mut String, jobs: &[Job<'_>], place: usize) -> Result<(), AllocError>
    ensures { OnOk result (string_bytes text.new ≡ string_bytes text.old ++ added_name jobs.now place) }
{
    text.push_str(" + ")?;
    push_job_name(text, jobs, place)
}

/// Appends the file and the line of the job at a place to a text; nothing where there is none.
pub(crate) fn push_label(
    text: &mut String,
    jobs: &[Job<'_>],
    place: usize,
) -> Result<(), AllocError>
    ensures { OnOk result (string_bytes text.new ≡ string_bytes text.old ++ label_at (labels_of jobs.now) place) }
{
    match jobs.get(place) {
        Some(job) => push_place(text, job),
        None => Ok(()),
    }
}

fn push_place(text: &mut String, job: &Job<'_>) -> Result<(), AllocError>
    ensures { OnOk result (string_bytes text.new ≡ string_bytes text.old ++ label_text job.now) }
{
    let (file, line) = (job.file, job.line);
    write!(text, "{file}:{line}")
}
