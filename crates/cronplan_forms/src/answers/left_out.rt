//! What a plan leaves out.
ghost use Rattle.std.specs.Prelude.{◌≡◌, ◌++◌, IfOk, OnOk, string_bytes};
ghost use Rattle.cronplan_forms.specs.Answers.{titles_of, title_at, job_name, left_out_line, left_out_lines, quoted_title, or_more, starts_line, cut_line, left_out_text};

use crate::answers::busy::Starts;
use crate::answers::together::push_label;
use crate::job::Job;
use crate::view::View;
use croner_base::excerpt::Excerpt;
use cronplan::{Frequent, MOST_STARTS};
use std::alloc::{AllocError, Global};

/// What a plan leaves out: a line for each job that starts too often, with its file and line, its title and how many starts it has, and a
/// last line if the plan ends earlier than was asked for. Empty if it leaves nothing out.
///
/// The only error is lack of memory.
pub fn left_out_text(alloc: Global, view: View<'_>) -> Result<String, AllocError>
    ensures { IfOk result (λ t. string_bytes t ≡ left_out_text view.entry) }
{
    let mut text = String::new(alloc);
    push_frequent(&mut text, view.jobs, view.frequent)?;
    push_cut(&mut text, view.is_cut)?;
    Ok(text)
}

#[tactic(auto, using(crate::proofs::WeekParts::frequent_step), unfolding(crate::specs::Answers::left_out_lines))]
fn push_frequent(
    text: &mut String,
    jobs: &[Job<'_>],
    frequent: &[Frequent],
) -> Result<(), AllocError>
    ensures { OnOk result (string_bytes text.new ≡ string_bytes text.old ++ left_out_lines jobs.now frequent.now) }
{
    for job in frequent {
        push_line(text, jobs, *job)?;
    }
    Ok(())
}

#[tactic(auto, unfolding(crate::specs::Answers::left_out_line))]
fn push_line(text: &mut String, jobs: &[Job<'_>], job: Frequent) -> Result<(), AllocError>
    ensures { OnOk result (string_bytes text.new ≡ string_bytes text.old ++ left_out_line jobs.now job) }
{
    text.push_str("left out, since it starts too often (--most-a-day): ")?;
    push_job_name(text, jobs, job.job)?;
    push_starts(text, job.starts)
}

/// Appends the file and line of the job at a place to a text, and its title. The only error is lack of memory.
#[tactic(auto, unfolding(crate::specs::Answers::job_name))]
pub(crate) fn push_job_name(
    text: &mut String,
    jobs: &[Job<'_>],
    place: usize,
) -> Result<(), AllocError>
    ensures { OnOk result (string_bytes text.new ≡ string_bytes text.old ++ job_name jobs.now place) }
{
    push_label(text, jobs, place)?;
    push_title(text, title_at(jobs, place))
}

#[tactic(auto, unfolding(crate::specs::Answers::quoted_title))]
fn push_title(text: &mut String, title: &str) -> Result<(), AllocError>
    ensures { OnOk result (string_bytes text.new ≡ string_bytes text.old ++ quoted_title title.now) }
{
    let title = Excerpt::of(title);
    write!(text, " {title}")
}

#[tactic(auto, unfolding(crate::specs::Answers::starts_line))]
fn push_starts(text: &mut String, count: u64) -> Result<(), AllocError>
    ensures { OnOk result (string_bytes text.new ≡ string_bytes text.old ++ starts_line count) }
{
    let starts = Starts { count };
    let or_more = or_more(count);
    write!(text, ", {starts}{or_more}\n")
}

/// What is said after the number of a job's starts: of more than a plan keeps not all are counted.
pub fn or_more(count: u64) -> &'static str
    ensures { result.now ≡ or_more count }
{
    if (MOST_STARTS as u64) < count {
        " or more"
    } else {
        ""
    }
}

/// The title of the job at a place; nothing where there is none.
pub(crate) fn title_at<'j>(jobs: &[Job<'j>], place: usize) -> &'j str
    ensures { result.now ≡ title_at (titles_of jobs.now) place }
{
    match jobs.get(place) {
        Some(job) => job.title,
        None => "",
    }
}

fn push_cut(text: &mut String, is_cut: bool) -> Result<(), AllocError>
    ensures { OnOk result (string_bytes text.new ≡ string_bytes text.old ++ cut_line is_cut) }
{
    if !is_cut {
        return Ok(());
    }
    write!(
        text,
        "the plan ends after {MOST_STARTS} starts, before what was asked for\n"
    )
}
