//! The jobs of a plan: those that start too often to be shown, the timelines of the others, and a table of all.
ghost use Rattle.std.specs.Prelude.{◌≡◌, ◌==◌, ◌++◌, IfOk, OnOk, string_bytes, filter, take};
ghost use Rattle.cronplan_forms.specs.Frequents.{frequent_count};
ghost use Rattle.cronplan_page.specs.Markup.{number_text};
ghost use Rattle.cronplan_page.specs.Pieces.{piece_text};
ghost use Rattle.cronplan_page.specs.TimeLines.{count_at};
ghost use Rattle.cronplan_page.specs.PlanJobs.{frequent_line, frequent_lines, frequent_text, line_at, lines_section, most_next, next_starts, next_line, next_lines, next_cell, starts_cells, warnings_at, list_cell, place_cell, job_words, job_row, table_text, time_lines_from, job_rows_from};
ghost use Rattle.cronplan_page.specs.declared.timed.TimedStart.{TimedStart};

use crate::about::Warnings;
use crate::markup::{
    Line, push_element, push_html, push_list, push_list_begin, push_list_end, push_number,
};
use crate::page::Page;
use crate::pieces::{Piece, push_piece};
use crate::time_lines::{count_at, push_time_line};
use crate::timed::TimedStart;
use crate::words::{push_many, push_time, push_times, push_title};
use cronplan::Frequent;
use cronplan_forms::{Job, frequent_count, or_more};
use std::alloc::{AllocError, Global};

/// The most starts of a job that the table lists.
const MOST_NEXT: usize = 3;

// ---- jobs that start too often to be shown

/// Appends the section of these jobs to the text of a page, and nothing if there are none. The only error is lack of memory; the
/// text's end is then unspecified.
#[tactic(auto, unfolding(crate::specs::PlanJobs::frequent_text))]
pub(crate) fn push_frequent(
    out: &mut String,
    jobs: &[Job<'_>],
    frequent: &[Frequent],
) -> Result<(), AllocError>
    ensures { OnOk result (string_bytes out.new ≡ string_bytes out.old ++ frequent_text jobs.now frequent.now) }
{
    if frequent.is_empty() {
        return Ok(());
    }
    push_piece(out, Piece::Section)?;
    push_piece(out, Piece::FrequentHeading)?;
    push_piece(out, Piece::List)?;
    push_frequent_lines(out, jobs, frequent)?;
    push_piece(out, Piece::ListEnd)?;
    push_piece(out, Piece::SectionEnd)
}

#[tactic(auto, using(crate::proofs::Steps::frequent_step), unfolding(crate::specs::PlanJobs::frequent_lines))]
fn push_frequent_lines(
    out: &mut String,
    jobs: &[Job<'_>],
    frequent: &[Frequent],
) -> Result<(), AllocError>
    ensures { OnOk result (string_bytes out.new ≡ string_bytes out.old ++ frequent_lines jobs.now frequent.now) }
{
    for job in frequent {
        push_frequent_line(out, jobs, *job)?;
    }
    Ok(())
}

#[tactic(auto, unfolding(crate::specs::PlanJobs::frequent_line))]
fn push_frequent_line(out: &mut String, jobs: &[Job<'_>], job: Frequent) -> Result<(), AllocError>
    ensures { OnOk result (string_bytes out.new ≡ string_bytes out.old ++ frequent_line jobs.now job) }
{
    push_piece(out, Piece::Item)?;
    push_title(out, jobs, job.job)?;
    push_piece(out, Piece::ItemRest)?;
    push_many(out, job.starts, "start")?;
    out.push_str(or_more(job.starts))?;
    push_piece(out, Piece::ItemEnd)
}

// ---- lines of time

/// Appends the timelines of the shown jobs to the text of a page. The only error is lack of memory; the text's end is then unspecified.
#[tactic(auto, unfolding(crate::specs::PlanJobs::lines_section))]
pub(crate) fn push_lines_section(out: &mut String, page: Page<'_>) -> Result<(), AllocError>
    ensures { OnOk result (string_bytes out.new ≡ string_bytes out.old ++ lines_section page.entry) }
{
    push_piece(out, Piece::LinesHeading)?;
    push_time_lines(out, page, page.view.jobs)
}

#[tactic(auto, using(crate::proofs::Places::time_lines_step))]
fn push_time_lines(out: &mut String, page: Page<'_>, jobs: &[Job<'_>]) -> Result<(), AllocError>
    ensures { OnOk result (string_bytes out.new ≡ string_bytes out.old ++ time_lines_from page.entry 0 jobs.now) }
{
    for place in 0..jobs.len() {
        push_line_at(out, page, place, jobs[place])?;
    }
    Ok(())
}

// Appends the timeline of the job at a place to a text, if the job is shown.
#[tactic(auto, unfolding(crate::specs::PlanJobs::line_at))]
fn push_line_at(
    out: &mut String,
    page: Page<'_>,
    place: usize,
    job: Job<'_>,
) -> Result<(), AllocError>
    ensures { OnOk result (string_bytes out.new ≡ string_bytes out.old ++ line_at page.entry place job.entry) }
{
    match frequent_count(page.view.frequent, place) {
        Some(_) => Ok(()),
        None => push_time_line(out, page, place, job),
    }
}

// ---- the table

/// Appends the table of the jobs to the text of a page. The only error is lack of memory; the text's end is then unspecified.
#[tactic(auto, unfolding(crate::specs::PlanJobs::table_text))]
pub(crate) fn push_table(alloc: Global, out: &mut String, page: Page<'_>) -> Result<(), AllocError>
    ensures { OnOk result (string_bytes out.new ≡ string_bytes out.old ++ table_text page.entry) }
{
    push_piece(out, Piece::JobsHeading)?;
    push_piece(out, Piece::JobsTable)?;
    push_rows(alloc, out, page, page.view.jobs)?;
    push_piece(out, Piece::TableEnd)
}

#[tactic(auto, using(crate::proofs::Places::job_rows_step))]
fn push_rows(
    alloc: Global,
    out: &mut String,
    page: Page<'_>,
    jobs: &[Job<'_>],
) -> Result<(), AllocError>
    ensures { OnOk result (string_bytes out.new ≡ string_bytes out.old ++ job_rows_from page.entry 0 jobs.now) }
{
    for place in 0..jobs.len() {
        push_row(alloc, out, page, place, jobs[place])?;
    }
    Ok(())
}

#[tactic(auto, unfolding(crate::specs::PlanJobs::job_row))]
fn push_row(
    alloc: Global,
    out: &mut String,
    page: Page<'_>,
    place: usize,
    job: Job<'_>,
) -> Result<(), AllocError>
    ensures { OnOk result (string_bytes out.new ≡ string_bytes out.old ++ job_row page.entry place job.entry) }
{
    push_words(out, job)?;
    push_starts_cells(alloc, out, page, place)?;
    push_warnings(out, page.about.warnings, place)?;
    push_piece(out, Piece::RowEnd)
}

// Appends to a text what is said of a job in words.
#[tactic(auto, unfolding(crate::specs::PlanJobs::job_words))]
fn push_words(out: &mut String, job: Job<'_>) -> Result<(), AllocError>
    ensures { OnOk result (string_bytes out.new ≡ string_bytes out.old ++ job_words job.entry) }
{
    push_element(out, Piece::Row, job.title, Piece::RowName)?;
    push_element(out, Piece::Cell, job.words, Piece::CellEnd)?;
    push_place(out, job)
}

// Appends the file and line of a job to a text.
#[tactic(auto, unfolding(crate::specs::PlanJobs::place_cell))]
fn push_place(out: &mut String, job: Job<'_>) -> Result<(), AllocError>
    ensures { OnOk result (string_bytes out.new ≡ string_bytes out.old ++ place_cell job.entry) }
{
    let line = job.line;
    push_piece(out, Piece::Cell)?;
    push_html(out, job.file)?;
    write!(out, ":{line}")?;
    push_piece(out, Piece::CellEnd)
}

// Appends the cells on the starts of the job at a place to a text.
fn push_starts_cells(
    alloc: Global,
    out: &mut String,
    page: Page<'_>,
    place: usize,
) -> Result<(), AllocError>
    ensures { OnOk result (string_bytes out.new ≡ string_bytes out.old ++ starts_cells page.entry place (frequent_count page.entry.view.frequent.now place)) }
{
    match frequent_count(page.view.frequent, place) {
        Some(starts) => push_too_frequent(out, starts),
        None => push_shown_starts(alloc, out, page, place),
    }
}

fn push_too_frequent(out: &mut String, starts: u64) -> Result<(), AllocError>
    ensures { OnOk result (string_bytes out.new ≡ string_bytes out.old ++ (number_text starts ++ piece_text Piece.TooFrequent)) }
{
    push_number(out, starts)?;
    push_piece(out, Piece::TooFrequent)
}

fn push_shown_starts(
    alloc: Global,
    out: &mut String,
    page: Page<'_>,
    place: usize,
) -> Result<(), AllocError>
    ensures { OnOk result (string_bytes out.new ≡ string_bytes out.old
        ++ (number_text (count_at place page.entry.view.plan.now.starts.items) ++ next_cell (next_starts place page.entry.starts.now))) }
{
    push_number(out, count_at(page.view.plan, place))?;
    push_next(alloc, out, page.starts, place)
}

// Appends to a text a cell with the first of these starts that are of the job at a place.
fn push_next(
    alloc: Global,
    out: &mut String,
    starts: &[TimedStart],
    place: usize,
) -> Result<(), AllocError>
    ensures { OnOk result (string_bytes out.new ≡ string_bytes out.old ++ next_cell (next_starts place starts.now)) }
{
    let own = own_starts(alloc, starts, place)?;
    push_next_cell(out, first_starts(own.as_slice()))
}

// Those of these starts that are of the job at a place.
fn own_starts(
    alloc: Global,
    starts: &[TimedStart],
    place: usize,
) -> Result<Vec<TimedStart>, AllocError>
    ensures { IfOk result (λ own. own.items ≡ filter (λ (s : TimedStart). s.start.job == place) starts.now) }
{
    let mut own = Vec::new(alloc);
    for start in starts {
        if start.start.job == place {
            own.push(*start)?;
        }
    }
    Ok(own)
}

// The first of these starts, as many as the table lists.
fn first_starts(starts: &[TimedStart]) -> &[TimedStart]
    ensures { result.now ≡ take most_next starts.now }
{
    if starts.len() > MOST_NEXT {
        return starts.split_at(MOST_NEXT).0;
    }
    starts
}

#[tactic(auto, unfolding(crate::specs::PlanJobs::next_cell, crate::specs::Markup::list_of))]
fn push_next_cell(out: &mut String, starts: &[TimedStart]) -> Result<(), AllocError>
    ensures { OnOk result (string_bytes out.new ≡ string_bytes out.old ++ next_cell starts.now) }
{
    push_piece(out, Piece::Cell)?;
    push_list_begin(out, starts.is_empty(), Piece::NoStart)?;
    push_next_lines(out, starts)?;
    push_list_end(out, starts.is_empty())?;
    push_piece(out, Piece::CellEnd)
}

#[tactic(auto, using(crate::proofs::Steps::next_step), unfolding(crate::specs::PlanJobs::next_lines))]
fn push_next_lines(out: &mut String, starts: &[TimedStart]) -> Result<(), AllocError>
    ensures { OnOk result (string_bytes out.new ≡ string_bytes out.old ++ next_lines starts.now) }
{
    for start in starts {
        push_next_line(out, *start)?;
    }
    Ok(())
}

#[tactic(auto, unfolding(crate::specs::PlanJobs::next_line))]
fn push_next_line(out: &mut String, start: TimedStart) -> Result<(), AllocError>
    ensures { OnOk result (string_bytes out.new ≡ string_bytes out.old ++ next_line start) }
{
    push_piece(out, Piece::PlainItem)?;
    push_time(out, start.time)?;
    push_times(out, start.start.count)?;
    push_piece(out, Piece::ItemEnd)
}

// Appends to a text a cell with what to beware of in the job at a place.
fn push_warnings(
    out: &mut String,
    warnings: &[Warnings<'_>],
    place: usize,
) -> Result<(), AllocError>
    ensures { OnOk result (string_bytes out.new ≡ string_bytes out.old ++ list_cell (warnings_at warnings.now place) Piece.NoWarning) }
{
    match warnings.get(place) {
        Some(warnings) => push_cell(out, warnings.lines, Piece::NoWarning),
        None => push_cell(out, &[], Piece::NoWarning),
    }
}

// Appends a cell with a list to a text.
#[tactic(auto, unfolding(crate::specs::PlanJobs::list_cell))]
fn push_cell(out: &mut String, lines: &[Line<'_>], none: Piece) -> Result<(), AllocError>
    ensures { OnOk result (string_bytes out.new ≡ string_bytes out.old ++ list_cell lines.now none) }
{
    push_piece(out, Piece::Cell)?;
    push_list(out, lines, none)?;
    push_piece(out, Piece::CellEnd)
}
