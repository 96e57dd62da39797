//! The starts of a job along a timeline, as a picture (SVG).
ghost use Rattle.std.specs.Prelude.{◌≡◌, ◌<◌, ◌≤◌, ◌^◌, ◌-ℤ◌, ◌++◌, OnOk, length, string_bytes, unsigned_abs};
ghost use Rattle.cronplan_page.specs.TimeLines.{part_of, thousandths, counted_at, count_at, rect_text, mark_text, mark_of, marks_text, change_title, change_mark, change_marks, band_text, starts_text, picture_names, line_head, time_line};

use crate::changes::push_change_words;
use crate::markup::{push_element, push_html};
use crate::page::Page;
use crate::pieces::{Piece, push_piece};
use crate::timed::{TimedChange, TimedStart};
use crate::words::{push_clock, push_many, push_time, push_times};
use cronplan::{ClockChange, JobStart, Plan, Span};
use cronplan_forms::Job;
use std::alloc::AllocError;

/// A job with more starts than this is shown as a band.
const MOST_MARKS: u64 = 200;

/// The parts into which a timeline is divided.
const PARTS: u64 = 1_000;

/// Appends the timeline of the job at a place to the text of a page. The only error is lack of memory; the text's end is then unspecified.
#[tactic(auto, unfolding(crate::specs::TimeLines::time_line))]
pub(crate) fn push_time_line(
    out: &mut String,
    page: Page<'_>,
    place: usize,
    job: Job<'_>,
) -> Result<(), AllocError>
    ensures { OnOk result (string_bytes out.new ≡ string_bytes out.old ++ time_line page.entry place job.entry) }
{
    let plan = page.view.plan;
    push_head(out, job)?;
    push_change_marks(out, plan.span, page.changes)?;
    push_starts(out, plan.span, place, count_at(plan, place), page.starts)?;
    push_piece(out, Piece::FigureEnd)
}

#[tactic(auto, unfolding(crate::specs::TimeLines::line_head))]
fn push_head(out: &mut String, job: Job<'_>) -> Result<(), AllocError>
    ensures { OnOk result (string_bytes out.new ≡ string_bytes out.old ++ line_head job.entry) }
{
    push_element(out, Piece::Figure, job.title, Piece::Caption)?;
    push_html(out, job.words)?;
    push_piece(out, Piece::Picture)?;
    push_names(out, job)
}

// Appends the name and the description of a picture to a text.
#[tactic(auto, unfolding(crate::specs::TimeLines::picture_names))]
fn push_names(out: &mut String, job: Job<'_>) -> Result<(), AllocError>
    ensures { OnOk result (string_bytes out.new ≡ string_bytes out.old ++ picture_names job.entry) }
{
    push_element(out, Piece::Title, job.title, Piece::TitleEnd)?;
    push_element(out, Piece::Description, job.words, Piece::Axis)
}

// Appends to a text the starts of a job, given how many there are: as marks, or as a band.
fn push_starts(
    out: &mut String,
    span: Span,
    place: usize,
    count: u64,
    starts: &[TimedStart],
) -> Result<(), AllocError>
    ensures { OnOk result (string_bytes out.new ≡ string_bytes out.old ++ starts_text span place count starts.now) }
{
    if count > MOST_MARKS {
        return push_band(out, count);
    }
    push_marks(out, span, place, starts)
}

#[tactic(auto, unfolding(crate::specs::TimeLines::band_text))]
fn push_band(out: &mut String, count: u64) -> Result<(), AllocError>
    ensures { OnOk result (string_bytes out.new ≡ string_bytes out.old ++ band_text count) }
{
    out.push_str("<rect class=\"b\" x=\"0\" width=\"1000\"><title>")?;
    push_many(out, count, "start")?;
    out.push_str("</title></rect>")
}

#[tactic(auto, using(crate::proofs::Steps::marks_step), unfolding(crate::specs::TimeLines::marks_text))]
fn push_marks(
    out: &mut String,
    span: Span,
    place: usize,
    starts: &[TimedStart],
) -> Result<(), AllocError>
    ensures { OnOk result (string_bytes out.new ≡ string_bytes out.old ++ marks_text span place starts.now) }
{
    for start in starts {
        push_mark_of(out, span, place, *start)?;
    }
    Ok(())
}

// Appends a start to a text, if it is of the job at a place.
fn push_mark_of(
    out: &mut String,
    span: Span,
    place: usize,
    start: TimedStart,
) -> Result<(), AllocError>
    ensures { OnOk result (string_bytes out.new ≡ string_bytes out.old ++ mark_of span place start) }
{
    if start.start.job == place {
        return push_mark(out, span, start);
    }
    Ok(())
}

#[tactic(auto, unfolding(crate::specs::TimeLines::mark_text))]
fn push_mark(out: &mut String, span: Span, start: TimedStart) -> Result<(), AllocError>
    ensures { OnOk result (string_bytes out.new ≡ string_bytes out.old ++ mark_text span start) }
{
    push_rect(out, "m", start_place(span, start.start))?;
    push_piece(out, Piece::Title)?;
    push_time(out, start.time)?;
    push_times(out, start.start.count)?;
    push_piece(out, Piece::MarkEnd)
}

// Appends the beginning of a mark at a place to a text.
#[tactic(auto, unfolding(crate::specs::TimeLines::rect_text))]
fn push_rect(out: &mut String, class: &str, at: u64) -> Result<(), AllocError>
    ensures { OnOk result (string_bytes out.new ≡ string_bytes out.old ++ rect_text class.now at) }
{
    write!(out, "<rect class=\"{class}\" x=\"{at}\">")
}

#[tactic(auto, using(crate::proofs::Steps::change_marks_step), unfolding(crate::specs::TimeLines::change_marks))]
fn push_change_marks(
    out: &mut String,
    span: Span,
    changes: &[TimedChange],
) -> Result<(), AllocError>
    ensures { OnOk result (string_bytes out.new ≡ string_bytes out.old ++ change_marks span changes.now) }
{
    for change in changes {
        push_change_mark(out, span, *change)?;
    }
    Ok(())
}

#[tactic(auto, unfolding(crate::specs::TimeLines::change_mark))]
fn push_change_mark(out: &mut String, span: Span, change: TimedChange) -> Result<(), AllocError>
    ensures { OnOk result (string_bytes out.new ≡ string_bytes out.old ++ change_mark span change) }
{
    push_rect(out, "h", change_place(span, change.change))?;
    push_piece(out, Piece::Title)?;
    push_change_title(out, change)?;
    push_piece(out, Piece::MarkEnd)
}

#[tactic(auto, unfolding(crate::specs::TimeLines::change_title))]
fn push_change_title(out: &mut String, change: TimedChange) -> Result<(), AllocError>
    ensures { OnOk result (string_bytes out.new ≡ string_bytes out.old ++ change_title change) }
{
    push_clock(out, change.shown)?;
    out.push_str(" ")?;
    push_change_words(out, change)
}

// Where a start lies in a span.
fn start_place(span: Span, start: JobStart) -> u64
    ensures { result ≡ thousandths span start.second }
{
    thousandths(span, start.second)
}

// Where a change of the clock lies in a span.
fn change_place(span: Span, change: ClockChange) -> u64
    ensures { result ≡ thousandths span change.second }
{
    thousandths(span, change.second)
}

// Where a second lies in a span, in thousandths of the span; one outside lies at its end.
#[tactic(auto, unfolding(crate::specs::TimeLines::thousandths))]
fn thousandths(span: Span, second: i64) -> u64
    ensures { result ≡ thousandths span second }
{
    part_of(span.first.abs_diff(second), length_of(span))
}

fn part_of(gone: u64, whole: u64) -> u64
    requires { whole < 2 ^ 50 }
    ensures { result ≡ part_of gone whole }
{
    if gone < whole {
        gone * PARTS / whole
    } else {
        PARTS
    }
}

// How many seconds a span has.
#[tactic(auto, using(crate::proofs::SpanLengths::span_length))]
fn length_of(span: Span) -> u64
    ensures value { result ≡ unsigned_abs (span.first -ℤ span.end) }
    ensures bound { result < 2 ^ 50 }
{
    span.first.abs_diff(span.end)
}

/// How many starts the job at a place has in a plan.
pub(crate) fn count_at(plan: &Plan, place: usize) -> u64
    ensures { result ≡ count_at place plan.now.starts.items }
{
    count_in(plan.starts.as_slice(), place)
}

fn count_in(starts: &[JobStart], place: usize) -> u64
    requires { length starts.now ≤ 100_000 }
    ensures { result ≡ count_at place starts.now }
{
    let mut count = 0;
    for start in starts {
        count += counted_at(*start, place);
    }
    count
}

// How many starts of the job at a place `start` counts: 0 if it is of another job.
fn counted_at(start: JobStart, place: usize) -> u64
    ensures value { result ≡ counted_at place start }
    ensures bound { result < 2 ^ 32 }
{
    if start.job == place {
        u64::from(start.count)
    } else {
        0
    }
}
