//! The fullest moments.
ghost use Rattle.std.specs.Prelude.{◌≡◌, ◌++◌, OnOk, string_bytes};
ghost use Rattle.cronplan_page.specs.Fullest.{name_at, names_at, moment_words, moment_line, moment_lines, fullest_text};

use crate::markup::{push_list_begin, push_list_end};
use crate::pieces::{Piece, push_piece};
use crate::words::{push_many, push_started, push_time};
use cronplan::{JobStart, Moment};
use cronplan_forms::{Job, TimedMoment};
use std::alloc::AllocError;

/// Appends the section of some moments of these starts to the text of a page. The only error is lack of memory; the text's end is then
/// unspecified.
#[tactic(auto, unfolding(crate::specs::Fullest::fullest_text, crate::specs::Markup::list_of))]
pub(crate) fn push_fullest(
    out: &mut String,
    jobs: &[Job<'_>],
    starts: &[JobStart],
    moments: &[TimedMoment],
) -> Result<(), AllocError>
    ensures { OnOk result (string_bytes out.new ≡ string_bytes out.old ++ fullest_text jobs.now starts.now moments.now) }
{
    push_piece(out, Piece::FullestHeading)?;
    push_list_begin(out, moments.is_empty(), Piece::NoMoment)?;
    push_moments(out, jobs, starts, moments)?;
    push_list_end(out, moments.is_empty())
}

#[tactic(auto, using(crate::proofs::Steps::moments_step), unfolding(crate::specs::Fullest::moment_lines))]
fn push_moments(
    out: &mut String,
    jobs: &[Job<'_>],
    starts: &[JobStart],
    moments: &[TimedMoment],
) -> Result<(), AllocError>
    ensures { OnOk result (string_bytes out.new ≡ string_bytes out.old ++ moment_lines jobs.now starts.now moments.now) }
{
    for moment in moments {
        push_moment(out, jobs, starts, *moment)?;
    }
    Ok(())
}

#[tactic(auto, unfolding(crate::specs::Fullest::moment_line))]
fn push_moment(
    out: &mut String,
    jobs: &[Job<'_>],
    starts: &[JobStart],
    moment: TimedMoment,
) -> Result<(), AllocError>
    ensures { OnOk result (string_bytes out.new ≡ string_bytes out.old ++ moment_line jobs.now starts.now moment) }
{
    push_piece(out, Piece::Item)?;
    push_time(out, moment.time)?;
    push_piece(out, Piece::ItemRest)?;
    push_words(out, jobs, starts, moment.moment)?;
    push_piece(out, Piece::ItemEnd)
}

// Appends to a text how many starts there are at a moment, and of which jobs.
#[tactic(auto, unfolding(crate::specs::Fullest::moment_words))]
fn push_words(
    out: &mut String,
    jobs: &[Job<'_>],
    starts: &[JobStart],
    moment: Moment,
) -> Result<(), AllocError>
    ensures { OnOk result (string_bytes out.new ≡ string_bytes out.old ++ moment_words jobs.now starts.now moment) }
{
    push_many(out, moment.starts, "start")?;
    push_names(out, jobs, moment.second, starts)
}

#[tactic(auto, using(crate::proofs::Steps::names_step), unfolding(crate::specs::Fullest::names_at))]
fn push_names(
    out: &mut String,
    jobs: &[Job<'_>],
    second: i64,
    starts: &[JobStart],
) -> Result<(), AllocError>
    ensures { OnOk result (string_bytes out.new ≡ string_bytes out.old ++ names_at jobs.now second starts.now) }
{
    for start in starts {
        push_name_at(out, jobs, second, *start)?;
    }
    Ok(())
}

// Appends the job of a start to a text, if the start is at a second.
fn push_name_at(
    out: &mut String,
    jobs: &[Job<'_>],
    second: i64,
    start: JobStart,
) -> Result<(), AllocError>
    ensures { OnOk result (string_bytes out.new ≡ string_bytes out.old ++ name_at jobs.now second start) }
{
    if start.second != second {
        return Ok(());
    }
    out.push_str(", ")?;
    push_started(out, jobs, start.job, start.count)
}
