//! The starts of a plan, day by day.
ghost use Rattle.std.specs.Prelude.{◌≡◌, ◌++◌, OnOk, string_bytes};
ghost use Rattle.cronplan.specs.Counts.{date_of};
ghost use Rattle.cronplan_page.specs.PlanDays.{start_line, start_on, starts_on, day_head, day_list, day_text, day_texts, days_text};

use crate::markup::{push_list_begin, push_list_end};
use crate::pieces::{Piece, push_piece};
use crate::timed::TimedStart;
use crate::words::{push_date_name, push_many, push_started, push_time};
use cronplan::Day;
use cronplan_forms::{Job, WeekDay};
use std::alloc::AllocError;

const SECONDS_PER_DAY: i64 = 86_400;

/// Appends some days with their starts to the text of a page. The only error is lack of memory; the text's end is then unspecified.
#[tactic(auto, unfolding(crate::specs::PlanDays::days_text))]
pub(crate) fn push_days(
    out: &mut String,
    jobs: &[Job<'_>],
    starts: &[TimedStart],
    days: &[WeekDay<'_>],
) -> Result<(), AllocError>
    ensures { OnOk result (string_bytes out.new ≡ string_bytes out.old ++ days_text jobs.now starts.now days.now) }
{
    push_piece(out, Piece::DaysHeading)?;
    push_each(out, jobs, starts, days)
}

#[tactic(auto, using(crate::proofs::Steps::days_step), unfolding(crate::specs::PlanDays::day_texts))]
fn push_each(
    out: &mut String,
    jobs: &[Job<'_>],
    starts: &[TimedStart],
    days: &[WeekDay<'_>],
) -> Result<(), AllocError>
    ensures { OnOk result (string_bytes out.new ≡ string_bytes out.old ++ day_texts jobs.now starts.now days.now) }
{
    for day in days {
        push_day(out, jobs, starts, *day)?;
    }
    Ok(())
}

#[tactic(auto, unfolding(crate::specs::PlanDays::day_text))]
fn push_day(
    out: &mut String,
    jobs: &[Job<'_>],
    starts: &[TimedStart],
    day: WeekDay<'_>,
) -> Result<(), AllocError>
    ensures { OnOk result (string_bytes out.new ≡ string_bytes out.old ++ day_text jobs.now starts.now day.entry) }
{
    push_day_head(out, day)?;
    push_day_list(out, jobs, starts, day.day)?;
    push_piece(out, Piece::DayEnd)
}

// Appends the starts on a day to a text.
#[tactic(auto, unfolding(crate::specs::PlanDays::day_list, crate::specs::Markup::list_of))]
fn push_day_list(
    out: &mut String,
    jobs: &[Job<'_>],
    starts: &[TimedStart],
    day: &Day,
) -> Result<(), AllocError>
    ensures { OnOk result (string_bytes out.new ≡ string_bytes out.old ++ day_list jobs.now starts.now day.now) }
{
    let is_empty = day.starts == 0;
    push_list_begin(out, is_empty, Piece::NoMoment)?;
    push_starts_on(out, jobs, day.date, starts)?;
    push_list_end(out, is_empty)
}

// Appends the name of a day to a text, and how many starts it has.
#[tactic(auto, unfolding(crate::specs::PlanDays::day_head))]
fn push_day_head(out: &mut String, day: WeekDay<'_>) -> Result<(), AllocError>
    ensures { OnOk result (string_bytes out.new ≡ string_bytes out.old ++ day_head day.entry) }
{
    push_piece(out, Piece::Day)?;
    push_date_name(out, day.name)?;
    out.push_str(", ")?;
    push_many(out, day.day.starts, "start")?;
    push_piece(out, Piece::DayName)
}

#[tactic(auto, using(crate::proofs::Steps::starts_on_step), unfolding(crate::specs::PlanDays::starts_on))]
fn push_starts_on(
    out: &mut String,
    jobs: &[Job<'_>],
    date: i64,
    starts: &[TimedStart],
) -> Result<(), AllocError>
    ensures { OnOk result (string_bytes out.new ≡ string_bytes out.old ++ starts_on jobs.now date starts.now) }
{
    for start in starts {
        push_start_on(out, jobs, date, *start)?;
    }
    Ok(())
}

// Appends a start to a text, if the clock shows a date then.
fn push_start_on(
    out: &mut String,
    jobs: &[Job<'_>],
    date: i64,
    start: TimedStart,
) -> Result<(), AllocError>
    ensures { OnOk result (string_bytes out.new ≡ string_bytes out.old ++ start_on jobs.now date start) }
{
    if date_of(start.start.wall) != date {
        return Ok(());
    }
    push_start(out, jobs, start)
}

// The date of a wall second.
fn date_of(wall: i64) -> i64
    ensures { result ≡ date_of wall }
{
    wall.div_euclid(SECONDS_PER_DAY)
}

#[tactic(auto, unfolding(crate::specs::PlanDays::start_line))]
fn push_start(out: &mut String, jobs: &[Job<'_>], start: TimedStart) -> Result<(), AllocError>
    ensures { OnOk result (string_bytes out.new ≡ string_bytes out.old ++ start_line jobs.now start) }
{
    push_piece(out, Piece::Item)?;
    push_time(out, start.time)?;
    push_piece(out, Piece::ItemRest)?;
    push_started(out, jobs, start.start.job, start.start.count)?;
    push_piece(out, Piece::ItemEnd)
}
