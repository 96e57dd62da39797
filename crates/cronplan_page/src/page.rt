//! The text of a page.
ghost use Rattle.std.specs.Prelude.{◌≡◌, ◌≤◌, ◌++◌, IfOk, OnOk, length, string_bytes};
ghost use Rattle.cronplan.specs.Counts.{count_of};
ghost use Rattle.cronplan_page.specs.Pages.{head_text, ignored_text, other_text, other_zone_text, span_text, counts_text, cut_text, about_text, top_text, answers_text, plan_text, page_text};

use crate::about::About;
use crate::changes::push_changes;
use crate::days::push_days;
use crate::fullest::push_fullest;
use crate::jobs::{push_frequent, push_lines_section, push_table};
use crate::markup::{Line, push_element, push_html, push_section};
use crate::pieces::{Piece, push_piece};
use crate::quiet::push_quiet;
use crate::timed::{TimedChange, TimedStart};
use crate::week::push_week;
use crate::words::{push_between, push_many};
use cronplan::{JobStart, Plan};
use cronplan_forms::{OtherClock, ShownTime, TimedMoment, TimedWindow, View, WeekDay};
use std::alloc::{AllocError, Global};

/// What a page shows of a plan, in the order of the page. Texts are shown as they are, except for the escapes of a page.
#[derive(Clone, Copy)]
pub struct Page<'p> {
    pub view: View<'p>,
    pub about: About<'p>,
    /// The first second of the plan's span, and its end.
    pub first: ShownTime,
    pub end: ShownTime,
    /// The longest windows in which nothing starts.
    pub quiet: &'p [TimedWindow],
    /// The fullest moments.
    pub fullest: &'p [TimedMoment],
    /// All starts of the plan.
    pub starts: &'p [TimedStart],
    /// The dates of the plan, and the changes of the clock there.
    pub days: &'p [WeekDay<'p>],
    pub changes: &'p [TimedChange],
}

/// The text of a page: HTML in UTF-8, without a script, which loads nothing.
///
/// No text of the plan can end its element early. The only error is lack of memory.
#[tactic(auto, unfolding(crate::specs::Pages::page_text))]
pub fn page_text(alloc: Global, page: Page<'_>) -> Result<String, AllocError>
    ensures { IfOk result (λ t. string_bytes t ≡ page_text page.entry) }
{
    let mut text = String::new(alloc);
    push_head(&mut text, page.about.title)?;
    push_top(&mut text, page)?;
    push_answers(&mut text, page)?;
    push_plan(alloc, &mut text, page)?;
    push_piece(&mut text, Piece::PageEnd)?;
    Ok(text)
}

#[tactic(auto, unfolding(crate::specs::Pages::head_text))]
fn push_head(out: &mut String, title: &str) -> Result<(), AllocError>
    ensures { OnOk result (string_bytes out.new ≡ string_bytes out.old ++ head_text title.now) }
{
    push_piece(out, Piece::Head)?;
    push_element(out, Piece::Title, title, Piece::TitleEnd)?;
    push_piece(out, Piece::Style)?;
    push_piece(out, Piece::HeadEnd)
}

// Appends the first lines of a page after its head: what it is about, what cron ignores, and what isn't shown.
#[tactic(auto, unfolding(crate::specs::Pages::top_text))]
fn push_top(out: &mut String, page: Page<'_>) -> Result<(), AllocError>
    ensures { OnOk result (string_bytes out.new ≡ string_bytes out.old ++ top_text page.entry) }
{
    push_element(out, Piece::Name, page.about.title, Piece::NameEnd)?;
    push_about(out, page)?;
    push_ignored(out, page.about.ignored)?;
    push_frequent(out, page.view.jobs, page.view.frequent)
}

// Appends what a page is about after its name.
#[tactic(auto, unfolding(crate::specs::Pages::about_text))]
fn push_about(out: &mut String, page: Page<'_>) -> Result<(), AllocError>
    ensures { OnOk result (string_bytes out.new ≡ string_bytes out.old ++ about_text page.entry) }
{
    push_piece(out, Piece::Paragraph)?;
    push_span(out, page)?;
    push_counts(out, page)?;
    push_piece(out, Piece::ParagraphEnd)?;
    push_cut(out, page.view.is_cut)
}

// Appends the span to a text, and whose clock that is.
#[tactic(auto, unfolding(crate::specs::Pages::span_text))]
fn push_span(out: &mut String, page: Page<'_>) -> Result<(), AllocError>
    ensures { OnOk result (string_bytes out.new ≡ string_bytes out.old ++ span_text page.entry) }
{
    push_between(out, page.first, page.end)?;
    push_piece(out, Piece::OnClock)?;
    push_html(out, page.view.zone)?;
    push_other(out, page.view.other)
}

// Appends the second zone to a text, if one is shown.
fn push_other(out: &mut String, other: Option<OtherClock<'_>>) -> Result<(), AllocError>
    ensures { OnOk result (string_bytes out.new ≡ string_bytes out.old ++ other_text other.entry) }
{
    match other {
        Some(other) => push_other_zone(out, other),
        None => Ok(()),
    }
}

fn push_other_zone(out: &mut String, other: OtherClock<'_>) -> Result<(), AllocError>
    ensures { OnOk result (string_bytes out.new ≡ string_bytes out.old ++ other_zone_text other.entry) }
{
    match other.table {
        Some(_) => push_element(out, Piece::AndOn, other.zone, Piece::AndOnEnd),
        None => push_element(out, Piece::Unfollowed, other.zone, Piece::UnfollowedEnd),
    }
}

// Appends to a text how many jobs there are, and how many starts of them are shown.
#[tactic(auto, unfolding(crate::specs::Pages::counts_text))]
fn push_counts(out: &mut String, page: Page<'_>) -> Result<(), AllocError>
    ensures { OnOk result (string_bytes out.new ≡ string_bytes out.old ++ counts_text page.entry) }
{
    out.push_str(": ")?;
    push_many(out, page.view.jobs.len() as u64, "job")?;
    out.push_str(", with ")?;
    push_many(out, count_of(page.view.plan), "start")?;
    out.push_str(" shown.")
}

/// How many starts a plan has.
fn count_of(plan: &Plan) -> u64
    ensures { result ≡ count_of plan.now.starts.items }
{
    count_in(plan.starts.as_slice())
}

fn count_in(starts: &[JobStart]) -> u64
    requires { length starts.now ≤ 100_000 }
    ensures { result ≡ count_of starts.now }
{
    let mut count = 0;
    for start in starts {
        count += u64::from(start.count);
    }
    count
}

// Appends to a text what is said if the plan ends earlier than was asked for.
fn push_cut(out: &mut String, is_cut: bool) -> Result<(), AllocError>
    ensures { OnOk result (string_bytes out.new ≡ string_bytes out.old ++ cut_text is_cut) }
{
    if is_cut {
        return push_piece(out, Piece::Cut);
    }
    Ok(())
}

// Appends to a text what cron ignores, if there is anything.
#[tactic(auto, unfolding(crate::specs::Pages::ignored_text))]
fn push_ignored(out: &mut String, lines: &[Line<'_>]) -> Result<(), AllocError>
    ensures { OnOk result (string_bytes out.new ≡ string_bytes out.old ++ ignored_text lines.now) }
{
    if lines.is_empty() {
        return Ok(());
    }
    push_piece(out, Piece::Bad)?;
    push_section(out, Piece::IgnoredHeading, lines, Piece::SectionEnd)?;
    push_piece(out, Piece::SectionEnd)
}

// Appends what a plan answers after the first lines of its page.
#[tactic(auto, unfolding(crate::specs::Pages::answers_text))]
fn push_answers(out: &mut String, page: Page<'_>) -> Result<(), AllocError>
    ensures { OnOk result (string_bytes out.new ≡ string_bytes out.old ++ answers_text page.entry) }
{
    let starts = page.view.plan.starts.as_slice();
    push_quiet(out, page.quiet)?;
    push_fullest(out, page.view.jobs, starts, page.fullest)?;
    push_week(out, page.days)?;
    push_changes(out, page.changes)
}

// Appends the jobs and the days of a plan after what it answers.
#[tactic(auto, unfolding(crate::specs::Pages::plan_text))]
fn push_plan(alloc: Global, out: &mut String, page: Page<'_>) -> Result<(), AllocError>
    ensures { OnOk result (string_bytes out.new ≡ string_bytes out.old ++ plan_text page.entry) }
{
    push_lines_section(out, page)?;
    push_days(out, page.view.jobs, page.starts, page.days)?;
    push_table(alloc, out, page)
}
