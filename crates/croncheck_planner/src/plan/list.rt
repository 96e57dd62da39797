//! A plan as a list of its starts.
ghost use Rattle.std.specs.Prelude.{◌≡◌, ◌++◌, ◌∷◌, ℕ, List, [], IfOk, OnOk, string_bytes};
ghost use Rattle.std.specs.List.{list_any};
ghost use Rattle.jiff.specs.ZoneView.{plain_zone};
ghost use Rattle.croncheck_output.specs.Output.{written_of};
ghost use Rattle.croncheck_planner.specs.Plan.{is_new};
ghost use Rattle.croncheck_planner.specs.PlanList.{head_text, is_crontab, is_pattern, whose_by_kinds, whose_text, labels, label_at, times_text, line_text, IsClockAt, IsOtherClock, IsMomentText, WritesMoment, WritesLine, WritesNext, WritesStarts, WritesList, over_text, more_text, cut_text, IsListEnd};
ghost use Rattle.croncheck_shown.specs.Shown.{IsClockText, IsWindowEnd};

use crate::plan::{Ending, Found, is_new};
use crate::planner::Planned;
use croncheck_output::output::Output;
use croncheck_reading::progress::Terms;
use croncheck_report::shared::Shared;
use croncheck_runs::runs::Listing;
use croncheck_shown::shown::runs::push_other_clock;
use croncheck_shown::shown::{push_clock, window_end};
use croner::time::table::{ClockTable, TableTime};
use cronplan::{JobStart, MOST_STARTS};
use cronplan_jobs::Schedule;
use std::alloc::{AllocError, Global};
use std::io;
use std::io::Write;

/// Writes the list of what was found of these jobs: whose the starts are, the starts in order, and how the
/// list ends.
pub(crate) fn write_list<W: Write>(
    terms: &Terms<'_, '_>,
    front: &str,
    jobs: &[Planned],
    found: &Found,
    output: &mut Output<W>,
) -> io::Result<()>
    ensures { OnOk result (WritesList terms.now.settings.now terms.now.shared.now front.now (labels jobs.now) found.now (written_of W.contents output.old) (written_of W.contents output.new)) }
{
    let starts = found.listed_starts(terms.settings.listing);
    let is_empty = starts.is_empty();
    output.write_apart(head_text(front, is_empty))?;
    write_starts(terms, jobs, starts, output)?;
    let ending = found.ending(terms.settings.listing, terms.settings.last());
    let text = end_text(terms, ending, is_empty)?;
    output.write_apart(text.as_str())
}

/// Whose the starts of these jobs are.
pub(crate) fn whose_text(jobs: &[Schedule]) -> &'static str
    ensures { result.now ≡ whose_text jobs.now }
{
    whose_by_kinds(any_crontab(jobs), any_pattern(jobs))
}

fn whose_by_kinds(has_crontab: bool, has_pattern: bool) -> &'static str
    ensures { result.now ≡ whose_by_kinds has_crontab has_pattern }
{
    if has_crontab && has_pattern {
        "these are cron's starts of the crontabs, and croner's runs of the patterns\n"
    } else if has_crontab {
        "these are cron's starts\n"
    } else {
        "these are croner's runs\n"
    }
}

fn any_crontab(jobs: &[Schedule]) -> bool
    ensures { result ≡ list_any is_crontab jobs.now }
{
    jobs.iter().any(|job| is_crontab(job))
}

fn any_pattern(jobs: &[Schedule]) -> bool
    ensures { result ≡ list_any is_pattern jobs.now }
{
    jobs.iter().any(|job| is_pattern(job))
}

fn is_crontab(job: &Schedule) -> bool
    ensures { result ≡ is_crontab job.now }
{
    match job {
        Schedule::Crontab(_) => true,
        Schedule::Pattern(_) => false,
    }
}

fn is_pattern(job: &Schedule) -> bool
    ensures { result ≡ is_pattern job.now }
{
    match job {
        Schedule::Crontab(_) => false,
        Schedule::Pattern(_) => true,
    }
}

/// What stands in front of the starts of a plan: whose they are, if there are any.
pub(crate) fn head_text(front: &str, is_empty: bool) -> &str
    ensures { result.now ≡ head_text front.now is_empty }
{
    if is_empty { "" } else { front }
}

// Writes starts of jobs, in order.
fn write_starts<W: Write>(
    terms: &Terms<'_, '_>,
    jobs: &[Planned],
    starts: &[JobStart],
    output: &mut Output<W>,
) -> io::Result<()>
    ensures { OnOk result (WritesStarts terms.now.settings.now terms.now.shared.now (labels jobs.now) starts.now (written_of W.contents output.old) (written_of W.contents output.new)) }
{
    let mut last = None;
    for k in 0..starts.len() {
        write_start(terms, jobs, last, &starts[k], output)?;
        last = Some(second_of(&starts[k]));
    }
    Ok(())
}

fn second_of(start: &JobStart) -> i64
    ensures { result ≡ start.now.second }
{
    start.second
}

// Writes a start of a job, after one at this second, if there is one.
fn write_start<W: Write>(
    terms: &Terms<'_, '_>,
    jobs: &[Planned],
    last: Option<i64>,
    start: &JobStart,
    output: &mut Output<W>,
) -> io::Result<()>
    ensures { OnOk result (WritesLine terms.now.settings.now terms.now.shared.now (labels jobs.now) (is_new last start.now) start.now (written_of W.contents output.old) (written_of W.contents output.new)) }
{
    let line = line_text(terms.alloc, jobs, start)?;
    if is_new(last, start) {
        return write_moment(terms, start.second, line.as_str(), output);
    }
    output.write(line.as_str())
}

// Writes what the clock shows at a second, set apart, and the line of the first job that starts then.
fn write_moment<W: Write>(
    terms: &Terms<'_, '_>,
    second: i64,
    line: &str,
    output: &mut Output<W>,
) -> io::Result<()>
    ensures { OnOk result (WritesMoment terms.now.settings.now terms.now.shared.now second line.now (written_of W.contents output.old) (written_of W.contents output.new)) }
{
    let text = moment_text(terms, second, line)?;
    output.write_apart(text.as_str())
}

// What the clock shows at a second, and this line below it.
fn moment_text(terms: &Terms<'_, '_>, second: i64, line: &str) -> Result<String, AllocError>
    ensures { IfOk result (λ text. IsMomentText terms.now.settings.now terms.now.shared.now second line.now (string_bytes text)) }
{
    let table = terms.settings.changes.start.table();
    let mut text = clock_text(terms.alloc, terms.shared, table, second)?;
    let other = other_clock_text(terms.alloc, terms.shared, second)?;
    push_below(&mut text, other.as_str(), line)?;
    Ok(text)
}

// Puts after a text what another clock shows, and a line below it.
fn push_below(text: &mut String, other: &str, line: &str) -> Result<(), AllocError>
    ensures { OnOk result (string_bytes text.new ≡ string_bytes text.old ++ (other.now ++ 10 ∷ line.now)) }
{
    text.push_str(other)?;
    text.push('\n')?;
    text.push_str(line)
}

// What the zone's clock shows at a second, and the second; nothing if the table doesn't have it.
fn clock_text(
    alloc: Global,
    shared: &Shared<'_>,
    table: &ClockTable,
    second: i64,
) -> Result<String, AllocError>
    ensures { IfOk result (λ text. IsClockAt shared.now table.now second (string_bytes text)) }
{
    let Ok(time) = TableTime::new(table, second) else {
        return Ok(String::new(alloc));
    };
    clock_text_of(alloc, shared, &time)
}

fn clock_text_of(
    alloc: Global,
    shared: &Shared<'_>,
    time: &TableTime<'_>,
) -> Result<String, AllocError>
    ensures { IfOk result (λ text. IsClockText (plain_zone shared.now.zone) time.now (string_bytes text)) }
{
    let mut text = String::new(alloc);
    push_clock(&mut text, shared, time)?;
    Ok(text)
}

// What another zone's clock shows at a second, if there is one.
fn other_clock_text(alloc: Global, shared: &Shared<'_>, second: i64) -> Result<String, AllocError>
    ensures { IfOk result (λ text. IsOtherClock shared.now (string_bytes text)) }
{
    let mut text = String::new(alloc);
    if shared.other_zone.is_some() {
        push_other_clock(&mut text, shared, second)?;
    }
    Ok(text)
}

// What is shown of a start below its moment: its job, and how often it is started where it isn't once.
fn line_text(alloc: Global, jobs: &[Planned], start: &JobStart) -> Result<String, AllocError>
    ensures { IfOk result (λ text. string_bytes text ≡ line_text (labels jobs.now) start.now) }
{
    let mut text = String::new(alloc);
    push_label(&mut text, jobs, start.job)?;
    push_times(&mut text, start.count)?;
    text.push('\n')?;
    Ok(text)
}

// Puts after a text what is shown of the job at a place.
fn push_label(text: &mut String, jobs: &[Planned], place: usize) -> Result<(), AllocError>
    ensures { OnOk result (string_bytes text.new ≡ string_bytes text.old ++ label_at (labels jobs.now) place) }
{
    match jobs.get(place) {
        Some(job) => text.push_str(job.label.as_str()),
        None => Ok(()),
    }
}

fn push_times(text: &mut String, count: u32) -> Result<(), AllocError>
    ensures { OnOk result (string_bytes text.new ≡ string_bytes text.old ++ times_text count) }
{
    if count == 1 {
        return Ok(());
    }
    write!(text, "  {count} times")
}

// What stands after the starts of a list, or after none.
fn end_text(terms: &Terms<'_, '_>, ending: Ending, is_empty: bool) -> Result<String, AllocError>
    ensures { IfOk result (λ text. IsListEnd terms.now.settings.now terms.now.shared.now ending is_empty (string_bytes text)) }
{
    match ending {
        Ending::More => String::from_str(terms.alloc, more_text(terms.settings.listing, is_empty)),
        Ending::Cut => cut_text(terms.alloc),
        Ending::Whole => whole_text(terms, is_empty),
    }
}

fn cut_text(alloc: Global) -> Result<String, AllocError>
    ensures { IfOk result (λ text. string_bytes text ≡ cut_text) }
{
    format!(in alloc; "and more: a plan ends after {MOST_STARTS} starts\n")
}

// Where the clock's window ends.
fn whole_text(terms: &Terms<'_, '_>, is_empty: bool) -> Result<String, AllocError>
    ensures { IfOk result (λ text. IsListEnd terms.now.settings.now terms.now.shared.now Ending.Whole is_empty (string_bytes text)) }
{
    match terms.settings.last() {
        None => String::from_str(terms.alloc, over_text(is_empty)),
        Some(_) => window_end_line(terms.alloc, terms.shared),
    }
}

// Where no start is left; it may be that no job starts at all.
fn over_text(is_empty: bool) -> &'static str
    ensures { result.now ≡ over_text is_empty }
{
    if is_empty {
        "no job starts: no start is left before year 5000\n"
    } else {
        "no more: no start is left before year 5000\n"
    }
}

// Where more may come: nothing, but of a list up to a second that has no start.
fn more_text(listing: Listing, is_empty: bool) -> &'static str
    ensures { result.now ≡ more_text listing is_empty }
{
    match listing {
        Listing::Until(_) if is_empty => "no start up to then\n",
        Listing::Until(_) | Listing::Count(_) => "",
    }
}

// What is said where the clock's window ends, as a line.
fn window_end_line(alloc: Global, shared: &Shared<'_>) -> Result<String, AllocError>
    ensures { IfOk result (λ text. (said : List ℕ) × IsWindowEnd shared.now.stop said × (string_bytes text ≡ said ++ 10 ∷ [])) }
{
    let mut line = window_end(alloc, shared)?;
    line.push('\n')?;
    Ok(line)
}
