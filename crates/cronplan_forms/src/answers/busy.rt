//! When the most jobs start.
ghost use Rattle.std.specs.Prelude.{◌≡◌, ◌++◌, ◌<◌, ◌≤◌, ℕ, length, IfOk, List, OnOk, map, string_bytes};
ghost use Rattle.std.specs.List.{All};
ghost use Rattle.croner_base.specs.TableZone.{table_zone};
ghost use Rattle.cronplan_forms.specs.Answers.{AreHourCounts, IsShownMoment, IsBusy, starts_text, moment_line, moment_lines, hour_line, hour_lines, counted_hour, busy_lines, busy_text, no_moment, shows_all};

use crate::answers::silence::Silence;
use crate::clock::{ClockTime, TimeOfDay};
use crate::view::View;
use croner_base::time::table::ClockTable;
use cronplan::{Moment, Plan, Unit};
use std::alloc::{AllocError, Global};
use std::fmt;

/// The hours of a day.
const HOURS_PER_DAY: usize = 24;

const SECONDS_PER_HOUR: u64 = 3_600;

/// A moment of a plan, and what the clock shows then.
#[derive(Clone, Copy)]
pub struct ShownMoment {
    pub moment: Moment,
    pub at: ClockTime,
}

/// The fullest moments of a plan, at most `most`: the one with the most starts first, and of equal ones the earlier. Then how many starts
/// each hour of the day has, on all days together.
///
/// The only error is lack of memory.
pub fn busy_text(alloc: Global, view: View<'_>, most: usize) -> Result<String, AllocError>
    ensures { IfOk result (λ t. (shown : List ShownMoment) × (hours : List ℕ) × IsBusy (table_zone view.entry.table.now) view.entry.plan.now most shown hours × (string_bytes t ≡ busy_text (shows_all view.entry) shown hours)) }
{
    let moments = view.plan.fullest_moments(alloc, most)?;
    let shown = shown_moments(alloc, view.table, moments.as_slice())?;
    let hours = hour_counts(alloc, view.plan)?;
    let silence = Silence {
        is_whole: view.shows_all(),
    };
    text_of_moments(alloc, silence, shown.as_slice(), hours.as_slice())
}

// What the clock of a table shows at moments.
fn shown_moments(
    alloc: Global,
    table: &ClockTable,
    moments: &[Moment],
) -> Result<Vec<ShownMoment>, AllocError>
    ensures moments { IfOk result (λ shown. map (λ s. s.moment) shown.items ≡ moments.now) }
    ensures shown { IfOk result (λ shown. All (IsShownMoment (table_zone table.now)) shown.items) }
{
    let mut shown = Vec::new(alloc);
    for moment in moments {
        shown.push(shown_moment(table, *moment))?;
    }
    Ok(shown)
}

fn shown_moment(table: &ClockTable, moment: Moment) -> ShownMoment
    ensures moment { result.moment ≡ moment }
    ensures shown { IsShownMoment (table_zone table.now) result }
{
    ShownMoment {
        moment,
        at: ClockTime::shown_at(table, moment.second),
    }
}

/// How many starts a plan has in each hour of the day, on all its dates together. The only error is lack of memory.
pub fn hour_counts(alloc: Global, plan: &Plan) -> Result<Vec<u64>, AllocError>
    ensures { IfOk result (λ hours. AreHourCounts plan.now.starts.items hours.items) }
{
    let counts = plan.counts(alloc, Unit::HourOfDay)?;
    let mut hours = Vec::new(alloc);
    for hour in 0..HOURS_PER_DAY {
        hours.push(counts.get(&(hour as i64)).copied().unwrap_or(0))?;
    }
    Ok(hours)
}

fn text_of_moments(
    alloc: Global,
    silence: Silence,
    moments: &[ShownMoment],
    hours: &[u64],
) -> Result<String, AllocError>
    requires { length hours.now ≤ 24 }
    ensures { IfOk result (λ t. string_bytes t ≡ busy_text silence.is_whole moments.now hours.now) }
{
    if moments.is_empty() {
        return no_moment(alloc, silence);
    }
    let mut text = String::new(alloc);
    push_lines(&mut text, moments, hours)?;
    Ok(text)
}

#[tactic(auto, unfolding(crate::specs::Answers::no_moment))]
fn no_moment(alloc: Global, silence: Silence) -> Result<String, AllocError>
    ensures { IfOk result (λ t. string_bytes t ≡ no_moment silence.is_whole) }
{
    format!(in alloc; "no moment: {silence}\n")
}

#[tactic(auto, unfolding(crate::specs::Answers::busy_lines))]
fn push_lines(text: &mut String, moments: &[ShownMoment], hours: &[u64]) -> Result<(), AllocError>
    requires { length hours.now ≤ 24 }
    ensures { OnOk result (string_bytes text.new ≡ string_bytes text.old ++ busy_lines moments.now hours.now) }
{
    text.push_str("the fullest moments:\n")?;
    push_moments(text, moments)?;
    text.push_str("starts by the hour of the day:\n")?;
    push_hours(text, hours)
}

#[tactic(auto, using(crate::proofs::WeekParts::moments_step), unfolding(crate::specs::Answers::moment_lines))]
fn push_moments(text: &mut String, moments: &[ShownMoment]) -> Result<(), AllocError>
    ensures { OnOk result (string_bytes text.new ≡ string_bytes text.old ++ moment_lines moments.now) }
{
    for moment in moments {
        push_moment(text, *moment)?;
    }
    Ok(())
}

#[tactic(auto, unfolding(crate::specs::Answers::moment_line))]
fn push_moment(text: &mut String, moment: ShownMoment) -> Result<(), AllocError>
    ensures { OnOk result (string_bytes text.new ≡ string_bytes text.old ++ moment_line moment) }
{
    write!(text, "  {moment}\n")
}

impl fmt::Display for ShownMoment {
    ghost use Rattle.std.specs.Prelude.{Some};
    ghost use Rattle.cronplan_forms.specs.Answers.{moment_text};

    ghost output = { λ m. Some (moment_text m) };

    fn fmt<W: fmt::Write>(&self, f: &mut fmt::Formatter<W>) -> fmt::Result {
        let (at, starts) = (
            self.at,
            Starts {
                count: self.moment.starts,
            },
        );
        write!(f, "{at}  {starts}")
    }
}

/// A number of starts: `1 start`, `5 starts`.
#[derive(Clone, Copy)]
pub(crate) struct Starts {
    pub count: u64,
}

impl fmt::Display for Starts {
    ghost use Rattle.std.specs.Prelude.{Some};
    ghost use Rattle.cronplan_forms.specs.Answers.{starts_text};

    ghost output = { λ s. Some (starts_text s.count) };

    fn fmt<W: fmt::Write>(&self, f: &mut fmt::Formatter<W>) -> fmt::Result {
        let count = self.count;
        if count == 1 {
            return f.write_str("1 start");
        }
        write!(f, "{count} starts")
    }
}

// The lines of the hours, from 0 on; an hour without a start has none.
#[tactic(auto, using(crate::proofs::WeekParts::hours_step))]
fn push_hours(text: &mut String, hours: &[u64]) -> Result<(), AllocError>
    requires { length hours.now ≤ 24 }
    ensures { OnOk result (string_bytes text.new ≡ string_bytes text.old ++ hour_lines 0 hours.now) }
{
    for hour in 0..hours.len() {
        push_hour(text, hour, hours[hour])?;
    }
    Ok(())
}

fn push_hour(text: &mut String, hour: usize, count: u64) -> Result<(), AllocError>
    requires { hour < 24 }
    ensures { OnOk result (string_bytes text.new ≡ string_bytes text.old ++ hour_line hour count) }
{
    if count == 0 {
        return Ok(());
    }
    push_counted(text, hour as u64, count)
}

#[tactic(auto, unfolding(crate::specs::Answers::counted_hour))]
fn push_counted(text: &mut String, hour: u64, count: u64) -> Result<(), AllocError>
    requires { hour < 24 }
    ensures { OnOk result (string_bytes text.new ≡ string_bytes text.old ++ counted_hour hour count) }
{
    let time = TimeOfDay {
        second: hour * SECONDS_PER_HOUR,
    };
    let starts = Starts { count };
    write!(text, "  {time}  {starts}\n")
}
