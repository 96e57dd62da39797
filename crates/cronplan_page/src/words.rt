//! Counts, titles and dates in words.
ghost use Rattle.std.specs.Prelude.{◌≡◌, ◌++◌, OnOk, string_bytes, codes};
ghost use Rattle.std.specs.Fmt.{signed_decimal};
ghost use Rattle.croner_base.specs.Civil.{weekday_index};
ghost use Rattle.croner_base.specs.CivilText.{date_text};
ghost use Rattle.cronplan_forms.specs.Calendars.{times_text};
ghost use Rattle.cronplan_forms.specs.Clocks.{weekday_text};
ghost use Rattle.cronplan_page.specs.Words.{plural_of, many_text, clock_text, time_text, between_text, duration_text, title_text, started_text, date_name};

use crate::markup::push_html;
use croner_base::time::{CivilDate, Weekday};
use cronplan_forms::{ClockTime, DateName, Job, Lasting, ShownTime, weekday_text};
use std::alloc::AllocError;

/// Appends a number of things to the text of a page, as `5 jobs`. The only error is lack of memory; the text's end is then unspecified.
#[tactic(auto, unfolding(crate::specs::Words::many_text))]
pub(crate) fn push_many(out: &mut String, count: u64, name: &str) -> Result<(), AllocError>
    ensures { OnOk result (string_bytes out.new ≡ string_bytes out.old ++ many_text count name.now) }
{
    let plural = plural_of(count);
    write!(out, "{count} {name}{plural}")
}

fn plural_of(count: u64) -> &'static str
    ensures { result.now ≡ plural_of count }
{
    if count == 1 { "" } else { "s" }
}

/// Appends to the text of a page what a clock shows, as `Sun 2027-03-28 03:00:00 +02:00`. The only error is lack of memory.
#[tactic(auto, unfolding(crate::specs::Words::clock_text))]
pub(crate) fn push_clock(out: &mut String, time: ClockTime) -> Result<(), AllocError>
    ensures { OnOk result (string_bytes out.new ≡ string_bytes out.old ++ clock_text time) }
{
    write!(out, "{time}")
}

/// Appends to the text of a page what the clocks show: the plan's, and after an equals sign that of a second zone, if one is shown. The
/// only error is lack of memory.
#[tactic(auto, unfolding(crate::specs::Words::time_text))]
pub(crate) fn push_time(out: &mut String, time: ShownTime) -> Result<(), AllocError>
    ensures { OnOk result (string_bytes out.new ≡ string_bytes out.old ++ time_text time) }
{
    write!(out, "{time}")
}

/// Appends two times, with `to` between them, to the text of a page. The only error is lack of memory.
#[tactic(auto, unfolding(crate::specs::Words::between_text))]
pub(crate) fn push_between(
    out: &mut String,
    from: ShownTime,
    until: ShownTime,
) -> Result<(), AllocError>
    ensures { OnOk result (string_bytes out.new ≡ string_bytes out.old ++ between_text from until) }
{
    push_time(out, from)?;
    out.push_str(" to ")?;
    push_time(out, until)
}

/// Appends to the text of a page how long something lasts, as `9h 30m`. The only error is lack of memory.
#[tactic(auto, unfolding(crate::specs::Words::duration_text))]
pub(crate) fn push_duration(out: &mut String, seconds: u64) -> Result<(), AllocError>
    ensures { OnOk result (string_bytes out.new ≡ string_bytes out.old ++ duration_text seconds) }
{
    let lasting = Lasting { seconds };
    write!(out, "{lasting}")
}

/// Appends the title of the job at a place to the text of a page, if there is one. The only error is lack of memory.
pub(crate) fn push_title(out: &mut String, jobs: &[Job<'_>], place: usize) -> Result<(), AllocError>
    ensures { OnOk result (string_bytes out.new ≡ string_bytes out.old ++ title_text jobs.now place) }
{
    match jobs.get(place) {
        Some(job) => push_html(out, job.title),
        None => Ok(()),
    }
}

/// Appends to the text of a page the title of the job at a place, and how many times it is started, unless once. The only error is lack of
/// memory.
#[tactic(auto, unfolding(crate::specs::Words::started_text))]
pub(crate) fn push_started(
    out: &mut String,
    jobs: &[Job<'_>],
    place: usize,
    count: u32,
) -> Result<(), AllocError>
    ensures { OnOk result (string_bytes out.new ≡ string_bytes out.old ++ started_text jobs.now place count) }
{
    push_title(out, jobs, place)?;
    push_times(out, count)
}

/// Appends to the text of a page how many times a job is started at one second, unless once. The only error is lack of memory.
pub(crate) fn push_times(out: &mut String, count: u32) -> Result<(), AllocError>
    ensures { OnOk result (string_bytes out.new ≡ string_bytes out.old ++ times_text count) }
{
    if count == 1 {
        return Ok(());
    }
    write!(out, " ({count} times)")
}

/// Appends the name of a date to the text of a page, as `Sun 2027-03-28`; for a date that the calendar doesn't have, its number. The only
/// error is lack of memory.
pub(crate) fn push_date_name(out: &mut String, name: DateName) -> Result<(), AllocError>
    ensures { OnOk result (string_bytes out.new ≡ string_bytes out.old ++ date_name name) }
{
    match name.civil {
        Some(civil) => push_date(out, name.weekday, civil.date()),
        None => push_number_of_date(out, name.date),
    }
}

fn push_number_of_date(out: &mut String, date: i64) -> Result<(), AllocError>
    ensures { OnOk result (string_bytes out.new ≡ string_bytes out.old ++ (codes "day " ++ signed_decimal date)) }
{
    write!(out, "day {date}")
}

fn push_date(out: &mut String, weekday: Weekday, date: CivilDate) -> Result<(), AllocError>
    ensures { OnOk result (string_bytes out.new ≡ string_bytes out.old ++ (weekday_text (weekday_index weekday) ++ (codes " " ++ date_text date.year date.month date.day))) }
{
    let weekday = weekday_text(weekday);
    write!(out, "{weekday} {date}")
}
