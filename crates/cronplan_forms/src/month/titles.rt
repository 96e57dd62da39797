//! The titles of a plan by their dates.
ghost use Rattle.std.specs.Prelude.{◌≡◌, ◌++◌, ◌∷◌, [], IfOk, OnOk, filter, map, int_lt, int_le};
ghost use Rattle.std.specs.List.{flat_map};
ghost use Rattle.cronplan_forms.specs.PlanMonths.{shown_daily, shown_title, titled, told_at, told_of};
ghost use Rattle.cronplan_forms.specs.Private.DatedTitles.{AreByDate, HaveSameDates, is_on};

use super::{Daily, Titled};
use crate::date_name::date_of_wall;
use crate::job::Job;
use cronplan::JobStart;
use std::alloc::{AllocError, Global};

/// The titles of starts on their dates, those of jobs that are there, in order.
pub(crate) fn titles_of<'v>(
    alloc: Global,
    jobs: &[Job<'v>],
    starts: &[JobStart],
) -> Result<Vec<Titled<'v>>, AllocError>
    ensures { IfOk result (λ titles. map shown_title titles.items ≡ flat_map (titled (told_of jobs.now)) starts.now) }
{
    let mut titles = Vec::new(alloc);
    for start in starts {
        push_start(&mut titles, jobs, *start)?;
    }
    Ok(titles)
}

// Puts the title of a start after the others, if its job is there.
fn push_start<'v>(
    titles: &mut Vec<Titled<'v>>,
    jobs: &[Job<'v>],
    start: JobStart,
) -> Result<(), AllocError>
    ensures { OnOk result (map shown_title titles.new.items ≡ map shown_title titles.old.items ++ titled (told_of jobs.now) start) }
{
    let date = date_of_wall(start.wall);
    match jobs.get(start.job) {
        Some(job) => push_title(titles, date, job.title),
        None => Ok(()),
    }
}

fn push_title<'v>(titles: &mut Vec<Titled<'v>>, date: i64, title: &'v str) -> Result<(), AllocError>
    ensures { OnOk result (map shown_title titles.new.items ≡ map shown_title titles.old.items ++ (date, title.now) ∷ []) }
{
    titles.push(Titled { date, title })?;
    Ok(())
}

/// What is told of the jobs at these places, those that are there.
pub(crate) fn daily_of<'v>(
    alloc: Global,
    jobs: &[Job<'v>],
    places: &[usize],
) -> Result<Vec<Daily<'v>>, AllocError>
    ensures { IfOk result (λ daily. map shown_daily daily.items ≡ flat_map (told_at (told_of jobs.now)) places.now) }
{
    let mut daily = Vec::new(alloc);
    for place in places {
        push_place(&mut daily, jobs, *place)?;
    }
    Ok(daily)
}

// Puts what is told of the job at a place after the others, if it is there.
fn push_place<'v>(
    daily: &mut Vec<Daily<'v>>,
    jobs: &[Job<'v>],
    place: usize,
) -> Result<(), AllocError>
    ensures { OnOk result (map shown_daily daily.new.items ≡ map shown_daily daily.old.items ++ told_at (told_of jobs.now) place) }
{
    match jobs.get(place) {
        Some(job) => push_job(daily, job),
        None => Ok(()),
    }
}

fn push_job<'v>(daily: &mut Vec<Daily<'v>>, job: &Job<'v>) -> Result<(), AllocError>
    ensures { OnOk result (map shown_daily daily.new.items ≡ map shown_daily daily.old.items ++ (job.now.title.now, job.now.words.now) ∷ []) }
{
    daily.push(Daily {
        title: job.title,
        words: job.words,
    })?;
    Ok(())
}

/// The same titles in order of their dates, those on one date in the order that they had.
pub(crate) fn titles_by_date(mut titles: Vec<Titled<'_>>) -> Result<Vec<Titled<'_>>, AllocError>
    ensures order { IfOk result (λ sorted. AreByDate sorted.items) }
    ensures same { IfOk result (λ sorted. HaveSameDates titles.entry.items sorted.items) }
{
    titles.sort_by_key(|title| title.date)?;
    Ok(titles)
}

/// Of titles in order of their dates, those on this date.
pub(crate) fn titles_on<'t, 'v>(titles: &'t [Titled<'v>], date: i64) -> &'t [Titled<'v>]
    requires { AreByDate titles.now }
    ensures { result.now ≡ filter (is_on date) titles.now }
{
    let earlier = titles.partition_point(
        |title: &Titled<'_>| -> bool
            ensures { result ≡ int_lt title.now.date date }
        { title.date < date },
    );
    titles_first(titles.split_at(earlier).1, date)
}

// Of titles in order of their dates, none of them earlier than this date, those on it.
fn titles_first<'t, 'v>(titles: &'t [Titled<'v>], date: i64) -> &'t [Titled<'v>]
    requires order { AreByDate titles.now }
    ensures { result.now ≡ filter (λ t. int_le t.date date) titles.now }
{
    let count = titles.partition_point(
        |title: &Titled<'_>| -> bool
            ensures { result ≡ int_le title.now.date date }
        { title.date <= date },
    );
    titles.split_at(count).0
}
