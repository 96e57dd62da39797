//! The compact job of a pattern.

ghost use Rattle.std.specs.Prelude.{◌≡◌, ℕ};
ghost use Rattle.croner_pattern.specs.Schedule.{is_plain};
ghost use Rattle.croner.specs.compact.Compact.{compact_meaning, IsAlike};
ghost use Rattle.croner.specs.compact.WordFields.{years_field};
ghost use Rattle.croner.specs.search.PatternJob.{timetable_of};
ghost use Rattle.croner.specs.Views.{job_of};

use crate::Cron;
use crate::compact::CompactCron;
use crate::compact::parts::{LastDay, hours_of, months_of, weeks_of};
use crate::compact::years::Years;
use croner_pattern::pattern::{PatternWords, Unit};
use std::alloc::Global;

// The compact job, given its years.
pub(super) fn compact_cron(alloc: Global, cron: &Cron, years: Years) -> CompactCron
    requires { (year : ℕ) → is_plain (years_field years) year ≡ is_plain (job_of cron.now).years year }
    ensures { IsAlike (timetable_of (job_of cron.now)) (timetable_of (compact_meaning result)) }
{
    let pattern = &cron.pattern;
    CompactCron {
        seconds: pattern.plain(Unit::Second),
        minutes: pattern.plain(Unit::Minute),
        years,
        hours: hours_of(pattern),
        days: pattern.plain_days(),
        nearest_days: pattern.nearest_days(),
        months: months_of(pattern),
        weekdays: weeks_of(pattern),
        last_day: LastDay::of(pattern),
        star_day: pattern.is_dom_wildcard(),
        star_weekday: pattern.is_dow_wildcard(),
        day_and_weekday: pattern.matches_dom_and_dow(),
        is_fixed_time: pattern.is_fixed_time(),
        alloc,
    }
}
