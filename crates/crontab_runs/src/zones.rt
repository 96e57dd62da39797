//! What cron's starts over the table of a window say about the zone itself, whose clock need not be calm outside the window.
//!
//! `croner::laws::zones` says which table that is, and which seconds lie well in its window: those at least 50 hours after its first
//! one, up to its last. Before that the table may lack a minute that the zone's clock has shown already.
ghost use Rattle.std.specs.Prelude.{ℕ, ℤ, List, ◌++◌, ◌↔◌};
ghost use Rattle.std.specs.List.{All, Contains};
ghost use Rattle.jiff_tz.specs.declared.timezone.TimeZone.{TimeZone};
ghost use Rattle.croner_base.specs.declared.time.Direction.{Direction};
ghost use Rattle.croner_base.specs.TableZone.{table_zone};
ghost use Rattle.croner_base.specs.ZonedZone.{zoned_zone};
ghost use Rattle.croner.specs.iterator.Listing.{BeginsWhere};
ghost use Rattle.croner.specs.laws.Zones.{IsClockOf, IsWellIn};
ghost use Rattle.croner.specs.search.Limit.{InSpan, NoneInSpanWhere};
ghost use Rattle.croner.specs.search.Runs.{NearestWhere, Reaches};
ghost use Rattle.croner.specs.Recurring.{CountsFrom};
ghost use Rattle.crontab_runs.specs.Starts.{Starts, StartsTimes};
ghost use Rattle.crontab_runs.specs.Views.{cron_job_of};

use crate::job::CrontabJob;
use croner::time::table::ClockTable;

/// Well in the window of a table, cron starts a job at the same seconds by the table's clock and by the zone's, and as many times.
///
/// So the nearest start over the table, after a time or backward up to it, is the nearest in the zone, if both lie well in the window.
/// The first starts of a listing over the table are those of the zone, up to the first that doesn't lie well in the window. Each start of
/// the zone well in the window that comes no later in the direction than some start listed over the table is listed. If no start over the
/// table counts in the searched years, none of the zone's that lies well in the window and in these years does.
pub fn starts_of_a_window(job: &CrontabJob, table: &ClockTable)
    ensures times { (zone : TimeZone) (first last : ℤ) → IsClockOf zone first last (table_zone table.now) →
        (i : ℤ) → IsWellIn zone first last i → (n : ℕ) →
        StartsTimes (cron_job_of job.now) (table_zone table.now) i n ↔ StartsTimes (cron_job_of job.now) (zoned_zone zone) i n }
    ensures nearest { (zone : TimeZone) (first last : ℤ) → IsClockOf zone first last (table_zone table.now) →
        (direction : Direction) (from start : ℤ) → IsWellIn zone first last from → IsWellIn zone first last start →
        NearestWhere direction (CountsFrom direction (Starts (cron_job_of job.now) (table_zone table.now)) from) start →
        NearestWhere direction (CountsFrom direction (Starts (cron_job_of job.now) (zoned_zone zone)) from) start }
    ensures begins { (zone : TimeZone) (first last : ℤ) → IsClockOf zone first last (table_zone table.now) →
        (direction : Direction) (from : ℤ) (starts more : List ℤ) → IsWellIn zone first last from → All (IsWellIn zone first last) starts →
        BeginsWhere direction (CountsFrom direction (Starts (cron_job_of job.now) (table_zone table.now)) from) (starts ++ more) →
        BeginsWhere direction (CountsFrom direction (Starts (cron_job_of job.now) (zoned_zone zone)) from) starts }
    ensures passed { (zone : TimeZone) (first last : ℤ) → IsClockOf zone first last (table_zone table.now) →
        (direction : Direction) (from : ℤ) (starts : List ℤ) (i start : ℤ) → IsWellIn zone first last from → IsWellIn zone first last i →
        BeginsWhere direction (CountsFrom direction (Starts (cron_job_of job.now) (table_zone table.now)) from) starts →
        CountsFrom direction (Starts (cron_job_of job.now) (zoned_zone zone)) from i →
        Contains starts start → Reaches direction i start → Contains starts i }
    ensures limit { (zone : TimeZone) (first last : ℤ) → IsClockOf zone first last (table_zone table.now) →
        (direction : Direction) (from i : ℤ) → IsWellIn zone first last from → IsWellIn zone first last i →
        NoneInSpanWhere direction (table_zone table.now).reads (CountsFrom direction (Starts (cron_job_of job.now) (table_zone table.now)) from) →
        InSpan direction (zoned_zone zone).reads i → ¬ (CountsFrom direction (Starts (cron_job_of job.now) (zoned_zone zone)) from i) }
{}
