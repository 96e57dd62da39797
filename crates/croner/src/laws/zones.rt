//! Laws of tables of zones: what searches and listings over the table of a window say about the zone itself, which need
//! not be calm outside the window.
//!
//! [`ClockTable::of_zone`](crate::time::table::ClockTable::of_zone) makes such a table, if there is one. A second is well in
//! a window if it lies at least 180,000 seconds after the window's first second, and not after its last. In a zone that is
//! never more than a day ahead of UTC two days after the first are enough. Before that the table may lack an earlier second
//! at which the zone showed the same, and a fixed-time job runs only at the first such second.
ghost use Rattle.std.specs.Prelude.{ℕ, ℤ, Bool, List, ◌++◌, ◌↔◌};
ghost use Rattle.std.specs.List.{All, Contains};
ghost use Rattle.jiff_tz.specs.declared.timezone.TimeZone.{TimeZone};
ghost use Rattle.croner_base.specs.declared.time.Direction.{Direction};
ghost use Rattle.croner_base.specs.TableZone.{table_zone};
ghost use Rattle.croner_base.specs.ZonedZone.{zoned_zone};
ghost use Rattle.croner.specs.crontable.TableItems.{BeginsTableRest, GaveAllTable, item_instants};
ghost use Rattle.croner.specs.crontable.TableListing.{TableStanding, IsLeftAt, IsTableLeft};
ghost use Rattle.croner.specs.iterator.Listing.{Standing, IsLeft, BeginsRest, GaveAll};
ghost use Rattle.croner.specs.laws.Zones.{IsClockOf, IsOnClockOf, IsWellIn, in_zone, table_in_zone};
ghost use Rattle.croner.specs.search.Limit.{InSpan, NoneInSpan};
ghost use Rattle.croner.specs.search.Runs.{job_in, Counts, Nearest, Reaches};
ghost use Rattle.croner.specs.search.PatternJob.{timetable_of};
ghost use Rattle.croner.specs.Views.{job_of};

use crate::Cron;
use croner_base::time::table::ClockTable;

/// The nearest run over the table of a window is the nearest run in the zone, if start and run lie well in the window. If
/// the start does, so does a forward run that is no later than the window's last second, and a backward run that lies far
/// enough after its first. If no run over the table counts in the searched span, none of the zone's runs that lie well in
/// the window and in the zone's span does.
pub fn runs_of_a_window(cron: &Cron, table: &ClockTable)
    ensures nearest { (zone : TimeZone) (first last : ℤ) → IsClockOf zone first last (table_zone table.now) →
        (direction : Direction) (inclusive : Bool) (start run : ℤ) → IsWellIn zone first last start → IsWellIn zone first last run →
        Nearest direction inclusive (job_in (table_zone table.now) (timetable_of (job_of cron.now))) start run →
        Nearest direction inclusive (job_in (zoned_zone zone) (timetable_of (job_of cron.now))) start run }
    ensures limit { (zone : TimeZone) (first last : ℤ) → IsClockOf zone first last (table_zone table.now) →
        (direction : Direction) (inclusive : Bool) (start i : ℤ) → IsWellIn zone first last start → IsWellIn zone first last i →
        NoneInSpan direction inclusive (job_in (table_zone table.now) (timetable_of (job_of cron.now))) start → InSpan direction (zoned_zone zone).reads i →
        ¬ (Counts direction inclusive (job_in (zoned_zone zone) (timetable_of (job_of cron.now))) start i) }
{}

/// A listing over the table of a window is the zone's own listing, as long as its items lie well in the window.
///
/// For an iterator over the table whose position lies well in the window, and one in the zone with the same pattern, position
/// and direction:
///
/// - the instants well in the window that the one has yet to give are those that the other has yet to give;
/// - the first items over the table are the first in the zone, up to the first that doesn't lie well in the window;
/// - each run of the zone well in the window that comes no later than some item over the table is among the items. So an item
///   past the window, or before the seconds well in it, means that none is left out;
/// - if the items are all that is left over the table in the searched span, each run of the zone that lies well in the
///   window and in the zone's span is among them.
pub fn listing_of_a_window(table: &ClockTable)
    ensures left { (zone : TimeZone) (first last : ℤ) (s : Standing) → IsOnClockOf zone first last (table_zone table.now) s.position →
        (i : ℤ) → IsWellIn zone first last i → IsLeft s i ↔ IsLeft (in_zone (zoned_zone zone) s) i }
    ensures begins { (zone : TimeZone) (first last : ℤ) (s : Standing) → IsOnClockOf zone first last (table_zone table.now) s.position →
        (items more : List ℤ) → BeginsRest s (items ++ more) → All (IsWellIn zone first last) items →
        BeginsRest (in_zone (zoned_zone zone) s) items }
    ensures passed { (zone : TimeZone) (first last : ℤ) (s : Standing) → IsOnClockOf zone first last (table_zone table.now) s.position →
        (items : List ℤ) (i item : ℤ) → BeginsRest s items → IsWellIn zone first last i → IsLeft (in_zone (zoned_zone zone) s) i →
        Contains items item → Reaches s.direction i item → Contains items i }
    ensures all { (zone : TimeZone) (first last : ℤ) (s : Standing) → IsOnClockOf zone first last (table_zone table.now) s.position →
        (items : List ℤ) (i : ℤ) → GaveAll s items → IsWellIn zone first last i → IsLeft (in_zone (zoned_zone zone) s) i →
        InSpan s.direction (zoned_zone zone).reads i → Contains items i }
{}

/// The same for a listing of a table of patterns over the table of a window: its items with their places.
pub fn table_listing_of_a_window(table: &ClockTable)
    ensures left { (zone : TimeZone) (first last : ℤ) (s : TableStanding) → IsOnClockOf zone first last (table_zone table.now) s.position →
        (i : ℤ) → IsWellIn zone first last i → (k : ℕ) → IsLeftAt s k i ↔ IsLeftAt (table_in_zone (zoned_zone zone) s) k i }
    ensures begins { (zone : TimeZone) (first last : ℤ) (s : TableStanding) → IsOnClockOf zone first last (table_zone table.now) s.position →
        (items more : List (ℤ × List ℕ)) → BeginsTableRest s (items ++ more) → All (IsWellIn zone first last) (item_instants items) →
        BeginsTableRest (table_in_zone (zoned_zone zone) s) items }
    ensures passed { (zone : TimeZone) (first last : ℤ) (s : TableStanding) → IsOnClockOf zone first last (table_zone table.now) s.position →
        (items : List (ℤ × List ℕ)) (i item : ℤ) → BeginsTableRest s items → IsWellIn zone first last i → IsTableLeft (table_in_zone (zoned_zone zone) s) i →
        Contains (item_instants items) item → Reaches s.direction i item → Contains (item_instants items) i }
    ensures all { (zone : TimeZone) (first last : ℤ) (s : TableStanding) → IsOnClockOf zone first last (table_zone table.now) s.position →
        (items : List (ℤ × List ℕ)) (i : ℤ) → GaveAllTable s items → IsWellIn zone first last i → IsTableLeft (table_in_zone (zoned_zone zone) s) i →
        InSpan s.direction (zoned_zone zone).reads i → Contains (item_instants items) i }
{}
