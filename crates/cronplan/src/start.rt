//! The starts of a plan.
ghost use Rattle.std.specs.Prelude.{◌≡◌};
ghost use Rattle.croner_base.specs.TableZone.{table_moment};
ghost use Rattle.croner_base.specs.Zone.{reading};

use croner_base::time::CronDateTime;
use croner_base::time::table::TableTime;

/// The starts of a job at one second. They are ordered by their second, and at one second by the places of their jobs.
#[derive(Debug, Clone, Copy, PartialEq, Eq, PartialOrd, Ord)]
pub struct JobStart {
    /// The second, counted from 1970-01-01T00:00:00 UTC.
    pub second: i64,
    /// The place of the job among the jobs of the plan, from 0.
    pub job: usize,
    /// How many times it is started then.
    pub count: u32,
    /// What the clock shows then: its date and time as seconds from 1970-01-01T00:00:00.
    pub wall: i64,
}

/// What the clock shows at a time: its date and time as seconds from 1970-01-01T00:00:00.
pub fn wall_of(time: &TableTime<'_>) -> i64
    ensures { result ≡ reading (table_moment time.now) }
{
    time.to_civil().wall_second()
}
