//! The star in a job's times, which decides what cron does where the clock changes.
ghost use Rattle.std.specs.Prelude.{◌≡◌};
ghost use Rattle.crontab.specs.Star.{has_clock_star};

use crate::bytes::begins_with;
use crate::line::word;

/// Whether the text of a job's minutes or that of its hours begins with a star, or its times are `@hourly`. `schedule` is the text as
/// it is written, as in [`Job::schedule`](crate::line::Job::schedule).
///
/// ```
/// let starred = has_clock_star(b"*/30 2 * * *"); // true
/// let starless = has_clock_star(b"0,30 2 * * *"); // false
/// ```
pub fn has_clock_star(schedule: &[u8]) -> bool
    ensures { result ≡ has_clock_star schedule.now }
{
    let (_, hours) = word(schedule);
    begins_with(schedule, b'*') || begins_with(hours, b'*') || schedule == "@hourly".as_bytes()
}
