//! How long a program waits between its calls.
ghost use Rattle.std.specs.Prelude.{◌≡◌};
ghost use Rattle.croner_scheduler.specs.Waits.{pause_seconds};

/// How many seconds a program sleeps before it takes the due runs: up to the wake-up
/// ([`Scheduler::next_wake_up`](crate::Scheduler::next_wake_up)), but at most `most`. It is 0 where the wake-up is at `now` or before, and
/// `most` where there is none.
///
/// A program that can be told of new jobs, or whose clock may be set, passes a `most` such as 60: then it looks again that often.
///
/// ```
/// let wake_up = scheduler.next_wake_up(); // Some(1719826200)
/// let seconds = pause_until(1_719_826_170, wake_up, 60); // 30
/// let late = pause_until(1_719_826_201, wake_up, 60); // 0
/// ```
pub fn pause_until(now: i64, wake_up: Option<i64>, most: u64) -> u64
    ensures { result ≡ pause_seconds now wake_up most }
{
    match wake_up {
        Some(second) if now < second => second.abs_diff(now).min(most),
        Some(_) => 0,
        None => most,
    }
}
