//! The clock of a time zone in a window of time: searches, iterators and schedulers over its times give the zone's own runs.
//!
//! Most promises about searches hold in calm zones. `jiff::Zoned` leaves to its caller whether its zone is calm.
//! [`ZoneClock::of`] tests that in a window, and its [`ZoneTime`]s carry what the test found.
#![tactic(auto)]

mod clock;
pub mod laws;
mod time;

pub use clock::ZoneClock;
pub use time::ZoneTime;
