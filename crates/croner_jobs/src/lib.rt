//! Jobs that are made of other jobs, and jobs at regular intervals.
//!
//! Each of them is [`Recurring`](croner::Recurring), so it can be a job of a scheduler, and a part of another of them. All but
//! [`Named`] have only the runs from year 3 to year 4998 in UTC.
#![tactic(auto)]

mod clock;
mod dates;
mod either;
mod interval;
mod named;
mod on_dates;
mod seek;
mod spread;
mod window;
mod within;

pub use clock::NearUtc;
pub use dates::Dates;
pub use either::Either;
pub use interval::Interval;
pub use named::Named;
pub use on_dates::OnDates;
pub use spread::{MOST_SPREAD_SECONDS, Spread};
pub use within::Within;
