//! A plan of jobs: a span of time, the starts in it, the windows without a start, and counts. The caller says what the jobs are.
#![tactic(auto)]

mod changes;
mod counts;
mod days;
mod frequent;
mod job_dates;
mod moments;
mod other_clock;
mod plan;
mod span;
mod start;
mod together;
mod windows;

pub use changes::ClockChange;
pub use counts::{Unit, count_of, is_frequent};
pub use days::{Day, Days, HourCell};
pub use frequent::Frequent;
pub use job_dates::{DateRange, JobDates};
pub use moments::Moment;
pub use plan::{MOST_STARTS, Plan, earlier_of};
pub use span::{EARLIEST_FIRST, LATEST_END, Span};
pub use start::{JobStart, wall_of};
pub use together::Together;
pub use windows::{Bound, Edge, Window};
