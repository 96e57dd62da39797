//! The forms in which a plan of jobs is shown. Each is a function of values: nothing here reads a clock or a file.
#![tactic(auto)]

mod ahead;
mod answers;
mod apart;
mod asked;
mod beside;
mod calendar;
mod clock;
mod content_line;
mod date_name;
mod escapes;
mod job;
mod lasting;
mod month;
mod timed;
mod view;
mod week;

pub use ahead::Ahead;
pub use answers::{
    Questions, ShownMoment, ShownSet, ShownWindow, answers_text, busy_text, hour_counts,
    is_at_edge, left_out_text, or_more, quiet_text, together_text,
};
pub use asked::{FileAsked, PlanAsked};
pub use beside::{Beside, OtherClock, ShownTime};
pub use calendar::{Calendar, Event, MOST_EVENTS, Naming, calendar_text, plan_calendar};
pub use clock::{ClockTime, weekday_text};
pub use content_line::push_content_line;
pub use date_name::DateName;
pub use escapes::{Form, escape, push_escaped};
pub use job::Job;
pub use lasting::Lasting;
pub use month::{Daily, Month, MonthDay, Titled, months_text};
pub use timed::{TimedMoment, TimedWindow, timed_moments, timed_windows};
pub use view::{Dropped, View, frequent_count};
pub use week::{Signs, WeekDay, named_days, week_text};
