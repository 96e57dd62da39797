//! What the tools of the tests share: questions as JSON values, the calls that they ask for, and how answers are shown.
#![tactic(auto)]

mod asked;
mod clock_lists;
mod clocks;
mod comparisons;
mod faults;
mod field_calls;
mod flaky;
mod jobs;
mod marks;
mod members;
mod moments;
mod pattern_calls;
mod schedulers;
pub mod shown;
mod subjects;
mod texts;
mod times;
mod zones;

pub use asked::ask;
pub use clock_lists::{OverClocks, over_clocks};
pub use clocks::{OverTime, add_series, narrow_time, over_time, table_of};
pub use faults::{Fault, status};
pub use field_calls::{are_alike, calls_in_turn, hash_of, new_component, read_field};
pub use flaky::FlakyJob;
pub use jobs::{Job, read_parser, whole_text};
pub use marks::Caller;
pub use members::{
    civil, civil_value, direction, flag, items, list, member, number, number_at, parts, switch,
    text, three_numbers, weekday, word,
};
pub use moments::Moment;
pub use pattern_calls::{field_at, time_component};
pub use schedulers::{Named, call_in_turn, call_scheduler, new_scheduler, standings};
pub use subjects::{How, Run, Runs, Subject, Table};
pub use times::{add_time, add_time_and_job, instants};
pub use zones::{Window, ZoneSource, read_rule, table_in_window};

/// An answer, or why there is none.
pub type Result<T, E = Fault> = std::result::Result<T, E>;
