//! The plan of jobs: the starts of each in a span, all of them in one list, and the jobs that start too often to be in it.
#![tactic(auto)]

mod jobs;
mod listing;

pub use jobs::plan_of;
pub use listing::Schedule;
