//! The form that makes a plan of all jobs: their starts after a moment, as a list, as answers, or as a calendar, a
//! page or JSON.
#![tactic(auto)]

pub mod plan;
pub mod planner;
