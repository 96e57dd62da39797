//! A plan of jobs as JSON: one object, which is a function of values. Nothing here reads a clock or a file.
#![tactic(auto)]

mod days;
mod document;
mod instants;
mod jobs;
mod members;
mod moments;
mod numbers;
mod quiet;
mod texts;

pub use document::{VERSION, plan_json};
pub use quiet::QUIET_SECONDS;
