//! How often a job starts within a span: how many times in all and on one date, and how close together.
#![tactic(auto)]

pub mod often;
