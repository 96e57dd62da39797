//! What the changes of a zone's clock do to the runs of a job.
#![tactic(auto)]

pub mod changes;
