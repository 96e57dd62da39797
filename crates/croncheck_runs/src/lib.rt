//! When a job runs by the clock of a zone: the clock as far as it is followed, and the runs after a start and before it.
#![tactic(auto)]

pub mod clock;
pub mod length;
pub mod past;
pub mod previous;
pub mod runs;
