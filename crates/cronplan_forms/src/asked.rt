//! What is asked of a plan.

use crate::answers::Questions;

/// What is asked of a plan.
#[derive(Clone, Copy, Drop)]
pub struct PlanAsked {
    /// Commands are shown beside the titles of their jobs.
    pub has_commands: bool,
    /// What it answers in place of its list, if anything is asked.
    pub questions: Questions,
    /// The most starts that a job may have on a day, if the answers are to be about it. `None`:
    /// they are about all jobs.
    pub most_a_day: Option<u64>,
    /// The file that is asked for, if any. Then no list and no answers are written.
    pub file: Option<FileAsked>,
}

/// A file as which a plan is asked for.
#[derive(Clone, Copy)]
pub enum FileAsked {
    /// A calendar, and how many seconds each of its events lasts, if that is said.
    Calendar(Option<u64>),
    /// A page (HTML).
    Page,
    /// JSON.
    Json,
}
