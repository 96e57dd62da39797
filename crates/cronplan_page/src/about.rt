//! What a page says besides its plan.

use crate::markup::Line;

/// What to beware of in a job.
#[derive(Clone, Copy)]
pub struct Warnings<'p> {
    pub lines: &'p [Line<'p>],
}

/// What a page says besides its plan. Texts are shown as they are, except for the escapes of a page.
#[derive(Clone, Copy)]
pub struct About<'p> {
    pub title: &'p str,
    /// What cron ignores or refuses.
    pub ignored: &'p [Line<'p>],
    /// What to beware of, by the places of the jobs. Nothing is said for a job whose place isn't listed.
    pub warnings: &'p [Warnings<'p>],
}
