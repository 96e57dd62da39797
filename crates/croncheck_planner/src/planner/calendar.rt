//! The plan of a planner's jobs as a calendar.
ghost use Rattle.std.specs.Prelude.{IfOk};
ghost use Rattle.croncheck_planner.specs.PlanFiles.{IsCalendar};

use super::{Planner, spaced_text};
use crate::plan::answers::{marked_jobs, view_of};
use croncheck_reading::progress::Terms;
use croner::errors::CronError;
use cronplan_forms::{MOST_EVENTS, Naming, plan_calendar};

/// A plan as a file.
#[derive(Drop)]
pub struct PlanFile {
    pub text: String,
    /// Whether it has fewer events than the plan has starts.
    pub is_cut: bool,
}

impl Planner {
    /// The calendar of the plan: an event for each start of its jobs, at most `MOST_EVENTS`, without the jobs that start too often. Its
    /// name is shown as bytes of a file are.
    ///
    /// The only error is `OutOfMemory`, as that of `answered_plan`.
    pub fn calendar<'p>(
        &'p self,
        terms: &'p Terms<'p, 'p>,
        naming: Naming<'_>,
    ) -> Result<PlanFile, CronError>
        ensures { IfOk result (IsCalendar terms.now.settings.now self.now naming.entry) }
    {
        let found = self.found_starts(terms)?;
        let ignored = self.ignored.as_slice();
        let jobs = self.jobs.as_slice();
        let told = marked_jobs(terms.alloc, ignored, jobs)?;
        let view = view_of(terms, self.names.zone.as_str(), &found, told.as_slice());
        let name = spaced_text(terms.alloc, naming.name.as_bytes())?;
        let naming = Naming {
            name: name.as_str(),
            ..naming
        };
        let text = plan_calendar(terms.alloc, view, naming)?;
        let starts = found.plan.starts.as_slice();
        let is_cut = starts.len() > MOST_EVENTS;
        Ok(PlanFile { text, is_cut })
    }
}
