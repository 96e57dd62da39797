//! The plan of a planner's jobs as JSON.
ghost use Rattle.std.specs.Prelude.{IfOk, string_bytes};
ghost use Rattle.croncheck_planner.specs.PlanFiles.{IsJson};

use super::Planner;
use crate::plan::answers::marked_jobs;
use crate::plan::beside::{other_table, view_beside};
use croncheck_reading::progress::Terms;
use croner::errors::CronError;
use cronplan_json::plan_json;

impl Planner {
    /// The plan as JSON, with this planner's names of the zones: the object that `cronplan_json::plan_json` makes, as a
    /// line. `read_first` is what it says that cron ignores.
    ///
    /// The only error is `OutOfMemory`, as that of `answered_plan`.
    pub fn json<'p>(
        &'p self,
        terms: &'p Terms<'p, 'p>,
        read_first: &[&str],
    ) -> Result<String, CronError>
        ensures { IfOk result (λ text. IsJson terms.now.settings.now terms.now.shared.now self.now read_first.now (string_bytes text)) }
    {
        let found = self.found_starts(terms)?;
        let ignored = self.ignored.as_slice();
        let jobs = self.jobs.as_slice();
        let told = marked_jobs(terms.alloc, ignored, jobs)?;
        let table = other_table(terms.alloc, terms.shared, found.plan.span)?;
        let view = view_beside(terms, &self.names, &found, &table, told.as_slice());
        let mut text = plan_json(terms.alloc, view, read_first)?;
        text.push('\n')?;
        Ok(text)
    }
}
