//! The jobs of a plan that lack a start where the clock is put forward.
ghost use Rattle.std.specs.Prelude.{◌≡◌, ◌++◌, Option, IfOk, OnOk};
ghost use Rattle.croncheck_changes.specs.declared.changes.meetings.Met.{Met};
ghost use Rattle.croncheck_planner.specs.Dropped.{AreDropped, IsGapOf, dropped_by};
ghost use Rattle.croncheck_report.specs.Settings.{start_of};

use croncheck_changes::changes::meetings::Met;
use croncheck_report::settings::Settings;
use croncheck_runs::runs::Runner;
use cronplan_forms::Dropped;
use cronplan_jobs::Schedule;
use std::alloc::{AllocError, Global};

/// The jobs that are warned of the first change that skips one of their seconds, since what is skipped isn't made up for. The only error
/// is lack of memory.
pub(crate) fn dropped_of(
    alloc: Global,
    settings: &Settings<'_>,
    jobs: &[Schedule],
) -> Result<Vec<Dropped>, AllocError>
    ensures { IfOk result (λ dropped. AreDropped (start_of settings.now) jobs.now dropped.items) }
{
    let mut dropped = Vec::new(alloc);
    for place in 0..jobs.len() {
        push_dropped(&mut dropped, settings, place, &jobs[place])?;
    }
    Ok(dropped)
}

// Appends the job at a place to the others, if it has such a warning.
fn push_dropped(
    dropped: &mut Vec<Dropped>,
    settings: &Settings<'_>,
    place: usize,
    job: &Schedule,
) -> Result<(), AllocError>
    ensures { OnOk result ((met : Option Met) × IsGapOf (start_of settings.now) job.now met × (dropped.new.items ≡ dropped.old.items ++ dropped_by place met)) }
{
    push_warned(dropped, place, gap_of(settings, job))
}

fn push_warned(dropped: &mut Vec<Dropped>, place: usize, met: Option<Met>) -> Result<(), AllocError>
    ensures { OnOk result (dropped.new.items ≡ dropped.old.items ++ dropped_by place met) }
{
    match met {
        Some(met) if met.is_warned() => {
            dropped.push(Dropped {
                job: place,
                second: met.meeting.change.instant,
            })?;
            Ok(())
        }
        Some(_) | None => Ok(()),
    }
}

// The first change that skips a second of a job, if one does.
fn gap_of(settings: &Settings<'_>, job: &Schedule) -> Option<Met>
    ensures { IsGapOf (start_of settings.now) job.now result }
{
    match job {
        Schedule::Crontab(job) => {
            let is_starred = job.is_starred;
            settings
                .changes
                .meetings_of(&job.cron, Runner::Cron { is_starred })
                .gap
        }
        Schedule::Pattern(cron) => settings.changes.meetings_of(cron, Runner::Croner).gap,
    }
}
