//! The forms in which a scheduler keeps its jobs.

use croner::errors::CronError;
use croner::{CompactCron, Cron};
use croner_rows::Job;
use std::alloc::Global;

/// A form of a job.
#[derive(Clone, Copy)]
pub enum JobForm {
    /// A `Cron`.
    Whole,
    /// A `CompactCron`.
    Compact,
}

impl JobForm {
    /// The form that a word names.
    pub fn named(word: &str) -> Option<JobForm> {
        match word {
            "whole" => Some(JobForm::Whole),
            "compact" => Some(JobForm::Compact),
            _ => None,
        }
    }

    /// What the name of a group of such jobs ends in.
    pub fn mark(self) -> &'static str {
        match self {
            JobForm::Whole => "",
            JobForm::Compact => ", compact",
        }
    }
}

/// A job that a scheduler keeps, in one of the forms.
pub trait SchedulerJob: Drop {
    /// The job of a pattern.
    fn read(alloc: Global, pattern: &str) -> Result<Self, CronError>;
}

impl SchedulerJob for Cron {
    fn read(alloc: Global, pattern: &str) -> Result<Cron, CronError> {
        Cron::from_str(alloc, pattern)
    }
}

impl SchedulerJob for CompactCron {
    fn read(alloc: Global, pattern: &str) -> Result<CompactCron, CronError> {
        let job = Job::new(Cron::from_str(alloc, pattern)?);
        CompactCron::of(alloc, &job.cron)
    }
}
