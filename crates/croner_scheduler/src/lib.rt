//! A scheduler without a clock of its own: recurring jobs under ids, and which of their runs comes next.
#![tactic(auto)]

mod add;
mod again;
mod ids;
mod into_jobs;
mod iter;
mod jobs;
mod latest;
pub mod laws;
mod resume;
mod room;
mod scheduler;
mod skip;
mod stops;
mod turns;
mod wait;
mod waiting;

pub use add::{AddError, Added, NotAdded, NotReplaced, Replaced};
pub use again::Again;
use croner::CompactCron;
pub use into_jobs::IntoJobs;
pub use iter::Iter;
pub use latest::Latest;
pub use resume::Resume;
pub use scheduler::Scheduler;
pub use skip::Skip;
pub use stops::Stops;
pub use turns::Due;
pub use wait::pause_until;
pub use waiting::{Refusal, Stop, Waiting};

/// A scheduler of compact jobs, for those who have many: a `Cron` takes 872 bytes in it and 1,264 more on the heap, a
/// [`CompactCron`] 64.
pub type CompactScheduler<T> = Scheduler<CompactCron, T>;
