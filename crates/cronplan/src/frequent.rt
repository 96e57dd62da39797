//! Jobs that are left out of a plan.

/// A job that is left out of a plan because it starts too often.
#[derive(Debug, Clone, Copy)]
pub struct Frequent {
    /// Its place among the jobs, from 0.
    pub job: usize,
    /// How many starts it has in the span. If it starts at more than `MOST_STARTS` seconds, only the starts at the first
    /// `MOST_STARTS` + 1 of them are counted.
    pub starts: u64,
}
