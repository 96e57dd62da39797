//! The jobs of a plan.

/// What the forms show of a job. Its texts are shown as they are, except for the escapes of the form.
#[derive(Clone, Copy)]
pub struct Job<'j> {
    pub title: &'j str,
    /// Its times in words.
    pub words: &'j str,
    pub file: &'j str,
    /// The number of its line there, from 1.
    pub line: u64,
    pub user: &'j str,
    /// Its times as the crontab has them.
    pub times: &'j str,
    pub command: &'j [u8],
    /// Whether cron ignores its whole file, so that it doesn't start the job. The calendar and the object say so.
    pub is_ignored: bool,
    /// How many jobs with the same user, times and command come before it.
    pub equal: u32,
}
