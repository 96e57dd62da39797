//! What a plan answers, as lines of text.

mod busy;
mod left_out;
mod questions;
mod quiet;
mod runs;
mod silence;
mod together;

pub(crate) use busy::Starts;
pub use busy::{ShownMoment, busy_text, hour_counts};
pub(crate) use left_out::push_job_name;
pub use left_out::{left_out_text, or_more};
pub use questions::{Questions, answers_text};
pub use quiet::{ShownWindow, is_at_edge, quiet_text};
pub(crate) use runs::{LEAST_LONGEST, push_longest, told_windows, window_runs};
pub use together::{ShownSet, together_text};
