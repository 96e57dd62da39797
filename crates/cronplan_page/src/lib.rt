//! A plan of jobs as a page (HTML): one file without a script, which loads nothing from the network. It is a function of values: nothing
//! here reads a clock or a file.
#![tactic(auto)]

mod about;
mod changes;
mod days;
mod fullest;
mod jobs;
mod markup;
mod page;
mod pieces;
mod plan_page;
mod quiet;
mod time_lines;
mod timed;
mod week;
mod words;

pub use about::{About, Warnings};
pub use markup::Line;
pub use page::{Page, page_text};
pub use plan_page::page_of;
pub use timed::{TimedChange, TimedStart};
