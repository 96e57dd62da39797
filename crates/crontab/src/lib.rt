//! The lines of a crontab, as Debian's cron(8) reads them: what each is, when its job runs, and where the fault
//! of a refused line is. Also where cron and croner's parser read the same five fields differently. No file is
//! opened here, and no clock is read.
#![tactic(auto)]

pub mod bytes;
pub mod check;
pub mod content;
pub mod field;
pub mod line;
pub mod lines;
pub mod list;
pub mod notes;
pub mod parsed;
mod place;
pub mod setting;
pub mod star;
