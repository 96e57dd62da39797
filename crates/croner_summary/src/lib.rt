//! A job's schedule in phrases: a description as data, which names exactly the schedule.
//!
//! A [`Summary`] has a phrase for each field of the pattern, and for its days. The phrases alone define which dates and times it
//! names. [`Summary::of`] promises that these are exactly the scheduled ones.
#![tactic(auto)]

mod day_phrases;
mod day_words;
mod days;
mod english;
mod exact;
mod field;
mod language;
mod month_words;
mod order;
mod phrase;
mod pieces;
mod plain;
mod spacing;
mod summary;
mod swedish;
mod text;
mod time_words;
mod words;

pub use days::{Days, FromEnd, MonthDays, Weekdays};
pub use language::SummaryLanguage;
pub use phrase::{Phrase, Piece};
pub use summary::Summary;
