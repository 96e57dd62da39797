//! What other programs make of a pattern: Kubernetes, GitHub's workflows, Quartz and Spring.
//!
//! A [`Preset`] has the settings under which [`CronParser`] comes nearest to a program. For a text, [`differences`] lists where
//! that program still refuses what the parser accepts, accepts what the parser refuses, or gives it another meaning.
//!
//! The versions are: Kubernetes with `robfig/cron` 3.0.1 (`ParseStandard`); GitHub by its documentation; Quartz 2.3.2
//! (`CronExpression`); Spring up to 5.2 (`CronSequenceGenerator`), since later versions have another parser.
//!
//! [`CronParser`]: croner::parser::CronParser
#![tactic(auto)]

mod difference;
mod fields;
mod frequent;
mod holds;
mod part;
mod preset;
mod texts;

pub use difference::{Difference, Kind};
pub use holds::differences;
pub use preset::Preset;
