//! Backends and languages of the tests. Each backend is a second on the clock of a table that can fail where that can't:
//! two can lack memory, and the other holds little. Each language is English except for a few of its functions.
#![tactic(auto)]

mod asking;
mod boxed;
pub mod laws;
mod narrow;
mod own_years;
mod twelve_hours;

pub use asking::AskingTime;
pub use boxed::BoxedTime;
pub use narrow::NarrowTime;
pub use own_years::OwnYears;
pub use twelve_hours::TwelveHours;
