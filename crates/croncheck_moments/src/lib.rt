//! What a person writes for a time zone and for a moment of its clock.
#![tactic(auto)]

mod date;
pub mod moment;
pub mod zone;
