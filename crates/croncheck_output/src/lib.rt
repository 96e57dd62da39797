//! How texts are shown and written: bytes of a file as a terminal may have them, lines of a width, colours.
#![tactic(auto)]

pub mod builds;
pub mod escaped;
pub mod front;
pub mod look;
pub mod output;
pub mod severity;
pub mod user;
pub mod wrapped;
