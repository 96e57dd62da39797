//! The report of a line as text; the forms that write it, whole or only what is found; and patterns that are words of the call.
#![tactic(auto)]

mod ago;
pub mod checker;
mod off;
pub mod patterns;
pub mod reporter;
pub mod shown;
