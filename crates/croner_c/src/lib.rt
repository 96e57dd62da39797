//! The library for C: each export asks one question of the crates below, for what C can pass.
//!
//! The functions of `bindings/c/croner.h` test what only C can test, such as null pointers, and call these exports.
#![tactic(auto)]

mod clock;
mod fault;
mod job;
mod line;
mod listing;
mod put;
mod search;
mod starts;
mod status;
mod words;
mod zone;
