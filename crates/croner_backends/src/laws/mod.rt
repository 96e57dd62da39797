//! What the two backends have in common with their tables, and what searches over them answer, each the contract of a
//! small public function.

pub mod clocks;
pub mod listings;
pub mod searches;
