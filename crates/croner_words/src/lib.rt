//! The languages in which patterns are described. The exact text of each function of each language is stated.
#![tactic(auto)]

pub mod english;
pub mod english_form;
pub mod language;
pub mod swedish;
