//! Laws that follow from the definitions, each the contract of a small public function. A caller may rely on them
//! without reading the definitions.

pub mod calendar;
pub mod clocks;
pub mod marks;
pub mod tables;
