//! Laws that follow from the definitions, each the contract of a small public function. A caller may rely on them
//! without reading the definitions.

pub mod crontable;
pub mod equality;
pub mod grammar;
pub mod listing;
pub mod rereading;
pub mod searches;
pub mod zones;

pub use croner_base::laws::{calendar, clocks, marks, tables};
pub use croner_pattern::laws::lists;
