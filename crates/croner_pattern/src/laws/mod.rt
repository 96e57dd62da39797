//! Laws that follow from the definitions, each as the contract of a small public function.

pub mod lists;
