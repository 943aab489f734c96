//! The order of the split tree of a cell: boxes, or other things that stand for cells, which part it
//! in any order, are put into that order.
#![tactic(auto)]

mod joined;
mod run;
mod sorting;
mod stretches;

pub use joined::{in_order, spread};
pub use run::Run;
pub use sorting::sorted;
