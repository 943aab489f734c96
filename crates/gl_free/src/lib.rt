//! The optimum alone: the greatest free distance of a goal, found without keeping boxes, in memory
//! linear in the fixes.
#![tactic(auto)]

mod altitudes;
mod arm;
mod beaten;
mod best;
mod branch;
mod candidate;
mod choice;
mod ends;
mod far;
mod flank;
mod half;
mod halves;
mod known;
mod node;
mod pair;
mod ranges;
mod run;
mod search;
mod side;
mod stages;
mod stop;
mod tree;
mod warm;
mod way;

pub use best::{best_free, best_free_after};
