//! The deques of cells from which the workers of a parallel search take and steal: each worker puts
//! cells into its own and takes the newest one first, and the others steal the oldest. Whatever the
//! threads do, each cell that was put is taken once, or is still there.
#![tactic(auto)]

mod dealing;
mod hand;
mod pass;
mod place;
mod rule;
mod view;

pub use dealing::deal;
pub use hand::Hand;
pub use pass::{Pass, Steal};
pub use place::Place;
