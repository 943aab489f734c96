//! Points of a day: what the performances of a day give together, and the points that each of them
//! earns. All of it is whole-number arithmetic on exact fractions.
#![tactic(auto)]

mod figures;
mod frac;
mod most;
mod passes;
mod performance;
mod points;
mod summary;

pub use figures::day;
pub use frac::Frac;
pub use performance::Performance;
pub use points::{exact, net, score, share};
pub use summary::Summary;
