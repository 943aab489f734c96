//! The search on one thread: the optimum of a goal, with boxes that certify that no choice was
//! overlooked. It can also start from cells that another one left, open and closed: it goes on from
//! there to the end.
#![tactic(auto)]

mod climb;
mod dive;
mod found;
mod part;
mod search;
mod spaced;
mod verdict;
mod warm;

pub use found::Found;
pub use part::Part;
pub use search::{finish, search_one};
pub use verdict::{CellVerdict, test_for};
pub use warm::warm_start;
