//! A search by several workers: each works on the cells of its own deque, steals from the others
//! where its own is empty, and hears the best total that any of them found.
#![tactic(auto)]

mod bench;
mod crew;
mod crowd;
mod gate;
mod many;
mod settle;
mod share;
mod step;
mod taking;
mod tally;
mod trail;
mod worker;

pub use gate::{Gate, OpenGate};
pub use many::search_many;
pub use share::Share;
pub use worker::work;
