//! The fixes of a flight by place, in an order in which those that are near each other lie
//! together:
//! what a search halves where halves of the time don't help.
#![tactic(auto)]

mod by_place;

pub use by_place::ByPlace;
