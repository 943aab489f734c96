//! The greatest triangle of a flight, found without boxes: spans of places are halved, and a half
//! is left out as soon as its hulls show that it holds no better triangle than what was found.
#![tactic(auto)]

mod found;
mod leg;
mod legs;
mod node;
mod order;
mod places;
mod search;
mod spans;
mod trial;
mod warm;

pub use search::best_triangle;
