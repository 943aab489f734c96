//! The best total that the workers of a search have found, in one word that all of them raise and
//! read in single steps, without a lock and without waiting.
#![tactic(auto)]

mod rule;
mod steps;
mod word;

pub use word::{BestWord, Seat};
