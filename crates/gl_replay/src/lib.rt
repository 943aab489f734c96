//! The search by a written order of the steps of several workers: they make the steps one after
//! another, and what they leave is searched to its end. Whatever the order, it finds the optimum.
//! The steps are read from a text.
#![tactic(auto)]

mod error;
mod machine;
mod replayed;
mod schedule;
mod worker;

pub use error::StepError;
pub use replayed::{Replayed, replay};
pub use schedule::{Step, read_steps};
