//! The commands of a day as one run: from words and a folder to a status and what is said. A
//! program that has `score` and `check` alone needs nothing else.
#![tactic(auto)]

mod program;
mod racing;
mod running;

pub use program::{Ending, carry_out_day_alone, carry_out_day_words, names_given};
pub use running::{run_day, run_day_single};
