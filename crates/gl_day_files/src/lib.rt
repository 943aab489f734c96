//! The files of a day, for `score` and `check`: their tests in their order, but that of a proof's
//! text, and what they give.
#![tactic(auto)]

mod day_files;

pub use day_files::{DayFiles, test_check_files, test_score_files};
