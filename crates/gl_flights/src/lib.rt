//! The commands that know no task: over one recording, over two, and over the sheets of days. The
//! tests of their files in their order, and of those of `badge`, and what they give.
#![tactic(auto)]

mod badge_files;
mod best;
mod flight_file;
mod free;
mod laws;
pub mod near;
pub mod near_check;
mod near_file;
mod near_files;
mod of_file;
mod replay;
mod replay_files;
pub mod series;
mod series_files;
mod triangle;

pub use badge_files::{test_badge_check_files, test_badge_files};
pub use laws::one_series;
pub use of_file::{Question, answer_of_file};
pub use replay::replay_schedule;
