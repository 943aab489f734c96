//! The commands: from words and a folder to a status and what is said. `run` is all that the
//! program does; what it does of a day is `run_day` of the crate below. The further commands whose
//! answers rest on claims are here: `demo`, and those of badges, `badge` and `badgecheck`.
#![tactic(auto)]

pub mod badge;
pub mod badge_check;
pub mod demo;
mod program;
mod running;
mod shelf;

pub use gl_answer::Status;
pub use gl_day_claims::one_answer;
pub use gl_flights::one_series;
pub use gl_words::worker_count;
pub use program::{carry_out_alone, carry_out_words};
pub use running::{run, run_single};
