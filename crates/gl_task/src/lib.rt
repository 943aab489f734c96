//! The task of a day: start, zones, finish, local rules and entrants, each in its range; the name of
//! a key of the task file; and stewards, each of which charges points for a flight by a rule of its
//! own.
#![tactic(auto)]

mod ceiling;
mod day_type;
mod engine_noise;
mod height;
mod key;
pub mod laws;
mod penalty;
mod steward;
mod task;

pub use ceiling::Ceiling;
pub use day_type::{Finish, Kind};
pub use engine_noise::EngineNoise;
pub use key::Key;
pub use penalty::fine;
pub use steward::Steward;
pub use task::{Entrant, LocalRules, PilotStart, Start, Task};
