//! Recordings of flights: the text that a flight recorder writes, read into a day, a list of fixes,
//! the pilot's events and the declared places, or refused by its rule.
#![tactic(auto)]

mod columns;
mod date;
mod declaration;
mod declaration_steps;
mod error;
mod event_steps;
mod events;
mod extension;
mod finish;
mod fix;
mod fix_line;
mod groups;
mod igc_reader;
mod observation;
mod own_second;
mod progress;
mod progress_steps;
mod reader;
mod recording;
mod shift;
mod track;
mod track_steps;

pub use date::day_number;
pub use error::IgcError;
pub use fix::Fix;
pub use igc_reader::IgcReader;
pub use reader::read_igc;
pub use recording::{Declared, Recording};
