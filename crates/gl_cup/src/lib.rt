//! A task as pilots have it: a file in the SeeYou form (`.cup`), read into the points, zones and
//! times of one of its tasks, or refused by the first line that doesn't read (docs/cup.md).
#![tactic(auto)]

mod angle;
mod choice;
mod decimal;
mod detail;
mod error;
mod field;
mod pair;
mod point;
mod reader;
mod row;
mod waypoint;
mod zone;

pub use error::CupError;
pub use field::Field;
pub use pair::PassedKey;
pub use point::{CupPoint, CupTask};
pub use reader::read_cup;
pub use zone::{ObsZone, Style};
