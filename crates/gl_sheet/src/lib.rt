//! The sheet of a day: one line an entrant, by points, as comma-separated text.
#![tactic(auto)]

mod columns;
mod error;
pub mod laws;
mod line;
mod row;
mod text;

pub use error::SheetError;
pub use row::{Listed, Outcome, Row};
pub use text::sheet;
