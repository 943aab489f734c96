//! A day as values: what the flights of a task give, claim by claim and line by line of the sheet,
//! and whether the claims of a proof are those of the day. Of files it reads the proof alone.
#![tactic(auto)]

mod claim;
mod day;
mod fault;
mod file_check;
mod finish;
mod flight;
mod frame;
mod search;
mod totals;

pub use claim::{claim_of, claim_of_found};
pub use day::{day_rows, performances, row_of, sheet_of};
pub use fault::{Checked, Fault, NotProved};
pub use file_check::{check_ahead, check_flight_ahead, check_left};
pub use finish::{finish_flight, outcome_of};
pub use flight::{Flight, Seen, absent_flight, large_flight, read_flight};
pub use frame::{end_line, heading_line};
pub use search::{Alone, Search};
pub use totals::Totals;
