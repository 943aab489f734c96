//! Tables of cases, question and answer side by side: each row has what it shows, a verb, what the
//! verb is given, and the answer that is expected. A program says which answer a verb gives; here
//! the answers are compared, and each row that is answered otherwise is said by its name.
//!
//! The heading of a table says how many rows it has, as in `what the 12 rows show`, so that a lost
//! one is noticed. It serves the programs that try examples, so what it says is tested alone.
#![tactic(auto)]

mod row;
mod table;

pub use row::Row;
pub use table::{Table, Tally};
