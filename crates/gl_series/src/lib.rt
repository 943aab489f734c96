//! Championship totals: the sheets of several days, added up for each pilot and each team.
#![tactic(auto)]

mod championship;
mod day;
mod entry;
mod error;
mod form;
pub mod laws;
mod list;
mod numbered;
mod numbers;
mod ordered;
mod pilots;
mod ranks;
mod scored;
mod series;
mod shares;
mod sheet;
mod standing;
mod teams;
mod text;

pub use championship::totals;
pub use day::{DayRow, DaySheet};
pub use entry::Entry;
pub use error::{ListError, SheetError};
pub use list::read_list;
pub use series::{Member, Series};
pub use sheet::read_day;
pub use standing::{Standing, TeamTotal, Total};
pub use text::series_text;
