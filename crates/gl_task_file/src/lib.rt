//! The task file that the organiser writes: read into a task whose numbers, places and names are in
//! their ranges, or refused by the first key that is wrong.
#![tactic(auto)]

mod course;
mod day;
mod entrants;
mod error;
mod finish;
mod head;
mod item;
mod key;
mod limit;
mod lists;
mod opening;
mod part;
mod reader;
mod rules;
mod sections;
mod start;
mod times;
mod twice;
mod value;
mod word;
mod zones;

pub use error::TaskError;
pub use reader::read_task;
