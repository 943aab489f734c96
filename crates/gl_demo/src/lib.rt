//! The files of a generated day: a task, and four recordings whose places are drawn from a number.
#![tactic(auto)]

mod day;
mod draws;
mod leg;
mod line;
mod place;
mod recording;
mod task;

pub use day::generated_day;
pub use task::task_name;
