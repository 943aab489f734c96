//! The words of the commands, and how they are read: which command they are a form of, and what it
//! is given. Those of a day, `score` and `check`, are read apart, with the names of the day's files
//! and the number of workers, which `replay` has too.
#![tactic(auto)]

mod apart;
mod badge_words;
mod command;
mod day_command;
mod day_names;
mod day_number;
mod near_words;
mod place_word;
mod replay_words;
mod series_words;

pub use apart::Apart;
pub use badge_words::BadgeWords;
pub use command::{Command, read_words};
pub use day_command::{DayCommand, read_day_words};
pub use day_names::{DayNames, Workers, read_workers, read_workers_of, worker_count};
pub use day_number::DayNumber;
pub use near_words::{NearWords, PointWords};
pub use place_word::PlaceWord;
pub use replay_words::ReplayWords;
pub use series_words::SeriesWords;
