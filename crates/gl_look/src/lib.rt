//! What a scorer may have overlooked in the folder of a day: remarks on the task file, the files
//! that it names and the flights, said in plain words before anything is scored.
//!
//! What is remarked stands on the reading and the judging on which a score stands. The lines that
//! the words name are found by a plain scan of the text, and no promise rests on them.
#![tactic(auto)]

mod airspace;
mod answer;
mod closing;
mod closing_words;
mod command;
mod crossing;
mod crossing_words;
mod folder;
mod folder_words;
mod key_words;
mod keys;
mod looking;
mod meaning;
mod recording;
mod recording_words;
mod refusal_words;
mod remarks;
mod rows;
mod scan;
mod shown;
mod sight;
mod table;
mod task_words;
mod told;
mod words;

pub use answer::Status;
pub use command::run;
