//! What a command answers and promises: its status, the texts that it says, the pieces that it
//! appends, and what is right, begun and passed of it. How an answer is said, and what a run owes.
//!
//! Before that come the tests of a command's files, in their order: the first that fails refuses
//! its file, with the line that is said of it. The reading of recordings and proofs that a folder
//! lists is here too.
#![tactic(auto)]

mod answer;
mod appending;
mod delivering;
mod file_lines;
mod file_state;
mod file_tests;
mod halt;
mod line;
mod pouring;
mod refusal;
mod status;
mod texts;

pub use answer::{Answer, answer_halt, done};
pub use appending::{append_lines, append_piece};
pub use delivering::deliver;
pub use file_lines::{end_file_lines, next_box_read, next_file_line, open_lines};
pub use file_state::FileLines;
pub use file_tests::{
    MOST_PROOF_BYTES, need, need_both, need_unlisted, proof_cause, read_bytes, read_recording,
};
pub use halt::{Halt, refusing_for};
pub use line::refusal_line;
pub use pouring::read_recording_file;
pub use refusal::{Cause, Refusal};
pub use status::Status;
pub use texts::{accepted_line, distance_lines, no_flight, no_pair, usage, wrong_line};
