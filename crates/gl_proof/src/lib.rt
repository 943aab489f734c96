//! Proofs as text: what is claimed of flights, with the boxes that show that no choice is longer.
//! A proof has one spelling; docs/proof-file.md explains it line by line.
//!
//! Other proofs use parts of it: lines that end in LF, words parted by one space, numbers and spans
//! with one spelling, and what is told of a text with a line that may not stand where it stands.
#![tactic(auto)]

mod backwards;
mod box_reader;
mod box_writer;
mod claim;
mod claim_lines;
mod entrant;
mod error;
mod front;
mod line;
mod line_reader;
mod line_state;
mod lines_left;
mod proof;
mod proof_line;
mod proof_place;
mod push;
mod read;
mod said_line;
mod told;
mod version;
mod write;

pub use box_reader::next_box;
pub use box_writer::BoxWriter;
pub use claim::{Claim, ClaimKind};
pub use error::ProofError;
pub use front::{behind, short_number_at, span_at, total_at};
pub use line_reader::{TextLine, begin_lines, end_lines, feed_lines, next_line};
pub use line_state::LineReader;
pub use lines_left::{LinesLeft, write_all, write_next};
pub use proof::Proof;
pub use proof_place::ProofPlace;
pub use push::{push_number, push_total, push_word};
pub use read::read_proof;
pub use said_line::ProofLine;
pub use told::{later, misfit};
pub use version::Version;
pub use write::{ClaimLines, write_claim};
