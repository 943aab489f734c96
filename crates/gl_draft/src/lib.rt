//! A task file made from a task as pilots have it and the recordings of a folder: its lines, those
//! that the scorer has to fill in, and the proof that it reads as what was taken (docs/cup.md).
//!
//! For its sectors it takes directions on the sphere: from one place to another, half way between
//! two, as a sector of a task points, and straight on. All of it is whole-number arithmetic.
#![tactic(auto)]

mod angle;
mod answer;
mod command;
mod comparison;
mod course;
mod draft;
mod draft_lines;
mod entrant;
mod entrant_line;
mod heading;
mod late;
mod line;
mod lines;
mod middle;
mod place;
mod plain;
mod recording;
mod refusal;
mod remarks;
mod sector;
mod shape;
mod text;
mod turn;
mod value;
mod word;
mod words;

pub use answer::Status;
pub use command::run;
