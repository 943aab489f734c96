//! Why a day is scored as it is: the reasons of a line of the sheet in plain words, and what the
//! fixes of a recording are.
//!
//! What is told stands on the reading and the judging on which a score stands.
#![tactic(auto)]

mod air_places;
mod answer;
mod command;
mod credit;
mod crossing;
mod cut;
mod day;
mod day_words;
mod entrant;
mod entrant_words;
mod fact;
mod fines;
mod fix_words;
mod fixes;
mod flight;
mod flight_words;
mod fraction_words;
mod label;
mod lines;
mod miss;
mod names;
mod place_words;
mod question;
mod result_words;
mod results;
mod rows;
mod scoring;
mod shown;
mod sight;
mod spot;
mod visits;
mod wanted;

pub use answer::Status;
pub use command::run;
