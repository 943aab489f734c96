//! How a flight is judged by its task: which of its fixes count, where it started, which zones it
//! visited, whether it finished or landed out; and which distance and time count of it.
#![tactic(auto)]

mod announcement;
mod choices;
mod course;
mod crossings;
mod expected;
mod finishes;
mod judged_fixes;
mod judging;
pub mod laws;
mod marking;
mod outcome;
mod passing;
mod starts;
mod stretch;
mod visits;
mod zone_lists;

pub use announcement::is_announced;
pub use course::course_point;
pub use crossings::crossing_at;
pub use expected::{JudgedFlight, claims, judge_flight};
pub use gl_proof::ClaimKind;
pub use judged_fixes::judged_range;
pub use judging::judge;
pub use marking::mark;
pub use outcome::{Judged, Window};
pub use stretch::Stretch;
pub use visits::{Visited, first_in_zone};
