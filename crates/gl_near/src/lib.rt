//! How near two flights came, or a flight and a place: the least distance of the fixes that belong
//! together, with boxes that certify that no pair was nearer.
#![tactic(auto)]

mod answer;
mod boxes;
mod check;
mod claim;
mod climb;
mod dive;
mod found;
mod line;
mod line_check;
mod measure;
mod near_line;
mod nearest;
mod opening;
mod pairs;
mod read;
mod search;
mod turn;
mod verdict;
mod warm;
mod write;

pub use answer::NearVerdict;
pub use check::check_near;
pub use claim::NearClaim;
pub use found::{NearBest, NearClosed, NearFound, NearWhy};
pub use gl_proof::ProofError as NearError;
pub use line_check::NearCheck;
pub use near_line::{NearLine, NearPlace};
pub use nearest::nearest_fix;
pub use pairs::{FlightAndPlace, Pairs, TwoFlights};
pub use read::read_near;
pub use search::search_near;
pub use turn::NearTurn;
pub use write::{NearLines, NearPart, write_near};
