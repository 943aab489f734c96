//! The answers of the commands of a day: `score`, with the claims that it proves, and `check`. The
//! entrants of a day over a desk are scored and its proof is appended, or a proof is compared with
//! what its files ask for.
#![tactic(auto)]

pub mod check;
mod checking;
mod laws;
pub mod score;
mod scoring;
mod seeing;

pub use laws::one_answer;
pub use scoring::append_claim;
