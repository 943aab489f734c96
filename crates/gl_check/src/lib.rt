//! The checker of claims: it goes over the boxes of a claim along the split tree and tests each by
//! the tests of the goal, also as the lines of a file come. It knows nothing of how they were found.
#![tactic(auto)]

mod boxes;
mod check;
mod choice;
mod claims;
mod claims_file;
mod file;
mod file_said;
mod verdict;

pub use check::check_claim;
pub use claims_file::ClaimsFile;
pub use file_said::ClaimSaid;
pub use verdict::Verdict;
