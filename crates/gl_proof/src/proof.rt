use crate::claim::Claim;
use crate::version::Version;

/// The claims of a day, in the order of the task's entrants.
#[derive(Debug, Drop)]
pub struct Proof {
    pub version: Version,
    pub claims: Vec<Claim>,
}
