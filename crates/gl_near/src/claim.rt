use crate::found::{NearBest, NearClosed};

/// What a proof says: the least distance and a pair that has it, or none, and the boxes that
/// certify that no pair is nearer.
#[derive(Debug, Drop)]
pub struct NearClaim {
    pub best: Option<NearBest>,
    pub closed: Vec<NearClosed>,
}
