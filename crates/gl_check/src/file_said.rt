use crate::verdict::Verdict;
use gl_desk::Name;
use gl_proof::ClaimKind;

/// What the line of a claim says.
#[derive(Drop)]
pub(crate) struct ClaimFront {
    pub number: Name,
    pub kind: ClaimKind,
    pub total: Option<u64>,
}

/// What is said of the next claim of a proof's file.
#[derive(Drop)]
pub struct ClaimSaid {
    pub number: Name,
    pub kind: ClaimKind,
    pub verdict: Verdict,
}
