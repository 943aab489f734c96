use gl_answer::FileLines;
use gl_desk::Name;
use gl_proof::{ProofLine, ProofPlace};

/// A proof's file whose claims are checked as its lines come. It keeps what [`FileLines`] does, a
/// line, and no box.
#[derive(Drop)]
pub struct ClaimsFile<'a> {
    pub(crate) file: &'a Name,
    /// The most bytes that it may have.
    pub(crate) most: u64,
    pub(crate) lines: FileLines<ProofPlace>,
    /// The line after the claims so far, if one came: that of the next claim, or the end.
    pub(crate) ahead: Option<ProofLine>,
}
