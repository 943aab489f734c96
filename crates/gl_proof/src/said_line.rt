use crate::claim::ClaimKind;
use crate::version::Version;
use gl_box::Closed;
use gl_desk::Name;

/// What a line of a proof says.
#[derive(Debug, Drop)]
pub enum ProofLine {
    /// That the text is a proof, and of which version.
    Heading(Version),
    /// Whose claim follows, of what, and the greatest total in centimetres, if any choice is legal.
    Claim {
        number: Name,
        kind: ClaimKind,
        total: Option<u64>,
    },
    /// The numbers of the fixes of the claim.
    Fixes(Vec<u32>),
    /// A box, and the reason by which it is closed.
    Box(Closed),
    /// That the proof ends.
    End,
}
