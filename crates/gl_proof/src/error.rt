ghost use Rattle.std.specs.Prelude.{◌≡◌};
ghost use Rattle.gl_proof.specs.declared.error.ProofError.TheVariants.{Memory};

use std::alloc::{AllocError, AllocFailed};
use thiserror::Error;

/// Why a text is no proof. Lines count from 1, and a number above 4,294,967,295 is that one.
#[derive(Clone, Copy, Debug, PartialEq, Eq, Error)]
pub enum ProofError {
    /// The text doesn't begin with the heading and its LF.
    #[error("no heading of a proof")]
    Heading,
    /// This line is the first, ended by LF, that may not stand where it stands, or it begins behind
    /// the end.
    #[error("line {0} may not stand there")]
    Line(u32),
    /// No line is wrong, but the end is missing.
    #[error("the end is missing")]
    Cut,
    /// There was no memory.
    #[error("out of memory")]
    Memory,
}

impl From<AllocError> for ProofError {
    ghost from_gives = { λ _ error. error ≡ Memory };

    fn from(_error: AllocError) -> ProofError {
        ProofError::Memory
    }
}

impl<T: Drop> From<AllocFailed<T>> for ProofError {
    ghost from_gives = { λ _ error. error ≡ Memory };

    fn from(_error: AllocFailed<T>) -> ProofError {
        ProofError::Memory
    }
}
