ghost use Rattle.std.specs.Prelude.{◌≡◌};
ghost use Rattle.gl_igc.specs.declared.error.IgcError.TheVariants.{Memory};

use std::alloc::{AllocError, AllocFailed};
use thiserror::Error;

/// Why a text gave no recording. Of the refusals the first that holds, in this order, is the
/// answer.
#[derive(Debug, PartialEq, Eq, Drop, Error)]
pub enum IgcError {
    /// No line has a byte, or the first that has one doesn't begin with `A`.
    #[error("not an IGC file")]
    NotIgc,
    /// No line is a date line.
    #[error("no date")]
    NoDate,
    /// The recording's day is more than one day from the task day. Days count from 1970-01-01.
    #[error("a recording of another day")]
    WrongDay { day: i32 },
    /// There is a 90,001st used fix, on this line; the text's first line is 1.
    #[error("too many fixes")]
    TooManyFixes { line: u32 },
    /// No fix is used.
    #[error("no fix")]
    NoFix,
    /// There was no memory.
    #[error("out of memory")]
    Memory,
}

impl IgcError {
    ghost use Rattle.gl_igc.specs.Refusals.{refusal_number};

    /// The number that a refusal prints; want of memory has none.
    pub fn number(&self) -> Option<u32>
        ensures { result ≡ refusal_number self.now }
    {
        match self {
            IgcError::NotIgc => Some(1),
            IgcError::NoDate => Some(2),
            IgcError::WrongDay { .. } => Some(3),
            IgcError::TooManyFixes { .. } => Some(4),
            IgcError::NoFix => Some(5),
            IgcError::Memory => None,
        }
    }
}

impl From<AllocError> for IgcError {
    ghost from_gives = { λ _ e. e ≡ Memory };

    fn from(_e: AllocError) -> IgcError {
        IgcError::Memory
    }
}

impl<T: Drop> From<AllocFailed<T>> for IgcError {
    ghost from_gives = { λ _ e. e ≡ Memory };

    fn from(_e: AllocFailed<T>) -> IgcError {
        IgcError::Memory
    }
}
