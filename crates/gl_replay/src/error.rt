ghost use Rattle.std.specs.Prelude.{◌≡◌};
ghost use Rattle.gl_replay.specs.declared.error.StepError.TheVariants.{Memory};

use std::alloc::{AllocError, AllocFailed};
use thiserror::Error;

/// Why a text is no schedule. Lines count from 1.
#[derive(Clone, Copy, Debug, PartialEq, Eq, Error)]
pub enum StepError {
    /// This line, among the first 1,000,000, is the first that doesn't read.
    #[error("line {0} doesn't read")]
    Line(u32),
    /// The first 1,000,000 lines read, and there are more.
    #[error("too many steps")]
    TooMany,
    /// There was no memory.
    #[error("out of memory")]
    Memory,
}

impl From<AllocError> for StepError {
    ghost from_gives = { λ _ error. error ≡ Memory };

    fn from(_error: AllocError) -> StepError {
        StepError::Memory
    }
}

impl<T: Drop> From<AllocFailed<T>> for StepError {
    ghost from_gives = { λ _ error. error ≡ Memory };

    fn from(_error: AllocFailed<T>) -> StepError {
        StepError::Memory
    }
}
