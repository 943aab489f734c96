ghost use Rattle.std.specs.Prelude.{◌≡◌};
ghost use Rattle.gl_desk.specs.Answers.{read_error_of};
ghost use Rattle.gl_desk.specs.declared.error.DeskError.TheVariants.{Memory as DeskMemory};
ghost use Rattle.gl_desk.specs.declared.error.ReadError.TheVariants.{Memory as ReadMemory};

use std::alloc::{AllocError, AllocFailed};
use thiserror::Error;

/// Why a call of a desk didn't do its work.
#[derive(Clone, Copy, Debug, PartialEq, Eq, Error)]
pub enum DeskError {
    /// The outside failed, and the desk's count of faults rose.
    #[error("the outside failed")]
    Failed,
    /// There was no memory.
    #[error("out of memory")]
    Memory,
}

/// Why a whole file wasn't read.
#[derive(Clone, Copy, Debug, PartialEq, Eq, Error)]
pub enum ReadError {
    /// A call of the desk failed.
    #[error("the outside failed")]
    Fault,
    /// The file is longer than the limit.
    #[error("the file is too large")]
    TooLarge,
    /// There was no memory.
    #[error("out of memory")]
    Memory,
}

impl From<AllocError> for DeskError {
    ghost from_gives = { λ _ e. e ≡ DeskMemory };

    fn from(_error: AllocError) -> DeskError {
        DeskError::Memory
    }
}

impl<T: Drop> From<AllocFailed<T>> for DeskError {
    ghost from_gives = { λ _ e. e ≡ DeskMemory };

    fn from(_refused: AllocFailed<T>) -> DeskError {
        DeskError::Memory
    }
}

impl From<AllocError> for ReadError {
    ghost from_gives = { λ _ e. e ≡ ReadMemory };

    fn from(_error: AllocError) -> ReadError {
        ReadError::Memory
    }
}

impl From<DeskError> for ReadError {
    ghost from_gives = { λ error e. e ≡ read_error_of error };

    fn from(error: DeskError) -> ReadError {
        match error {
            DeskError::Failed => ReadError::Fault,
            DeskError::Memory => ReadError::Memory,
        }
    }
}
