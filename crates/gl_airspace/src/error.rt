ghost use Rattle.std.specs.Prelude.{◌≡◌};
ghost use Rattle.gl_airspace.specs.declared.error.AirError.TheVariants.{Memory};

use std::alloc::{AllocError, AllocFailed};
use thiserror::Error;

/// Why a text gave no airspace. Lines count from 1, and a number above 4,294,967,295 is that one.
#[derive(Debug, PartialEq, Eq, Drop, Error)]
pub enum AirError {
    /// This line is the first that doesn't read.
    #[error("line {0} doesn't read")]
    Line(u32),
    /// With this line there are more than 256 volumes, or more than 4,096 corners.
    #[error("too many volumes or corners at line {0}")]
    TooMany(u32),
    /// There was no memory.
    #[error("out of memory")]
    Memory,
}

impl From<AllocError> for AirError {
    ghost from_gives = { λ _ error. error ≡ Memory };

    fn from(_error: AllocError) -> AirError {
        AirError::Memory
    }
}

impl<T: Drop> From<AllocFailed<T>> for AirError {
    ghost from_gives = { λ _ error. error ≡ Memory };

    fn from(_error: AllocFailed<T>) -> AirError {
        AirError::Memory
    }
}
