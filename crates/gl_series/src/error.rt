ghost use Rattle.std.specs.Prelude.{◌≡◌};
ghost use Rattle.gl_series.specs.declared.error.ListError.TheVariants.{Memory};
ghost use Rattle.gl_series.specs.declared.error.SheetError.TheVariants as sheet;

use csv::Error as ReadError;
use std::alloc::{AllocError, AllocFailed};
use thiserror::Error;

/// Why a text is no list. Lines count from 1.
#[derive(Clone, Copy, Debug, PartialEq, Eq, Error)]
pub enum ListError {
    /// There is no first line, or it isn't the heading.
    #[error("no heading")]
    Heading,
    /// The heading is there, and this line is the first that doesn't read.
    #[error("line {0} doesn't read")]
    Line(u32),
    /// There was no memory.
    #[error("out of memory")]
    Memory,
}

impl From<AllocError> for ListError {
    ghost from_gives = { λ _ error. error ≡ Memory };

    fn from(_error: AllocError) -> ListError {
        ListError::Memory
    }
}

impl<T: Drop> From<AllocFailed<T>> for ListError {
    ghost from_gives = { λ _ error. error ≡ Memory };

    fn from(_error: AllocFailed<T>) -> ListError {
        ListError::Memory
    }
}

/// Why a text is no sheet. Records count from 1, and the heading is the first.
#[derive(Clone, Copy, Debug, PartialEq, Eq, Error)]
pub enum SheetError {
    /// There is no first record, or it isn't the heading.
    #[error("no heading")]
    Heading,
    /// The heading is there, and this record is the first that is wrong.
    #[error("record {0} is wrong")]
    Record(u32),
    /// There was no memory.
    #[error("out of memory")]
    Memory,
}

impl From<AllocError> for SheetError {
    ghost from_gives = { λ _ error. error ≡ sheet.Memory };

    fn from(_error: AllocError) -> SheetError {
        SheetError::Memory
    }
}

impl<T: Drop> From<AllocFailed<T>> for SheetError {
    ghost from_gives = { λ _ error. error ≡ sheet.Memory };

    fn from(_error: AllocFailed<T>) -> SheetError {
        SheetError::Memory
    }
}

/// A reader over bytes in memory that takes records of any length fails for want of memory alone.
impl From<ReadError> for SheetError {
    ghost from_gives = { λ _ error. error ≡ sheet.Memory };

    fn from(_error: ReadError) -> SheetError {
        SheetError::Memory
    }
}
