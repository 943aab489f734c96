ghost use Rattle.std.specs.Prelude.{◌≡◌};
ghost use Rattle.gl_desk.specs.declared.error.DeskError.TheVariants as desk;
ghost use Rattle.gl_sheet.specs.declared.error.SheetError.TheVariants.{Memory};

use csv::{Error as CsvError, ErrorKind as CsvErrorKind};
use gl_desk::DeskError;
use std::alloc::{AllocError, AllocFailed};
use std::io::ErrorKind;
use thiserror::Error;

/// Why there is no sheet.
#[derive(Clone, Copy, Debug, PartialEq, Eq, Error)]
pub enum SheetError {
    /// There was no memory.
    #[error("out of memory")]
    Memory,
    /// The writer of csv gave another error. Its contract doesn't rule that out, and no run has
    /// shown
    /// it.
    #[error("the writer of the sheet failed")]
    Writer,
}

impl From<AllocError> for SheetError {
    ghost from_gives = { λ _ error. error ≡ Memory };

    fn from(_error: AllocError) -> SheetError {
        SheetError::Memory
    }
}

impl<T: Drop> From<AllocFailed<T>> for SheetError {
    ghost from_gives = { λ _ error. error ≡ Memory };

    fn from(_error: AllocFailed<T>) -> SheetError {
        SheetError::Memory
    }
}

impl From<CsvError> for SheetError {
    ghost from_gives = { λ _ _. Unit {0} };

    fn from(error: CsvError) -> SheetError {
        match error.into_kind() {
            CsvErrorKind::OutOfMemory => SheetError::Memory,
            CsvErrorKind::Io(cause) if cause.kind() == ErrorKind::OutOfMemory => SheetError::Memory,
            _ => SheetError::Writer,
        }
    }
}

/// The desk has no word of its own for a writer that fails: to the caller it is want of memory.
impl From<SheetError> for DeskError {
    ghost from_gives = { λ _ error. error ≡ desk.Memory };

    fn from(_error: SheetError) -> DeskError {
        DeskError::Memory
    }
}
