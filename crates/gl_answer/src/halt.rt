ghost use Rattle.std.specs.Prelude.{◌≡◌};
ghost use Rattle.gl_desk.specs.declared.error.DeskError.TheVariants.{Memory};
ghost use Rattle.gl_answer.specs.Halts.{IsUnread, Refuses, RefusesFor};

use crate::refusal::{Cause, Refusal};
use gl_desk::{DeskError, Name, ReadError};
use std::alloc::{AllocError, AllocFailed};

/// What ends a command before its answer.
#[derive(Drop)]
pub enum Halt {
    /// A file is refused.
    Refused(Refusal),
    /// A call of the desk failed, or there was no memory.
    Stopped(DeskError),
}

impl From<DeskError> for Halt {
    ghost use Rattle.gl_answer.specs.declared.halt.Halt.TheVariants.{Stopped};

    ghost from_gives = { λ stop halt. halt ≡ Stopped stop };

    fn from(stop: DeskError) -> Halt {
        Halt::Stopped(stop)
    }
}

impl From<AllocError> for Halt {
    ghost use Rattle.gl_answer.specs.declared.halt.Halt.TheVariants.{Stopped};

    ghost from_gives = { λ _ halt. halt ≡ Stopped Memory };

    fn from(_error: AllocError) -> Halt {
        Halt::Stopped(DeskError::Memory)
    }
}

impl<T: Drop> From<AllocFailed<T>> for Halt {
    ghost use Rattle.gl_answer.specs.declared.halt.Halt.TheVariants.{Stopped};

    ghost from_gives = { λ _ halt. halt ≡ Stopped Memory };

    fn from(_error: AllocFailed<T>) -> Halt {
        Halt::Stopped(DeskError::Memory)
    }
}

/// The refusal of a file.
pub fn refusing(file: &Name, cause: Cause) -> Halt
    ensures { Refuses file.now cause result }
{
    match file.clone() {
        Ok(file) => Halt::Refused(Refusal { file, cause }),
        Err(_) => Halt::Stopped(DeskError::Memory),
    }
}

/// The refusal of a file for a cause; where there is none, memory was wanting.
pub fn refusing_for(file: &Name, cause: Option<Cause>) -> Halt
    ensures { RefusesFor file.now cause result }
{
    match cause {
        Some(cause) => refusing(file, cause),
        None => Halt::Stopped(DeskError::Memory),
    }
}

/// Why a file wasn't read: it is refused where it is too large, and else its reading was stopped.
pub fn unread(file: &Name, error: ReadError) -> Halt
    ensures { IsUnread file.now error result }
{
    match error {
        ReadError::TooLarge => refusing(file, Cause::TooLarge),
        ReadError::Fault => Halt::Stopped(DeskError::Failed),
        ReadError::Memory => Halt::Stopped(DeskError::Memory),
    }
}
