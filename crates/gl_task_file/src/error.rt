ghost use Rattle.std.specs.Prelude.{◌≡◌};
ghost use Rattle.gl_task_file.specs.declared.error.TaskError.TheVariants.{Memory};

use gl_task::Key;
use std::alloc::{AllocError, AllocFailed};
use thiserror::Error;

/// Why a text gave no task. The keys are tested in the order of their rows, and the first test that
/// fails is the answer.
#[derive(Debug, PartialEq, Eq, Drop, Error)]
pub enum TaskError {
    /// The text isn't TOML.
    #[error("not TOML")]
    Toml,
    /// A key that is needed isn't there, or its list is empty.
    #[error("key {0}: missing")]
    Missing(Key),
    /// A value is of another kind, or out of its range.
    #[error("key {0}: not a value for this key")]
    Value(Key),
    /// An entrant has the number of an earlier one.
    #[error("key {0}: the number of an earlier entrant")]
    Twice(Key),
    /// A list has more items than it may.
    #[error("key {0}: too many")]
    TooMany(Key),
    /// There was no memory.
    #[error("out of memory")]
    Memory,
}

impl From<AllocError> for TaskError {
    ghost from_gives = { λ _ e. e ≡ Memory };

    fn from(_e: AllocError) -> TaskError {
        TaskError::Memory
    }
}

impl<T: Drop> From<AllocFailed<T>> for TaskError {
    ghost from_gives = { λ _ e. e ≡ Memory };

    fn from(_e: AllocFailed<T>) -> TaskError {
        TaskError::Memory
    }
}
