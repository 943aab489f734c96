ghost use Rattle.std.specs.Prelude.{◌≡◌};
ghost use Rattle.gl_cup.specs.declared.error.CupError.TheVariants.{Memory};

use crate::field::Field;
use std::alloc::{AllocError, AllocFailed};
use thiserror::Error;

/// Why a text gave no task. Lines count from 1, and points from 0, the start, as zones do in the
/// file. The first test that fails is the answer; the tests are made in this order.
#[derive(Debug, Drop, Error)]
pub enum CupError {
    /// The text is in UTF-16, where a character takes two bytes.
    #[error("UTF-16")]
    Wide,
    /// The text has no line with a byte.
    #[error("empty")]
    Empty,
    /// The quotes of this line don't match, or a CR stands in it: the first line, or one of the
    /// task.
    #[error("line {0}: not a row")]
    Row(u64),
    /// This line, the first, doesn't name the columns of the name, the latitude and the longitude.
    #[error("line {0}: no header")]
    Header(u64),
    /// The text has no task.
    #[error("no task")]
    NoTask,
    /// The text has several tasks, and none is chosen.
    #[error("several tasks")]
    Several,
    /// The text has no task of the number that is chosen.
    #[error("no such task")]
    NoSuchTask,
    /// The task of this line has no turn point between its start and its finish.
    #[error("line {0}: too few points")]
    TooFewPoints(u64),
    /// This line has the name of a point of the task, but no place of a waypoint.
    #[error("line {0}: not a waypoint")]
    Waypoint(u64),
    /// On this line, the name of this point is that of no waypoint, or of two with other places.
    #[error("line {0}: point {1} isn't known")]
    Unknown(u64, u64),
    /// This line below the task has a key that isn't known, or that may change what a flight
    /// scores.
    #[error("line {0}: a key that can't be used")]
    Key(u64, Field),
    /// This line below the task doesn't read.
    #[error("line {0}: not an option or a zone")]
    Detail(u64),
    /// The task of this line has no zone for this point.
    #[error("line {0}: no zone for point {1}")]
    NoZone(u64, u64),
    /// There was no memory.
    #[error("out of memory")]
    Memory,
}

impl From<AllocError> for CupError {
    ghost from_gives = { λ _ e. e ≡ Memory };

    fn from(_e: AllocError) -> CupError {
        CupError::Memory
    }
}

impl<T: Drop> From<AllocFailed<T>> for CupError {
    ghost from_gives = { λ _ e. e ≡ Memory };

    fn from(_e: AllocFailed<T>) -> CupError {
        CupError::Memory
    }
}
