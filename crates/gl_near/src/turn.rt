ghost use Rattle.gl_near.specs.Search.{near_reason_of};

use crate::found::NearWhy;
use gl_box::Turn;

/// A turn of the search for the nearest pair. It takes one byte.
#[derive(Clone, Copy, Debug, PartialEq, Eq)]
pub enum NearTurn {
    /// The first open cell is cut.
    Cut,
    /// It is closed by time.
    Time,
    /// It is closed since no pair of it is nearer than what was found.
    Near,
}

impl Turn for NearTurn {
    type Why = NearWhy;

    ghost reason = { near_reason_of };

    fn cut() -> NearTurn {
        NearTurn::Cut
    }

    fn close(why: NearWhy) -> NearTurn {
        match why {
            NearWhy::Time => NearTurn::Time,
            NearWhy::Near => NearTurn::Near,
        }
    }

    fn why(&self) -> Option<NearWhy> {
        match self {
            NearTurn::Cut => None,
            NearTurn::Time => Some(NearWhy::Time),
            NearTurn::Near => Some(NearWhy::Near),
        }
    }
}
