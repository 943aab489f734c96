ghost use Rattle.std.specs.Prelude.{◌≡◌, Option, None, Some};
ghost use Rattle.gl_box.specs.Turns.{reason_of};

use crate::closed::Why;

/// A turn of a walk along the split tree, as it is kept: it cuts the first open cell, or closes it
/// by a reason.
pub trait Turn: Copy {
    /// Why a cell is closed.
    type Why: Copy;

    /// The reason by which a turn closes a cell, none where it cuts one.
    ghost reason: { Self → Option Self.Why };

    /// The turn that cuts.
    fn cut() -> Self
        ensures { reason result ≡ None };

    /// The turn that closes by a reason.
    fn close(why: Self::Why) -> Self
        ensures { reason result ≡ Some why };

    /// The reason by which it closes a cell, `None` where it cuts one.
    fn why(&self) -> Option<Self::Why>
        ensures { result ≡ reason self.now };
}

/// A turn of a search for the greatest total. It takes one byte.
#[derive(Clone, Copy, Debug, PartialEq, Eq)]
pub enum GoalTurn {
    /// The first open cell is cut.
    Cut,
    /// It is closed as disordered.
    Disordered,
    /// It is closed as shut.
    Shut,
    /// It is closed by its bound.
    Bound,
}

impl Turn for GoalTurn {
    type Why = Why;

    ghost reason = { reason_of };

    fn cut() -> GoalTurn {
        GoalTurn::Cut
    }

    fn close(why: Why) -> GoalTurn {
        match why {
            Why::Disordered => GoalTurn::Disordered,
            Why::Shut => GoalTurn::Shut,
            Why::Bound => GoalTurn::Bound,
        }
    }

    fn why(&self) -> Option<Why> {
        match self {
            GoalTurn::Cut => None,
            GoalTurn::Disordered => Some(Why::Disordered),
            GoalTurn::Shut => Some(Why::Shut),
            GoalTurn::Bound => Some(Why::Bound),
        }
    }
}
