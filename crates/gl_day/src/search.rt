ghost use Rattle.std.specs.Prelude.{IfOk, ℕ};
ghost use Rattle.gl_goal.specs.AnyGoal.{any_rule};
ghost use Rattle.gl_plain.specs.Answer.{IsAnswer};

use gl_goal::AnyGoal;
use gl_plain::{Found, search_one};
use std::alloc::{AllocError, Global};

/// How the claims of a day are searched.
pub trait Search {
    /// It can search now.
    ghost ready: { Self → Type 0 };

    /// The optimum of a goal, and boxes that certify it. The only error is want of memory.
    fn search(&self, alloc: Global, goal: &AnyGoal) -> Result<Found, AllocError>
        requires { ready self.now }
        ensures { IfOk result (IsAnswer (any_rule goal.now)) };
}

/// On one thread.
#[derive(Clone, Copy, Debug)]
pub struct Alone;

impl Search for Alone {
    ghost ready = { λ _. Unit {0} };

    fn search(&self, alloc: Global, goal: &AnyGoal) -> Result<Found, AllocError> {
        search_one(alloc, goal)
    }
}
