ghost use Rattle.std.specs.Prelude.{◌≡◌, ◌<◌, ◌≤◌, pos, ◌-ℤ◌, ◌≤ℤ◌, length, IfOk, OnOk};
ghost use Rattle.std.specs.Int.{int_min};
ghost use Rattle.gl_goal.specs.FreeGoal.{rule_of};
ghost use Rattle.gl_free.specs.Code.Ranges.{IsRun};
ghost use Rattle.gl_free.specs.Code.Search.{AreFlanks, AreSides, IsValid};

use crate::altitudes::Altitudes;
use crate::ends::{Ends, Sides};
use crate::halves::search_by_place;
use crate::pair::Pair;
use crate::search::Search;
use crate::side::Side;
use crate::stop::Stop;
use gl_box::Span;
use gl_goal::{FreeGoal, Hulls};
use std::alloc::{AllocError, Global};

/// More metres than any two altitudes differ by.
const MOST_LOSS: i32 = 50_000;

/// The ends that are allowed where the first fix has an altitude in a range: the last fix is no
/// lower than the lowest of them allows.
fn sides_of(range: Altitudes, loss: i32) -> Sides
    requires { pos 0 ≤ℤ loss }
    ensures sides { AreSides result }
    ensures lowest { result.before.lowest ≡ range.lowest }
    ensures highest { result.before.highest ≡ range.highest }
    ensures reach { result.after.lowest ≡ range.lowest -ℤ int_min loss (pos 50_000) }
    ensures any { result.after.highest ≡ pos 2_147_483_647 }
{
    Sides {
        before: Ends {
            side: Side::Before,
            lowest: range.lowest,
            highest: range.highest,
        },
        after: Ends {
            side: Side::After,
            lowest: range.lowest - loss.min(MOST_LOSS),
            highest: i32::MAX,
        },
    }
}

impl Search {
    /// Looks for better choices whose first fix has an altitude in a range. Stops at ends of which
    /// the last is too low, and answers them. The only error is want of memory.
    pub(crate) fn run(
        &mut self,
        alloc: Global,
        goal: &FreeGoal,
        hulls: &Hulls,
        range: Altitudes,
    ) -> Result<Option<Pair>, AllocError>
        requires same { hulls.now ≡ goal.now.hulls }
        requires some { 0 < length hulls.now }
        requires valid { IsValid (rule_of goal.now) self.old.best }
        requires flanks { AreFlanks hulls.now self.old }
        ensures valid { OnOk result (IsValid (rule_of goal.now) self.new.best) }
        ensures raised { OnOk result (self.old.best.total ≤ self.new.best.total) }
        ensures flanks { OnOk result (AreFlanks hulls.now self.new) }
        ensures run { IfOk result (IsRun hulls.now goal.now.loss range self.new.best.total) }
    {
        let sides = sides_of(range, goal.loss());
        let whole = Span {
            lo: 0,
            hi: hulls.len() - 1,
        };
        let before = self.before.start(hulls, &sides.before, whole)?;
        let after = self.after.start(hulls, &sides.after, whole)?;
        self.looks = self.looks.max(self.looks_of_a_run);
        match self.middle(goal, hulls, &sides, whole, before, after)? {
            Stop::Done => Ok(None),
            Stop::Low(pair) => Ok(Some(pair)),
            Stop::GivenUp => {
                let low = search_by_place(alloc, goal, &sides, &mut self.best)?;
                Ok(low)
            }
        }
    }
}
