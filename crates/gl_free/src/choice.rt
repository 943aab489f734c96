ghost use Rattle.std.specs.Prelude.{◌≡◌, ◌↔◌, ◌+◌, ◌≤◌, IsTrue, length, MatchOption};
ghost use Rattle.gl_box.specs.Tuple.{places_of};
ghost use Rattle.gl_goal.specs.FreeGoal.{rule_of};
ghost use Rattle.gl_goal.specs.Goal.{IsLegal, IsTuple, value};
ghost use Rattle.gl_free.specs.Code.Arms.{arm_length};
ghost use Rattle.gl_free.specs.Code.Choices.{AreInOrder, IsLow};
ghost use Rattle.gl_free.specs.Code.Search.{IsValid};

use crate::arm::Arms;
use crate::pair::Pair;
use gl_box::Tuple;
use gl_goal::{Best, FreeGoal, Goal};

/// The choice of five places.
pub(crate) fn tuple_of(places: [u32; 5]) -> Tuple
    ensures { places_of result ≡ places }
{
    let [a, b, c, d, e] = places;
    Tuple {
        axes: 5,
        places: [a, b, c, d, e, 0, 0, 0, 0, 0],
    }
}

/// Keeps a choice where it is legal and worth more than what was found. Answers whether it is
/// legal.
pub(crate) fn keep(goal: &FreeGoal, tuple: &Tuple, best: &mut Best) -> bool
    requires fits { IsTuple (rule_of goal.now).axes (places_of tuple.now) }
    requires valid { IsValid (rule_of goal.now) best.old }
    ensures legal { IsTrue result ↔ IsLegal (rule_of goal.now) (places_of tuple.now) }
    ensures valid { IsValid (rule_of goal.now) best.new }
    ensures raised { best.old.total ≤ best.new.total }
    ensures worth { IsTrue result
        → value (rule_of goal.now) (places_of tuple.now) ≤ best.new.total }
{
    if !goal.legal(tuple) {
        return false;
    }
    let total = goal.value(tuple);
    if total > best.total {
        *best = Best {
            total,
            tuple: *tuple,
        };
    }
    true
}

/// Keeps the choice of a middle fix and the arms on both sides of it, where it is legal and worth
/// more than what was found. Where it isn't legal, its ends are the answer.
pub(crate) fn choose(goal: &FreeGoal, best: &mut Best, middle: u32, arms: Arms) -> Option<Pair>
    requires valid { IsValid (rule_of goal.now) best.old }
    requires order { AreInOrder (length goal.now.hulls) arms.before.end arms.before.inner middle
        arms.after.inner arms.after.end }
    ensures valid { IsValid (rule_of goal.now) best.new }
    ensures raised { best.old.total ≤ best.new.total }
    ensures chosen { MatchOption result
        (arm_length goal.now.hulls middle arms.before.inner arms.before.end
        + arm_length goal.now.hulls middle arms.after.inner arms.after.end ≤ best.new.total)
        (IsLow goal.now.hulls goal.now.loss arms.before.end arms.after.end) }
{
    let Arms { before, after } = arms;
    let tuple = tuple_of([before.end, before.inner, middle, after.inner, after.end]);
    if keep(goal, &tuple, best) {
        return None;
    }
    Some(Pair {
        first: before.end,
        last: after.end,
    })
}
