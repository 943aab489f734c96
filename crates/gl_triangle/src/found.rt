ghost use Rattle.std.specs.Prelude.{◌≡◌, ◌≤◌};
ghost use Rattle.gl_goal.specs.Goal.{IsLegal, IsTuple, value};
ghost use Rattle.gl_goal.specs.TriangleGoal.{triangle_rule};
ghost use Rattle.gl_goal.specs.Best.{IsSound};
ghost use Rattle.gl_triangle.specs.Code.Places.{places_in};
ghost use Rattle.gl_triangle.specs.Code.Search.{worth_of};

use crate::places::Places;
use gl_goal::{Best, Goal, TriangleGoal};

/// What was found is worth, 0 where nothing was.
#[inline]
pub(crate) fn worth(best: &Option<Best>) -> u64
    ensures { result ≡ worth_of best.now }
{
    match best {
        Some(known) => known.total,
        None => 0,
    }
}

/// Keeps places where they are those of a triangle that is worth more than what was found.
pub(crate) fn consider(goal: &TriangleGoal, places: Places, best: &mut Option<Best>)
    requires fits { IsTuple (triangle_rule goal.now).axes (places_in places) }
    requires sound { IsSound (triangle_rule goal.now) best.old }
    ensures sound { IsSound (triangle_rule goal.now) best.new }
    ensures grows { worth_of best.old ≤ worth_of best.new }
    ensures considered { IsLegal (triangle_rule goal.now) (places_in places)
        → value (triangle_rule goal.now) (places_in places) ≤ worth_of best.new }
{
    let tuple = places.tuple();
    if !goal.legal(&tuple) {
        return;
    }
    let total = goal.value(&tuple);
    if total > worth(best) {
        *best = Some(Best { total, tuple });
    }
}
