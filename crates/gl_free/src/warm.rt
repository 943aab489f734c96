ghost use Rattle.std.specs.Prelude.{◌<◌, IfOk};
ghost use Rattle.gl_goal.specs.FreeGoal.{rule_of};
ghost use Rattle.gl_free.specs.Code.Search.{IsValid};

use crate::choice::{keep, tuple_of};
use crate::stages::{MOST_PLACES, Stages, Way};
use gl_goal::{Best, FreeGoal, Goal};
use std::alloc::{AllocError, Global};

/// How many rounds a warm start makes at most.
const MOST_ROUNDS: u32 = 100;

/// How many places on each side of a fix a round looks at.
const REACH: u32 = 6;

/// The choice that stays at the first fix.
fn stay(goal: &FreeGoal) -> Best
    ensures { IsValid (rule_of goal.now) result }
{
    let tuple = tuple_of([0; 5]);
    Best {
        total: goal.value(&tuple),
        tuple,
    }
}

/// Keeps a way's choice where it is legal and worth more than what was found. Answers whether it is
/// legal.
fn consider(goal: &FreeGoal, way: &Way, best: &mut Best) -> bool
    requires { IsValid (rule_of goal.now) best.old }
    ensures { IsValid (rule_of goal.now) best.new }
{
    let [a, b, c, d, e] = way.places;
    if a.max(b).max(c).max(d).max(e) >= goal.hulls().len() {
        return false;
    }
    keep(goal, &tuple_of([a, b, c, d, e]), best)
}

/// Raises what was found to the best way from a place of the first fix, if it is better.
fn raise_from(goal: &FreeGoal, stages: &Stages, index: usize, way: &Way, best: &mut Best)
    requires valid { IsValid (rule_of goal.now) best.old }
    requires index { index < 64 }
    ensures { IsValid (rule_of goal.now) best.new }
{
    let hulls = goal.hulls();
    let [first, ..] = way.places;
    if way.length <= best.total || consider(goal, way, best) || first >= hulls.len() {
        return;
    }
    let lowest = hulls.fix(first).alt.saturating_sub(goal.loss());
    let others = stages.ways(hulls, lowest);
    consider(goal, &others[index], best);
}

/// Raises what was found to the best choice of some stages, if it is better.
fn raise(goal: &FreeGoal, stages: &Stages, best: &mut Best)
    requires { IsValid (rule_of goal.now) best.old }
    ensures { IsValid (rule_of goal.now) best.new }
{
    let ways = stages.ways(goal.hulls(), i32::MIN);
    for index in 0..stages.count {
        raise_from(goal, stages, index, &ways[index], best);
    }
}

/// A legal choice and its value, a good one if there is one to be found soon. The only error is
/// want of memory.
pub(crate) fn warm_start(alloc: Global, goal: &FreeGoal) -> Result<Best, AllocError>
    ensures { IfOk result (IsValid (rule_of goal.now)) }
{
    let hulls = goal.hulls();
    let last = hulls.len() - 1;
    let mut best = stay(goal);
    let mut step = last / MOST_PLACES as u32 + 1;
    let mut stages = Stages::spaced(alloc, step, last)?;
    for _ in 0..MOST_ROUNDS {
        let before = best.total;
        stages.measure(hulls);
        raise(goal, &stages, &mut best);
        if step == 1 && best.total == before {
            return Ok(best);
        }
        step = step.div_ceil(4);
        let [a, b, c, d, e, ..] = best.tuple.places;
        stages.gather(&[a, b, c, d, e], REACH, step, last);
    }
    Ok(best)
}
