ghost use Rattle.std.specs.Prelude.{◌≡◌, ◌<◌, ◌≤◌, All, IfOk, length};
ghost use Rattle.gl_goal.specs.TriangleGoal.{triangle_rule};
ghost use Rattle.gl_goal.specs.Best.{IsSound};
ghost use Rattle.gl_triangle.specs.Code.Node.{fixes_of};
ghost use Rattle.gl_triangle.specs.Code.Places.{AreAmong};

use crate::found::consider;
use crate::places::Places;
use crate::trial::{Choices, Chosen, try_all};
use gl_goal::{Best, TriangleGoal};
use std::alloc::{AllocError, Global};

/// How many evenly spaced places are tried first.
const SPACED: u32 = 64;

/// How many steps a place is moved forth and back.
const STEPS: u32 = 6;

/// How many rounds a climb makes at most.
const MOST_ROUNDS: u32 = 100;

/// How many fixes there are to choose from.
fn count(goal: &TriangleGoal) -> u32
    ensures value { result ≡ length (fixes_of goal.now) }
    ensures some { 0 < result }
    ensures most { result ≤ 90_000 }
{
    goal.hulls().len()
}

/// One of some evenly spaced places of a list, the first and the last place among them.
fn spaced_place(len: u32, index: u32) -> u32
    requires within { index < len }
    requires few { index < SPACED }
    ensures { result < len }
{
    if len <= SPACED {
        return index;
    }
    (u64::from(index) * u64::from(len - 1) / u64::from(SPACED - 1)) as u32
}

/// Evenly spaced places of a list. The only error is want of memory.
fn spaced(alloc: Global, len: u32) -> Result<Vec<u32>, AllocError>
    requires most { len ≤ 90_000 }
    ensures { IfOk result (λ places. All (λ place. place < len) places.items) }
{
    let count = len.min(SPACED);
    let mut places = Vec::with_capacity(alloc, count as usize)?;
    for index in 0..count {
        places.push(spaced_place(len, index))?;
    }
    Ok(places)
}

/// Places of a list round one of them, each so far from the next. The only error is want of memory.
fn around(alloc: Global, place: u32, step: u32, len: u32) -> Result<Vec<u32>, AllocError>
    requires place { place < len }
    requires step { step ≤ len }
    requires most { len ≤ 90_000 }
    ensures { IfOk result (λ places. All (λ place. place < len) places.items) }
{
    let mut places = Vec::with_capacity(alloc, 2 * STEPS as usize + 1)?;
    for index in 0..2 * STEPS + 1 {
        let next = (place + index * step).saturating_sub(STEPS * step);
        places.push(next.min(len - 1))?;
    }
    Ok(places)
}

/// Climbs from what was chosen, each place in smaller and smaller steps, until nothing grows. The
/// only error is want of memory.
fn climb(alloc: Global, goal: &TriangleGoal, start: Chosen) -> Result<Places, AllocError>
    requires { AreAmong (fixes_of goal.now) start.places }
    ensures { IfOk result (AreAmong (fixes_of goal.now)) }
{
    let len = count(goal);
    let mut best = start;
    let mut step = len.div_ceil(SPACED);
    for _ in 0..MOST_ROUNDS {
        step = step.div_ceil(4);
        let Places {
            first,
            second,
            third,
        } = best.places;
        let choices = Choices {
            first: around(alloc, first, step, len)?,
            second: around(alloc, second, step, len)?,
            third: around(alloc, third, step, len)?,
        };
        let mut chosen = Some(best);
        try_all(alloc, goal, &choices, &mut chosen)?;
        let Some(next) = chosen else {
            break;
        };
        if step == 1 && next.total == best.total {
            break;
        }
        best = next;
    }
    Ok(best.places)
}

/// A triangle of a goal, a good one if there is one to be found soon, or none. The only error is
/// want of memory.
pub(crate) fn warm_start(alloc: Global, goal: &TriangleGoal) -> Result<Option<Best>, AllocError>
    ensures { IfOk result (λ best. IsSound (triangle_rule goal.now) best) }
{
    let len = count(goal);
    let choices = Choices {
        first: spaced(alloc, len)?,
        second: spaced(alloc, len)?,
        third: spaced(alloc, len)?,
    };
    let mut chosen = None;
    try_all(alloc, goal, &choices, &mut chosen)?;
    let mut best = None;
    if let Some(chosen) = chosen {
        let places = climb(alloc, goal, chosen)?;
        consider(goal, places, &mut best);
    }
    Ok(best)
}
