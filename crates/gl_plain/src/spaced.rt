ghost use Rattle.std.specs.Prelude.{◌≡◌, ◌≤◌, ◌<◌, All, IfOk, length};
ghost use Rattle.gl_box.specs.Tuple.{places_of};
ghost use Rattle.gl_goal.specs.Goal.{IsTuple};
ghost use Rattle.gl_goal.specs.Best.{IsSound};

use crate::verdict::consider;
use gl_box::Tuple;
use gl_goal::{Best, Goal};
use std::alloc::{AllocError, Global};

/// How many places of each axis are tried, so that all tuples of them are soon tried.
fn places_per_axis(axes: u8) -> usize
    ensures least { 2 ≤ result }
    ensures most { result ≤ 128 }
{
    match axes {
        0..=2 => 128,
        3 => 40,
        4 => 20,
        5 => 14,
        6..=8 => 4,
        _ => 3,
    }
}

/// One of `count` places that are evenly spaced over a list, the first and the last place among
/// them.
fn spaced(len: u32, count: usize, index: usize) -> u32
    requires some { 1 ≤ len }
    requires two { 2 ≤ count }
    requires few { count ≤ 128 }
    requires within { index < count }
    ensures { result < len }
{
    (index as u64 * u64::from(len - 1) / (count as u64 - 1)) as u32
}

/// Tries each tuple in time order that goes on with evenly spaced places on the axes from `axis`
/// on, and keeps the best legal one for each place of the middle axis.
fn extend<G: Goal>(
    goal: &G,
    tuple: &mut Tuple,
    axis: u8,
    earliest: u32,
    kept: &mut [Option<Best>],
    slot: usize,
)
    requires fits { IsTuple (G.rule goal.now).axes (places_of tuple.old) }
    requires axis_in { axis ≤ length (G.rule goal.now).axes }
    requires least { 2 ≤ length kept.old }
    requires most { length kept.old ≤ 128 }
    requires slot_in { slot < length kept.old }
    requires sound { All (λ best. IsSound (G.rule goal.now) best) kept.old }
    ensures fits { IsTuple (G.rule goal.now).axes (places_of tuple.new) }
    ensures sound { All (λ best. IsSound (G.rule goal.now) best) kept.new }
{
    let axes = goal.axes();
    if axis == axes {
        consider(goal, tuple, &mut kept[slot]);
        return;
    }
    let count = kept.len();
    for index in 0..count {
        let place = spaced(goal.len(axis), count, index);
        let fix = goal.fix(axis, place);
        if fix >= earliest {
            tuple.choose(axis as usize, place);
            let slot = if axis == axes / 2 { index } else { slot };
            extend(goal, tuple, axis + 1, fix, kept, slot);
        }
    }
}

/// For each of some evenly spaced places of the middle axis the best legal tuple of evenly spaced
/// places, if there is one. The only error is want of memory.
pub(crate) fn spaced_tuples<G: Goal>(
    alloc: Global,
    goal: &G,
) -> Result<Vec<Option<Best>>, AllocError>
    ensures { IfOk result (λ kept. All (λ best. IsSound (G.rule goal.now) best) kept.items) }
{
    let axes = goal.axes();
    let mut kept = vec![in alloc; None; places_per_axis(axes)]?;
    extend(goal, &mut Tuple::first(axes), 0, 0, &mut kept, 0);
    Ok(kept)
}
