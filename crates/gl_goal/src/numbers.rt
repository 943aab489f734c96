ghost use Rattle.std.specs.Prelude.{◌≡◌, ◌<◌, ◌≤◌, IfOk};
ghost use Rattle.gl_box.specs.Tuple.{places_of};
ghost use Rattle.gl_goal.specs.Free.{numbers_between};
ghost use Rattle.gl_goal.specs.Goal.{IsTuple, chosen};

use crate::goal::Goal;
use gl_box::Tuple;
use std::alloc::{AllocError, Global};

/// The numbers of the fixes that a tuple names, in the order of the axes. The only error is want of
/// memory.
pub fn fix_numbers<G: Goal>(alloc: Global, goal: &G, tuple: &Tuple) -> Result<Vec<u32>, AllocError>
    requires { IsTuple (G.rule goal.now).axes (places_of tuple.now) }
    ensures { IfOk result
        (λ numbers. numbers.items ≡ chosen (G.rule goal.now).axes (places_of tuple.now)) }
{
    let mut numbers = Vec::with_capacity(alloc, tuple.axes as usize)?;
    for axis in 0..tuple.axes {
        numbers.push(goal.fix(axis, tuple.places[axis as usize]))?;
    }
    Ok(numbers)
}

/// The numbers from the first to the last. The only error is want of memory.
pub(crate) fn numbers_between(alloc: Global, first: u32, last: u32) -> Result<Vec<u32>, AllocError>
    requires order { first ≤ last }
    requires most { last < 90_000 }
    ensures { IfOk result (λ numbers. numbers.items ≡ numbers_between first last) }
{
    let mut numbers = Vec::with_capacity(alloc, (last - first + 1) as usize)?;
    for number in first..last + 1 {
        numbers.push(number)?;
    }
    Ok(numbers)
}
