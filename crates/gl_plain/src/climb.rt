ghost use Rattle.std.specs.Prelude.{◌≡◌, ◌<◌, ℕ};
ghost use Rattle.gl_box.specs.Tuple.{places_of};
ghost use Rattle.gl_box.specs.Cell.{Covers, spans_of};
ghost use Rattle.gl_goal.specs.Goal.{IsTuple, whole_cell};
ghost use Rattle.gl_goal.specs.Best.{IsSound};

use crate::dive::{Candidate, dive};
use gl_box::{Cell, Span, Tuple};
use gl_goal::{Best, Goal, Leg};
use std::alloc::AllocError;

/// How many rounds a climb makes at most.
const MOST_ROUNDS: u32 = 100;

/// The cell round a tuple in which the axes whose bits are set may take any place.
fn around<G: Goal>(goal: &G, tuple: &Tuple, free: u32) -> Cell
    requires { IsTuple (G.rule goal.now).axes (places_of tuple.now) }
    ensures { Covers (whole_cell (G.rule goal.now).axes) (spans_of result) }
{
    let mut cell = Cell::point(tuple);
    for axis in 0..goal.axes() {
        if free >> axis & 1 == 1 {
            let span = Span {
                lo: 0,
                hi: goal.len(axis) - 1,
            };
            cell.set(axis as usize, span);
        }
    }
    cell
}

/// Dives into the cell round the best tuple in which the axes whose bits are set are free, with so
/// many looks at most. The only error is want of memory.
fn climb_over<G: Goal>(
    goal: &G,
    best: &mut Option<Best>,
    free: u32,
    looks: u32,
    candidates: &mut Vec<Candidate>,
    legs: &mut [Leg],
) -> Result<(), AllocError>
    requires sound { IsSound (G.rule goal.now) best.old }
    requires legs { G.are_legs goal.now legs.old }
    ensures sound { IsSound (G.rule goal.now) best.new }
    ensures legs { G.are_legs goal.now legs.new }
{
    match best {
        Some(known) => {
            let cell = around(goal, &known.tuple, free);
            dive(goal, &cell, looks, best, candidates, legs)
        }
        None => Ok(()),
    }
}

/// Climbs from the best tuple over each set of so many axes in turn, until none of them finds a
/// better one, with so many looks at most for each. The only error is want of memory.
pub(crate) fn climb<G: Goal>(
    goal: &G,
    best: &mut Option<Best>,
    free_axes: u32,
    looks: u32,
    candidates: &mut Vec<Candidate>,
    legs: &mut [Leg],
) -> Result<(), AllocError>
    requires sound { IsSound (G.rule goal.now) best.old }
    requires legs { G.are_legs goal.now legs.old }
    ensures sound { IsSound (G.rule goal.now) best.new }
    ensures legs { G.are_legs goal.now legs.new }
{
    let sets = 1u32 << goal.axes();
    let mut idle = 0u32;
    for turn in 0..MOST_ROUNDS * sets {
        let free = turn % sets;
        let before = *best;
        if free.count_ones() == free_axes {
            climb_over(goal, best, free, looks, candidates, legs)?;
        }
        idle = if *best == before { idle + 1 } else { 0 };
        if idle >= sets {
            return Ok(());
        }
    }
    Ok(())
}
