ghost use Rattle.std.specs.Prelude.{◌≡◌, ◌++◌, All, IfSome, OnOk};
ghost use Rattle.std.specs.Option.{option_to_list};
ghost use Rattle.gl_box.specs.Cell.{Covers, spans_of};
ghost use Rattle.gl_goal.specs.Goal.{whole_cell};
ghost use Rattle.gl_goal.specs.Best.{IsSound};
ghost use Rattle.gl_plain.specs.Code.Steps.{AreWithin};

use crate::verdict::{CellVerdict, consider, test};
use gl_box::{Cell, split};
use gl_goal::{Best, Goal, Leg, beats};
use std::alloc::AllocError;

/// A cell that may hold a legal tuple worth as much as its bound.
#[derive(Clone, Copy)]
pub(crate) struct Candidate {
    pub(crate) cell: Cell,
    pub(crate) bound: u64,
}

/// The cell with its bound, where it may hold a better tuple than what was found.
fn tested<G: Goal>(
    goal: &G,
    cell: &Cell,
    best: &Option<Best>,
    legs: &mut [Leg],
) -> Option<Candidate>
    requires covers { Covers (whole_cell (G.rule goal.now).axes) (spans_of cell.now) }
    requires legs { G.are_legs goal.now legs.old }
    ensures cell { IfSome result (λ it. it.cell ≡ cell.now) }
    ensures legs { G.are_legs goal.now legs.new }
{
    match test(goal, cell, best, legs) {
        CellVerdict::Open(bound) => Some(Candidate { cell: *cell, bound }),
        CellVerdict::Closed(_) => None,
    }
}

/// Puts a candidate, if there is one, on top. The only error is want of memory.
fn push_some(
    candidates: &mut Vec<Candidate>,
    candidate: Option<Candidate>,
) -> Result<(), AllocError>
    ensures ok { OnOk result
        (candidates.new.items ≡ candidates.old.items ++ option_to_list candidate) }
{
    if let Some(candidate) = candidate {
        candidates.push(candidate)?;
    }
    Ok(())
}

/// Whether one candidate's bound is above the other's. None has no bound.
fn is_greater(one: &Option<Candidate>, other: &Option<Candidate>) -> bool {
    match (one, other) {
        (Some(one), Some(other)) => one.bound > other.bound,
        (Some(_), None) => true,
        (None, _) => false,
    }
}

/// Puts the halves of a cell that may hold a better tuple on top, the one with the greater bound
/// last. A cell of a single tuple is considered. The only error is want of memory.
fn look<G: Goal>(
    goal: &G,
    cell: &Cell,
    best: &mut Option<Best>,
    candidates: &mut Vec<Candidate>,
    legs: &mut [Leg],
) -> Result<(), AllocError>
    requires covers { Covers (whole_cell (G.rule goal.now).axes) (spans_of cell.now) }
    requires sound { IsSound (G.rule goal.now) best.old }
    requires legs { G.are_legs goal.now legs.old }
    requires within { AreWithin (G.rule goal.now) candidates.old.items }
    ensures sound { IsSound (G.rule goal.now) best.new }
    ensures legs { G.are_legs goal.now legs.new }
    ensures within { OnOk result (AreWithin (G.rule goal.now) candidates.new.items) }
{
    let Some((lower, upper)) = split(cell) else {
        consider(goal, &cell.lowest(), best);
        return Ok(());
    };
    let low = tested(goal, &lower, best, legs);
    let high = tested(goal, &upper, best, legs);
    if is_greater(&low, &high) {
        push_some(candidates, high)?;
        push_some(candidates, low)?;
        return Ok(());
    }
    push_some(candidates, low)?;
    push_some(candidates, high)?;
    Ok(())
}

/// Searches a cell depth first for better tuples, the half with the greater bound first, and stops
/// after so many looks, each of which tests two cells. `candidates` is room to work in. The only
/// error is want of memory.
pub(crate) fn dive<G: Goal>(
    goal: &G,
    cell: &Cell,
    looks: u32,
    best: &mut Option<Best>,
    candidates: &mut Vec<Candidate>,
    legs: &mut [Leg],
) -> Result<(), AllocError>
    requires covers { Covers (whole_cell (G.rule goal.now).axes) (spans_of cell.now) }
    requires sound { IsSound (G.rule goal.now) best.old }
    requires legs { G.are_legs goal.now legs.old }
    ensures sound { IsSound (G.rule goal.now) best.new }
    ensures legs { G.are_legs goal.now legs.new }
{
    candidates.clear();
    push_some(candidates, tested(goal, cell, best, legs))?;
    for _ in 0..looks {
        let Some(top) = candidates.pop() else {
            return Ok(());
        };
        if beats(top.bound, best) {
            look(goal, &top.cell, best, candidates, legs)?;
        }
    }
    Ok(())
}
