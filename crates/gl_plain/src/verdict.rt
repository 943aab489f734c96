ghost use Rattle.std.specs.Prelude.{◌≡◌};
ghost use Rattle.gl_box.specs.Tuple.{places_of};
ghost use Rattle.gl_box.specs.Cell.{Covers, spans_of};
ghost use Rattle.gl_goal.specs.Goal.{IsTuple, whole_cell};
ghost use Rattle.gl_goal.specs.Best.{IsSound, total_of};
ghost use Rattle.gl_plain.specs.CellVerdict.{IsCellVerdict};

use gl_box::{Cell, Tuple, Why};
use gl_goal::{Best, Goal, Leg};

/// What a goal's tests say of a cell.
#[derive(Clone, Copy, Debug, PartialEq, Eq)]
pub enum CellVerdict {
    /// Nothing in it has to be looked at any more.
    Closed(Why),
    /// It may hold a legal tuple that is worth this much, more than what was found.
    Open(u64),
}

/// Tests a cell against a total that was found, if one was. `legs` are some that were measured.
#[inline(always)]
pub fn test_for<G: Goal>(goal: &G, cell: &Cell, total: Option<u64>, legs: &mut [Leg]) -> CellVerdict
    requires covers { Covers (whole_cell (G.rule goal.now).axes) (spans_of cell.now) }
    requires legs { G.are_legs goal.now legs.old }
    ensures verdict { IsCellVerdict (G.rule goal.now) total (spans_of cell.now) result }
    ensures legs { G.are_legs goal.now legs.new }
{
    if goal.disordered(cell) {
        return CellVerdict::Closed(Why::Disordered);
    }
    if goal.shut(cell) {
        return CellVerdict::Closed(Why::Shut);
    }
    let bound = goal.bound_by(cell, legs);
    if let Some(total) = total
        && bound <= total
    {
        return CellVerdict::Closed(Why::Bound);
    }
    CellVerdict::Open(bound)
}

/// Tests a cell against what was found. `legs` are some that were measured.
#[inline(always)]
pub(crate) fn test<G: Goal>(
    goal: &G,
    cell: &Cell,
    best: &Option<Best>,
    legs: &mut [Leg],
) -> CellVerdict
    requires covers { Covers (whole_cell (G.rule goal.now).axes) (spans_of cell.now) }
    requires legs { G.are_legs goal.now legs.old }
    ensures verdict { IsCellVerdict (G.rule goal.now) (total_of best.now)
        (spans_of cell.now) result }
    ensures legs { G.are_legs goal.now legs.new }
{
    let total = match best {
        Some(known) => Some(known.total),
        None => None,
    };
    test_for(goal, cell, total, legs)
}

/// Keeps a tuple where it is legal and worth more than what was found.
pub(crate) fn consider<G: Goal>(goal: &G, tuple: &Tuple, best: &mut Option<Best>)
    requires fits { IsTuple (G.rule goal.now).axes (places_of tuple.now) }
    requires sound { IsSound (G.rule goal.now) best.old }
    ensures { IsSound (G.rule goal.now) best.new }
{
    if !goal.legal(tuple) {
        return;
    }
    let total = goal.value(tuple);
    if let Some(known) = best
        && total <= known.total
    {
        return;
    }
    *best = Some(Best {
        total,
        tuple: *tuple,
    });
}
