ghost use Rattle.std.specs.Prelude.{◌<◌, ◌↔◌, All, IfOk, IsNone, OnOk, map, vec_len};
ghost use Rattle.gl_box.specs.Along.{Advances};
ghost use Rattle.gl_box.specs.Cell.{Covers, spans_of};
ghost use Rattle.gl_box.specs.Frontier.{IsFrontier, IsNode};
ghost use Rattle.gl_box.specs.Turns.{reason_of};
ghost use Rattle.gl_goal.specs.Certificate.{IsClosedFor};
ghost use Rattle.gl_goal.specs.Goal.{HasNoLegal, IsOpen, IsOptimum, whole_cell};
ghost use Rattle.gl_goal.specs.Best.{IsNoLess, IsSound, total_of};
ghost use Rattle.gl_plain.specs.Parts.{IsDoneFor, IsFinished, cell_of};
ghost use Rattle.gl_plain.specs.Code.Steps.{IsSearched};
ghost use Rattle.gl_plain.specs.Found.{AreNeeded, HoldsEachOnce, IsCertified};

use crate::found::Found;
use crate::part::Part;
use crate::verdict::{CellVerdict, test};
use crate::warm::warm_start;
use gl_box::{Boxed, Cell, GoalTurn, OPEN_ROOM, Turn, Walk, Why, come_to, settle};
use gl_goal::{Best, Goal, Leg, better, measured_legs, whole};
use std::alloc::{AllocError, Global};

/// Room for turns at the start, where few cells are searched.
const TURNS_ROOM: usize = 65_536;

/// One step of the search at the first open cell, the last of the list: it is closed, or gives way
/// to its halves. The only error is want of memory.
#[inline]
fn advance<G: Goal>(
    goal: &G,
    best: &mut Option<Best>,
    cells: &mut Vec<Cell>,
    turns: &mut Vec<GoalTurn>,
    legs: &mut [Leg],
) -> Result<(), AllocError>
    requires some { 0 < vec_len cells.old }
    requires covers { All (λ cell. Covers (whole_cell (G.rule goal.now).axes) (spans_of cell))
        cells.old.items }
    requires sound { IsSound (G.rule goal.now) best.old }
    requires legs { G.are_legs goal.now legs.old }
    ensures step { OnOk result (Advances
        (IsClosedFor (G.rule goal.now) (total_of best.new)) (IsOpen (G.rule goal.now))
        cells.old.items cells.new.items
        (map reason_of turns.old.items) (map reason_of turns.new.items)) }
    ensures sound { OnOk result (IsSound (G.rule goal.now) best.new) }
    ensures legs { G.are_legs goal.now legs.new }
    ensures grows { OnOk result (IsNoLess (total_of best.old) (total_of best.new)) }
{
    let top = cells.len() - 1;
    match test(goal, &cells[top], best, legs) {
        CellVerdict::Closed(why) => {
            settle(cells, turns, Some(why))?;
        }
        CellVerdict::Open(bound) => {
            if let Some(single) = settle(cells, turns, None)? {
                *best = Some(Best {
                    total: bound,
                    tuple: single.lowest(),
                });
                turns.push(GoalTurn::close(Why::Bound))?;
            }
        }
    }
    Ok(())
}

/// Searches a cell until nothing in it is open, and adds the turns that this takes. `cells` is room
/// to work in. The only error is want of memory.
fn search_cell<G: Goal>(
    goal: &G,
    cell: Cell,
    best: &mut Option<Best>,
    cells: &mut Vec<Cell>,
    turns: &mut Vec<GoalTurn>,
    legs: &mut [Leg],
) -> Result<(), AllocError>
    requires node { IsNode (whole_cell (G.rule goal.now).axes) (spans_of cell) }
    requires sound { IsSound (G.rule goal.now) best.old }
    requires legs { G.are_legs goal.now legs.old }
    ensures searched { OnOk result (IsSearched (G.rule goal.now) (spans_of cell) best.new
        (map reason_of turns.old.items) (map reason_of turns.new.items)) }
    ensures sound { OnOk result (IsSound (G.rule goal.now) best.new) }
    ensures legs { OnOk result (G.are_legs goal.now legs.new) }
    ensures grows { OnOk result (IsNoLess (total_of best.old) (total_of best.new)) }
{
    cells.clear();
    cells.push(cell)?;
    while !cells.is_empty() {
        advance(goal, best, cells, turns, legs)?;
    }
    Ok(())
}

/// Goes over cells as they were left, which part the whole cell by splits, one after another, from
/// the better of two legal tuples: an open cell is searched until nothing in it is open, and a closed
/// one becomes its box. The only error is want of memory.
fn go_over<G: Goal>(
    alloc: Global,
    goal: &G,
    known: Option<Best>,
    warm: Option<Best>,
    parts: &[Part],
    legs: &mut [Leg],
) -> Result<Found, AllocError>
    requires known { IsSound (G.rule goal.now) known }
    requires warm { IsSound (G.rule goal.now) warm }
    requires parted { IsFrontier (whole_cell (G.rule goal.now).axes) (map cell_of parts.now) }
    requires done { All (IsDoneFor (G.rule goal.now) (total_of known)) parts.now }
    requires legs { G.are_legs goal.now legs.old }
    ensures { IfOk result (IsFinished (G.rule goal.now) parts.now known) }
{
    let mut best = better(known, warm);
    let mut cells = Vec::with_capacity(alloc, OPEN_ROOM)?;
    let mut opened = Vec::with_capacity(alloc, OPEN_ROOM)?;
    opened.push(whole(goal))?;
    let mut turns = Vec::with_capacity(alloc, TURNS_ROOM.max(parts.len().saturating_mul(2)))?;
    for part in parts {
        if !come_to(&mut opened, &mut turns, part.cell())? {
            unreachable!();
        }
        match part {
            Part::Open(cell) => {
                search_cell(goal, *cell, &mut best, &mut cells, &mut turns, legs)?;
            }
            Part::Done(done) => turns.push(GoalTurn::close(done.why))?,
        }
    }
    opened.clear();
    opened.push(whole(goal))?;
    let closed = Walk { opened, turns };
    Ok(Found { best, closed })
}

/// Searches what is open of cells as they were left, which part the whole cell by splits, and keeps
/// what is closed. A legal tuple may be known, and a better one is looked for first. The boxes come
/// in the order of the parts, each closed for the best total in the end, which is no less than what
/// was known. The only error is want of memory.
pub fn finish<G: Goal>(
    alloc: Global,
    goal: &G,
    known: Option<Best>,
    parts: &[Part],
) -> Result<Found, AllocError>
    requires sound { IsSound (G.rule goal.now) known }
    requires parted { IsFrontier (whole_cell (G.rule goal.now).axes) (map cell_of parts.now) }
    requires done { All (IsDoneFor (G.rule goal.now) (total_of known)) parts.now }
    ensures { IfOk result (IsFinished (G.rule goal.now) parts.now known) }
{
    let mut measured = measured_legs(alloc, goal)?;
    let legs = measured.as_mut_slice();
    let warm = warm_start(alloc, goal, legs)?;
    go_over(alloc, goal, known, warm, parts, legs)
}

/// The optimum of a goal, and boxes that certify it: in the order of the split tree they are a
/// frontier of the whole cell, so that each tuple lies in exactly one of them, and each is closed
/// for the total by its reason. `best` is `None` exactly where no tuple is legal. No cell is cut
/// that is disordered or shut. The only error is want of memory.
pub fn search_one<G: Goal>(alloc: Global, goal: &G) -> Result<Found, AllocError>
    ensures certificate { IfOk result (IsCertified (G.rule goal.now)) }
    ensures once { IfOk result (HoldsEachOnce (G.rule goal.now)) }
    ensures reached { IfOk result (λ found. IsSound (G.rule goal.now) found.best) }
    ensures optimum { IfOk result (λ found. IsOptimum (G.rule goal.now) (total_of found.best)) }
    ensures none { IfOk result (λ found. IsNone found.best ↔ HasNoLegal (G.rule goal.now)) }
    ensures needed { IfOk result (AreNeeded (G.rule goal.now)) }
{
    finish(alloc, goal, None, &[Part::Open(whole(goal))])
}
