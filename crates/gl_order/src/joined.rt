ghost use Rattle.std.specs.Prelude.{◌≡◌, IfOk, IfSome, IsPermutation, IsTrue, map};
ghost use Rattle.gl_box.specs.Along.{boxes_along};
ghost use Rattle.gl_box.specs.Cell.{spans_of};
ghost use Rattle.gl_box.specs.Closed.{box_of};
ghost use Rattle.gl_box.specs.Frontier.{IsFrontier};
ghost use Rattle.gl_box.specs.Turns.{reason_of};
ghost use Rattle.gl_order.specs.Order.{AreParts, cells_of};
ghost use Rattle.gl_order.specs.Runs.{ArePassed, boxes_in_runs};

use crate::run::Run;
use crate::sorting::sorted;
use gl_box::{Cell, Closed, GoalTurn, Walk, covers, walk_of};
use std::alloc::{AllocError, Global};

/// Whether two lists have the same cells.
fn are_same(cells: &[Cell], others: &[Cell]) -> bool
    ensures { IsTrue result → map spans_of cells.now ≡ map spans_of others.now }
{
    if cells.len() != others.len() {
        return false;
    }
    for index in 0..cells.len() {
        if !covers(&cells[index], &others[index]) {
            return false;
        }
        if !covers(&others[index], &cells[index]) {
            return false;
        }
    }
    true
}

/// Runs as a walk along the split tree of a whole cell. `None` where they don't lead from it, one
/// after the other, until nothing is open. The only error is want of memory.
fn joined(alloc: Global, whole: &Cell, runs: &[Run]) -> Result<Option<Walk<GoalTurn>>, AllocError>
    requires { ArePassed runs.now }
    ensures boxes { IfOk result (λ joined. IfSome joined
        (λ walk. boxes_along reason_of walk ≡ boxes_in_runs runs.now)) }
    ensures frontier { IfOk result (λ joined. IfSome joined
        (λ walk. IsFrontier (spans_of whole.now) (cells_of (boxes_along reason_of walk)))) }
{
    let mut opened = Vec::new(alloc);
    opened.push(*whole)?;
    let mut turns = Vec::new(alloc);
    for run in runs {
        if !are_same(&opened, &run.before) {
            return Ok(None);
        }
        turns.extend_from_slice(&run.turns)?;
        opened.clear();
        opened.extend_from_slice(&run.after)?;
    }
    if !opened.is_empty() {
        return Ok(None);
    }
    opened.push(*whole)?;
    Ok(Some(Walk { opened, turns }))
}

/// The boxes of some runs, spread out in a list. The only error is want of memory.
pub fn spread(alloc: Global, runs: Vec<Run>) -> Result<Vec<Closed>, AllocError>
    ensures { IfOk result (λ list. map box_of list.items ≡ boxes_in_runs runs.items) }
{
    let mut all = Vec::new(alloc);
    'runs: for run in runs {
        let Run { turns, before, .. } = run;
        let walk = Walk {
            opened: before,
            turns,
        };
        let mut boxes = walk.to_list(alloc)?;
        all.append(&mut boxes)?;
    }
    Ok(all)
}

/// The boxes of some runs in the order of the split tree of a cell which they part together, each as
/// often as in the runs. The only error is want of memory.
///
/// As long as each run leads to the next one, once they are sorted by their ways, only their ends
/// are looked at. If one doesn't, all boxes are spread out in a list and put into order there.
pub fn in_order(
    alloc: Global,
    whole: &Cell,
    mut runs: Vec<Run>,
) -> Result<Walk<GoalTurn>, AllocError>
    requires passed { ArePassed runs.items }
    requires parts { AreParts (spans_of whole.now) (cells_of (boxes_in_runs runs.items)) }
    ensures frontier { IfOk result
        (λ walk. IsFrontier (spans_of whole.now) (cells_of (boxes_along reason_of walk))) }
    ensures permutation { IfOk result
        (λ walk. IsPermutation (boxes_in_runs runs.items) (boxes_along reason_of walk)) }
{
    runs.sort_by_key(|run| run.way)?;
    if let Some(walk) = joined(alloc, whole, &runs)? {
        return Ok(walk);
    }
    let boxes = sorted(alloc, whole, spread(alloc, runs)?)?;
    walk_of(alloc, whole, &boxes)
}
