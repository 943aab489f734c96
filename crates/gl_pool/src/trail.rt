ghost use Rattle.std.specs.Prelude.{◌≡◌, [], ◌∷◌, ◌++◌, false, IfOk, IsTrue, OnOk, map};
ghost use Rattle.gl_box.specs.Closed.{box_of};
ghost use Rattle.gl_box.specs.Walk.{open_cells};
ghost use Rattle.gl_order.specs.Runs.{ArePassed, IsPassed, boxes_by, boxes_in_runs};
ghost use Rattle.gl_pool.specs.Code.Trail.{IsTrail};
ghost use Rattle.gl_pool.specs.Trail.{boxes_in};

use gl_box::{Cell, Closed, covers};
use gl_order::{Run, spread};
use std::alloc::{AllocError, Global};
use std::mem;

/// The turns of a worker: the runs that are done, and the one to which it adds. Of that one the
/// open cells are those behind the cells that the worker has before it.
#[derive(Drop)]
pub(crate) struct Trail {
    pub(crate) runs: Vec<Run>,
    pub(crate) last: Run,
}

/// A trail without boxes.
pub(crate) fn empty_trail(alloc: Global) -> Trail
    ensures boxes { boxes_in result ≡ [] }
    ensures trail { IsTrail result [] }
{
    Trail {
        runs: Vec::new(alloc),
        last: Run::empty(alloc),
    }
}

/// Takes a cell from the open ones, if it is the first of them. Answers whether it is. The only
/// error is want of memory.
fn resume(opened: &mut Vec<Cell>, cell: &Cell) -> Result<bool, AllocError>
    ensures first { IfOk result (λ first. IsTrue first
        → open_cells opened.old.items ≡ open_cells (opened.new.items ++ cell.now ∷ [])) }
    ensures other { IfOk result (λ first. (first ≡ false)
        → opened.new.items ≡ opened.old.items) }
{
    let Some(next) = opened.pop() else {
        return Ok(false);
    };
    if covers(&next, cell) && covers(cell, &next) {
        return Ok(true);
    }
    opened.push(next)?;
    Ok(false)
}

/// Begins another run, at a cell of a whole one. The only error is want of memory.
fn begin_run(alloc: Global, whole: &Cell, cell: &Cell, trail: &mut Trail) -> Result<(), AllocError>
    requires { IsTrail trail.old [] }
    ensures boxes { OnOk result (boxes_in trail.new ≡ boxes_in trail.old) }
    ensures trail { OnOk result (IsTrail trail.new (cell.now ∷ [])) }
{
    let next = Run::at(alloc, whole, cell)?;
    let done = mem::replace(&mut trail.last, next);
    add_run(&mut trail.runs, done)
}

/// Comes to a cell of a whole one: it is the first open cell, or another run begins there. The
/// only error is want of memory.
pub(crate) fn come_to(
    alloc: Global,
    whole: &Cell,
    cell: &Cell,
    trail: &mut Trail,
) -> Result<(), AllocError>
    requires { IsTrail trail.old [] }
    ensures boxes { OnOk result (boxes_in trail.new ≡ boxes_in trail.old) }
    ensures trail { OnOk result (IsTrail trail.new (cell.now ∷ [])) }
{
    if resume(&mut trail.last.after, cell)? {
        return Ok(());
    }
    begin_run(alloc, whole, cell, trail)
}

/// Adds a run, if it has turns. The only error is want of memory.
fn add_run(runs: &mut Vec<Run>, run: Run) -> Result<(), AllocError>
    ensures boxes { OnOk result
        (boxes_in_runs runs.new.items ≡ boxes_in_runs runs.old.items ++ boxes_by run) }
    ensures passed { OnOk result (IsPassed run
        → ArePassed runs.old.items → ArePassed runs.new.items) }
{
    if !run.turns.is_empty() {
        runs.push(run)?;
    }
    Ok(())
}

/// Adds the runs of a trail. The only error is want of memory.
pub(crate) fn add_trail(runs: &mut Vec<Run>, trail: Trail) -> Result<(), AllocError>
    requires { IsTrail trail [] }
    ensures boxes { OnOk result
        (boxes_in_runs runs.new.items ≡ boxes_in_runs runs.old.items ++ boxes_in trail) }
    ensures passed { OnOk result (ArePassed runs.old.items → ArePassed runs.new.items) }
{
    let Trail {
        runs: mut done,
        last,
    } = trail;
    runs.append(&mut done)?;
    add_run(runs, last)
}

/// Adds other runs. The only error is want of memory.
pub(crate) fn join_runs(runs: &mut Vec<Run>, mut others: Vec<Run>) -> Result<(), AllocError>
    ensures { OnOk result (runs.new.items ≡ runs.old.items ++ others.items) }
{
    runs.append(&mut others)?;
    Ok(())
}

/// All boxes of a trail in one list. The only error is want of memory.
pub(crate) fn boxes_of(alloc: Global, trail: Trail) -> Result<Vec<Closed>, AllocError>
    ensures { IfOk result (λ boxes. map box_of boxes.items ≡ boxes_in trail) }
{
    let Trail { mut runs, last } = trail;
    runs.push(last)?;
    spread(alloc, runs)
}
