ghost use Rattle.std.specs.Prelude.{◌≡◌, [], ◌∷◌, ◌++◌, IfOk};

use crate::stretches::way_to;
use gl_box::{Cell, GoalTurn, covers, halve};
use std::alloc::{AllocError, Global};

/// A cell can be cut at most 32 times on each axis.
const MOST_CUTS: u32 = 320;

/// Turns that follow one another along the split tree of a cell, the cells that are open before the
/// first of them and those that are open after the last one; the last of each is the first in the
/// order of the tree. And the way to the first open cell: its turns down the tree, from the highest
/// bit on, 1 where it lies in the upper half.
#[derive(Drop)]
pub struct Run {
    pub turns: Vec<GoalTurn>,
    pub way: u128,
    pub before: Vec<Cell>,
    pub after: Vec<Cell>,
}

impl Run {
    /// A run without turns, before and after which no cell is open.
    pub fn empty(alloc: Global) -> Run
        ensures turns { result.turns.items ≡ [] }
        ensures before { result.before.items ≡ [] }
        ensures after { result.after.items ≡ [] }
    {
        Run {
            turns: Vec::new(alloc),
            way: 0,
            before: Vec::new(alloc),
            after: Vec::new(alloc),
        }
    }

    /// A run without turns that comes to a node of a whole cell next. The only error is want of
    /// memory.
    pub fn at(alloc: Global, whole: &Cell, cell: &Cell) -> Result<Run, AllocError>
        ensures turns { IfOk result (λ run. run.turns.items ≡ []) }
        ensures next { IfOk result
            (λ run. run.before.items ≡ run.after.items ++ cell.now ∷ []) }
    {
        let after = open_after(alloc, whole, cell)?;
        let mut before = Vec::new(alloc);
        before.extend_from_slice(&after)?;
        before.push(*cell)?;
        Ok(Run {
            turns: Vec::new(alloc),
            way: way_to(whole, cell),
            before,
            after,
        })
    }
}

/// The cells that are open once a walk has passed a node of a whole cell. The only error is want of
/// memory.
fn open_after(alloc: Global, whole: &Cell, node: &Cell) -> Result<Vec<Cell>, AllocError> {
    let mut opened = Vec::new(alloc);
    let mut cell = *whole;
    for _ in 0..MOST_CUTS {
        if covers(node, &cell) {
            break;
        }
        let Some(lower) = halve(&mut cell) else {
            break;
        };
        if covers(&lower, node) {
            opened.push(cell)?;
            cell = lower;
        }
    }
    Ok(opened)
}
