ghost use Rattle.std.specs.Prelude.{◌≡◌, IfOk};
ghost use Rattle.gl_box.specs.Cell.{spans_of};
ghost use Rattle.gl_goal.specs.Goal.{whole_cell};

use crate::goal::Goal;
use crate::leg::Leg;
use gl_box::{Cell, Span, Tuple};
use std::alloc::{AllocError, Global};

/// Room for measured legs; a power of two, so that all of it serves.
const LEG_ROOM: usize = 4_096;

/// The cell with each place of each axis, with which a search and a check begin.
pub fn whole<G: Goal>(goal: &G) -> Cell
    ensures { spans_of result ≡ whole_cell (G.rule goal.now).axes }
{
    let axes = goal.axes();
    let mut cell = Cell::point(&Tuple::first(axes));
    for axis in 0..axes {
        let span = Span {
            lo: 0,
            hi: goal.len(axis) - 1,
        };
        cell.set(axis as usize, span);
    }
    cell
}

/// Room for the legs that a search or a check measures. The only error is want of memory.
pub fn measured_legs<G: Goal>(alloc: Global, goal: &G) -> Result<Vec<Leg>, AllocError>
    ensures { IfOk result (λ legs. G.are_legs goal.now legs.items) }
{
    vec![in alloc; goal.leg(); LEG_ROOM]
}
