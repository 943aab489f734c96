ghost use Rattle.std.specs.Prelude.{◌≡◌, ◌↔◌, ◌<◌, ℕ, List, ◌∷◌, false, IfNone, IfOk, IfSome, IsTrue};
ghost use Rattle.gl_box.specs.Cell.{spans_of};
ghost use Rattle.gl_box.specs.Halves.{span_at};
ghost use Rattle.gl_box.specs.Walk.{AreFrontiers, ComesTo, open_cells};

use crate::cell::Cell;
use crate::cut::halve_at;
use crate::halves::widest;
use crate::room::append;
use std::alloc::AllocError;

/// Room for open cells: each cut adds one, and a cell can be cut at most 32 times on each axis.
pub const OPEN_ROOM: usize = 512;

/// Whether two cells have the same span on an axis.
#[inline]
fn is_same_at(cell: &Cell, other: &Cell, axis: usize) -> bool
    requires one { axis < cell.now.axes }
    requires two { axis < other.now.axes }
    ensures { IsTrue result
        ↔ (span_at (spans_of cell.now) axis ≡ span_at (spans_of other.now) axis) }
{
    let span = cell.spans[axis];
    let next = other.spans[axis];
    span.hi == next.hi && span.lo == next.lo
}

/// Whether two cells have the same axes and spans.
#[inline]
pub(crate) fn is_same(cell: &Cell, other: &Cell) -> bool
    ensures { IsTrue result ↔ (spans_of cell.now ≡ spans_of other.now) }
{
    if cell.axes != other.axes {
        return false;
    }
    for axis in 0..cell.axes as usize {
        if !is_same_at(cell, other, axis) {
            return false;
        }
    }
    true
}

/// Cuts the first open cell, and its lower half again and again, until a cell is the first open one,
/// and takes that from the open ones. Answers how many cuts it takes, or `None` where the cell isn't
/// there; then the open cells serve for nothing any more. The only error is want of memory.
///
/// A box that stands where it should lies in the first open cell, so after a cut its end is looked
/// at on that axis alone.
#[inline]
pub fn cuts_to(opened: &mut Vec<Cell>, cell: &Cell) -> Result<Option<usize>, AllocError>
    ensures there { IfOk result (λ cuts. IfSome cuts (λ count.
        ComesTo (open_cells opened.old.items) (spans_of cell.now) count
        (open_cells opened.new.items))) }
    ensures absent { IfOk result (λ cuts. IfNone cuts ((more : List (List (ℕ × ℕ)))
        → AreFrontiers (open_cells opened.old.items) (spans_of cell.now ∷ more) → ⊥)) }
{
    let Some(mut first) = opened.pop() else {
        return Ok(None);
    };
    let others = opened.len();
    'halves: while !is_same(&first, cell) {
        let axis = widest(&first);
        let Some(upper) = halve_at(&mut first, axis) else {
            return Ok(None);
        };
        if cell.spans[axis].hi > first.spans[axis].hi {
            return Ok(None);
        }
        append(opened, upper)?;
    }
    Ok(Some(opened.len() - others))
}

/// Goes down from the first open cell to a cell, over lower halves alone, and takes it from the
/// open ones; the upper halves on the way stay open. Answers whether the cell is there; if not, the
/// open cells serve for nothing any more. The only error is want of memory.
#[inline]
pub fn go_down(opened: &mut Vec<Cell>, cell: &Cell) -> Result<bool, AllocError>
    ensures there { IfOk result (λ there. IsTrue there → (more : List (List (ℕ × ℕ)))
        → AreFrontiers (open_cells opened.old.items) (spans_of cell.now ∷ more)
        ↔ AreFrontiers (open_cells opened.new.items) more) }
    ensures absent { IfOk result (λ there. (there ≡ false) → (more : List (List (ℕ × ℕ)))
        → AreFrontiers (open_cells opened.old.items) (spans_of cell.now ∷ more) → ⊥) }
{
    match cuts_to(opened, cell)? {
        Some(_cuts) => Ok(true),
        None => Ok(false),
    }
}
