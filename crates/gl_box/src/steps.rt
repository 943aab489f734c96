ghost use Rattle.std.specs.Prelude.{◌≡◌, ◌<◌, [], ◌∷◌, ◌++◌, ℕ, List, None, false, map, replicate, vec_len, IfOk, IsTrue, MatchBool};
ghost use Rattle.gl_box.specs.declared.cell.Cell.{Cell};
ghost use Rattle.gl_box.specs.Cell.{spans_of};
ghost use Rattle.gl_box.specs.Along.{IsCut, Settles};
ghost use Rattle.gl_box.specs.Halves.{IsSingle};
ghost use Rattle.gl_box.specs.Walk.{AreFrontiers, ComesTo, open_cells};

use crate::cell::Cell;
use crate::room::append;
use crate::turn::Turn;
use crate::walk::cuts_to;
use crate::way::{lower, put};
use std::alloc::AllocError;

/// Cuts the last cell of a list: it gives way to its halves, the lower one last. Answers whether it
/// could be cut: a single tuple stays as it is. The only error is want of memory.
#[inline]
fn cut_last(cells: &mut Vec<Cell>) -> Result<bool, AllocError>
    requires { 0 < vec_len cells.old }
    ensures { IfOk result (λ cut. (rest : List Cell) (cell : Cell)
        → cells.old.items ≡ rest ++ cell ∷ []
        → MatchBool cut (IsCut cell rest cells.new.items)
        (IsSingle (spans_of cell) × (cells.new.items ≡ cells.old.items))) }
{
    let top = cells.len() - 1;
    let cell = cells[top];
    append(cells, cell)?;
    let Some(fork) = lower(&mut cells[top + 1]) else {
        cells.pop();
        return Ok(false);
    };
    put(&mut cells[top], fork.axis, fork.upper());
    Ok(true)
}

/// Settles the first open cell, the last of the list. By a reason, if there is one, it is closed.
/// Otherwise it gives way to its halves, the lower one last; a single tuple can't be cut, and is
/// answered: it is open no more, and no turn is kept for it. The only error is want of memory.
#[inline]
pub fn settle<T: Turn>(
    opened: &mut Vec<Cell>,
    turns: &mut Vec<T>,
    why: Option<T::Why>,
) -> Result<Option<Cell>, AllocError>
    ensures { IfOk result (λ single. (rest : List Cell) (cell : Cell)
        → opened.old.items ≡ rest ++ cell ∷ []
        → Settles cell opened.old.items opened.new.items
        (map T.reason turns.old.items) (map T.reason turns.new.items) why single) }
{
    if opened.is_empty() {
        return Ok(None);
    }
    if let Some(why) = why {
        opened.pop();
        append(turns, T::close(why))?;
        return Ok(None);
    }
    if !cut_last(opened)? {
        return Ok(opened.pop());
    }
    append(turns, T::cut())?;
    Ok(None)
}

/// Comes to a cell by cuts: the first open cell is cut, and its lower half again and again, until
/// the cell is the first open one, and that is taken from the open ones. Answers whether it is
/// there; if not, the open cells serve for nothing any more. The only error is want of memory.
pub fn come_to<T: Turn>(
    opened: &mut Vec<Cell>,
    turns: &mut Vec<T>,
    cell: &Cell,
) -> Result<bool, AllocError>
    ensures there { IfOk result (λ there. IsTrue there → (count : ℕ)
        × ComesTo (open_cells opened.old.items) (spans_of cell.now) count
        (open_cells opened.new.items)
        × (map T.reason turns.new.items
        ≡ map T.reason turns.old.items ++ replicate count None)) }
    ensures absent { IfOk result (λ there. (there ≡ false) → (more : List (List (ℕ × ℕ)))
        → AreFrontiers (open_cells opened.old.items) (spans_of cell.now ∷ more) → ⊥) }
{
    let Some(count) = cuts_to(opened, cell)? else {
        return Ok(false);
    };
    for _ in 0..count {
        turns.push(T::cut())?;
    }
    Ok(true)
}
