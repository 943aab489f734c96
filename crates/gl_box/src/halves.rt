ghost use Rattle.std.specs.Prelude.{◌≡◌, ◌↔◌, ℕ, List, [], ◌∷◌, IfNone, IfSome, IsNone};
ghost use Rattle.gl_box.specs.Cell.{spans_of};
ghost use Rattle.gl_box.specs.Frontier.{mult};
ghost use Rattle.gl_box.specs.Halves.{AreHalves, IsSingle, IsWidest};

use crate::cell::Cell;
use crate::span::Span;

/// The axis with the widest span, the lowest one among equally wide spans.
#[inline]
pub fn widest(cell: &Cell) -> usize
    ensures { IsWidest (spans_of cell.now) result }
{
    let mut widest = 0;
    let mut most = cell.spans[0].width();
    for axis in 1..cell.axes as usize {
        let width = cell.spans[axis].width();
        if width > most {
            widest = axis;
            most = width;
        }
    }
    widest
}

/// Cuts a cell in the middle of its widest span: the cell becomes its upper half, and the lower
/// half is handed out. `None` exactly where the cell holds a single tuple, and then it stays as it
/// is.
#[inline]
pub fn halve(cell: &mut Cell) -> Option<Cell>
    ensures halves { IfSome result
        (λ lower. AreHalves (spans_of cell.old) (spans_of lower) (spans_of cell.new)) }
    ensures single { IsNone result ↔ IsSingle (spans_of cell.old) }
    ensures same { IfNone result (cell.new ≡ cell.old) }
{
    let axis = widest(cell);
    let span = cell.spans[axis];
    if span.lo == span.hi {
        return None;
    }
    let middle = span.lo + (span.hi - span.lo) / 2;
    let mut lower = *cell;
    lower.set(
        axis,
        Span {
            lo: span.lo,
            hi: middle,
        },
    );
    cell.set(
        axis,
        Span {
            lo: middle + 1,
            hi: span.hi,
        },
    );
    Some(lower)
}

/// The lower and the upper half of a cell, cut in the middle of its widest span: each tuple of the
/// cell lies in exactly one of them, and they hold no other. `None` exactly where the cell holds a
/// single tuple.
pub fn split(cell: &Cell) -> Option<(Cell, Cell)>
    ensures halves { IfSome result
        (λ halves. AreHalves (spans_of cell.now) (spans_of halves.0) (spans_of halves.1)) }
    ensures parted { IfSome result (λ halves. (tuple : List ℕ)
        → mult (spans_of halves.0 ∷ spans_of halves.1 ∷ []) tuple
        ≡ mult (spans_of cell.now ∷ []) tuple) }
    ensures single { IsNone result ↔ IsSingle (spans_of cell.now) }
{
    let mut upper = *cell;
    let lower = halve(&mut upper)?;
    Some((lower, upper))
}
