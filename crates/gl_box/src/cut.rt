ghost use Rattle.std.specs.Prelude.{ℕ, List, IfNone, IfSome};
ghost use Rattle.gl_box.specs.Cell.{spans_of};
ghost use Rattle.gl_box.specs.Halves.{AreHalves, IsSingle, IsWidest};

use crate::cell::Cell;
use crate::span::Span;

/// Cuts a cell in the middle of its widest span, which is that of an axis: the cell becomes its
/// lower half, and the upper half is handed out. `None` where the cell holds a single tuple.
#[inline]
pub(crate) fn halve_at(cell: &mut Cell, axis: usize) -> Option<Cell>
    requires { IsWidest (spans_of cell.old) axis }
    ensures halves { IfSome result
        (λ upper. AreHalves (spans_of cell.old) (spans_of cell.new) (spans_of upper)) }
    ensures single { IfNone result (IsSingle (spans_of cell.old)) }
{
    let span = cell.spans[axis];
    if span.lo == span.hi {
        return None;
    }
    let middle = span.lo + (span.hi - span.lo) / 2;
    let mut upper = *cell;
    upper.set(
        axis,
        Span {
            lo: middle + 1,
            hi: span.hi,
        },
    );
    cell.set(
        axis,
        Span {
            lo: span.lo,
            hi: middle,
        },
    );
    Some(upper)
}
