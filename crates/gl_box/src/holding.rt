ghost use Rattle.std.specs.Prelude.{◌≡◌, ◌↔◌, IsTrue};
ghost use Rattle.gl_box.specs.Tuple.{places_of};
ghost use Rattle.gl_box.specs.Cell.{Covers, Holds, spans_of};

use crate::cell::Cell;
use crate::tuple::Tuple;

/// Whether each span of the inner cell lies in the outer cell's span on that axis.
pub fn covers(outer: &Cell, inner: &Cell) -> bool
    ensures { IsTrue result ↔ Covers (spans_of outer.now) (spans_of inner.now) }
{
    if outer.axes != inner.axes {
        return false;
    }
    for axis in 0..outer.axes as usize {
        let around = outer.spans[axis];
        let span = inner.spans[axis];
        if span.lo < around.lo || around.hi < span.hi {
            return false;
        }
    }
    true
}

/// Whether the cell holds the tuple.
pub fn has(cell: &Cell, tuple: &Tuple) -> bool
    ensures { IsTrue result ↔ Holds (spans_of cell.now) (places_of tuple.now) }
{
    if cell.axes != tuple.axes {
        return false;
    }
    for axis in 0..cell.axes as usize {
        let span = cell.spans[axis];
        let place = tuple.places[axis];
        if place < span.lo || span.hi < place {
            return false;
        }
    }
    true
}
