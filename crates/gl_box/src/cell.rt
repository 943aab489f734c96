ghost use Rattle.std.specs.Prelude.{◌≡◌, ◌≤◌, All, drop, length};

use crate::span::Span;
use crate::tuple::{MOST_AXES, Tuple};

/// All tuples whose place on each axis lies in the axis's span. There are 1 to 10 axes; the spans
/// of those that aren't there are 0 to 0.
#[derive(Clone, Copy, Debug, PartialEq, Eq)]
pub struct Cell {
    pub axes: u8,
    pub spans: [Span; MOST_AXES],
    pub ghost some_axis: { 1 ≤ axes },
    pub ghost ten_axes: { axes ≤ 10 },
    pub ghost ten_spans: { length spans ≡ 10 },
    pub ghost unused: { All (λ span. span.hi ≡ 0) (drop axes spans) },
}

impl Cell {
    ghost use Rattle.std.specs.Prelude.{◌≡◌, ◌≤◌, ◌<◌, length, map, slice_set};
    ghost use Rattle.gl_box.specs.Tuple.{places_of};
    ghost use Rattle.gl_box.specs.Cell.{ends, spans_of, point};

    /// The cell of a single tuple.
    pub fn point(tuple: &Tuple) -> Cell
        ensures spans { spans_of result ≡ point (places_of tuple.now) }
        ensures axes { result.axes ≡ tuple.now.axes }
    {
        let mut cell = Cell {
            axes: tuple.axes,
            spans: [Span { lo: 0, hi: 0 }; MOST_AXES],
        };
        for axis in 0..tuple.axes as usize {
            cell.set(axis, Span::point(tuple.places[axis]));
        }
        cell
    }

    /// The tuple at the low end of each span.
    pub fn lowest(&self) -> Tuple
        ensures { places_of result ≡ map (λ span. span.0) (spans_of self.now) }
    {
        let mut tuple = Tuple::first(self.axes);
        for axis in 0..self.axes as usize {
            tuple.choose(axis, self.spans[axis].lo);
        }
        tuple
    }

    /// Gives an axis another span.
    pub fn set(&mut self, axis: usize, span: Span)
        requires { axis < self.old.axes }
        ensures spans { spans_of self.new ≡ slice_set (spans_of self.old) axis (ends span) }
        ensures axes { self.new.axes ≡ self.old.axes }
    {
        self.spans[axis] = span;
    }
}
