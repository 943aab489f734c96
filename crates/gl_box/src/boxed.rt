ghost use Rattle.std.specs.Prelude.{◌≡◌, ℕ, List};
ghost use Rattle.gl_box.specs.Cell.{spans_of};

use crate::cell::Cell;
use crate::closed::Closed;

/// What stands for a cell, as a box of a proof.
pub trait Boxed {
    /// The spans of its cell.
    ghost spans: { Self → List (ℕ × ℕ) };

    /// Its cell.
    fn cell(&self) -> &Cell
        ensures { spans_of result.now ≡ spans self.now };
}

impl Boxed for Closed {
    ghost spans = { λ closed. spans_of closed.cell };

    fn cell(&self) -> &Cell {
        &self.cell
    }
}
