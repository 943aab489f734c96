ghost use Rattle.gl_plain.specs.Parts.{cell_of};

use gl_box::{Boxed, Cell, Closed};

/// A cell as it was left.
#[derive(Clone, Copy)]
pub enum Part {
    /// It is still open.
    Open(Cell),
    /// It was closed.
    Done(Closed),
}

impl Boxed for Part {
    ghost spans = { cell_of };

    fn cell(&self) -> &Cell {
        match self {
            Part::Open(cell) => cell,
            Part::Done(closed) => &closed.cell,
        }
    }
}
