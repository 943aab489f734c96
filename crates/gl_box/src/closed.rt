use crate::cell::Cell;

/// Why nothing in a cell has to be looked at any more.
#[derive(Clone, Copy, Debug, PartialEq, Eq)]
pub enum Why {
    /// No tuple of the cell is in time order.
    Disordered,
    /// The goal allows no tuple of the cell.
    Shut,
    /// No legal tuple of the cell is worth more than what was found.
    Bound,
}

/// A cell that was closed, and for which reason.
#[derive(Clone, Copy, Debug, PartialEq, Eq)]
pub struct Closed {
    pub cell: Cell,
    pub why: Why,
}
