use crate::turn::NearTurn;
use gl_box::{Cell, Walk};

/// The least distance that was found, in centimetres, and a pair that has it: the number of the
/// fix of the first flight, and that of the fix of the second, or 0 for a place.
#[derive(Clone, Copy, Debug, PartialEq, Eq)]
pub struct NearBest {
    pub total: u64,
    pub first: u32,
    pub second: u32,
}

/// Why nothing in a cell has to be looked at any more.
#[derive(Clone, Copy, Debug, PartialEq, Eq)]
pub enum NearWhy {
    /// Its spans are too far apart in time.
    Time,
    /// No pair of the cell is nearer than what was found.
    Near,
}

/// A cell that was closed, and for which reason.
#[derive(Clone, Copy, Debug, PartialEq, Eq)]
pub struct NearClosed {
    pub cell: Cell,
    pub why: NearWhy,
}

/// The least distance of a pair that fits, `None` where none fits, and the boxes that show that no
/// pair is nearer: a walk along the split tree of all pairs, until nothing is open.
#[derive(Debug, Drop)]
pub struct NearFound {
    pub best: Option<NearBest>,
    pub closed: Walk<NearTurn>,
}
