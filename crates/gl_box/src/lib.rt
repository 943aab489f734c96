//! Boxes of choices: on each axis a span of places. A cell is cut into halves, again and again, and
//! the cells that are left part its tuples: each tuple lies in exactly one of them. The walk over
//! boxes along this tree tells whether boxes in their order part a whole cell by splits, or which of
//! them is the first that doesn't stand where it must.
#![tactic(auto)]

mod along;
mod boxed;
mod boxes;
mod cell;
mod checking;
mod closed;
mod cut;
mod fork;
mod halves;
mod holding;
mod room;
mod span;
mod steps;
mod tuple;
mod turn;
mod walk;
mod way;

pub use along::{Walk, WalkBoxes};
pub use boxed::Boxed;
pub use boxes::{Boxes, BoxesLeft, walk_of};
pub use cell::Cell;
pub use checking::{BoxCheck, BoxTest, Said};
pub use closed::{Closed, Why};
pub use fork::Fork;
pub use halves::{halve, split, widest};
pub use holding::{covers, has};
pub use span::Span;
pub use steps::{come_to, settle};
pub use tuple::{MOST_AXES, Tuple};
pub use turn::{GoalTurn, Turn};
pub use walk::{OPEN_ROOM, cuts_to, go_down};
pub use way::OpenCells;
