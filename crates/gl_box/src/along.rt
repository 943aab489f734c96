ghost use Rattle.std.specs.Prelude.{◌≡◌, ◌∷◌, [], IfOk, MatchOption};
ghost use Rattle.gl_box.specs.Cell.{spans_of};
ghost use Rattle.gl_box.specs.Along.{boxes_along, boxes_left};

use crate::cell::Cell;
use crate::turn::Turn;
use crate::way::OpenCells;
use std::alloc::{AllocError, Global};

/// Boxes as a walk along the split tree: the cells that are open at first, the last one first, and
/// what is done with the first open cell, turn by turn.
#[derive(Debug, Drop)]
pub struct Walk<T> {
    pub opened: Vec<Cell>,
    pub turns: Vec<T>,
}

/// The boxes of a walk that are still to come.
#[derive(Drop)]
pub struct WalkBoxes<'a, T> {
    pub opened: OpenCells,
    pub turns: &'a [T],
}

impl<T: Turn> Walk<T> {
    /// The boxes, one after the other. The only error is want of memory.
    pub fn boxes(&self, alloc: Global) -> Result<WalkBoxes<'_, T>, AllocError>
        ensures { IfOk result (λ boxes.
            boxes_left T.reason boxes ≡ boxes_along T.reason self.now) }
    {
        Ok(WalkBoxes {
            opened: OpenCells::new(alloc, &self.opened)?,
            turns: &self.turns,
        })
    }
}

impl<'a, T: Turn> WalkBoxes<'a, T> {
    /// Comes to the next box: its cell is the first one that was opened, and its reason is answered.
    /// `None` where there is none any more. The only error is want of memory.
    #[inline]
    pub fn next(&mut self) -> Result<Option<T::Why>, AllocError>
        ensures { IfOk result (λ next. MatchOption next
            (boxes_left T.reason self.old ≡ [])
            (λ why. boxes_left T.reason self.old
            ≡ (spans_of self.new.opened.first, why) ∷ boxes_left T.reason self.new)) }
    {
        'turns: while let Some((turn, rest)) = self.turns.split_first() {
            self.turns = rest;
            match turn.why() {
                None => self.opened.cut()?,
                Some(why) => {
                    if self.opened.close()? {
                        return Ok(Some(why));
                    }
                }
            }
        }
        Ok(None)
    }
}
