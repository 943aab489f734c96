ghost use Rattle.std.specs.Prelude.{◌≡◌, ◌∷◌, [], IfOk, MatchOption, map};
ghost use Rattle.gl_box.specs.Along.{boxes_along};
ghost use Rattle.gl_box.specs.Cell.{spans_of};
ghost use Rattle.gl_box.specs.Closed.{box_of};
ghost use Rattle.gl_box.specs.Frontier.{IsFrontier};
ghost use Rattle.gl_box.specs.InLists.{boxes_in, still_in};
ghost use Rattle.gl_box.specs.Turns.{reason_of};

use crate::along::{Walk, WalkBoxes};
use crate::cell::Cell;
use crate::closed::Closed;
use crate::steps::come_to;
use crate::turn::{GoalTurn, Turn};
use crate::walk::OPEN_ROOM;
use std::alloc::{AllocError, Global};

/// Boxes in their order: as the walk of a search, or as a list that was read.
#[derive(Debug, Drop)]
pub enum Boxes {
    Walked(Walk<GoalTurn>),
    Listed(Vec<Closed>),
}

impl Walk<GoalTurn> {
    /// The boxes, spread out in a list. The only error is want of memory.
    pub fn to_list(&self, alloc: Global) -> Result<Vec<Closed>, AllocError>
        ensures { IfOk result
            (λ list. map box_of list.items ≡ boxes_along reason_of self.now) }
    {
        let mut list = Vec::new(alloc);
        let mut boxes = self.boxes(alloc)?;
        'boxes: while let Some(why) = boxes.next()? {
            let cell = boxes.opened.first;
            list.push(Closed { cell, why })?;
        }
        Ok(list)
    }
}

/// Boxes that part a cell by splits, in their order, as a walk. The only error is want of memory.
pub fn walk_of(alloc: Global, whole: &Cell, boxes: &[Closed]) -> Result<Walk<GoalTurn>, AllocError>
    requires { IsFrontier (spans_of whole.now) (map (λ box. spans_of box.cell) boxes.now) }
    ensures { IfOk result (λ walk. boxes_along reason_of walk ≡ map box_of boxes.now) }
{
    let mut opened = Vec::with_capacity(alloc, OPEN_ROOM)?;
    opened.push(*whole)?;
    let mut turns = Vec::with_capacity(alloc, boxes.len().saturating_mul(2))?;
    for next in boxes {
        if !come_to(&mut opened, &mut turns, &next.cell)? {
            unreachable!();
        }
        turns.push(GoalTurn::close(next.why))?;
    }
    opened.clear();
    opened.push(*whole)?;
    Ok(Walk { opened, turns })
}

/// The boxes that are still to come, however they are kept.
#[derive(Drop)]
pub enum BoxesLeft<'a> {
    Walked(WalkBoxes<'a, GoalTurn>),
    Listed(&'a [Closed]),
}

impl Boxes {
    /// The boxes, one after the other. The only error is want of memory.
    pub fn each(&self, alloc: Global) -> Result<BoxesLeft<'_>, AllocError>
        ensures { IfOk result (λ left. still_in left ≡ boxes_in self.now) }
    {
        match self {
            Boxes::Walked(walk) => Ok(BoxesLeft::Walked(walk.boxes(alloc)?)),
            Boxes::Listed(list) => Ok(BoxesLeft::Listed(list.as_slice())),
        }
    }

    /// The boxes in a list; those of a walk are spread out. The only error is want of memory.
    pub fn into_list(self, alloc: Global) -> Result<Vec<Closed>, AllocError>
        ensures { IfOk result (λ list. map box_of list.items ≡ boxes_in self) }
    {
        match self {
            Boxes::Walked(walk) => walk.to_list(alloc),
            Boxes::Listed(list) => Ok(list),
        }
    }
}

impl<'a> BoxesLeft<'a> {
    /// The next box, `None` where there is none any more. The only error is want of memory.
    pub fn next(&mut self) -> Result<Option<Closed>, AllocError>
        ensures { IfOk result (λ next. MatchOption next
            (still_in self.old ≡ [])
            (λ closed. still_in self.old ≡ box_of closed ∷ still_in self.new)) }
    {
        match self {
            BoxesLeft::Walked(boxes) => match boxes.next()? {
                Some(why) => Ok(Some(Closed {
                    cell: boxes.opened.first,
                    why,
                })),
                None => Ok(None),
            },
            BoxesLeft::Listed(list) => match list.split_first() {
                Some((first, rest)) => {
                    *list = rest;
                    Ok(Some(*first))
                }
                None => Ok(None),
            },
        }
    }
}
