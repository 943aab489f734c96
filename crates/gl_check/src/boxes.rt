ghost use Rattle.std.specs.Prelude.{◌≡◌, [], IfOk};
ghost use Rattle.gl_box.specs.InLists.{boxes_in};
ghost use Rattle.gl_goal.specs.Goal.{whole_cell};
ghost use Rattle.gl_check.specs.Testing.{HasTaken};
ghost use Rattle.gl_check.specs.Verdict.{AreSaid, IsBoxClosed};

use gl_box::{BoxCheck, BoxTest, Boxes, Cell, Said, Why};
use gl_goal::{Goal, Leg, measured_legs, whole};
use std::alloc::{AllocError, Global};

/// The test of the boxes of a goal: whether each is closed for a total by its reason.
#[derive(Drop)]
pub struct GoalTest<'a, G> {
    pub goal: &'a G,
    pub total: Option<u64>,
}

impl<'a, G: Goal> BoxTest for GoalTest<'a, G> {
    type Why = Why;

    type Room = Vec<Leg>;

    ghost whole = { λ test. whole_cell (G.rule test.goal.now).axes };

    ghost closes = { λ test. IsBoxClosed (G.rule test.goal.now) test.total };

    ghost is_room = { λ test legs. G.are_legs test.goal.now legs.items };

    fn is_closed(&self, room: &mut Vec<Leg>, cell: &Cell, why: Why) -> bool {
        match why {
            Why::Disordered => self.goal.disordered(cell),
            Why::Shut => self.goal.shut(cell),
            Why::Bound => match self.total {
                None => false,
                Some(total) => self.goal.bound_by(cell, room.as_mut_slice()) <= total,
            },
        }
    }
}

/// A check of the boxes of a goal, as they come, of which it has seen none yet. The only error is
/// want of memory.
pub fn begin_check<G: Goal>(
    alloc: Global,
    goal: &G,
    total: Option<u64>,
) -> Result<BoxCheck<GoalTest<'_, G>, Vec<Leg>>, AllocError>
    ensures begins { IfOk result (HasTaken G.rule G.are_legs []) }
    ensures test { IfOk result (λ check. (check.test.goal.now ≡ goal.now) × (check.test.total ≡ total)) }
{
    let legs = measured_legs(alloc, goal)?;
    BoxCheck::new(alloc, GoalTest { goal, total }, legs, whole(goal))
}

/// What is said of the boxes of a claim. The only error is want of memory.
pub fn said_of<G: Goal>(
    alloc: Global,
    goal: &G,
    total: Option<u64>,
    cells: &Boxes,
) -> Result<Said, AllocError>
    ensures { IfOk result (AreSaid (G.rule goal.now) total (boxes_in cells.now)) }
{
    let mut check = begin_check(alloc, goal, total)?;
    let mut boxes = cells.each(alloc)?;
    'boxes: while let Some(next) = boxes.next()? {
        check.take(&next.cell, next.why)?;
    }
    Ok(check.said())
}
