use gl_box::{GoalTurn, Walk};
use gl_goal::Best;

/// The optimum of a goal, `None` where no tuple is legal, and the boxes that show that no legal
/// tuple is worth more: a walk along the split tree of all tuples, until nothing is open.
#[derive(Debug, Drop)]
pub struct Found {
    pub best: Option<Best>,
    pub closed: Walk<GoalTurn>,
}
