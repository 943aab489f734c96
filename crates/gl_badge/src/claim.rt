use crate::gain::GainGoal;
use gl_goal::{AreaGoal, FreeGoal};

/// What is claimed for a badge, with its goal.
#[derive(Debug, Drop)]
pub enum BadgeClaim {
    /// The free distance over all fixes.
    Distance(FreeGoal),
    /// The gain of height over all fixes.
    Gain(GainGoal),
    /// The way through the points of the declared course.
    DeclaredGoal(AreaGoal),
}
