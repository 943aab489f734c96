use crate::hand::Hand;
use crate::pass::Pass;

/// What one worker is given: its own hand, and a pass to each other deque, in the order of the
/// workers without its own.
#[derive(Drop)]
pub struct Place {
    pub hand: Hand,
    pub passes: Vec<Pass>,
}
