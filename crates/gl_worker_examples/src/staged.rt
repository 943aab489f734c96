use gl_box::{Cell, Tuple};
use gl_goal::{Goal, Leg};

/// What hears of each test of a cell.
pub(crate) trait Stage {
    /// A cell is about to be tested. It may wait before.
    fn tests(&self);
}

/// A goal that tells a stage of each test.
#[derive(Drop)]
pub(crate) struct Staged<'a, G, S> {
    pub(crate) goal: G,
    pub(crate) stage: &'a S,
}

impl<'a, G: Goal + Drop, S: Stage> Goal for Staged<'a, G, S> {
    ghost rule = { λ staged. G.rule staged.goal };

    ghost are_legs = { λ staged legs. G.are_legs staged.goal legs };

    ghost laws = { λ staged. G.laws staged.goal };

    fn axes(&self) -> u8 {
        self.goal.axes()
    }

    fn len(&self, axis: u8) -> u32 {
        self.goal.len(axis)
    }

    fn fix(&self, axis: u8, place: u32) -> u32 {
        self.goal.fix(axis, place)
    }

    fn legal(&self, tuple: &Tuple) -> bool {
        self.goal.legal(tuple)
    }

    fn value(&self, tuple: &Tuple) -> u64 {
        self.goal.value(tuple)
    }

    fn disordered(&self, cell: &Cell) -> bool {
        self.stage.tests();
        self.goal.disordered(cell)
    }

    fn shut(&self, cell: &Cell) -> bool {
        self.goal.shut(cell)
    }

    fn bound(&self, cell: &Cell) -> u64 {
        self.goal.bound(cell)
    }

    fn leg(&self) -> Leg {
        self.goal.leg()
    }

    fn bound_by(&self, cell: &Cell, legs: &mut [Leg]) -> u64 {
        self.goal.bound_by(cell, legs)
    }
}
