ghost use Rattle.gl_goal.specs.Lemmas.AnyGoal.{any_goal-is_goal};
ghost use Rattle.gl_goal.specs.AnyGoal.{any_legs, any_rule};

use crate::any::AnyGoal;
use crate::goal::Goal;
use crate::leg::Leg;
use gl_box::{Cell, Tuple};

impl Goal for AnyGoal {
    ghost rule = { any_rule };

    ghost laws = { any_goal-is_goal };

    fn axes(&self) -> u8 {
        match self {
            AnyGoal::Area(goal) => goal.axes(),
            AnyGoal::Out(goal) => goal.axes(),
            AnyGoal::Free(goal) => goal.axes(),
            AnyGoal::Triangle(goal) => goal.axes(),
        }
    }

    fn len(&self, axis: u8) -> u32 {
        match self {
            AnyGoal::Area(goal) => goal.len(axis),
            AnyGoal::Out(goal) => goal.len(axis),
            AnyGoal::Free(goal) => goal.len(axis),
            AnyGoal::Triangle(goal) => goal.len(axis),
        }
    }

    fn fix(&self, axis: u8, place: u32) -> u32 {
        match self {
            AnyGoal::Area(goal) => goal.fix(axis, place),
            AnyGoal::Out(goal) => goal.fix(axis, place),
            AnyGoal::Free(goal) => goal.fix(axis, place),
            AnyGoal::Triangle(goal) => goal.fix(axis, place),
        }
    }

    fn legal(&self, tuple: &Tuple) -> bool {
        match self {
            AnyGoal::Area(goal) => goal.legal(tuple),
            AnyGoal::Out(goal) => goal.legal(tuple),
            AnyGoal::Free(goal) => goal.legal(tuple),
            AnyGoal::Triangle(goal) => goal.legal(tuple),
        }
    }

    fn value(&self, tuple: &Tuple) -> u64 {
        match self {
            AnyGoal::Area(goal) => goal.value(tuple),
            AnyGoal::Out(goal) => goal.value(tuple),
            AnyGoal::Free(goal) => goal.value(tuple),
            AnyGoal::Triangle(goal) => goal.value(tuple),
        }
    }

    #[inline]
    fn disordered(&self, cell: &Cell) -> bool {
        match self {
            AnyGoal::Area(goal) => goal.disordered(cell),
            AnyGoal::Out(goal) => goal.disordered(cell),
            AnyGoal::Free(goal) => goal.disordered(cell),
            AnyGoal::Triangle(goal) => goal.disordered(cell),
        }
    }

    #[inline]
    fn shut(&self, cell: &Cell) -> bool {
        match self {
            AnyGoal::Area(goal) => goal.shut(cell),
            AnyGoal::Out(goal) => goal.shut(cell),
            AnyGoal::Free(goal) => goal.shut(cell),
            AnyGoal::Triangle(goal) => goal.shut(cell),
        }
    }

    #[inline]
    fn bound(&self, cell: &Cell) -> u64 {
        match self {
            AnyGoal::Area(goal) => goal.bound(cell),
            AnyGoal::Out(goal) => goal.bound(cell),
            AnyGoal::Free(goal) => goal.bound(cell),
            AnyGoal::Triangle(goal) => goal.bound(cell),
        }
    }

    ghost are_legs = { any_legs };

    fn leg(&self) -> Leg {
        match self {
            AnyGoal::Area(goal) => goal.leg(),
            AnyGoal::Out(goal) => goal.leg(),
            AnyGoal::Free(goal) => goal.leg(),
            AnyGoal::Triangle(goal) => goal.leg(),
        }
    }

    #[inline]
    fn bound_by(&self, cell: &Cell, legs: &mut [Leg]) -> u64 {
        match self {
            AnyGoal::Area(goal) => goal.bound_by(cell, legs),
            AnyGoal::Out(goal) => goal.bound_by(cell, legs),
            AnyGoal::Free(goal) => goal.bound_by(cell, legs),
            AnyGoal::Triangle(goal) => goal.bound_by(cell, legs),
        }
    }
}
