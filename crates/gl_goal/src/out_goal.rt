ghost use Rattle.std.specs.Prelude.{◌≡◌, ◌<◌, ◌≤◌, ◌^◌, length, map, IfOk};
ghost use Rattle.gl_goal.specs.Out.{out_goal};
ghost use Rattle.gl_goal.specs.OutGoal.{out_lists, out_rule};
ghost use Rattle.gl_goal.specs.Lists.{AreLists};
ghost use Rattle.gl_goal.specs.Goal.{IsGoal};
ghost use Rattle.gl_goal.specs.Lemmas.Out.{out_goal-is_goal};

use crate::goal::Goal;
use crate::hull::Hull;
use crate::leg::Leg;
use crate::legs::{leg, leg_at_least, leg_at_most};
use crate::lists::Lists;
use crate::outlanding::OutGoal;
use gl_box::{Cell, Tuple};
use gl_igc::Fix;
use gl_sphere::Vec3;
use std::alloc::{AllocError, Global};

impl OutGoal {
    /// The goal over lists of numbers of fixes, one list for each visited area and one for the last
    /// fix: `fixed` centimetres, the legs from the start point through one fix of each list but the
    /// last, and how much nearer to the target than that the last fix is. The only error is want of
    /// memory.
    pub fn new(
        alloc: Global,
        fixes: &[Fix],
        lists: Vec<Vec<u32>>,
        start: Vec3,
        fixed: u64,
        target: Vec3,
    ) -> Result<OutGoal, AllocError>
        requires most { length fixes.now ≤ 90_000 }
        requires lists { AreLists fixes.now (map (λ list. list.items) lists.items) }
        requires fixed { fixed < 2 ^ 40 }
        ensures rule { IfOk result (λ goal. out_rule goal
            ≡ out_goal fixes.now (map (λ list. list.items) lists.items) start fixed target) }
        ensures well_formed { IfOk result (λ goal. IsGoal (out_rule goal)) }
    {
        Ok(OutGoal {
            lists: Lists::new(alloc, fixes, lists)?,
            start,
            fixed,
            target,
        })
    }
}

#[tactic(auto, unfolding(crate::specs::Out::out_goal))]
impl Goal for OutGoal {
    ghost rule = { out_rule };

    ghost laws = { λ g.
        out_goal-is_goal g.lists.fixes g.lists.lists g.start g.fixed g.target (out_lists g)
        g.fixed_below };

    fn axes(&self) -> u8 {
        self.lists.count()
    }

    fn len(&self, axis: u8) -> u32 {
        self.lists.len(axis)
    }

    fn fix(&self, axis: u8, place: u32) -> u32 {
        self.lists.number(axis, place)
    }

    fn legal(&self, tuple: &Tuple) -> bool {
        self.lists.are_in_order(tuple)
    }

    fn value(&self, tuple: &Tuple) -> u64 {
        let last = self.lists.count() - 1;
        let way = self.lists.way(self.start, tuple, last);
        let rest = leg(self.lists.point(last, tuple), self.target);
        self.fixed + way.length + leg(way.end, self.target).saturating_sub(rest)
    }

    #[inline]
    fn disordered(&self, cell: &Cell) -> bool {
        self.lists.are_disordered(cell)
    }

    fn shut(&self, cell: &Cell) -> bool {
        let _ = cell;
        false
    }

    #[inline]
    fn bound(&self, cell: &Cell) -> u64 {
        let last = self.lists.count() - 1;
        let target = Hull::point(self.target);
        let way = self.lists.greatest_way(Hull::point(self.start), cell, last);
        let rest = leg_at_least(&self.lists.hull(last, cell), &target);
        self.fixed + way.length + leg_at_most(&way.end, &target).saturating_sub(rest)
    }

    ghost are_legs = { λ g legs. Unit {0} };

    fn leg(&self) -> Leg {
        Leg::none()
    }

    #[inline]
    fn bound_by(&self, cell: &Cell, legs: &mut [Leg]) -> u64 {
        let _ = legs;
        self.bound(cell)
    }
}
