ghost use Rattle.std.specs.Prelude.{◌≡◌, ◌≤◌, length, map, IfOk};
ghost use Rattle.gl_goal.specs.Area.{area_goal};
ghost use Rattle.gl_goal.specs.AreaGoal.{area_lists, area_rule};
ghost use Rattle.gl_goal.specs.Lists.{AreLists};
ghost use Rattle.gl_goal.specs.Goal.{IsGoal};
ghost use Rattle.gl_goal.specs.Lemmas.Area.{area_goal-is_goal};

use crate::area::AreaGoal;
use crate::goal::Goal;
use crate::hull::Hull;
use crate::leg::Leg;
use crate::legs::{leg, leg_at_most};
use crate::lists::Lists;
use gl_box::{Cell, Tuple};
use gl_igc::Fix;
use gl_sphere::Vec3;
use std::alloc::{AllocError, Global};

impl AreaGoal {
    /// The goal over lists of numbers of fixes, one list for each area: the legs from the start
    /// point through one fix of each list to the finish point, less `off` centimetres. The only
    /// error is want of memory.
    pub fn new(
        alloc: Global,
        fixes: &[Fix],
        lists: Vec<Vec<u32>>,
        start: Vec3,
        finish: Vec3,
        off: u64,
    ) -> Result<AreaGoal, AllocError>
        requires most { length fixes.now ≤ 90_000 }
        requires lists { AreLists fixes.now (map (λ list. list.items) lists.items) }
        ensures rule { IfOk result (λ goal. area_rule goal
            ≡ area_goal fixes.now (map (λ list. list.items) lists.items) start finish off) }
        ensures well_formed { IfOk result (λ goal. IsGoal (area_rule goal)) }
    {
        Ok(AreaGoal {
            lists: Lists::new(alloc, fixes, lists)?,
            start,
            finish,
            off,
        })
    }
}

#[tactic(auto, unfolding(crate::specs::Area::area_goal))]
impl Goal for AreaGoal {
    ghost rule = { area_rule };

    ghost laws = { λ g.
        area_goal-is_goal g.lists.fixes g.lists.lists g.start g.finish g.off (area_lists g) };

    fn axes(&self) -> u8 {
        self.lists.count()
    }

    fn len(&self, axis: u8) -> u32 {
        self.lists.len(axis)
    }

    fn fix(&self, axis: u8, place: u32) -> u32 {
        self.lists.number(axis, place)
    }

    fn legal(&self, tuple: &Tuple) -> bool {
        self.lists.are_in_order(tuple)
    }

    fn value(&self, tuple: &Tuple) -> u64 {
        let way = self.lists.way(self.start, tuple, self.lists.count());
        (way.length + leg(way.end, self.finish)).saturating_sub(self.off)
    }

    #[inline]
    fn disordered(&self, cell: &Cell) -> bool {
        self.lists.are_disordered(cell)
    }

    fn shut(&self, cell: &Cell) -> bool {
        let _ = cell;
        false
    }

    #[inline]
    fn bound(&self, cell: &Cell) -> u64 {
        let way = self
            .lists
            .greatest_way(Hull::point(self.start), cell, self.lists.count());
        (way.length + leg_at_most(&way.end, &Hull::point(self.finish))).saturating_sub(self.off)
    }

    ghost are_legs = { λ g legs. Unit {0} };

    fn leg(&self) -> Leg {
        Leg::none()
    }

    #[inline]
    fn bound_by(&self, cell: &Cell, legs: &mut [Leg]) -> u64 {
        let _ = legs;
        self.bound(cell)
    }
}
