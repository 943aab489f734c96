ghost use Rattle.std.specs.Prelude.{◌≡◌, ◌-◌, ◌≤◌, ◌<◌, [], ◌∷◌, length, map, IfOk};
ghost use Rattle.gl_box.specs.Cell.{Covers, spans_of};
ghost use Rattle.gl_box.specs.Tuple.{places_of};
ghost use Rattle.gl_goal.specs.Hull.{box_of};
ghost use Rattle.gl_sphere.specs.Distance.{distance};
ghost use Rattle.gl_goal.specs.Chain.{fixes_at, greatest_distance, hulls_of, least_distance, points_of};
ghost use Rattle.gl_goal.specs.Free.{fixes_between};
ghost use Rattle.gl_goal.specs.Reach.{IsReach};
ghost use Rattle.gl_goal.specs.Code.Round.{legs_of};
ghost use Rattle.gl_goal.specs.Goal.{IsGoal, IsTuple, chosen, whole_cell};
ghost use Rattle.gl_goal.specs.Triangle.{around, closes, three_axes, triangle_goal};
ghost use Rattle.gl_goal.specs.TriangleGoal.{triangle_rule};
ghost use Rattle.gl_goal.specs.Lemmas.Triangle.{triangle_goal-is_goal};

use crate::goal::Goal;
use crate::hull::Hull;
use crate::hulls::Hulls;
use crate::leg::Leg;
use crate::leg_rule::{are_fair, are_none_fair, most_of_fair};
use crate::legs::{leg, leg_at_least, leg_at_most};
use crate::lists::Lists;
use crate::numbers::numbers_between;
use crate::reach::reaches;
use crate::round::Round;
use crate::triangle::TriangleGoal;
use gl_box::{Cell, Tuple};
use gl_igc::Fix;
use gl_sphere::Vec3;
use std::alloc::{AllocError, Global};

/// How many fixes a triangle names.
const TRIANGLE_FIXES: u8 = 3;

/// The legs round three points.
fn round_of(points: &[Vec3; 3]) -> Round
    ensures { legs_of result ≡ around distance points.now }
{
    let [a, b, c] = *points;
    Round {
        first: leg(a, b),
        second: leg(b, c),
        third: leg(c, a),
    }
}

/// The least that the legs round three points can be, one in each hull.
#[inline]
fn least_round(hulls: &[Hull; 3]) -> Round
    ensures { legs_of result ≡ around least_distance (map box_of hulls.now) }
{
    let [a, b, c] = hulls;
    Round {
        first: leg_at_least(a, b),
        second: leg_at_least(b, c),
        third: leg_at_least(c, a),
    }
}

/// The most that the legs round three points can be, one in each hull.
#[inline]
fn greatest_round(hulls: &[Hull; 3]) -> Round
    ensures { legs_of result ≡ around greatest_distance (map box_of hulls.now) }
{
    let [a, b, c] = hulls;
    Round {
        first: leg_at_most(a, b),
        second: leg_at_most(b, c),
        third: leg_at_most(c, a),
    }
}

/// The numbers from the first to the last on each axis of a triangle. The only error is want of
/// memory.
fn three_lists(alloc: Global, fixes: &[Fix], first: u32, last: u32) -> Result<Lists, AllocError>
    requires order { first ≤ last }
    requires within { last < length fixes.now }
    requires most { length fixes.now ≤ 90_000 }
    ensures fixes { IfOk result (λ lists. lists.fixes ≡ fixes.now) }
    ensures lists { IfOk result (λ lists. lists.lists ≡ three_axes first last) }
{
    let numbers = numbers_between(alloc, first, last)?;
    Lists::thrice(alloc, fixes, numbers)
}

impl TriangleGoal {
    /// The goal over the fixes from number `first` to number `last`, which are the flight that has
    /// to close to at most `closing` centimetres. The only error is want of memory.
    pub fn new(
        alloc: Global,
        fixes: &[Fix],
        first: u32,
        last: u32,
        closing: u64,
    ) -> Result<TriangleGoal, AllocError>
        requires order { first ≤ last }
        requires within { last < length fixes.now }
        requires most { length fixes.now ≤ 90_000 }
        ensures rule { IfOk result (λ goal. triangle_rule goal
            ≡ triangle_goal fixes.now first last closing) }
        ensures well_formed { IfOk result (λ goal. IsGoal (triangle_rule goal)) }

        // So `reach` can be asked of the fixes from the first to the last, and tells of these.
        ensures first { IfOk result (λ goal. goal.first ≡ first) }
        ensures last { IfOk result (λ goal. goal.last ≡ last) }
        ensures closing { IfOk result (λ goal. goal.closing ≡ closing) }
        ensures fixes { IfOk result (λ goal. goal.lists.fixes ≡ fixes.now) }
    {
        let lists = three_lists(alloc, fixes, first, last)?;
        let reaches = reaches(alloc, lists.hulls(0), closing)?;
        Ok(TriangleGoal {
            lists,
            reaches,
            first,
            last,
            closing,
        })
    }

    /// The hulls over the fixes from the first to the last.
    pub fn hulls(&self) -> &Hulls
        ensures { result.now
            ≡ fixes_between self.now.lists.fixes self.now.first self.now.last }
    {
        self.lists.hulls(0)
    }

    /// How far the flight reaches from a fix: the number of the last fix that is near enough to one
    /// at this fix or before.
    pub fn reach(&self, fix: u32) -> u32
        requires first { self.now.first ≤ fix }
        requires last { fix ≤ self.now.last }
        ensures from { self.now.first ≤ result }
        ensures reach { IsReach (fixes_between self.now.lists.fixes self.now.first self.now.last)
            self.now.closing (fix - self.now.first) (result - self.now.first) }
    {
        self.first + self.reaches[(fix - self.first) as usize]
    }

    /// Whether the flight closes past two places of its fixes.
    #[inline]
    pub fn closes(&self, first: u32, third: u32) -> bool
        requires { first ≤ self.now.last - self.now.first }
        ensures { result ≡ closes
            (fixes_between self.now.lists.fixes self.now.first self.now.last)
            self.now.closing first third }
    {
        third <= self.reaches[first as usize]
    }

    /// The legs round the three fixes of a tuple.
    fn round(&self, tuple: &Tuple) -> Round
        requires { IsTuple self.now.lists.lists (places_of tuple.now) }
        ensures { legs_of result ≡ around distance (points_of (fixes_at self.now.lists.fixes
            (chosen self.now.lists.lists (places_of tuple.now)))) }
    {
        round_of(&[
            self.lists.point(0, tuple),
            self.lists.point(1, tuple),
            self.lists.point(2, tuple),
        ])
    }

    /// Whether the three fixes of a tuple have fair legs, on a flight that closes past them.
    fn allows(&self, tuple: &Tuple) -> bool
        requires { IsTuple self.now.lists.lists (places_of tuple.now) }
        ensures { result ≡ (triangle_rule self.now).allows
            (chosen self.now.lists.lists (places_of tuple.now)) }
    {
        are_fair(&self.round(tuple)) && self.closes(tuple.places[0], tuple.places[2])
    }

    /// The hulls of the three spans of a cell.
    #[inline]
    fn hulls_of(&self, cell: &Cell) -> [Hull; 3]
        requires { Covers (whole_cell self.now.lists.lists) (spans_of cell.now) }
        ensures { map box_of result
            ≡ hulls_of self.now.lists.fixes self.now.lists.lists (spans_of cell.now) }
    {
        [
            self.lists.hull(0, cell),
            self.lists.hull(1, cell),
            self.lists.hull(2, cell),
        ]
    }
}

#[tactic(auto, unfolding(crate::specs::Triangle::triangle_goal))]
impl Goal for TriangleGoal {
    ghost rule = { triangle_rule };

    ghost laws = { λ g.
        triangle_goal-is_goal g.lists.fixes g.first g.last g.closing g.in_order g.within };

    fn axes(&self) -> u8 {
        TRIANGLE_FIXES
    }

    fn len(&self, axis: u8) -> u32 {
        self.lists.len(axis)
    }

    fn fix(&self, axis: u8, place: u32) -> u32 {
        self.lists.number(axis, place)
    }

    fn legal(&self, tuple: &Tuple) -> bool {
        self.lists.are_in_order(tuple) && self.allows(tuple)
    }

    fn value(&self, tuple: &Tuple) -> u64 {
        self.round(tuple).length()
    }

    #[inline]
    fn disordered(&self, cell: &Cell) -> bool {
        self.lists.are_disordered(cell)
    }

    #[inline]
    fn shut(&self, cell: &Cell) -> bool {
        if !self.closes(cell.spans[0].hi, cell.spans[2].lo) {
            return true;
        }
        let hulls = self.hulls_of(cell);
        are_none_fair(&least_round(&hulls), &greatest_round(&hulls))
    }

    #[inline]
    fn bound(&self, cell: &Cell) -> u64 {
        most_of_fair(&greatest_round(&self.hulls_of(cell)))
    }

    ghost are_legs = { λ g legs. Unit {0} };

    fn leg(&self) -> Leg {
        Leg::none()
    }

    #[inline]
    fn bound_by(&self, cell: &Cell, legs: &mut [Leg]) -> u64 {
        let _ = legs;
        self.bound(cell)
    }
}
