ghost use Rattle.std.specs.Prelude.{◌≡◌, ◌^◌, ◌≤◌, ◌<◌, ◌≤ℤ◌, ◌-ℤ◌, ◌↔◌, pos, [], ◌∷◌, length, map, IfOk, IsTrue, Some, All, slice_get};
ghost use Rattle.gl_box.specs.Cell.{Covers, ends, spans_of};
ghost use Rattle.gl_box.specs.Tuple.{places_of};
ghost use Rattle.gl_goal.specs.Hull.{box_of};
ghost use Rattle.gl_goal.specs.Chain.{hulls_of};
ghost use Rattle.gl_goal.specs.Free.{five_axes, fixes_between, free_goal};
ghost use Rattle.gl_goal.specs.Goal.{IsGoal, IsInTimeOrder, IsLegal, IsTuple, chosen, whole_cell};
ghost use Rattle.gl_goal.specs.FreeGoal.{rule_of};
ghost use Rattle.gl_goal.specs.FreeLegs.{IsLeg, most_between};
ghost use Rattle.gl_goal.specs.Lemmas.Free.{free_goal-is_goal};

use crate::free::FreeGoal;
use crate::goal::Goal;
use crate::hull::Hull;
use crate::hulls::Hulls;
use crate::leg::Leg;
use crate::legs::{leg, leg_at_most};
use crate::numbers::numbers_between;
use gl_box::{Cell, Span, Tuple};
use gl_igc::Fix;
use std::alloc::{AllocError, Global};

/// How many fixes a free distance names.
const FREE_FIXES: u8 = 5;

/// How much lower the second fix is than the first, in metres.
fn loss(from: &Fix, to: &Fix) -> i32
    ensures { result ≡ from.now.alt -ℤ to.now.alt }
{
    from.alt - to.alt
}

/// How much lower a fix of the second hull is at least than one of the first, in metres.
#[inline]
fn least_loss(from: &Hull, to: &Hull) -> i32
    ensures { result ≡ from.now.alt_lo -ℤ to.now.alt_hi }
{
    from.alt_lo - to.alt_hi
}

/// Whether no number is below the one before it.
fn are_in_order(numbers: &[u32; 5]) -> bool
    ensures { IsTrue result ↔ IsInTimeOrder numbers.now }
{
    let [a, b, c, d, e] = *numbers;
    a <= b && b <= c && c <= d && d <= e
}

impl FreeGoal {
    /// The goal over the fixes from number `first` to number `last`, with a greatest loss of
    /// altitude in metres. The only error is want of memory.
    pub fn new(
        alloc: Global,
        fixes: &[Fix],
        first: u32,
        last: u32,
        loss: i32,
    ) -> Result<FreeGoal, AllocError>
        requires order { first ≤ last }
        requires within { last < length fixes.now }
        requires most { length fixes.now ≤ 90_000 }
        requires loss { pos 0 ≤ℤ loss }
        ensures rule { IfOk result (λ goal. rule_of goal ≡ free_goal fixes.now first last loss) }
        ensures well_formed { IfOk result (λ goal. IsGoal (rule_of goal)) }
        // Staying at the first fix is always legal.
        ensures legal { IfOk result (λ goal. IsLegal (rule_of goal) (0 ∷ 0 ∷ 0 ∷ 0 ∷ 0 ∷ [])) }
    {
        let numbers = numbers_between(alloc, first, last)?;
        Ok(FreeGoal {
            fixes: Vec::from_slice(alloc, fixes)?,
            hulls: Hulls::new(alloc, fixes, numbers.as_slice())?,
            first,
            last,
            loss,
        })
    }

    /// The hulls over the fixes from the first to the last.
    pub fn hulls(&self) -> &Hulls
        ensures { result.now
            ≡ fixes_between self.now.fixes.items self.now.first self.now.last }
    {
        &self.hulls
    }

    /// The greatest loss of altitude, in metres.
    pub fn loss(&self) -> i32
        ensures value { result ≡ self.now.loss }
        ensures from_zero { pos 0 ≤ℤ result }
    {
        self.loss
    }

    /// The fix with a number.
    fn at(&self, number: u32) -> &Fix
        requires { number ≤ self.now.last }
        ensures { slice_get self.now.fixes.items number ≡ Some result.now }
    {
        &self.fixes[number as usize]
    }

    /// The numbers of the five fixes of a tuple.
    fn numbers(&self, tuple: &Tuple) -> [u32; 5]
        requires { IsTuple (five_axes self.now.first self.now.last) (places_of tuple.now) }
        ensures chosen { result
            ≡ chosen (five_axes self.now.first self.now.last) (places_of tuple.now) }
        ensures within { All (λ number. number ≤ self.now.last) result }
    {
        [
            self.first + tuple.places[0],
            self.first + tuple.places[1],
            self.first + tuple.places[2],
            self.first + tuple.places[3],
            self.first + tuple.places[4],
        ]
    }

    /// The hulls of the five spans of a cell.
    #[inline]
    fn hulls_of(&self, cell: &Cell) -> [Hull; 5]
        requires { Covers (whole_cell (five_axes self.now.first self.now.last))
            (spans_of cell.now) }
        ensures { map box_of result
            ≡ hulls_of self.now.fixes.items (five_axes self.now.first self.now.last)
            (spans_of cell.now) }
    {
        [
            self.hulls.hull(cell.spans[0]),
            self.hulls.hull(cell.spans[1]),
            self.hulls.hull(cell.spans[2]),
            self.hulls.hull(cell.spans[3]),
            self.hulls.hull(cell.spans[4]),
        ]
    }
}

/// Where among so many legs the one from one span to another stands, if it does.
#[inline]
fn slot_of(from: Span, to: Span, slots: usize) -> usize
    requires { 0 < slots }
    ensures { result < slots }
{
    let near = from.lo.wrapping_add(from.hi).wrapping_mul(0x9E37_79B1);
    let far = to.lo.wrapping_add(to.hi).wrapping_mul(0x85EB_CA77);
    ((near ^ far) >> 8) as usize & (slots - 1)
}

impl FreeGoal {
    /// Measures the leg from one span to another.
    fn measured(&self, from: Span, to: Span) -> Leg
        requires from { from.hi < length self.now.hulls }
        requires to { to.hi < length self.now.hulls }
        ensures value { result.most ≡ most_between self.now.hulls (ends from) (ends to) }
        ensures leg { IsLeg self.now result }
    {
        let most = match (self.hulls.kept(from), self.hulls.kept(to)) {
            (Some(near), Some(far)) => leg_at_most(near, far),
            _ => leg_at_most(&self.hulls.hull(from), &self.hulls.hull(to)),
        };
        Leg { from, to, most }
    }

    /// The greatest distance from one span to another. It is known where it is among the legs that
    /// were measured, and else joins them.
    #[inline]
    fn most_by(&self, from: Span, to: Span, legs: &mut [Leg]) -> u64
        requires from { from.hi < length self.now.hulls }
        requires to { to.hi < length self.now.hulls }
        requires some { 0 < length legs.old }
        requires legs { All (IsLeg self.now) legs.old }
        ensures value { result ≡ most_between self.now.hulls (ends from) (ends to) }
        ensures bound { result < 2 ^ 40 }
        ensures legs { All (IsLeg self.now) legs.new }
    {
        let slot = slot_of(from, to, legs.len());
        let leg = legs[slot];
        if leg.from == from && leg.to == to {
            return leg.most;
        }
        let leg = self.measured(from, to);
        legs[slot] = leg;
        leg.most
    }
}

#[tactic(auto, unfolding(crate::specs::Free::free_goal))]
impl Goal for FreeGoal {
    ghost rule = { rule_of };

    ghost laws = { λ g. free_goal-is_goal g.fixes.items g.first g.last g.loss g.in_order g.within };

    fn axes(&self) -> u8 {
        FREE_FIXES
    }

    fn len(&self, axis: u8) -> u32 {
        let _ = axis;
        self.last - self.first + 1
    }

    fn fix(&self, axis: u8, place: u32) -> u32 {
        let _ = axis;
        self.first + place
    }

    fn legal(&self, tuple: &Tuple) -> bool {
        let numbers = self.numbers(tuple);
        let [first, .., last] = numbers;
        are_in_order(&numbers) && loss(self.at(first), self.at(last)) <= self.loss
    }

    fn value(&self, tuple: &Tuple) -> u64 {
        let [a, b, c, d, e] = self.numbers(tuple);
        let [a, b, c, d, e] = [self.at(a), self.at(b), self.at(c), self.at(d), self.at(e)];
        leg(a.at, b.at) + leg(b.at, c.at) + leg(c.at, d.at) + leg(d.at, e.at)
    }

    #[inline]
    fn disordered(&self, cell: &Cell) -> bool {
        let mut latest = 0;
        for span in &cell.spans[..FREE_FIXES as usize] {
            if span.hi < latest {
                return true;
            }
            latest = latest.max(span.lo);
        }
        false
    }

    #[inline]
    fn shut(&self, cell: &Cell) -> bool {
        let first = self.hulls.hull(cell.spans[0]);
        let last = self.hulls.hull(cell.spans[4]);
        least_loss(&first, &last) > self.loss
    }

    #[inline]
    fn bound(&self, cell: &Cell) -> u64 {
        let [a, b, c, d, e] = self.hulls_of(cell);
        leg_at_most(&a, &b) + leg_at_most(&b, &c) + leg_at_most(&c, &d) + leg_at_most(&d, &e)
    }

    ghost are_legs = { λ g legs. (0 < length legs) × All (IsLeg g) legs };

    fn leg(&self) -> Leg {
        let first = Span::point(0);
        self.measured(first, first)
    }

    #[inline]
    fn bound_by(&self, cell: &Cell, legs: &mut [Leg]) -> u64 {
        let [a, b, c, d, e, ..] = cell.spans;
        let first = self.most_by(a, b, legs);
        let second = self.most_by(b, c, legs);
        let third = self.most_by(c, d, legs);
        let fourth = self.most_by(d, e, legs);
        first + second + third + fourth
    }
}
