ghost use Rattle.std.specs.Prelude.{◌≡◌, ◌≤◌, ◌<◌, length, map, take, [], ◌∷◌, IfOk, Some, slice_get};
ghost use Rattle.gl_goal.specs.Free.{numbers_from};
ghost use Rattle.gl_goal.specs.Goal.{IsGoal, IsLegal};
ghost use Rattle.gl_badge.specs.Gain.{gain_goal, rise};
ghost use Rattle.gl_badge.specs.GainGoal.{gain_rule};
ghost use Rattle.gl_badge.specs.Lemmas.Gain.{gain_goal-is_goal};

use crate::gain::GainGoal;
use gl_box::{Cell, Span, Tuple};
use gl_goal::{Goal, Hulls, Leg};
use gl_igc::Fix;
use std::alloc::{AllocError, Global};

/// How many fixes a gain of height names.
const GAIN_FIXES: u8 = 2;

/// How far the second altitude is above the first, in metres, and 0 where it isn't above it.
#[inline]
fn rise(low: i32, high: i32) -> u64
    ensures { result ≡ rise low high }
{
    (i64::from(high) - i64::from(low)).max(0).unsigned_abs()
}

/// The numbers of so many fixes, from the first one on. The only error is want of memory.
pub(crate) fn all_numbers(alloc: Global, count: u32) -> Result<Vec<u32>, AllocError>
    ensures { IfOk result (λ numbers. numbers.items ≡ numbers_from 0 count) }
{
    let mut numbers = Vec::with_capacity(alloc, count as usize)?;
    for number in 0..count {
        numbers.push(number)?;
    }
    Ok(numbers)
}

impl GainGoal {
    /// The goal over all of some fixes. The only error is want of memory.
    pub fn new(alloc: Global, fixes: &[Fix]) -> Result<GainGoal, AllocError>
        requires some { 1 ≤ length fixes.now }
        requires most { length fixes.now ≤ 90_000 }
        ensures rule { IfOk result (λ goal. gain_rule goal ≡ gain_goal fixes.now) }
        ensures well_formed { IfOk result (λ goal. IsGoal (gain_rule goal)) }
        // Staying at the first fix is always legal.
        ensures legal { IfOk result (λ goal. IsLegal (gain_rule goal) (0 ∷ 0 ∷ [])) }
    {
        let numbers = all_numbers(alloc, fixes.len() as u32)?;
        Ok(GainGoal {
            hulls: Hulls::new(alloc, fixes, numbers.as_slice())?,
        })
    }
}

#[tactic(auto, unfolding(crate::specs::Gain::gain_goal))]
impl Goal for GainGoal {
    ghost rule = { gain_rule };

    ghost laws = { λ g. gain_goal-is_goal g.hulls g.some_fix };

    fn axes(&self) -> u8 {
        GAIN_FIXES
    }

    fn len(&self, axis: u8) -> u32 {
        let _ = axis;
        self.hulls.len()
    }

    fn fix(&self, axis: u8, place: u32) -> u32 {
        let _ = axis;
        place
    }

    fn legal(&self, tuple: &Tuple) -> bool {
        tuple.places[0] <= tuple.places[1]
    }

    fn value(&self, tuple: &Tuple) -> u64 {
        let from = self.hulls.fix(tuple.places[0]);
        let to = self.hulls.fix(tuple.places[1]);
        rise(from.alt, to.alt)
    }

    #[inline]
    fn disordered(&self, cell: &Cell) -> bool {
        cell.spans[1].hi < cell.spans[0].lo
    }

    fn shut(&self, cell: &Cell) -> bool {
        let _ = cell;
        false
    }

    #[inline]
    fn bound(&self, cell: &Cell) -> u64 {
        let from = self.hulls.hull(cell.spans[0]);
        let to = self.hulls.hull(cell.spans[1]);
        rise(from.alt_lo, to.alt_hi)
    }

    ghost are_legs = { λ g legs. Unit {0} };

    fn leg(&self) -> Leg {
        let first = Span::point(0);
        Leg {
            from: first,
            to: first,
            most: 0,
        }
    }

    #[inline]
    fn bound_by(&self, cell: &Cell, legs: &mut [Leg]) -> u64 {
        let _ = legs;
        self.bound(cell)
    }
}
