ghost use Rattle.std.specs.Prelude.{◌≡◌, ◌<◌, ◌↔◌, IsTrue, ℕ, List, length, replicate, slice_index_or, []};
ghost use Rattle.gl_box.specs.Tuple.{places_of};
ghost use Rattle.gl_box.specs.Cell.{Covers, spans_of};
ghost use Rattle.gl_goal.specs.declared.leg.Leg.{Leg};
ghost use Rattle.gl_goal.specs.Goal.{Goal, IsDisordered, IsGoal, IsLegal, IsTuple, fix_at, value, whole_cell};

use crate::leg::Leg;
use gl_box::{Cell, Tuple};

/// A maximum to be found: on each axis a list of fix numbers, of which a tuple chooses one place
/// each. A cell is a box of tuples, and its tests say what is known of all of them at once. No call
/// takes memory.
pub trait Goal {
    /// The goal as the rules say it.
    ghost rule: { Self → Goal };

    /// The legs that a search has measured are legs of this goal, and there is room for one at
    /// least.
    ghost are_legs: { Self → List Leg → Type 0 };

    /// How many axes there are, from 1 to 10.
    fn axes(&self) -> u8
        ensures { result ≡ length (rule self.now).axes };

    /// How many fixes the list of an axis has, at least 1.
    fn len(&self, axis: u8) -> u32
        requires { axis < length (rule self.now).axes }
        ensures { result ≡ length (slice_index_or (rule self.now).axes axis []) };

    /// The number of the fix at a place of an axis.
    fn fix(&self, axis: u8, place: u32) -> u32
        requires axis_in { axis < length (rule self.now).axes }
        requires place_in { place < length (slice_index_or (rule self.now).axes axis []) }
        ensures { result ≡ fix_at (rule self.now).axes axis place };

    /// Whether the fixes of a tuple are in time order and the goal allows them.
    fn legal(&self, tuple: &Tuple) -> bool
        requires { IsTuple (rule self.now).axes (places_of tuple.now) }
        ensures { IsTrue result ↔ IsLegal (rule self.now) (places_of tuple.now) };

    /// What a tuple is worth, in centimetres, below 2 ^ 63.
    fn value(&self, tuple: &Tuple) -> u64
        requires { IsTuple (rule self.now).axes (places_of tuple.now) }
        ensures { result ≡ value (rule self.now) (places_of tuple.now) };

    /// Whether no tuple of the cell is in time order, as the ends of its spans show.
    fn disordered(&self, cell: &Cell) -> bool
        requires { Covers (whole_cell (rule self.now).axes) (spans_of cell.now) }
        ensures { IsTrue result ↔ IsDisordered (rule self.now).axes (spans_of cell.now) };

    /// Whether the goal allows no tuple of the cell, as its written test shows.
    fn shut(&self, cell: &Cell) -> bool
        requires { Covers (whole_cell (rule self.now).axes) (spans_of cell.now) }
        ensures { IsTrue result ↔ IsTrue ((rule self.now).shut (spans_of cell.now)) };

    /// At least what each legal tuple of the cell is worth, in centimetres.
    fn bound(&self, cell: &Cell) -> u64
        requires { Covers (whole_cell (rule self.now).axes) (spans_of cell.now) }
        ensures { result ≡ (rule self.now).bound (spans_of cell.now) };

    /// A leg to fill a list of legs with, for `bound_by`.
    fn leg(&self) -> Leg
        ensures { (count : ℕ) → 0 < count → are_legs self.now (replicate count result) };

    /// The same as `bound`, sooner where some of the legs are among those that were measured: only
    /// the others are measured, and join them.
    fn bound_by(&self, cell: &Cell, legs: &mut [Leg]) -> u64
        requires covers { Covers (whole_cell (rule self.now).axes) (spans_of cell.now) }
        requires legs { are_legs self.now legs.old }
        ensures bound { result ≡ (rule self.now).bound (spans_of cell.now) }
        ensures legs { are_legs self.now legs.new };

    /// What its tests say of a cell is true of the tuples in it, and exact for a single tuple.
    ghost laws: { (goal : Self) → IsGoal (rule goal) };
}
