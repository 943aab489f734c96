ghost use Rattle.std.specs.Prelude.{◌↔◌, ◌≤ℤ◌, IsTrue};

use crate::side::Side;
use gl_goal::Hull;

/// The fixes that may end a choice on one side: those from the lowest to the highest altitude.
#[derive(Clone, Copy, PartialEq, Eq)]
pub(crate) struct Ends {
    pub side: Side,
    pub lowest: i32,
    pub highest: i32,
}

/// The ends that are allowed on both sides.
#[derive(Clone, Copy)]
pub(crate) struct Sides {
    pub before: Ends,
    pub after: Ends,
}

impl Ends {
    /// Whether some altitude of a hull is allowed.
    #[inline]
    pub(crate) fn meets(&self, hull: &Hull) -> bool
        ensures { IsTrue result
            ↔ (self.now.lowest ≤ℤ hull.now.alt_hi) × (hull.now.alt_lo ≤ℤ self.now.highest) }
    {
        self.lowest <= hull.alt_hi && hull.alt_lo <= self.highest
    }

    /// Whether each fix of a hull has an altitude that is allowed.
    #[inline]
    pub(crate) fn holds(&self, hull: &Hull) -> bool
        ensures { IsTrue result
            ↔ (self.now.lowest ≤ℤ hull.now.alt_lo) × (hull.now.alt_hi ≤ℤ self.now.highest) }
    {
        self.lowest <= hull.alt_lo && hull.alt_hi <= self.highest
    }
}
