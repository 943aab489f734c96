ghost use Rattle.std.specs.Prelude.{◌≡◌, ◌≤◌, ◌*◌, ◌≤ℤ◌};
ghost use Rattle.gl_sphere.specs.Range.{IsWithin};
ghost use Rattle.gl_sphere.specs.Sphere.{radius};
ghost use Rattle.gl_goal.specs.Chords.{gap, reach, squared};

use gl_sphere::GREATEST_SQUARE;

/// The values from `lo` to `hi` of one component of points.
#[derive(Clone, Copy)]
pub(crate) struct Extent {
    pub lo: i32,
    pub hi: i32,
    ghost ordered: { lo ≤ℤ hi },
    ghost lo_in_range: { IsWithin radius lo },
    ghost hi_in_range: { IsWithin radius hi },
}

impl Extent {
    /// The square of the greatest difference of two values, one of each extent.
    #[inline]
    pub(crate) fn square_of_reach(self, other: Extent) -> u64
        ensures value { result ≡ squared (reach (self.lo, self.hi) (other.lo, other.hi)) }
        ensures bound { 3 * result ≤ GREATEST_SQUARE }
    {
        let reach = (self.hi - other.lo).max(other.hi - self.lo) as u64;
        reach * reach
    }

    /// The square of the least difference.
    #[inline]
    pub(crate) fn square_of_gap(self, other: Extent) -> u64
        ensures value { result ≡ squared (gap (self.lo, self.hi) (other.lo, other.hi)) }
        ensures bound { 3 * result ≤ GREATEST_SQUARE }
    {
        let gap = (other.lo - self.hi).max(self.lo - other.hi).max(0) as u64;
        gap * gap
    }
}
