ghost use Rattle.std.specs.Prelude.{pos, neg_ℤ, ◌≤ℤ◌};

use crate::corners::{higher, lower};
use crate::extent::Extent;
use gl_igc::Fix;
use gl_sphere::Vec3;

/// A box of points, from `lo` to `hi` on each component, with altitudes from `alt_lo` to `alt_hi`
/// metres; all ends inside.
#[derive(Clone, Copy, Debug, PartialEq, Eq)]
pub struct Hull {
    pub lo: Vec3,
    pub hi: Vec3,
    pub alt_lo: i32,
    pub alt_hi: i32,
    pub ghost x_ordered: { lo.x ≤ℤ hi.x },
    pub ghost y_ordered: { lo.y ≤ℤ hi.y },
    pub ghost z_ordered: { lo.z ≤ℤ hi.z },
    pub ghost alt_ordered: { alt_lo ≤ℤ alt_hi },
    pub ghost lowest: { neg_ℤ (pos 9_999) ≤ℤ alt_lo },
    pub ghost highest: { alt_hi ≤ℤ pos 32_767 },
}

impl Hull {
    ghost use Rattle.std.specs.Prelude.{◌≡◌, [], ◌∷◌};
    ghost use Rattle.gl_goal.specs.Box.{IsLeastBox, point_box};
    ghost use Rattle.gl_goal.specs.Code.Boxes.{Joins};
    ghost use Rattle.gl_goal.specs.Hull.{box_of};

    /// The hull of a single point, at altitude 0.
    pub fn point(at: Vec3) -> Hull
        ensures { box_of result ≡ point_box at }
    {
        Hull {
            lo: at,
            hi: at,
            alt_lo: 0,
            alt_hi: 0,
        }
    }

    /// The hull of a single fix.
    pub(crate) fn of_fix(fix: &Fix) -> Hull
        ensures { IsLeastBox (box_of result) (fix.now ∷ []) }
    {
        Hull {
            lo: fix.at,
            hi: fix.at,
            alt_lo: fix.alt,
            alt_hi: fix.alt,
        }
    }

    /// The least hull that holds both.
    pub(crate) fn join(&self, other: &Hull) -> Hull
        ensures { Joins (box_of self.now) (box_of other.now) (box_of result) }
    {
        Hull {
            lo: lower(self.lo, other.lo),
            hi: higher(self.hi, other.hi),
            alt_lo: self.alt_lo.min(other.alt_lo),
            alt_hi: self.alt_hi.max(other.alt_hi),
        }
    }

    pub(crate) fn x(&self) -> Extent
        ensures lo { result.lo ≡ self.now.lo.x }
        ensures hi { result.hi ≡ self.now.hi.x }
    {
        Extent {
            lo: self.lo.x,
            hi: self.hi.x,
        }
    }

    pub(crate) fn y(&self) -> Extent
        ensures lo { result.lo ≡ self.now.lo.y }
        ensures hi { result.hi ≡ self.now.hi.y }
    {
        Extent {
            lo: self.lo.y,
            hi: self.hi.y,
        }
    }

    pub(crate) fn z(&self) -> Extent
        ensures lo { result.lo ≡ self.now.lo.z }
        ensures hi { result.hi ≡ self.now.hi.z }
    {
        Extent {
            lo: self.lo.z,
            hi: self.hi.z,
        }
    }
}
