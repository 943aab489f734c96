ghost use Rattle.std.specs.Prelude.{◌≡◌, ◌≤◌};
ghost use Rattle.gl_goal.specs.Chords.{IsGreatestChord, IsLeastChord, greatest_chord, least_chord};
ghost use Rattle.gl_goal.specs.Hull.{box_of};

use crate::hull::Hull;
use gl_sphere::GREATEST_SQUARE;

/// The greatest squared chord of two points, one in each hull, in square centimetres.
#[inline]
pub fn max_sq(a: &Hull, b: &Hull) -> u64
    ensures value { result ≡ greatest_chord (box_of a.now) (box_of b.now) }
    ensures bound { result ≤ GREATEST_SQUARE }
    ensures greatest { IsGreatestChord (box_of a.now) (box_of b.now) result }
{
    a.x().square_of_reach(b.x()) + a.y().square_of_reach(b.y()) + a.z().square_of_reach(b.z())
}

/// The least squared chord of two points, one in each hull, in square centimetres.
#[inline]
pub fn min_sq(a: &Hull, b: &Hull) -> u64
    ensures value { result ≡ least_chord (box_of a.now) (box_of b.now) }
    ensures bound { result ≤ GREATEST_SQUARE }
    ensures least { IsLeastChord (box_of a.now) (box_of b.now) result }
{
    a.x().square_of_gap(b.x()) + a.y().square_of_gap(b.y()) + a.z().square_of_gap(b.z())
}
