ghost use Rattle.std.specs.Prelude.{◌≡◌, ◌<◌, ◌^◌};
ghost use Rattle.gl_goal.specs.Hull.{box_of};
ghost use Rattle.gl_sphere.specs.Distance.{distance};
ghost use Rattle.gl_goal.specs.Chain.{greatest_distance, least_distance};

use crate::chords::{max_sq, min_sq};
use crate::hull::Hull;
use gl_sphere::{Vec3, dist, sq};

/// The distance between two points, in centimetres.
pub(crate) fn leg(from: Vec3, to: Vec3) -> u64
    ensures value { result ≡ distance from to }
    ensures bound { result < 2 ^ 40 }
{
    dist(sq(from, to))
}

/// The greatest distance of two points, one in each hull, in centimetres.
#[inline]
pub(crate) fn leg_at_most(from: &Hull, to: &Hull) -> u64
    ensures value { result ≡ greatest_distance (box_of from.now) (box_of to.now) }
    ensures bound { result < 2 ^ 40 }
{
    dist(max_sq(from, to))
}

/// The least distance of two points, one in each hull, in centimetres.
#[inline]
pub(crate) fn leg_at_least(from: &Hull, to: &Hull) -> u64
    ensures value { result ≡ least_distance (box_of from.now) (box_of to.now) }
    ensures bound { result < 2 ^ 40 }
{
    dist(min_sq(from, to))
}
