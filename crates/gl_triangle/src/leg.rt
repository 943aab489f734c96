ghost use Rattle.std.specs.Prelude.{◌<◌, ◌^◌};

use gl_goal::{Hull, max_sq, min_sq};
use gl_sphere::dist;

/// How long a leg is at least and at most, in centimetres.
#[derive(Clone, Copy)]
pub(crate) struct Leg {
    pub least: u64,
    pub most: u64,
    pub ghost least_below: { least < 2 ^ 40 },
    pub ghost most_below: { most < 2 ^ 40 },
}

impl Leg {
    ghost use Rattle.gl_goal.specs.Hull.{box_of};
    ghost use Rattle.gl_triangle.specs.Code.Legs.{IsLeg};

    /// The leg between two points, one in each hull.
    #[inline]
    pub fn between(from: &Hull, to: &Hull) -> Leg
        ensures { IsLeg (box_of from.now) (box_of to.now) result }
    {
        Leg {
            least: dist(min_sq(from, to)),
            most: dist(max_sq(from, to)),
        }
    }
}
