ghost use Rattle.std.specs.Prelude.{◌≡◌, ◌-ℤ◌, ◌*ℤ◌};
ghost use Rattle.gl_sphere.specs.Range.{IsWithin};
ghost use Rattle.gl_sphere.specs.Sphere.{radius};
ghost use Rattle.gl_zone.specs.Product.{greatest_scalar_product};
ghost use Rattle.gl_zone.specs.Side.{side_of, greatest_forwards, greatest_share_of_side, greatest_side};

use crate::line::Line;
use crate::product::{scalar_product, wide_product};
use gl_sphere::Vec3;

/// A component of the direction over a line, from that component of its centre and of the point
/// that it is crossed towards, the centre's square and the scalar product of both.
fn forwards(centre: i32, towards: i32, square: i64, along: i64) -> i128
    requires centre_in_range { IsWithin radius centre }
    requires towards_in_range { IsWithin radius towards }
    requires square_in_range { IsWithin greatest_scalar_product square }
    requires along_in_range { IsWithin greatest_scalar_product along }
    ensures value { result ≡ (towards *ℤ square) -ℤ (centre *ℤ along) }
    ensures bound { IsWithin greatest_forwards result }
{
    wide_product(towards, square) - wide_product(centre, along)
}

/// What one component of a point adds to its side.
fn share_of_side(forwards: i128, component: i32) -> i128
    requires forwards_in_range { IsWithin greatest_forwards forwards }
    requires component_in_range { IsWithin radius component }
    ensures value { result ≡ forwards *ℤ component }
    ensures bound { IsWithin greatest_share_of_side result }
{
    forwards * component as i128
}

/// On which side of a line a point lies: negative before the line, 0 on the great circle through
/// its centre, positive behind it.
pub fn side(line: &Line, x: Vec3) -> i128
    ensures value { result ≡ side_of line.now x }
    ensures bound { IsWithin greatest_side result }
{
    let Line {
        centre,
        towards,
        ..
    } = *line;
    let square = scalar_product(centre, centre);
    let along = scalar_product(centre, towards);
    share_of_side(forwards(centre.x, towards.x, square, along), x.x)
        + share_of_side(forwards(centre.y, towards.y, square, along), x.y)
        + share_of_side(forwards(centre.z, towards.z, square, along), x.z)
}
