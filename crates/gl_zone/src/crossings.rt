ghost use Rattle.std.specs.Prelude.{◌≡◌, ℤ, ◌<ℤ◌, ◌≤ℤ◌, IfSome, IfNone, unsigned_abs, ◌/◌};
ghost use Rattle.gl_sphere.specs.Range.{IsWithin};
ghost use Rattle.gl_zone.specs.Crossing.{CrossesForwards};
ghost use Rattle.gl_zone.specs.Side.{greatest_side};

use crate::line::Line;
use crate::sides::side;
use crate::way::{Share, on_the_way, point_on_the_way};
use gl_igc::Fix;
use gl_sphere::{dist, sq};

/// The unit in which a point's depth before or behind a line is counted.
const DEPTH: u128 = 1 << 30;

/// Where a line is met between two points with these sides.
fn share_of(before: i128, behind: i128) -> Share
    requires before_in_range { IsWithin greatest_side before }
    requires behind_in_range { IsWithin greatest_side behind }
    ensures before { result.before ≡ unsigned_abs before / 1_073_741_824 }
    ensures behind { result.behind ≡ unsigned_abs behind / 1_073_741_824 }
{
    Share {
        before: before.unsigned_abs() / DEPTH,
        behind: behind.unsigned_abs() / DEPTH,
    }
}

/// The time at which the line is crossed forwards from a fix to a later one: the first is before
/// the line and the second isn't, and the crossing point is at most the half width from its centre.
/// In seconds, as those of the fixes. `None` exactly where it isn't crossed so.
pub fn crossing(line: &Line, x: &Fix, y: &Fix) -> Option<i32>
    requires { x.now.second <ℤ y.now.second }
    ensures some { IfSome result (λ t. CrossesForwards line.now x.now y.now t) }
    ensures none { IfNone result ((t : ℤ) → ¬ CrossesForwards line.now x.now y.now t) }
    ensures between { IfSome result (λ t. (x.now.second ≤ℤ t) × (t ≤ℤ y.now.second)) }
{
    let before = side(line, x.at);
    let behind = side(line, y.at);
    if before >= 0 || behind < 0 {
        return None;
    }
    let share = share_of(before, behind);
    let point = point_on_the_way(share, x.at, y.at);
    if dist(sq(point, line.centre)) > line.half {
        return None;
    }
    Some(on_the_way(share, x.second, y.second))
}
