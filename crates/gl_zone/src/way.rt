ghost use Rattle.std.specs.Prelude.{◌≡◌, ℕ, ◌+◌, ◌*◌, ◌/◌, ◌^◌, ◌<◌, ◌≤◌, ◌≤ℤ◌};
ghost use Rattle.gl_sphere.specs.Range.{IsWithin};
ghost use Rattle.gl_zone.specs.Crossing.{on_the_way};

use gl_sphere::Vec3;

/// Where a line is met on the way from one fix to the next: after `before` of `before + behind`.
#[derive(Clone, Copy)]
pub(crate) struct Share {
    pub before: u128,
    pub behind: u128,
    pub ghost before_below: { before < 2 ^ 94 },
    pub ghost behind_below: { behind < 2 ^ 94 },
}

/// A share of a gap, rounded down.
fn share_of_gap(share: Share, gap: u32) -> u32
    requires { 0 < share.before + share.behind }
    ensures value { result ≡ gap * share.before / (share.before + share.behind) }
    ensures bound { result ≤ gap }
{
    (gap as u128 * share.before / (share.before + share.behind)) as u32
}

/// What stands at a share of the way between two numbers, rounded towards the first; the second
/// where the way has no length.
pub(crate) fn on_the_way(share: Share, from: i32, to: i32) -> i32
    ensures value { result ≡ on_the_way share.before share.behind from to }
    ensures within { (m : ℕ) → IsWithin m from → IsWithin m to → IsWithin m result }
    ensures between { from ≤ℤ to → (from ≤ℤ result) × (result ≤ℤ to) }
{
    if share.before + share.behind == 0 {
        return to;
    }
    let step = share_of_gap(share, from.abs_diff(to)) as i64;
    if from <= to {
        (from as i64 + step) as i32
    } else {
        (from as i64 - step) as i32
    }
}

/// The point at a share of the way between two points, by components.
pub(crate) fn point_on_the_way(share: Share, from: Vec3, to: Vec3) -> Vec3
    ensures x { result.x ≡ on_the_way share.before share.behind from.x to.x }
    ensures y { result.y ≡ on_the_way share.before share.behind from.y to.y }
    ensures z { result.z ≡ on_the_way share.before share.behind from.z to.z }
{
    Vec3 {
        x: on_the_way(share, from.x, to.x),
        y: on_the_way(share, from.y, to.y),
        z: on_the_way(share, from.z, to.z),
    }
}
