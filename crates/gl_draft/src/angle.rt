ghost use Rattle.std.specs.Prelude.{◌≡◌, ◌+◌, ◌<◌, ◌≤◌, IfNone, IfSome, true, false, pos};
ghost use Rattle.gl_sphere.specs.Range.{IsWithin};
ghost use Rattle.gl_zone.specs.Zones.{is_clockwise};
ghost use Rattle.gl_draft.specs.Bearing.{HasNoBearing, IsAtAngle, IsBearing, direction_to, is_too_near, radial_at, signed_angle, whole_turn};

use gl_sphere::{Grid, HALF_TURN, east, north, vector, wcos, wsin};
use gl_zone::{Direction, scalar_product};

/// A whole turn, in 1/100,000 minute.
pub const WHOLE_TURN: u32 = 2_160_000_000;

/// A quarter of a turn, in 1/100,000 minute.
const QUARTER_TURN: u32 = 540_000_000;

/// The part towards north of a point a kilometre north: 100,000 centimetres by the radius.
const KILOMETRE: u64 = 63_710_000_000_000;

/// An angle clockwise from north as one from -180 to 180 degrees.
#[tactic(auto, unfolding(crate::specs::Bearing::signed_angle))]
fn signed_angle(angle: u32) -> i64
    requires { angle ≤ whole_turn }
    ensures value { result ≡ signed_angle angle }
    ensures bound { IsWithin HALF_TURN result }
{
    let angle = i64::from(angle);
    if angle > HALF_TURN as i64 {
        angle - i64::from(WHOLE_TURN)
    } else {
        angle
    }
}

/// The direction at an angle.
fn radial_at(angle: u32) -> Direction
    requires { angle ≤ whole_turn }
    ensures { (result.north, result.east) ≡ radial_at angle }
{
    let angle = signed_angle(angle);
    Direction {
        north: wcos(angle),
        east: wsin(angle),
    }
}

/// Whether a direction lies up to 180 degrees clockwise of the radial at an angle.
fn is_reached(angle: u32, direction: Direction) -> bool
    requires { angle ≤ whole_turn }
    ensures { result ≡ is_clockwise (radial_at angle) (direction.north, direction.east) }
{
    radial_at(angle).is_clockwise(direction)
}

/// The angle of a direction between two radials: it lies clockwise of the first, and not of the
/// second.
fn angle_between(direction: Direction, low: u32, high: u32) -> u32
    requires order { low < high }
    requires within { high ≤ whole_turn }
    requires reached { is_clockwise (radial_at low) (direction.north, direction.east) ≡ true }
    requires next { is_clockwise (radial_at high) (direction.north, direction.east) ≡ false }
    ensures { IsAtAngle (direction.north, direction.east) result }
{
    let mut low = low;
    let mut high = high;
    'halvings: while high - low > 1 {
        let middle = low + (high - low) / 2;
        if is_reached(middle, direction) {
            low = middle;
        } else {
            high = middle;
        }
    }
    low
}

/// Where the quarter begins that a direction lies in; none where it is no direction.
fn quarter_of(direction: Direction) -> Option<u32>
    ensures within { IfSome result (λ low. low + QUARTER_TURN ≤ whole_turn) }
    ensures reached { IfSome result (λ low.
        is_clockwise (radial_at low) (direction.north, direction.east) ≡ true) }
    ensures next { IfSome result (λ low.
        is_clockwise (radial_at (low + QUARTER_TURN)) (direction.north, direction.east) ≡ false) }
    ensures none { IfNone result ((direction.north ≡ pos 0) × (direction.east ≡ pos 0)) }
{
    let Direction { north, east, .. } = direction;
    if north > 0 && east >= 0 {
        Some(0)
    } else if north <= 0 && east > 0 {
        Some(QUARTER_TURN)
    } else if north < 0 && east <= 0 {
        Some(2 * QUARTER_TURN)
    } else if north >= 0 && east < 0 {
        Some(3 * QUARTER_TURN)
    } else {
        None
    }
}

/// Whether a point lies less than a kilometre away in both parts, or so near to the far side of the
/// earth. Whole centimetres could turn its direction.
fn is_too_near(direction: Direction) -> bool
    ensures { result ≡ is_too_near (direction.north, direction.east) }
{
    direction.north.unsigned_abs() < KILOMETRE && direction.east.unsigned_abs() < KILOMETRE
}

/// The angle of a direction, in 1/100,000 minute clockwise from north; none where it is too near.
#[tactic(auto, using(crate::proofs::Quarters::nowhere_is_near))]
fn angle_of(direction: Direction) -> Option<u32>
    ensures apart { IfSome result (λ n.
        is_too_near (direction.north, direction.east) ≡ false) }
    ensures some { IfSome result (IsAtAngle (direction.north, direction.east)) }
    ensures none { IfNone result (is_too_near (direction.north, direction.east) ≡ true) }
{
    if is_too_near(direction) {
        return None;
    }
    let low = quarter_of(direction)?;
    Some(angle_between(direction, low, low + QUARTER_TURN))
}

/// The direction from a place to another.
fn direction_to(from: Grid, to: Grid) -> Direction
    ensures { (result.north, result.east) ≡ direction_to from to }
{
    let point = vector(to);
    Direction {
        north: scalar_product(north(from), point),
        east: scalar_product(east(from), point),
    }
}

/// The direction from a place to another, in 1/100,000 minute clockwise from north; none where that
/// is less than a kilometre away, or so near to the far side of the earth.
pub(crate) fn bearing(from: Grid, to: Grid) -> Option<u32>
    ensures some { IfSome result (IsBearing from to) }
    ensures none { IfNone result (HasNoBearing from to) }
{
    angle_of(direction_to(from, to))
}
