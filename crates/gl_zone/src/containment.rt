ghost use Rattle.std.specs.Prelude.{◌≡◌, ◌<◌};
ghost use Rattle.gl_sphere.specs.Range.{IsWithin};
ghost use Rattle.gl_zone.specs.Limits.{whole_turn};
ghost use Rattle.gl_zone.specs.Zones.{angle_of, direction_of, is_between_distances, is_between_radials, is_clockwise, is_in_cylinder, is_in_part, is_in_sector, is_in_zone, radial_of};

use crate::direction::Direction;
use crate::product::scalar_product;
use crate::zone::{Cylinder, Part, Sector, WHOLE_TURN, Zone};
use gl_sphere::{HALF_TURN, Vec3, dist, sq, wcos, wsin};

/// Whether a point is in a cylinder.
fn is_in_cylinder(cylinder: &Cylinder, x: Vec3) -> bool
    ensures { result ≡ is_in_cylinder cylinder.now x }
{
    dist(sq(x, cylinder.centre)) <= cylinder.radius
}

/// Whether a point lies between a sector's two distances.
fn is_between_distances(sector: &Sector, x: Vec3) -> bool
    ensures { result ≡ is_between_distances sector.now x }
{
    let distance = dist(sq(x, sector.centre));
    sector.inner <= distance && distance <= sector.outer
}

/// The direction of a point from a sector's centre.
fn direction_of(sector: &Sector, x: Vec3) -> Direction
    ensures { (result.north, result.east) ≡ direction_of sector.now x }
{
    Direction {
        north: scalar_product(sector.north, x),
        east: scalar_product(sector.east, x),
    }
}

/// A radial in 1/100,000 minute, from -180 to 180 degrees.
fn angle_of(radial: u32) -> i64
    requires { radial < whole_turn }
    ensures value { result ≡ angle_of radial }
    ensures bound { IsWithin HALF_TURN result }
{
    let angle = 6_000 * radial as i64;
    if angle > HALF_TURN as i64 {
        angle - 2 * HALF_TURN as i64
    } else {
        angle
    }
}

/// The direction of a radial.
fn radial_of(radial: u32) -> Direction
    requires { radial < whole_turn }
    ensures { (result.north, result.east) ≡ radial_of radial }
{
    let angle = angle_of(radial);
    Direction {
        north: wcos(angle),
        east: wsin(angle),
    }
}

/// Whether a direction lies between a sector's radials, clockwise.
fn is_between_radials(sector: &Sector, x: Direction) -> bool
    ensures { result ≡ is_between_radials sector.now (x.north, x.east) }
{
    let width = (sector.to + WHOLE_TURN - sector.from) % WHOLE_TURN;
    if width == 0 {
        true
    } else if width <= WHOLE_TURN / 2 {
        radial_of(sector.from).is_clockwise(x) && x.is_clockwise(radial_of(sector.to))
    } else {
        radial_of(sector.from).is_clockwise(x) || x.is_clockwise(radial_of(sector.to))
    }
}

/// Whether a point is in a sector.
fn is_in_sector(sector: &Sector, x: Vec3) -> bool
    ensures { result ≡ is_in_sector sector.now x }
{
    is_between_distances(sector, x) && is_between_radials(sector, direction_of(sector, x))
}

/// Whether a point is in a part of a zone.
fn is_in_part(part: &Part, x: Vec3) -> bool
    ensures { result ≡ is_in_part part.now x }
{
    match part {
        Part::Cylinder(cylinder) => is_in_cylinder(cylinder, x),
        Part::Sector(sector) => is_in_sector(sector, x),
    }
}

/// Whether a zone holds a point: one of its parts does.
pub fn holds(zone: &Zone, x: Vec3) -> bool
    ensures { result ≡ is_in_zone zone.now x }
{
    zone.parts.as_slice().iter().any(|part| is_in_part(part, x))
}
