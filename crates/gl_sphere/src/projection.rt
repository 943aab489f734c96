ghost use Rattle.std.specs.Prelude.{◌≡◌};
ghost use Rattle.gl_sphere.specs.Place.{written_vector, written_north, written_east};
ghost use Rattle.gl_sphere.specs.Product.{product, scaled};
ghost use Rattle.gl_sphere.specs.Range.{IsWithin};

use crate::place::{Grid, Vec3};
use crate::quick_vector::quick_vector;
use crate::quotient::quotient;
use crate::series_steps::over_unit;
use crate::sine::{wcos, wsin};
use crate::sphere::{RADIUS, UNIT};

/// The point of a place.
pub fn vector(g: Grid) -> Vec3
    ensures { result ≡ written_vector g }
{
    match quick_vector(g) {
        Some(point) => point,
        None => vector_in_full(g),
    }
}

/// The point of a place by the written sines.
#[inline(never)]
fn vector_in_full(g: Grid) -> Vec3
    ensures { result ≡ written_vector g }
{
    let lat = g.lat as i64;
    let lon = g.lon as i64;
    let from_axis = wcos(lat);
    Vec3 {
        x: scale(mul(from_axis, wcos(lon))),
        y: scale(mul(from_axis, wsin(lon))),
        z: scale(wsin(lat)),
    }
}

/// The direction of north at a place: a point at the radius from the centre, square to the place's
/// own.
pub fn north(g: Grid) -> Vec3
    ensures { result ≡ written_north g }
{
    let lat = g.lat as i64;
    let lon = g.lon as i64;
    let height = wsin(lat);
    Vec3 {
        x: scale(-mul(height, wcos(lon))),
        y: scale(-mul(height, wsin(lon))),
        z: scale(wcos(lat)),
    }
}

/// The direction of east at a place: a point at the radius from the centre, square to the place's
/// own and to north.
pub fn east(g: Grid) -> Vec3
    ensures { result ≡ written_east g }
{
    let lon = g.lon as i64;
    Vec3 {
        x: scale(-wsin(lon)),
        y: scale(wcos(lon)),
        z: 0,
    }
}

/// The product of two sines or cosines.
fn mul(a: i64, b: i64) -> i64
    requires a_in_range { IsWithin UNIT a }
    requires b_in_range { IsWithin UNIT b }
    ensures value { result ≡ product a b }
    ensures bound { IsWithin UNIT result }
{
    let size = over_unit(a.unsigned_abs(), b.unsigned_abs()) as i64;
    if (a < 0) == (b < 0) { size } else { -size }
}

/// A sine, a cosine or a product of two, as a length along the radius, in centimetres, rounded half
/// away from the centre. Twice `UNIT` is 2^17·5^13·5^3.
fn scale(m: i64) -> i32
    requires { IsWithin UNIT m }
    ensures value { result ≡ scaled m }
    ensures bound { IsWithin RADIUS result }
{
    let doubled = m.unsigned_abs() as u128 * (2 * RADIUS) as u128;
    let length = quotient((doubled + UNIT as u128) >> 17, 1_220_703_125, 125) as i32;
    if m < 0 { -length } else { length }
}
