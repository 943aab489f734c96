ghost use Rattle.std.specs.Prelude.{◌≡◌, ℕ, ℤ, ◌≤◌, pos, neg_ℤ, ◌-ℤ◌, IfSome, MatchBool};
ghost use Rattle.gl_sphere.specs.Code.Quick.{quick_error};
ghost use Rattle.gl_sphere.specs.Place.{written_vector};
ghost use Rattle.gl_sphere.specs.Product.{product, scaled};
ghost use Rattle.gl_sphere.specs.Range.{IsWithin};

use crate::place::{Grid, Vec3};
use crate::quick_sine::{high_half, quick_sine};
use crate::series_steps::quarter_angle;
use crate::sphere::{QUARTER_TURN, RADIUS, UNIT};

/// 2^140 times the radius over the square of `UNIT`, rounded down.
const TO_LENGTH: u64 = 8_879_877_978_739_912_502;

/// A centimetre, counted in the last place of a quick length.
const CENTIMETRE: u64 = 1 << 32;

/// How far from a half a quick length has to be, in its last place, to be rounded as the written one
/// is: two quick sines make it at most 280,750 wrong.
const MARGIN: u64 = 300_000;

/// The length along the radius of the product of two sines, in whole centimetres, by quick sines;
/// `None` where it's too near a half to say which way the written one is rounded.
#[inline(always)]
fn quick_length(a: u64, b: u64) -> Option<i32>
    requires a_in_range { a ≤ UNIT }
    requires b_in_range { b ≤ UNIT }
    ensures value { (p q : ℕ) → p ≤ UNIT → q ≤ UNIT → IsWithin quick_error (pos a -ℤ pos p)
        → IsWithin quick_error (pos b -ℤ pos q)
        → IfSome result (λ length. length ≡ scaled (product (pos p) (pos q))) }
    ensures bound { IfSome result (λ length. IsWithin RADIUS length) }
{
    let length = high_half(high_half(a * 1_024, b * 1_024), TO_LENGTH) + CENTIMETRE / 2;
    let above = length % CENTIMETRE;
    if MARGIN <= above && above <= CENTIMETRE - MARGIN {
        Some((length / CENTIMETRE) as i32)
    } else {
        None
    }
}

/// A length, or its negative.
#[inline(always)]
fn directed(length: i32, is_negative: bool) -> i32
    requires { IsWithin RADIUS length }
    ensures value { MatchBool is_negative (result ≡ neg_ℤ length) (result ≡ length) }
    ensures bound { IsWithin RADIUS result }
{
    if is_negative { -length } else { length }
}

/// The point of a place by quick sines; `None` where they can't tell the last digit of a component.
#[inline(always)]
pub fn quick_vector(g: Grid) -> Option<Vec3>
    ensures { IfSome result (λ v. v ≡ written_vector g) }
{
    let lat = u64::from(g.lat.unsigned_abs());
    let lon = u64::from(g.lon.unsigned_abs());
    let height = quick_sine(lat);
    let from_axis = quick_sine(QUARTER_TURN - lat);
    let east = quick_sine(quarter_angle(lon));
    let across = quick_sine(QUARTER_TURN.abs_diff(lon));
    let x = quick_length(from_axis, across)?;
    let y = quick_length(from_axis, east)?;
    let z = quick_length(height, UNIT)?;
    Some(Vec3 {
        x: directed(x, lon > QUARTER_TURN),
        y: directed(y, g.lon < 0),
        z: directed(z, g.lat < 0),
    })
}
