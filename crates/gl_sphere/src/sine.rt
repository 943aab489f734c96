ghost use Rattle.std.specs.Prelude.{◌≡◌, ◌≤◌, pos, unsigned_abs};
ghost use Rattle.gl_sphere.specs.Range.{IsWithin};
ghost use Rattle.gl_sphere.specs.Sine.{half_turn_sine, written_sine, written_cosine};

use crate::series::Series;
use crate::series_steps::PAIRS;
use crate::sphere::{HALF_TURN, QUARTER_TURN, UNIT};

/// The sine of an angle of either sign, by that of the angle without its sign.
#[inline(always)]
fn with_sign(n: i64, size: u64) -> i64
    requires size { pos size ≡ half_turn_sine (unsigned_abs n) }
    requires in_range { size ≤ UNIT }
    ensures value { result ≡ written_sine n }
    ensures bound { IsWithin UNIT result }
{
    let sine = size as i64;
    if n < 0 { -sine } else { sine }
}

/// The angle whose sine is the cosine of another: what that one, without its sign, has left to 90
/// degrees.
#[inline(always)]
fn complement(n: i64) -> i64
    requires { IsWithin HALF_TURN n }
    ensures value { written_sine result ≡ written_cosine n }
    ensures bound { IsWithin HALF_TURN result }
{
    QUARTER_TURN as i64 - n.unsigned_abs() as i64
}

/// The written sine of an angle in 1/100,000 minute, where `UNIT` is one.
pub fn wsin(n: i64) -> i64
    requires { IsWithin HALF_TURN n }
    ensures value { result ≡ written_sine n }
    ensures bound { IsWithin UNIT result }
{
    let mut series = Series::of(n);
    for pair in 0..PAIRS {
        series = series.with_pair(pair);
    }
    with_sign(n, series.sine())
}

/// The written cosine of an angle in 1/100,000 minute, where `UNIT` is one.
pub fn wcos(n: i64) -> i64
    requires { IsWithin HALF_TURN n }
    ensures value { result ≡ written_cosine n }
    ensures bound { IsWithin UNIT result }
{
    wsin(complement(n))
}
