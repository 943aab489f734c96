ghost use Rattle.std.specs.Prelude.{◌≡◌, ℕ, ◌+◌, ◌*◌, ◌/◌, ◌^◌, ◌<◌, ◌≤◌};
ghost use Rattle.gl_sphere.specs.Code.Quick.{IsNearSquare, IsNearTerm, IsQuickSine};
ghost use Rattle.gl_sphere.specs.Sine.{radians};

use crate::sphere::{QUARTER_TURN, UNIT};

/// How many pairs of terms the quick series of a sine has after its first term: the two last terms
/// of the written series are at most 440 together.
const QUICK_PAIRS: u64 = 4;

/// 2^39 times half a circle in radians over half a circle in 1/100,000 minute, rounded down.
const TO_RADIANS: u64 = 15_991_748_390_544_614_866;

/// The high half of the product of two numbers.
#[inline(always)]
pub fn high_half(a: u64, b: u64) -> u64
    ensures { result ≡ a * b / 2 ^ 64 }
{
    ((a as u128 * b as u128) >> 64) as u64
}

/// An angle in radians, or one less in the last place.
#[inline(always)]
fn quick_radians(n: u64) -> u64
    requires { n ≤ QUARTER_TURN }
    ensures most { result ≤ radians n }
    ensures least { radians n ≤ result + 1 }
    ensures bound { result ≤ 15_707_963_267_948_966 }
{
    ((n as u128 * TO_RADIANS as u128) >> 39) as u64
}

/// The square of an angle in radians over 2^44.
#[inline(always)]
fn quick_square(n: u64, angle: u64) -> u64
    requires n_in_range { n ≤ QUARTER_TURN }
    requires most { angle ≤ radians n }
    requires least { radians n ≤ angle + 1 }
    requires in_range { angle ≤ 15_707_963_267_948_966 }
    ensures { IsNearSquare (radians n * radians n / UNIT) result }
{
    high_half(angle * 1_024, angle * 1_024)
}

/// 2^172 over the square of `UNIT` times (2k + 2)·(2k + 3), rounded down: what takes the square of
/// an angle to what takes the term after term k to it.
#[inline(always)]
fn inverse(k: u64) -> u64
    requires { k < 2 * QUICK_PAIRS }
    ensures { result ≡ 2 ^ 172 / (UNIT * UNIT * ((2 * k + 2) * (2 * k + 3))) }
{
    match k {
        0 => 9_977_184_510_845_630_588,
        1 => 2_993_155_353_253_689_176,
        2 => 1_425_312_072_977_947_226,
        3 => 831_432_042_570_469_215,
        4 => 544_210_064_227_943_486,
        5 => 383_737_865_801_755_022,
        6 => 285_062_414_595_589_445,
        _ => 220_084_952_445_124_204,
    }
}

/// The term of the quick series after term k, where `square` is the square of the angle.
#[inline(always)]
fn next_term(term: u64, square: u64, k: u64) -> u64
    requires { k < 2 * QUICK_PAIRS }
    ensures near { (t s : ℕ) → t ≤ 2 * UNIT → s ≤ 3 * UNIT → IsNearSquare s square
        → IsNearTerm t term
        → IsNearTerm (t * s / UNIT / ((2 * k + 2) * (2 * k + 3))) result }
    ensures bound { result ≤ term }
{
    high_half(term, high_half(square, inverse(k)))
}

/// The sine of an angle from 0 to 90 degrees, at most `quick_error` from the written one.
#[inline(always)]
pub fn quick_sine(n: u64) -> u64
    requires { n ≤ QUARTER_TURN }
    ensures near { IsQuickSine n result }
    ensures bound { result ≤ UNIT }
{
    let angle = quick_radians(n);
    let square = quick_square(n, angle);
    let mut term = angle;
    let mut sum = angle;
    for pair in 0..QUICK_PAIRS {
        let odd = next_term(term, square, 2 * pair);
        term = next_term(odd, square, 2 * pair + 1);
        sum = sum - odd + term;
    }
    sum.min(UNIT)
}
