ghost use Rattle.std.specs.Prelude.{◌≡◌, ℤ, ◌+◌, ◌*◌, ◌/◌, ◌^◌, ◌<◌, ◌≤◌, pos, unsigned_abs};
ghost use Rattle.gl_sphere.specs.Range.{IsWithin};
ghost use Rattle.gl_sphere.specs.Code.Series.{IsSummed};
ghost use Rattle.gl_sphere.specs.Sine.{half_turn_sine, quarter_sine};

use crate::quotient::{quotient, quotient_by_inverse};
use crate::series::Series;
use crate::sphere::{HALF_TURN, PI, QUARTER_TURN, UNIT};

/// How many pairs of terms the series of a sine has after its first term.
pub const PAIRS: u64 = 5;

/// 2^117 over `UNIT`, rounded down.
const INVERSE_UNIT: u64 = 16_615_349_947_311_448_411;

/// 2^117 over `UNIT` times (2k + 2)·(2k + 3), rounded down.
#[inline(always)]
fn inverse(k: u64) -> u64
    requires { k < 2 * PAIRS }
    ensures { result ≡ 2 ^ 117 / (UNIT * ((2 * k + 2) * (2 * k + 3))) }
{
    match k {
        0 => 2_769_224_991_218_574_735,
        1 => 830_767_497_365_572_420,
        2 => 395_603_570_174_082_105,
        3 => 230_768_749_268_214_561,
        4 => 151_048_635_884_649_531,
        5 => 106_508_653_508_406_720,
        6 => 79_120_714_034_816_421,
        7 => 61_085_845_394_527_383,
        8 => 48_582_894_582_782_012,
        _ => 39_560_357_017_408_210,
    }
}

/// The term of the series after term k, where `square` is the square of the angle.
#[inline(always)]
fn next_term(term: u64, square: u64, k: u64) -> u64
    requires term_in_range { term ≤ 2 * UNIT }
    requires square_in_range { square ≤ 3 * UNIT }
    requires k_in_range { k < 2 * PAIRS }
    ensures value { result ≡ term * square / UNIT / ((2 * k + 2) * (2 * k + 3)) }
    ensures bound { result ≤ term }
{
    let divisor = UNIT * ((2 * k + 2) * (2 * k + 3));
    quotient_by_inverse(term as u128 * square as u128, divisor, inverse(k))
}

/// The product of two numbers over `UNIT`, rounded down.
#[inline(always)]
pub fn over_unit(a: u64, b: u64) -> u64
    requires a_in_range { a ≤ 2 * UNIT }
    requires b_in_range { b ≤ 3 * UNIT }
    ensures { result ≡ a * b / UNIT }
{
    quotient_by_inverse(a as u128 * b as u128, UNIT, INVERSE_UNIT)
}

/// The angle from 0 to 90 degrees that has the sine of one from 0 to 180 degrees.
#[inline(always)]
pub fn quarter_angle(n: u64) -> u64
    requires { n ≤ HALF_TURN }
    ensures value { quarter_sine result ≡ half_turn_sine n }
    ensures bound { result ≤ QUARTER_TURN }
{
    if n <= QUARTER_TURN { n } else { HALF_TURN - n }
}

impl Series {
    /// The series of an angle, whatever its sign, with its first term alone.
    #[inline(always)]
    pub fn of(n: i64) -> Series
        requires { IsWithin HALF_TURN n }
        ensures { IsSummed n 0 result }
    {
        let angle = quarter_angle(n.unsigned_abs());
        let x = quotient(angle as u128 * PI as u128, HALF_TURN, 1);
        Series {
            square: over_unit(x, x),
            term: x,
            sum: x,
        }
    }

    /// The series with a further pair of terms, where so many pairs were added up before.
    #[inline(always)]
    pub fn with_pair(self, pair: u64) -> Series
        requires { pair < PAIRS }
        ensures { (n : ℤ) → IsSummed n pair self → IsSummed n (pair + 1) result }
    {
        let odd = next_term(self.term, self.square, 2 * pair);
        let even = next_term(odd, self.square, 2 * pair + 1);
        Series {
            square: self.square,
            term: even,
            sum: self.sum - odd + even,
        }
    }

    /// The sine of the angle without its sign, once all terms are added up.
    #[inline(always)]
    pub fn sine(self) -> u64
        ensures value { (n : ℤ) → IsSummed n PAIRS self
            → pos result ≡ half_turn_sine (unsigned_abs n) }
        ensures bound { result ≤ UNIT }
    {
        self.sum.min(UNIT)
    }
}
