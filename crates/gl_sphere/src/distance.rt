ghost use Rattle.std.specs.Prelude.{◌≡◌, ℕ, ◌+◌, ◌*◌, ◌<◌, ◌≤◌};
ghost use Rattle.gl_sphere.specs.Distance.{squared_gap, squared_chord, second_term_of, third_term_of, fourth_term_of, arc_over, written_distance};
ghost use Rattle.gl_sphere.specs.Range.{IsWithin};

use crate::place::Vec3;
use crate::quotient::quotient;
use crate::sphere::{GREATEST_DISTANCE, GREATEST_SQUARE, RADIUS};
use crate::square_root::root;

/// The square of the radius in kilometres. The square of the radius in centimetres is 10^10 times
/// it.
const SQUARE_KILOMETRES: u64 = 6_371 * 6_371;

/// The third term of the arc's series is 0 for a chord that is shorter, and so is the fourth.
const THIRD_TERM_FROM: u64 = 32_000_000;

/// The fourth term of the arc's series is 0 for a chord that is shorter.
const FOURTH_TERM_FROM: u64 = 99_000_000;

/// The squared length of the chord between two points, in square centimetres: the sum of the three
/// squared differences.
#[tactic(auto, unfolding(crate::specs::Distance::squared_chord))]
pub fn sq(a: Vec3, b: Vec3) -> u64
    ensures value { result ≡ squared_chord a b }
    ensures bound { result ≤ GREATEST_SQUARE }
{
    square_of_gap(a.x, b.x) + square_of_gap(a.y, b.y) + square_of_gap(a.z, b.z)
}

/// The square of the difference of two components.
fn square_of_gap(a: i32, b: i32) -> u64
    requires a_in_range { IsWithin RADIUS a }
    requires b_in_range { IsWithin RADIUS b }
    ensures value { result ≡ squared_gap a b }
    ensures bound { 3 * result ≤ GREATEST_SQUARE }
{
    let gap = a.abs_diff(b) as u64;
    gap * gap
}

/// The written distance along the surface, in centimetres, of two points whose squared chord is
/// `q`.
///
/// It never falls where the squared chord grows.
pub fn dist(q: u64) -> u64
    requires { q ≤ GREATEST_SQUARE }
    ensures value { result ≡ written_distance q }
    ensures bound { result ≤ GREATEST_DISTANCE }
    ensures from_below { (r : ℕ) → r ≤ q → written_distance r ≤ result }
    ensures to_above { (r : ℕ) → q ≤ r → result ≤ written_distance r }
{
    arc(root(q))
}

/// The arc over a chord, by as many terms of its series as aren't 0.
fn arc(chord: u64) -> u64
    requires { chord * chord ≤ GREATEST_SQUARE }
    ensures value { result ≡ arc_over chord }
    ensures bound { result ≤ GREATEST_DISTANCE }
{
    if chord < THIRD_TERM_FROM {
        return chord + second_term_of_short(chord);
    }
    let second = second_term(chord);
    let third = third_term(chord, second);
    if chord < FOURTH_TERM_FROM {
        return chord + second + third;
    }
    chord + second + third + fourth_term(chord, third)
}

/// The divisor is 24 times the square of the radius: 24·10^10 is 2^13·29,296,875.
fn second_term_of_short(chord: u64) -> u64
    requires { chord < THIRD_TERM_FROM }
    ensures { result ≡ second_term_of chord }
{
    let cube = chord as u128 * (chord * chord) as u128;
    (cube >> 13) as u64 / (29_296_875 * SQUARE_KILOMETRES)
}

/// The divisor is 24 times the square of the radius: 24·10^10 is 2,500,000,000·96.
fn second_term(chord: u64) -> u64
    requires { chord * chord ≤ GREATEST_SQUARE }
    ensures { result ≡ second_term_of chord }
{
    let cube = chord as u128 * (chord * chord) as u128;
    quotient(cube, 2_500_000_000, 96 * SQUARE_KILOMETRES)
}

/// The divisor is 80 times the square of the radius: 80·10^10 is 3,125,000,000·256.
fn third_term(chord: u64, second: u64) -> u64
    requires chord_in_range { chord * chord ≤ GREATEST_SQUARE }
    requires second_is { second ≡ second_term_of chord }
    ensures { result ≡ third_term_of chord }
{
    let product = (9 * second) as u128 * (chord * chord) as u128;
    quotient(product, 3_125_000_000, 256 * SQUARE_KILOMETRES)
}

/// The divisor is 168 times the square of the radius, and 25 of it goes into the factor: 168·10^10
/// is 25·3,200,000,000·21.
fn fourth_term(chord: u64, third: u64) -> u64
    requires chord_in_range { chord * chord ≤ GREATEST_SQUARE }
    requires third_is { third ≡ third_term_of chord }
    ensures { result ≡ fourth_term_of chord }
{
    let product = third as u128 * (chord * chord) as u128;
    quotient(product, 3_200_000_000, 21 * SQUARE_KILOMETRES)
}
