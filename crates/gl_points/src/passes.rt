ghost use Rattle.std.specs.Prelude.{◌≡◌, ◌<◌, ◌≤◌, ◌*◌, filter, length, map};
ghost use Rattle.gl_points.specs.Summary.{least_handicap, finishers_of, launched_of, most_points_of_day};
ghost use Rattle.gl_points.specs.Figures.{IsGreatestFigure, handicapped_distance, handicapped_speed, is_far, is_fast, is_fastest, least_number};
ghost use Rattle.gl_points.specs.Limits.{distance_limit, handicap_limit, performance_limit, time_limit};
ghost use Rattle.gl_points.specs.Worth.{worth};

use crate::frac::Frac;
use crate::performance::Performance;

/// How many were launched.
pub(crate) fn launched(list: &[Performance]) -> u32
    requires { length list.now ≤ performance_limit }
    ensures { result ≡ length (launched_of list.now) }
{
    list.iter().filter(|p| p.launched).count() as u32
}

/// The least handicap of the launched.
fn least_of_launched(list: &[Performance]) -> Option<u32>
    ensures { result ≡ least_number (map (λ p. p.handicap) (launched_of list.now)) }
{
    list.iter().filter(|p| p.launched).map(|p| p.handicap).min()
}

/// The least handicap of the launched, or 0.
pub(crate) fn least_handicap(list: &[Performance]) -> u32
    ensures least { result ≡ least_handicap list.now }
    ensures at_most { result ≤ handicap_limit }
{
    least_of_launched(list).unwrap_or(0)
}

/// How many of the launched flew far.
pub(crate) fn far(list: &[Performance], least: u32) -> u32
    requires list { length list.now ≤ performance_limit }
    requires least { least ≤ handicap_limit }
    ensures { result ≡ length (filter (is_far least) (launched_of list.now)) }
{
    list.iter()
        .filter(|p| p.launched)
        .filter(|p| p.is_far(least))
        .count() as u32
}

/// How many finishers are fast.
pub(crate) fn fast(list: &[Performance], least: u32, greatest: &Frac) -> u32
    requires list { length list.now ≤ performance_limit }
    requires least { least ≤ handicap_limit }
    requires num { greatest.now.num ≤ distance_limit * handicap_limit }
    requires den { greatest.now.den ≤ handicap_limit * time_limit }
    ensures { result
        ≡ length (filter (is_fast least (worth greatest.now)) (finishers_of list.now)) }
{
    list.iter()
        .filter(|p| p.finished)
        .filter(|p| p.is_fast(least, greatest))
        .count() as u32
}

/// The least marking time of the finishers with the greatest speed.
pub(crate) fn time_of_fastest(list: &[Performance], least: u32, greatest: &Frac) -> Option<u32>
    requires least { least ≤ handicap_limit }
    requires num { greatest.now.num ≤ distance_limit * handicap_limit }
    requires den { greatest.now.den ≤ handicap_limit * time_limit }
    ensures { result
        ≡ least_number (map (λ p. p.seconds)
        (filter (is_fastest least (worth greatest.now)) (finishers_of list.now))) }
{
    list.iter()
        .filter(|p| p.finished)
        .filter(|p| p.is_fastest(least, greatest))
        .map(|p| p.seconds)
        .min()
}

/// The greatest handicapped distance of the launched, or 0.
pub(crate) fn greatest_distance(list: &[Performance], least: u32) -> Frac
    requires { least ≤ handicap_limit }
    ensures greatest { IsGreatestFigure (handicapped_distance least) (launched_of list.now)
        (worth result) }
    ensures num { result.num ≤ distance_limit * handicap_limit }
    ensures den { result.den ≤ handicap_limit }
{
    let mut greatest = Frac::ZERO;
    for p in list {
        if p.launched {
            greatest = greatest.greater(p.distance(least));
        }
    }
    greatest
}

/// The greatest handicapped speed of the finishers, or 0.
pub(crate) fn greatest_speed(list: &[Performance], least: u32) -> Frac
    requires { least ≤ handicap_limit }
    ensures greatest { IsGreatestFigure (handicapped_speed least) (finishers_of list.now)
        (worth result) }
    ensures num { result.num ≤ distance_limit * handicap_limit }
    ensures den { result.den ≤ handicap_limit * time_limit }
{
    let mut greatest = Frac::ZERO;
    for p in list {
        if p.finished {
            greatest = greatest.greater(p.speed(least));
        }
    }
    greatest
}
