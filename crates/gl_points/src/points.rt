ghost use Rattle.std.specs.Prelude.{◌≡◌, ◌<◌, ◌≤◌, ◌+◌, ◌-◌, ◌*◌, ◌^◌, IsTrue, if◌then◌else◌};
ghost use Rattle.gl_points.specs.Code.Fractions.{IsWithinDistance, IsWithinSpeed, speed_product_limit};
ghost use Rattle.gl_points.specs.Figures.{handicapped_distance};
ghost use Rattle.gl_points.specs.Fraction.{IsNearest, IsSame, ◌÷◌, ◌⊗◌, ◌⊘◌, rounded};
ghost use Rattle.gl_points.specs.Laws.{IsAheadOfShorter, IsAheadOfSlower, IsBelowFinishers, IsSameInAnyOrder};
ghost use Rattle.gl_points.specs.Limits.{handicap_limit, performance_limit, point_limit};
ghost use Rattle.gl_points.specs.Points.{IsPartOf, completion_factor, day_factor, exact_points, points_earned, points_of_finisher, points_of_outlanding, share_of_distance, share_of_speed};
ghost use Rattle.gl_points.specs.Worth.{worth};

use crate::frac::Frac;
use crate::performance::Performance;
use crate::summary::Summary;

/// How much the day counts: the factor by how many flew far times that by how many of them were
/// fast, at most 1.
#[tactic(auto, using(crate::proofs::Shares::factor_same))]
fn factor(day: &Summary) -> Frac
    requires { 1 ≤ day.now.far }
    ensures same { IsSame (worth result) (day_factor day.now ⊗ completion_factor day.now) }
    ensures at_most_one { result.num ≤ result.den }
    ensures den { result.den ≤ 5 * performance_limit }
{
    Frac {
        num: u128::from((5 * day.far).min(6 * day.fast + 3 * day.far)),
        den: u128::from((4 * day.launched).max(5 * day.far)),
    }
}

/// How far a finisher's speed is on the way from two thirds of the greatest to the greatest.
#[tactic(auto, unfolding(crate::specs::Points::share_of_speed))]
fn speed_share(day: &Summary, performance: &Performance) -> Frac
    requires finished { IsTrue performance.now.finished }
    requires at_most { IsWithinSpeed day.now performance.now }
    ensures same { IsSame (worth result) (share_of_speed day.now performance.now) }
    ensures at_most_one { result.num ≤ result.den }
    ensures den { result.den ≤ speed_product_limit }
{
    if day.speed.num == 0 {
        return Frac::ZERO;
    }
    let speed = performance.speed(day.handicap);
    let reached = speed.num * day.speed.den;
    let greatest = speed.den * day.speed.num;
    Frac {
        num: (3 * reached).saturating_sub(2 * greatest),
        den: greatest,
    }
}

/// A distance as a share of the greatest.
fn distance_share(day: &Summary, performance: &Performance) -> Frac
    requires some { 0 < day.now.distance.num }
    requires at_most { IsWithinDistance day.now performance.now }
    ensures worth { worth result
        ≡ handicapped_distance day.now.handicap performance.now ⊘ worth day.now.distance }
    ensures at_most_one { result.num ≤ result.den }
    ensures den { result.den ≤ speed_product_limit }
{
    let distance = performance.distance(day.handicap);
    Frac {
        num: distance.num * day.distance.den,
        den: distance.den * day.distance.num,
    }
}

/// The part of the most points that is for distance, and a share of the part that is for speed.
fn whole_distance_and(share: &Frac, day: &Summary) -> Frac
    requires launched { 1 ≤ day.now.launched }
    requires at_most_one { share.now.num ≤ share.now.den }
    requires den { share.now.den ≤ speed_product_limit }
    ensures worth { worth result
        ≡ (2 * day.now.fast * share.now.num
        + (3 * day.now.launched - 2 * day.now.fast) * share.now.den)
        ÷ (3 * day.now.launched * share.now.den) }
    ensures at_most_one { result.num ≤ result.den }
    ensures den { result.den ≤ 3 * performance_limit * speed_product_limit }
{
    let whole = u128::from(3 * day.launched);
    let for_speed = u128::from(2 * day.fast);
    Frac {
        num: for_speed * share.num + (whole - for_speed) * share.den,
        den: whole * share.den,
    }
}

/// A share of the part of the most points that is for distance.
fn of_distance(share: &Frac, day: &Summary) -> Frac
    requires launched { 1 ≤ day.now.launched }
    requires at_most_one { share.now.num ≤ share.now.den }
    requires den { share.now.den ≤ speed_product_limit }
    ensures worth { worth result
        ≡ ((3 * day.now.launched - 2 * day.now.fast) * share.now.num)
        ÷ (3 * day.now.launched * share.now.den) }
    ensures at_most_one { result.num ≤ result.den }
    ensures den { result.den ≤ 3 * performance_limit * speed_product_limit }
{
    Frac {
        num: u128::from(3 * day.launched - 2 * day.fast) * share.num,
        den: u128::from(3 * day.launched) * share.den,
    }
}

/// A finisher's part of the most points.
fn finisher_part(day: &Summary, performance: &Performance) -> Frac
    requires launched { 1 ≤ day.now.launched }
    requires finished { IsTrue performance.now.finished }
    requires at_most { IsWithinSpeed day.now performance.now }
    ensures same { IsSame (worth day.now.most ⊗ worth result)
        (points_of_finisher day.now performance.now) }
    ensures at_most_one { result.num ≤ result.den }
    ensures den { result.den ≤ 3 * performance_limit * speed_product_limit }
{
    whole_distance_and(&speed_share(day, performance), day)
}

/// An outlanding's part of the most points.
fn outlanding_part(day: &Summary, performance: &Performance) -> Frac
    requires launched { 1 ≤ day.now.launched }
    requires some { 0 < day.now.distance.num }
    requires at_most { IsWithinDistance day.now performance.now }
    ensures same { IsSame (worth day.now.most ⊗ worth result)
        (points_of_outlanding day.now performance.now) }
    ensures at_most_one { result.num ≤ result.den }
    ensures den { result.den ≤ 3 * performance_limit * speed_product_limit }
{
    of_distance(&distance_share(day, performance), day)
}

/// One's part of the most points.
fn part(day: &Summary, performance: &Performance) -> Frac
    requires launched { 1 ≤ day.now.launched }
    requires some { 0 < day.now.distance.num }
    requires distance { IsWithinDistance day.now performance.now }
    requires speed { IsTrue performance.now.finished
        → IsWithinSpeed day.now performance.now }
    ensures same { IsSame (worth day.now.most ⊗ worth result)
        (if performance.now.finished
        then points_of_finisher day.now performance.now
        else points_of_outlanding day.now performance.now) }
    ensures at_most_one { result.num ≤ result.den }
    ensures den { result.den ≤ 3 * performance_limit * speed_product_limit }
{
    if performance.finished {
        finisher_part(day, performance)
    } else {
        outlanding_part(day, performance)
    }
}

/// The product of the day's factors, its most points and one's part of them. Numerator and
/// denominator stay below 2^114.
#[tactic(auto, using(crate::proofs::Parts::three_low, crate::proofs::Parts::three_parts))]
fn product(factor: &Frac, most: &Frac, part: &Frac) -> Frac
    requires factor { factor.now.num ≤ factor.now.den }
    requires factor_den { factor.now.den ≤ 5 * performance_limit }
    requires most { most.now.num ≤ point_limit * most.now.den }
    requires most_den { most.now.den ≤ 200 * handicap_limit }
    requires part { part.now.num ≤ part.now.den }
    requires part_den { part.now.den ≤ 3 * performance_limit * speed_product_limit }
    ensures worth { worth result ≡ worth factor.now ⊗ worth most.now ⊗ worth part.now }
    ensures at_most { result.num ≤ point_limit * result.den }
    ensures num_room { result.num < 2 ^ 114 }
    ensures den_room { result.den < 2 ^ 114 }
{
    Frac {
        num: factor.num * most.num * part.num,
        den: factor.den * most.den * part.den,
    }
}

/// What one who was launched has of the day's points, on a day on which somebody flew far: of the
/// points for speed, if the task was finished, and else of the points for distance.
pub fn share(day: &Summary, performance: &Performance) -> Frac
    requires part { IsPartOf day.now performance.now }
    requires launched { IsTrue performance.now.launched }
    requires far { 1 ≤ day.now.far }
    ensures { IsSame (worth result)
        (if performance.now.finished
        then share_of_speed day.now performance.now
        else share_of_distance day.now performance.now) }
{
    if performance.finished {
        speed_share(day, performance)
    } else {
        distance_share(day, performance)
    }
}

/// The points of one who was launched, on a day on which somebody flew far, before they are
/// rounded.
pub fn exact(day: &Summary, performance: &Performance) -> Frac
    requires part { IsPartOf day.now performance.now }
    requires launched { IsTrue performance.now.launched }
    requires far { 1 ≤ day.now.far }
    ensures same { IsSame (worth result) (exact_points day.now performance.now) }
    ensures at_most { result.num ≤ point_limit * result.den }
    ensures den_room { result.den < 2 ^ 114 }
{
    product(&factor(day), &day.most, &part(day, performance))
}

/// The points of one who was launched, on a day on which somebody flew far.
fn earned(day: &Summary, performance: &Performance) -> u32
    requires part { IsPartOf day.now performance.now }
    requires launched { IsTrue performance.now.launched }
    requires far { 1 ≤ day.now.far }
    ensures points { result ≡ rounded (exact_points day.now performance.now) }
    ensures at_most { result ≤ point_limit }
{
    exact(day, performance).rounded()
}

/// The points of one performance of a day, before penalties: the exact fraction, rounded to the
/// nearest whole number and at a half to the greater.
#[tactic(auto, unfolding(crate::specs::Points::points_earned))]
pub fn score(day: &Summary, performance: &Performance) -> u32
    requires { IsPartOf day.now performance.now }
    ensures points { result ≡ points_earned day.now performance.now }
    ensures at_most { result ≤ point_limit }
    ensures nearest { IsTrue performance.now.launched → 1 ≤ day.now.far
        → IsNearest (exact_points day.now performance.now) result }

    // What follows is of all performances of the day.
    ensures below_finishers { IsBelowFinishers day.now performance.now }
    ensures ahead_of_slower { IsAheadOfSlower day.now performance.now }
    ensures ahead_of_shorter { IsAheadOfShorter day.now performance.now }
    ensures any_order { IsSameInAnyOrder day.now performance.now }
{
    if !performance.launched || day.far == 0 {
        return 0;
    }
    earned(day, performance)
}

/// Points less a penalty, not below 0.
pub fn net(points: u32, penalty: u32) -> u32
    ensures { result ≡ points - penalty }
{
    points.saturating_sub(penalty)
}
