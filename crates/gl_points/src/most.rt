ghost use Rattle.std.specs.Prelude.{◌≡◌, ◌≤◌, ◌*◌};
ghost use Rattle.gl_points.specs.Summary.{most_points_of_day, points_by_distance, points_by_time};
ghost use Rattle.gl_points.specs.Limits.{distance_limit, handicap_limit, point_limit};
ghost use Rattle.gl_points.specs.Worth.{worth};

use crate::frac::Frac;

/// The most points of any day.
const MOST_POINTS: u32 = 1_000;

/// The points that the greatest distance allows: 5 a kilometre, less 250.
fn by_distance(distance: &Frac) -> Frac
    requires num { distance.now.num ≤ distance_limit * handicap_limit }
    requires den { distance.now.den ≤ handicap_limit }
    ensures worth { worth result ≡ points_by_distance (worth distance.now) }
    ensures num { result.num ≤ distance_limit * handicap_limit }
    ensures den { result.den ≤ 200 * handicap_limit }
{
    Frac {
        num: distance.num.saturating_sub(50_000 * distance.den),
        den: 200 * distance.den,
    }
}

/// The points that the time of the fastest allows: 400 an hour, less 200.
fn by_time(time: u32) -> Frac
    ensures worth { worth result ≡ points_by_time time }
    ensures num { result.num ≤ time }
    ensures den { result.den ≡ 9 }
{
    Frac {
        num: u128::from(time.saturating_sub(1_800)),
        den: 9,
    }
}

/// The most points that the day gives.
#[tactic(auto, using(crate::proofs::Orders::at_most_trans))]
pub(crate) fn most_points(distance: &Frac, time: Option<u32>) -> Frac
    requires num { distance.now.num ≤ distance_limit * handicap_limit }
    requires den { distance.now.den ≤ handicap_limit }
    ensures most { worth result ≡ most_points_of_day (worth distance.now) time }
    ensures at_most { result.num ≤ point_limit * result.den }
    ensures den { result.den ≤ 200 * handicap_limit }
{
    let most = Frac::whole(MOST_POINTS).lesser(by_distance(distance));
    match time {
        Some(time) => most.lesser(by_time(time)),
        None => most,
    }
}
