ghost use Rattle.std.specs.Prelude.{◌≤◌, length};
ghost use Rattle.gl_points.specs.Summary.{IsSummaryOf};
ghost use Rattle.gl_points.specs.Limits.{performance_limit};

use crate::most::most_points;
use crate::passes::{
    far, fast, greatest_distance, greatest_speed, launched, least_handicap, time_of_fastest,
};
use crate::performance::Performance;
use crate::summary::Summary;

/// The figures of a day, from the performances of all entrants.
#[tactic(auto, using(crate::proofs::Counts::filter_low, crate::proofs::Counts::fast_launched))]
pub fn day(list: &[Performance]) -> Summary
    requires { length list.now ≤ performance_limit }
    ensures { IsSummaryOf list.now result }
{
    let handicap = least_handicap(list);
    let distance = greatest_distance(list, handicap);
    let speed = greatest_speed(list, handicap);
    let time = time_of_fastest(list, handicap, &speed);
    Summary {
        launched: launched(list),
        far: far(list, handicap),
        fast: fast(list, handicap, &speed),
        handicap,
        distance,
        speed,
        time,
        most: most_points(&distance, time),
    }
}
