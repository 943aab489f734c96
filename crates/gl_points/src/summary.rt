ghost use Rattle.std.specs.Prelude.{◌≤◌, ◌*◌};
ghost use Rattle.gl_points.specs.Limits.{distance_limit, handicap_limit, performance_limit, point_limit, time_limit};

use crate::frac::Frac;

/// What the performances of a day give together.
#[derive(Clone, Copy, Debug)]
pub struct Summary {
    /// How many were launched, at most 256.
    pub launched: u32,
    /// How many of the launched flew a handicapped distance of 100 km or more.
    pub far: u32,
    /// How many finishers had a handicapped speed above two thirds of the greatest.
    pub fast: u32,
    /// The least handicap of the launched in thousandths, 0 where nobody was launched.
    pub handicap: u32,
    /// The greatest handicapped distance of the launched in metres, 0 where nobody was launched.
    pub distance: Frac,
    /// The greatest handicapped speed of the finishers in metres per second, 0 where nobody
    /// finished.
    pub speed: Frac,
    /// The least marking time of the finishers with that speed, in seconds.
    pub time: Option<u32>,
    /// The most points that the day gives, at most 1,000.
    pub most: Frac,
    pub ghost launched_at_most: { launched ≤ performance_limit },
    pub ghost far_at_most: { far ≤ launched },
    pub ghost fast_at_most: { fast ≤ launched },
    pub ghost handicap_at_most: { handicap ≤ handicap_limit },
    pub ghost distance_num_at_most: { distance.num ≤ distance_limit * handicap_limit },
    pub ghost distance_den_at_most: { distance.den ≤ handicap_limit },
    pub ghost speed_num_at_most: { speed.num ≤ distance_limit * handicap_limit },
    pub ghost speed_den_at_most: { speed.den ≤ handicap_limit * time_limit },
    pub ghost most_at_most: { most.num ≤ point_limit * most.den },
    pub ghost most_den_at_most: { most.den ≤ 200 * handicap_limit },
}
