ghost use Rattle.std.specs.Prelude.{◌≤◌, IsTrue};
ghost use Rattle.gl_points.specs.Limits.{distance_limit, handicap_limit, time_limit};

use crate::frac::Frac;

/// What counts of one entrant's day.
#[derive(Clone, Copy, Debug, PartialEq, Eq)]
pub struct Performance {
    /// Whether the entrant was launched.
    pub launched: bool,
    /// Whether the task was finished.
    pub finished: bool,
    /// The marking distance in metres, at most 2,000,000.
    pub metres: u32,
    /// The marking time in seconds, 1 to 100,000 where the task was finished.
    pub seconds: u32,
    /// The handicap in thousandths, 1 to 2,000.
    pub handicap: u32,
    pub ghost metres_at_most: { metres ≤ distance_limit },
    pub ghost seconds_at_most: { seconds ≤ time_limit },
    pub ghost seconds_at_least: { IsTrue finished → 1 ≤ seconds },
    pub ghost handicap_at_least: { 1 ≤ handicap },
    pub ghost handicap_at_most: { handicap ≤ handicap_limit },
    pub ghost launched_to_finish: { IsTrue finished → IsTrue launched },
}

/// A far distance, in metres.
const FAR: u32 = 100_000;

impl Performance {
    ghost use Rattle.std.specs.Prelude.{◌≡◌, ◌<◌, ◌*◌};
    ghost use Rattle.gl_points.specs.Figures.{handicapped_distance, handicapped_speed, is_far, is_fast, is_fastest};
    ghost use Rattle.gl_points.specs.Worth.{worth};

    /// The distance as the least handicap would have flown it, in metres.
    pub(crate) fn distance(&self, least: u32) -> Frac
        requires { least ≤ handicap_limit }
        ensures worth { worth result ≡ handicapped_distance least self.now }
        ensures num { result.num ≤ distance_limit * handicap_limit }
        ensures den { result.den ≤ handicap_limit }
    {
        Frac {
            num: u128::from(self.metres) * u128::from(least),
            den: u128::from(self.handicap),
        }
    }

    /// That distance by the marking time, in metres per second.
    pub(crate) fn speed(&self, least: u32) -> Frac
        requires least { least ≤ handicap_limit }
        requires finished { IsTrue self.now.finished }
        ensures worth { worth result ≡ handicapped_speed least self.now }
        ensures num { result.num ≤ distance_limit * handicap_limit }
        ensures den { result.den ≤ handicap_limit * time_limit }
    {
        Frac {
            num: u128::from(self.metres) * u128::from(least),
            den: u128::from(self.handicap) * u128::from(self.seconds),
        }
    }

    /// Whether the distance is far: 100 km or more.
    pub(crate) fn is_far(&self, least: u32) -> bool
        requires { least ≤ handicap_limit }
        ensures { result ≡ is_far least self.now }
    {
        Frac::whole(FAR).is_at_most(&self.distance(least))
    }

    /// Whether the speed is fast: above two thirds of the greatest.
    pub(crate) fn is_fast(&self, least: u32, greatest: &Frac) -> bool
        requires finished { IsTrue self.now.finished }
        requires least { least ≤ handicap_limit }
        requires num { greatest.now.num ≤ distance_limit * handicap_limit }
        requires den { greatest.now.den ≤ handicap_limit * time_limit }
        ensures { result ≡ is_fast least (worth greatest.now) self.now }
    {
        !self.speed(least).is_at_most(&greatest.two_thirds())
    }

    /// Whether the speed is the greatest.
    pub(crate) fn is_fastest(&self, least: u32, greatest: &Frac) -> bool
        requires finished { IsTrue self.now.finished }
        requires least { least ≤ handicap_limit }
        requires num { greatest.now.num ≤ distance_limit * handicap_limit }
        requires den { greatest.now.den ≤ handicap_limit * time_limit }
        ensures { result ≡ is_fastest least (worth greatest.now) self.now }
    {
        self.speed(least).is_same(greatest)
    }
}
