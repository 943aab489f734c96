ghost use Rattle.std.specs.Prelude.{◌≤◌, ◌<◌, length, Some};
ghost use Rattle.gl_near.specs.Pairing.{IsLeast, IsReached, place};

use crate::found::NearBest;
use gl_igc::Fix;
use gl_sphere::{Vec3, dist, sq};

/// A fix of a flight to which none is nearer to a place, found without boxes: its distance and its
/// number. The place has the number 0.
pub fn nearest_fix(flight: &[Fix], point: Vec3) -> NearBest
    requires some { 0 < length flight.now }
    requires most { length flight.now ≤ 90_000 }
    ensures reached { IsReached (place flight.now point) result.total result.first result.second }
    ensures least { IsLeast (place flight.now point) (Some result.total) }
{
    let mut first = 0;
    let mut least = sq(flight[0].at, point);
    for number in 1..flight.len() {
        let square = sq(flight[number].at, point);
        if square < least {
            first = number as u32;
            least = square;
        }
    }
    NearBest {
        total: dist(least),
        first,
        second: 0,
    }
}
