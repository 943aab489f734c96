ghost use Rattle.std.specs.Prelude.{◌<◌, ◌≤◌, length};
ghost use Rattle.gl_near.specs.Pairing.{AreRising};

use gl_goal::Hulls;
use gl_sphere::Vec3;

/// Two flights. A pair of their fixes fits where the seconds differ by at most `apart`.
#[derive(Debug, Drop)]
pub struct TwoFlights {
    pub(crate) one: Hulls,
    pub(crate) other: Hulls,
    pub(crate) apart: u32,
    pub ghost some_fix: { 0 < length one },
    pub ghost most_fixes: { length one ≤ 90_000 },
    pub ghost rising: { AreRising one },
    pub ghost some_other: { 0 < length other },
    pub ghost most_others: { length other ≤ 90_000 },
    pub ghost others_rising: { AreRising other },
}

/// A flight and a place, which is named by the number 0. Each fix fits.
#[derive(Debug, Drop)]
pub struct FlightAndPlace {
    pub(crate) flight: Hulls,
    pub(crate) point: Vec3,
    pub ghost some_fix: { 0 < length flight },
    pub ghost most_fixes: { length flight ≤ 90_000 },
}

/// The pairs of which the nearest is looked for: of a fix of a flight, and of a fix of another
/// flight, or a place.
#[derive(Debug, Drop)]
pub enum Pairs {
    Two(TwoFlights),
    One(FlightAndPlace),
}
