ghost use Rattle.std.specs.Prelude.{◌≡◌, ◌+◌, ◌*◌, ◌/◌, ◌<◌, ◌≤◌, ◌++◌, OnOk};
ghost use Rattle.gl_demo.specs.Draws.{after};
ghost use Rattle.gl_demo.specs.Code.Place.{IsOnGrid};
ghost use Rattle.gl_demo.specs.Leg.{fix_place, leg_text, on_the_way};

use crate::draws::Draws;
use crate::line::push_line;
use crate::place::Place;
use std::alloc::AllocError;

/// How many numbers there are to draw from, of how far a coordinate of a fix is off the way.
const SPREAD: u32 = 200;

/// A leg of a flight, whose fixes are one second apart.
#[derive(Clone, Copy)]
pub struct Leg {
    pub from: Place,
    pub to: Place,
    pub fixes: u32,
    /// The second of the day of the first fix.
    pub begins: u32,
}

/// So many parts of a length, out of all its parts.
fn part_of(length: u32, parts: u32, all: u32) -> u32
    requires { parts < all }
    ensures value { result ≡ length * parts / all }
    ensures bound { result ≤ length }
{
    (u64::from(length) * u64::from(parts) / u64::from(all)) as u32
}

/// Where one is after so many parts of the way, out of all its parts.
fn along(from: u32, to: u32, parts: u32, all: u32) -> u32
    requires parts { parts < all }
    requires from { from ≤ 1_080_000_000 }
    requires to { to ≤ 1_080_000_000 }
    ensures value { result ≡ on_the_way from to parts all }
    ensures bound { result ≤ 1_080_000_000 }
{
    if from <= to {
        from + part_of(to - from, parts, all)
    } else {
        from - part_of(from - to, parts, all)
    }
}

impl Leg {
    ghost use Rattle.gl_demo.specs.Code.Place.{IsOnGrid};

    /// Where a fix is. Its latitude is drawn first.
    pub fn draw_fix(&self, draws: &mut Draws, fix: u32) -> Place
        requires fix { fix < self.now.fixes }
        requires from { IsOnGrid self.now.from }
        requires to { IsOnGrid self.now.to }
        ensures place { result ≡ fix_place self.now fix draws.old.value }
        ensures after { draws.new.value ≡ after 2 draws.old.value }
    {
        let latitude = along(self.from.latitude, self.to.latitude, fix, self.fixes);
        let longitude = along(self.from.longitude, self.to.longitude, fix, self.fixes);
        Place {
            latitude: latitude + draws.draw(SPREAD),
            longitude: longitude + draws.draw(SPREAD),
        }
    }
}

/// Appends the lines of a leg's fixes.
pub fn push_leg(text: &mut Vec<u8>, draws: &mut Draws, leg: &Leg) -> Result<(), AllocError>
    requires fits { leg.now.begins + leg.now.fixes ≤ 86_400 }
    requires from { IsOnGrid leg.now.from }
    requires to { IsOnGrid leg.now.to }
    ensures text { OnOk result
        (text.new.items ≡ text.old.items ++ leg_text leg.now draws.old.value) }
    ensures after { OnOk result (draws.new.value ≡ after (2 * leg.now.fixes) draws.old.value) }
{
    for fix in 0..leg.fixes {
        let place = leg.draw_fix(draws, fix);
        push_line(text, leg.begins + fix, place)?;
    }
    Ok(())
}
