ghost use Rattle.std.specs.Prelude.{◌≡◌, ◌≤◌};
ghost use Rattle.gl_demo.specs.Draws.{after, drawn};
ghost use Rattle.gl_demo.specs.Place.{moved, moved_place};
ghost use Rattle.gl_demo.specs.Code.Place.{HasRoom, IsOnGrid};

use crate::draws::Draws;

/// How many offsets there are to draw from.
const OFFSETS: u32 = 12_001;

/// How far apart two offsets are.
const STEP: u32 = 100;

/// The offset that goes furthest down, without its sign.
const FURTHEST_DOWN: u32 = 600_000;

/// A place of the grid, in numbers of which a degree has 6,000,000.
#[derive(Clone, Copy, Debug, PartialEq, Eq)]
pub struct Place {
    pub latitude: u32,
    pub longitude: u32,
}

/// The coordinate moved by a drawn offset.
fn move_coordinate(draws: &mut Draws, coordinate: u32) -> u32
    requires least { 600_000 ≤ coordinate }
    requires most { coordinate ≤ 1_000_000_000 }
    ensures moved { result ≡ moved coordinate (drawn draws.old.value 0 12_001) }
    ensures bound { result ≤ 1_080_000_000 }
    ensures after { draws.new.value ≡ after 1 draws.old.value }
{
    coordinate + STEP * draws.draw(OFFSETS) - FURTHEST_DOWN
}

/// The place moved by drawn offsets, first of latitude and then of longitude.
pub fn move_place(draws: &mut Draws, place: Place) -> Place
    requires { HasRoom place }
    ensures moved { result ≡ moved_place place draws.old.value }
    ensures bound { IsOnGrid result }
    ensures after { draws.new.value ≡ after 2 draws.old.value }
{
    let latitude = move_coordinate(draws, place.latitude);
    let longitude = move_coordinate(draws, place.longitude);
    Place {
        latitude,
        longitude,
    }
}
