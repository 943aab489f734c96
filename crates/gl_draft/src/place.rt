ghost use Rattle.std.specs.Prelude.{◌≡◌, ◌+◌, ◌≤◌, neg_ℤ};
ghost use Rattle.gl_sphere.specs.Range.{IsWithin};
ghost use Rattle.gl_sphere.specs.Sphere.{half_turn, quarter_turn};
ghost use Rattle.gl_draft.specs.Taken.{IsNear, IsNearPlace, IsOpposite, distance_of, opposite_longitude};

use gl_sphere::{Grid, HALF_TURN, dist, sq, vector};

/// A thousandth of a minute, in 1/100,000 minute.
const THOUSANDTH: u32 = 100;

/// The size at whole thousandths of a minute that is nearest to a size.
fn rounded_size(size: u32) -> u32
    requires { size ≤ half_turn }
    ensures half { size ≤ half_turn → result ≤ half_turn }
    ensures quarter { size ≤ quarter_turn → result ≤ quarter_turn }
    ensures from_below { result ≤ size + 50 }
    ensures from_above { size ≤ result + 50 }
{
    (size + THOUSANDTH / 2) / THOUSANDTH * THOUSANDTH
}

/// A latitude at whole thousandths of a minute.
fn rounded_lat(lat: i32) -> i32
    requires { IsWithin quarter_turn lat }
    ensures within { IsWithin quarter_turn result }
    ensures near { IsNear lat result }
{
    if lat < 0 {
        -(rounded_size((-lat) as u32) as i32)
    } else {
        rounded_size(lat as u32) as i32
    }
}

/// A longitude at whole thousandths of a minute.
fn rounded_lon(lon: i32) -> i32
    requires { IsWithin half_turn lon }
    ensures within { IsWithin half_turn result }
    ensures near { IsNear lon result }
{
    if lon < 0 {
        -(rounded_size((-lon) as u32) as i32)
    } else {
        rounded_size(lon as u32) as i32
    }
}

/// The place at whole thousandths of a minute that is nearest to a place.
pub fn rounded(place: Grid) -> Grid
    ensures { IsNearPlace place result }
{
    Grid {
        lat: rounded_lat(place.lat),
        lon: rounded_lon(place.lon),
    }
}

/// How far apart two places are, in centimetres.
pub fn distance(one: Grid, other: Grid) -> u64
    ensures { result ≡ distance_of one other }
{
    dist(sq(vector(one), vector(other)))
}

/// The longitude half a turn away.
fn opposite_longitude(lon: i32) -> i32
    requires { IsWithin half_turn lon }
    ensures value { result ≡ opposite_longitude lon }
    ensures bound { IsWithin half_turn result }
{
    if lon > 0 {
        lon - HALF_TURN as i32
    } else {
        lon + HALF_TURN as i32
    }
}

/// The place on the far side of the earth. Whoever flies on from a place on a straight way heads
/// for it.
pub fn opposite(place: Grid) -> Grid
    ensures { IsOpposite place result }
{
    Grid {
        lat: -place.lat,
        lon: opposite_longitude(place.lon),
    }
}
