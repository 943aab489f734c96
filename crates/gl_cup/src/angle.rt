ghost use Rattle.std.specs.Prelude.{◌≡◌, ◌-◌, ◌*◌, ◌^◌, ◌<◌, ◌≤◌, length, IfSome, option_map};
ghost use Rattle.gl_sphere.specs.PlaceText.{place_of};
ghost use Rattle.gl_sphere.specs.Range.{IsWithin};
ghost use Rattle.gl_sphere.specs.Sphere.{half_turn, quarter_turn};
ghost use Rattle.gl_cup.specs.Angle.{angle_in, angle_of, latitude_of, longitude_of, place_by, size_of};

use gl_sphere::{Grid, HALF_TURN, QUARTER_TURN, signed};
use gl_text::read_digits;

/// A degree and a minute in 1/100,000 minute.
const DEGREE: u32 = 6_000_000;

const MINUTE: u32 = 100_000;

/// How many hundred thousandths the last of three to five decimals stands for.
fn weight(decimals: usize) -> u32
    requires least { 3 ≤ decimals }
    requires most { decimals ≤ 5 }
    ensures value { result ≡ 10 ^ (5 - decimals) }
    ensures bound { 10 ^ decimals * result ≡ 100_000 }
{
    match decimals {
        3 => 100,
        4 => 10,
        _ => 1,
    }
}

/// The size of an angle, where the minutes are below 60 and the angle isn't past the limit.
#[tactic(auto, unfolding(crate::specs::Angle::size_of))]
fn size_of(limit: u32, degrees: u32, minutes: u32, decimals: u32) -> Option<u32>
    requires degrees { degrees < 1_000 }
    requires minutes { minutes < 100 }
    requires decimals { decimals < 100_000 }
    ensures value { result ≡ size_of limit degrees minutes decimals }
    ensures bound { IfSome result (λ size. size ≤ limit) }
{
    if minutes >= 60 || degrees > 180 {
        return None;
    }
    let size = degrees * DEGREE + minutes * MINUTE + decimals;
    if size <= limit { Some(size) } else { None }
}

/// The size of an angle by its degrees, its minutes and their decimals.
#[tactic(auto, unfolding(crate::specs::Angle::angle_in))]
fn angle_in(limit: u32, degrees: &[u8], minutes: &[u8], decimals: &[u8]) -> Option<u32>
    requires degrees { length degrees.now ≤ 3 }
    requires minutes { length minutes.now ≡ 2 }
    ensures value { result ≡ angle_in limit degrees.now minutes.now decimals.now }
    ensures bound { IfSome result (λ size. size ≤ limit) }
{
    if decimals.len() < 3 || decimals.len() > 5 {
        return None;
    }
    let degrees = read_digits(degrees)?;
    let minutes = read_digits(minutes)?;
    let rest = read_digits(decimals)?;
    size_of(limit, degrees, minutes, rest * weight(decimals.len()))
}

/// The size of an angle: so many digits of degrees, two of minutes, a point and three to five more.
#[tactic(auto, unfolding(crate::specs::Angle::angle_of))]
fn angle_of(limit: u32, digits: usize, text: &[u8]) -> Option<u32>
    requires { digits ≤ 3 }
    ensures value { result ≡ angle_of limit digits text.now }
    ensures bound { IfSome result (λ size. size ≤ limit) }
{
    if text.len() < digits + 3 || text[digits + 2] != b'.' {
        return None;
    }
    angle_in(
        limit,
        &text[..digits],
        &text[digits..digits + 2],
        &text[digits + 3..],
    )
}

/// The latitude in 1/100,000 minute, north positive, that `DDMM.mmm` and `N` or `S` say.
#[tactic(auto, unfolding(crate::specs::Angle::latitude_of))]
fn read_latitude(text: &[u8]) -> Option<i32>
    ensures value { result ≡ latitude_of text.now }
    ensures bound { IfSome result (IsWithin quarter_turn) }
{
    if text.is_empty() {
        return None;
    }
    let last = text.len() - 1;
    let size = angle_of(QUARTER_TURN as u32, 2, &text[..last])?;
    signed(b'N', b'S', text[last], size)
}

/// The longitude in 1/100,000 minute, east positive, that `DDDMM.mmm` and `E` or `W` say.
#[tactic(auto, unfolding(crate::specs::Angle::longitude_of))]
fn read_longitude(text: &[u8]) -> Option<i32>
    ensures value { result ≡ longitude_of text.now }
    ensures bound { IfSome result (IsWithin half_turn) }
{
    if text.is_empty() {
        return None;
    }
    let last = text.len() - 1;
    let size = angle_of(HALF_TURN as u32, 3, &text[..last])?;
    signed(b'E', b'W', text[last], size)
}

/// The place that a latitude and a longitude say.
pub fn read_place(lat: &[u8], lon: &[u8]) -> Option<Grid>
    ensures { option_map place_of result ≡ place_by lat.now lon.now }
{
    let lat = read_latitude(lat)?;
    let lon = read_longitude(lon)?;
    Some(Grid { lat, lon })
}
