ghost use Rattle.std.specs.Prelude.{◌≡◌, ◌<◌, ◌≤◌, length, option_map, IfSome};
ghost use Rattle.gl_sphere.specs.Range.{IsWithin};
ghost use Rattle.gl_sphere.specs.PlaceText.{place_of};
ghost use Rattle.gl_airspace.specs.Line.{angle_at, latitude_at, longitude_at, minutes_at, place_of_text, seconds_at, signed_at};
ghost use Rattle.gl_airspace.specs.Code.Said.{seen};

use crate::front::{after_space, number_at, thousandths_at};
use gl_sphere::{Grid, HALF_TURN, QUARTER_TURN};

/// A degree, a minute and a thousandth of a minute, in 1/100,000 minute.
const DEGREE: u64 = 6_000_000;

const MINUTE: u64 = 100_000;

const THOUSANDTH: u64 = 100;

/// The thousandths of a minute in a degree, or of a second in a minute.
const SIXTY: u32 = 60_000;

/// The size of an angle of whole degrees whose minutes a text writes.
#[tactic(auto, unfolding(crate::specs::Line::minutes_at))]
fn minutes_at(degrees: u32, text: &[u8]) -> Option<(u64, &[u8])>
    requires { degrees < 1_000 }
    ensures value { option_map seen result ≡ minutes_at degrees text.now }
{
    let (minutes, rest) = thousandths_at(2, text)?;
    if minutes < SIXTY {
        let size = u64::from(degrees) * DEGREE + u64::from(minutes) * THOUSANDTH;
        Some((size, rest))
    } else {
        None
    }
}

/// The size of an angle of whole degrees and minutes whose seconds a text writes.
#[tactic(auto, unfolding(crate::specs::Line::seconds_at))]
fn seconds_at(degrees: u32, minutes: u32, text: &[u8]) -> Option<(u64, &[u8])>
    requires degrees { degrees < 1_000 }
    requires minutes { minutes < 100 }
    ensures value { option_map seen result ≡ seconds_at degrees minutes text.now }
{
    let (seconds, rest) = thousandths_at(2, text)?;
    if minutes < 60 && seconds < SIXTY {
        let whole = u64::from(degrees) * DEGREE + u64::from(minutes) * MINUTE;
        Some((whole + u64::from(seconds) * 5 / 3, rest))
    } else {
        None
    }
}

/// The size of an angle in 1/100,000 minute that degrees, minutes and perhaps seconds write, the
/// last of which may have decimals, and what follows it.
#[tactic(auto, unfolding(crate::specs::Line::angle_at, crate::specs::Line::after))]
fn angle_at(text: &[u8]) -> Option<(u64, &[u8])>
    ensures value { option_map seen result ≡ angle_at text.now }
{
    let (degrees, rest) = number_at(3, text)?;
    if !rest.starts_with(b":") {
        return None;
    }
    let rest = &rest[1..];
    let (minutes, behind) = number_at(2, rest)?;
    if behind.starts_with(b":") {
        seconds_at(degrees, minutes, &behind[1..])
    } else {
        minutes_at(degrees, rest)
    }
}

/// The angle of a size, by the letter that follows it after a space or none: plus for the first
/// letter, minus for the second; `None` past the limit.
#[tactic(auto, unfolding(crate::specs::Line::signed_at))]
fn signed_at<'a>(
    limit: u64,
    plus: &[u8],
    minus: &[u8],
    size: u64,
    rest: &'a [u8],
) -> Option<(i32, &'a [u8])>
    requires limit { limit ≤ 1_080_000_000 }
    requires plus { length plus.now ≡ 1 }
    requires minus { length minus.now ≡ 1 }
    ensures value { option_map seen result
        ≡ signed_at limit plus.now minus.now (size, rest.entry.now) }
    ensures bound { IfSome result (λ angle. IsWithin limit angle.0) }
{
    if size > limit {
        return None;
    }
    let letter = after_space(rest);
    if letter.starts_with(plus) {
        Some((size as i32, &letter[1..]))
    } else if letter.starts_with(minus) {
        Some((-(size as i32), &letter[1..]))
    } else {
        None
    }
}

/// A latitude, and what follows it.
#[tactic(auto, unfolding(crate::specs::Line::latitude_at))]
fn latitude_at(text: &[u8]) -> Option<(i32, &[u8])>
    ensures value { option_map seen result ≡ latitude_at text.now }
    ensures bound { IfSome result (λ angle. IsWithin 540_000_000 angle.0) }
{
    let (size, rest) = angle_at(text)?;
    signed_at(QUARTER_TURN, b"N", b"S", size, rest)
}

/// A longitude, and what follows it.
#[tactic(auto, unfolding(crate::specs::Line::longitude_at))]
fn longitude_at(text: &[u8]) -> Option<(i32, &[u8])>
    ensures value { option_map seen result ≡ longitude_at text.now }
    ensures bound { IfSome result (λ angle. IsWithin 1_080_000_000 angle.0) }
{
    let (size, rest) = angle_at(text)?;
    signed_at(HALF_TURN, b"E", b"W", size, rest)
}

/// The place that a text writes: a latitude, a space or none, and a longitude.
#[tactic(auto, unfolding(crate::specs::Line::place_of_text))]
pub fn place(text: &[u8]) -> Option<Grid>
    ensures { option_map place_of result ≡ place_of_text text.now }
{
    let (lat, rest) = latitude_at(text)?;
    let (lon, rest) = longitude_at(after_space(rest))?;
    if rest.is_empty() {
        Some(Grid { lat, lon })
    } else {
        None
    }
}
