ghost use Rattle.std.specs.Prelude.{◌≡◌, ◌<◌, ◌≤◌, length, IfSome, Some, option_map};
ghost use Rattle.gl_sphere.specs.PlaceText.{angle_of, signed_by, latitude_of, longitude_of, place_of, place_of_text};
ghost use Rattle.gl_sphere.specs.Range.{IsWithin};
ghost use Rattle.gl_sphere.specs.Sphere.{half_turn, quarter_turn};

use crate::place::Grid;
use crate::sphere::{HALF_TURN, QUARTER_TURN};
use gl_text::read_digits;

/// A degree in 1/100,000 minute.
const DEGREE: u64 = 6_000_000;

/// A thousandth of a minute in 1/100,000 minute.
const THOUSANDTH: u64 = 100;

/// The thousandths of a minute in a degree.
const THOUSANDTHS_OF_DEGREE: u32 = 60_000;

/// How many bytes write a place.
const PLACE_LENGTH: usize = 17;

/// The size of an angle in 1/100,000 minute.
#[inline]
#[tactic(auto, unfolding(crate::specs::PlaceText::angle_of))]
fn angle(limit: u64, degrees: u32, thousandths: u32, decimals: u32) -> Option<u32>
    requires degrees { degrees < 1_000 }
    requires thousandths { thousandths < 100_000 }
    requires decimals { decimals < 100 }
    requires limit { limit ≤ half_turn }
    ensures value { result ≡ angle_of limit degrees thousandths decimals }
    ensures bound { IfSome result (λ size. size ≤ limit) }
{
    let size = u64::from(degrees) * DEGREE
        + u64::from(thousandths) * THOUSANDTH
        + u64::from(decimals);
    if thousandths < THOUSANDTHS_OF_DEGREE && size <= limit {
        Some(size as u32)
    } else {
        None
    }
}

/// The size with the sign of the letter: plus for the first letter, minus for the second, else
/// `None`.
#[inline]
#[tactic(auto, unfolding(crate::specs::PlaceText::signed_by))]
pub fn signed(plus: u8, minus: u8, letter: u8, size: u32) -> Option<i32>
    requires { size ≤ half_turn }
    ensures value { result ≡ signed_by plus minus (Some letter) size }
    ensures bound { IfSome result (IsWithin size) }
{
    let size = size as i32;
    if letter == plus {
        Some(size)
    } else if letter == minus {
        Some(-size)
    } else {
        None
    }
}

/// The latitude in 1/100,000 minute, north positive, that `DDMMmmm` and `N` or `S` say: degrees,
/// minutes and their thousandths, to which `decimals` adds hundredths of a thousandth.
///
/// `None` exactly where the text hasn't that form, the minutes are 60 or more, or the place is past
/// a pole.
#[inline]
#[tactic(auto, unfolding(crate::specs::PlaceText::latitude_of))]
pub fn read_latitude(text: &[u8], decimals: u32) -> Option<i32>
    requires long { length text.now ≡ 8 }
    requires decimals { decimals < 100 }
    ensures value { result ≡ latitude_of decimals text.now }
    ensures bound { IfSome result (IsWithin quarter_turn) }
{
    let degrees = read_digits(&text[..2])?;
    let thousandths = read_digits(&text[2..7])?;
    let size = angle(QUARTER_TURN, degrees, thousandths, decimals)?;
    signed(b'N', b'S', text[7], size)
}

/// The longitude in 1/100,000 minute, east positive, that `DDDMMmmm` and `E` or `W` say: degrees,
/// minutes and their thousandths, to which `decimals` adds hundredths of a thousandth.
///
/// `None` exactly where the text hasn't that form, the minutes are 60 or more, or the place is past
/// 180 degrees.
#[inline]
#[tactic(auto, unfolding(crate::specs::PlaceText::longitude_of))]
pub fn read_longitude(text: &[u8], decimals: u32) -> Option<i32>
    requires long { length text.now ≡ 9 }
    requires decimals { decimals < 100 }
    ensures value { result ≡ longitude_of decimals text.now }
    ensures bound { IfSome result (IsWithin half_turn) }
{
    let degrees = read_digits(&text[..3])?;
    let thousandths = read_digits(&text[3..8])?;
    let size = angle(HALF_TURN, degrees, thousandths, decimals)?;
    signed(b'E', b'W', text[8], size)
}

/// The place that 17 bytes write: `DDMMmmm`, `N` or `S`, `DDDMMmmm`, `E` or `W`, as in recordings
/// by the IGC flight recorder specification.
///
/// `None` exactly where the text hasn't that form, the minutes are 60 or more, or the place is
/// outside the grid.
#[tactic(auto, unfolding(crate::specs::PlaceText::place_of_text))]
pub fn read_place(text: &[u8]) -> Option<Grid>
    ensures { option_map place_of result ≡ place_of_text text.now }
{
    if text.len() != PLACE_LENGTH {
        return None;
    }
    let lat = read_latitude(&text[..8], 0)?;
    let lon = read_longitude(&text[8..], 0)?;
    Some(Grid { lat, lon })
}
