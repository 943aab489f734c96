ghost use Rattle.std.specs.Prelude.{◌≡◌, ◌<◌, pos};
ghost use Rattle.gl_text.specs.Forms.{is_text};
ghost use Rattle.gl_airspace.specs.Line.{flight_level_in, height_in, height_of, is_feet, is_metres, metres, radius_of};

use crate::front::{after_space, number_at, thousandths_at};

/// The height of the surface, in metres: below all altitudes.
const SURFACE: i32 = -32_768;

/// The height of what is unlimited, in metres: no altitude is above.
const UNLIMITED: i32 = 32_767;

/// The most thousandths of a nautical mile that a radius has.
const MOST_THOUSANDTHS: u32 = 500_000;

/// Feet in whole metres.
fn metres(feet: u32) -> i32
    requires { feet < 100_000_000 }
    ensures { result ≡ pos (metres feet) }
{
    (u64::from(feet) * 3_048 / 10_000) as i32
}

/// Whether two texts are the same.
fn is_text(text: &[u8], other: &[u8]) -> bool
    ensures { result ≡ is_text text.now other.now }
{
    text == other
}

/// Whether a text is the unit of feet.
fn is_feet(unit: &[u8]) -> bool
    ensures { result ≡ is_feet unit.now }
{
    is_text(unit, b"FT") || is_text(unit, b"FT MSL") || is_text(unit, b"FT AMSL")
}

/// Whether a text is the unit of metres.
fn is_metres(unit: &[u8]) -> bool
    ensures { result ≡ is_metres unit.now }
{
    is_text(unit, b"M") || is_text(unit, b"M MSL") || is_text(unit, b"M AMSL")
}

/// The metres of a number with a unit behind it.
#[tactic(auto, unfolding(crate::specs::Line::height_in))]
fn height_in(number: u32, unit: &[u8]) -> Option<i32>
    requires { number < 1_000_000 }
    ensures { result ≡ height_in (number, unit.now) }
{
    if unit.is_empty() || is_feet(after_space(unit)) {
        Some(metres(number))
    } else if is_metres(after_space(unit)) {
        Some(number as i32)
    } else {
        None
    }
}

/// The metres of a flight level.
#[tactic(auto, unfolding(crate::specs::Line::flight_level_in))]
fn flight_level_in(level: u32, rest: &[u8]) -> Option<i32>
    requires { level < 1_000_000 }
    ensures { result ≡ flight_level_in (level, rest.now) }
{
    if rest.is_empty() {
        Some(metres(level * 100))
    } else {
        None
    }
}

/// The height in metres that a text writes.
#[tactic(auto, unfolding(crate::specs::Line::height_of))]
pub fn height(text: &[u8]) -> Option<i32>
    ensures { result ≡ height_of text.now }
{
    if is_text(text, b"SFC") || is_text(text, b"GND") {
        return Some(SURFACE);
    }
    if is_text(text, b"UNL") || is_text(text, b"UNLIM") {
        return Some(UNLIMITED);
    }
    if text.starts_with(b"FL") {
        let (level, rest) = number_at(6, &text[2..])?;
        return flight_level_in(level, rest);
    }
    let (number, unit) = number_at(6, text)?;
    height_in(number, unit)
}

/// The radius in centimetres that a text writes in nautical miles.
#[tactic(auto, unfolding(crate::specs::Line::radius_of))]
pub fn radius(text: &[u8]) -> Option<u64>
    ensures { result ≡ radius_of text.now }
{
    let (thousandths, rest) = thousandths_at(3, text)?;
    if rest.is_empty() && thousandths <= MOST_THOUSANDTHS {
        Some(u64::from(thousandths) * 1_852 / 10)
    } else {
        None
    }
}
