ghost use Rattle.std.specs.Prelude.{◌≡◌, ◌<◌, ◌++◌, codes, length, take, true, option_map, IfSome};
ghost use Rattle.std.specs.Char.{is_ascii_digit};
ghost use Rattle.std.specs.List.{list_all};
ghost use Rattle.std.specs.Str.Parse.{digits_value};
ghost use Rattle.gl_igc.specs.FixLine.{decimals_of, field_digits, noise_of, observation_of};
ghost use Rattle.gl_igc.specs.Parts.{extension_view, span_view};
ghost use Rattle.gl_igc.specs.Code.Parts.{observation_view};

use crate::columns::{altitude, time};
use crate::extension::{Field, Fields};
use crate::observation::Observed;
use gl_sphere::{Grid, read_latitude, read_longitude};
use gl_text::read_digits;

/// The least length of a B line.
const FIX_LINE_LENGTH: usize = 35;

/// The greatest altitude in metres that a fix may have.
const HIGHEST: i32 = 32_767;

/// Whether each byte is a digit.
#[inline]
pub fn are_digits(bytes: &[u8]) -> bool
    ensures { result ≡ list_all is_ascii_digit bytes.now }
{
    bytes.iter().all(|byte| byte.is_ascii_digit())
}

/// The digits of a field; `None` where the line is too short for it or a byte of it is no digit.
#[inline]
#[tactic(auto, unfolding(crate::specs::FixLine::field_digits))]
fn field_digits(field: Option<Field>, line: &[u8]) -> Option<&[u8]>
    ensures value { option_map (λ digits. digits.now) result
        ≡ field_digits (option_map span_view field) line.now }
    ensures digits { IfSome result (λ digits. list_all is_ascii_digit digits.now ≡ true) }
{
    let field = field?;
    let finish = field.finish as usize;
    if finish > line.len() {
        return None;
    }
    let digits = &line[field.start as usize - 1..finish];
    if are_digits(digits) {
        Some(digits)
    } else {
        None
    }
}

/// The number that the first two digits write, of which one counts ten times and none 0.
#[inline]
fn two_digits(digits: &[u8]) -> u32
    requires { list_all is_ascii_digit digits.now ≡ true }
    ensures value { result ≡ digits_value 10 (take 2 (digits.now ++ codes "0")) }
    ensures bound { result < 100 }
{
    match digits {
        [] => 0,
        [tens] => 10 * u32::from(tens - b'0'),
        [tens, units, ..] => 10 * u32::from(tens - b'0') + u32::from(units - b'0'),
    }
}

/// The decimals of a latitude or longitude, in 1/100,000 minute; 0 without a field of digits.
#[inline]
#[tactic(auto, unfolding(crate::specs::FixLine::decimals_of))]
fn decimals(field: Option<Field>, line: &[u8]) -> u32
    ensures value { result ≡ decimals_of (option_map span_view field) line.now }
    ensures bound { result < 100 }
{
    match field_digits(field, line) {
        Some(digits) => two_digits(digits),
        None => 0,
    }
}

/// The engine noise of a field of three digits.
#[inline]
#[tactic(auto, unfolding(crate::specs::FixLine::noise_of))]
fn noise(field: Option<Field>, line: &[u8]) -> Option<u16>
    ensures { result ≡ noise_of (option_map span_view field) line.now }
{
    let digits = field_digits(field, line)?;
    if digits.len() != 3 {
        return None;
    }
    let noise = read_digits(digits)?;
    Some(noise as u16)
}

/// What an undamaged B line with validity `A` says; `None` of any other line.
#[tactic(auto, unfolding(crate::specs::FixLine::observation_of))]
pub fn read_fix_line(fields: Fields, line: &[u8]) -> Option<Observed>
    ensures { option_map observation_view result ≡ observation_of (extension_view fields) line.now }
{
    if line.len() < FIX_LINE_LENGTH || line[0] != b'B' || line[24] != b'A' {
        return None;
    }
    let time = time(line)?;
    let lat = read_latitude(&line[7..15], decimals(fields.lad, line))?;
    let lon = read_longitude(&line[15..24], decimals(fields.lod, line))?;
    let _pressure = altitude(&line[25..30])?;
    let alt = altitude(&line[30..35])?;
    if alt > HIGHEST {
        return None;
    }
    let enl = noise(fields.enl, line);
    let grid = Grid { lat, lon };
    Some(Observed {
        time,
        grid,
        alt,
        enl,
    })
}
