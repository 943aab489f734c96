ghost use Rattle.std.specs.Prelude.{◌≡◌, ◌++◌, ◌∷◌, [], OnOk};
ghost use Rattle.gl_text.specs.Numbers.{last_digits};
ghost use Rattle.gl_demo.specs.Line.{angle_columns, b_line, clock_columns};

use crate::place::Place;
use std::alloc::AllocError;

/// How many numbers of the grid a degree has.
const DEGREE: u32 = 6_000_000;

/// How many a thousandth of a minute has.
const THOUSANDTH: u32 = 100;

/// The columns between the longitude and its decimals: the fix is valid, both altitudes, the noise.
const MIDDLE: &str = "A0150001500005";

/// Appends the last digits of a number, with zeros where it has fewer.
fn push_digits(text: &mut Vec<u8>, number: u32, width: u32) -> Result<(), AllocError>
    ensures { OnOk result (text.new.items ≡ text.old.items ++ last_digits width number) }
{
    if width > 0 {
        push_digits(text, number / 10, width - 1)?;
        text.push(b'0' + (number % 10) as u8)?;
    }
    Ok(())
}

/// Appends a second of the day as hours, minutes and seconds.
#[tactic(auto, unfolding(crate::specs::Line::clock_columns))]
fn push_clock(text: &mut Vec<u8>, second: u32) -> Result<(), AllocError>
    ensures { OnOk result (text.new.items ≡ text.old.items ++ clock_columns second) }
{
    push_digits(text, second / 3_600, 2)?;
    push_digits(text, second / 60 % 60, 2)?;
    push_digits(text, second % 60, 2)
}

/// Appends a coordinate as degrees, of so many digits, and thousandths of minutes, and a letter.
#[tactic(auto, unfolding(crate::specs::Line::angle_columns))]
fn push_angle(text: &mut Vec<u8>, coordinate: u32, width: u32, letter: u8) -> Result<(), AllocError>
    ensures { OnOk result
        (text.new.items ≡ text.old.items ++ angle_columns width letter coordinate) }
{
    push_digits(text, coordinate / DEGREE, width)?;
    push_digits(text, coordinate % DEGREE / THOUSANDTH, 5)?;
    text.push(letter)?;
    Ok(())
}

/// Appends the line of a fix.
pub fn push_line(text: &mut Vec<u8>, second: u32, place: Place) -> Result<(), AllocError>
    ensures { OnOk result (text.new.items ≡ text.old.items ++ b_line second place) }
{
    text.push(b'B')?;
    push_clock(text, second)?;
    push_angle(text, place.latitude, 2, b'N')?;
    push_angle(text, place.longitude, 3, b'E')?;
    text.extend_from_slice(MIDDLE.as_bytes())?;
    push_digits(text, place.latitude % THOUSANDTH, 2)?;
    push_digits(text, place.longitude % THOUSANDTH, 2)?;
    text.push(b'\n')?;
    Ok(())
}
