ghost use Rattle.std.specs.Prelude.{◌≡◌, ◌<◌, ◌↔◌, Some, IsNone, length, unsigned_abs};
ghost use Rattle.jiff_core.specs.Calendar.{IsDate, days_from_civil};
ghost use Rattle.gl_igc.specs.Dates.{day_number, day_of, after_letters, after_spaces, leading_day, date_of_line};

use gl_text::read_digits;
use jiff::civil::Date;

/// The day number of a day of the calendar; `None` where it hasn't the day.
fn civil_day(year: i16, month: i8, day: i8) -> Option<i32>
    ensures some { IsDate year month day
        → result ≡ Some (days_from_civil year (unsigned_abs month) (unsigned_abs day)) }
    ensures none { IsNone result ↔ ¬ IsDate year month day }
{
    match Date::new(year, month, day) {
        Ok(date) => Some(date.to_plain().to_unix_epoch_day()),
        Err(_) => None,
    }
}

/// The day number, from 1970-01-01, of a day; `None` where the calendar hasn't the day.
pub fn day_number(year: u32, month: u32, day: u32) -> Option<i32>
    requires year { year < 2_100 }
    requires month { month < 100 }
    requires day { day < 100 }
    ensures { result ≡ day_number year month day }
{
    civil_day(year as i16, month as i8, day as i8)
}

/// The day number, from 1970-01-01, of the day that DDMMYY says, in the years 2000 to 2099. `None`
/// where a byte is no digit or the calendar hasn't the day.
#[tactic(auto, unfolding(crate::specs::Dates::day_of))]
fn day(digits: &[u8]) -> Option<i32>
    requires { length digits.now ≡ 6 }
    ensures { result ≡ day_of digits.now }
{
    let day = read_digits(&digits[..2])?;
    let month = read_digits(&digits[2..4])?;
    let year = read_digits(&digits[4..])?;
    day_number(2000 + year, month, day)
}

/// The text without these letters at its front, where they stand there.
fn after_letters<'a>(letters: &[u8], text: &'a [u8]) -> &'a [u8]
    ensures { result.now ≡ after_letters letters.now text.now }
{
    if text.starts_with(letters) {
        &text[letters.len()..]
    } else {
        text
    }
}

/// The text without the spaces at its front.
fn after_spaces(text: &[u8]) -> &[u8]
    ensures { result.now ≡ after_spaces text.now }
{
    let mut at = 0;
    while at < text.len() && text[at] == b' ' {
        at += 1;
    }
    &text[at..]
}

/// The day that the text begins with, as DDMMYY.
#[tactic(auto, unfolding(crate::specs::Dates::leading_day))]
fn leading_day(text: &[u8]) -> Option<i32>
    ensures { result ≡ leading_day text.now }
{
    if text.len() >= 6 {
        day(&text[..6])
    } else {
        None
    }
}

/// The day of a date line; `None` of any other line.
#[tactic(auto, unfolding(crate::specs::Dates::date_of_line))]
pub fn date_of_line(line: &[u8]) -> Option<i32>
    ensures { result ≡ date_of_line line.now }
{
    if line.starts_with(b"HFDTE") {
        let rest = after_letters(b":", after_letters(b"DATE", &line[5..]));
        leading_day(after_spaces(rest))
    } else {
        None
    }
}
