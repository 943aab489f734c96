ghost use Rattle.std.specs.Prelude.{◌≡◌, ◌++◌, ◌∷◌, [], ◌<◌, ◌≤◌, OnOk};
ghost use Rattle.std.specs.List.{flat_map};
ghost use Rattle.gl_draft.specs.Line.{day_text, digit, escaped, five_digits, lat_text, lon_text, minutes_in, place_text, three_digits, two_digits, value_text};

use gl_desk::Name;
use gl_sphere::Grid;
use gl_text::push_u64;
use jiff_core::civil::Date;
use std::alloc::AllocError;

/// A degree and a thousandth of a minute, in 1/100,000 minute.
const DEGREE: u32 = 6_000_000;

const THOUSANDTH: u32 = 100;

/// A value in a task file that is made.
#[derive(Debug, Drop)]
pub enum Value {
    Amount(u32),
    Place(Grid),
    Day(Date),
    Text(Name),
    Racing,
    Area,
}

/// Appends the last digit of a number.
fn push_digit(out: &mut Vec<u8>, n: u32) -> Result<(), AllocError>
    ensures { OnOk result (out.new.items ≡ out.old.items ++ digit n ∷ []) }
{
    out.push(b'0' + (n % 10) as u8)?;
    Ok(())
}

/// Appends the last two digits of a number.
fn push_two(out: &mut Vec<u8>, n: u32) -> Result<(), AllocError>
    ensures { OnOk result (out.new.items ≡ out.old.items ++ two_digits n) }
{
    push_digit(out, n / 10)?;
    push_digit(out, n)
}

/// Appends the last three digits of a number.
fn push_three(out: &mut Vec<u8>, n: u32) -> Result<(), AllocError>
    ensures { OnOk result (out.new.items ≡ out.old.items ++ three_digits n) }
{
    push_digit(out, n / 100)?;
    push_two(out, n)
}

/// Appends the last five digits of a number.
fn push_five(out: &mut Vec<u8>, n: u32) -> Result<(), AllocError>
    ensures { OnOk result (out.new.items ≡ out.old.items ++ five_digits n) }
{
    push_digit(out, n / 10_000)?;
    push_digit(out, n / 1_000)?;
    push_three(out, n)
}

/// The thousandths of a minute of an angle, without its degrees.
fn minutes_in(size: u32) -> u32
    ensures { result ≡ minutes_in size }
{
    size % DEGREE / THOUSANDTH
}

/// Appends a latitude at whole thousandths of a minute.
#[tactic(auto, unfolding(crate::specs::Line::lat_text))]
fn push_lat(out: &mut Vec<u8>, lat: i32) -> Result<(), AllocError>
    ensures { OnOk result (out.new.items ≡ out.old.items ++ lat_text lat) }
{
    let size = lat.unsigned_abs();
    push_two(out, size / DEGREE)?;
    push_five(out, minutes_in(size))?;
    if lat < 0 {
        out.extend_from_slice(b"S")
    } else {
        out.extend_from_slice(b"N")
    }
}

/// Appends a longitude at whole thousandths of a minute.
#[tactic(auto, unfolding(crate::specs::Line::lon_text))]
fn push_lon(out: &mut Vec<u8>, lon: i32) -> Result<(), AllocError>
    ensures { OnOk result (out.new.items ≡ out.old.items ++ lon_text lon) }
{
    let size = lon.unsigned_abs();
    push_three(out, size / DEGREE)?;
    push_five(out, minutes_in(size))?;
    if lon < 0 {
        out.extend_from_slice(b"W")
    } else {
        out.extend_from_slice(b"E")
    }
}

/// Appends a place at whole thousandths of a minute.
fn push_place(out: &mut Vec<u8>, place: Grid) -> Result<(), AllocError>
    ensures { OnOk result (out.new.items ≡ out.old.items ++ place_text place) }
{
    push_lat(out, place.lat)?;
    push_lon(out, place.lon)
}

/// Appends a day, such as 2026-07-18.
#[tactic(auto, unfolding(crate::specs::Line::day_text))]
fn push_day(out: &mut Vec<u8>, day: Date) -> Result<(), AllocError>
    ensures { OnOk result (out.new.items ≡ out.old.items ++ day_text day) }
{
    let year = u32::from(day.year.unsigned_abs());
    push_two(out, year / 100)?;
    push_two(out, year)?;
    out.extend_from_slice(b"-")?;
    push_two(out, u32::from(day.month))?;
    out.extend_from_slice(b"-")?;
    push_two(out, u32::from(day.day))
}

/// Appends a byte of a text in quotes.
fn push_escaped(out: &mut Vec<u8>, byte: u8) -> Result<(), AllocError>
    ensures { OnOk result (out.new.items ≡ out.old.items ++ escaped byte) }
{
    match byte {
        34 => out.extend_from_slice(b"\\\""),
        92 => out.extend_from_slice(b"\\\\"),
        127 => out.extend_from_slice(b"\\u007F"),
        _ => Ok(out.push(byte)?),
    }
}

/// Appends the bytes of a text in quotes.
fn push_text(out: &mut Vec<u8>, text: &str) -> Result<(), AllocError>
    ensures { OnOk result (out.new.items ≡ out.old.items ++ flat_map escaped text.now) }
{
    let bytes = text.as_bytes();
    'bytes: for byte in bytes {
        push_escaped(out, *byte)?;
    }
    Ok(())
}

/// Appends a value.
pub fn push_value(out: &mut Vec<u8>, value: &Value) -> Result<(), AllocError>
    ensures { OnOk result (out.new.items ≡ out.old.items ++ value_text value.now) }
{
    match value {
        Value::Amount(n) => push_u64(out, u64::from(*n)),
        Value::Place(place) => {
            out.extend_from_slice(b"\"")?;
            push_place(out, *place)?;
            out.extend_from_slice(b"\"")
        }
        Value::Day(day) => {
            out.extend_from_slice(b"\"")?;
            push_day(out, *day)?;
            out.extend_from_slice(b"\"")
        }
        Value::Text(text) => {
            out.extend_from_slice(b"\"")?;
            push_text(out, text.as_str())?;
            out.extend_from_slice(b"\"")
        }
        Value::Racing => out.extend_from_slice(b"\"racing\""),
        Value::Area => out.extend_from_slice(b"\"area\""),
    }
}
