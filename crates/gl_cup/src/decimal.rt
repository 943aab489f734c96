ghost use Rattle.std.specs.Prelude.{◌≡◌, ◌+◌, ◌-◌, ◌*◌, ◌^◌, ◌<◌, ◌≤◌, ◌==◌, length, position, IfSome};
ghost use Rattle.std.specs.Str.{byte};
ghost use Rattle.gl_cup.specs.Decimal.{clock_of, metres_in, radius_of, thousandths_in, thousandths_of};

use gl_text::read_digits;

/// The most digits before the point of a number.
const MOST_DIGITS: usize = 6;

/// The units of a length, in millimetres.
const METRE: u64 = 1_000;

const KILOMETRE: u64 = 1_000_000;

const NAUTICAL_MILE: u64 = 1_852_000;

const MILE: u64 = 1_609_344;

/// How many thousandths the last of so many decimals stands for.
fn weight(decimals: usize) -> u32
    requires { decimals ≤ 3 }
    ensures value { result ≡ 10 ^ (3 - decimals) }
    ensures bound { 10 ^ decimals * result ≡ 1_000 }
{
    match decimals {
        0 => 1_000,
        1 => 100,
        2 => 10,
        _ => 1,
    }
}

/// A number of thousandths, by its ones and the thousandths behind the point.
fn joined(ones: u32, rest: u32) -> u32
    requires ones { ones < 1_000_000 }
    requires rest { rest < 1_000 }
    ensures value { result ≡ ones * 1_000 + rest }
    ensures bound { result < 1_000_000_000 }
{
    ones * 1_000 + rest
}

/// The thousandths of a number, by its digits before and behind the point.
#[tactic(auto, unfolding(crate::specs::Decimal::thousandths_in))]
fn thousandths_in(whole: &[u8], decimals: &[u8]) -> Option<u32>
    ensures value { result ≡ thousandths_in whole.now decimals.now }
    ensures bound { IfSome result (λ n. n < 1_000_000_000) }
{
    if whole.is_empty() || whole.len() > MOST_DIGITS || decimals.len() > 3 {
        return None;
    }
    let ones = read_digits(whole)?;
    let rest = read_digits(decimals)?;
    Some(joined(ones, rest * weight(decimals.len())))
}

/// Where the point of a number stands.
fn point_of(text: &[u8]) -> Option<usize>
    ensures { result ≡ position (λ c. c == byte ".") text.now }
{
    text.iter().position(|byte| *byte == b'.')
}

/// The thousandths of a number: one to six digits, and perhaps a point with up to three more.
#[tactic(auto, unfolding(crate::specs::Decimal::thousandths_of))]
pub fn read_thousandths(text: &[u8]) -> Option<u32>
    ensures value { result ≡ thousandths_of text.now }
    ensures bound { IfSome result (λ n. n < 1_000_000_000) }
{
    match point_of(text) {
        Some(point) => thousandths_in(&text[..point], &text[point + 1..]),
        None => thousandths_in(text, &[]),
    }
}

/// The whole metres nearest to a number of a unit, which is told in millimetres.
#[tactic(auto, unfolding(crate::specs::Decimal::metres_in))]
fn metres_in(unit: u64, number: &[u8]) -> Option<u32>
    requires { unit ≤ 1_852_000 }
    ensures { result ≡ metres_in unit number.now }
{
    let thousandths = read_thousandths(number)?;
    let millimetres = u64::from(thousandths) * unit / 1_000;
    Some(((millimetres + 500) / 1_000) as u32)
}

/// The metres of a length in km, nm (nautical miles), ml (miles), or m, as without a unit.
#[tactic(auto, unfolding(crate::specs::Decimal::radius_of))]
pub fn read_radius(text: &[u8]) -> Option<u32>
    ensures { result ≡ radius_of text.now }
{
    if text.ends_with(b"km") {
        metres_in(KILOMETRE, &text[..text.len() - 2])
    } else if text.ends_with(b"nm") {
        metres_in(NAUTICAL_MILE, &text[..text.len() - 2])
    } else if text.ends_with(b"ml") {
        metres_in(MILE, &text[..text.len() - 2])
    } else if text.ends_with(b"m") {
        metres_in(METRE, &text[..text.len() - 1])
    } else {
        metres_in(METRE, text)
    }
}

/// The seconds of a clock, HH:MM:SS, below 24 hours.
#[tactic(auto, unfolding(crate::specs::Decimal::clock_of))]
pub fn read_clock(text: &[u8]) -> Option<u32>
    ensures value { result ≡ clock_of text.now }
    ensures bound { IfSome result (λ second. second < 86_400) }
{
    if text.len() != 8 || text[2] != b':' || text[5] != b':' {
        return None;
    }
    let hours = read_digits(&text[..2])?;
    let minutes = read_digits(&text[3..5])?;
    let seconds = read_digits(&text[6..])?;
    if hours <= 23 && minutes <= 59 && seconds <= 59 {
        Some(3_600 * hours + 60 * minutes + seconds)
    } else {
        None
    }
}
