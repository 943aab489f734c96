ghost use Rattle.std.specs.Prelude.{◌≡◌, ◌<◌, ◌≤◌, length, IfSome, pos, neg_ℤ, ◌≤ℤ◌};
ghost use Rattle.gl_igc.specs.Columns.{day, time_of_day, altitude_of};

use gl_text::read_digits;

/// The second of the day that HHMMSS in columns 2 to 7 says.
#[inline]
#[tactic(auto, unfolding(crate::specs::Columns::time_of_day))]
pub fn time(line: &[u8]) -> Option<u32>
    requires { 7 ≤ length line.now }
    ensures value { result ≡ time_of_day line.now }
    ensures bound { IfSome result (λ second. second < day) }
{
    let hours = read_digits(&line[1..3])?;
    let minutes = read_digits(&line[3..5])?;
    let seconds = read_digits(&line[5..7])?;
    if hours <= 23 && minutes <= 59 && seconds <= 59 {
        Some(3600 * hours + 60 * minutes + seconds)
    } else {
        None
    }
}

/// An altitude in metres of five columns: five digits, or a minus sign and four digits.
#[inline]
#[tactic(auto, unfolding(crate::specs::Columns::altitude_of))]
pub fn altitude(columns: &[u8]) -> Option<i32>
    requires { length columns.now ≡ 5 }
    ensures value { result ≡ altitude_of columns.now }
    ensures bound { IfSome result (λ metres.
        (neg_ℤ (pos 9_999) ≤ℤ metres) × (metres ≤ℤ pos 99_999)) }
{
    if columns[0] == b'-' {
        read_digits(&columns[1..]).map(|metres| -(metres as i32))
    } else {
        read_digits(columns).map(|metres| metres as i32)
    }
}
