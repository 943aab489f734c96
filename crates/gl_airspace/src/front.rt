ghost use Rattle.std.specs.Prelude.{◌≡◌, ◌-◌, ◌*◌, ◌<◌, ◌≤◌, ◌^◌, length, option_map, IfSome};
ghost use Rattle.gl_airspace.specs.Line.{after_space, decimals_at, digits_at, number_at, thousandths_at};
ghost use Rattle.gl_airspace.specs.Code.Said.{seen};

use gl_text::read_digits;

/// What follows a space at the front of a text, if there is one.
#[tactic(auto, unfolding(crate::specs::Line::after_space))]
pub fn after_space(text: &[u8]) -> &[u8]
    ensures { result.now ≡ after_space text.now }
{
    if text.starts_with(b" ") {
        &text[1..]
    } else {
        text
    }
}

/// How many digits stand at the front of a text.
fn count_digits(text: &[u8]) -> usize
    ensures value { result ≡ length (digits_at text.now) }
    ensures within { result ≤ length text.now }
{
    text.iter().take_while(|byte| byte.is_ascii_digit()).count()
}

/// The number that digits at the front of a text write, one at least and not more than `most`, and
/// what follows them.
#[tactic(auto, unfolding(crate::specs::Line::number_at))]
pub fn number_at(most: usize, text: &[u8]) -> Option<(u32, &[u8])>
    requires { most ≤ 6 }
    ensures value { option_map seen result ≡ number_at most text.now }
    ensures bound { IfSome result (λ n. n.0 < 10 ^ most) }
    ensures few { IfSome result (λ _. length (digits_at text.now) ≤ most) }
{
    let count = count_digits(text);
    if count < 1 || count > most {
        return None;
    }
    let (digits, rest) = text.split_at(count);
    let number = read_digits(digits)?;
    Some((number, rest))
}

/// The thousandths that a number writes which stands for so many decimals.
fn thousandths(number: u32, count: usize) -> u32
    requires number { number < 1_000 }
    requires count { count ≤ 3 }
    ensures value { result ≡ number * 10 ^ (3 - count) }
    ensures bound { result < 1_000_000 }
{
    match count {
        0 => number * 1_000,
        1 => number * 100,
        2 => number * 10,
        _ => number,
    }
}

/// The thousandths that one to three decimals at the front of a text write, and what follows them.
#[tactic(auto, unfolding(crate::specs::Line::decimals_at))]
fn decimals_at(text: &[u8]) -> Option<(u32, &[u8])>
    ensures value { option_map seen result ≡ decimals_at text.now }
    ensures bound { IfSome result (λ n. n.0 < 1_000_000) }
{
    let (number, rest) = number_at(3, text)?;
    let count = count_digits(text);
    Some((thousandths(number, count), rest))
}

/// The thousandths that a number with perhaps a point and decimals writes, and what follows it.
#[tactic(auto, unfolding(crate::specs::Line::thousandths_at))]
pub fn thousandths_at(most: usize, text: &[u8]) -> Option<(u32, &[u8])>
    requires { most ≤ 3 }
    ensures value { option_map seen result ≡ thousandths_at most text.now }
    ensures bound { IfSome result (λ n. n.0 < 2_000_000) }
{
    let (whole, rest) = number_at(most, text)?;
    if !rest.starts_with(b".") {
        return Some((whole * 1_000, rest));
    }
    let (part, rest) = decimals_at(&rest[1..])?;
    Some((whole * 1_000 + part, rest))
}
