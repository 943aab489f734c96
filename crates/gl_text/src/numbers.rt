ghost use Rattle.std.specs.Prelude.{◌≡◌, ◌≢◌, ◌↔◌, ℕ, ◌+◌, ◌-◌, ◌*◌, ◌/◌, ◌%◌, ◌^◌, ◌<◌, ◌≤◌, Some, ◌++◌, length, take, drop, IsSome, IsNone, IfSome, OnOk, OnErr};
ghost use Rattle.std.specs.Fmt.{decimal};
ghost use Rattle.std.specs.Char.{IsAsciiDigit};
ghost use Rattle.std.specs.Option.{SomeIff};
ghost use Rattle.std.specs.Str.Parse.{digits_value};
ghost use Rattle.gl_text.specs.Numbers.{IsPlainNumber, fixed, last_digits};

use std::alloc::AllocError;

/// The most digits that a number of 64 bits has.
const MOST_DIGITS: usize = 20;

/// The number with one digit more at its end, or `None` where the byte is no digit or the number
/// doesn't fit in 64 bits.
fn with_digit(number: u64, digit: u8) -> Option<u64>
    ensures { SomeIff result (IsAsciiDigit digit × (number * 10 + (digit - 48) < 2 ^ 64))
        (number * 10 + (digit - 48)) }
{
    if !digit.is_ascii_digit() {
        return None;
    }
    number.checked_mul(10)?.checked_add(u64::from(digit - b'0'))
}

/// The number that a text of 1 to 20 digits writes, without a sign and without a leading zero but
/// for `0` itself. `None` where the text isn't such digits or the number doesn't fit in 64 bits.
pub fn read_u64(text: &[u8]) -> Option<u64>
    ensures form { IsSome result
        ↔ (IsPlainNumber text.now × (digits_value 10 text.now < 2 ^ 64)) }
    ensures some { IfSome result (λ n. (n < 2 ^ 64) × (text.now ≡ decimal n)) }
    ensures none { IsNone result ↔ ((n : ℕ) → n < 2 ^ 64 → text.now ≢ decimal n) }
    ensures only { (n : ℕ) → n < 2 ^ 64 → text.now ≡ decimal n → result ≡ Some n }
{
    let has_leading_zero = text.len() > 1 && text[0] == b'0';
    if text.is_empty() || has_leading_zero {
        return None;
    }
    let mut number: u64 = 0;
    for &digit in text {
        number = with_digit(number, digit)?;
    }
    Some(number)
}

/// Writes the one or two digits of a number below 100 so that they end before the place `end`, and
/// answers where they begin.
#[inline]
fn write_first_digits(buffer: &mut [u8], end: usize, n: u64) -> usize
    requires small { n < 100 }
    requires room { length (decimal n) ≤ end }
    requires within { end ≤ length buffer.old }
    ensures start { result + length (decimal n) ≡ end }
    ensures written { drop result buffer.new ≡ decimal n ++ drop end buffer.old }
{
    if n < 10 {
        buffer[end - 1] = b'0' + n as u8;
        return end - 1;
    }
    buffer[end - 1] = b'0' + (n % 10) as u8;
    buffer[end - 2] = b'0' + (n / 10) as u8;
    end - 2
}

/// Writes the digits of `n` so that they end before the place `end`, and answers where they begin.
#[inline]
pub fn write_digits(buffer: &mut [u8], end: usize, n: u64) -> usize
    requires room { length (decimal n) ≤ end }
    requires within { end ≤ length buffer.old }
    ensures start { result + length (decimal n) ≡ end }
    ensures written { drop result buffer.new ≡ decimal n ++ drop end buffer.old }
{
    let mut at = end;
    let mut rest = n;
    while rest >= 100 {
        let two = (rest % 100) as u8;
        buffer[at - 1] = b'0' + two % 10;
        buffer[at - 2] = b'0' + two / 10;
        at -= 2;
        rest /= 100;
    }
    write_first_digits(buffer, at, rest)
}

/// Writes the last `count` digits of `n` at the end of the buffer, zeros where it has fewer, and
/// answers the number that the digits before them make.
fn write_last_digits(buffer: &mut [u8], count: usize, n: u64) -> u64
    requires { count ≤ length buffer.old }
    ensures rest { result ≡ n / 10 ^ count }
    ensures written { drop (length buffer.old - count) buffer.new ≡ last_digits count n }
{
    let mut rest = n;
    for written in 0..count {
        let at = buffer.len() - 1 - written;
        buffer[at] = b'0' + (rest % 10) as u8;
        rest /= 10;
    }
    rest
}

/// Appends the decimal digits of `n`. After want of memory `out` is as before.
pub fn push_u64(out: &mut Vec<u8>, n: u64) -> Result<(), AllocError>
    ensures ok { OnOk result (out.new.items ≡ out.old.items ++ decimal n) }
    ensures err { OnErr result (out.new.items ≡ out.old.items) }
{
    let mut buffer = [0; MOST_DIGITS];
    let start = write_digits(&mut buffer, MOST_DIGITS, n);
    out.extend_from_slice(&buffer[start..])
}

/// Appends `n` with a point before its last `places` digits, and at least one digit before the
/// point: 5 with 2 places is `0.05`. After want of memory `out` is as before.
pub fn push_fixed(out: &mut Vec<u8>, n: u64, places: u32) -> Result<(), AllocError>
    requires least { 1 ≤ places }
    requires most { places ≤ 9 }
    ensures ok { OnOk result (out.new.items ≡ out.old.items ++ fixed places n) }
    ensures err { OnErr result (out.new.items ≡ out.old.items) }
{
    let mut buffer = [0; MOST_DIGITS + 1];
    let places = places as usize;
    let whole = write_last_digits(&mut buffer, places, n);
    let point = MOST_DIGITS - places;
    buffer[point] = b'.';
    let start = write_digits(&mut buffer, point, whole);
    out.extend_from_slice(&buffer[start..])
}
