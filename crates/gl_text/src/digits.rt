ghost use Rattle.std.specs.Prelude.{◌≡◌, ◌^◌, ◌<◌, ◌≤◌, length, IfSome};
ghost use Rattle.gl_text.specs.Digits.{number_of};

/// The number that the digits of some columns write, zeros at their front and all. `None` where a
/// byte is no digit; no digits write 0.
#[inline]
pub fn read_digits(digits: &[u8]) -> Option<u32>
    requires { length digits.now ≤ 9 }
    ensures value { result ≡ number_of digits.now }
    ensures bound { IfSome result (λ n. n < 10 ^ length digits.now) }
{
    let mut number = 0;
    for &digit in digits {
        if !digit.is_ascii_digit() {
            return None;
        }
        number = number * 10 + u32::from(digit - b'0');
    }
    Some(number)
}
