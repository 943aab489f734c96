ghost use Rattle.std.specs.Prelude.{◌≡◌, ◌≤◌, length, take_while};
ghost use Rattle.std.specs.Char.{is_ascii_alphanumeric};
ghost use Rattle.gl_proof.specs.Fronts.{Reads};
ghost use Rattle.gl_proof.specs.Code.Fronts.{IsEntrantAt};

use crate::front::behind;

/// How many letters and digits stand at the front of a text.
fn count_alphanumerics(text: &[u8]) -> usize
    ensures value { result ≡ length (take_while is_ascii_alphanumeric text.now) }
    ensures within { result ≤ length text.now }
{
    text.iter()
        .take_while(|byte| byte.is_ascii_alphanumeric())
        .count()
}

/// The number of an entrant at the front of a text with a space behind it, and what follows that.
pub fn entrant_at(text: &[u8]) -> Option<(&[u8], &[u8])>
    ensures { Reads (λ number. number.now) (IsEntrantAt text.now) result }
{
    let count = count_alphanumerics(text);
    if count < 1 || count > 8 {
        return None;
    }
    let (number, rest) = text.split_at(count);
    Some((number, behind(rest, b" ")?))
}
