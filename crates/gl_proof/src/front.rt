ghost use Rattle.std.specs.Prelude.{◌≡◌, ◌≢◌, ◌+◌, ◌^◌, ◌++◌, ◌<◌, ◌≤◌, ℕ, List, false, drop, length, take_while, MatchOption};
ghost use Rattle.std.specs.Char.{is_ascii_digit};
ghost use Rattle.gl_box.specs.Cell.{ends};
ghost use Rattle.gl_proof.specs.Fronts.{IsNumberAt, IsSpanAt, IsTotalAt, Reads};

use gl_box::Span;
use gl_text::read_u64;

/// The bytes of a common number, at most eight digits, and of what follows it.
const COMMON_ROOM: usize = 9;

/// What follows a front of a text, where the text has that front.
#[inline]
pub fn behind<'a>(text: &'a [u8], front: &[u8]) -> Option<&'a [u8]>
    ensures { MatchOption result ((rest : List ℕ) → text.now ≢ front.now ++ rest)
        (λ rest. text.now ≡ front.now ++ rest.now) }
{
    text.strip_prefix(front)
}

/// How many digits stand at the front of a text.
fn count_digits(text: &[u8]) -> usize
    ensures value { result ≡ length (take_while is_ascii_digit text.now) }
    ensures within { result ≤ length text.now }
{
    text.iter().take_while(|byte| byte.is_ascii_digit()).count()
}

/// The number at the front of a text, with all the digits there, and what follows it.
pub fn number_at(text: &[u8]) -> Option<(u64, &[u8])>
    ensures { Reads (λ number. number) (IsNumberAt (2 ^ 64) text.now) result }
{
    let (digits, rest) = text.split_at(count_digits(text));
    let number = read_u64(digits)?;
    Some((number, rest))
}

/// A number at the front of a text, and how many bytes it takes there: none if none was found.
#[derive(Clone, Copy)]
struct NumberFront {
    number: u32,
    bytes: usize,
}

/// What a byte is worth as a digit: more than 9 if it is none.
#[inline(always)]
fn digit_of(byte: u8) -> u32
    ensures digit { result ≤ 9 → (byte ≡ 48 + result) }
    ensures other { 9 < result → (is_ascii_digit byte ≡ false) }
{
    u32::from(byte).wrapping_sub(48)
}

/// The number at the front of a text, with all the digits there, for most of the numbers below
/// 100,000,000 that don't stand at the text's end. It finds them sooner than `any_number_at`: since
/// the text is long enough, no step has to look for its end. It answers by a length, since an
/// answer of several parts that may be missing is handed over in memory.
#[inline(always)]
fn common_number_at(text: &[u8]) -> NumberFront
    ensures within { result.bytes ≤ length text.now }
    ensures number { 0 < result.bytes
        → IsNumberAt (2 ^ 32) text.now result.number (drop result.bytes text.now) }
{
    let none = NumberFront {
        number: 0,
        bytes: 0,
    };
    if text.len() < COMMON_ROOM {
        return none;
    }
    let mut number = digit_of(text[0]);
    if number > 9 {
        return none;
    }
    'digits: for bytes in 1..COMMON_ROOM {
        let digit = digit_of(text[bytes]);
        if digit > 9 {
            return NumberFront { number, bytes };
        }
        if number == 0 {
            return none;
        }
        if number > 99_999_999 {
            return none;
        }
        number = number * 10 + digit;
    }
    none
}

/// The number of 32 bits at the front of a text, with all the digits there, and what follows it.
#[inline(always)]
pub fn short_number_at(text: &[u8]) -> Option<(u32, &[u8])>
    ensures { Reads (λ number. number) (IsNumberAt (2 ^ 32) text.now) result }
{
    let front = common_number_at(text);
    if front.bytes == 0 {
        return any_number_at(text);
    }
    Some((front.number, &text[front.bytes..]))
}

/// The same number as `short_number_at` finds, whatever its digits: slower, for what
/// `common_number_at` passes over.
#[inline(never)]
fn any_number_at(text: &[u8]) -> Option<(u32, &[u8])>
    ensures { Reads (λ number. number) (IsNumberAt (2 ^ 32) text.now) result }
{
    let (number, rest) = number_at(text)?;
    if number > u64::from(u32::MAX) {
        return None;
    }
    Some((number as u32, rest))
}

/// The span at the front of a text, and what follows it.
pub fn span_at(text: &[u8]) -> Option<(Span, &[u8])>
    ensures { Reads ends (IsSpanAt text.now) result }
{
    let (lo, rest) = short_number_at(text)?;
    let (hi, rest) = short_number_at(behind(rest, b"-")?)?;
    if lo > hi {
        return None;
    }
    Some((Span { lo, hi }, rest))
}

/// The same span as `span_at` finds. It is for one caller, where it is made in place: handing over
/// an answer of several parts in memory takes longer than reading it.
#[inline(always)]
pub(crate) fn common_span_at(text: &[u8]) -> Option<(Span, &[u8])>
    ensures { Reads ends (IsSpanAt text.now) result }
{
    let low = common_number_at(text);
    if let Some(word) = behind(&text[low.bytes..], b"-") {
        let high = common_number_at(word);
        if low.bytes > 0 && high.bytes > 0 && low.number <= high.number {
            let (lo, hi) = (low.number, high.number);
            return Some((Span { lo, hi }, &word[high.bytes..]));
        }
    }
    span_at(text)
}

/// The total at the front of a text with LF behind it, and what follows that.
pub fn total_at(text: &[u8]) -> Option<(Option<u64>, &[u8])>
    ensures { Reads (λ total. total) (IsTotalAt text.now) result }
{
    if let Some(rest) = behind(text, b"NONE\n") {
        return Some((None, rest));
    }
    let (total, rest) = number_at(text)?;
    let rest = behind(rest, b"\n")?;
    Some((Some(total), rest))
}
