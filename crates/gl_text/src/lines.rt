ghost use Rattle.std.specs.Prelude.{◌≡◌, ◌≢◌, ◌↔◌, ℕ, ◌-◌, ◌<◌, ◌≤◌, List, [], ◌∷◌, ◌++◌, length, drop, slice_index, slice_range, IsNone, IfNone, IfSome};
ghost use Rattle.std.specs.Str.Lines.{strip_carriage_return};
ghost use Rattle.gl_text.specs.Lines.{lines_of, LineEnds};

use memchr::memchr;

/// The byte that ends a line.
const LINE_FEED: u8 = b'\n';

/// The byte that may stand before the end of a line, and is no part of it.
const CARRIAGE_RETURN: u8 = b'\r';

/// Where a line stands in its text: its bytes are those from `from` up to `to`, and the line after
/// it begins at `next`.
#[derive(Clone, Copy, Debug, PartialEq, Eq)]
pub struct LineAt {
    /// The place of the first byte.
    pub from: usize,
    /// The place just past the last byte, before the line's CR and LF.
    pub to: usize,
    /// The place just past the line's LF, or the length of the text.
    pub next: usize,
}

/// The place of the first LF from `at` on, or the length of the text where there is none.
fn line_end(text: &[u8], at: usize) -> usize
    requires { at ≤ length text.now }
    ensures after { at ≤ result }
    ensures within { result ≤ length text.now }
    ensures inside { (k : ℕ) → at ≤ k → k < result → slice_index text.now k ≢ LINE_FEED }
    ensures ended { result < length text.now → slice_index text.now result ≡ LINE_FEED }
{
    match memchr(LINE_FEED, &text[at..]) {
        Some(offset) => at + offset,
        None => text.len(),
    }
}

/// The end of the bytes of a line: one CR right before the line's LF or end is left off.
fn without_return(text: &[u8], at: usize, end: usize) -> usize
    requires after { at ≤ end }
    requires within { end ≤ length text.now }
    ensures after { at ≤ result }
    ensures within { result ≤ end }
    ensures line { strip_carriage_return (slice_range text.now at end)
        ≡ slice_range text.now at result }
{
    if at < end && text[end - 1] == CARRIAGE_RETURN {
        end - 1
    } else {
        end
    }
}

/// The line that begins at the place `at`, or `None` where `at` is the end of the text.
///
/// A line ends before the next LF or at the end of the text. One CR right before that LF or end is
/// left off.
pub fn next_line(text: &[u8], at: usize) -> Option<LineAt>
    requires { at ≤ length text.now }
    ensures none { IsNone result ↔ (at ≡ length text.now) }
    ensures over { IfNone result (lines_of (drop at text.now) ≡ []) }
    ensures bounds { IfSome result (λ l.
        (l.from ≡ at) × (l.from ≤ l.to) × (l.to ≤ l.next) × (at < l.next)
        × (l.next ≤ length text.now)) }
    ensures ends { IfSome result (λ l. LineEnds text.now at l.next) }
    ensures line { IfSome result (λ l.
        lines_of (drop at text.now)
        ≡ slice_range text.now l.from l.to ∷ lines_of (drop l.next text.now)) }
{
    if at == text.len() {
        return None;
    }
    let end = line_end(text, at);
    let next = if end < text.len() { end + 1 } else { end };
    let to = without_return(text, at, end);
    Some(LineAt { from: at, to, next })
}

/// The line that begins at the place `at` and that an LF ends, or `None` where no LF stands from
/// `at` on. Whatever follows the text, this line stays as it is.
///
/// One CR right before the LF is left off.
pub fn next_ended_line(text: &[u8], at: usize) -> Option<LineAt>
    requires { at ≤ length text.now }
    ensures none { IfNone result
        ((k : ℕ) → at ≤ k → k < length text.now → slice_index text.now k ≢ LINE_FEED) }
    ensures bounds { IfSome result (λ l.
        (l.from ≡ at) × (l.from ≤ l.to) × (l.to < l.next) × (l.next ≤ length text.now)) }
    ensures ends { IfSome result (λ l. slice_index text.now (l.next - 1) ≡ LINE_FEED) }
    ensures line { IfSome result (λ l. (more : List ℕ)
        → lines_of (drop at text.now ++ more)
        ≡ slice_range text.now l.from l.to ∷ lines_of (drop l.next text.now ++ more)) }
{
    let end = line_end(text, at);
    if end == text.len() {
        return None;
    }
    let to = without_return(text, at, end);
    Some(LineAt {
        from: at,
        to,
        next: end + 1,
    })
}
