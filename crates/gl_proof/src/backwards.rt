ghost use Rattle.std.specs.Prelude.{◌≡◌, ◌+◌, ◌≤◌, ◌++◌, ◌∷◌, length, drop};
ghost use Rattle.std.specs.Fmt.{decimal};
ghost use Rattle.gl_box.specs.Cell.{ends};
ghost use Rattle.gl_proof.specs.Words.{IsSpan, span_word};

use gl_box::Span;
use gl_text::write_digits;

/// The most bytes of a span behind its space: two numbers of ten digits, a hyphen and the space.
pub(crate) const SPAN_ROOM: usize = 22;

/// Writes a byte before the place `end`, and answers where it stands.
#[inline]
fn write_byte(buffer: &mut [u8], end: usize, byte: u8) -> usize
    requires room { 1 ≤ end }
    requires within { end ≤ length buffer.old }
    ensures start { result + 1 ≡ end }
    ensures written { drop result buffer.new ≡ byte ∷ drop end buffer.old }
{
    let at = end - 1;
    buffer[at] = byte;
    at
}

/// Writes the digits of a number so that they end before the place `end`, and answers where they
/// begin.
fn write_number(buffer: &mut [u8], end: usize, number: u32) -> usize
    requires room { 10 ≤ end }
    requires within { end ≤ length buffer.old }
    ensures start { result + length (decimal number) ≡ end }
    ensures most { end ≤ result + 10 }
    ensures written { drop result buffer.new ≡ decimal number ++ drop end buffer.old }
{
    write_digits(buffer, end, u64::from(number))
}

/// Writes a span behind its space so that it ends before the place `end`, and answers where it
/// begins.
pub(crate) fn write_span(buffer: &mut [u8], end: usize, span: Span) -> usize
    requires room { 22 ≤ end }
    requires within { end ≤ length buffer.old }
    ensures span { IsSpan (ends span) }
    ensures start { result ≤ end }
    ensures most { end ≤ result + 22 }
    ensures written { drop result buffer.new
        ≡ 32 ∷ (span_word (ends span) ++ drop end buffer.old) }
{
    let hyphen = write_number(buffer, end, span.hi);
    let lo = write_byte(buffer, hyphen, b'-');
    let space = write_number(buffer, lo, span.lo);
    write_byte(buffer, space, b' ')
}

/// Writes the words with which the line of a box begins so that they end before the place `end`, and
/// answers where they begin.
pub(crate) fn write_front(buffer: &mut [u8], end: usize, letter: u8) -> usize
    requires room { 5 ≤ end }
    requires within { end ≤ length buffer.old }
    ensures start { result ≤ end }
    ensures written { drop result buffer.new
        ≡ 66 ∷ 79 ∷ 88 ∷ 32 ∷ letter ∷ drop end buffer.old }
{
    let space = write_byte(buffer, end, letter);
    let x = write_byte(buffer, space, b' ');
    let o = write_byte(buffer, x, b'X');
    let b = write_byte(buffer, o, b'O');
    write_byte(buffer, b, b'B')
}
