ghost use Rattle.std.specs.Prelude.{◌≡◌, ◌<◌, ◌≤◌, [], ◌∷◌, ◌++◌, drop, take, length, map, slice_set, codes, All, OnOk, OnErr};
ghost use Rattle.gl_box.specs.Cell.{spans_of};
ghost use Rattle.gl_proof.specs.Code.Standing.{AreInOrder, StandFrom};
ghost use Rattle.gl_proof.specs.Kept.{Keeps};
ghost use Rattle.gl_proof.specs.Words.{IsSpan, spaced, span_word};

use crate::backwards::{SPAN_ROOM, write_front, write_span};
use gl_box::{Cell, MOST_AXES, Span};
use std::alloc::AllocError;

/// Room for the line of a box, with LF.
const LINE_ROOM: usize = MOST_AXES * SPAN_ROOM + 6;

/// How many places are kept: where the words of each axis begin, and where the last ones end.
const PLACES: usize = MOST_AXES + 1;

/// The first axis from which on some spans are the same as others.
fn first_same(spans: &[Span], others: &[Span]) -> usize
    requires { length spans.now ≡ length others.now }
    ensures within { result ≤ length others.now }
    ensures same { drop result spans.now ≡ drop result others.now }
{
    let mut first = others.len();
    'axes: while first > 0 && spans[first - 1] == others[first - 1] {
        first -= 1;
    }
    first
}

/// Writes the words of the axes before `first` in front of those that stand already, and notes
/// where each begins.
fn write_words(buffer: &mut [u8], starts: &mut [usize], first: usize, spans: &[Span])
    requires within { first ≤ length spans.now }
    requires places { length spans.now < length starts.old }
    requires order { AreInOrder starts.old first (length spans.now) }
    requires standing { StandFrom buffer.old starts.old spans.now first }
    ensures order { AreInOrder starts.new 0 (length spans.now) }
    ensures standing { StandFrom buffer.new starts.new spans.now 0 }
{
    for k in (0..first).rev() {
        starts[k] = write_span(buffer, starts[k + 1], spans[k]);
    }
}

/// Writes lines of boxes. A line is written from its end to its front, and the words of the last
/// axes stay where they are while their spans are the same from box to box.
#[derive(Drop)]
pub struct BoxWriter {
    bytes: [u8; LINE_ROOM],
    /// How many axes have their words there.
    axes: usize,
    /// The spans whose words these are.
    spans: [Span; MOST_AXES],
    /// Where the words from each axis on begin, and at last LF.
    starts: [usize; PLACES],
    ghost room: { length bytes ≡ 226 },
    ghost ten_axes: { axes ≤ 10 },
    ghost ten_spans: { length spans ≡ 10 },
    ghost places: { length starts ≡ 11 },
    ghost order: { AreInOrder starts 0 axes },
    ghost standing: { StandFrom bytes starts (take axes spans) 0 },
}

impl BoxWriter {
    /// One that has written no line.
    pub fn new() -> BoxWriter {
        BoxWriter {
            bytes: [b'\n'; LINE_ROOM],
            axes: 0,
            spans: [Span { lo: 0, hi: 0 }; MOST_AXES],
            starts: [LINE_ROOM - 1; PLACES],
        }
    }

    /// The first axis from which on the words of some spans stand there, once the place of LF is
    /// noted behind them.
    fn first_standing(&self, spans: &[Span]) -> usize
        requires { length spans.now ≤ 10 }
        ensures within { result ≤ length spans.now }
        ensures order { let starts = slice_set self.now.starts (length spans.now) 225 in
            AreInOrder starts result (length spans.now) }
        ensures standing { let starts = slice_set self.now.starts (length spans.now) 225 in
            StandFrom self.now.bytes starts spans.now result }
    {
        if spans.len() == self.axes {
            first_same(&self.spans[..self.axes], spans)
        } else {
            spans.len()
        }
    }

    /// Appends the line of a box that is closed by the reason of a letter. The only error is want
    /// of memory; `out` has then what it had, and perhaps more.
    pub fn push(&mut self, out: &mut Vec<u8>, letter: u8, cell: &Cell) -> Result<(), AllocError>
        ensures spans { OnOk result (All IsSpan (spans_of cell.now)) }
        ensures ok { OnOk result (out.new.items ≡ out.old.items ++ (codes "BOX" ++ 32 ∷ letter
            ∷ (spaced (map span_word (spans_of cell.now)) ++ 10 ∷ []))) }
        ensures err { OnErr result (Keeps out.old.items out.new.items) }
    {
        let axes = cell.axes as usize;
        let spans = &cell.spans[..axes];
        let first = self.first_standing(spans);
        self.starts[axes] = LINE_ROOM - 1;
        write_words(&mut self.bytes, &mut self.starts, first, spans);
        self.axes = axes;
        self.spans = cell.spans;
        let start = write_front(&mut self.bytes, self.starts[0], letter);
        out.extend_from_slice(&self.bytes[start..])
    }
}
