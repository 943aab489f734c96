ghost use Rattle.std.specs.Prelude.{◌≡◌, ◌+◌, ◌≤◌, ◌==◌, ◌&&◌, nat_lt, if◌then◌else◌, length, drop, IfOk, Some};
ghost use Rattle.gl_airspace.specs.Volumes.{readings_of};
ghost use Rattle.gl_airspace.specs.Code.Going.{GoesOver};

use crate::draft::Draft;
use crate::step::{Step, take_step};
use gl_text::next_line;
use std::alloc::{AllocError, Global};

/// What the lines of a volume came to.
#[derive(Drop)]
pub struct Part {
    /// What they say, up to the first that doesn't fit.
    pub draft: Draft,
    /// The place of the first line that doesn't fit, from 0.
    pub misfit: Option<usize>,
    /// The place of the corner with which there are too many, where no line before it misfits.
    pub surplus: Option<usize>,
    /// How many lines there are, up to the first that doesn't fit.
    pub lines: usize,
    /// The place of the text where the line behind them begins.
    pub next: usize,
}

/// The place of the corner with which there are too many, after a line at a place before which
/// there were so many corners, and now are so many.
fn surplus_after(
    surplus: Option<usize>,
    place: usize,
    room: usize,
    before: usize,
    after: usize,
) -> Option<usize>
    ensures { result ≡ (if (before == room) && nat_lt before after then Some place else surplus) }
{
    if before == room && before < after {
        Some(place)
    } else {
        surplus
    }
}

/// Goes over the lines of a volume that begin at a place of a text, up to the first that doesn't
/// fit, where so many more corners may come.
pub fn read_part(alloc: Global, text: &[u8], at: usize, room: usize) -> Result<Part, AllocError>
    requires { at ≤ length text.now }
    ensures goes { IfOk result (GoesOver text.now (readings_of (drop at text.now)) room) }
    ensures counted { IfOk result (λ part. at + part.lines ≤ part.next) }
{
    let mut part = Part {
        draft: Draft::new(alloc),
        misfit: None,
        surplus: None,
        lines: 0,
        next: at,
    };
    let mut buffer = Vec::new(alloc);
    'lines: while let Some(line) = next_line(text, part.next) {
        let corners = part.draft.corners.len();
        match take_step(&mut part.draft, &mut buffer, &text[line.from..line.to])? {
            Step::Begins => return Ok(part),
            Step::Misfits => {
                part.misfit = Some(part.lines);
                return Ok(part);
            }
            Step::Fits => {
                let after = part.draft.corners.len();
                part.surplus = surplus_after(part.surplus, part.lines, room, corners, after);
                part.lines += 1;
                part.next = line.next;
            }
        }
    }
    Ok(part)
}
