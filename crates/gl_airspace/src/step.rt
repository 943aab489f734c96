ghost use Rattle.std.specs.Prelude.{◌≡◌, ◌++◌, [], ◌∷◌, List, IfOk};
ghost use Rattle.gl_airspace.specs.Line.{reading_of};
ghost use Rattle.gl_airspace.specs.Code.Parts.{Says, IsStep, SaysAfter};
ghost use Rattle.gl_airspace.specs.Volumes.{Reading};

use crate::air_line::{AirLine, said_by, squeeze};
use crate::draft::Draft;
use std::alloc::AllocError;

/// What a line is behind the lines of a volume.
#[derive(Clone, Copy)]
pub enum Step {
    /// The beginning of the next volume.
    Begins,
    /// A line that fits.
    Fits,
    /// A line that doesn't read, or doesn't fit.
    Misfits,
}

/// Takes a line of the text behind the lines of a volume, if it is one and fits. The buffer is for
/// the squeezed line.
pub fn take_step(draft: &mut Draft, buffer: &mut Vec<u8>, line: &[u8]) -> Result<Step, AllocError>
    ensures step { (lines : List Reading) → Says draft.old lines
        → IfOk result (IsStep lines (reading_of line.now)) }
    ensures says { (lines : List Reading) → Says draft.old lines
        → IfOk result (SaysAfter draft.new lines (reading_of line.now)) }
{
    squeeze(line, buffer)?;
    match said_by(buffer.as_slice()) {
        Some(AirLine::Begins) => Ok(Step::Begins),
        Some(said) => {
            if draft.take(said)? {
                Ok(Step::Fits)
            } else {
                Ok(Step::Misfits)
            }
        }
        None => Ok(Step::Misfits),
    }
}
