ghost use Rattle.std.specs.Prelude.{◌≡◌, ◌+◌, ◌↔◌, min, IsTrue};
ghost use Rattle.gl_proof.specs.Misfit.{IsMisfit};
ghost use Rattle.gl_proof.specs.LineRefusal.{HasLine};

use crate::error::ProofError;

/// The number of the line that stands so many lines later, as it is told.
pub fn later(line: u32, lines: usize) -> u32
    ensures { result ≡ min (line + lines) 4_294_967_295 }
{
    line.saturating_add(lines.min(u32::MAX as usize) as u32)
}

/// Whether LF comes in a text.
pub(crate) fn has_line(text: &[u8]) -> bool
    ensures { IsTrue result ↔ HasLine text.now }
{
    text.contains(&b'\n')
}

/// What is told of the line at the front of a text, which has this number, where it can't stand
/// there.
pub fn misfit(text: &[u8], line: u32) -> ProofError
    ensures { IsMisfit text.now line result }
{
    if has_line(text) {
        return ProofError::Line(line);
    }
    ProofError::Cut
}
