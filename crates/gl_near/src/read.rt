ghost use Rattle.std.specs.Prelude.{◌≡◌, ◌≢◌, ◌⊎◌, ℕ, List, Option, map, IfOk, IfErr, IsErrOf, MatchResult, OnOk};
ghost use Rattle.gl_proof.specs.declared.error.ProofError.{ProofError};
ghost use Rattle.gl_proof.specs.declared.error.ProofError.TheVariants.{Memory};
ghost use Rattle.gl_proof.specs.LineRefusal.{IsRefusal};
ghost use Rattle.gl_near.specs.declared.found.NearBest.{NearBest as Best};
ghost use Rattle.gl_near.specs.declared.found.NearWhy.{NearWhy};
ghost use Rattle.gl_near.specs.Certificate.{box_of};
ghost use Rattle.gl_near.specs.Code.Reading.{known_by};
ghost use Rattle.gl_near.specs.Line.{IsTextOf, near_grammar};
ghost use Rattle.gl_near.specs.LineCheck.{known_with};
ghost use Rattle.gl_near.specs.NearLines.{line_said};

use crate::claim::NearClaim;
use crate::line_check::best_with;
use crate::near_line::NearLine;
use gl_proof::{ProofError, begin_lines, end_lines, feed_lines, next_line};
use std::alloc::{AllocError, Global};

/// Notes what the next line of a text says. The only error is want of memory.
fn note_line(
    line: NearLine,
    total: &mut Option<u64>,
    claim: &mut NearClaim,
) -> Result<(), AllocError>
    ensures { OnOk result (known_by total.new claim.new
        ≡ known_with (known_by total.old claim.old) (line_said line)) }
{
    match line {
        NearLine::Heading | NearLine::End => (),
        NearLine::Least(least) => *total = least,
        NearLine::Pair(first, second) => {
            claim.best = best_with(*total, first, second);
            claim.closed.clear();
        }
        NearLine::Box(closed) => claim.closed.push(closed)?,
    }
    Ok(())
}

/// The claim of a text, or why it is none.
fn read_lines(alloc: Global, text: &[u8]) -> Result<NearClaim, ProofError>
    ensures ok { IfOk result (λ claim.
        IsTextOf text.now claim.best (map box_of claim.closed.items)) }
    ensures refused { IfErr result (IsRefusal near_grammar text.now) }
{
    let mut reader = begin_lines::<NearLine>(alloc);
    feed_lines::<NearLine>(&mut reader, text)?;
    let mut total = None;
    let mut claim = NearClaim {
        best: None,
        closed: Vec::new(alloc),
    };
    'lines: while let Some(line) = next_line::<NearLine>(&mut reader)? {
        note_line(line, &mut total, &mut claim)?;
    }
    match end_lines::<NearLine>(&reader) {
        Ok(()) => Ok(claim),
        Err(error) => Err(error),
    }
}

/// Reads a claim from the text of a proof: the one claim with this text. So what was written is
/// read again, and there is no second spelling of a proof.
///
/// [`ProofError::Heading`] comes where the text doesn't begin with the heading and its LF,
/// [`ProofError::Line`] with the first line, ended by LF, that may not stand where it stands, or
/// that begins behind the end, and [`ProofError::Cut`] where neither of these is so and the end is
/// missing; [`ProofError::Memory`] only for want of memory.
pub fn read_near(alloc: Global, text: &[u8]) -> Result<NearClaim, ProofError>
    // What is read has this text, and what has this text is read.
    ensures ok { IfOk result (λ claim.
        IsTextOf text.now claim.best (map box_of claim.closed.items)) }
    ensures only { (best : Option Best) (boxes : List (List (ℕ × ℕ) × NearWhy))
        → IsTextOf text.now best boxes
        → MatchResult result
        (λ claim. (claim.best ≡ best) × (map box_of claim.closed.items ≡ boxes))
        (λ error. error ≡ Memory) }

    // What is told is so, and what is so is told.
    ensures refused { IfErr result (IsRefusal near_grammar text.now) }
    ensures exact { (error : ProofError) → error ≢ Memory → IsRefusal near_grammar text.now error
        → IsErrOf result error ⊎ IsErrOf result Memory }
{
    read_lines(alloc, text)
}
