ghost use Rattle.std.specs.Prelude.{◌≡◌, IfOk};
ghost use Rattle.gl_proof.specs.Code.Places.{StandsAt};
ghost use Rattle.gl_proof.specs.Fronts.{Reads};
ghost use Rattle.gl_proof.specs.Line.{Line};
ghost use Rattle.gl_proof.specs.Lemmas.ProofLines.{are_proof_lines};
ghost use Rattle.gl_proof.specs.ProofLines.{is_ended, line_said, place_after, proof_rules};

use crate::claim::ClaimKind;
use crate::claim_lines::name_of;
use crate::front::behind;
use crate::line::{box_at, claim_line_at, fixes_at};
use crate::line_reader::TextLine;
use crate::proof_place::ProofPlace;
use crate::read::heading_at;
use crate::said_line::ProofLine;
use std::alloc::{AllocError, Global};

/// The heading at the front of a text, and what follows it.
fn heading_line(text: &[u8]) -> Option<(ProofLine, &[u8])>
    ensures { Reads line_said (StandsAt ProofPlace.Start text.now) result }
{
    let (version, rest) = heading_at(text)?;
    Some((ProofLine::Heading(version), rest))
}

/// The line of a claim or the end at the front of a text, and what follows it. The only error is
/// want of memory.
fn claim_or_end(alloc: Global, text: &[u8]) -> Result<Option<(ProofLine, &[u8])>, AllocError>
    ensures { IfOk result (Reads line_said (StandsAt ProofPlace.Headed text.now)) }
{
    if let Some(rest) = behind(text, b"END\n") {
        return Ok(Some((ProofLine::End, rest)));
    }
    let Some((front, rest)) = claim_line_at(text) else {
        return Ok(None);
    };
    let line = ProofLine::Claim {
        number: name_of(alloc, front.number)?,
        kind: front.kind,
        total: front.total,
    };
    Ok(Some((line, rest)))
}

/// The line of a claim's fixes at the front of a text, and what follows it. The only error is want
/// of memory.
fn fixes_line(alloc: Global, text: &[u8]) -> Result<Option<(ProofLine, &[u8])>, AllocError>
    ensures { IfOk result (Reads line_said (StandsAt ProofPlace.Claimed text.now)) }
{
    let Some(words) = behind(text, b"FIX") else {
        return Ok(None);
    };
    let Some((fixes, rest)) = fixes_at(alloc, words)? else {
        return Ok(None);
    };
    Ok(Some((ProofLine::Fixes(fixes), rest)))
}

/// The line of a box or a claim, or the end, at the front of a text, and what follows it. The only
/// error is want of memory.
fn line_within(alloc: Global, text: &[u8]) -> Result<Option<(ProofLine, &[u8])>, AllocError>
    ensures { IfOk result (Reads line_said (StandsAt ProofPlace.Within text.now)) }
{
    if let Some((closed, rest)) = box_at(text) {
        return Ok(Some((ProofLine::Box(closed), rest)));
    }
    claim_or_end(alloc, text)
}

impl TextLine for ProofLine {
    type Place = ProofPlace;

    ghost Says = { Line };

    ghost said = { line_said };

    ghost rules = { proof_rules };

    ghost is_place = { λ last place. place ≡ place_after last };

    ghost ends = { is_ended };

    ghost laws = { are_proof_lines };

    fn start() -> ProofPlace {
        ProofPlace::Start
    }

    fn place(&self) -> ProofPlace {
        match self {
            ProofLine::Heading(_) => ProofPlace::Headed,
            ProofLine::Claim { total: Some(_), .. } => ProofPlace::Claimed,
            ProofLine::Claim { total: None, .. } | ProofLine::Fixes(_) | ProofLine::Box(_) => {
                ProofPlace::Within
            }
            ProofLine::End => ProofPlace::Ended,
        }
    }

    fn has_ended(place: ProofPlace) -> bool {
        place == ProofPlace::Ended
    }

    fn next_at(
        alloc: Global,
        place: ProofPlace,
        text: &[u8],
    ) -> Result<Option<(ProofLine, &[u8])>, AllocError> {
        match place {
            ProofPlace::Start => Ok(heading_line(text)),
            ProofPlace::Headed => claim_or_end(alloc, text),
            ProofPlace::Claimed => fixes_line(alloc, text),
            ProofPlace::Within => line_within(alloc, text),
            ProofPlace::Ended => Ok(None),
        }
    }
}
