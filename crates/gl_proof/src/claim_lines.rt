ghost use Rattle.std.specs.Prelude.{◌≡◌, ◌+◌, ℕ, List, length, map, IfOk, IfErr, IsTrue};
ghost use Rattle.gl_box.specs.Closed.{box_of};
ghost use Rattle.gl_proof.specs.Claim.{fix_lines, statement_of};
ghost use Rattle.gl_text.specs.Forms.{is_number};
ghost use Rattle.gl_proof.specs.Misfit.{OrMemory};
ghost use Rattle.gl_proof.specs.Code.Passage.{AreBoxesAt, AreClaimedAt, IsClaimRead, LacksClaim, LacksFixes, AddsBoxes};

use crate::claim::Claim;
use crate::error::ProofError;
use crate::front::behind;
use crate::line::{add_box_at, claim_line_at, fixes_at};
use crate::told::{later, misfit};
use gl_box::{Boxes, Closed};
use gl_desk::Name;
use std::alloc::{AllocError, Global};
use std::str::from_utf8;

/// Adds the boxes whose lines stand at the front of a text to some boxes, and hands out what
/// follows them. The only error is want of memory.
pub fn add_boxes_at<'a>(cells: &mut Vec<Closed>, text: &'a [u8]) -> Result<&'a [u8], AllocError>
    ensures { IfOk result (λ rest. AddsBoxes text.now cells.old.items cells.new.items rest.now) }
{
    let mut rest = text;
    'boxes: while let Some(after) = add_box_at(cells, rest)? {
        rest = after;
    }
    Ok(rest)
}

/// The boxes whose lines stand at the front of a text, and what follows them. The only error is
/// want of memory.
fn boxes_at(alloc: Global, text: &[u8]) -> Result<(Vec<Closed>, &[u8]), AllocError>
    ensures { IfOk result (λ read. AreBoxesAt text.now (map box_of read.0.items) read.1.now) }
{
    let mut cells = Vec::new(alloc);
    let rest = add_boxes_at(&mut cells, text)?;
    Ok((cells, rest))
}

/// The numbers of the fixes whose line stands at the front of a text where there is a total, and
/// what follows it. That line has this number.
fn claimed_at(
    alloc: Global,
    total: Option<u64>,
    text: &[u8],
    line: u32,
) -> Result<(Vec<u32>, &[u8]), ProofError>
    ensures ok { IfOk result (λ read. AreClaimedAt total text.now read.0.items read.1.now) }
    ensures refused { IfErr result (λ error.
        OrMemory error (LacksFixes total text.now line error)) }
{
    if total.is_none() {
        return Ok((Vec::new(alloc), text));
    }
    let Some(words) = behind(text, b"FIX") else {
        return Err(misfit(text, line));
    };
    let Some(read) = fixes_at(alloc, words)? else {
        return Err(misfit(text, line));
    };
    Ok(read)
}

/// How many lines of a claim stand before its boxes.
fn lines_before_boxes(total: Option<u64>) -> usize
    ensures { (fixes : List ℕ) → result ≡ 1 + length (fix_lines total fixes) }
{
    match total {
        None => 1,
        Some(_) => 2,
    }
}

/// The name of an entrant's number. The only error is want of memory.
pub(crate) fn name_of(alloc: Global, number: &[u8]) -> Result<Name, AllocError>
    requires { IsTrue (is_number number.now) }
    ensures { IfOk result (λ name. name ≡ number.now) }
{
    let Ok(text) = from_utf8(number) else {
        unreachable!();
    };
    Name::from_text(alloc, text)
}

/// The claim whose lines stand at the front of a text, what follows them, and the number of the
/// line that follows. The first of them has the number that is given.
pub fn claim_at(alloc: Global, text: &[u8], line: u32) -> Result<(Claim, &[u8], u32), ProofError>
    ensures ok { IfOk result (λ read.
        IsClaimRead text.now line (statement_of read.0) read.1.now read.2) }
    ensures refused { IfErr result (λ error. OrMemory error (LacksClaim text.now line error)) }
{
    let Some((front, rest)) = claim_line_at(text) else {
        return Err(misfit(text, line));
    };
    let (fixes, rest) = match claimed_at(alloc, front.total, rest, later(line, 1)) {
        Ok(read) => read,
        Err(error) => return Err(error),
    };
    let (cells, rest) = boxes_at(alloc, rest)?;
    let behind_front = later(line, lines_before_boxes(front.total));
    let next = later(behind_front, cells.len());
    let claim = Claim {
        number: name_of(alloc, front.number)?,
        kind: front.kind,
        total: front.total,
        fixes,
        cells: Boxes::Listed(cells),
    };
    Ok((claim, rest, next))
}
