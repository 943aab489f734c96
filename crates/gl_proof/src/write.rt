ghost use Rattle.std.specs.Prelude.{◌≡◌, [], ◌∷◌, ◌++◌, map, IfOk, OnOk, OnErr};
ghost use Rattle.std.specs.Fmt.{decimal};
ghost use Rattle.gl_box.specs.Along.{boxes_left};
ghost use Rattle.gl_box.specs.Closed.{box_of};
ghost use Rattle.gl_box.specs.InLists.{still_in};
ghost use Rattle.gl_box.specs.Turns.{reason_of};
ghost use Rattle.gl_proof.specs.Kept.{Keeps, Writes};
ghost use Rattle.gl_proof.specs.Words.{spaced};
ghost use Rattle.gl_proof.specs.Claim.{IsWritable, boxes_text, claim_text, front_text, left_of, statement_of};
ghost use Rattle.gl_proof.specs.Line.{ClaimLine, FixLine, ended, kind_word, reason_word};

use crate::box_writer::BoxWriter;
use crate::claim::{Claim, ClaimKind};
use crate::lines_left::{LinesLeft, write_all};
use crate::push::{push_number, push_total, push_word};
use gl_box::{BoxesLeft, Closed, GoalTurn, WalkBoxes, Why};
use std::alloc::{AllocError, Global};

/// The word of a kind of claim.
fn kind_word(kind: ClaimKind) -> &'static [u8]
    ensures { result.now ≡ kind_word kind }
{
    match kind {
        ClaimKind::Area => b"AREA",
        ClaimKind::Out => b"OUT",
        ClaimKind::Free => b"FREE",
        ClaimKind::Triangle => b"TRIANGLE",
    }
}

/// The letter of a reason.
fn reason_letter(why: Why) -> u8
    ensures { result ∷ [] ≡ reason_word why }
{
    match why {
        Why::Disordered => b'D',
        Why::Shut => b'S',
        Why::Bound => b'B',
    }
}

/// Appends the numbers of fixes, each behind a space.
fn push_fixes(out: &mut Vec<u8>, fixes: &[u32]) -> Result<(), AllocError>
    ensures ok { OnOk result (out.new.items ≡ out.old.items ++ spaced (map decimal fixes.now)) }
    ensures err { OnErr result (Keeps out.old.items out.new.items) }
{
    for &fix in fixes {
        push_number(out, b' ', fix.into())?;
    }
    Ok(())
}

/// Appends the line of the fixes.
fn push_fix_line(out: &mut Vec<u8>, fixes: &[u32]) -> Result<(), AllocError>
    ensures ok { OnOk result (out.new.items ≡ out.old.items ++ ended (FixLine fixes.now)) }
    ensures err { OnErr result (Keeps out.old.items out.new.items) }
{
    out.extend_from_slice(b"FIX")?;
    push_fixes(out, fixes)?;
    out.push(b'\n')?;
    Ok(())
}

/// Appends the line with which a claim begins.
fn push_claim_line(
    out: &mut Vec<u8>,
    number: &[u8],
    kind: ClaimKind,
    total: Option<u64>,
) -> Result<(), AllocError>
    ensures ok { OnOk result
        (out.new.items ≡ out.old.items ++ ended (ClaimLine number.now kind total)) }
    ensures err { OnErr result (Keeps out.old.items out.new.items) }
{
    out.extend_from_slice(b"CLAIM")?;
    push_word(out, b' ', number)?;
    push_word(out, b' ', kind_word(kind))?;
    push_total(out, total)?;
    out.push(b'\n')?;
    Ok(())
}

/// Appends the lines of a claim that stand before its boxes.
fn push_front(out: &mut Vec<u8>, claim: &Claim) -> Result<(), AllocError>
    ensures ok { OnOk result
        (out.new.items ≡ out.old.items ++ front_text (statement_of claim.now)) }
    ensures err { OnErr result (Keeps out.old.items out.new.items) }
{
    let number = claim.number.as_str().as_bytes();
    push_claim_line(out, number, claim.kind, claim.total)?;
    match claim.total {
        None => Ok(()),
        Some(_) => push_fix_line(out, claim.fixes.as_slice()),
    }
}

/// Appends the line of the next box of a walk, and answers whether there was one. The only error is
/// want of memory; `out` has then what it had, and perhaps more.
fn push_walked(
    out: &mut Vec<u8>,
    writer: &mut BoxWriter,
    boxes: &mut WalkBoxes<'_, GoalTurn>,
) -> Result<bool, AllocError>
    ensures ok { IfOk result (Writes out.old.items out.new.items
        (boxes_text (boxes_left reason_of boxes.old))
        (boxes_text (boxes_left reason_of boxes.new))) }
    ensures err { OnErr result (Keeps out.old.items out.new.items) }
{
    match boxes.next()? {
        Some(why) => {
            writer.push(out, reason_letter(why), &boxes.opened.first)?;
            Ok(true)
        }
        None => Ok(false),
    }
}

/// Appends the line of the next box of a list, and answers whether there was one. The only error is
/// want of memory; `out` has then what it had, and perhaps more.
fn push_listed(
    out: &mut Vec<u8>,
    writer: &mut BoxWriter,
    boxes: &mut &[Closed],
) -> Result<bool, AllocError>
    ensures ok { IfOk result (Writes out.old.items out.new.items
        (boxes_text (map box_of boxes.old.now)) (boxes_text (map box_of boxes.new.now))) }
    ensures err { OnErr result (Keeps out.old.items out.new.items) }
{
    match boxes.split_first() {
        Some((first, rest)) => {
            *boxes = rest;
            writer.push(out, reason_letter(first.why), &first.cell)?;
            Ok(true)
        }
        None => Ok(false),
    }
}

/// The lines of a claim that are still to come.
#[derive(Drop)]
pub struct ClaimLines<'a> {
    pub claim: &'a Claim,
    /// Whether the lines before the boxes have gone.
    pub begun: bool,
    pub boxes: BoxesLeft<'a>,
    writer: BoxWriter,
}

impl Claim {
    /// The lines of the claim, as docs/proof-file.md has them. The only error is want of memory.
    pub fn lines(&self, alloc: Global) -> Result<ClaimLines<'_>, AllocError>
        ensures { IfOk result (λ lines. left_of lines.begun (statement_of lines.claim.now)
            (still_in lines.boxes) ≡ claim_text (statement_of self.now)) }
    {
        Ok(ClaimLines {
            claim: self,
            begun: false,
            boxes: self.cells.each(alloc)?,
            writer: BoxWriter::new(),
        })
    }
}

impl LinesLeft for ClaimLines<'_> {
    ghost left = { λ lines.
        left_of lines.begun (statement_of lines.claim.now) (still_in lines.boxes) };

    fn push_line(&mut self, out: &mut Vec<u8>) -> Result<bool, AllocError> {
        if !self.begun {
            push_front(out, self.claim)?;
            self.begun = true;
            return Ok(true);
        }
        match &mut self.boxes {
            BoxesLeft::Walked(boxes) => push_walked(out, &mut self.writer, boxes),
            BoxesLeft::Listed(boxes) => push_listed(out, &mut self.writer, boxes),
        }
    }
}

/// Appends the lines of a claim.
fn push_claim(out: &mut Vec<u8>, claim: &Claim) -> Result<(), AllocError>
    ensures ok { OnOk result
        (out.new.items ≡ out.old.items ++ claim_text (statement_of claim.now)) }
    ensures err { OnErr result (Keeps out.old.items out.new.items) }
{
    let lines = claim.lines(*out.allocator())?;
    write_all(out, lines)
}

/// Appends just the lines of a claim, as docs/proof-file.md has them. The only error is want of
/// memory, and `out` is then as before.
pub fn write_claim(out: &mut Vec<u8>, claim: &Claim) -> Result<(), AllocError>
    requires { IsWritable claim.now }
    ensures ok { OnOk result
        (out.new.items ≡ out.old.items ++ claim_text (statement_of claim.now)) }
    ensures err { OnErr result (out.new.items ≡ out.old.items) }
{
    let length = out.len();
    let written = push_claim(out, claim);
    if written.is_err() {
        out.truncate(length);
    }
    written
}
