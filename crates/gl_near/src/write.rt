ghost use Rattle.std.specs.Prelude.{◌≡◌, [], ◌∷◌, ◌++◌, map, All, IfOk, IfSome, OnOk, OnErr};
ghost use Rattle.gl_box.specs.Along.{boxes_left};
ghost use Rattle.gl_near.specs.Certificate.{box_of};
ghost use Rattle.gl_proof.specs.Kept.{Keeps};
ghost use Rattle.gl_near.specs.Line.{AreTwoSpans, IsBest, IsTextOf, IsWritable, LeastLine, PairLine, boxes_text, ended, front_lines, front_text, left_of, near_text, reason_word, spelled, text_of};
ghost use Rattle.gl_near.specs.Search.{boxes_of, near_reason_of};

use crate::claim::NearClaim;
use crate::found::{NearBest, NearClosed, NearFound, NearWhy};
use crate::turn::NearTurn;
use gl_box::WalkBoxes;
use gl_proof::{BoxWriter, LinesLeft, push_number, push_total};
use std::alloc::{AllocError, Global};

/// The letter of a reason.
fn reason_letter(why: NearWhy) -> u8
    ensures { result ∷ [] ≡ reason_word why }
{
    match why {
        NearWhy::Time => b'T',
        NearWhy::Near => b'N',
    }
}

/// Appends the lines of boxes.
fn push_boxes(out: &mut Vec<u8>, cells: &[NearClosed]) -> Result<(), AllocError>
    requires { All (λ closed. closed.cell.axes ≡ 2) cells.now }
    ensures spans { OnOk result (All (λ box. AreTwoSpans box.0) (map box_of cells.now)) }
    ensures ok { OnOk result
        (out.new.items ≡ out.old.items ++ boxes_text (map box_of cells.now)) }
    ensures err { OnErr result (Keeps out.old.items out.new.items) }
{
    let mut writer = BoxWriter::new();
    for closed in cells {
        writer.push(out, reason_letter(closed.why), &closed.cell)?;
    }
    Ok(())
}

/// Appends the line of a least distance, or of none.
fn push_least_line(out: &mut Vec<u8>, total: Option<u64>) -> Result<(), AllocError>
    ensures ok { OnOk result (out.new.items ≡ out.old.items ++ ended (LeastLine total)) }
    ensures err { OnErr result (Keeps out.old.items out.new.items) }
{
    out.extend_from_slice(b"LEAST")?;
    push_total(out, total)?;
    out.push(b'\n')?;
    Ok(())
}

/// Appends the line of a pair.
fn push_pair_line(out: &mut Vec<u8>, first: u32, second: u32) -> Result<(), AllocError>
    ensures ok { OnOk result (out.new.items ≡ out.old.items ++ ended (PairLine first second)) }
    ensures err { OnErr result (Keeps out.old.items out.new.items) }
{
    out.extend_from_slice(b"PAIR")?;
    push_number(out, b' ', first.into())?;
    push_number(out, b' ', second.into())?;
    out.push(b'\n')?;
    Ok(())
}

/// Appends the lines of the least distance and of its pair.
fn push_front(out: &mut Vec<u8>, best: Option<NearBest>) -> Result<(), AllocError>
    ensures numbers { OnOk result (IfSome best IsBest) }
    ensures ok { OnOk result (out.new.items ≡ out.old.items ++ spelled (front_lines best)) }
    ensures err { OnErr result (Keeps out.old.items out.new.items) }
{
    match best {
        None => push_least_line(out, None),
        Some(best) => {
            push_least_line(out, Some(best.total))?;
            push_pair_line(out, best.first, best.second)
        }
    }
}

/// Appends the lines that stand before the boxes.
fn push_front_lines(out: &mut Vec<u8>, best: Option<NearBest>) -> Result<(), AllocError>
    ensures numbers { OnOk result (IfSome best IsBest) }
    ensures ok { OnOk result (out.new.items ≡ out.old.items ++ front_text best) }
    ensures err { OnErr result (Keeps out.old.items out.new.items) }
{
    out.extend_from_slice(b"GLIDENEAR 1\n")?;
    push_front(out, best)
}

/// What of a proof comes next.
#[derive(Clone, Copy)]
pub enum NearPart {
    /// The lines before the boxes.
    Front(Option<NearBest>),
    /// A box, or the end where none is left.
    Boxes,
    /// Nothing any more.
    Over,
}

/// The lines of a proof that are still to come.
#[derive(Drop)]
pub struct NearLines<'a> {
    pub part: NearPart,
    pub boxes: WalkBoxes<'a, NearTurn>,
    writer: BoxWriter,
}

impl NearFound {
    /// The proof of what was found, line by line. The only error is want of memory.
    pub fn lines(&self, alloc: Global) -> Result<NearLines<'_>, AllocError>
        ensures { IfOk result (λ lines. left_of lines.part (boxes_left near_reason_of lines.boxes)
            ≡ near_text self.now.best (boxes_of self.now)) }
    {
        Ok(NearLines {
            part: NearPart::Front(self.best),
            boxes: self.closed.boxes(alloc)?,
            writer: BoxWriter::new(),
        })
    }
}

impl LinesLeft for NearLines<'_> {
    ghost left = { λ lines. left_of lines.part (boxes_left near_reason_of lines.boxes) };

    fn push_line(&mut self, out: &mut Vec<u8>) -> Result<bool, AllocError> {
        match self.part {
            NearPart::Front(best) => {
                push_front_lines(out, best)?;
                self.part = NearPart::Boxes;
            }
            NearPart::Boxes => match self.boxes.next()? {
                Some(why) => {
                    let letter = reason_letter(why);
                    self.writer.push(out, letter, &self.boxes.opened.first)?;
                }
                None => {
                    out.extend_from_slice(b"END\n")?;
                    self.part = NearPart::Over;
                }
            },
            NearPart::Over => return Ok(false),
        }
        Ok(true)
    }
}

/// Appends the text of a claim.
fn push_claim(out: &mut Vec<u8>, claim: &NearClaim) -> Result<(), AllocError>
    requires { IsWritable claim.now }
    ensures readable { OnOk result
        (IsTextOf (text_of claim.now) claim.now.best (map box_of claim.now.closed.items)) }
    ensures ok { OnOk result (out.new.items ≡ out.old.items ++ text_of claim.now) }
    ensures err { OnErr result (Keeps out.old.items out.new.items) }
{
    push_front_lines(out, claim.best)?;
    push_boxes(out, claim.closed.as_slice())?;
    out.extend_from_slice(b"END\n")?;
    Ok(())
}

/// Appends the whole text of a claim, each of whose cells has two axes; `read_near` reads it as the
/// same claim. The only error is want of memory, and `out` is then as before.
pub fn write_near(out: &mut Vec<u8>, c: &NearClaim) -> Result<(), AllocError>
    requires { IsWritable c.now }
    ensures ok { OnOk result (out.new.items ≡ out.old.items ++ text_of c.now) }
    ensures readable { OnOk result
        (IsTextOf (text_of c.now) c.now.best (map box_of c.now.closed.items)) }
    ensures err { OnErr result (out.new.items ≡ out.old.items) }
{
    let length = out.len();
    let written = push_claim(out, c);
    if written.is_err() {
        out.truncate(length);
    }
    written
}
