ghost use Rattle.std.specs.Prelude.{◌≡◌, ◌<◌, ℕ, List, length, IfSome, MatchOption};
ghost use Rattle.gl_box.specs.Cell.{spans_of};
ghost use Rattle.gl_proof.specs.Code.Fronts.{IsBoxAt};
ghost use Rattle.gl_proof.specs.Line.{Line};
ghost use Rattle.gl_proof.specs.LineReading.{IsRead, unread};
ghost use Rattle.gl_proof.specs.ProofLines.{place_after, proof_rules, with_box};

use crate::line::box_into;
use crate::line_reader::{note_left, unread};
use crate::line_state::{LineReader, Progress};
use crate::proof_place::ProofPlace;
use crate::said_line::ProofLine;
use gl_box::{Cell, Why};

/// The reason of the box whose line stands at the front of what isn't read yet, and how many bytes
/// are left behind it; its spans are given to a cell.
#[inline(always)]
fn box_left(reader: &LineReader<ProofPlace>, cell: &mut Cell) -> Option<(Why, usize)>
    ensures { IfSome result (λ taken. (rest : List ℕ) × (taken.1 ≡ length rest)
        × IsBoxAt (unread reader.now) (spans_of cell.new, taken.0) rest) }
{
    let (why, rest) = box_into(cell, unread(reader))?;
    Some((why, rest.len()))
}

/// Takes the box whose line comes next of those that were fed: its reason is answered, and its spans
/// are given to a cell. `None` where no such line comes whole. It is a way round the line, which
/// takes longer to hand over than to read.
#[inline]
pub fn next_box(reader: &mut LineReader<ProofPlace>, cell: &mut Cell) -> Option<Why>
    ensures read { (text : List ℕ) (lines : List Line)
        → IsRead proof_rules (λ last place. place ≡ place_after last) text lines reader.old
        → IsRead proof_rules (λ last place. place ≡ place_after last) text
        (with_box lines (spans_of cell.new) result) reader.new }
    ensures shorter { MatchOption result (unread reader.new ≡ unread reader.old)
        (λ _. length (unread reader.new) < length (unread reader.old)) }
{
    match reader.progress {
        Progress::Going => (),
        _ => return None,
    }
    match reader.place {
        ProofPlace::Within => (),
        _ => return None,
    }
    let (why, left) = box_left(reader, cell)?;
    note_left::<ProofLine>(reader, ProofPlace::Within, left);
    Some(why)
}
