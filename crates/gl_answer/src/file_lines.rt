ghost use Rattle.std.specs.Prelude.{◌≡◌, ◌<◌, ◌≤◌, ◌++◌, ◌∷◌, ℕ, Bool, true, false, List, [], Option, length, Err, IfErr, IfOk, IfSome, MatchOption, MatchResult};
ghost use Rattle.gl_box.specs.Cell.{spans_of};
ghost use Rattle.gl_desk.specs.Answers.{OnlyReads, reading_stop};
ghost use Rattle.gl_desk.specs.Desk.{FilesByName, HasFile, IsLongerThan};
ghost use Rattle.gl_proof.specs.Line.{Line};
ghost use Rattle.gl_proof.specs.LineReading.{IsExhausted, IsWhole, last_of};
ghost use Rattle.gl_proof.specs.LineRules.{IsTextRefused, MayCome};
ghost use Rattle.gl_proof.specs.ProofLines.{place_after, proof_rules, with_box};
ghost use Rattle.gl_answer.specs.FileLines.{Feeds, HasAllLines, HasLines, left_of};
ghost use Rattle.gl_answer.specs.Halts.{AreBytes, halt_stop};

use crate::file_state::{FileLines, PIECE};
use crate::halt::{Halt, unread};
use gl_box::{Cell, Why};
use gl_desk::{Desk, Name, ReadError};
use gl_proof::{
    ProofError, ProofPlace, TextLine, begin_lines, end_lines, feed_lines, next_box, next_line,
};
use std::alloc::{AllocError, Global};

/// A file of which nothing is read yet. The only error is want of memory.
pub fn open_lines<L: TextLine>(alloc: Global) -> Result<FileLines<L::Place>, AllocError>
    ensures { IfOk result (λ lines. (folder : Option FilesByName) (name : List ℕ) (most : ℕ)
        → HasLines L.rules L.is_place folder name most [] [] lines) }
{
    let piece = vec![in alloc; 0; PIECE]?;
    Ok(FileLines {
        reader: begin_lines::<L>(alloc),
        count: 0,
        piece,
    })
}

/// Reads the next piece of a file of at most `most` bytes, and whether there is one.
fn feed_piece<D: Desk, L: TextLine>(
    alloc: Global,
    desk: &mut D,
    name: &Name,
    most: u64,
    lines: &mut FileLines<L::Place>,
) -> Result<bool, ReadError>
    requires { HasFile (D.told desk.old).folder name.now }
    ensures feeds { IfOk result (λ more. (text : List ℕ) (said : List L.Says)
        → HasLines L.rules L.is_place (D.told desk.old).folder name.now most text said lines.old
        → Feeds L.rules L.is_place (D.told desk.old).folder name.now most text said lines.new more) }
    ensures more { IfOk result (λ more. more ≡ true → (lines.old.count < lines.new.count)
        × (lines.new.count ≤ most) × (left_of most lines.new ≤ left_of most lines.old)) }
    ensures none { IfOk result (λ more. more ≡ false → lines.new.reader ≡ lines.old.reader) }
    ensures too_large { result ≡ Err ReadError.TooLarge → (text : List ℕ) (said : List L.Says)
        → HasLines L.rules L.is_place (D.told desk.old).folder name.now most text said lines.old
        → IsLongerThan most (D.told desk.old).folder name.now }
    ensures reads { OnlyReads (reading_stop result) (D.told desk.old) (D.told desk.new) }
{
    let read = desk.read_at(alloc, name, lines.count, &mut lines.piece)?;
    if read == 0 {
        return Ok(false);
    }
    if read as u64 > most.saturating_sub(lines.count) {
        return Err(ReadError::TooLarge);
    }
    feed_lines::<L>(&mut lines.reader, &lines.piece[..read])?;
    lines.count += read as u64;
    Ok(true)
}

/// The next line of a file of at most `most` bytes; `None` once it is read to its end and no line
/// more came of it.
fn next_line_read<D: Desk, L: TextLine>(
    alloc: Global,
    desk: &mut D,
    name: &Name,
    most: u64,
    lines: &mut FileLines<L::Place>,
) -> Result<Option<L>, ReadError>
    requires { HasFile (D.told desk.old).folder name.now }
    ensures next { IfOk result (λ next. (text : List ℕ) (said : List L.Says)
        → HasLines L.rules L.is_place (D.told desk.old).folder name.now most text said lines.old
        → MatchOption next
        (HasAllLines L.rules L.is_place L.ends (D.told desk.old).folder name.now most said lines.new)
        (λ line. (more : List ℕ) × HasLines L.rules L.is_place (D.told desk.old).folder name.now most
        more (said ++ L.said line ∷ []) lines.new)) }
    ensures comes { IfOk result (λ next. IfSome next (λ line. (text : List ℕ) (said : List L.Says)
        → HasLines L.rules L.is_place (D.told desk.old).folder name.now most text said lines.old
        → MayCome L.rules (last_of said) (L.said line))) }
    ensures too_large { result ≡ Err ReadError.TooLarge → (text : List ℕ) (said : List L.Says)
        → HasLines L.rules L.is_place (D.told desk.old).folder name.now most text said lines.old
        → IsLongerThan most (D.told desk.old).folder name.now }
    ensures shorter { IfOk result (λ next.
        IfSome next (λ _. left_of most lines.new < left_of most lines.old)) }
    ensures reads { OnlyReads (reading_stop result) (D.told desk.old) (D.told desk.new) }
{
    'pieces: loop {
        if let Some(line) = next_line::<L>(&mut lines.reader)? {
            return Ok(Some(line));
        }
        if !feed_piece::<D, L>(alloc, desk, name, most, lines)? {
            return Ok(None);
        }
    }
}

/// The next line of a listed file, which is refused where it has more than `most` bytes; `None` once
/// it is read to its end and no line more came of it. No piece is read before it is needed, and none
/// twice.
pub fn next_file_line<D: Desk, L: TextLine>(
    alloc: Global,
    desk: &mut D,
    file: &Name,
    most: u64,
    lines: &mut FileLines<L::Place>,
) -> Result<Option<L>, Halt>
    requires { HasFile (D.told desk.old).folder file.now }
    ensures next { IfOk result (λ next. (text : List ℕ) (said : List L.Says)
        → HasLines L.rules L.is_place (D.told desk.old).folder file.now most text said lines.old
        → MatchOption next
        (HasAllLines L.rules L.is_place L.ends (D.told desk.old).folder file.now most said lines.new)
        (λ line. (more : List ℕ) × HasLines L.rules L.is_place (D.told desk.old).folder file.now most
        more (said ++ L.said line ∷ []) lines.new)) }
    ensures comes { IfOk result (λ next. IfSome next (λ line. (text : List ℕ) (said : List L.Says)
        → HasLines L.rules L.is_place (D.told desk.old).folder file.now most text said lines.old
        → MayCome L.rules (last_of said) (L.said line))) }
    ensures halted { IfErr result (λ halt. (text : List ℕ) (said : List L.Says)
        → HasLines L.rules L.is_place (D.told desk.old).folder file.now most text said lines.old
        → AreBytes (D.told desk.old).folder file.now most (Err halt)) }
    ensures shorter { IfOk result (λ next.
        IfSome next (λ _. left_of most lines.new < left_of most lines.old)) }
    ensures reads { OnlyReads (halt_stop result) (D.told desk.old) (D.told desk.new) }
{
    match next_line_read::<D, L>(alloc, desk, file, most, lines) {
        Ok(next) => Ok(next),
        Err(error) => Err(unread(file, error)),
    }
}

/// The reason of the box whose line comes next of what was read of a proof, whose spans `cell` is
/// given; `None` where no such line came whole.
#[inline]
pub fn next_box_read(lines: &mut FileLines<ProofPlace>, cell: &mut Cell) -> Option<Why>
    ensures read { (folder : Option FilesByName) (name : List ℕ) (most : ℕ) (text : List ℕ)
        (said : List Line) → HasLines proof_rules (λ last place. place ≡ place_after last)
        folder name most text said lines.old
        → HasLines proof_rules (λ last place. place ≡ place_after last) folder name most text
        (with_box said (spans_of cell.new) result) lines.new }
    ensures shorter { (most : ℕ) → MatchOption result (left_of most lines.new ≡ left_of most lines.old)
        (λ _. left_of most lines.new < left_of most lines.old) }
{
    next_box(&mut lines.reader, cell)
}

/// Whether the text of a file that is read to its end is whole, or what is wrong with it.
pub fn end_file_lines<L: TextLine>(lines: &FileLines<L::Place>) -> Result<(), ProofError>
    requires { IsExhausted L.ends lines.now.reader }
    ensures { (folder : Option FilesByName) (name : List ℕ) (most : ℕ) (text : List ℕ)
        (said : List L.Says) → HasLines L.rules L.is_place folder name most text said lines.now
        → MatchResult result (λ _. IsWhole L.rules text said) (IsTextRefused L.rules text) }
{
    end_lines::<L>(&lines.reader)
}
