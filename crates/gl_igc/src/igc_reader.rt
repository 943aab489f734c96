ghost use Rattle.std.specs.Prelude.{◌≡◌, ◌≢◌, ◌≤◌, ◌<◌, ◌⊎◌, ◌++◌, ℕ, List, [], Err, IfOk, IsErr, OnErr, OnOk, drop, length, map, slice_index, take};
ghost use Rattle.gl_text.specs.Lines.{lines_of};
ghost use Rattle.gl_igc.specs.Laws.{AreOfLines};
ghost use Rattle.gl_igc.specs.Pieces.{HasFailed, StandsForText, task_day_of};
ghost use Rattle.gl_igc.specs.Code.Parts.{Takes};
ghost use Rattle.gl_igc.specs.Progress.{StandsFor};
ghost use Rattle.gl_igc.specs.Recording.{IsReadAs, sighting_of};
ghost use Rattle.gl_igc.specs.declared.error.IgcError.TheVariants.{Memory};

use crate::error::IgcError;
use crate::finish::finish;
use crate::progress::Progress;
use crate::progress_steps::{no_lines, take_line};
use crate::recording::Recording;
use gl_text::{next_ended_line, next_line};
use std::alloc::{AllocError, Global};

/// Reads the text of a recording piece by piece, wherever it is cut. It keeps what the lines so far
/// say, and the bytes of the line that isn't finished yet.
#[derive(Drop)]
pub struct IgcReader {
    progress: Progress,
    /// The bytes behind the last LF.
    rest: Vec<u8>,
    task_day: Option<i32>,
    /// Whether a piece was lost for want of memory.
    has_failed: bool,
}

impl IgcReader {
    /// A reader that was given nothing yet. The task day, if there is one, is a number of days from
    /// 1970-01-01, as for [`read_igc`](crate::read_igc).
    pub fn new(alloc: Global, task_day: Option<i32>) -> IgcReader
        ensures text { StandsForText [] result }
        ensures task_day { task_day_of result ≡ task_day }
    {
        IgcReader {
            progress: no_lines(alloc),
            rest: Vec::new(alloc),
            task_day,
            has_failed: false,
        }
    }

    /// Takes the next piece of the text. A line that stands whole in it isn't copied.
    ///
    /// The only error is want of memory; from then on each further piece is answered so too, and
    /// [`finish`](IgcReader::finish) answers [`IgcError::Memory`].
    pub fn feed(&mut self, piece: &[u8]) -> Result<(), AllocError>
        ensures text { OnOk result ((text : List ℕ) → StandsForText text self.old
            → StandsForText (text ++ piece.now) self.new) }
        ensures task_day { task_day_of self.new ≡ task_day_of self.old }
        ensures failed { OnErr result (HasFailed self.new) }
        ensures stays { HasFailed self.old → IsErr result }
    {
        if self.has_failed {
            return Err(AllocError);
        }
        let taken = take_piece(&mut self.progress, &mut self.rest, piece);
        self.has_failed = taken.is_err();
        taken
    }

    /// The recording of the pieces joined, or the first refusal of [`IgcError`] that holds;
    /// [`IgcError::Memory`] comes only for want of memory.
    pub fn finish(self) -> Result<Recording, IgcError>
        ensures answer { (text : List ℕ) → StandsForText text self
            → IsReadAs text (task_day_of self) result }
        ensures seen { (text : List ℕ) → StandsForText text self → IfOk result (λ recording.
            AreOfLines (lines_of text) (map sighting_of recording.fixes)) }
        ensures failed { HasFailed self → result ≡ Err Memory }
    {
        if self.has_failed {
            return Err(IgcError::Memory);
        }
        let IgcReader {
            mut progress,
            rest,
            task_day,
            ..
        } = self;
        take_rest(&mut progress, &rest)?;
        finish(progress, task_day)
    }
}

/// Takes the lines of a text that an LF ends, and answers where the unfinished one begins.
fn take_lines(progress: &mut Progress, text: &[u8]) -> Result<usize, AllocError>
    ensures within { IfOk result (λ at. at ≤ length text.now) }
    ensures takes { IfOk result (λ at.
        Takes text.now (drop at text.now) progress.old progress.new) }
    ensures rest { IfOk result (λ at. (k : ℕ) → at ≤ k → k < length text.now
        → slice_index text.now k ≢ 10) }
{
    let mut at = 0;
    while let Some(line) = next_ended_line(text, at) {
        take_line(progress, &text[line.from..line.to])?;
        at = line.next;
    }
    Ok(at)
}

/// Takes the front of a piece to the unfinished line, and that line if the piece ends it. Answers
/// how many bytes of the piece these are.
fn finish_line(
    progress: &mut Progress,
    rest: &mut Vec<u8>,
    piece: &[u8],
) -> Result<usize, AllocError>
    ensures within { IfOk result (λ n. n ≤ length piece.now) }
    ensures takes { IfOk result (λ n.
        Takes (rest.old.items ++ take n piece.now) rest.new.items progress.old progress.new) }
    ensures done { IfOk result (λ n. (rest.new.items ≡ []) ⊎ (n ≡ length piece.now)) }
{
    if rest.is_empty() {
        return Ok(0);
    }
    let Some(line) = next_ended_line(piece, 0) else {
        rest.extend_from_slice(piece)?;
        return Ok(piece.len());
    };
    rest.extend_from_slice(&piece[..line.next])?;
    take_lines(progress, rest)?;
    rest.clear();
    Ok(line.next)
}

/// Takes a piece: the lines that it ends, and what it has of the next one.
fn take_piece(progress: &mut Progress, rest: &mut Vec<u8>, piece: &[u8]) -> Result<(), AllocError>
    ensures { OnOk result
        (Takes (rest.old.items ++ piece.now) rest.new.items progress.old progress.new) }
{
    let from = finish_line(progress, rest, piece)?;
    let behind = &piece[from..];
    let at = take_lines(progress, behind)?;
    rest.extend_from_slice(&behind[at..])?;
    Ok(())
}

/// Takes the lines of what is left behind the last LF.
fn take_rest(progress: &mut Progress, rest: &[u8]) -> Result<(), AllocError>
    ensures { OnOk result ((lines : List (List ℕ)) → StandsFor lines progress.old
        → StandsFor (lines ++ lines_of rest.now) progress.new) }
{
    let mut at = 0;
    while let Some(line) = next_line(rest, at) {
        take_line(progress, &rest[line.from..line.to])?;
        at = line.next;
    }
    Ok(())
}
