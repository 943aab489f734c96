ghost use Rattle.std.specs.Prelude.{◌≡◌, ◌+◌, ◌<◌, ◌≤◌, ◌++◌, ◌∷◌, ℕ, Bool, List, [], length, IfNone, IfOk, IfSome, MatchOption, MatchResult, None, OnOk, Option, Some};
ghost use Rattle.gl_proof.specs.declared.line_state.Progress.TheVariants.{Going};
ghost use Rattle.gl_proof.specs.Fronts.{Reads};
ghost use Rattle.gl_proof.specs.LineReading.{IsExhausted, IsRead, IsWhole, LeavesBehind, NoneComes, cut_at, fault_at, last_of, unread};
ghost use Rattle.gl_proof.specs.LineRules.{AreLineRules, IsNext, IsTextRefused, LineRules, MayCome};

use crate::error::ProofError;
use crate::line_state::{LineReader, Progress};
use crate::told::{has_line, later};
use std::alloc::{AllocError, Global};

/// As many bytes as any line has, its LF among them.
const MOST_LINE: usize = 1_024;

/// A line of a text that is made of lines, each ended by LF. What may follow depends on the place
/// in the text alone, which the line before tells.
pub trait TextLine: Drop {
    /// The places in a text.
    type Place: Copy;

    /// What a line says.
    ghost Says: { Type 0 };

    /// What this line says.
    ghost said: { Self → Says };

    /// What lines there are, and which may follow which.
    ghost rules: { LineRules Says };

    /// What tells a place: the line before it, or none at the beginning.
    ghost is_place: { Option Says → Self.Place → Type 0 };

    /// No line may follow at this place, since the text has ended.
    ghost ends: { Self.Place → Bool };

    /// The place at the beginning of a text.
    fn start() -> Self::Place
        ensures { is_place None result };

    /// The place after this line.
    fn place(&self) -> Self::Place
        ensures { is_place (Some (said self.now)) result };

    /// Whether the text has ended at a place.
    fn has_ended(place: Self::Place) -> bool
        ensures { result ≡ ends place };

    /// The line at the front of a text that stands at a place, and what follows it. The only error
    /// is want of memory.
    fn next_at(
        alloc: Global,
        place: Self::Place,
        text: &[u8],
    ) -> Result<Option<(Self, &[u8])>, AllocError>
        ensures reads { IfOk result (λ found. (last : Option Says) → is_place last place
            → Reads said (IsNext rules last text.now) found) }
        ensures shorter { IfOk result (λ found. IfSome found (λ taken.
            length taken.1.now < length text.now)) };

    /// A line is short and has no LF before its end.
    ghost laws: { AreLineRules Self.Place Self.Says rules is_place ends };
}

/// What is told of the line of a number, where it can't stand there.
fn fault_at(number: u32) -> ProofError
    ensures { result ≡ fault_at number }
{
    if number == 1 {
        ProofError::Heading
    } else {
        ProofError::Line(number)
    }
}

/// A reader of a text of such lines that was fed nothing yet.
pub fn begin_lines<L: TextLine>(alloc: Global) -> LineReader<L::Place>
    ensures { IsRead L.rules L.is_place [] [] result }
{
    LineReader {
        progress: Progress::Going,
        place: L::start(),
        number: 1,
        bytes: Vec::new(alloc),
        at: 0,
    }
}

/// The bytes of a reader that aren't read yet.
pub(crate) fn unread<P>(reader: &LineReader<P>) -> &[u8]
    ensures { result.now ≡ unread reader.now }
{
    &reader.bytes[reader.at..]
}

/// The bytes of a reader that aren't read yet, and a piece behind them. The only error is want of
/// memory.
fn joined<P>(reader: &LineReader<P>, piece: &[u8]) -> Result<Vec<u8>, AllocError>
    ensures { IfOk result (λ bytes. bytes.items ≡ unread reader.now ++ piece.now) }
{
    let left = unread(reader);
    let room = left.len().saturating_add(piece.len());
    let mut bytes = Vec::with_capacity(*reader.bytes.allocator(), room)?;
    bytes.extend_from_slice(left)?;
    bytes.extend_from_slice(piece)?;
    Ok(bytes)
}

/// Feeds a reader the next piece of the text. The only error is want of memory.
pub fn feed_lines<L: TextLine>(
    reader: &mut LineReader<L::Place>,
    piece: &[u8],
) -> Result<(), AllocError>
    ensures fed { OnOk result ((text : List ℕ) (lines : List L.Says)
        → IsRead L.rules L.is_place text lines reader.old
        → IsRead L.rules L.is_place (text ++ piece.now) lines reader.new) }
    ensures more { OnOk result (length (unread reader.new)
        ≤ length (unread reader.old) + length piece.now) }
{
    match reader.progress {
        Progress::Going => {
            let bytes = joined(reader, piece)?;
            reader.at = 0;
            reader.bytes = bytes;
        }
        Progress::Long => {
            if has_line(piece) {
                reader.progress = Progress::Wrong(fault_at(reader.number));
            }
        }
        Progress::Wrong(_) => (),
    }
    Ok(())
}

/// The next line of those that were fed, and how many bytes are left behind it; `None` where none
/// came whole that may stand there. The only error is want of memory.
fn line_left<L: TextLine>(reader: &LineReader<L::Place>) -> Result<Option<(L, usize)>, AllocError>
    ensures found { IfOk result (λ found. (last : Option L.Says)
        → L.is_place last reader.now.place
        → MatchOption found (NoneComes L.rules last (unread reader.now))
        (λ taken. LeavesBehind L.rules last (unread reader.now) (L.said taken.0) taken.1)) }
    ensures shorter { IfOk result (λ found. IfSome found (λ taken.
        taken.1 < length (unread reader.now))) }
{
    let text = unread(reader);
    let found = L::next_at(*reader.bytes.allocator(), reader.place, text)?;
    match found {
        Some((line, rest)) => Ok(Some((line, rest.len()))),
        None => Ok(None),
    }
}

/// Notes that no line that may stand there came whole: that the text is wrong, or that the line is
/// too long, if either is so.
fn note_none<L: TextLine>(reader: &mut LineReader<L::Place>)
    requires { reader.old.progress ≡ Going }
    ensures none { (text : List ℕ) (lines : List L.Says)
        → IsRead L.rules L.is_place text lines reader.old
        → NoneComes L.rules (last_of lines) (unread reader.old)
        → IsRead L.rules L.is_place text lines reader.new }
    ensures exhausted { IsExhausted L.ends reader.new }
    ensures same { unread reader.new ≡ unread reader.old }
{
    let text = unread(reader);
    if L::has_ended(reader.place) {
        if !text.is_empty() {
            reader.progress = Progress::Wrong(fault_at(reader.number));
        }
        return;
    }
    if has_line(text) {
        reader.progress = Progress::Wrong(fault_at(reader.number));
        return;
    }
    if text.len() >= MOST_LINE {
        reader.progress = Progress::Long;
    }
}

/// Notes that a line after which the reader stands at a place was handed out, with so many bytes left
/// behind it.
#[inline]
pub(crate) fn note_left<L: TextLine>(
    reader: &mut LineReader<L::Place>,
    place: L::Place,
    left: usize,
)
    requires { reader.old.progress ≡ Going }
    ensures left { left ≤ length (unread reader.old) → length (unread reader.new) ≡ left }
    ensures noted { (text : List ℕ) (lines : List L.Says) (line : L.Says)
        → IsRead L.rules L.is_place text lines reader.old → L.is_place (Some line) place
        → LeavesBehind L.rules (last_of lines) (unread reader.old) line left
        → IsRead L.rules L.is_place text (lines ++ line ∷ []) reader.new }
{
    reader.at = reader.bytes.len().saturating_sub(left);
    reader.place = place;
    reader.number = later(reader.number, 1);
}

/// Takes the next line of those that were fed, which may stand where it stands; `None` where no such
/// line came whole. The only error is want of memory.
pub fn next_line<L: TextLine>(reader: &mut LineReader<L::Place>) -> Result<Option<L>, AllocError>
    ensures read { IfOk result (λ next. (text : List ℕ) (lines : List L.Says)
        → IsRead L.rules L.is_place text lines reader.old
        → MatchOption next (IsRead L.rules L.is_place text lines reader.new)
        (λ line. IsRead L.rules L.is_place text (lines ++ L.said line ∷ []) reader.new)) }
    ensures comes { IfOk result (λ next. IfSome next (λ line. (text : List ℕ) (lines : List L.Says)
        → IsRead L.rules L.is_place text lines reader.old
        → MayCome L.rules (last_of lines) (L.said line))) }
    ensures exhausted { IfOk result (λ next. IfNone next (IsExhausted L.ends reader.new)) }
    ensures shorter { IfOk result (λ next. MatchOption next
        (length (unread reader.new) ≤ length (unread reader.old))
        (λ _. length (unread reader.new) < length (unread reader.old))) }
{
    match reader.progress {
        Progress::Going => (),
        _ => return Ok(None),
    }
    let Some((line, left)) = line_left::<L>(reader)? else {
        note_none::<L>(reader);
        return Ok(None);
    };
    note_left::<L>(reader, line.place(), left);
    Ok(Some(line))
}

/// What is told of a text that ends before its last line came, at the line of a number.
fn cut_at(number: u32) -> ProofError
    ensures { result ≡ cut_at number }
{
    if number == 1 {
        ProofError::Heading
    } else {
        ProofError::Cut
    }
}

/// Whether the text of a reader that has handed out all lines is whole, or what is wrong with it.
pub fn end_lines<L: TextLine>(reader: &LineReader<L::Place>) -> Result<(), ProofError>
    requires { IsExhausted L.ends reader.now }
    ensures { (text : List ℕ) (lines : List L.Says)
        → IsRead L.rules L.is_place text lines reader.now
        → MatchResult result (λ _. IsWhole L.rules text lines) (IsTextRefused L.rules text) }
{
    match reader.progress {
        Progress::Going => {
            if L::has_ended(reader.place) {
                return Ok(());
            }
            Err(cut_at(reader.number))
        }
        Progress::Long => Err(cut_at(reader.number)),
        Progress::Wrong(error) => Err(error),
    }
}
