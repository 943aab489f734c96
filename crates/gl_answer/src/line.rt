ghost use Rattle.std.specs.Prelude.{◌≡◌, ◌++◌, IfOk, OnOk, codes};
ghost use Rattle.std.specs.Fmt.{decimal};
ghost use Rattle.gl_answer.specs.Refusals.{at_key, line_with, parts_of, place_text, refusal_line, file_refusal};
ghost use Rattle.gl_answer.specs.Code.Lines.{parts_text, place_seen};

use crate::refusal::Cause;
use gl_desk::Name;
use gl_task::Key;
use gl_text::push_u64;
use std::alloc::{AllocError, Global};

/// Where in a file something is refused.
#[derive(Clone, Copy)]
enum Place {
    /// Nowhere in particular.
    Nowhere,
    /// At a line, counted from 1.
    AtLine(u32),
    /// At a record of a sheet, counted from 1.
    AtRecord(u32),
    /// At a key of a task.
    AtKey(Key),
}

/// The kind of what is refused.
fn kind_of(cause: Cause) -> &'static str
    ensures { result.now ≡ (parts_of cause).kind }
{
    match cause {
        Cause::NotListed | Cause::Listed | Cause::TooLarge => "FILE",
        Cause::NotIgc | Cause::NoDate | Cause::WrongDay => "IGC",
        Cause::TooManyFixes(_) | Cause::NoFix => "IGC",
        Cause::NotToml | Cause::NoKey(_) | Cause::WrongValue(_) => "TASK",
        Cause::NumberTwice(_) | Cause::TooManyItems(_) => "TASK",
        Cause::WrongAirspace(_) | Cause::TooMuchAirspace(_) => "AIR",
        Cause::WrongStep(_) | Cause::TooManySteps => "PLAN",
        Cause::NoHeading | Cause::WrongProof(_) | Cause::ProofCut => "PROOF",
        Cause::NoNearHeading | Cause::WrongNearProof(_) | Cause::NearProofCut => "NEARPROOF",
        Cause::NoListHeading | Cause::WrongListLine(_) => "SERIES",
        Cause::NoSheetHeading | Cause::WrongRecord(_) => "SHEET",
    }
}

/// The number of a refusal among those of its kind.
fn number_of(cause: Cause) -> u64
    ensures { result ≡ (parts_of cause).number }
{
    match cause {
        Cause::NotListed | Cause::NotIgc | Cause::NotToml => 1,
        Cause::WrongAirspace(_) | Cause::WrongStep(_) | Cause::NoHeading => 1,
        Cause::NoNearHeading | Cause::NoListHeading | Cause::NoSheetHeading => 1,
        Cause::Listed | Cause::NoDate | Cause::NoKey(_) | Cause::TooMuchAirspace(_) => 2,
        Cause::TooManySteps | Cause::WrongProof(_) | Cause::WrongNearProof(_) => 2,
        Cause::WrongListLine(_) | Cause::WrongRecord(_) => 2,
        Cause::TooLarge | Cause::WrongDay | Cause::WrongValue(_) => 3,
        Cause::ProofCut | Cause::NearProofCut => 3,
        Cause::TooManyFixes(_) | Cause::NumberTwice(_) => 4,
        Cause::NoFix | Cause::TooManyItems(_) => 5,
    }
}

/// The place of what is refused.
fn place_of(cause: Cause) -> Place
    ensures { place_seen result ≡ (parts_of cause).place }
{
    match cause {
        Cause::TooManyFixes(line) | Cause::WrongAirspace(line) => Place::AtLine(line),
        Cause::TooMuchAirspace(line) | Cause::WrongStep(line) => Place::AtLine(line),
        Cause::WrongProof(line) | Cause::WrongNearProof(line) => Place::AtLine(line),
        Cause::WrongListLine(line) => Place::AtLine(line),
        Cause::WrongRecord(number) => Place::AtRecord(number),
        Cause::NoKey(key) | Cause::WrongValue(key) => Place::AtKey(key),
        Cause::NumberTwice(key) | Cause::TooManyItems(key) => Place::AtKey(key),
        Cause::NotListed | Cause::Listed | Cause::TooLarge => Place::Nowhere,
        Cause::NotIgc | Cause::NoDate | Cause::WrongDay | Cause::NoFix => Place::Nowhere,
        Cause::NotToml | Cause::TooManySteps => Place::Nowhere,
        Cause::NoHeading | Cause::ProofCut => Place::Nowhere,
        Cause::NoNearHeading | Cause::NearProofCut => Place::Nowhere,
        Cause::NoListHeading | Cause::NoSheetHeading => Place::Nowhere,
    }
}

/// Appends a number and a point.
fn push_with_point(line: &mut Vec<u8>, number: u32) -> Result<(), AllocError>
    ensures { OnOk result (line.new.items ≡ line.old.items ++ decimal number ++ codes ".") }
{
    push_u64(line, u64::from(number))?;
    Ok(line.push(b'.')?)
}

/// Appends a key as a line writes it: its row, item and part, with points between them.
fn push_key(line: &mut Vec<u8>, key: Key) -> Result<(), AllocError>
    ensures { OnOk result (line.new.items ≡ line.old.items ++ place_text (at_key key)) }
{
    push_with_point(line, key.row)?;
    push_with_point(line, key.item)?;
    push_u64(line, u64::from(key.part))
}

/// Appends a place as a line writes it.
fn push_place(line: &mut Vec<u8>, place: Place) -> Result<(), AllocError>
    ensures { OnOk result (line.new.items ≡ line.old.items ++ place_text (place_seen place)) }
{
    match place {
        Place::Nowhere => Ok(line.push(b'-')?),
        Place::AtLine(number) | Place::AtRecord(number) => push_u64(line, u64::from(number)),
        Place::AtKey(key) => push_key(line, key),
    }
}

/// Appends what a line says beside the name of the file, each part with a space behind it.
fn push_parts(line: &mut Vec<u8>, cause: Cause) -> Result<(), AllocError>
    ensures { OnOk result (line.new.items ≡ line.old.items ++ parts_text (parts_of cause)) }
{
    line.extend_from_slice(kind_of(cause).as_bytes())?;
    line.push(b' ')?;
    push_u64(line, number_of(cause))?;
    line.push(b' ')?;
    push_place(line, place_of(cause))?;
    Ok(line.push(b' ')?)
}

/// The line that a refused run says.
#[tactic(auto, unfolding(crate::specs::Refusals::line_with))]
pub fn refusal_line(alloc: Global, file: &Name, cause: Cause) -> Result<Vec<u8>, AllocError>
    ensures { IfOk result (λ line. line.items ≡ refusal_line (file_refusal file.now cause)) }
{
    let mut line = Vec::from_slice(alloc, b"REFUSED ")?;
    push_parts(&mut line, cause)?;
    line.extend_from_slice(file.as_str().as_bytes())?;
    line.push(b'\n')?;
    Ok(line)
}
