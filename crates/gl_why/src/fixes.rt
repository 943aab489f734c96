ghost use Rattle.std.specs.Prelude.{◌≡◌, ◌++◌, ◌∷◌, [], IfOk, None, OnOk, map};
ghost use Rattle.std.specs.List.{filter_map};
ghost use Rattle.gl_desk.specs.Answers.{OnlyReads, stop_of};
ghost use Rattle.gl_desk.specs.Desk.{ListsNames};
ghost use Rattle.gl_why.specs.Code.Readings.{IsKnown};
ghost use Rattle.gl_why.specs.Facts.{refused};
ghost use Rattle.gl_why.specs.Fixes.{AreFixesTold, IsSightTold, IsTextTold, fixes_told, read_told};
ghost use Rattle.gl_why.specs.Spots.{first_missing, is_missing, spot_at};
ghost use Rattle.gl_why.specs.Words.{number_of};

use crate::fact::{Fact, Obstacle};
use crate::fix_words::{
    words_of_absent, words_of_error, words_of_large, words_of_no_fix, words_of_spot,
};
use crate::lines::Lines;
use crate::question::number_of;
use crate::sight::{Sight, see};
use crate::spot::{Spot, spot_at};
use gl_desk::{Desk, DeskError, Name};
use gl_igc::{Fix, IgcError, Recording, read_igc};
use std::alloc::{AllocError, Global};

/// Whether no fix has a number.
fn is_missing(fixes: &[Fix], number: u32) -> bool
    ensures { result ≡ is_missing fixes.now number }
{
    fixes.len() <= number as usize
}

/// The first of some numbers that no fix has.
fn first_missing(fixes: &[Fix], numbers: &[u32]) -> Option<u32>
    ensures { result ≡ first_missing fixes.now numbers.now }
{
    numbers
        .iter()
        .copied()
        .find(|number| is_missing(fixes, *number))
}

/// The fixes that have one of some numbers, in the order of the numbers.
fn spots_at(alloc: Global, fixes: &[Fix], numbers: &[u32]) -> Result<Vec<Spot>, AllocError>
    ensures { IfOk result (λ spots. spots.items ≡ filter_map (spot_at fixes.now) numbers.now) }
{
    numbers
        .iter()
        .filter_map(|number| spot_at(fixes, *number))
        .collect(alloc)
}

/// The numbers that some words write.
fn numbers_of(alloc: Global, words: &[Name]) -> Result<Vec<u32>, AllocError>
    ensures { IfOk result (λ numbers. numbers.items ≡ filter_map number_of words.now) }
{
    words
        .iter()
        .filter_map(|word| number_of(word))
        .collect(alloc)
}

/// One line that a file can't be used.
pub fn refused(
    alloc: Global,
    file: &Name,
    obstacle: Obstacle,
    words: String,
) -> Result<Lines, AllocError>
    ensures { IfOk result (λ lines. lines ≡ refused file.now obstacle ∷ []) }
{
    let mut lines = Lines::new(alloc);
    let name = Name::from_text(alloc, file.as_str())?;
    lines.push(Fact::Refused(name, obstacle), String::new(alloc), words)?;
    Ok(lines)
}

/// A line for each of some fixes.
fn lines_of(alloc: Global, spots: &[Spot]) -> Result<Lines, AllocError>
    ensures { IfOk result (λ lines. lines ≡ map Fact.Fix spots.now) }
{
    let mut lines = Lines::new(alloc);
    'spots: for spot in spots {
        let words = words_of_spot(alloc, spot)?;
        lines.push(Fact::Fix(*spot), String::new(alloc), words)?;
    }
    Ok(lines)
}

/// What is told of the fixes of a recording that have some numbers.
fn tell_fixes(
    alloc: Global,
    file: &Name,
    fixes: &[Fix],
    numbers: &[u32],
) -> Result<Lines, AllocError>
    ensures { IfOk result (λ lines. lines ≡ fixes_told file.now fixes.now numbers.now) }
{
    match first_missing(fixes, numbers) {
        Some(number) => {
            let words = words_of_no_fix(alloc, number, fixes.len())?;
            refused(alloc, file, Obstacle::NoFix(number), words)
        }
        None => {
            let spots = spots_at(alloc, fixes, numbers)?;
            lines_of(alloc, &spots)
        }
    }
}

/// What is told of a recording, as it was read.
fn tell_read(
    alloc: Global,
    file: &Name,
    numbers: &[u32],
    read: &Result<Recording, IgcError>,
) -> Result<Lines, AllocError>
    ensures { IfOk result (λ lines. lines ≡ read_told file.now numbers.now read.now) }
{
    match read {
        Ok(recording) => tell_fixes(alloc, file, recording.fixes.as_slice(), numbers),
        Err(error) => {
            let words = words_of_error(alloc, error)?;
            refused(alloc, file, Obstacle::NotRead, words)
        }
    }
}

/// What is read of a recording, by its own day; want of memory apart.
fn read_text(alloc: Global, text: &[u8]) -> Result<Result<Recording, IgcError>, AllocError>
    ensures { IfOk result (IsKnown text.now None) }
{
    match read_igc(alloc, text, None) {
        Ok(recording) => Ok(Ok(recording)),
        Err(IgcError::Memory) => Err(AllocError),
        Err(error) => Ok(Err(error)),
    }
}

/// What is told of the bytes of a file.
fn tell_text(alloc: Global, file: &Name, numbers: &[u32], text: &[u8]) -> Result<Lines, AllocError>
    ensures { IfOk result (IsTextTold file.now numbers.now text.now) }
{
    let read = read_text(alloc, text)?;
    let lines = tell_read(alloc, file, numbers, &read)?;
    Ok(lines)
}

/// What is told of a file of which this is seen.
fn tell_sight(
    alloc: Global,
    names: &[Name],
    file: &Name,
    numbers: &[u32],
    sight: &Sight,
) -> Result<Lines, AllocError>
    ensures { IfOk result (IsSightTold file.now numbers.now sight.now) }
{
    match sight {
        Sight::Absent => {
            let words = words_of_absent(alloc, names, file)?;
            refused(alloc, file, Obstacle::NoFile, words)
        }
        Sight::TooLarge => {
            let words = words_of_large(alloc)?;
            refused(alloc, file, Obstacle::TooLarge, words)
        }
        Sight::Bytes(text) => tell_text(alloc, file, numbers, text),
    }
}

/// What is told of the fixes of a file, in a folder that lists some names.
fn tell_listed<D: Desk>(
    alloc: Global,
    desk: &mut D,
    names: Vec<Name>,
    file: &Name,
    words: &[Name],
) -> Result<Lines, DeskError>
    requires { ListsNames (D.told desk.old).folder names.items }
    ensures is { IfOk result (AreFixesTold (D.told desk.old).folder file.now words.now) }
    ensures reads { OnlyReads (stop_of result) (D.told desk.old) (D.told desk.new) }
{
    let sight = see(alloc, desk, &names, file)?;
    let numbers = numbers_of(alloc, words)?;
    let lines = tell_sight(alloc, &names, file, &numbers, &sight)?;
    Ok(lines)
}

/// What is told of the fixes of a file that have the numbers which some words write.
pub fn tell<D: Desk>(
    alloc: Global,
    desk: &mut D,
    file: &Name,
    words: &[Name],
) -> Result<Lines, DeskError>
    ensures is { IfOk result (AreFixesTold (D.told desk.old).folder file.now words.now) }
    ensures reads { OnlyReads (stop_of result) (D.told desk.old) (D.told desk.new) }
{
    let names = desk.names(alloc)?;
    tell_listed(alloc, desk, names, file, words)
}
