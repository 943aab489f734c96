ghost use Rattle.std.specs.Prelude.{◌≡◌, ℕ, List, None, Some, IfOk, IfErr, IsPermutation, filter};
ghost use Rattle.std.specs.Cmp.Lexicographic.{slice_cmp};
ghost use Rattle.std.specs.List.Sorted.{IsSorted};
ghost use Rattle.std.specs.Ordering.{nat_cmp};
ghost use Rattle.gl_desk.specs.Answers.{OnlyReads};
ghost use Rattle.gl_desk.specs.Desk.{HasFile, HaveFiles, IsSeenIn, ListsNames};
ghost use Rattle.gl_igc.specs.Reading.{recording_of};
ghost use Rattle.gl_draft.specs.Causes.{IsStopped};
ghost use Rattle.gl_draft.specs.Code.{stop_in};
ghost use Rattle.gl_draft.specs.Heading.{is_igc, said_in};
ghost use Rattle.gl_draft.specs.Recordings.{AreRecordingsOf, IsRecordingOf, Pairwise, day_in, is_taken, read_part};

use crate::heading::{Said, Spelling, said_in};
use crate::refusal::Cause;
use gl_desk::{Desk, DeskError, MOST_BYTES, Name, ReadError, read_all};
use gl_igc::{IgcError, read_igc};
use gl_text::is_file_name;
use std::alloc::{AllocError, Global};

/// The number with which a recording of too many bytes is refused.
const TOO_LARGE: u32 = 7;

/// A recording: its file, and what it says of who flew and when.
#[derive(Debug, Drop)]
pub struct Recording {
    pub file: Name,
    pub number: Option<Name>,
    pub pilot: Option<Name>,
    /// How the pilot's name is read.
    pub spelling: Option<Spelling>,
    /// The day, as the number of days from 1970-01-01, if the recording reads.
    pub day: Option<i32>,
    /// The number of its refusal, if it doesn't.
    pub refusal: Option<u32>,
}

/// Whether a name ends in `.igc`, in small letters or capitals.
fn is_igc(name: &str) -> bool
    ensures { result ≡ is_igc name.now }
{
    let bytes = name.as_bytes();
    bytes.len() >= 4 && bytes[bytes.len() - 4..].eq_ignore_ascii_case(b".igc")
}

/// Whether a file of the folder is a recording that a task file can name.
fn is_taken(name: &Name) -> bool
    ensures { result ≡ is_taken name.now }
{
    is_igc(name.as_str()) && is_file_name(name.as_str())
}

/// Whether a file of the folder is a recording that a task file can't name.
pub fn is_left_out(name: &Name) -> bool {
    is_igc(name.as_str()) && !is_file_name(name.as_str())
}

/// The day of a recording, or the number of its refusal.
#[derive(Clone, Copy, Debug, PartialEq, Eq)]
struct Outcome {
    day: Option<i32>,
    refusal: Option<u32>,
}

/// The day of a recording, if it reads.
fn outcome_of(alloc: Global, text: &[u8]) -> Result<Outcome, AllocError>
    ensures { IfOk result (λ outcome. outcome.day ≡ day_in (recording_of text.now None)) }
{
    match read_igc(alloc, text, None) {
        Ok(recording) => Ok(Outcome {
            day: Some(recording.date),
            refusal: None,
        }),
        Err(IgcError::Memory) => Err(AllocError),
        Err(error) => Ok(Outcome {
            day: None,
            refusal: error.number(),
        }),
    }
}

/// What a recording says by its text, or by none if it wasn't read.
fn recording_of(
    alloc: Global,
    file: &Name,
    text: &[u8],
    is_read: bool,
) -> Result<Recording, AllocError>
    ensures file { IfOk result (λ r. r.file ≡ file.now) }
    ensures number { IfOk result (λ r. r.number ≡ said_in Said.Number text.now) }
    ensures pilot { IfOk result (λ r. r.pilot ≡ said_in Said.Pilot text.now) }
    ensures day { IfOk result (λ r. r.day ≡ day_in (recording_of text.now None)) }
{
    let outcome = outcome_of(alloc, text)?;
    let (number, _) = said_in(alloc, Said::Number, text)?;
    let (pilot, spelling) = said_in(alloc, Said::Pilot, text)?;
    Ok(Recording {
        file: Name::from_text(alloc, file.as_str())?,
        number,
        pilot,
        spelling,
        day: outcome.day,
        refusal: if is_read {
            outcome.refusal
        } else {
            Some(TOO_LARGE)
        },
    })
}

/// What is read of a file, and whether it was read: nothing is where it has too many bytes.
fn read_part<D: Desk>(alloc: Global, desk: &mut D, file: &Name) -> Result<(Vec<u8>, bool), Cause>
    requires { HasFile (D.told desk.old).folder file.now }
    ensures part { IfOk result (λ part. (bytes : List ℕ)
        × IsSeenIn (D.told desk.old).folder file.now (Some bytes)
        × (part.0.items ≡ read_part bytes)) }
    ensures goes { IfErr result IsStopped }
    ensures reads { OnlyReads (stop_in result) (D.told desk.old) (D.told desk.new) }
{
    match read_all(alloc, desk, file, MOST_BYTES) {
        Ok(text) => Ok((text, true)),
        Err(ReadError::TooLarge) => Ok((Vec::new(alloc), false)),
        Err(ReadError::Fault) => Err(Cause::Stopped(DeskError::Failed)),
        Err(ReadError::Memory) => Err(Cause::Stopped(DeskError::Memory)),
    }
}

/// A recording of the folder.
fn see_recording<D: Desk>(alloc: Global, desk: &mut D, file: &Name) -> Result<Recording, Cause>
    requires { HasFile (D.told desk.old).folder file.now }
    ensures is { IfOk result (IsRecordingOf (D.told desk.old).folder file.now) }
    ensures goes { IfErr result IsStopped }
    ensures reads { OnlyReads (stop_in result) (D.told desk.old) (D.told desk.new) }
{
    let part = read_part(alloc, desk, file)?;
    let recording = recording_of(alloc, file, &part.0, part.1)?;
    Ok(recording)
}

/// Names in the order of their bytes.
fn sorted(names: Vec<Name>) -> Result<Vec<Name>, AllocError>
    ensures same { IfOk result (λ sorted. IsPermutation names.items sorted.items) }
    ensures sorted { IfOk result (λ sorted. IsSorted (slice_cmp nat_cmp) sorted.items) }
{
    let mut names = names;
    names.sort()?;
    Ok(names)
}

/// Those of some names that are recordings which a task file can name.
fn taken(alloc: Global, names: Vec<Name>) -> Result<Vec<Name>, AllocError>
    ensures { IfOk result (λ taken. taken.items ≡ filter is_taken names.items) }
{
    names
        .into_iter()
        .filter(|name| is_taken(name))
        .collect(alloc)
}

/// The recordings of some names.
fn see_recordings<D: Desk>(
    alloc: Global,
    desk: &mut D,
    names: &[Name],
) -> Result<Vec<Recording>, Cause>
    requires { HaveFiles (D.told desk.old).folder names.now }
    ensures are { IfOk result (λ recordings.
        Pairwise (IsRecordingOf (D.told desk.old).folder) names.now recordings.items) }
    ensures goes { IfErr result IsStopped }
    ensures reads { OnlyReads (stop_in result) (D.told desk.old) (D.told desk.new) }
{
    let mut recordings = Vec::new(alloc);
    'names: for name in names {
        recordings.push(see_recording(alloc, desk, name)?)?;
    }
    Ok(recordings)
}

/// The recordings of a folder that lists some names, in the order of the names.
pub fn read_recordings<D: Desk>(
    alloc: Global,
    desk: &mut D,
    names: Vec<Name>,
) -> Result<Vec<Recording>, Cause>
    requires { ListsNames (D.told desk.old).folder names.items }
    ensures are { IfOk result (λ recordings.
        AreRecordingsOf (D.told desk.old).folder recordings.items) }
    ensures goes { IfErr result IsStopped }
    ensures reads { OnlyReads (stop_in result) (D.told desk.old) (D.told desk.new) }
{
    let names = sorted(names)?;
    let names = taken(alloc, names)?;
    let recordings = see_recordings(alloc, desk, &names)?;
    Ok(recordings)
}
