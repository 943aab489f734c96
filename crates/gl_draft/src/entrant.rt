ghost use Rattle.std.specs.Prelude.{◌≡◌, ◌≤◌, IfOk, filter, is_some, length, option_and_then, option_map, unwrap_or};
ghost use Rattle.std.specs.List.{find, list_all, list_any};
ghost use Rattle.std.specs.Option.{option_or};
ghost use Rattle.std.specs.Char.{is_ascii_alphanumeric};
ghost use Rattle.gl_draft.specs.declared.entrant.Entrant.{Entrant};
ghost use Rattle.gl_draft.specs.declared.recording.Recording.{Recording};
ghost use Rattle.gl_draft.specs.Heading.{number_by_file, pilot_by_file, stem_of};
ghost use Rattle.gl_draft.specs.Recordings.{common_day, day_of_all, entrant_behind, entrants_behind, first_day, has_number, is_of_day, unless_taken};

use crate::heading::{Said, read_kept};
use crate::recording::Recording;
use gl_desk::Name;
use std::alloc::{AllocError, Global};

/// One who takes part: the number, where it is known and no other's, the name, and the recording.
#[derive(Debug, Drop)]
pub struct Entrant {
    pub number: Option<Name>,
    pub name: Name,
    pub file: Name,
}

/// The name of a recording without its ending.
fn stem_of(name: &Name) -> &[u8]
    ensures { result.now ≡ stem_of name.now }
{
    let bytes = name.as_str().as_bytes();
    &bytes[..bytes.len().saturating_sub(4)]
}

/// The letters and digits among some bytes.
fn alphanumerics(alloc: Global, bytes: &[u8]) -> Result<Vec<u8>, AllocError>
    ensures { IfOk result (λ kept. kept.items ≡ filter is_ascii_alphanumeric bytes.now) }
{
    bytes
        .iter()
        .filter(|byte| byte.is_ascii_alphanumeric())
        .copied()
        .collect(alloc)
}

/// The number that the name of a recording says: the last eight of its letters and digits.
#[tactic(auto, unfolding(crate::specs::Heading::number_by_file))]
fn number_by_file(alloc: Global, file: &Name) -> Result<Option<Name>, AllocError>
    ensures { IfOk result (λ number. number ≡ number_by_file file.now) }
{
    let bytes = alphanumerics(alloc, stem_of(file))?;
    read_kept(alloc, Said::Number, &bytes[bytes.len().saturating_sub(8)..])
}

/// The pilot's name that the name of a recording says.
#[tactic(auto, unfolding(crate::specs::Heading::pilot_by_file))]
fn pilot_by_file(alloc: Global, file: &Name) -> Result<Name, AllocError>
    ensures { IfOk result (λ pilot. pilot ≡ pilot_by_file file.now) }
{
    match read_kept(alloc, Said::Pilot, stem_of(file))? {
        Some(name) => Ok(name),
        None => Name::from_text(alloc, "pilot"),
    }
}

/// The number of a recording, or else of its file's name.
pub fn number_of(alloc: Global, recording: &Recording) -> Result<Option<Name>, AllocError>
    ensures { IfOk result (λ number.
        number ≡ option_or recording.now.number (number_by_file recording.now.file)) }
{
    match &recording.number {
        Some(name) => Ok(Some(Name::from_text(alloc, name.as_str())?)),
        None => number_by_file(alloc, &recording.file),
    }
}

/// The name of a recording's pilot, or else of its file.
fn pilot_of(alloc: Global, recording: &Recording) -> Result<Name, AllocError>
    ensures { IfOk result (λ pilot.
        pilot ≡ unwrap_or recording.now.pilot (pilot_by_file recording.now.file)) }
{
    match &recording.pilot {
        Some(name) => Name::from_text(alloc, name.as_str()),
        None => pilot_by_file(alloc, &recording.file),
    }
}

/// Whether an entrant has a number.
pub fn has_number(number: &Name, other: &Option<Name>) -> bool
    ensures { result ≡ has_number number.now other.now }
{
    match other {
        Some(other) => other == number,
        None => false,
    }
}

/// Whether one of some entrants has a number.
fn is_taken(entrants: &[Entrant], number: &Name) -> bool
    ensures { result
        ≡ list_any (λ (e : Entrant). has_number number.now e.number) entrants.now }
{
    entrants
        .iter()
        .any(|entrant| has_number(number, &entrant.number))
}

/// A number, where no entrant has it.
fn unless_taken(entrants: &[Entrant], number: Option<Name>) -> Option<Name>
    ensures { result ≡ option_and_then (unless_taken entrants.now) number }
{
    let number = number?;
    if is_taken(entrants, &number) {
        None
    } else {
        Some(number)
    }
}

/// The entrant of a recording behind others.
fn entrant_behind(
    alloc: Global,
    entrants: &[Entrant],
    recording: &Recording,
) -> Result<Entrant, AllocError>
    ensures { IfOk result (λ entrant. entrant ≡ entrant_behind entrants.now recording.now) }
{
    let number = number_of(alloc, recording)?;
    Ok(Entrant {
        number: unless_taken(entrants, number),
        name: pilot_of(alloc, recording)?,
        file: Name::from_text(alloc, recording.file.as_str())?,
    })
}

/// Some entrants, and behind them those of recordings.
pub fn entrants_behind(
    alloc: Global,
    before: Vec<Entrant>,
    recordings: &[Recording],
) -> Result<Vec<Entrant>, AllocError>
    ensures are { IfOk result (λ all. all.items ≡ entrants_behind before.items recordings.now) }
    ensures more { IfOk result (λ all. length before.items ≤ length all.items) }
{
    let mut entrants = before;
    let mut left = recordings;
    'recordings: while let Some((recording, rest)) = left.split_first() {
        let entrant = entrant_behind(alloc, &entrants, recording)?;
        entrants.push(entrant)?;
        left = rest;
    }
    Ok(entrants)
}

/// Whether a recording is of a day, as far as its day is known.
fn is_of_day(day: i32, other: Option<i32>) -> bool
    ensures { result ≡ is_of_day day other }
{
    match other {
        Some(other) => other == day,
        None => true,
    }
}

/// The first of recordings whose day is known.
fn first_dated(recordings: &[Recording]) -> Option<&Recording>
    ensures { option_map (λ recording. recording.now) result
        ≡ find (λ (r : Recording). is_some r.day) recordings.now }
{
    recordings.iter().find(|recording| recording.day.is_some())
}

/// The first day that is known of recordings.
fn first_day(recordings: &[Recording]) -> Option<i32>
    ensures { result ≡ first_day recordings.now }
{
    first_dated(recordings)?.day
}

/// Whether all recordings are of a day, as far as their days are known.
pub fn are_of_day(day: i32, recordings: &[Recording]) -> bool
    ensures { result ≡ list_all (λ (r : Recording). is_of_day day r.day) recordings.now }
{
    recordings
        .iter()
        .all(|recording| is_of_day(day, recording.day))
}

/// A day, where all recordings are of it.
fn day_of_all(recordings: &[Recording], day: i32) -> Option<i32>
    ensures { result ≡ day_of_all recordings.now day }
{
    if are_of_day(day, recordings) {
        Some(day)
    } else {
        None
    }
}

/// Whether recordings are of several days, as far as their days are known.
pub fn are_of_several_days(recordings: &[Recording]) -> bool {
    first_day(recordings).is_some() && common_day(recordings).is_none()
}

/// The day that all recordings have whose day is known.
pub fn common_day(recordings: &[Recording]) -> Option<i32>
    ensures { result ≡ common_day recordings.now }
{
    let day = first_day(recordings)?;
    day_of_all(recordings, day)
}
