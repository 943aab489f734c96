ghost use Rattle.gl_desk.specs.Answers.{OnlyReads};
ghost use Rattle.gl_desk.specs.Desk.{HasFile, ListsNames};
ghost use Rattle.std.specs.Prelude.{◌≡◌, Some};
ghost use Rattle.gl_desk.specs.Limits.{most_bytes};
ghost use Rattle.gl_words.specs.NearWords.{near_seen};
ghost use Rattle.gl_answer.specs.ReadFiles.{HasReadFile};
ghost use Rattle.gl_answer.specs.FileTests.{HasTested, IsRecordingOf, RecordingText};
ghost use Rattle.gl_answer.specs.Halts.{halt_stop};
ghost use Rattle.gl_flights.specs.Code.NearFiles.{AreFlightsSeen, flights_tests};
ghost use Rattle.gl_flights.specs.NearFiles.{AreNearRead, IsNearSeen, near_tests};

use gl_answer::{Halt, need_both, need_unlisted, read_recording};
use gl_desk::{Desk, Name};
use gl_igc::Recording;
use gl_words::NearWords;
use std::alloc::Global;

/// The other recording of a listed file, by the day of the first.
fn read_other<D: Desk>(
    alloc: Global,
    desk: &mut D,
    file: &Name,
    first: &Recording,
) -> Result<Recording, Halt>
    requires { HasFile (D.told desk.old).folder file.now }
    ensures read { HasReadFile (RecordingText (Some first.now.date)) most_bytes
        (D.told desk.old).folder file.now (IsRecordingOf (Some first.now.date)) result }
    ensures reads { OnlyReads (halt_stop result) (D.told desk.old) (D.told desk.new) }
{
    read_recording(alloc, desk, file, Some(first.date))
}

/// The two recordings of listed files. The other one is read by the day of the first.
pub(crate) fn read_recordings<D: Desk>(
    alloc: Global,
    desk: &mut D,
    words: NearWords<'_>,
) -> Result<(Recording, Recording), Halt>
    requires flight { HasFile (D.told desk.old).folder words.flight.now }
    requires other { HasFile (D.told desk.old).folder words.other.now }
    ensures read { HasTested (AreFlightsSeen (near_seen words.entry) (D.told desk.old).folder)
        (flights_tests (near_seen words.entry)) AreNearRead result }
    ensures reads { OnlyReads (halt_stop result) (D.told desk.old) (D.told desk.new) }
{
    let flight = read_recording(alloc, desk, words.flight, None)?;
    let other = read_other(alloc, desk, words.other, &flight)?;
    Ok((flight, other))
}

/// The recordings that `near` needs, where the files pass its tests.
///
/// The tests are made in this order: FILE and OTHER are of the folder's names, and PROOF isn't;
/// FILE has at most 16,777,216 bytes, and is a recording; so does OTHER, and it is one of the day
/// of FILE, or of the day before or after it.
pub(crate) fn test_near_files<D: Desk>(
    alloc: Global,
    desk: &mut D,
    names: &[Name],
    words: NearWords<'_>,
) -> Result<(Recording, Recording), Halt>
    requires { ListsNames (D.told desk.old).folder names.now }
    ensures tested { HasTested (IsNearSeen (near_seen words.entry) (D.told desk.old).folder)
        (near_tests (near_seen words.entry)) AreNearRead result }
    ensures reads { OnlyReads (halt_stop result) (D.told desk.old) (D.told desk.new) }
{
    need_both(names, words.flight, words.other)?;
    need_unlisted(names, words.proof)?;
    read_recordings(alloc, desk, words)
}
