ghost use Rattle.std.specs.Prelude.{◌≡◌, ◌≤◌, IfOk, length};
ghost use Rattle.gl_desk.specs.Answers.{OnlyReads};
ghost use Rattle.gl_desk.specs.Desk.{HasFile, ListsNames};
ghost use Rattle.gl_desk.specs.Limits.{most_bytes};
ghost use Rattle.gl_words.specs.ReplayWords.{replay_seen};
ghost use Rattle.gl_answer.specs.ReadFiles.{HasRead, HasReadFile};
ghost use Rattle.gl_answer.specs.FileTests.{HasTested};
ghost use Rattle.gl_answer.specs.Halts.{IsNoFault, halt_stop};
ghost use Rattle.gl_flights.specs.ReplayFiles.{AreReplayRead, AreStepsOf, IsReplaySeen, ScheduleText, replay_tests, schedule_cause};

use gl_answer::{Cause, Halt, need_both, read_bytes, read_recording, refusing_for};
use gl_desk::{Desk, MOST_BYTES, Name};
use gl_igc::Recording;
use gl_replay::{Step, StepError, read_steps};
use gl_words::ReplayWords;
use std::alloc::Global;

/// Why a text is no schedule; `None` for want of memory.
fn schedule_cause(error: StepError) -> Option<Cause>
    ensures { result ≡ schedule_cause error }
{
    match error {
        StepError::Line(line) => Some(Cause::WrongStep(line)),
        StepError::TooMany => Some(Cause::TooManySteps),
        StepError::Memory => None,
    }
}

/// The steps of a text.
fn steps_in(alloc: Global, file: &Name, text: &[u8]) -> Result<Vec<Step>, Halt>
    ensures read { HasRead ScheduleText file.now text.now AreStepsOf result }
    ensures few { IfOk result (λ steps. length steps.items ≤ 1_000_000) }
    ensures no_fault { IsNoFault result }
{
    match read_steps(alloc, text) {
        Ok(steps) => Ok(steps),
        Err(error) => Err(refusing_for(file, schedule_cause(error))),
    }
}

/// The steps of a listed file.
fn read_schedule<D: Desk>(alloc: Global, desk: &mut D, file: &Name) -> Result<Vec<Step>, Halt>
    requires { HasFile (D.told desk.old).folder file.now }
    ensures read { HasReadFile ScheduleText most_bytes (D.told desk.old).folder file.now
        AreStepsOf result }
    ensures few { IfOk result (λ steps. length steps.items ≤ 1_000_000) }
    ensures reads { OnlyReads (halt_stop result) (D.told desk.old) (D.told desk.new) }
{
    let bytes = read_bytes(alloc, desk, file, MOST_BYTES)?;
    steps_in(alloc, file, &bytes)
}

/// The recording and the steps that `replay` needs, where the folder lists their files and these
/// pass its further tests.
fn read_replay_files<D: Desk>(
    alloc: Global,
    desk: &mut D,
    words: ReplayWords<'_>,
) -> Result<(Recording, Vec<Step>), Halt>
    requires flight { HasFile (D.told desk.old).folder words.flight.now }
    requires schedule { HasFile (D.told desk.old).folder words.schedule.now }
    ensures tested { HasTested (IsReplaySeen (replay_seen words.entry) (D.told desk.old).folder)
        (replay_tests (replay_seen words.entry)) AreReplayRead result }
    ensures few { IfOk result (λ read. length read.1.items ≤ 1_000_000) }
    ensures reads { OnlyReads (halt_stop result) (D.told desk.old) (D.told desk.new) }
{
    let recording = read_recording(alloc, desk, words.flight, None)?;
    let steps = read_schedule(alloc, desk, words.schedule)?;
    Ok((recording, steps))
}

/// The recording and the steps that `replay` needs, where their files pass its tests.
///
/// The tests are made in this order: FILE and SCHEDULE are of the folder's names; FILE has at most
/// 16,777,216 bytes; it is a recording; SCHEDULE has at most as many bytes; each of its lines is a
/// step, and it has at most 1,000,000.
pub(crate) fn test_replay_files<D: Desk>(
    alloc: Global,
    desk: &mut D,
    names: &[Name],
    words: ReplayWords<'_>,
) -> Result<(Recording, Vec<Step>), Halt>
    requires { ListsNames (D.told desk.old).folder names.now }
    ensures tested { HasTested (IsReplaySeen (replay_seen words.entry) (D.told desk.old).folder)
        (replay_tests (replay_seen words.entry)) AreReplayRead result }
    ensures few { IfOk result (λ read. length read.1.items ≤ 1_000_000) }
    ensures reads { OnlyReads (halt_stop result) (D.told desk.old) (D.told desk.new) }
{
    need_both(names, words.flight, words.schedule)?;
    read_replay_files(alloc, desk, words)
}
