ghost use Rattle.std.specs.Prelude.{◌≡◌, ℕ, Contains, IfOk};
ghost use Rattle.gl_airspace.specs.Airspace.{IsAirspace};
ghost use Rattle.gl_desk.specs.Answers.{OnlyReads};
ghost use Rattle.gl_desk.specs.Desk.{HasFile, ListsNames};
ghost use Rattle.gl_desk.specs.Limits.{most_bytes};
ghost use Rattle.gl_task_file.specs.Reading.{IsReadFrom};
ghost use Rattle.gl_words.specs.DayNames.{names_seen};
ghost use Rattle.gl_day_files.specs.DayFiles.{AirspaceText, HasTestedDay, IsAirspaceRead, IsAirspaceSeen, IsDayRead, IsScoreRead, IsScoreSeen, IsTaskSeen, TaskText, airspace_cause, airspace_tests, score_tests, task_cause, task_tests};
ghost use Rattle.gl_answer.specs.FileTests.{HasTested};
ghost use Rattle.gl_answer.specs.ReadFiles.{HasRead, HasReadFile};
ghost use Rattle.gl_answer.specs.Halts.{IsNoFault, halt_stop};

use gl_airspace::{AirError, Airspace, empty, read_openair};
use gl_answer::{Cause, Halt, need, need_unlisted, read_bytes, refusing_for};
use gl_desk::{Desk, MOST_BYTES, Name};
use gl_task::Task;
use gl_task_file::{TaskError, read_task};
use gl_words::DayNames;
use std::alloc::Global;

/// The task of a day, and its airspace.
#[derive(Debug, Drop)]
pub struct DayFiles {
    pub task: Task,
    pub airspace: Airspace,
}

/// Why a text gives no task; `None` for want of memory.
fn task_cause(error: &TaskError) -> Option<Cause>
    ensures { result ≡ task_cause error.now }
{
    match error {
        TaskError::Toml => Some(Cause::NotToml),
        TaskError::Missing(key) => Some(Cause::NoKey(*key)),
        TaskError::Value(key) => Some(Cause::WrongValue(*key)),
        TaskError::Twice(key) => Some(Cause::NumberTwice(*key)),
        TaskError::TooMany(key) => Some(Cause::TooManyItems(*key)),
        TaskError::Memory => None,
    }
}

/// The task of a text.
fn task_in(alloc: Global, file: &Name, text: &[u8]) -> Result<Task, Halt>
    ensures read { HasRead TaskText file.now text.now IsReadFrom result }
    ensures no_fault { IsNoFault result }
{
    match read_task(alloc, text) {
        Ok(task) => Ok(task),
        Err(error) => Err(refusing_for(file, task_cause(&error))),
    }
}

/// The task of a listed file.
fn read_task_file<D: Desk>(alloc: Global, desk: &mut D, file: &Name) -> Result<Task, Halt>
    requires { HasFile (D.told desk.old).folder file.now }
    ensures read { HasReadFile TaskText most_bytes (D.told desk.old).folder file.now
        IsReadFrom result }
    ensures reads { OnlyReads (halt_stop result) (D.told desk.old) (D.told desk.new) }
{
    let bytes = read_bytes(alloc, desk, file, MOST_BYTES)?;
    task_in(alloc, file, &bytes)
}

/// Why a text gives no airspace; `None` for want of memory.
fn airspace_cause(error: &AirError) -> Option<Cause>
    ensures { result ≡ airspace_cause error.now }
{
    match error {
        AirError::Line(line) => Some(Cause::WrongAirspace(*line)),
        AirError::TooMany(line) => Some(Cause::TooMuchAirspace(*line)),
        AirError::Memory => None,
    }
}

/// The airspace of a text.
fn airspace_in(alloc: Global, file: &Name, text: &[u8]) -> Result<Airspace, Halt>
    ensures read { HasRead AirspaceText file.now text.now IsAirspace result }
    ensures no_fault { IsNoFault result }
{
    match read_openair(alloc, text) {
        Ok(airspace) => Ok(airspace),
        Err(error) => Err(refusing_for(file, airspace_cause(&error))),
    }
}

/// The airspace of a listed file.
fn read_airspace_file<D: Desk>(alloc: Global, desk: &mut D, file: &Name) -> Result<Airspace, Halt>
    requires { HasFile (D.told desk.old).folder file.now }
    ensures read { HasReadFile AirspaceText most_bytes (D.told desk.old).folder file.now
        IsAirspace result }
    ensures reads { OnlyReads (halt_stop result) (D.told desk.old) (D.told desk.new) }
{
    let bytes = read_bytes(alloc, desk, file, MOST_BYTES)?;
    airspace_in(alloc, file, &bytes)
}

/// The airspace of a task: that of the file which it names, which has to be one of the folder's
/// names, or none.
fn read_airspace<D: Desk>(
    alloc: Global,
    desk: &mut D,
    names: &[Name],
    task: &Task,
) -> Result<Airspace, Halt>
    requires { ListsNames (D.told desk.old).folder names.now }
    ensures tested { HasTested (IsAirspaceSeen (D.told desk.old).folder task.now.airspace)
        (airspace_tests task.now.airspace) IsAirspaceRead result }
    ensures reads { OnlyReads (halt_stop result) (D.told desk.old) (D.told desk.new) }
{
    let Some(file) = &task.airspace else {
        return Ok(empty(alloc));
    };
    need(names, file)?;
    read_airspace_file(alloc, desk, file)
}

/// The task of a listed file, and then its airspace. Both commands of a day make these tests.
fn read_day<D: Desk>(
    alloc: Global,
    desk: &mut D,
    names: &[Name],
    file: &Name,
) -> Result<DayFiles, Halt>
    requires listed { HasFile (D.told desk.old).folder file.now }
    requires names { ListsNames (D.told desk.old).folder names.now }
    ensures tested { HasTested (IsTaskSeen file.now (D.told desk.old).folder)
        (task_tests file.now) IsDayRead result }
    ensures reads { OnlyReads (halt_stop result) (D.told desk.old) (D.told desk.new) }
{
    let task = read_task_file(alloc, desk, file)?;
    let airspace = read_airspace(alloc, desk, names, &task)?;
    Ok(DayFiles { task, airspace })
}

/// The files that `score` needs, where they pass its tests.
///
/// The tests are made in this order: TASK is one of the folder's names; PROOF is none of them;
/// TASK has at most 16,777,216 bytes; its text is a task; the airspace file, where the
/// task names one, is one of the folder's names, has at most as many bytes and reads.
pub fn test_score_files<D: Desk>(
    alloc: Global,
    desk: &mut D,
    names: &[Name],
    day: DayNames<'_>,
) -> Result<DayFiles, Halt>
    requires { ListsNames (D.told desk.old).folder names.now }
    ensures tested { HasTested (IsScoreSeen (names_seen day.entry) (D.told desk.old).folder)
        (score_tests (names_seen day.entry)) IsScoreRead result }
    ensures proof_is_new { IfOk result (λ _. Contains names.now day.entry.proof.now → ⊥) }
    ensures reads { OnlyReads (halt_stop result) (D.told desk.old) (D.told desk.new) }
{
    need(names, day.task)?;
    need_unlisted(names, day.proof)?;
    read_day(alloc, desk, names, day.task)
}

/// The task and the airspace that `check` needs, where its files pass these tests.
///
/// The tests are made in this order: TASK and PROOF are of the folder's names; then those of TASK
/// and the airspace file as in [`test_score_files`]. That PROOF has at most `most` bytes, and that
/// its text is a proof, is tested after them.
pub fn test_check_files<D: Desk>(
    alloc: Global,
    desk: &mut D,
    names: &[Name],
    day: DayNames<'_>,
) -> Result<DayFiles, Halt>
    requires { ListsNames (D.told desk.old).folder names.now }
    ensures tested { (most : ℕ) → HasTestedDay most (D.told desk.old).folder
        (names_seen day.entry) result }
    ensures listed { IfOk result (λ _. HasFile (D.told desk.old).folder day.entry.proof.now) }
    ensures reads { OnlyReads (halt_stop result) (D.told desk.old) (D.told desk.new) }
{
    need(names, day.task)?;
    need(names, day.proof)?;
    read_day(alloc, desk, names, day.task)
}
