ghost use Rattle.std.specs.Prelude.{◌≡◌, ◌≤◌, ℕ, List, Option, Some, IfErr, IfOk, length};
ghost use Rattle.gl_desk.specs.Answers.{OnlyReads, stop_of};
ghost use Rattle.gl_desk.specs.Desk.{HaveFiles};
ghost use Rattle.gl_desk.specs.Limits.{most_bytes};
ghost use Rattle.gl_igc.specs.Recording.{IsReadAs};
ghost use Rattle.gl_day.specs.Flight.{IsSeen};
ghost use Rattle.gl_day_claims.specs.Code.Asked.{IsEntrantSeen, IsSeenAmong};

use gl_answer::read_recording_file;
use gl_day::{Seen, absent_flight, large_flight, read_flight};
use gl_desk::{Desk, DeskError, Name, ReadError};
use gl_igc::{IgcError, Recording};
use gl_task::{Entrant, Task};
use std::alloc::Global;

/// What is seen of an entrant's file that was read so, by the task's day. The only error is want of
/// memory.
fn see_read(
    task: &Task,
    entrant: &Entrant,
    read: Result<Recording, IgcError>,
) -> Result<Seen, DeskError>
    ensures seen { IfOk result (λ seen. (bytes : List ℕ) → length bytes ≤ most_bytes
        → IsReadAs bytes (Some task.now.date) read → IsSeen task.now entrant.now bytes seen) }
    ensures memory { IfErr result (λ error. error ≡ DeskError.Memory) }
{
    Ok(read_flight(task, entrant, read)?)
}

/// What is seen of an entrant's file, which is one of the folder's names or isn't there. A file
/// that is missing, too large or no recording of the day refuses nothing: it is the entrant's.
pub fn see_entrant<D: Desk>(
    alloc: Global,
    desk: &mut D,
    names: &[Name],
    task: &Task,
    entrant: &Entrant,
) -> Result<Seen, DeskError>
    requires { HaveFiles (D.told desk.old).folder names.now }
    ensures seen { IfOk result (λ seen. (there : Option (List ℕ))
        × IsSeenAmong names.now (D.told desk.old).folder entrant.now.file there
        × IsEntrantSeen task.now entrant.now there seen) }
    ensures reads { OnlyReads (stop_of result) (D.told desk.old) (D.told desk.new) }
{
    if !names.contains(&entrant.file) {
        return Ok(Seen::Refused(absent_flight(task, entrant)));
    }
    match read_recording_file(alloc, desk, &entrant.file, Some(task.date)) {
        Ok(read) => see_read(task, entrant, read),
        Err(ReadError::TooLarge) => Ok(Seen::Refused(large_flight(task, entrant))),
        Err(ReadError::Fault) => Err(DeskError::Failed),
        Err(ReadError::Memory) => Err(DeskError::Memory),
    }
}
