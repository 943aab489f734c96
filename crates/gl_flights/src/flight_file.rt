ghost use Rattle.gl_desk.specs.Answers.{OnlyReads};
ghost use Rattle.gl_desk.specs.Desk.{HasFile, IsSeenIn, ListsNames};
ghost use Rattle.gl_answer.specs.FileTests.{HasTested};
ghost use Rattle.gl_flights.specs.FlightFile.{IsFlightRead, flight_tests};
ghost use Rattle.gl_answer.specs.Halts.{halt_stop};

use gl_answer::{Halt, need, read_recording};
use gl_desk::{Desk, Name};
use gl_igc::Recording;
use std::alloc::Global;

/// The recording of a file that passes its tests: FILE is of the folder's names; it has at most
/// 16,777,216 bytes; it is a recording.
pub(crate) fn test_flight<D: Desk>(
    alloc: Global,
    desk: &mut D,
    names: &[Name],
    file: &Name,
) -> Result<Recording, Halt>
    requires { ListsNames (D.told desk.old).folder names.now }
    ensures tested { HasTested (λ seen. IsSeenIn (D.told desk.old).folder file.now seen)
        (flight_tests file.now) IsFlightRead result }
    ensures reads { OnlyReads (halt_stop result) (D.told desk.old) (D.told desk.new) }
{
    need(names, file)?;
    read_recording(alloc, desk, file, None)
}
