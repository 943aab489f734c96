ghost use Rattle.std.specs.Prelude.{◌≡◌};
ghost use Rattle.gl_desk.specs.Answers.{OnlyReads};
ghost use Rattle.gl_desk.specs.Desk.{HasFile};
ghost use Rattle.gl_desk.specs.Limits.{most_bytes};
ghost use Rattle.gl_answer.specs.ReadFiles.{AreNeeded, HasReadFile, IsNeeded, IsUnused};
ghost use Rattle.gl_answer.specs.FileTests.{IsRecordingOf, RecordingText, proof_cause, recording_cause};
ghost use Rattle.gl_answer.specs.Halts.{AreBytes, IsNoFault, halt_stop};

use crate::halt::{Halt, refusing, refusing_for, unread};
use crate::pouring::read_recording_file;
use crate::refusal::Cause;
use gl_desk::{Desk, Name, read_all};
use gl_igc::{IgcError, Recording};
use gl_proof::ProofError;
use std::alloc::Global;

/// The most bytes that a proof may have; any other file has at most those of a recording.
pub const MOST_PROOF_BYTES: u64 = 1_073_741_824;

/// Tests that a file is among the names of the folder.
pub fn need(names: &[Name], file: &Name) -> Result<(), Halt>
    ensures needed { IsNeeded names.now file.now result }
    ensures no_fault { IsNoFault result }
{
    if names.contains(file) {
        return Ok(());
    }
    Err(refusing(file, Cause::NotListed))
}

/// Tests that two files are among the names of the folder, one after the other.
pub fn need_both(names: &[Name], first: &Name, second: &Name) -> Result<(), Halt>
    ensures needed { AreNeeded names.now first.now second.now result }
    ensures no_fault { IsNoFault result }
{
    need(names, first)?;
    need(names, second)
}

/// Tests that a file, which is to be made, isn't among the names of the folder.
pub fn need_unlisted(names: &[Name], file: &Name) -> Result<(), Halt>
    ensures unused { IsUnused names.now file.now result }
    ensures no_fault { IsNoFault result }
{
    if names.contains(file) {
        return Err(refusing(file, Cause::Listed));
    }
    Ok(())
}

/// The bytes of a file that the folder lists, which is refused where it has more than `most`.
pub fn read_bytes<D: Desk>(
    alloc: Global,
    desk: &mut D,
    file: &Name,
    most: u64,
) -> Result<Vec<u8>, Halt>
    requires { HasFile (D.told desk.old).folder file.now }
    ensures seen { AreBytes (D.told desk.old).folder file.now most result }
    ensures reads { OnlyReads (halt_stop result) (D.told desk.old) (D.told desk.new) }
{
    match read_all(alloc, desk, file, most) {
        Ok(bytes) => Ok(bytes),
        Err(error) => Err(unread(file, error)),
    }
}

/// Why a text is no recording; `None` for want of memory.
fn recording_cause(error: &IgcError) -> Option<Cause>
    ensures { result ≡ recording_cause error.now }
{
    match error {
        IgcError::NotIgc => Some(Cause::NotIgc),
        IgcError::NoDate => Some(Cause::NoDate),
        IgcError::TooManyFixes { line } => Some(Cause::TooManyFixes(*line)),
        IgcError::NoFix => Some(Cause::NoFix),
        IgcError::WrongDay { .. } => Some(Cause::WrongDay),
        IgcError::Memory => None,
    }
}

/// The recording of a listed file, by the day of a task if there is one.
pub fn read_recording<D: Desk>(
    alloc: Global,
    desk: &mut D,
    file: &Name,
    day: Option<i32>,
) -> Result<Recording, Halt>
    requires { HasFile (D.told desk.old).folder file.now }
    ensures read { HasReadFile (RecordingText day) most_bytes (D.told desk.old).folder file.now
        (IsRecordingOf day) result }
    ensures reads { OnlyReads (halt_stop result) (D.told desk.old) (D.told desk.new) }
{
    match read_recording_file(alloc, desk, file, day) {
        Ok(Ok(recording)) => Ok(recording),
        Ok(Err(error)) => Err(refusing_for(file, recording_cause(&error))),
        Err(error) => Err(unread(file, error)),
    }
}

/// Why a text is no proof; `None` for want of memory.
pub fn proof_cause(error: ProofError) -> Option<Cause>
    ensures { result ≡ proof_cause error }
{
    match error {
        ProofError::Heading => Some(Cause::NoHeading),
        ProofError::Line(line) => Some(Cause::WrongProof(line)),
        ProofError::Cut => Some(Cause::ProofCut),
        ProofError::Memory => None,
    }
}
