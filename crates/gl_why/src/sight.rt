ghost use Rattle.std.specs.Prelude.{IfOk};
ghost use Rattle.gl_desk.specs.Answers.{OnlyReads, stop_of};
ghost use Rattle.gl_desk.specs.Desk.{ListsNames};
ghost use Rattle.gl_why.specs.Sights.{IsSightIn};

use gl_desk::{Desk, DeskError, MOST_BYTES, Name, ReadError, read_all};
use std::alloc::Global;

/// What is seen of a file.
#[derive(Debug, Drop)]
pub enum Sight {
    /// It isn't in the folder.
    Absent,
    /// It has more than 16,777,216 bytes.
    TooLarge,
    Bytes(Vec<u8>),
}

/// What is seen of a file in a folder that lists some names.
pub fn see<D: Desk>(
    alloc: Global,
    desk: &mut D,
    names: &[Name],
    file: &Name,
) -> Result<Sight, DeskError>
    requires { ListsNames (D.told desk.old).folder names.now }
    ensures seen { IfOk result (IsSightIn (D.told desk.old).folder names.now file.now) }
    ensures reads { OnlyReads (stop_of result) (D.told desk.old) (D.told desk.new) }
{
    if !names.contains(file) {
        return Ok(Sight::Absent);
    }
    match read_all(alloc, desk, file, MOST_BYTES) {
        Ok(bytes) => Ok(Sight::Bytes(bytes)),
        Err(ReadError::TooLarge) => Ok(Sight::TooLarge),
        Err(ReadError::Fault) => Err(DeskError::Failed),
        Err(ReadError::Memory) => Err(DeskError::Memory),
    }
}
