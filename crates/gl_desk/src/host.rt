ghost use Rattle.std.specs.Prelude.{◌≡◌, ◌≤◌, ◌↔◌, ◌⊎◌, length, IsErr, IsTrue, IfOk, OnOk, OnErr};
ghost use Rattle.gl_desk.specs.Answers.{CountsFaults, OnlyReads, stop_of};
ghost use Rattle.gl_desk.specs.Code.Outcome.{IsWantOfMemory, Settles};
ghost use Rattle.gl_desk.specs.Desk.{TakesPrefix};
ghost use Rattle.gl_desk.specs.HostDesk.{IsAddedTo, IsReadAt};

use crate::desk::Desk;
use crate::error::DeskError;
use crate::listing::plain_names;
use crate::made_file::{MadeFile, make};
use crate::name::Name;
use crate::system::{SystemError, open, read_from, write_whole};
use std::alloc::Global;
use std::io;
use std::io::ErrorKind;
use std::rt::Files;

/// The current folder and the standard output. It tells nothing of what they hold.
///
/// It counts each error of the system, and each write that takes nothing of a piece that isn't
/// empty; the call is then answered [`DeskError::Failed`].
///
/// It appends to no file that it didn't make: the first piece for a name makes the file, and where
/// anything stands under that name already, as a file, a link, a pipe, a device or a folder, it is
/// left as it is, and the call fails. It keeps one file that it made, so after a piece for another
/// name a further one for the first fails, too.
#[derive(Drop)]
pub struct HostDesk<Rt: Files> {
    rt: Rt,
    made: Option<MadeFile<Rt::File>>,
    faults: u64,
}

impl<Rt: Files + Print> HostDesk<Rt> {
    /// The desk of this runtime. No fault was counted yet.
    pub fn new(rt: Rt) -> HostDesk<Rt>
        ensures { (⟦<HostDesk<Rt> as Desk>⟧.told result).faults ≡ 0 }
    {
        HostDesk {
            rt,
            made: None,
            faults: 0,
        }
    }
}

impl<Rt: Files> HostDesk<Rt> {
    /// Counts an error of the system, and turns it into the answer of a desk.
    fn settle<T>(&mut self, outcome: Result<T, SystemError>) -> Result<T, DeskError>
        ensures settled { Settles outcome result self.old.faults self.new.faults }
        ensures faults { CountsFaults (stop_of result) self.old.faults self.new.faults }
        ensures failed { OnErr outcome (IsErr result) }
        ensures made { self.new.made ≡ self.old.made }
    {
        match outcome {
            Ok(value) => Ok(value),
            Err(SystemError { error }) if is_want_of_memory(&error) => Err(DeskError::Memory),
            Err(SystemError { error: _ }) => {
                self.faults = self.faults.saturating_add(1);
                Err(DeskError::Failed)
            }
        }
    }
}

/// Whether an allocation of our own failed, and not the system.
fn is_want_of_memory(error: &io::Error) -> bool
    ensures { IsTrue result ↔ IsWantOfMemory error.now }
{
    error.kind() == ErrorKind::OutOfMemory && error.raw_os_error().is_none()
}

/// Reads from place `at` of a file, and answers how many bytes it put into the front of `into`.
fn read_file<Rt: Files>(rt: &Rt, name: &str, at: u64, into: &mut [u8]) -> Result<usize, SystemError>
    ensures within { IfOk result (λ n. n ≤ length into.new) }
    ensures bytes { IfOk result (λ n. (file : Rt.File) × IsReadAt
        Rt.File.stream_position Rt.File.stream_bytes Rt.File.remaining file at into.new n) }
{
    let mut file = open(rt, name)?;
    read_from(&mut file, at, into)
}

/// Adds `piece` to the file that was made under this name, which is made first where it wasn't.
fn append_file<Rt: Files>(
    rt: &Rt,
    alloc: Global,
    made: &mut Option<MadeFile<Rt::File>>,
    name: &Name,
    piece: &[u8],
) -> Result<(), SystemError>
    ensures whole { OnOk result
        (IsAddedTo Rt.File.contents name.now made.old made.new piece.now) }
    ensures prefix { OnErr result ((made.new ≡ made.old) ⊎ TakesPrefix piece.now
        (IsAddedTo Rt.File.contents name.now made.old made.new)) }
{
    match made {
        Some(file) if file.is_called(name) => file.append(piece),
        _ => made.insert(make(rt, alloc, name)?).append(piece),
    }
}

impl<Rt: Files + Print> Desk for HostDesk<Rt> {
    ghost use Rattle.gl_desk.specs.HostDesk.{told_by};

    ghost told = { told_by };

    fn names(&mut self, alloc: Global) -> Result<Vec<Name>, DeskError> {
        let listed = plain_names(&self.rt, alloc);
        self.settle(listed)
    }

    fn read_at(
        &mut self,
        _alloc: Global,
        name: &Name,
        at: u64,
        into: &mut [u8],
    ) -> Result<usize, DeskError>
        ensures within { IfOk result (λ n. n ≤ length into.new) }
        ensures bytes { IfOk result (λ n. (file : Rt.File) × IsReadAt
            Rt.File.stream_position Rt.File.stream_bytes Rt.File.remaining file at into.new n) }
        ensures reads { OnlyReads (stop_of result) (told_by self.old) (told_by self.new) }
    {
        let read = read_file(&self.rt, name.as_str(), at, into);
        self.settle(read)
    }

    fn append(&mut self, alloc: Global, name: &Name, piece: &[u8]) -> Result<(), DeskError>
        ensures whole { OnOk result
            (IsAddedTo Rt.File.contents name.now self.old.made self.new.made piece.now) }
        ensures prefix { OnErr result ((self.new.made ≡ self.old.made) ⊎ TakesPrefix piece.now
            (IsAddedTo Rt.File.contents name.now self.old.made self.new.made)) }
        ensures faults { CountsFaults (stop_of result) self.old.faults self.new.faults }
    {
        let written = append_file(&self.rt, alloc, &mut self.made, name, piece);
        self.settle(written)
    }

    fn say(&mut self, _alloc: Global, piece: &[u8]) -> Result<(), DeskError> {
        let written = write_whole(&mut io::writer(&self.rt), piece);
        self.settle(written)
    }
}
