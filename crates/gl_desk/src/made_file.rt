ghost use Rattle.std.specs.Prelude.{◌≡◌, ◌↔◌, IsTrue, IfOk, OnOk, OnErr};
ghost use Rattle.std.specs.Io.KnownBytes.{Appends};
ghost use Rattle.gl_desk.specs.Desk.{TakesPrefix};

use crate::name::Name;
use crate::system::{SystemError, open_new, write_whole};
use std::alloc::Global;
use std::io;
use std::io::Write;
use std::rt::Files;

/// A file that this run made, which is kept open: whatever stands under its name later on, what is
/// appended goes to the file that was made.
#[derive(Drop)]
pub struct MadeFile<F> {
    name: Name,
    file: F,
}

impl<F> MadeFile<F> {
    /// Whether it was made under this name.
    pub fn is_called(&self, name: &Name) -> bool
        ensures { IsTrue result ↔ (self.now.name ≡ name.now) }
    {
        &self.name == name
    }
}

impl<F: Write> MadeFile<F> {
    /// Adds a piece to it. After an error a prefix of the piece was added, perhaps an empty one.
    pub fn append(&mut self, piece: &[u8]) -> Result<(), SystemError>
        ensures name { self.new.name ≡ self.old.name }
        ensures whole { OnOk result
            (Appends (F.contents self.old.file) (F.contents self.new.file) piece.now) }
        ensures prefix { OnErr result (TakesPrefix piece.now
            (Appends (F.contents self.old.file) (F.contents self.new.file))) }
    {
        write_whole(&mut self.file, piece)
    }
}

/// Makes a file. A name under which something stands already is an error, and that is left as it
/// is:
/// no link is followed, and no pipe and no device is opened.
pub fn make<Rt: Files>(
    rt: &Rt,
    alloc: Global,
    name: &Name,
) -> Result<MadeFile<Rt::File>, SystemError>
    ensures { IfOk result (λ made. made.name ≡ name.now) }
{
    let name = Name::from_text(alloc, name.as_str()).map_err(io::Error::from)?;
    let file = open_new(rt, name.as_str())?;
    Ok(MadeFile { name, file })
}
