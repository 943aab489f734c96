ghost use Rattle.std.specs.Prelude.{◌≡◌, []};
ghost use Rattle.gl_desk.specs.MemDesk.{failing_of};

use gl_desk::{Desk, DeskError, MemDesk, Name};
use std::alloc::{AllocError, Global};

/// A folder in memory: a desk whose calls fail for want of memory alone.
#[derive(Drop)]
pub(crate) struct Shelf {
    desk: MemDesk,
    // no call is to fail
    ghost steady: { failing_of desk ≡ [] },
}

impl Shelf {
    ghost use Rattle.std.specs.Prelude.{ℕ, List, IsTrue, IfOk};
    ghost use Rattle.std.specs.Map.{keys_of};
    ghost use Rattle.std.specs.Option.{option_copied};
    ghost use Rattle.gl_desk.specs.MemDesk.{all_differ, HoldsFiles};
    ghost use Rattle.gl_app.specs.Code.Shelf.{folder_on, said_on, outputs_on};

    /// A shelf with these files. The only error is want of memory.
    pub fn new(alloc: Global, files: Vec<(Name, Vec<u8>)>) -> Result<Shelf, AllocError>
        requires { IsTrue (all_differ (keys_of files.items)) }
        ensures files { IfOk result (λ shelf. HoldsFiles files.items (folder_on shelf)) }
        ensures said { IfOk result (λ shelf. said_on shelf ≡ []) }
        ensures outputs { IfOk result (λ shelf. (name : List ℕ) → outputs_on shelf name ≡ []) }
    {
        let desk = MemDesk::new(alloc, files, Vec::new(alloc))?;
        Ok(Shelf { desk })
    }

    /// What the file with this name holds, if there is one.
    pub fn file(&self, name: &Name) -> Option<&[u8]>
        ensures { option_copied result ≡ folder_on self.now name.now }
    {
        self.desk.file(name)
    }
}

impl Desk for Shelf {
    ghost use Rattle.gl_app.specs.Code.Shelf.{told_on};

    ghost told = { told_on };

    fn names(&mut self, alloc: Global) -> Result<Vec<Name>, DeskError> {
        self.desk.names(alloc)
    }

    fn read_at(
        &mut self,
        alloc: Global,
        name: &Name,
        at: u64,
        into: &mut [u8],
    ) -> Result<usize, DeskError> {
        self.desk.read_at(alloc, name, at, into)
    }

    fn append(&mut self, alloc: Global, name: &Name, piece: &[u8]) -> Result<(), DeskError> {
        self.desk.append(alloc, name, piece)
    }

    fn say(&mut self, alloc: Global, piece: &[u8]) -> Result<(), DeskError> {
        self.desk.say(alloc, piece)
    }
}
