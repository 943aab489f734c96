ghost use Rattle.std.specs.Prelude.{◌≢◌, ◌↔◌, ◌++◌, ◌∷◌, [], ℕ, List, All, IsTrue, OnOk};
ghost use Rattle.gl_series.specs.Code.AddingRows.{HasNumbers};

use gl_desk::Name;
use std::alloc::{AllocError, Global};
use std::collections::BTreeSet;

/// The numbers of pilots that were read so far, so that a number that stands twice is found
/// without a look at each of them.
#[derive(Drop)]
pub(crate) struct Numbers {
    seen: BTreeSet<Name>,
}

impl Numbers {
    /// No number.
    pub fn new(alloc: Global) -> Numbers
        ensures { HasNumbers result [] }
    {
        Numbers {
            seen: BTreeSet::new(alloc),
        }
    }

    /// Whether a number is none of those that were read.
    pub fn is_new(&self, number: &Name) -> bool
        ensures { (numbers : List (List ℕ)) → HasNumbers self.now numbers
            → IsTrue result ↔ All (λ other. other ≢ number.now) numbers }
    {
        !self.seen.contains(number)
    }

    /// Keeps a number. The only error is want of memory.
    pub fn add(&mut self, alloc: Global, number: &Name) -> Result<(), AllocError>
        ensures { OnOk result ((numbers : List (List ℕ)) → HasNumbers self.old numbers
            → HasNumbers self.new (numbers ++ number.now ∷ [])) }
    {
        self.seen.insert(Name::from_text(alloc, number.as_str())?)?;
        Ok(())
    }
}
