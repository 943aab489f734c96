ghost use Rattle.std.specs.Prelude.{◌≡◌, ◌+◌, ◌-◌, ◌^◌, ◌<◌, ◌≤◌, ◌↔◌, min, IsTrue};

use crate::error::DeskError;

/// The calls of a desk: which of them fail, how many were made, and how many of those failed.
#[derive(Drop)]
pub struct Calls {
    pub failing: Vec<u64>,
    pub made: u64,
    pub failed: u64,
    ghost counted: { failed ≤ made },
}

impl Calls {
    ghost use Rattle.gl_desk.specs.MemDesk.{IsNextDue};

    /// Before the first call. The k-th, counted from 1, is to fail where `failing` holds k.
    pub fn new(failing: Vec<u64>) -> Calls
        ensures made { result.made ≡ 0 }
        ensures failed { result.failed ≡ 0 }
        ensures failing { result.failing.items ≡ failing.items }
    {
        Calls {
            failing,
            made: 0,
            failed: 0,
        }
    }

    /// How many calls were made.
    pub fn made(&self) -> u64
        ensures { result ≡ self.now.made }
    {
        self.made
    }

    /// Counts a call, and tells whether it is one that fails. Once 2^64 - 1 calls were made, a
    /// call has no number and doesn't fail.
    pub fn count_call(&mut self) -> bool
        ensures due { IsTrue result ↔ IsNextDue self.old }
        ensures made { self.new.made ≡ min (self.old.made + 1) (2 ^ 64 - 1) }
        ensures room { IsTrue result → self.new.failed < self.new.made }
        ensures failed { self.new.failed ≡ self.old.failed }
        ensures failing { self.new.failing.items ≡ self.old.failing.items }
    {
        match self.made.checked_add(1) {
            Some(number) => {
                self.made = number;
                self.failing.contains(&number)
            }
            None => false,
        }
    }

    /// Counts the call as one that failed.
    pub fn fail(&mut self) -> DeskError
        requires { self.old.failed < self.old.made }
        ensures answer { result ≡ DeskError.Failed }
        ensures failed { self.new.failed ≡ self.old.failed + 1 }
        ensures made { self.new.made ≡ self.old.made }
        ensures failing { self.new.failing.items ≡ self.old.failing.items }
    {
        self.failed += 1;
        DeskError::Failed
    }
}
