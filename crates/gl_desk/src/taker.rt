ghost use Rattle.std.specs.Prelude.{◌≡◌, ◌++◌, ℕ, ℤ, List, OnOk};

use std::alloc::AllocError;

/// What takes the bytes of a file piece by piece.
pub trait Taker {
    // numbers that no piece changes
    ghost tag: { Self → List ℤ };

    // it stands for this text
    ghost stands_for: { Self → List ℕ → Type 0 };

    /// Takes the next piece. After want of memory it may stand for nothing.
    fn take(&mut self, piece: &[u8]) -> Result<(), AllocError>
        ensures tag { tag self.new ≡ tag self.old }
        ensures takes { OnOk result ((text : List ℕ) → stands_for self.old text
            → stands_for self.new (text ++ piece.now)) };
}
