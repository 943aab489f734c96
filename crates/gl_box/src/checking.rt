ghost use Rattle.std.specs.Prelude.{◌≡◌, ◌∷◌, ◌++◌, ◌↔◌, ℕ, List, [], IfOk, IsTrue, MatchOption, None, OnOk};
ghost use Rattle.gl_box.specs.Cell.{Covers, spans_of};
ghost use Rattle.gl_box.specs.Passing.{ArePassed, AreSaid, HasSaid, IsChecking, IsCovered};
ghost use Rattle.gl_box.specs.Way.{HasCome, open_of};

use crate::cell::Cell;
use crate::way::OpenCells;
use std::alloc::{AllocError, Global};

/// A test of boxes: whether each is closed by its reason.
pub trait BoxTest {
    /// Why a box is closed.
    type Why: Copy;

    /// What the test works in.
    type Room: Drop;

    /// The cell that the boxes have to part.
    ghost whole: { Self → List (ℕ × ℕ) };

    /// A box is closed by its reason.
    ghost closes: { Self → List (ℕ × ℕ) × Self.Why → Type 0 };

    /// The test can work in this room.
    ghost is_room: { Self → Self.Room → Type 0 };

    /// Whether a box is closed by its reason.
    fn is_closed(&self, room: &mut Self::Room, cell: &Cell, why: Self::Why) -> bool
        requires covers { Covers (whole self.now) (spans_of cell.now) }
        requires room { is_room self.now room.old }
        ensures closed { IsTrue result ↔ closes self.now (spans_of cell.now, why) }
        ensures room { is_room self.now room.new };
}

/// What is said of boxes that have to part a whole cell, each closed by its reason. Boxes count
/// from 1, and a number above 4,294,967,295 is that one.
#[derive(Clone, Copy, Debug, PartialEq, Eq)]
pub enum Said {
    /// Nothing is wrong.
    NoneWrong,
    /// The boxes before this one are already the whole.
    ExtraBox(u32),
    /// The boxes up to this one begin no partition of the whole by splits.
    StrayBox(u32),
    /// This box isn't closed by its reason.
    UnclosedBox(u32),
    /// The boxes end before the whole is covered.
    Unfinished,
}

/// A check of boxes that come one after the other. It keeps the cells that are still open, and
/// nothing of a box that was passed.
#[derive(Drop)]
pub struct BoxCheck<T, R> {
    pub test: T,
    pub room: R,
    /// The cells that are still open.
    pub opened: OpenCells,
    /// The number of the next box.
    pub number: u32,
    /// The first thing that is wrong.
    pub wrong: Option<Said>,
}

impl<T: BoxTest + Drop> BoxCheck<T, T::Room> {
    /// A check that has seen no box yet. The only error is want of memory.
    pub fn new(
        alloc: Global,
        test: T,
        room: T::Room,
        whole: Cell,
    ) -> Result<BoxCheck<T, T::Room>, AllocError>
        requires whole { spans_of whole ≡ T.whole test }
        requires room { T.is_room test room }
        ensures begins { IfOk result (IsChecking T.whole T.closes T.is_room []) }
        ensures test { IfOk result (λ check. check.test ≡ test) }
    {
        Ok(BoxCheck {
            test,
            room,
            opened: OpenCells::of(alloc, whole)?,
            number: 1,
            wrong: None,
        })
    }

    /// What is wrong with the next box, where nothing was wrong before. The only error is want of
    /// memory.
    fn fault_of(&mut self, cell: &Cell, why: T::Why) -> Result<Option<Said>, AllocError>
        requires passed { (boxes : List (List (ℕ × ℕ) × T.Why))
            × ArePassed (T.whole self.old.test) (T.closes self.old.test) boxes
            (open_of self.old.opened) self.old.number }
        requires room { T.is_room self.old.test self.old.room }
        requires come { HasCome self.old.opened }
        ensures fault { IfOk result (λ fault. (boxes : List (List (ℕ × ℕ) × T.Why))
            → ArePassed (T.whole self.old.test) (T.closes self.old.test) boxes
            (open_of self.old.opened) self.old.number
            → MatchOption fault
            (IsCovered (T.whole self.old.test) (T.closes self.old.test) boxes
            (spans_of cell.now, why) (open_of self.new.opened))
            (HasSaid (T.whole self.old.test) (T.closes self.old.test)
            (boxes ++ (spans_of cell.now, why) ∷ []))) }
        ensures room { OnOk result (T.is_room self.new.test self.new.room) }
        ensures come { IfOk result (λ fault. fault ≡ None → HasCome self.new.opened) }
        ensures test { self.new.test ≡ self.old.test }
        ensures number { self.new.number ≡ self.old.number }
        ensures wrong { self.new.wrong ≡ self.old.wrong }
    {
        if !self.opened.is_open {
            return Ok(Some(Said::ExtraBox(self.number)));
        }
        if !self.opened.take(cell)? {
            return Ok(Some(Said::StrayBox(self.number)));
        }
        if !self.test.is_closed(&mut self.room, cell, why) {
            return Ok(Some(Said::UnclosedBox(self.number)));
        }
        Ok(None)
    }

    /// Takes the next box: it is looked for where the walk over the boxes stands, and tested there,
    /// unless something was wrong before. The only error is want of memory.
    pub fn take(&mut self, cell: &Cell, why: T::Why) -> Result<(), AllocError>
        requires { (boxes : List (List (ℕ × ℕ) × T.Why))
            × IsChecking T.whole T.closes T.is_room boxes self.old }
        ensures takes { OnOk result ((boxes : List (List (ℕ × ℕ) × T.Why))
            → IsChecking T.whole T.closes T.is_room boxes self.old
            → IsChecking T.whole T.closes T.is_room (boxes ++ (spans_of cell.now, why) ∷ [])
            self.new) }
        ensures test { self.new.test ≡ self.old.test }
    {
        if self.wrong.is_some() {
            return Ok(());
        }
        let wrong = self.fault_of(cell, why)?;
        self.number = self.number.saturating_add(1);
        self.wrong = wrong;
        Ok(())
    }

    /// What is said of the boxes that came, where no other follows.
    pub fn said(&self) -> Said
        ensures { (boxes : List (List (ℕ × ℕ) × T.Why))
            → IsChecking T.whole T.closes T.is_room boxes self.now
            → AreSaid (T.whole self.now.test) (T.closes self.now.test) boxes result }
    {
        if let Some(said) = self.wrong {
            return said;
        }
        if self.opened.is_open {
            Said::Unfinished
        } else {
            Said::NoneWrong
        }
    }
}
